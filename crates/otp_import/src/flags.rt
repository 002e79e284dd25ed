//! The flags of a supervisor.

use crate::term::{TermKind, Terms};
use crate::values::{put_number_of, put_one_of};
use otp_foreign::{ImportFault, ImportWork, Why};
use otp_spec::{MAX_INTENSITY, MAX_PERIOD};

/// The parts of a term that say flags, where they are said.
#[derive(Clone, Copy, Debug)]
struct Flags {
    strategy: Option<usize>,
    intensity: Option<usize>,
    period: Option<usize>,
    auto_shutdown: Option<usize>,
}

/// None are said.
fn no_flags() -> Flags {
    Flags {
        strategy: None,
        intensity: None,
        period: None,
        auto_shutdown: None,
    }
}

/// Takes a flag by its key. Elixir has words of its own for two.
fn take_flag(
    work: &mut ImportWork<'_>,
    terms: &Terms,
    key: usize,
    value: usize,
    flags: &mut Flags,
) -> Result<(), ImportFault> {
    let word = terms.bytes(work.text, key);
    match word {
        b"strategy" => flags.strategy = Some(value),
        b"intensity" | b"max_restarts" => flags.intensity = Some(value),
        b"period" | b"max_seconds" => flags.period = Some(value),
        b"auto_shutdown" => flags.auto_shutdown = Some(value),
        _ => work.remark(
            terms.start(key),
            "flag ",
            word,
            ": it has no counterpart, and is left out",
        )?,
    }
    Ok(())
}

/// The flags of a map, or of a list of keys and values.
fn flags_by_key(work: &mut ImportWork<'_>, terms: &Terms, at: usize) -> Result<Flags, ImportFault> {
    let mut flags = no_flags();
    let entries = terms.entries(work.alloc, at)?;
    for entry in entries.as_slice() {
        take_flag(work, terms, entry.key, entry.value, &mut flags)?;
    }
    Ok(flags)
}

/// The flags that a part says.
fn flags_of(work: &mut ImportWork<'_>, terms: &Terms, at: usize) -> Result<Flags, ImportFault> {
    let is_tuple = terms.is_kind(at, TermKind::Tuple);
    if is_tuple && terms.count(at) == 3 {
        return Ok(Flags {
            strategy: terms.nth(at, 0),
            intensity: terms.nth(at, 1),
            period: terms.nth(at, 2),
            auto_shutdown: None,
        });
    }
    if is_tuple || !(terms.is_kind(at, TermKind::Map) || terms.is_kind(at, TermKind::List)) {
        return Err(ImportFault::At(terms.start(at), Why::BadFlags));
    }
    flags_by_key(work, terms, at)
}

/// Writes the flags of a supervisor, and says whether all its children are made from one.
pub(crate) fn put_flags(
    work: &mut ImportWork<'_>,
    terms: &Terms,
    at: usize,
) -> Result<bool, ImportFault> {
    let flags = flags_of(work, terms, at)?;
    let mut is_simple = false;
    if let Some(at) = flags.strategy {
        let words = [
            "one_for_one",
            "one_for_all",
            "rest_for_one",
            "simple_one_for_one",
        ];
        put_one_of(work, terms, "strategy", at, &words, Why::BadStrategy)?;
        is_simple = terms.is_atom(work.text, at, b"simple_one_for_one");
    }
    if let Some(at) = flags.intensity {
        put_number_of(work, terms, "intensity", at, 0, MAX_INTENSITY)?;
    }
    if let Some(at) = flags.period {
        put_number_of(work, terms, "period", at, 1, MAX_PERIOD)?;
    }
    if let Some(at) = flags.auto_shutdown {
        let words = ["never", "any_significant", "all_significant"];
        put_one_of(
            work,
            terms,
            "auto_shutdown",
            at,
            &words,
            Why::BadAutoShutdown,
        )?;
    }
    Ok(is_simple)
}
