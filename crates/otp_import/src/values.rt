//! Values of flags and of child specifications.

use crate::term::{TermKind, Terms};
use otp_foreign::{ImportFault, ImportWork, Why, number_in};

/// Whether one of these words is this one.
fn is_one_of(word: &[u8], words: &[&str]) -> bool {
    for other in words {
        if other.as_bytes() == word {
            return true;
        }
    }
    false
}

/// Writes an atom that is one of these words.
pub(crate) fn put_one_of(
    work: &mut ImportWork<'_>,
    terms: &Terms,
    key: &str,
    at: usize,
    words: &[&str],
    why: Why,
) -> Result<(), ImportFault> {
    let word = terms.bytes(work.text, at);
    if !terms.is_kind(at, TermKind::Atom) || !is_one_of(word, words) {
        return Err(ImportFault::At(terms.start(at), why));
    }
    work.put_word(key, word)?;
    Ok(())
}

/// Writes a number between these limits; of another one the nearest limit, with a remark.
pub(crate) fn put_number_of(
    work: &mut ImportWork<'_>,
    terms: &Terms,
    key: &str,
    at: usize,
    least: u64,
    most: u64,
) -> Result<(), ImportFault> {
    let digits = terms.bytes(work.text, at);
    let place = terms.start(at);
    let Some(number) = number_in(digits) else {
        return Err(ImportFault::At(place, Why::BadNumber));
    };
    put_within(work, key, place, number, least, most)
}

/// Writes a number that was read at this place.
pub(crate) fn put_within(
    work: &mut ImportWork<'_>,
    key: &str,
    place: usize,
    number: u64,
    least: u64,
    most: u64,
) -> Result<(), ImportFault> {
    if number < least {
        work.remark(
            place,
            key,
            b"",
            " is smaller than can be: the least is written",
        )?;
    } else if number > most {
        work.remark(
            place,
            key,
            b"",
            " is larger than can be: the most is written",
        )?;
    }
    work.put_number(key, number.max(least).min(most))?;
    Ok(())
}
