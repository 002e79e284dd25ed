//! The children of a run, by the lines that tell their orders.

ghost use Rattle.std.specs.Prelude.{◌≡◌, ◌++◌, IfOk, OnOk, [], drop, length, ◌-◌};
ghost use Rattle.std.specs.List.{flat_map, list_any};
ghost use Rattle.std.specs.Str.{bytes_eq};
ghost use Rattle.otp_try.specs.declared.account.account.Played.{Played};
ghost use Rattle.otp_try_pages.specs.Names.{all_told, child_in, is_first_start, is_known, is_nameless, is_start, names_from, verb_in, with_name};

use crate::words::{first_word, is_child_verb, is_down, is_text, order_in, own_part, rest_of};
use otp_costs::limits::{Listed, Path};
use otp_try::account::{Account, Played};
use std::alloc::{AllocError, Global};

/// Appends the lines that were told of these lines of a script.
fn add_told(lines: &[Played], told: &mut Vec<u8>) -> Result<(), AllocError>
    ensures { OnOk result (told.new.items ≡ told.old.items ++ flat_map (λ (one : Played). one.told.items) lines.now) }
{
    for one in lines {
        told.extend_from_slice(one.told.as_slice())?;
    }
    Ok(())
}

/// All lines that a run told.
#[tactic(auto, unfolding(crate::specs::Names::all_told))]
pub(crate) fn all_told(alloc: Global, account: &Account) -> Result<Vec<u8>, AllocError>
    ensures { IfOk result (λ told. told.items ≡ all_told account.now) }
{
    let mut told = Vec::new(alloc);
    told.extend_from_slice(account.opening.told.as_slice())?;
    add_told(account.lines.as_slice(), &mut told)?;
    Ok(told)
}

/// The word of the order that a line tells.
#[tactic(auto, unfolding(crate::specs::Names::verb_in))]
pub(crate) fn verb_in(line: &[u8]) -> &[u8]
    ensures { result.now ≡ verb_in line.now }
{
    first_word(own_part(order_in(line)))
}

/// Whether a line tells the start of a child.
#[tactic(auto, unfolding(crate::specs::Names::is_start))]
pub(crate) fn is_start(line: &[u8]) -> bool
    ensures { result ≡ is_start line.now }
{
    is_text(verb_in(line), b"start")
}

/// The child of which a line tells; nothing where it tells of none.
#[tactic(auto, unfolding(crate::specs::Names::child_in))]
pub(crate) fn child_in(line: &[u8]) -> &[u8]
    ensures { result.now ≡ child_in line.now }
{
    if is_down(order_in(line)) {
        first_word(order_in(line))
    } else if is_child_verb(verb_in(line)) {
        first_word(rest_of(own_part(order_in(line))))
    } else {
        &[]
    }
}

/// The last two bytes of a text.
fn last_two(text: &[u8]) -> &[u8]
    ensures { result.now ≡ drop (length text.now - 2) text.now }
{
    &text[text.len().saturating_sub(2)..]
}

/// Whether this is told in the place of an id that isn't there.
#[tactic(auto, unfolding(crate::specs::Names::is_nameless))]
fn is_nameless(name: &[u8]) -> bool
    ensures { result ≡ is_nameless name.now }
{
    is_text(name, b"-") || is_text(last_two(name), b"/-")
}

/// Whether a name is among these.
#[tactic(auto, unfolding(crate::specs::Names::is_known))]
fn is_known(names: &[Path], name: &[u8]) -> bool
    ensures { result ≡ is_known names.now name.now }
{
    names.iter().any(|other| is_text(other.as_bytes(), name))
}

/// Whether a line tells the start of a child that has an id and isn't among these.
#[tactic(auto, unfolding(crate::specs::Names::is_first_start))]
fn is_first_start(names: &[Path], line: &[u8]) -> bool
    ensures { result ≡ is_first_start names.now line.now }
{
    is_start(line) && !is_nameless(child_in(line)) && !is_known(names, child_in(line))
}

/// Puts the child that a line starts behind others, if it has an id and isn't there yet.
#[tactic(auto, unfolding(crate::specs::Names::with_name))]
fn add_name(alloc: Global, names: &mut Listed<Path>, line: &[u8]) -> Result<(), AllocError>
    ensures { OnOk result (names.new ≡ with_name names.old line.now) }
{
    if is_first_start(names.as_slice(), line) {
        names.push(Path::copy_of(alloc, child_in(line))?)
    } else {
        Ok(())
    }
}

/// Puts the children that these lines start behind others, each once; the first line has begun so.
fn add_names(
    alloc: Global,
    told: &[u8],
    line: &mut Vec<u8>,
    names: &mut Listed<Path>,
) -> Result<(), AllocError>
    ensures { OnOk result (names.new ≡ names_from line.old.items names.old told.now) }
{
    for byte in told {
        if *byte == b'\n' {
            add_name(alloc, names, line.as_slice())?;
            line.clear();
        } else {
            line.push(*byte).map_err(|_| AllocError)?;
        }
    }
    Ok(())
}

/// The children that these lines start, each once, in the order of their first starts.
pub(crate) fn names_in(alloc: Global, told: &[u8]) -> Result<Listed<Path>, AllocError>
    ensures { IfOk result (λ names. names ≡ names_from [] [] told.now) }
{
    let mut line = Vec::new(alloc);
    let mut names = Listed::new(alloc);
    add_names(alloc, told, &mut line, &mut names)?;
    Ok(names)
}
