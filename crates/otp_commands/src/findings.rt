//! What `check` writes of a file, in lines for people.

ghost use Rattle.std.specs.Prelude.{◌≡◌, ◌++◌, IfOk, OnOk};
ghost use Rattle.std.specs.List.{list_any};
ghost use Rattle.otp_commands.specs.Findings.{IsShown, front_text, hidden_of, hidden_text, is_unplain, line_text, lines_text, more_text, plain_line, plain_name, some_text, unread_text, written_of};

use otp_check::Remark;
use otp_text::write_number;
use std::alloc::{AllocError, Global};

/// How many findings of a file are written where not all are wanted.
pub(crate) const MOST_WRITTEN: usize = 20;

/// Whether a byte isn't one of a plain letter.
fn is_unplain(byte: u8) -> bool
    ensures { result ≡ is_unplain byte }
{
    byte < 32 || byte > 126
}

/// Whether a name has a byte that isn't one of a plain letter.
fn has_unplain(name: &[u8]) -> bool
    ensures { result ≡ list_any is_unplain name.now }
{
    name.iter().any(|byte| is_unplain(*byte))
}

/// Whether a letter moves the cursor, or changes in which order others are shown.
fn is_strange(letter: char) -> bool {
    letter.is_control()
        || matches!(letter, '\u{200b}'..='\u{200f}' | '\u{2028}'..='\u{202e}' | '\u{2060}'..='\u{206f}' | '\u{feff}')
}

/// Appends a letter escaped, as in a text of Rust.
fn write_escaped(letter: char, out: &mut Vec<u8>) -> Result<(), AllocError> {
    for part in letter.escape_debug() {
        let mut room = [0u8; 4];
        out.extend_from_slice(part.encode_utf8(&mut room).as_bytes())?;
    }
    Ok(())
}

/// Appends a name of letters that aren't all plain: each escaped, if one is strange.
fn write_letters(name: &str, out: &mut Vec<u8>) -> Result<(), AllocError> {
    if !name.chars().any(is_strange) {
        return out.extend_from_slice(name.as_bytes());
    }
    for letter in name.chars() {
        write_escaped(letter, out)?;
    }
    Ok(())
}

/// Appends a name as it is. Of an empty one stand two quotes.
#[tactic(auto, unfolding(crate::specs::Findings::plain_name))]
fn write_plain(name: &[u8], out: &mut Vec<u8>) -> Result<(), AllocError>
    ensures { OnOk result (out.new.items ≡ out.old.items ++ plain_name name.now) }
{
    match name {
        [] => out.extend_from_slice(b"\"\""),
        name => out.extend_from_slice(name),
    }
}

/// The name of a file on one line: as it is, or escaped where a letter is strange.
pub(crate) fn shown_name(alloc: Global, name: &str) -> Result<Vec<u8>, AllocError>
    ensures { IfOk result (λ shown. IsShown name.now shown.items) }
{
    let mut shown = Vec::new(alloc);
    if has_unplain(name.as_bytes()) {
        write_letters(name, &mut shown)?;
        return Ok(shown);
    }
    write_plain(name.as_bytes(), &mut shown)?;
    Ok(shown)
}

/// Appends what stands in front of a text: the name of its file, and the number of its line, if that is known.
#[tactic(auto, unfolding(crate::specs::Findings::front_text))]
fn write_front(shown: &[u8], line: Option<u64>, out: &mut Vec<u8>) -> Result<(), AllocError>
    ensures { OnOk result (out.new.items ≡ out.old.items ++ front_text shown.now line) }
{
    out.extend_from_slice(shown)?;
    match line {
        None => out.extend_from_slice(b": "),
        Some(line) => {
            out.extend_from_slice(b":")?;
            write_number(line, out)?;
            out.extend_from_slice(b": ")
        }
    }
}

/// Appends a line.
#[tactic(auto, unfolding(crate::specs::Findings::line_text))]
pub(crate) fn write_line(
    shown: &[u8],
    line: Option<u64>,
    text: &[u8],
    out: &mut Vec<u8>,
) -> Result<(), AllocError>
    ensures { OnOk result (out.new.items ≡ out.old.items ++ line_text shown.now line text.now) }
{
    write_front(shown, line, out)?;
    out.extend_from_slice(text)?;
    out.extend_from_slice(b"\n")
}

/// Appends a line for each fault.
fn write_lines<F: Remark>(shown: &[u8], faults: &[F], out: &mut Vec<u8>) -> Result<(), AllocError>
    ensures { OnOk result (out.new.items ≡ out.old.items ++ lines_text F.remarked shown.now faults.now) }
{
    for fault in faults {
        write_line(shown, fault.line(), fault.text(), out)?;
    }
    Ok(())
}

/// The faults that are written: all, or so many at the most.
#[tactic(auto, unfolding(crate::specs::Findings::written_of))]
fn written_of<F>(has_all: bool, faults: &[F]) -> &[F]
    ensures { result.now ≡ written_of has_all faults.now }
{
    if has_all {
        faults
    } else if faults.len() <= MOST_WRITTEN {
        faults
    } else {
        &faults[..MOST_WRITTEN]
    }
}

/// How many of so many are not.
#[tactic(auto, unfolding(crate::specs::Findings::hidden_of))]
fn hidden_of(has_all: bool, count: usize) -> usize
    ensures { result ≡ hidden_of has_all count }
{
    if has_all {
        0
    } else {
        count.saturating_sub(MOST_WRITTEN)
    }
}

/// Appends how many faults are not written.
#[tactic(auto, unfolding(crate::specs::Findings::more_text))]
fn write_more(hidden: u64, out: &mut Vec<u8>) -> Result<(), AllocError>
    ensures { OnOk result (out.new.items ≡ out.old.items ++ more_text hidden) }
{
    out.extend_from_slice(b": and ")?;
    write_number(hidden, out)?;
    out.extend_from_slice(b" more; --all shows them\n")?;
    Ok(())
}

/// Appends the name, and how many faults are not written, if some are not.
#[tactic(auto, unfolding(crate::specs::Findings::hidden_text))]
fn write_hidden(shown: &[u8], hidden: u64, out: &mut Vec<u8>) -> Result<(), AllocError>
    ensures { OnOk result (out.new.items ≡ out.old.items ++ hidden_text shown.now hidden) }
{
    if hidden == 0 {
        return Ok(());
    }
    out.extend_from_slice(shown)?;
    write_more(hidden, out)
}

/// Appends a line for each fault, or for each of the first, and how many are not written.
#[tactic(auto, unfolding(crate::specs::Findings::some_text))]
pub(crate) fn write_some<F: Remark>(
    has_all: bool,
    shown: &[u8],
    faults: &[F],
    out: &mut Vec<u8>,
) -> Result<(), AllocError>
    ensures { OnOk result (out.new.items ≡ out.old.items ++ some_text F.remarked has_all shown.now faults.now) }
{
    write_lines(shown, written_of(has_all, faults), out)?;
    write_hidden(shown, hidden_of(has_all, faults.len()) as u64, out)
}

/// Appends the line of a lawful file.
#[tactic(auto, unfolding(crate::specs::Findings::plain_line))]
pub(crate) fn write_plain_line(shown: &[u8], out: &mut Vec<u8>) -> Result<(), AllocError>
    ensures { OnOk result (out.new.items ≡ out.old.items ++ plain_line shown.now) }
{
    write_line(shown, None, b"a lawful tree", out)
}

/// Appends the line of a file that can't be read.
#[tactic(auto, unfolding(crate::specs::Findings::unread_text))]
pub(crate) fn write_unread_line(
    alloc: Global,
    shown: &[u8],
    why: &[u8],
    out: &mut Vec<u8>,
) -> Result<(), AllocError>
    ensures { OnOk result (out.new.items ≡ out.old.items ++ unread_text shown.now why.now) }
{
    let mut text = Vec::new(alloc);
    text.extend_from_slice(b"can't be read: ")?;
    text.extend_from_slice(why)?;
    write_line(shown, None, text.as_slice(), out)
}
