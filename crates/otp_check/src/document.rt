//! All that is found in a file.

ghost use Rattle.std.specs.Prelude.{◌≡◌, IfOk};
ghost use Rattle.otp_check.specs.Checks.{BeginsWith, Finds};

use crate::finding::{Finding, of_table, of_text};
use crate::hints::{strange_front, what_no_toml, what_nothing, write_letter};
use crate::owner::Owner;
use crate::parts::{Found, scan};
use crate::source::{Source, line_behind};
use otp_file::{TableFault, TreeFault, read_located};
use std::alloc::{AllocError, Global};
use toml::Table;

/// All faults that are found in a tree file, that for which its tree is refused before the others.
///
/// # Errors
///
/// Where memory is refused.
pub fn check(alloc: Global, file: &[u8]) -> Result<Vec<Finding>, AllocError>
    ensures { IfOk result (λ findings. Finds findings.items file.now) }
{
    match read_located(alloc, file) {
        Ok(_) => Ok(Vec::new(alloc)),
        Err(
            TableFault {
                fault: TreeFault::OutOfMemory,
                ..
            },
        ) => Err(AllocError),
        Err(why) => findings_from(alloc, why, file),
    }
}

/// What to say of a lawful file that its writer may not have meant: nothing stands in it.
pub fn warning(alloc: Global, file: &[u8]) -> Option<&'static str> {
    match toml::table_from_slice(alloc, file) {
        Ok(table) if table.is_empty() => Some(what_nothing(file)),
        _ => None,
    }
}

/// What is found in a file whose tree is refused for this fault.
fn findings_from(alloc: Global, why: TableFault, file: &[u8]) -> Result<Vec<Finding>, AllocError>
    ensures { IfOk result (λ findings. BeginsWith why.fault findings.items) }
{
    match toml::table_from_slice(alloc, file) {
        Ok(table) => findings_in(alloc, why, file, &table),
        Err(error) if error.is_memory() => Err(AllocError),
        Err(error) => only_text(alloc, why.fault, file, &error),
    }
}

/// What is found in the document of a file whose tree is refused for this fault.
fn findings_in(
    alloc: Global,
    why: TableFault,
    file: &[u8],
    table: &Table,
) -> Result<Vec<Finding>, AllocError>
    ensures { IfOk result (λ findings. BeginsWith why.fault findings.items) }
{
    let source = Source::read(alloc, file)?;
    let found = scan(alloc, why, &source, table);
    drop(source);
    let Found { first, others } = found?;
    let first = first_of(alloc, why.fault, first)?;
    put_first(first, others)
}

/// The finding of a text that is no document.
fn only_text(
    alloc: Global,
    fault: TreeFault,
    file: &[u8],
    error: &toml::de::Error,
) -> Result<Vec<Finding>, AllocError>
    ensures { IfOk result (λ findings. BeginsWith fault findings.items) }
{
    let mut place = text_of(alloc, error)?;
    write_strange(rest_of(file, error), &mut place)?;
    let what = what_no_toml(error.message(), file, rest_of(file, error));
    let finding = of_text(alloc, fault, place.as_slice(), what.as_bytes())?;
    put_first(finding.on_line(Some(line_of(file, error))), Vec::new(alloc))
}

/// Appends which letter stands at the front of a text, where it isn't plain.
fn write_strange(rest: &[u8], out: &mut Vec<u8>) -> Result<(), AllocError> {
    match strange_front(rest) {
        Some(letter) => {
            out.extend_from_slice(b"; here stands ")?;
            write_letter(letter, out)
        }
        None => Ok(()),
    }
}

/// The line on which a text is no document any more.
fn line_of(file: &[u8], error: &toml::de::Error) -> u64 {
    let read = match error.span() {
        Some(span) => file.get(..span.start).unwrap_or(b""),
        None => b"",
    };
    line_behind(read)
}

/// Why a text is no document, and where, in one line.
fn text_of(alloc: Global, error: &toml::de::Error) -> Result<Vec<u8>, AllocError> {
    let told = error.to_string(alloc)?;
    let told = told.trim_end().as_bytes();
    let mut text = Vec::new(alloc);
    for byte in told {
        if *byte == b'\n' {
            text.extend_from_slice(b": ")?;
        } else {
            text.push(*byte).map_err(|_| AllocError)?;
        }
    }
    Ok(text)
}

/// The file from the place on at which it is no document.
fn rest_of<'a>(file: &'a [u8], error: &toml::de::Error) -> &'a [u8] {
    match error.span() {
        Some(span) => file.get(span.start..).unwrap_or(b""),
        None => b"",
    }
}

/// The finding of this fault, if it was found, and else one without its table.
fn first_of(alloc: Global, fault: TreeFault, found: Option<Finding>) -> Result<Finding, AllocError>
    ensures { IfOk result (λ first. first.fault ≡ fault) }
{
    match found {
        Some(found) if found.fault == fault => Ok(found),
        _ => of_table(alloc, fault, &Owner::Supervisor(b"")),
    }
}

/// One finding before others.
fn put_first(first: Finding, others: Vec<Finding>) -> Result<Vec<Finding>, AllocError>
    ensures { IfOk result (λ findings. BeginsWith first.fault findings.items) }
{
    let mut findings = others;
    findings.insert(0, first).map_err(|_| AllocError)?;
    Ok(findings)
}
