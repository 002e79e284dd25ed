//! `check`: what is wrong in a tree file?

ghost use Rattle.std.specs.Prelude.{◌≡◌, true, IfOk};
ghost use Rattle.otp_commands.specs.Findings.{TellsFaults, TellsLawful, TellsLines, TellsPlain, TellsRemarks, TellsUnread, TellsWarned, TellsWhy};
ghost use Rattle.otp_commands.specs.Runs.{IsChecked, IsLawfulFor, IsPlainFor, IsWritten};
ghost use Rattle.otp_commands.specs.Found.{remarked};
ghost use Rattle.otp_exit.specs.declared.ending.ProgramEnd.TheVariants.{Done, FaultsFound, FileNotRead};

use crate::findings::{shown_name, write_line, write_plain_line, write_some, write_unread_line};
use crate::lint::{LintFinding, find_remarks};
use crate::objects::{
    put_fault_object, put_lawful_object, put_remark_object, put_unread_object, put_warned_object,
};
use otp_check::starts::find_unfit;
use otp_check::{Remark, check, warning};
use otp_cli::Checking;
use otp_exit::ProgramEnd;
use otp_sim::{Failed, Output, write_all};
use std::alloc::{AllocError, Global};

/// Writes all that is wrong in a file, a line for each fault, that for which its tree is refused first. Of a file in which nothing
/// is wrong it writes the remarks, where they are wanted.
#[tactic(auto, using(crate::proofs::Written::lawful_when))]
pub fn check_file<'a, W: Output>(
    alloc: Global,
    name: &'a str,
    file: &[u8],
    checking: Checking,
    output: &mut W,
) -> ProgramEnd<'a>
    ensures { IsChecked checking name.now result file.now
        (W.seen output.old) (W.seen output.new) }
{
    let Ok(findings) = check(alloc, file) else {
        return ProgramEnd::OutOfMemory;
    };
    match findings.as_slice() {
        [] if checking.has_starts => check_starts(alloc, name, file, checking, output),
        [] => check_remarks(alloc, name, file, checking, output),
        faults => write_faults(alloc, name, faults, checking, output),
    }
}

/// Writes which starts of a lawful file `run` would refuse.
#[tactic(auto, using(crate::proofs::Written::runnable_when))]
fn check_starts<'a, W: Output>(
    alloc: Global,
    name: &'a str,
    file: &[u8],
    checking: Checking,
    output: &mut W,
) -> ProgramEnd<'a>
    requires starts { checking.has_starts ≡ true }
    ensures { IsChecked checking name.now result file.now
        (W.seen output.old) (W.seen output.new) }
{
    let Ok(findings) = find_unfit(alloc, file) else {
        return ProgramEnd::OutOfMemory;
    };
    match findings.as_slice() {
        [] => check_remarks(alloc, name, file, checking, output),
        unfit => write_faults(alloc, name, unfit, checking, output),
    }
}

/// Writes the remarks on the tree of a lawful file, where they are wanted and there are some.
#[tactic(auto, using(crate::proofs::Written::lawful_unasked))]
fn check_remarks<'a, W: Output>(
    alloc: Global,
    name: &'a str,
    file: &[u8],
    checking: Checking,
    output: &mut W,
) -> ProgramEnd<'a>
    requires lawful { IsLawfulFor checking.has_starts file.now }
    ensures { IsChecked checking name.now result file.now
        (W.seen output.old) (W.seen output.new) }
{
    if !checking.has_remarks {
        return write_lawful(alloc, name, file, checking, output);
    }
    let Ok(remarks) = find_remarks(alloc, file) else {
        return ProgramEnd::OutOfMemory;
    };
    match remarks.as_slice() {
        [] => write_lawful(alloc, name, file, checking, output),
        some => write_remarks(alloc, name, some, checking, output),
    }
}

/// What is written of a lawful file.
fn text_of_plain(alloc: Global, is_json: bool, name: &str) -> Result<Vec<u8>, AllocError>
    ensures { IfOk result (λ text. TellsPlain is_json name.now text.items) }
{
    let mut text = Vec::new(alloc);
    if is_json {
        put_lawful_object(name.as_bytes(), &mut text)?;
        return Ok(text);
    }
    let shown = shown_name(alloc, name)?;
    write_plain_line(shown.as_slice(), &mut text)?;
    Ok(text)
}

/// What is written of a lawful file of which this is said.
fn text_of_warned(
    alloc: Global,
    is_json: bool,
    name: &str,
    warning: &str,
) -> Result<Vec<u8>, AllocError>
    ensures { IfOk result (λ text. TellsWarned is_json name.now warning.now text.items) }
{
    let mut text = Vec::new(alloc);
    if is_json {
        put_warned_object(name.as_bytes(), warning.as_bytes(), &mut text)?;
        return Ok(text);
    }
    let shown = shown_name(alloc, name)?;
    write_line(shown.as_slice(), None, warning.as_bytes(), &mut text)?;
    Ok(text)
}

/// What is written of a lawful file, of which something may be said all the same.
fn text_of_lawful(
    alloc: Global,
    is_json: bool,
    name: &str,
    file: &[u8],
) -> Result<Vec<u8>, AllocError>
    ensures { IfOk result (λ text. TellsLawful is_json name.now text.items) }
{
    match warning(alloc, file) {
        None => text_of_plain(alloc, is_json, name),
        Some(warning) => text_of_warned(alloc, is_json, name, warning),
    }
}

/// Writes that nothing is wrong in a file.
fn write_lawful<'a, W: Output>(
    alloc: Global,
    name: &'a str,
    file: &[u8],
    checking: Checking,
    output: &mut W,
) -> ProgramEnd<'a>
    ensures { IsWritten (TellsLawful checking.is_json name.now) Done result (W.seen output.old) (W.seen output.new) }
{
    let Ok(text) = text_of_lawful(alloc, checking.is_json, name, file) else {
        return ProgramEnd::OutOfMemory;
    };
    match write_all(output, text.as_slice()) {
        Ok(()) => ProgramEnd::Done,
        Err(Failed) => ProgramEnd::OutputFailed,
    }
}

/// What was found in a file, in lines.
fn text_of_lines<F: Remark>(
    alloc: Global,
    has_all: bool,
    name: &str,
    found: &[F],
) -> Result<Vec<u8>, AllocError>
    ensures { IfOk result (λ text. TellsLines F.remarked has_all name.now found.now text.items) }
{
    let mut text = Vec::new(alloc);
    let shown = shown_name(alloc, name)?;
    write_some(has_all, shown.as_slice(), found, &mut text)?;
    Ok(text)
}

/// What is written of a file with these faults.
fn text_of_faults<F: Remark>(
    alloc: Global,
    is_json: bool,
    has_all: bool,
    name: &str,
    faults: &[F],
) -> Result<Vec<u8>, AllocError>
    ensures { IfOk result (λ text. TellsFaults F.remarked is_json has_all name.now faults.now text.items) }
{
    if !is_json {
        return text_of_lines(alloc, has_all, name, faults);
    }
    let mut text = Vec::new(alloc);
    put_fault_object(name.as_bytes(), faults, &mut text)?;
    Ok(text)
}

/// What is written of a lawful file with these remarks on its tree.
fn text_of_remarks(
    alloc: Global,
    is_json: bool,
    has_all: bool,
    name: &str,
    remarks: &[LintFinding],
) -> Result<Vec<u8>, AllocError>
    ensures { IfOk result (λ text. TellsRemarks remarked is_json has_all name.now remarks.now text.items) }
{
    if !is_json {
        return text_of_lines(alloc, has_all, name, remarks);
    }
    let mut text = Vec::new(alloc);
    put_remark_object(name.as_bytes(), remarks, &mut text)?;
    Ok(text)
}

/// Writes what is wrong in a file.
fn write_faults<'a, W: Output, F: Remark>(
    alloc: Global,
    name: &'a str,
    faults: &[F],
    checking: Checking,
    output: &mut W,
) -> ProgramEnd<'a>
    ensures { IsWritten (TellsFaults F.remarked checking.is_json checking.has_all name.now faults.now) FaultsFound result
        (W.seen output.old) (W.seen output.new) }
{
    let Ok(text) = text_of_faults(alloc, checking.is_json, checking.has_all, name, faults) else {
        return ProgramEnd::OutOfMemory;
    };
    match write_all(output, text.as_slice()) {
        Ok(()) => ProgramEnd::FaultsFound,
        Err(Failed) => ProgramEnd::OutputFailed,
    }
}

/// Writes the remarks on the tree of a lawful file.
fn write_remarks<'a, W: Output>(
    alloc: Global,
    name: &'a str,
    remarks: &[LintFinding],
    checking: Checking,
    output: &mut W,
) -> ProgramEnd<'a>
    ensures { IsWritten (TellsRemarks remarked checking.is_json checking.has_all name.now remarks.now) FaultsFound result
        (W.seen output.old) (W.seen output.new) }
{
    let Ok(text) = text_of_remarks(alloc, checking.is_json, checking.has_all, name, remarks) else {
        return ProgramEnd::OutOfMemory;
    };
    match write_all(output, text.as_slice()) {
        Ok(()) => ProgramEnd::FaultsFound,
        Err(Failed) => ProgramEnd::OutputFailed,
    }
}

/// What is written of a file that can't be read.
fn text_of_unread(
    alloc: Global,
    is_json: bool,
    name: &str,
    why: &str,
) -> Result<Vec<u8>, AllocError>
    ensures { IfOk result (λ text. TellsWhy is_json name.now why.now text.items) }
{
    let mut text = Vec::new(alloc);
    if is_json {
        put_unread_object(name.as_bytes(), why.as_bytes(), &mut text)?;
        return Ok(text);
    }
    let shown = shown_name(alloc, name)?;
    write_unread_line(alloc, shown.as_slice(), why.as_bytes(), &mut text)?;
    Ok(text)
}

/// Writes that a file can't be read, and why.
pub(crate) fn write_unread<'a, W: Output>(
    alloc: Global,
    name: &'a str,
    why: &str,
    checking: Checking,
    output: &mut W,
) -> ProgramEnd<'a>
    ensures { IsWritten (TellsUnread checking.is_json name.now) FileNotRead result (W.seen output.old) (W.seen output.new) }
{
    let Ok(text) = text_of_unread(alloc, checking.is_json, name, why) else {
        return ProgramEnd::OutOfMemory;
    };
    match write_all(output, text.as_slice()) {
        Ok(()) => ProgramEnd::FileNotRead,
        Err(Failed) => ProgramEnd::OutputFailed,
    }
}
