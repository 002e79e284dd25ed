//! The files that the program reads, and the pages that it writes.

ghost use Rattle.std.specs.Prelude.{Bool, ◌≡◌, ◌≤◌, ◌<◌, ◌++◌, ◌⊎◌, true, false, None, IfErr, IfOk, OnOk, OnErr, codes, length, vec_len};
ghost use Rattle.std.specs.Io.KnownBytes.{Appends};
ghost use Rattle.otp_exit.specs.Devices.{Files, IsApart, MayWrite};
ghost use Rattle.otp_exit.specs.Told.{IsUnkept, IsUnreadEnd, TellsFirst};
ghost use Rattle.otp_exit.specs.Statuses.{not_read_text};
ghost use Rattle.otp_exit.specs.declared.files.TheConstants.{LARGEST_FILE, LARGEST_TREE};
ghost use Rattle.otp_exit.specs.declared.ending.ProgramEnd.TheVariants.{FileNotRead, OutOfMemory, TreeNotRead};

use crate::ending::{ProgramEnd, Unwritten};
use crate::like::{is_log, is_script, is_tree, is_tree_for_log};
use otp_sim::{Failed, Output, write_all};
use std::io;
use std::io::ErrorKind;

/// The most bytes of a script, and of a tree file but for `sim` and `run`: 1 MiB. What is parsed takes many times the memory of its
/// file.
pub const LARGEST_TREE: usize = 1_048_576;

/// The most bytes of any other file, a log or the tree of `sim` and `run`: 256 MiB. A file that has no end is refused after that.
pub const LARGEST_FILE: usize = 268_435_456;

/// Why a file that is larger is not parsed.
const TOO_LARGE: &str = "it has more than 1048576 bytes, too many for a tree file";

/// Why a script that is larger is not played.
const TOO_LARGE_A_SCRIPT: &str = "it has more than 1048576 bytes, too many for a script";

/// Why a log that is larger is not replayed.
const TOO_LARGE_A_LOG: &str =
    "it has more than 268435456 bytes, too many for a log; keep the lines of children alone";

/// Why a tree file is no script.
const IS_A_TREE: &str = "it is a tree file where a script is wanted; otp try FILE SCRIPT";

/// Why a script is no tree file.
const IS_A_SCRIPT: &str = "it is a script where a tree file is wanted; otp try FILE SCRIPT";

/// Why a log is no tree file.
const IS_A_LOG: &str = "it is a log where a tree file is wanted; otp replay FILE LOG";

/// Why a tree file is no log.
const IS_NO_LOG: &str = "it is a tree file where a log is wanted; otp replay FILE LOG";

/// Why more of standard input is not taken whole.
const TOO_LONG: &str = "it has more than 1048576 bytes, too many for standard input; name a file";

/// Where tree files are read from, and pages are written to.
pub trait TreeFiles {
    /// What is known of files by their names: what bytes one may hold, and what of one to which such bytes were written.
    ghost known: { Self → Files };

    /// The bytes of a file. Of more than [`LARGEST_FILE`] not all are read.
    fn read(&self, name: &str) -> io::Result<Vec<u8>>
        ensures { IfOk result (λ file. (known self.now).holds name.now file.items) };

    /// The bytes of a tree file of this name. Of more than a tree file may have not all are read.
    fn read_tree(&self, name: &str) -> io::Result<Vec<u8>>
        ensures { IfOk result (λ file. (known self.now).holds name.now file.items) };

    /// The bytes of standard input, which is the file `-`. Of more than a tree file may have not all are read.
    fn read_input(&self) -> io::Result<Vec<u8>>
        ensures { IfOk result (λ file. (known self.now).holds (codes "-") file.items) };

    /// Whether two names are of one file, by whatever links. The name `-` is standard input.
    fn are_one(&self, name: &str, other: &str) -> bool
        ensures { result ≡ false → (known self.now).are_apart name.now other.now };

    /// Whether nothing is lost where the file of this name is written anew: there is none, or what it holds may go.
    fn is_free(&self, name: &str) -> bool
        ensures { result ≡ true → (known self.now).is_free name.now };

    /// Writes these bytes to the file of this name, and nothing of what it held stays.
    fn write(&self, name: &str, bytes: &[u8]) -> io::Result<()>
        requires { (known self.now).is_free name.now }
        ensures { OnOk result ((known self.now).keeps name.now bytes.now) };

    /// Whether somebody writes the lines of standard input at a terminal.
    fn is_terminal(&self) -> bool;

    /// Shows somebody at a terminal how far an answer is that takes long: so many of so many supervisors. Once all are it shows nothing.
    fn saw(&self, made: usize, of: usize);

    /// Whether what is written to standard output may have colours.
    fn has_colours(&self) -> bool;

    /// Why a write to standard output last failed, where that is known.
    fn unwritten(&self) -> Unwritten;
}

/// The bytes of the file of this name; `-` is standard input.
fn read_named<F: TreeFiles>(files: &F, name: &str) -> io::Result<Vec<u8>>
    ensures { IfOk result (λ file. (F.known files.now).holds name.now file.items) }
{
    match name.as_bytes() {
        b"-" => files.read_input(),
        _ => files.read(name),
    }
}

/// The bytes of the tree file of this name, of which no more are read than show that it has too many; `-` is standard input.
fn read_tree_named<F: TreeFiles>(files: &F, name: &str) -> io::Result<Vec<u8>>
    ensures { IfOk result (λ file. (F.known files.now).holds name.now file.items) }
{
    match name.as_bytes() {
        b"-" => files.read_input(),
        _ => files.read_tree(name),
    }
}

/// The bytes of a script, of which there are at most [`LARGEST_TREE`]; `-` is standard input. A tree file is none.
///
/// # Errors
///
/// Why it can't be read, or that it is larger or another.
pub fn take_script<F: TreeFiles>(files: &F, name: &str) -> Result<Vec<u8>, Unread>
    ensures holds { IfOk result (λ file. (F.known files.now).holds name.now file.items) }
    ensures small { IfOk result (λ file. vec_len file ≤ LARGEST_TREE) }
{
    let lines = match read_up_to(files, name, TOO_LARGE_A_SCRIPT) {
        Ok(lines) => lines,
        Err(unread) => return Err(unread),
    };
    if is_tree(&lines) {
        drop(lines);
        return Err(Unread::Since(IS_A_TREE));
    }
    Ok(lines)
}

/// The bytes of a script, as those of [`take_script`].
///
/// # Errors
///
/// Those of [`read_tree_file`].
pub fn read_script<'a, F: TreeFiles, E: Output>(
    files: &F,
    name: &'a str,
    errors: &mut E,
) -> Result<Vec<u8>, ProgramEnd<'a>>
    ensures holds { IfOk result (λ file. (F.known files.now).holds name.now file.items) }
    ensures small { IfOk result (λ file. vec_len file ≤ LARGEST_TREE) }
    ensures silent { OnOk result (errors.new ≡ errors.old) }
    ensures ending { IfErr result (λ ending. (ending ≡ FileNotRead) ⊎ (ending ≡ OutOfMemory)) }
    ensures first { IfErr result (λ ending. (drawn : Bool) → TellsFirst drawn ending (E.seen errors.old) (E.seen errors.new)) }
    ensures kept { (E.seen errors.old).failures ≤ (E.seen errors.new).failures }
{
    match take_script(files, name) {
        Ok(lines) => Ok(lines),
        Err(Unread::OutOfMemory) => Err(ProgramEnd::OutOfMemory),
        Err(Unread::Since(why)) => Err(tell_not_read(errors, name, why)),
    }
}

/// The bytes of a file, whatever it is, of which there are at most [`LARGEST_TREE`].
///
/// # Errors
///
/// Those of [`read_tree_file`].
pub fn read_any_file<'a, F: TreeFiles, E: Output>(
    files: &F,
    name: &'a str,
    errors: &mut E,
) -> Result<Vec<u8>, ProgramEnd<'a>>
    ensures holds { IfOk result (λ file. (F.known files.now).holds name.now file.items) }
    ensures small { IfOk result (λ file. vec_len file ≤ LARGEST_TREE) }
    ensures silent { OnOk result (errors.new ≡ errors.old) }
    ensures ending { IfErr result (λ ending. (ending ≡ FileNotRead) ⊎ (ending ≡ OutOfMemory)) }
    ensures first { IfErr result (λ ending. (drawn : Bool) → TellsFirst drawn ending (E.seen errors.old) (E.seen errors.new)) }
    ensures kept { (E.seen errors.old).failures ≤ (E.seen errors.new).failures }
{
    match read_small(files, name) {
        Ok(file) => Ok(file),
        Err(Unread::OutOfMemory) => Err(ProgramEnd::OutOfMemory),
        Err(Unread::Since(why)) => Err(tell_not_read(errors, name, why)),
    }
}

/// The bytes of a tree file, of which there are at most [`LARGEST_TREE`]. A script is none, and neither is a log.
///
/// # Errors
///
/// [`ProgramEnd::FileNotRead`], once it is told on `errors` which file can't be read and why, or that it is larger or another; and
/// [`ProgramEnd::OutOfMemory`].
pub fn read_tree_file<'a, F: TreeFiles, E: Output>(
    files: &F,
    name: &'a str,
    errors: &mut E,
) -> Result<Vec<u8>, ProgramEnd<'a>>
    ensures holds { IfOk result (λ file. (F.known files.now).holds name.now file.items) }
    ensures small { IfOk result (λ file. vec_len file ≤ LARGEST_TREE) }
    ensures silent { OnOk result (errors.new ≡ errors.old) }
    ensures ending { IfErr result (λ ending. (ending ≡ FileNotRead) ⊎ (ending ≡ OutOfMemory)) }
    ensures first { IfErr result (λ ending. (drawn : Bool) → TellsFirst drawn ending (E.seen errors.old) (E.seen errors.new)) }
    ensures kept { (E.seen errors.old).failures ≤ (E.seen errors.new).failures }
{
    let file = match read_any_file(files, name, errors) {
        Ok(file) => file,
        Err(ending) => return Err(ending),
    };
    if is_script(&file) {
        drop(file);
        return Err(tell_not_read(errors, name, IS_A_SCRIPT));
    }
    if is_log(&file) {
        drop(file);
        return Err(tell_not_read(errors, name, IS_A_LOG));
    }
    Ok(file)
}

/// The bytes of a log, of which there are at most [`LARGEST_FILE`]. Standard input, which is the file `-`, may be no longer than a
/// tree file, since no more of it is taken.
///
/// # Errors
///
/// Those of [`read_tree_file`].
pub fn read_log<'a, F: TreeFiles, E: Output>(
    files: &F,
    name: &'a str,
    errors: &mut E,
) -> Result<Vec<u8>, ProgramEnd<'a>>
    ensures holds { IfOk result (λ log. (F.known files.now).holds name.now log.items) }
    ensures large { IfOk result (λ log. vec_len log ≤ LARGEST_FILE) }
    ensures silent { OnOk result (errors.new ≡ errors.old) }
    ensures ending { IfErr result (λ ending. (ending ≡ FileNotRead) ⊎ (ending ≡ OutOfMemory)) }
    ensures first { IfErr result (λ ending. (drawn : Bool) → TellsFirst drawn ending (E.seen errors.old) (E.seen errors.new)) }
    ensures kept { (E.seen errors.old).failures ≤ (E.seen errors.new).failures }
{
    let log = match read_named(files, name) {
        Ok(log) => log,
        Err(error) => return Err(tell_error(errors, name, &error)),
    };
    match why_no_log(name, &log) {
        None => Ok(log),
        Some(why) => {
            drop(log);
            Err(tell_not_read(errors, name, why))
        }
    }
}

/// Why a log of this name isn't replayed, if it isn't.
fn why_no_log(name: &str, log: &[u8]) -> Option<&'static str>
    ensures { result ≡ None → length log.now ≤ LARGEST_FILE }
{
    match why_too_long(name, log.len()) {
        Some(why) => Some(why),
        None if is_tree_for_log(log) => Some(IS_NO_LOG),
        None => None,
    }
}

/// Why a log of this name and length isn't replayed, if it isn't.
fn why_too_long(name: &str, length: usize) -> Option<&'static str>
    ensures { result ≡ None → length ≤ LARGEST_FILE }
{
    if name == "-" && length > LARGEST_TREE {
        return Some(TOO_LONG);
    }
    if length > LARGEST_FILE {
        Some(TOO_LARGE_A_LOG)
    } else {
        None
    }
}

/// Why a page doesn't take the place of a file that is read.
const IS_READ: &str = "it is read here; name another page";

/// Why a page doesn't take the place of another file.
const NO_PAGE: &str = "it holds something else than a page; remove it first, or name another page";

/// The end where the page of this name may not be written, for this reason.
fn end_refused<'a>(name: &'a str, why: &'static str) -> ProgramEnd<'a>
    ensures { IsUnkept name.entry result }
{
    ProgramEnd::PageRefused(name, why)
}

/// Whether a file is another one than that of this name, if one is named.
fn is_apart<F: TreeFiles>(files: &F, page: &str, input: Option<&str>) -> bool
    ensures { result ≡ true → IsApart (F.known files.now) page.now input.entry }
{
    match input {
        None => true,
        Some(input) => !files.are_one(page, input),
    }
}

/// Asks whether a page may be written to the file of this name: it is none of the files that are read, and nothing else is lost.
///
/// # Errors
///
/// [`ProgramEnd::PageRefused`] with the reason.
pub fn ask_page<'a, F: TreeFiles>(
    files: &F,
    name: &'a str,
    file: &str,
    script: Option<&str>,
) -> Result<(), ProgramEnd<'a>>
    ensures may { OnOk result (MayWrite (F.known files.now) name.now file.now script.entry) }
    ensures ending { IfErr result (IsUnkept name.entry) }
{
    if files.are_one(name, file) {
        return Err(end_refused(name, IS_READ));
    }
    if !is_apart(files, name, script) {
        return Err(end_refused(name, IS_READ));
    }
    if files.is_free(name) {
        Ok(())
    } else {
        Err(end_refused(name, NO_PAGE))
    }
}

/// Writes a page to the file of this name, anew.
///
/// # Errors
///
/// [`ProgramEnd::PageNotWritten`] with the reason, and [`ProgramEnd::OutOfMemory`].
pub fn write_page<'a, F: TreeFiles>(
    files: &F,
    name: &'a str,
    page: &[u8],
) -> Result<(), ProgramEnd<'a>>
    requires free { (F.known files.now).is_free name.now }
    ensures kept { OnOk result ((F.known files.now).keeps name.now page.now) }
    ensures ending { IfErr result (IsUnkept name.entry) }
{
    match files.write(name, page) {
        Ok(()) => Ok(()),
        Err(error) => Err(end_unwritten(name, error.kind())),
    }
}

/// The end where the page of this name can't be written, by the kind of the error.
fn end_unwritten<'a>(name: &'a str, kind: ErrorKind) -> ProgramEnd<'a>
    ensures { IsUnkept name.entry result }
{
    match kind {
        ErrorKind::OutOfMemory => ProgramEnd::OutOfMemory,
        kind => ProgramEnd::PageNotWritten(name, why_unwritten(kind)),
    }
}

/// Why a page can't be written.
fn why_unwritten(kind: ErrorKind) -> &'static str {
    match kind {
        ErrorKind::NotFound => "there is no such folder",
        ErrorKind::NotADirectory => "a part of its path is no folder",
        ErrorKind::IsADirectory => "it is a folder",
        ErrorKind::PermissionDenied => "you may not write it",
        ErrorKind::ReadOnlyFilesystem => "nothing may be written there",
        ErrorKind::StorageFull | ErrorKind::QuotaExceeded | ErrorKind::FileTooLarge => {
            "there is no room left"
        }
        _ => "writing it failed",
    }
}

/// Why a file can't be read.
#[derive(Clone, Copy)]
pub enum Unread {
    OutOfMemory,
    Since(&'static str),
}

/// The bytes of a tree file, of which there are at most [`LARGEST_TREE`].
///
/// # Errors
///
/// Why it can't be read, or that it is larger.
pub fn read_small<F: TreeFiles>(files: &F, name: &str) -> Result<Vec<u8>, Unread>
    ensures holds { IfOk result (λ file. (F.known files.now).holds name.now file.items) }
    ensures small { IfOk result (λ file. vec_len file ≤ LARGEST_TREE) }
{
    read_up_to(files, name, TOO_LARGE)
}

/// The bytes of a file of which there are at most [`LARGEST_TREE`]; more are refused for this reason.
fn read_up_to<F: TreeFiles>(
    files: &F,
    name: &str,
    too_large: &'static str,
) -> Result<Vec<u8>, Unread>
    ensures holds { IfOk result (λ file. (F.known files.now).holds name.now file.items) }
    ensures small { IfOk result (λ file. vec_len file ≤ LARGEST_TREE) }
{
    let file = match read_tree_named(files, name) {
        Ok(file) => file,
        Err(error) => return Err(why_unread(error.kind())),
    };
    if file.len() > LARGEST_TREE {
        return Err(Unread::Since(too_large));
    }
    Ok(file)
}

/// Why a file can't be read, by the kind of the error.
fn why_unread(kind: ErrorKind) -> Unread {
    match kind {
        ErrorKind::OutOfMemory => Unread::OutOfMemory,
        kind => Unread::Since(why(kind)),
    }
}

/// The bytes of the tree file of `sim`, or of a file that is run, of which there are at most [`LARGEST_FILE`]. It isn't told why they
/// can't be read.
///
/// # Errors
///
/// [`ProgramEnd::TreeNotRead`] and [`ProgramEnd::OutOfMemory`].
pub fn read_large<'a, F: TreeFiles>(files: &F, name: &str) -> Result<Vec<u8>, ProgramEnd<'a>>
    ensures holds { IfOk result (λ file. (F.known files.now).holds name.now file.items) }
    ensures large { IfOk result (λ file. vec_len file ≤ LARGEST_FILE) }
    ensures ending { IfErr result (λ ending. (ending ≡ TreeNotRead) ⊎ (ending ≡ OutOfMemory)) }
{
    let file = match files.read(name) {
        Ok(file) => file,
        Err(error) => return Err(ProgramEnd::of_file(&error)),
    };
    if file.len() > LARGEST_FILE {
        drop(file);
        return Err(ProgramEnd::TreeNotRead);
    }
    Ok(file)
}

/// The bytes of a tree file that is run. Standard input, which is the file `-`, is read as by [`read_tree_file`], since no
/// more of it is taken than a tree may have; any other file as by [`read_large`].
///
/// # Errors
///
/// [`ProgramEnd::TreeNotRead`] and [`ProgramEnd::OutOfMemory`]; for standard input those of [`read_tree_file`].
pub fn read_run_file<'a, F: TreeFiles, E: Output>(
    files: &F,
    name: &'a str,
    errors: &mut E,
) -> Result<Vec<u8>, ProgramEnd<'a>>
    ensures holds { IfOk result (λ file. (F.known files.now).holds name.now file.items) }
    ensures silent { OnOk result (errors.new ≡ errors.old) }
    ensures ending { IfErr result IsUnreadEnd }
    ensures first { IfErr result (λ ending. (drawn : Bool) → TellsFirst drawn ending (E.seen errors.old) (E.seen errors.new)) }
    ensures kept { (E.seen errors.old).failures ≤ (E.seen errors.new).failures }
{
    if let b"-" = name.as_bytes() {
        return read_tree_file(files, name, errors);
    }
    read_large(files, name)
}

/// The end where a file can't be read, once it is told which and why, if not for want of memory.
fn tell_error<'a, E: Output>(errors: &mut E, name: &'a str, error: &io::Error) -> ProgramEnd<'a>
    ensures ending { (result ≡ FileNotRead) ⊎ (result ≡ OutOfMemory) }
    ensures first { (drawn : Bool) → TellsFirst drawn result (E.seen errors.old) (E.seen errors.new) }
    ensures kept { (E.seen errors.old).failures ≤ (E.seen errors.new).failures }
{
    match error.kind() {
        ErrorKind::OutOfMemory => ProgramEnd::OutOfMemory,
        kind => tell_not_read(errors, name, why(kind)),
    }
}

/// Tells which file can't be read, and why.
fn tell_not_read<'a, E: Output>(errors: &mut E, name: &'a str, why: &str) -> ProgramEnd<'a>
    ensures ending { result ≡ FileNotRead }
    ensures first { (drawn : Bool) → TellsFirst drawn result (E.seen errors.old) (E.seen errors.new) }
    ensures kept { (E.seen errors.old).failures ≤ (E.seen errors.new).failures }
{
    // Where nothing can be told, the status alone says it.
    let _told = write_not_read(errors, name, why);
    ProgramEnd::FileNotRead
}

/// Why a file can't be read.
fn why(kind: ErrorKind) -> &'static str {
    match kind {
        ErrorKind::NotFound => "there is no such file",
        ErrorKind::NotADirectory => "a part of its path is no folder",
        ErrorKind::IsADirectory => "it is a folder",
        ErrorKind::PermissionDenied => "you may not read it",
        _ => "reading it failed",
    }
}

/// Writes which file can't be read, and why.
fn write_not_read<E: Output>(errors: &mut E, name: &str, why: &str) -> Result<(), Failed>
    ensures ok { OnOk result (Appends (E.seen errors.old).bytes (E.seen errors.new).bytes (not_read_text name.now why.now)) }
    ensures kept { (E.seen errors.old).failures ≤ (E.seen errors.new).failures }
    ensures failed { OnErr result ((E.seen errors.old).failures < (E.seen errors.new).failures) }
{
    write_three(errors, b"error: ", name.as_bytes(), b" can't be read: ")?;
    write_two(errors, why.as_bytes(), b"\n")
}

/// Writes three texts.
pub fn write_three<E: Output>(
    errors: &mut E,
    front: &[u8],
    text: &[u8],
    back: &[u8],
) -> Result<(), Failed>
    ensures ok { OnOk result (Appends (E.seen errors.old).bytes (E.seen errors.new).bytes (front.now ++ text.now ++ back.now)) }
    ensures kept { (E.seen errors.old).failures ≤ (E.seen errors.new).failures }
    ensures failed { OnErr result ((E.seen errors.old).failures < (E.seen errors.new).failures) }
{
    write_all(errors, front)?;
    write_all(errors, text)?;
    write_all(errors, back)
}

/// Writes two texts.
pub(crate) fn write_two<E: Output>(errors: &mut E, text: &[u8], back: &[u8]) -> Result<(), Failed>
    ensures ok { OnOk result (Appends (E.seen errors.old).bytes (E.seen errors.new).bytes (text.now ++ back.now)) }
    ensures kept { (E.seen errors.old).failures ≤ (E.seen errors.new).failures }
    ensures failed { OnErr result ((E.seen errors.old).failures < (E.seen errors.new).failures) }
{
    write_all(errors, text)?;
    write_all(errors, back)
}
