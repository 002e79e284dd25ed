//! A watch that writes lines.
use crate::watch::{Seen, Watch};
use otp_reason::Reason;
use otp_spec::SupFlags;
use otp_text::{write_child_name, write_number, write_process, write_reason};
use otp_tree::Happening;
use std::alloc::{AllocError, Global};
use std::io::Eprint;
use std::str;

/// Writes a line on standard error for each thing that happens, as soon as it does: the time in milliseconds, the child's path, and
/// what happened to which process. Where the path of its supervisor isn't known that is named by its number. A child without an id is
/// `-`. A line that memory is refused for, or that can't be written, is left out.
///
/// ```text
/// 0 pool/cache: up #3
/// 1250 pool/cache: exit #3 error:crash
/// 1250 pool: gave up #2: more than 2 restarts within 60 s
/// 1250 table 1 cache: up #5
/// 2000 root: stopped #0
/// ```
#[derive(Drop)]
pub struct LogLines<'a, E> {
    errors: &'a E,
    alloc: Global,
}

impl<'a, E: Eprint> LogLines<'a, E> {
    /// Writes there.
    pub fn to(errors: &'a E, alloc: Global) -> Self {
        LogLines { errors, alloc }
    }

    /// Writes a line, if there is one.
    fn write(&self, line: Result<Vec<u8>, AllocError>) {
        let Ok(line) = line else {
            return;
        };
        if let Ok(text) = str::from_utf8(line.as_slice()) {
            let _written = eprint!(self.errors; "{text}");
        }
    }
}

impl<E: Eprint> Watch for LogLines<'_, E> {
    fn saw(&self, seen: Seen) {
        self.write(line_of(self.alloc, &seen));
    }

    fn saw_at(&self, path: Option<&[u8]>, seen: Seen) {
        self.write(line_at(self.alloc, path, &seen));
    }
}

/// The line for it, with the supervisor's number.
fn line_of(alloc: Global, seen: &Seen) -> Result<Vec<u8>, AllocError> {
    let mut line = Vec::new(alloc);
    write_line(seen, &mut line)?;
    Ok(line)
}

/// The line for it, with the supervisor's path.
fn line_at(alloc: Global, path: Option<&[u8]>, seen: &Seen) -> Result<Vec<u8>, AllocError> {
    let mut line = Vec::new(alloc);
    write_line_at(path, seen, &mut line)?;
    Ok(line)
}

/// Appends the line for it, with the number of the supervisor.
pub fn write_line(seen: &Seen, out: &mut Vec<u8>) -> Result<(), AllocError> {
    write_number(seen.at, out)?;
    out.extend_from_slice(b" table ")?;
    write_number(seen.table as u64, out)?;
    out.push(b' ')?;
    write_child_name(&seen.id, out)?;
    out.push(b':')?;
    write_happening(&seen.what, out)?;
    out.push(b'\n')?;
    Ok(())
}

/// Appends the line for it, with the path of the child below this supervisor; there is none where it is the root itself.
pub fn write_line_at(
    path: Option<&[u8]>,
    seen: &Seen,
    out: &mut Vec<u8>,
) -> Result<(), AllocError> {
    write_number(seen.at, out)?;
    out.push(b' ')?;
    match path {
        Some(path) => write_path(path, seen, out)?,
        None => out.extend_from_slice(b"root")?,
    }
    out.push(b':')?;
    write_happening(&seen.what, out)?;
    out.push(b'\n')?;
    Ok(())
}

/// Appends the path of a child below this supervisor. That of a child of the root is its id alone.
fn write_path(path: &[u8], seen: &Seen, out: &mut Vec<u8>) -> Result<(), AllocError> {
    if seen.table != 0 {
        out.extend_from_slice(path)?;
        out.push(b'/')?;
    }
    write_child_name(&seen.id, out)
}

/// Appends what happened.
fn write_happening(what: &Happening, out: &mut Vec<u8>) -> Result<(), AllocError> {
    match what {
        Happening::Started(number) => write_process_after(b" up ", *number, out),
        Happening::Restarted(number) => write_process_after(b" restarted ", *number, out),
        Happening::Ignored(number) => write_process_after(b" ignore ", *number, out),
        Happening::Failed(number, reason) => write_why(b" fail ", *number, reason, out),
        Happening::Exited(number, reason) => write_why(b" exit ", *number, reason, out),
        Happening::Stopped(number) => write_process_after(b" stopped ", *number, out),
        Happening::GaveUp(number, flags) => {
            write_process_after(b" gave up ", *number, out)?;
            write_bearing(flags, out)
        }
        Happening::ShutDown(number, child) => {
            write_process_after(b" shut down ", *number, out)?;
            write_process_after(b": its significant child ", *child, out)?;
            out.extend_from_slice(b" ended")
        }
    }
}

/// Appends these words, and a process.
fn write_process_after(words: &[u8], number: u64, out: &mut Vec<u8>) -> Result<(), AllocError> {
    out.extend_from_slice(words)?;
    write_process(number, out)
}

/// Appends these words, a process, and a reason.
fn write_why(
    words: &[u8],
    number: u64,
    reason: &Reason,
    out: &mut Vec<u8>,
) -> Result<(), AllocError> {
    write_process_after(words, number, out)?;
    out.push(b' ')?;
    write_reason(reason, out)
}

/// Appends the intensity and the period that one restart too many has broken.
fn write_bearing(flags: &SupFlags, out: &mut Vec<u8>) -> Result<(), AllocError> {
    out.extend_from_slice(b": more than ")?;
    write_number(flags.intensity, out)?;
    if flags.intensity == 1 {
        out.extend_from_slice(b" restart within ")?;
    } else {
        out.extend_from_slice(b" restarts within ")?;
    }
    write_number(flags.period, out)?;
    out.extend_from_slice(b" s")
}
