//! Values of supervisord: what stands for something in them, and words between blanks.

use crate::settings::Setting;
use otp_foreign::{ImportFault, ImportWork, is_blank, write_byte, write_number};
use std::alloc::AllocError;

/// For which process a value is expanded.
#[derive(Clone, Copy, Debug)]
pub(crate) struct Process<'a> {
    /// The program's name.
    pub name: &'a [u8],
    /// The group's, which is the program's where it is in none.
    pub group: &'a [u8],
    pub number: u64,
}

/// Whether this byte stands at a place.
fn is_byte(value: &[u8], place: usize, byte: u8) -> bool {
    match value.get(place) {
        Some(found) => *found == byte,
        None => false,
    }
}

/// The place of the bracket that closes behind a percent sign at this place, if one opens there.
fn end_of_name(value: &[u8], percent: usize) -> Option<usize> {
    let open = percent.saturating_add(1);
    if !is_byte(value, open, b'(') {
        return None;
    }
    for place in open..value.len() {
        if value[place] == b')' {
            return Some(place);
        }
    }
    None
}

/// Appends a number of at least two digits.
fn write_two_digits(number: u64, out: &mut Vec<u8>) -> Result<(), AllocError> {
    if number < 10 {
        write_byte(b'0', out)?;
    }
    write_number(number, out)
}

/// Appends what a name in a value stands for, and says how many bytes behind its bracket were of it; none where it isn't known.
fn write_named(
    name: &[u8],
    behind: &[u8],
    process: &Process<'_>,
    out: &mut Vec<u8>,
) -> Result<Option<usize>, AllocError> {
    if name == b"process_num".as_slice() && behind.starts_with(b"02d") {
        write_two_digits(process.number, out)?;
        return Ok(Some(3));
    }
    match name {
        b"program_name" => out.extend_from_slice(process.name)?,
        b"group_name" => out.extend_from_slice(process.group)?,
        b"process_num" => write_number(process.number, out)?,
        _ => return Ok(None),
    }
    Ok(Some(1))
}

/// Appends what a percent sign at this place begins, and gives the place behind it.
fn write_percent(
    work: &mut ImportWork<'_>,
    setting: &Setting,
    value: &[u8],
    percent: usize,
    process: &Process<'_>,
    out: &mut Vec<u8>,
) -> Result<usize, ImportFault> {
    let next = percent.saturating_add(1);
    if is_byte(value, next, b'%') {
        write_byte(b'%', out)?;
        return Ok(next.saturating_add(1));
    }
    if let Some(close) = end_of_name(value, percent) {
        let name = value.get(next.saturating_add(1)..close).unwrap_or(b"");
        let behind = value.get(close.saturating_add(1)..).unwrap_or(b"");
        if let Some(count) = write_named(name, behind, process, out)? {
            return Ok(close.saturating_add(1).saturating_add(count));
        }
        work.remark(
            setting.value.start.saturating_add(percent),
            "%(",
            name,
            "): it isn't known here, and is written as it stands",
        )?;
    }
    write_byte(b'%', out)?;
    Ok(next)
}

/// A value of a process, without its comments.
pub(crate) fn expanded(
    work: &mut ImportWork<'_>,
    setting: &Setting,
    process: &Process<'_>,
) -> Result<Vec<u8>, ImportFault> {
    let value = setting.value.of(work.text);
    let mut out = Vec::new(work.alloc);
    let mut next = 0;
    let mut is_comment = false;
    let mut was_blank = false;
    for place in 0..value.len() {
        let byte = value[place];
        is_comment = (is_comment && byte != b'\n') || (was_blank && matches!(byte, b';' | b'#'));
        was_blank = is_blank(byte);
        if place < next || is_comment {
            continue;
        }
        if byte == b'%' {
            next = write_percent(work, setting, value, place, process, &mut out)?;
        } else {
            write_byte(byte, &mut out)?;
        }
    }
    Ok(out)
}
