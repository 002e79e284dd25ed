//! The report of a run as text.
ghost use Rattle.std.specs.Prelude.{◌≡◌, ◌++◌, OnOk};
ghost use Rattle.otp_text.specs.Replies.{count_text};
ghost use Rattle.otp_jobs.specs.Reports.{counts_line, counts_lines, counts_text, end_text, report_text, table_line, table_lines};

use otp_reason::Reason;
use otp_rules::CountsNow;
use otp_text::{write_number, write_reason};
use std::alloc::AllocError;

/// What the report says of a supervisor.
#[derive(Clone, Copy, Debug, PartialEq, Eq)]
pub struct TableLine {
    /// How many starts it ordered.
    pub starts: u64,
    /// How many restarts it made since it was started last.
    pub restarts: u64,
    /// The reason of its last end; None where it was never started, or runs.
    pub end: Option<Reason>,
}

/// Appends how a supervisor ended last.
#[tactic(auto, unfolding(crate::specs::Reports::end_text))]
fn write_end(end: &Option<Reason>, out: &mut Vec<u8>) -> Result<(), AllocError>
    ensures { OnOk result (out.new.items ≡ out.old.items ++ end_text end.now) }
{
    match end {
        None => out.extend_from_slice(b"none"),
        Some(reason) => write_reason(reason, out),
    }
}

/// Appends the line of the supervisor of this number.
#[tactic(auto, unfolding(crate::specs::Reports::table_line))]
fn write_line(number: usize, line: &TableLine, out: &mut Vec<u8>) -> Result<(), AllocError>
    ensures { OnOk result (out.new.items ≡ out.old.items ++ table_line number line.now) }
{
    out.extend_from_slice(b"table ")?;
    write_number(number as u64, out)?;
    out.extend_from_slice(b" starts ")?;
    write_number(line.starts, out)?;
    out.extend_from_slice(b" restarts ")?;
    write_number(line.restarts, out)?;
    out.extend_from_slice(b" end ")?;
    write_end(&line.end, out)?;
    out.extend_from_slice(b"\n")
}

/// Appends the lines of supervisors.
fn write_lines(lines: &[TableLine], out: &mut Vec<u8>) -> Result<(), AllocError>
    ensures { OnOk result (out.new.items ≡ out.old.items ++ table_lines 0 lines.now) }
{
    for (number, line) in lines.iter().enumerate() {
        write_line(number, line, out)?;
    }
    Ok(())
}

/// Appends the report of a run: a line for each supervisor by its number, and how many processes are left.
///
/// # Errors
///
/// Where memory is refused.
#[tactic(auto, unfolding(crate::specs::Reports::report_text))]
pub fn write_report(lines: &[TableLine], live: u64, out: &mut Vec<u8>) -> Result<(), AllocError>
    ensures { OnOk result (out.new.items ≡ out.old.items ++ report_text lines.now live) }
{
    write_lines(lines, out)?;
    out.extend_from_slice(b"live ")?;
    write_number(live, out)?;
    out.extend_from_slice(b"\n")
}

/// Appends a word and a number.
#[tactic(auto, unfolding(otp_text::specs::Replies::count_text))]
fn write_count(word: &[u8], number: u64, out: &mut Vec<u8>) -> Result<(), AllocError>
    ensures { OnOk result (out.new.items ≡ out.old.items ++ count_text word.now number) }
{
    out.extend_from_slice(word)?;
    write_number(number, out)
}

/// Appends what the supervisor of this number counts of its children.
#[tactic(auto, unfolding(crate::specs::Reports::counts_line))]
fn write_counts_line(number: usize, counts: &CountsNow, out: &mut Vec<u8>) -> Result<(), AllocError>
    ensures { OnOk result (out.new.items ≡ out.old.items ++ counts_line number counts.now) }
{
    write_count(b"counts ", number as u64, out)?;
    write_count(b" specs ", counts.specs, out)?;
    write_count(b" active ", counts.active, out)?;
    write_count(b" supervisors ", counts.supervisors, out)?;
    write_count(b" workers ", counts.workers, out)?;
    out.extend_from_slice(b"\n")
}

/// Appends the counts of supervisors.
fn write_counts_lines(all: &[CountsNow], out: &mut Vec<u8>) -> Result<(), AllocError>
    ensures { OnOk result (out.new.items ≡ out.old.items ++ counts_lines 0 all.now) }
{
    for (number, counts) in all.iter().enumerate() {
        write_counts_line(number, counts, out)?;
    }
    Ok(())
}

/// Appends a line for each supervisor by its number, with what it counts of its children, where that is wanted.
///
/// # Errors
///
/// Where memory is refused.
#[tactic(auto, unfolding(crate::specs::Reports::counts_text))]
pub fn write_counts(is_wanted: bool, all: &[CountsNow], out: &mut Vec<u8>) -> Result<(), AllocError>
    ensures { OnOk result (out.new.items ≡ out.old.items ++ counts_text is_wanted all.now) }
{
    if is_wanted {
        return write_counts_lines(all, out);
    }
    Ok(())
}
