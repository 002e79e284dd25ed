//! What came of a run, as an object.

ghost use Rattle.std.specs.Prelude.{◌≡◌, ◌++◌, OnOk};
ghost use Rattle.otp_command_run.specs.Object.{TellsRun, counts_text, end_member, run_text, supervisor_text, supervisors_text, why_member};

use crate::outcome::life::{supervisor_name, write_end};
use otp_file::TreeSpec;
use otp_json::{put_key, put_number, put_text};
use otp_reason::Reason;
use otp_text::write_reason;
use otp_tree::TableReport;
use otp_trial::{TriedSupervisor, plant_seats};
use std::alloc::{AllocError, Global};

/// Appends the path of a supervisor, how many starts it ordered, and how many restarts it made.
#[tactic(auto, unfolding(crate::specs::Object::counts_text))]
fn write_counts(
    seat: &TriedSupervisor,
    report: &TableReport,
    out: &mut Vec<u8>,
) -> Result<(), AllocError>
    ensures { OnOk result (out.new.items ≡ out.old.items ++ counts_text seat.now.path report.now.core) }
{
    put_text(b"{", b"path", supervisor_name(seat.path()), out)?;
    put_number(b", ", b"starts", report.starts(), out)?;
    put_number(b", ", b"restarts", report.restarts(), out)
}

/// Appends the reason of the last end of a supervisor, `null` where there is none. The word is a place for a text.
#[tactic(auto, unfolding(crate::specs::Object::end_member))]
fn write_end_member(
    end: Option<Reason>,
    word: &mut Vec<u8>,
    out: &mut Vec<u8>,
) -> Result<(), AllocError>
    ensures { OnOk result (out.new.items ≡ out.old.items ++ end_member end) }
{
    match end {
        None => out.extend_from_slice(b", \"end\": null"),
        Some(reason) => {
            word.clear();
            write_reason(&reason, word)?;
            put_text(b", ", b"end", word.as_slice(), out)
        }
    }
}

/// Appends why a supervisor ended, or that it hasn't. The word is a place for a text.
#[tactic(auto, unfolding(crate::specs::Object::why_member))]
fn write_why(
    seat: &TriedSupervisor,
    report: &TableReport,
    word: &mut Vec<u8>,
    out: &mut Vec<u8>,
) -> Result<(), AllocError>
    ensures { OnOk result (out.new.items ≡ out.old.items ++ why_member seat.now report.now) }
{
    word.clear();
    write_end(&seat.flags(), report.core.phase(), word)?;
    put_text(b", ", b"why", word.as_slice(), out)
}

/// Appends the object of a supervisor. The word is a place for a text.
#[tactic(auto, unfolding(crate::specs::Object::supervisor_text))]
fn write_supervisor(
    seat: &TriedSupervisor,
    report: &TableReport,
    word: &mut Vec<u8>,
    out: &mut Vec<u8>,
) -> Result<(), AllocError>
    ensures { OnOk result (out.new.items ≡ out.old.items ++ supervisor_text seat.now report.now) }
{
    write_counts(seat, report, out)?;
    write_end_member(report.end(), word, out)?;
    write_why(seat, report, word, out)?;
    out.extend_from_slice(b"}")
}

/// Appends the objects of supervisors, by their numbers, each behind a comma but the first.
#[tactic(auto, unfolding(crate::specs::Object::supervisors_text))]
fn write_supervisors(
    front: &[u8],
    seats: &[TriedSupervisor],
    tables: &[TableReport],
    word: &mut Vec<u8>,
    out: &mut Vec<u8>,
) -> Result<(), AllocError>
    ensures { OnOk result (out.new.items ≡ out.old.items ++ supervisors_text front.now seats.now tables.now) }
{
    match seats {
        [] => Ok(()),
        [seat, seats @ ..] => match tables {
            [] => Ok(()),
            [report, tables @ ..] => {
                out.extend_from_slice(front)?;
                write_supervisor(seat, report, word, out)?;
                write_supervisors(b", ", seats, tables, word, out)
            }
        },
    }
}

/// Appends the object of a run of a file's tree, a line.
#[tactic(auto, unfolding(crate::specs::Object::run_text))]
fn write_run(
    alloc: Global,
    name: &[u8],
    seats: &[TriedSupervisor],
    tables: &[TableReport],
    live: u64,
    out: &mut Vec<u8>,
) -> Result<(), AllocError>
    ensures { OnOk result (out.new.items ≡ out.old.items ++ run_text name.now seats.now tables.now live) }
{
    let mut word = Vec::new(alloc);
    put_text(b"{", b"file", name, out)?;
    put_key(b", ", b"supervisors", out)?;
    out.extend_from_slice(b"[")?;
    write_supervisors(b"", seats, tables, &mut word, out)?;
    put_number(b"], ", b"live", live, out)?;
    out.extend_from_slice(b"}\n")
}

/// Appends what came of a run of a tree, as an object with the name of its file, and how many processes are left. Of each
/// supervisor it has, by its path, how many starts it ordered, how many restarts it made since it was started last, the reason of
/// its last end, and why it ended.
///
/// # Errors
///
/// Where memory is refused.
pub fn write_run_object(
    alloc: Global,
    name: &[u8],
    tree: &TreeSpec,
    tables: &[TableReport],
    live: u64,
    out: &mut Vec<u8>,
) -> Result<(), AllocError>
    ensures { OnOk result (TellsRun name.now tree.now tables.now live out.old.items out.new.items) }
{
    let Ok(seats) = plant_seats(alloc, tree) else {
        return Err(AllocError);
    };
    let written = write_run(alloc, name, seats.as_slice(), tables, live, out);
    drop(seats);
    written
}
