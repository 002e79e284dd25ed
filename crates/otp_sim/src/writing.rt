//! Writing all of a text.

ghost use Rattle.std.specs.Prelude.{◌≡◌, ◌≤◌, ◌<◌, [], length, OnOk, OnErr};
ghost use Rattle.std.specs.Io.KnownBytes.{Appends};
ghost use Rattle.otp_sim.specs.declared.device.TheConstants.{PIECE};
ghost use Rattle.otp_sim.specs.Devices.{AppendsPart, Moves};
ghost use Rattle.otp_sim.specs.Runs.{Finishes, Flushes};
ghost use Rattle.otp_sim.specs.Sim.{end_of};

use crate::device::{Failed, Output, PIECE};
use crate::driven::LinesEnd;
use crate::engine::SimEnd;

/// Writes what is ready, if it is much: not each line by itself.
///
/// # Errors
///
/// Where a write fails or takes nothing; a beginning was written.
pub(crate) fn write_much<W: Output>(output: &mut W, ready: &mut Vec<u8>) -> Result<(), Failed>
    ensures ok { OnOk result (Moves (W.seen output.old).bytes (W.seen output.new).bytes ready.old.items ready.new.items) }
    ensures little { OnOk result (length ready.new.items < PIECE) }
    ensures waits { length ready.old.items < PIECE → (ready.new.items ≡ ready.old.items) × (output.new ≡ output.old) }
    ensures part { AppendsPart (W.seen output.old).bytes (W.seen output.new).bytes ready.old.items }
    ensures kept { (W.seen output.old).failures ≤ (W.seen output.new).failures }
    ensures failed { OnErr result ((W.seen output.old).failures < (W.seen output.new).failures) }
{
    if ready.len() < PIECE {
        return Ok(());
    }
    write_out(output, ready)
}

/// Writes what is ready, which is then gone.
///
/// # Errors
///
/// Where a write fails or takes nothing; a beginning was written.
pub(crate) fn write_out<W: Output>(output: &mut W, ready: &mut Vec<u8>) -> Result<(), Failed>
    ensures ok { OnOk result (Appends (W.seen output.old).bytes (W.seen output.new).bytes ready.old.items) }
    ensures empty { OnOk result (ready.new.items ≡ []) }
    ensures part { AppendsPart (W.seen output.old).bytes (W.seen output.new).bytes ready.old.items }
    ensures kept { (W.seen output.old).failures ≤ (W.seen output.new).failures }
    ensures failed { OnErr result ((W.seen output.old).failures < (W.seen output.new).failures) }
{
    write_all(output, ready.as_slice())?;
    ready.clear();
    Ok(())
}

/// How a run ends that was refused memory: what is ready is written first, so that no text of an earlier line is lost.
///
/// Where that fails too, the run ends as one whose output failed.
pub(crate) fn out_of_memory<W: Output>(output: &mut W, ready: &mut Vec<u8>) -> SimEnd
    ensures end { Flushes result (W.seen output.old) (W.seen output.new) ready.old.items }
    ensures kept { (W.seen output.old).failures ≤ (W.seen output.new).failures }
{
    match write_out(output, ready) {
        Ok(()) => SimEnd::Memory,
        Err(Failed) => SimEnd::OutputFailed,
    }
}

/// How a run ends whose lines end for this reason, or for none, once what is ready is written.
pub(crate) fn finish<W: Output>(
    output: &mut W,
    ready: &mut Vec<u8>,
    stop: Option<LinesEnd>,
) -> SimEnd
    ensures end { Finishes result stop (W.seen output.old) (W.seen output.new) ready.old.items }
    ensures kept { (W.seen output.old).failures ≤ (W.seen output.new).failures }
{
    let Ok(()) = write_out(output, ready) else {
        return SimEnd::OutputFailed;
    };
    end_of(stop)
}

/// How a run ends that stops for this reason, or for none.
fn end_of(stop: Option<LinesEnd>) -> SimEnd
    ensures { result ≡ end_of stop }
{
    match stop {
        None => SimEnd::Done,
        Some(LinesEnd::LineRefused(line, why)) => SimEnd::LineRefused(line, why),
        Some(LinesEnd::HistoryFull) => SimEnd::HistoryFull,
    }
}

/// Writes all of the bytes.
///
/// # Errors
///
/// Where a write fails or takes nothing; a beginning was written.
pub fn write_all<W: Output>(output: &mut W, bytes: &[u8]) -> Result<(), Failed>
    ensures ok { OnOk result (Appends (W.seen output.old).bytes (W.seen output.new).bytes bytes.now) }
    ensures part { AppendsPart (W.seen output.old).bytes (W.seen output.new).bytes bytes.now }
    ensures kept { (W.seen output.old).failures ≤ (W.seen output.new).failures }
    ensures failed { OnErr result ((W.seen output.old).failures < (W.seen output.new).failures) }
{
    let mut rest = bytes;
    while !rest.is_empty() {
        let taken = output.write(rest)?;
        if taken == 0 {
            return Err(Failed);
        }
        rest = &rest[taken..];
    }
    Ok(())
}
