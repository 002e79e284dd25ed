//! What is told to a tree: the clock, notes, calls, the stop. Each of them carries the reading of the clock at which it happens.

ghost use Rattle.std.specs.Prelude.{◌≡◌, None};
ghost use Rattle.otp_c.specs.Handles.{IsKept, IsTold, OnTree};
ghost use Rattle.otp_c.specs.Told.{AnswersCall, AnswersNote, CallSaid, Calls, NoteSaid, Notes, StartSaid, Stops, Ticks};

use crate::handle::Handle;
use crate::shapes::{
    CName, CSpec, NoReason, OTP_BAD_KIND, OTP_BAD_READING, OTP_BAD_TEXT, OTP_CLOSED, OTP_OK, named,
    reason_in, spec_in, status_of,
};
use otp_driver::Session;
use otp_reason::Note;
use otp_rules::Call;
use std::alloc::Global;

fn tick(session: &mut Session, reading: u64) -> u32
    ensures { Ticks reading result session.old session.new }
{
    match session.driver.tick(reading) {
        Ok(()) => OTP_OK,
        Err(_) => OTP_BAD_READING,
    }
}

/// The clock is read.
#[unsafe(no_mangle)]
pub extern "C" fn otp_tick(alloc: Global, tree: &mut Handle, reading: u64) -> u32
    ensures ticks { OnTree tree.old.room.held tree.new.room.held (Ticks reading result) }
    ensures closed { IsTold tree.old.room.held result }
    ensures kept { IsKept tree.old.room.held tree.new.room.held }
{
    let Some(mut held) = tree.take(alloc) else {
        return OTP_CLOSED;
    };
    let status = tick(&mut held, reading);
    tree.put(held);
    status
}

/// What a process tells.
fn note_in(kind: u32, number: u64, reason: u32, text: &[u8]) -> Result<Note, NoReason>
    ensures { NoteSaid kind number reason text.now result }
{
    match kind {
        1 => Ok(Note::Up(number)),
        2 => Ok(Note::Ignored(number)),
        3 | 4 => {
            let reason = reason_in(reason, text)?;
            if kind == 4 {
                Ok(Note::Exit(number, reason))
            } else {
                Ok(Note::Failed(number, reason))
            }
        }
        _ => Err(NoReason::Kind),
    }
}

fn answer_note(
    session: &mut Session,
    reading: u64,
    place: usize,
    said: &Result<Note, NoReason>,
) -> u32
    ensures { AnswersNote said.now reading place result session.old session.new }
{
    match said {
        Ok(said) => match session.driver.note(reading, place, said) {
            Ok(()) => OTP_OK,
            Err(fault) => status_of(fault),
        },
        Err(NoReason::Kind) => OTP_BAD_KIND,
        Err(NoReason::Text) => OTP_BAD_TEXT,
    }
}

fn tell(
    session: &mut Session,
    reading: u64,
    place: usize,
    kind: u32,
    number: u64,
    reason: u32,
    text: &[u8],
) -> u32
    ensures { Notes reading place kind number reason text.now result session.old session.new }
{
    let said = note_in(kind, number, reason, text);
    answer_note(session, reading, place, &said)
}

/// A process outside tells its supervisor something.
#[unsafe(no_mangle)]
pub extern "C" fn otp_note(
    alloc: Global,
    tree: &mut Handle,
    reading: u64,
    supervisor: u32,
    kind: u32,
    number: u64,
    reason: u32,
    text: &[u8],
) -> u32
    ensures notes { OnTree tree.old.room.held tree.new.room.held (Notes reading supervisor kind number reason text.now result) }
    ensures closed { IsTold tree.old.room.held result }
    ensures kept { IsKept tree.old.room.held tree.new.room.held }
{
    let Some(mut held) = tree.take(alloc) else {
        return OTP_CLOSED;
    };
    let status = tell(
        &mut held,
        reading,
        supervisor as usize,
        kind,
        number,
        reason,
        text,
    );
    tree.put(held);
    status
}

fn stop(session: &mut Session, reading: u64) -> u32
    ensures { Stops reading result session.old session.new }
{
    match session.driver.stop(reading) {
        Ok(()) => OTP_OK,
        Err(_) => OTP_BAD_READING,
    }
}

/// The root is wanted to shut down.
#[unsafe(no_mangle)]
pub extern "C" fn otp_stop(alloc: Global, tree: &mut Handle, reading: u64) -> u32
    ensures stops { OnTree tree.old.room.held tree.new.room.held (Stops reading result) }
    ensures closed { IsTold tree.old.room.held result }
    ensures kept { IsKept tree.old.room.held tree.new.room.held }
{
    let Some(mut held) = tree.take(alloc) else {
        return OTP_CLOSED;
    };
    let status = stop(&mut held, reading);
    tree.put(held);
    status
}

fn answer_call(
    session: &mut Session,
    reading: u64,
    place: usize,
    said: Result<Call, u32>,
    out: &mut u64,
) -> u32
    ensures { AnswersCall said reading place result out.old out.new session.old session.new }
{
    match said {
        Ok(said) => match session.driver.call(reading, place, said) {
            Ok(number) => {
                *out = number;
                OTP_OK
            }
            Err(fault) => status_of(fault),
        },
        Err(status) => status,
    }
}

fn start_in(spec: &CSpec) -> Result<Call, u32>
    ensures { StartSaid spec.now result }
{
    Ok(Call::StartChild(spec_in(spec)?))
}

fn start(session: &mut Session, reading: u64, place: usize, spec: &CSpec, out: &mut u64) -> u32
    ensures { Calls (StartSaid spec.now) reading place result out.old out.new session.old session.new }
{
    let said = start_in(spec);
    answer_call(session, reading, place, said, out)
}

/// Asks for start_child with a specification.
#[unsafe(no_mangle)]
pub extern "C" fn otp_start_child(
    alloc: Global,
    tree: &mut Handle,
    reading: u64,
    supervisor: u32,
    spec: &CSpec,
    out: &mut u64,
) -> u32
    ensures calls { OnTree tree.old.room.held tree.new.room.held (Calls (StartSaid spec.now) reading supervisor result out.old out.new) }
    ensures unsaid { tree.old.room.held ≡ None → out.new ≡ out.old }
    ensures closed { IsTold tree.old.room.held result }
    ensures kept { IsKept tree.old.room.held tree.new.room.held }
{
    let Some(mut held) = tree.take(alloc) else {
        return OTP_CLOSED;
    };
    let status = start(&mut held, reading, supervisor as usize, spec, out);
    tree.put(held);
    status
}

/// The call of this kind.
fn call_in(kind: u32, id: &CName, number: u64) -> Result<Call, u32>
    ensures { CallSaid kind id.now number result }
{
    match kind {
        1 => Ok(Call::StartDynamic),
        2 => Ok(Call::RestartChild(named(id)?)),
        3 => Ok(Call::DeleteChild(named(id)?)),
        4 => Ok(Call::TerminateChild(named(id)?)),
        5 => Ok(Call::TerminateProcess(number)),
        6 => Ok(Call::WhichChildren),
        7 => Ok(Call::CountChildren),
        8 => Ok(Call::GetChildspec(named(id)?)),
        _ => Err(OTP_BAD_KIND),
    }
}

fn ask(
    session: &mut Session,
    reading: u64,
    place: usize,
    kind: u32,
    id: &CName,
    number: u64,
    out: &mut u64,
) -> u32
    ensures { Calls (CallSaid kind id.now number) reading place result out.old out.new session.old session.new }
{
    let said = call_in(kind, id, number);
    answer_call(session, reading, place, said, out)
}

/// Asks for another call.
#[unsafe(no_mangle)]
pub extern "C" fn otp_call(
    alloc: Global,
    tree: &mut Handle,
    reading: u64,
    supervisor: u32,
    kind: u32,
    id: &CName,
    number: u64,
    out: &mut u64,
) -> u32
    ensures calls { OnTree tree.old.room.held tree.new.room.held (Calls (CallSaid kind id.now number) reading supervisor result out.old out.new) }
    ensures unsaid { tree.old.room.held ≡ None → out.new ≡ out.old }
    ensures closed { IsTold tree.old.room.held result }
    ensures kept { IsKept tree.old.room.held tree.new.room.held }
{
    let Some(mut held) = tree.take(alloc) else {
        return OTP_CLOSED;
    };
    let status = ask(
        &mut held,
        reading,
        supervisor as usize,
        kind,
        id,
        number,
        out,
    );
    tree.put(held);
    status
}
