//! Trees of supervisors for C: the calls of `otp.h`, and what each answers.
//!
//! The header says what a caller owes. Each export takes the tree out of its handle, does one thing, and puts it back. `shapes` has
//! the structs of the header, its statuses and its numbers.
#![tactic(auto)]

ghost use Rattle.std.specs.Prelude.{◌≡◌, ◌<◌, None, Some, is_some, length, min, option_map, slice_get, true};
ghost use Rattle.otp_driver.specs.Driven.{least_deadline};
ghost use Rattle.otp_c.specs.Handles.{IsKept, IsTold, OnTree, Reading};
ghost use Rattle.otp_c.specs.Limits.{limit_of};
ghost use Rattle.otp_c.specs.Nexts.{HandsOut, WritesNext};
ghost use Rattle.otp_c.specs.Opens.{OpensIn, Reads, ReadsTree};
ghost use Rattle.otp_c.specs.Said.{Says, line_in, spec_in};
ghost use Rattle.otp_c.specs.Stands.{LooksAt, LooksAtChild, SaysChild, SaysRow, SaysSupervisor};
ghost use Rattle.otp_c.specs.Versions.{version_number};
ghost use Rattle.otp_c.specs.declared.version.TheConstants.{MAJOR, MINOR, PATCH};
ghost use Rattle.otp_c.specs.AnswersShown.{ShowsAnswer, ShowsLine};
ghost use Rattle.otp_c.specs.Shown.{ShowsSpec};
ghost use Rattle.otp_c.specs.declared.shapes.status.TheConstants.{OTP_OK, OTP_OPEN};
ghost use Rattle.otp_spec.specs.declared.limits.TheConstants.{MAX_TABLES};

mod calls;
mod change;
mod handle;
mod look;
mod parts;
mod room;
pub mod shapes;
mod version;

use crate::look::{row_out, supervisor_out};
use crate::shapes::{
    OTP_BAD_TREE, OTP_CLOSED, OTP_MEMORY, OTP_NO_SUPERVISOR, OTP_NONE, OTP_OK, OTP_OPEN,
    answer_out, fault_of, line_out, spec_out, status_of, write_order,
};
pub use calls::{otp_call, otp_note, otp_start_child, otp_stop, otp_tick};
pub use change::otp_change;
pub use handle::Handle;
use otp_driver::driven::{KEPT_EVENTS, Link, Supervisor};
use otp_driver::{Driver, Session};
use otp_file::{TableFault, TreeFault, TreeSpec, read_located};
use otp_reason::{NAME_SIZE, TEXT_SIZE};
use otp_rules::{ChildLine, Reply};
use otp_spec::{ChildSpec, MAX_CHILDREN, MAX_READING, MAX_TABLES};
use otp_table::Row;
pub use shapes::{
    CAnswer, CChild, CFault, CLine, CName, COrder, CSpec, CSupervisor, CText, FAULT_SIZE,
};
use std::alloc::Global;
use version::{MAJOR, MINOR, PATCH};

/// The tree that a file says; or why it is refused, or nothing where there was no memory.
fn tree_of(alloc: Global, text: &[u8]) -> Result<TreeSpec, Option<TableFault>>
    ensures { ReadsTree text.now result }
{
    match read_located(alloc, text) {
        Ok(tree) => Ok(tree),
        Err(why) => {
            if why.fault == TreeFault::OutOfMemory {
                return Err(None);
            }
            Err(Some(why))
        }
    }
}

/// The tree of this text, opened.
fn session_of(alloc: Global, text: &[u8]) -> Result<Session, Option<TableFault>>
    ensures { Reads text.now result }
{
    let tree = tree_of(alloc, text)?;
    match Session::open(alloc, &tree) {
        Ok(session) => Ok(session),
        Err(_) => Err(None),
    }
}

/// Opens the tree of a file in a handle that is empty.
fn open_in(alloc: Global, tree: &mut Handle, text: &[u8], fault: &mut CFault) -> u32
    requires { tree.old.room.held ≡ None }
    ensures { OpensIn text.now result tree.new.room.held fault.old fault.new }
{
    match session_of(alloc, text) {
        Ok(session) => match Box::new(alloc, session) {
            Ok(held) => {
                tree.put(held);
                OTP_OK
            }
            Err(_) => OTP_MEMORY,
        },
        Err(None) => OTP_MEMORY,
        Err(Some(why)) => {
            *fault = fault_of(&why);
            OTP_BAD_TREE
        }
    }
}

/// Opens the tree of a tree file in an empty handle.
#[unsafe(no_mangle)]
pub extern "C" fn otp_open(alloc: Global, tree: &mut Handle, text: &[u8], fault: &mut CFault) -> u32
    ensures full { is_some tree.old.room.held ≡ true → result ≡ OTP_OPEN }
    ensures same { is_some tree.old.room.held ≡ true → tree.new.room.held ≡ tree.old.room.held }
    ensures unsaid { is_some tree.old.room.held ≡ true → fault.new ≡ fault.old }
    ensures opens { tree.old.room.held ≡ None → OpensIn text.now result tree.new.room.held fault.old fault.new }
{
    if let Some(held) = tree.take(alloc) {
        tree.put(held);
        return OTP_OPEN;
    }
    open_in(alloc, tree, text, fault)
}

/// Frees the tree, and leaves the handle empty. An empty handle stays empty.
#[unsafe(no_mangle)]
pub extern "C" fn otp_close(alloc: Global, tree: &mut Handle)
    ensures { tree.new.room.held ≡ None }
{
    let _held = tree.take(alloc);
}

/// Writes the next order of the supervisor at this place.
fn write_next(driver: &Driver, place: usize, out: &mut COrder)
    requires { place < length driver.now.members }
    ensures { WritesNext driver.now place out.new }
{
    let supervisor = &driver.supervisors()[place];
    if let Some(order) = supervisor.order() {
        write_order(place, supervisor, order, out);
    }
}

fn next(session: &mut Session, out: &mut COrder) -> u32
    ensures { HandsOut result out.old out.new session.old session.new }
{
    match session.ready() {
        Ok(Some(place)) => {
            write_next(&session.driver, place, out);
            session.driver.took(place);
            OTP_OK
        }
        Ok(None) => OTP_NONE,
        Err(fault) => status_of(fault),
    }
}

/// The next order for the outside.
#[unsafe(no_mangle)]
pub extern "C" fn otp_next(alloc: Global, tree: &mut Handle, order: &mut COrder) -> u32
    ensures next { OnTree tree.old.room.held tree.new.room.held (HandsOut result order.old order.new) }
    ensures unsaid { tree.old.room.held ≡ None → order.new ≡ order.old }
    ensures closed { IsTold tree.old.room.held result }
    ensures kept { IsKept tree.old.room.held tree.new.room.held }
{
    let Some(mut held) = tree.take(alloc) else {
        return OTP_CLOSED;
    };
    let status = next(&mut held, order);
    tree.put(held);
    status
}

fn read_answer(session: &Session, out: &mut CAnswer) -> u32
    ensures { Says ShowsAnswer session.now.answer result out.old out.new }
{
    match &session.answer {
        None => OTP_NONE,
        Some(answered) => {
            *out = answer_out(answered);
            OTP_OK
        }
    }
}

/// The answer that the last reply told of.
#[unsafe(no_mangle)]
pub extern "C" fn otp_answer_of(alloc: Global, tree: &mut Handle, out: &mut CAnswer) -> u32
    ensures says { OnTree tree.old.room.held tree.new.room.held (Reading (λ session. Says ShowsAnswer session.answer result out.old out.new)) }
    ensures unsaid { tree.old.room.held ≡ None → out.new ≡ out.old }
    ensures closed { IsTold tree.old.room.held result }
    ensures kept { IsKept tree.old.room.held tree.new.room.held }
{
    let Some(held) = tree.take(alloc) else {
        return OTP_CLOSED;
    };
    let status = read_answer(&held, out);
    tree.put(held);
    status
}

/// The line of this index, of an answer that has lines.
fn line_in(session: &Session, index: usize) -> Option<ChildLine>
    ensures { result ≡ line_in index session.now.answer }
{
    let Some(answered) = &session.answer else {
        return None;
    };
    let Reply::Which(lines) = &answered.reply else {
        return None;
    };
    let line = lines.as_slice().get(index)?;
    Some(*line)
}

fn read_line(session: &Session, index: usize, out: &mut CLine) -> u32
    ensures { Says ShowsLine (line_in index session.now.answer) result out.old out.new }
{
    match line_in(session, index) {
        None => OTP_NONE,
        Some(line) => {
            *out = line_out(&line);
            OTP_OK
        }
    }
}

/// A line of that answer, if it is one of which_children.
#[unsafe(no_mangle)]
pub extern "C" fn otp_answer_line(
    alloc: Global,
    tree: &mut Handle,
    index: u32,
    out: &mut CLine,
) -> u32
    ensures says { OnTree tree.old.room.held tree.new.room.held (Reading (λ session. Says ShowsLine (line_in index session.answer) result out.old out.new)) }
    ensures unsaid { tree.old.room.held ≡ None → out.new ≡ out.old }
    ensures closed { IsTold tree.old.room.held result }
    ensures kept { IsKept tree.old.room.held tree.new.room.held }
{
    let Some(held) = tree.take(alloc) else {
        return OTP_CLOSED;
    };
    let status = read_line(&held, index as usize, out);
    tree.put(held);
    status
}

/// The specification of an answer that is one.
fn spec_in(session: &Session) -> Option<ChildSpec>
    ensures { result ≡ spec_in session.now.answer }
{
    let Some(answered) = &session.answer else {
        return None;
    };
    let Reply::Spec(spec) = &answered.reply else {
        return None;
    };
    Some(*spec)
}

fn read_spec(session: &Session, out: &mut CSpec) -> u32
    ensures { Says ShowsSpec (spec_in session.now.answer) result out.old out.new }
{
    match spec_in(session) {
        None => OTP_NONE,
        Some(spec) => {
            *out = spec_out(&spec);
            OTP_OK
        }
    }
}

/// The specification of that answer, if it is one of get_childspec.
#[unsafe(no_mangle)]
pub extern "C" fn otp_answer_spec(alloc: Global, tree: &mut Handle, out: &mut CSpec) -> u32
    ensures says { OnTree tree.old.room.held tree.new.room.held (Reading (λ session. Says ShowsSpec (spec_in session.answer) result out.old out.new)) }
    ensures unsaid { tree.old.room.held ≡ None → out.new ≡ out.old }
    ensures closed { IsTold tree.old.room.held result }
    ensures kept { IsKept tree.old.room.held tree.new.room.held }
{
    let Some(held) = tree.take(alloc) else {
        return OTP_CLOSED;
    };
    let status = read_spec(&held, out);
    tree.put(held);
    status
}

/// When the clock has to be read again: OTP_NONE where never.
#[unsafe(no_mangle)]
pub extern "C" fn otp_deadline(alloc: Global, tree: &mut Handle, out: &mut u64) -> u32
    ensures says { OnTree tree.old.room.held tree.new.room.held (Reading (λ session. Says (λ deadline told. told ≡ deadline) (least_deadline session.driver.members) result out.old out.new)) }
    ensures unsaid { tree.old.room.held ≡ None → out.new ≡ out.old }
    ensures closed { IsTold tree.old.room.held result }
    ensures kept { IsKept tree.old.room.held tree.new.room.held }
{
    let Some(held) = tree.take(alloc) else {
        return OTP_CLOSED;
    };
    let next = held.driver.next_deadline();
    tree.put(held);
    match next {
        Some(reading) => {
            *out = reading;
            OTP_OK
        }
        None => OTP_NONE,
    }
}

/// How many supervisors the tree has.
#[unsafe(no_mangle)]
pub extern "C" fn otp_supervisors(alloc: Global, tree: &mut Handle, out: &mut u32) -> u32
    ensures says { OnTree tree.old.room.held tree.new.room.held (Reading (λ session. (result ≡ OTP_OK) × (out.new ≡ min (length session.driver.members) MAX_TABLES))) }
    ensures unsaid { tree.old.room.held ≡ None → out.new ≡ out.old }
    ensures closed { IsTold tree.old.room.held result }
    ensures kept { IsKept tree.old.room.held tree.new.room.held }
{
    let Some(held) = tree.take(alloc) else {
        return OTP_CLOSED;
    };
    let count = held.driver.supervisors().len().min(MAX_TABLES);
    tree.put(held);
    *out = count as u32;
    OTP_OK
}

fn read_linked(
    supervisor: &Supervisor,
    link: Option<&Link>,
    reading: u64,
    out: &mut CSupervisor,
) -> u32
    ensures { SaysSupervisor (Some supervisor.now) (option_map (λ l. l.now) link.entry) reading result out.old out.new }
{
    match link {
        None => OTP_NO_SUPERVISOR,
        Some(link) => {
            *out = supervisor_out(supervisor, link, reading);
            OTP_OK
        }
    }
}

fn read_supervisor(session: &Session, place: usize, out: &mut CSupervisor) -> u32
    ensures { SaysSupervisor (slice_get session.now.driver.members place) (slice_get session.now.driver.links place) session.now.driver.reading result out.old out.new }
{
    match session.driver.supervisors().get(place) {
        None => OTP_NO_SUPERVISOR,
        Some(supervisor) => read_linked(
            supervisor,
            session.driver.links().get(place),
            session.driver.reading(),
            out,
        ),
    }
}

/// A supervisor as it stands.
#[unsafe(no_mangle)]
pub extern "C" fn otp_look(
    alloc: Global,
    tree: &mut Handle,
    supervisor: u32,
    out: &mut CSupervisor,
) -> u32
    ensures says { OnTree tree.old.room.held tree.new.room.held (Reading (LooksAt supervisor result out.old out.new)) }
    ensures unsaid { tree.old.room.held ≡ None → out.new ≡ out.old }
    ensures closed { IsTold tree.old.room.held result }
    ensures kept { IsKept tree.old.room.held tree.new.room.held }
{
    let Some(held) = tree.take(alloc) else {
        return OTP_CLOSED;
    };
    let status = read_supervisor(&held, supervisor as usize, out);
    tree.put(held);
    status
}

fn read_row(driver: &Driver, place: usize, row: Option<&Row>, out: &mut CChild) -> u32
    ensures { SaysRow driver.now.links place (option_map (λ r. r.now) row.entry) result out.old out.new }
{
    match row {
        None => OTP_NONE,
        Some(row) => {
            *out = row_out(driver, place, row);
            OTP_OK
        }
    }
}

fn read_child(session: &Session, place: usize, index: usize, out: &mut CChild) -> u32
    ensures { SaysChild session.now.driver.links place index (slice_get session.now.driver.members place) result out.old out.new }
{
    let Some(supervisor) = session.driver.supervisors().get(place) else {
        return OTP_NO_SUPERVISOR;
    };
    read_row(&session.driver, place, supervisor.rows().get(index), out)
}

/// A child of a supervisor as it stands.
#[unsafe(no_mangle)]
pub extern "C" fn otp_look_child(
    alloc: Global,
    tree: &mut Handle,
    supervisor: u32,
    index: u32,
    out: &mut CChild,
) -> u32
    ensures says { OnTree tree.old.room.held tree.new.room.held (Reading (LooksAtChild supervisor index result out.old out.new)) }
    ensures unsaid { tree.old.room.held ≡ None → out.new ≡ out.old }
    ensures closed { IsTold tree.old.room.held result }
    ensures kept { IsKept tree.old.room.held tree.new.room.held }
{
    let Some(held) = tree.take(alloc) else {
        return OTP_CLOSED;
    };
    let status = read_child(&held, supervisor as usize, index as usize, out);
    tree.put(held);
    status
}

/// A limit of the library; 0 where there is none of this number.
#[unsafe(no_mangle)]
pub extern "C" fn otp_limit(kind: u32) -> u64
    ensures { result ≡ limit_of kind }
{
    match kind {
        1 => NAME_SIZE as u64,
        2 => TEXT_SIZE as u64,
        3 => FAULT_SIZE as u64,
        4 => MAX_CHILDREN as u64,
        5 => MAX_TABLES as u64,
        6 => MAX_READING,
        7 => KEPT_EVENTS as u64,
        _ => 0,
    }
}

/// The version of the library.
#[unsafe(no_mangle)]
pub extern "C" fn otp_version() -> u32
    ensures { result ≡ version_number MAJOR MINOR PATCH }
{
    MAJOR * 65536 + MINOR * 256 + PATCH
}
