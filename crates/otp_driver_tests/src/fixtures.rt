//! What the tests need: a session, what it is told as lines of `sim` have it, and its orders as text.

use otp_driver::{DriveFault, Order, Session, Task, What};
use otp_file::{TreeFault, TreeSpec, read_tree};
use otp_reason::{Name, Reason};
use otp_rules::Ending;
use otp_text::{
    Line, read_line, write_child_name, write_name, write_number, write_process, write_reason,
};
use std::alloc::{AllocError, Global};
use std::fmt::Debug;
use std::process::Abort;

/// A name that the test knows to be short enough.
pub(crate) fn named(rt: &impl Abort, bytes: &[u8]) -> Name {
    match Name::new(bytes) {
        Some(name) => name,
        None => panic!(rt; "a name of at most 32 bytes"),
    }
}

/// Asserts that a value is the one that is wanted; `what` says in the message which assertion failed.
pub(crate) fn same<T: PartialEq + Debug + Copy>(rt: &impl Abort, what: &str, value: T, wanted: T) {
    assert_eq!(rt; value, wanted, "{what}");
}

/// What a try gave. Where it failed the test stops, with these words: so no test has an exit beside what it holds.
pub(crate) fn got<T, E>(rt: &impl Abort, what: &str, tried: Result<T, E>) -> T {
    match tried {
        Ok(value) => value,
        Err(_) => panic!(rt; "{what}"),
    }
}

/// The tree of a file. Where memory is refused once, the next try finds it.
pub(crate) fn tree_of(rt: &impl Abort, alloc: Global, text: &[u8]) -> TreeSpec {
    let read = match read_tree(alloc, text) {
        Err(TreeFault::OutOfMemory) => read_tree(alloc, text),
        read => read,
    };
    got(rt, "a tree", read)
}

/// The tree of a file, opened. Where memory is refused once, the next try finds it.
pub(crate) fn open(rt: &impl Abort, alloc: Global, text: &[u8]) -> Session {
    let tree = tree_of(rt, alloc, text);
    let opened = match Session::open(alloc, &tree) {
        Err(DriveFault::OutOfMemory) => Session::open(alloc, &tree),
        opened => opened,
    };
    drop(tree);
    got(rt, "a session", opened)
}

/// The line of a text.
pub(crate) fn line_of(rt: &impl Abort, text: &str) -> Line {
    match read_line(text.as_bytes()) {
        Some(line) => line,
        None => panic!(rt; "a line"),
    }
}

fn tell_once(
    session: &mut Session,
    reading: u64,
    place: usize,
    line: Line,
) -> Result<(), DriveFault> {
    match line {
        Line::Empty => Ok(()),
        Line::At(reading) => session.driver.tick(reading),
        Line::Note(note) => session.driver.note(reading, place, &note),
        Line::Call(call) => match session.driver.call(reading, place, call) {
            Ok(_) => Ok(()),
            Err(fault) => Err(fault),
        },
        Line::Stop => session.driver.stop(reading),
    }
}

/// Tells the supervisor of this number a line as of this reading of the clock, again where memory was refused.
pub(crate) fn tell_at(
    session: &mut Session,
    reading: u64,
    place: usize,
    line: Line,
) -> Result<(), DriveFault> {
    match tell_once(session, reading, place, line) {
        Err(DriveFault::OutOfMemory) => tell_once(session, reading, place, line),
        told => told,
    }
}

/// Tells the supervisor of this number a line as of the last reading.
pub(crate) fn tell(session: &mut Session, place: usize, line: Line) -> Result<(), DriveFault> {
    let reading = session.driver.reading();
    tell_at(session, reading, place, line)
}

/// The next order, asked for again where memory was refused.
pub(crate) fn next(session: &mut Session) -> Result<Option<Order>, DriveFault> {
    match session.next() {
        Err(DriveFault::OutOfMemory) => session.next(),
        next => next,
    }
}

/// Appends a process after what is ordered: its child's id and start word, and its number.
fn write_task(word: &[u8], task: &Task, out: &mut Vec<u8>) -> Result<(), AllocError> {
    out.extend_from_slice(word)?;
    write_child_name(&task.id, out)?;
    out.extend_from_slice(b" ")?;
    write_child_name(&task.start, out)?;
    out.extend_from_slice(b" ")?;
    write_process(task.number, out)
}

/// Appends until when it may take, if there is a deadline.
fn write_until(deadline: Option<u64>, out: &mut Vec<u8>) -> Result<(), AllocError> {
    match deadline {
        None => Ok(()),
        Some(reading) => {
            out.extend_from_slice(b" until ")?;
            write_number(reading, out)
        }
    }
}

/// Appends an end, and what it comes from.
fn write_end(reason: &Reason, ending: &Ending, out: &mut Vec<u8>) -> Result<(), AllocError> {
    out.extend_from_slice(b" end ")?;
    write_reason(reason, out)?;
    match ending {
        Ending::Asked => out.extend_from_slice(b", asked"),
        Ending::InitFailed(id) => {
            out.extend_from_slice(b", no start of ")?;
            write_name(id, out)
        }
        Ending::Intensity | Ending::Significant(_) => out.extend_from_slice(b", by itself"),
    }
}

/// Appends what is ordered.
fn write_what(what: &What, out: &mut Vec<u8>) -> Result<(), AllocError> {
    match what {
        What::Start(task) => write_task(b" start ", task, out),
        What::Ask(task, deadline) => {
            write_task(b" ask ", task, out)?;
            write_until(*deadline, out)
        }
        What::Kill(task) => write_task(b" kill ", task, out),
        What::Reply(call) => {
            out.extend_from_slice(b" reply ")?;
            write_number(*call, out)
        }
        What::Ready => out.extend_from_slice(b" ready"),
        What::End(reason, ending) => write_end(reason, ending, out),
    }
}

/// Appends an order, behind the number of its supervisor.
fn write_order(order: &Order, out: &mut Vec<u8>) -> Result<(), AllocError> {
    write_number(order.supervisor as u64, out)?;
    write_what(&order.what, out)?;
    out.extend_from_slice(b";")
}

/// Takes all orders, of which there are a few at most, and appends them.
fn write_orders(rt: &impl Abort, session: &mut Session, out: &mut Vec<u8>) {
    for _ in 0..10 {
        let Some(order) = got(rt, "no order can be had", next(session)) else {
            return;
        };
        got(rt, "memory was refused", write_order(&order, out));
    }
}

/// The number of a supervisor, what it is told, and all orders that follow.
pub(crate) type Step = (usize, &'static str, &'static str);

/// A page that has room for all that is written on it.
fn page(rt: &impl Abort, alloc: Global) -> Vec<u8> {
    match Vec::with_capacity(alloc, 256) {
        Ok(page) => page,
        Err(_) => got(rt, "memory was refused", Vec::with_capacity(alloc, 256)),
    }
}

/// Plays a line as of this reading of the clock, with its orders.
fn play_step(rt: &impl Abort, alloc: Global, session: &mut Session, reading: u64, step: Step) {
    let mut told = page(rt, alloc);
    let (place, text, orders) = step;
    got(
        rt,
        text,
        tell_at(session, reading, place, line_of(rt, text)),
    );
    write_orders(rt, session, &mut told);
    same(rt, text, told.as_slice(), orders.as_bytes());
}

/// Plays lines, each with its orders, as of the last reading.
pub(crate) fn play(rt: &impl Abort, alloc: Global, session: &mut Session, steps: &[Step]) {
    for step in steps {
        let reading = session.driver.reading();
        play_step(rt, alloc, session, reading, *step);
    }
}

/// Plays lines, each as of a reading of its own.
pub(crate) fn play_at(
    rt: &impl Abort,
    alloc: Global,
    session: &mut Session,
    steps: &[(u64, Step)],
) {
    for step in steps {
        let (reading, step) = *step;
        play_step(rt, alloc, session, reading, step);
    }
}

/// Plays lines with the tree of a file, which is opened for that.
pub(crate) fn plays(rt: &impl Abort, alloc: Global, file: &[u8], steps: &[Step]) {
    let mut session = open(rt, alloc, file);
    play(rt, alloc, &mut session, steps);
    drop(session);
}
