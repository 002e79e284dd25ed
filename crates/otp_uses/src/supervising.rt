//! One supervisor, driven by hand. Here its children are no processes at all: each starts when it is ordered to, and ends
//! when it is asked to. Whoever has real ones carries out the same orders, and gets the same notes from them.

use otp_core::{Core, Counter, EventFault, MAX_EVENTS};
use otp_reason::{Name, Note, Reason, Text};
use otp_rules::{Effect, Item, Kind};
use otp_spec::{ChildSpec, Strategy, SupFlags};
use std::alloc::{AllocError, Global};
use std::collections::VecDeque;
use std::io;

/// A supervisor of three children, where those that were started after one that crashed are restarted with it.
pub fn open(alloc: Global) -> io::Result<Core> {
    let mut specs = Vec::new(alloc);
    for id in [b"db".as_slice(), b"cache", b"web"] {
        let name = Name::new(id).ok_or(AllocError)?;
        specs.push(ChildSpec::new(name, name))?;
    }
    let flags = SupFlags {
        strategy: Strategy::RestForOne,
        ..SupFlags::default()
    };
    let opened = Core::open(alloc, flags, specs.as_slice());
    drop(specs);
    let mut core = opened.map_err(|_| AllocError)?;
    match drive(alloc, &mut core, Kind::Opened(0)) {
        Ok(()) => Ok(core),
        Err(fault) => {
            drop(core);
            Err(fault)
        }
    }
}

/// A process of a child ends by an error.
pub fn crash(alloc: Global, core: &mut Core, number: u64) -> io::Result<()> {
    let text = Text::new(b"crash").ok_or(AllocError)?;
    let note = Note::Exit(number, Reason::Error(text));
    drive(alloc, core, Kind::Took(Item::Note(note)))
}

/// The supervisor is told to end, and stops its children.
pub fn stop(alloc: Global, core: &mut Core) -> io::Result<()> {
    drive(alloc, core, Kind::Stopped)
}

/// Something happens, and all that follows, until nothing does.
fn drive(alloc: Global, core: &mut Core, first: Kind) -> io::Result<()> {
    let mut inbox = VecDeque::new(alloc);
    let mut next = Some(first);
    for _ in 0..MAX_EVENTS {
        let Some(kind) = next else {
            return Ok(());
        };
        happen(core, kind)?;
        carry_out(core, &mut inbox)?;
        next = match core.next_kind(0, false) {
            Some(kind) => Some(kind),
            None => inbox.pop_front().map(|note| Kind::Took(Item::Note(note))),
        };
    }
    Err(no_room())
}

/// One event, with its memory, and with room for it by a checkpoint where the history is full: so a supervisor lives as long as it
/// is wanted. A start draws a number. The clock stands still. An error where no number is left, or no memory.
fn happen(core: &mut Core, kind: Kind) -> io::Result<()> {
    core.clear_effects();
    let mut numbers = Counter {
        last: core.last_number(),
    };
    if numbers.last == u64::MAX {
        return Err(no_room());
    }
    match core.happen(MAX_EVENTS, 0, &kind, &mut numbers) {
        Ok(_) => Ok(()),
        Err(EventFault::OutOfMemory) => Err(io::Error::from(AllocError)),
        Err(_) => Err(no_room()),
    }
}

fn no_room() -> io::Error {
    io::Error::from(io::ErrorKind::StorageFull)
}

/// The orders are carried out: what the children tell of that comes into the inbox.
fn carry_out(core: &Core, inbox: &mut VecDeque<Note>) -> Result<(), AllocError> {
    for order in core.effects() {
        if let Some(note) = answer_of(order) {
            inbox.push_back(note)?;
        }
    }
    Ok(())
}

/// What a child tells of an order.
fn answer_of(order: &Effect) -> Option<Note> {
    match order {
        Effect::Start(_, number) => Some(Note::Up(*number)),
        Effect::Ask(_, number) => Some(Note::Exit(*number, Reason::Shutdown)),
        Effect::Kill(_, number) => Some(Note::Exit(*number, Reason::Killed)),
        Effect::Reply(_) | Effect::Ready | Effect::End(_) => None,
    }
}
