use crate::fixtures::{error, got, named, same};
use otp_core::History;
use otp_reason::{Note, Reason, Text};
use otp_rules::{Call, Event, Item, Kind};
use std::process::Abort;

fn plain(reading: u64, kind: Kind) -> Event {
    Event {
        reading,
        number: None,
        kind,
    }
}

fn told(reading: u64, note: Note) -> Event {
    plain(reading, Kind::Took(Item::Note(note)))
}

fn asked(reading: u64, number: u64, call: Call) -> Event {
    plain(reading, Kind::Took(Item::Call(number, call)))
}

// Each kind of event, with each kind of reason.
fn all_events(rt: &impl Abort) -> [Event; 17] {
    let y = Text::joined(b"y", b"");
    let db = named(rt, b"db");
    let web = named(rt, b"web");
    [
        plain(0, Kind::Opened(7)),
        told(1, Note::Up(1)),
        told(2, Note::Ignored(2)),
        told(3, Note::Failed(3, error())),
        asked(4, 1, Call::RestartChild(db)),
        told(5, Note::Exit(1, Reason::ShutdownWith(y))),
        Event {
            reading: 6,
            number: Some(9),
            kind: Kind::Took(Item::Note(Note::Exit(4, Reason::Normal))),
        },
        told(7, Note::Exit(5, error())),
        asked(8, 2, Call::DeleteChild(web)),
        asked(9, 3, Call::CountChildren),
        told(10, Note::Exit(6, Reason::Shutdown)),
        told(11, Note::Exit(6, Reason::Kill)),
        told(12, Note::Exit(6, Reason::Killed)),
        told(13, Note::Failed(6, Reason::NoProc)),
        plain(14, Kind::Resumed),
        plain(15, Kind::Ticked),
        plain(16, Kind::Stopped),
    ]
}

/// Each event is told as it was kept: terms and calls don't come into disorder.
#[test]
fn tells_what_it_keeps(rt: HostRuntime) {
    let events = all_events(&rt);
    let mut history = History::new(rt.alloc());
    assert!(rt; history.len() == 0);
    keeps(&rt, &mut history, &events);
    drop(history);
}

fn keeps(rt: &impl Abort, history: &mut History, events: &[Event]) {
    for event in events {
        got(rt, history.reserve(1));
        assert!(rt; history.spare() >= 1);
        history.push(event.reading, event.number, &event.kind);
    }
    assert!(rt; history.len() == events.len());
    for (place, event) in events.iter().enumerate() {
        assert!(rt; place < history.len());
        same(rt, "an event", history.get(place), *event);
    }
}
