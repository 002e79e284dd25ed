//! Names, texts and reasons as values. Which names and texts are lawful, and which reasons are quiet, the program shows.

use crate::fixtures::{named, same};
use otp_reason::{Delivery, Reason, Text, deliver};

#[test]
fn signals_to_processes(rt: HostRuntime) {
    let with = Reason::ShutdownWith(Text::joined(b"x", b""));
    let signals = [
        (Reason::Kill, true, Delivery::Dies(Reason::Killed)),
        (Reason::Kill, false, Delivery::Dies(Reason::Killed)),
        (Reason::Normal, false, Delivery::Ignored),
        (Reason::Normal, true, Delivery::Message(Reason::Normal)),
        (with, false, Delivery::Dies(with)),
        (Reason::Killed, true, Delivery::Message(Reason::Killed)),
    ];
    for (reason, traps, delivery) in signals {
        same(&rt, "a signal", deliver(reason, traps), delivery);
    }
}

/// A name is not the one that has a zero byte more.
#[test]
fn names_are_told_apart(rt: HostRuntime) {
    let (short, long) = (named(&rt, b"a"), named(&rt, b"a\0"));
    assert!(rt; short.is_same(&short) && !short.is_same(&long) && short != long);
}

#[test]
fn joined_texts(rt: HostRuntime) {
    let longest = [b'~'; 64];
    let joined = [
        (Text::joined(b"front/", b"back"), Text::new(b"front/back")),
        (Text::joined(&longest, b""), Text::new(&longest)),
    ];
    for (joined, whole) in joined {
        same(&rt, "a joined text", Some(joined), whole);
    }
}
