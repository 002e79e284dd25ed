//! Runs of `sim` that are refused memory, and one that prints much at once.

use crate::devices::{Slow, Taking};
use crate::fixtures::{got, same, supervisor_of, write_numbered};
use otp_sim::driven::{Driven, LinesEnd};
use otp_sim::{Counted, PIECE, Player, SimEnd, serve, sim};
use std::alloc::{AllocError, Global};
use std::process::Abort;

/// A player that is refused memory once so many things happened: lines, and what follows them.
#[derive(Drop)]
struct Refused {
    player: Player,
    left: usize,
}

impl Driven for Refused {
    ghost sim = { λ refused. refused.player };

    fn begin_line(&mut self, line: &[u8], out: &mut Vec<u8>) -> Result<(), AllocError> {
        if self.left == 0 {
            return Err(AllocError);
        }
        self.left -= 1;
        self.player.begin_line(line, out)
    }

    fn go_on(&mut self, out: &mut Vec<u8>) -> Result<bool, AllocError> {
        if self.left == 0 {
            return Err(AllocError);
        }
        self.left -= 1;
        self.player.go_on(out)
    }

    fn end(&self) -> Option<LinesEnd> {
        self.player.end()
    }
}

/// What is written of some lines, and how the run ends, where memory is refused once so many things happened and the writer has
/// so much room.
fn is_flushed(
    rt: &impl Abort,
    alloc: Global,
    happened: usize,
    room: usize,
    end: SimEnd,
    printed: &str,
) -> Result<(), AllocError> {
    let supervisor = supervisor_of(rt, alloc, "[[child]]\nid = \"a\"\nstart = \"a\"\n");
    let mut ready = Vec::new(alloc);
    let player = Player::open(alloc, supervisor, &mut ready)?;
    let mut driven = Refused {
        player,
        left: happened,
    };
    let mut reader = Counted::new(b"up 1\nexit 1 error:x\nup 2\nstop".as_slice());
    let mut writer = Counted::new(Slow::of_room(alloc, room));
    let ended = serve(alloc, &mut driven, &mut ready, &mut reader, &mut writer);
    drop(driven);
    drop(ready);
    let written = writer.into_device().into_bytes();
    same(
        rt,
        "what is written",
        written.as_slice(),
        printed.as_bytes(),
    );
    same(rt, "the end", ended, end);
    Ok(())
}

/// What is printed up to the restart, and up to the stop.
const RESTARTED: &str = "start a #1\nready\nstart a #2\n";

const ASKED: &str = "start a #1\nready\nstart a #2\nask a #2\n";

/// How much happens, the room, how the run ends, and what is written.
const REFUSALS: [(usize, usize, SimEnd, &str); 7] = [
    (0, usize::MAX, SimEnd::Memory, "start a #1\n"),
    (1, usize::MAX, SimEnd::Memory, "start a #1\nready\n"),
    (3, usize::MAX, SimEnd::Memory, RESTARTED),
    (3, 13, SimEnd::OutputFailed, "start a #1\nre"),
    (7, usize::MAX, SimEnd::Memory, RESTARTED),
    (8, usize::MAX, SimEnd::Memory, ASKED),
    (9, usize::MAX, SimEnd::Done, ASKED),
];

/// A line is one thing that happens, and so is the question what follows it.
#[test]
fn refused_memory_loses_nothing_earlier(rt: HostRuntime) {
    for (happened, room, end, printed) in REFUSALS {
        let flushed = is_flushed(&rt, rt.alloc(), happened, room, end, printed);
        assert!(rt; flushed.is_ok());
    }
}

/// One line answers 300 calls that waited for it, each with 40 children.
#[test]
fn a_line_that_prints_much_is_written_in_pieces(rt: HostRuntime) {
    let file = forty_children(&rt, rt.alloc());
    let supervisor = supervisor_of(&rt, rt.alloc(), file.as_str());
    let lines = three_hundred_calls(&rt, rt.alloc());
    let mut reader = Counted::new(lines.as_bytes());
    let mut writer = Counted::new(Taking::new());
    let end = sim(rt.alloc(), supervisor, &mut reader, &mut writer);
    same(&rt, "the end", end, SimEnd::Done);
    is_in_pieces(&rt, &writer.into_device());
}

/// More than three pieces were written, and at once not much more than one.
fn is_in_pieces(rt: &impl Abort, taken: &Taking) {
    assert!(rt; 3 * PIECE < taken.bytes);
    assert!(rt; taken.most < PIECE + PIECE / 8);
}

/// The children `child_1`, `child_2` and so on.
fn forty_children(rt: &impl Abort, alloc: Global) -> String {
    let mut file = String::new(alloc);
    for number in 1..41u64 {
        let (before, behind) = ("[[child]]\nid = \"child_", "\"\nstart = \"a\"\n");
        write_numbered(rt, &mut file, before, number, behind);
    }
    file
}

/// All start, one is terminated, and calls wait for its end.
fn three_hundred_calls(rt: &impl Abort, alloc: Global) -> String {
    let mut lines = String::new(alloc);
    for number in 1..41u64 {
        write_numbered(rt, &mut lines, "up ", number, "\n");
    }
    got(rt, lines.push_str("terminate child_1\n"));
    for _ in 0..300u64 {
        got(rt, lines.push_str("which\n"));
    }
    got(rt, lines.push_str("exit 1 shutdown\n"));
    lines
}
