//! What drives a supervisor from outside, step by step. A step is a line of `sim`, or a word of these tests; what comes of it is a
//! text, with a line for each order as `sim` prints it.

use crate::fixtures::{got, same};
use otp_core::{Base, Core, Counter, ReplyAnswer};
use otp_file::read_tree;
use otp_needs::NeedsNumber;
use otp_reason::{Note, Reason, Text};
use otp_rules::{Call, CountsNow, Effect, Item, Kind, Reply};
use otp_text::{Line, Printer, read_line, read_number, write_number, write_reason};
use std::alloc::Global;
use std::process::Abort;
use std::{mem, str};

/// A step, and all that comes of it. Lines are those of `sim`, and their calls are numbered 1, 2, 3 in their order.
///
/// The other words: `call N LINE`, a call under a number of its own; `open N`, a new opening; `cut`, `room N`, `move on`, what is
/// made of a checkpoint, of which `move on` tells what it counts; `move out`, the orders but for the replies are moved out.
/// These are done often, and tell nothing: `ups N`, so many children start; `crashes N`, the child crashes, and starts again;
/// `asks N`, calls for the list of children. These look: `answer N`, `counts`, `state`, `next N` (of the event at a reading, and
/// of that where a stop is wanted), `ends`.
pub(crate) type Step = (&'static str, &'static str);

/// The tree of the child `a`.
pub(crate) const ONE: &str = "[[child]]\nid = \"a\"\nstart = \"a\"\n";

/// Two children, of which `a` has 100 ms to stop.
pub(crate) const TWO: &str = "[[child]]\nid = \"a\"\nstart = \"a\"\nshutdown = 100\n\
[[child]]\nid = \"b\"\nstart = \"b\"\n";

/// A core, the clock, how many calls were made, and how many of the orders were told. Whoever makes one lends it to stages, and
/// drops it.
#[derive(Drop)]
pub(crate) struct Driver {
    pub(crate) core: Core,
    reading: u64,
    pub(crate) calls: u64,
    pub(crate) told: usize,
}

// A number that the test has written.
fn number_in(rt: &impl Abort, word: &str) -> u64 {
    match read_number(1 << 62, word.as_bytes()) {
        Some(number) => number,
        None => panic!(rt; "a number: {word}"),
    }
}

// A line that the test has written.
fn line_in(rt: &impl Abort, line: &str) -> Line {
    match read_line(line.as_bytes()) {
        Some(line) => line,
        None => panic!(rt; "a line: {line}"),
    }
}

fn put(rt: &impl Abort, out: &mut Vec<u8>, text: &str) {
    got(rt, out.extend_from_slice(text.as_bytes()));
}

fn put_number(rt: &impl Abort, out: &mut Vec<u8>, word: &str, number: u64) {
    put(rt, out, word);
    got(rt, write_number(number, out));
}

// A text that was made is put, and let go.
fn put_made(rt: &impl Abort, out: &mut Vec<u8>, text: String) {
    put(rt, out, text.as_str());
    drop(text);
}

/// The checkpoint of a supervisor whose orders were carried out.
pub(crate) fn checkpoint(rt: &impl Abort, alloc: Global, core: &mut Core) -> Base {
    core.clear_effects();
    got(rt, core.checkpoint(alloc))
}

// The line of an order; an answer is told as a copy of it, which is the same.
fn print(
    rt: &impl Abort,
    alloc: Global,
    effect: &Effect,
    reply: Option<&Reply>,
    out: &mut Vec<u8>,
) {
    let mut printer = Printer::new(alloc);
    got(rt, printer.print(effect, reply, out));
    drop(printer);
}

fn print_copy(rt: &impl Abort, alloc: Global, call: u64, reply: &Reply, out: &mut Vec<u8>) {
    let copy = got(rt, reply.try_clone());
    print(rt, alloc, &Effect::Reply(call), Some(&copy), out);
    drop(copy);
}

impl Driver {
    /// Opens a supervisor of this tree file under the number 0.
    pub(crate) fn open(rt: &impl Abort, alloc: Global, tree: &str) -> Driver {
        let tree = got(rt, read_tree(alloc, tree.as_bytes()));
        let supervisor = tree.supervisor();
        let core = got(
            rt,
            Core::open(alloc, supervisor.flags(), supervisor.specs()),
        );
        drop(tree);
        let mut driver = Driver {
            core,
            reading: 0,
            calls: 0,
            told: 0,
        };
        driver.event(rt, Kind::Opened(0));
        driver
    }

    /// Where memory is refused, the core is as it was, and the next try finds it.
    pub(crate) fn prepare(&mut self, rt: &impl Abort) {
        let before = self.seen();
        if self.core.prepare().is_err() {
            assert!(rt; !self.core.is_prepared());
            same(rt, "the core after a refusal", self.seen(), before);
            assert!(rt; self.core.prepare().is_ok());
        }
    }

    // How many events and orders there are, the counts, and whether work is open.
    fn seen(&self) -> (usize, usize, CountsNow, bool) {
        let core = &self.core;
        let lengths = (core.history().len(), core.effects().len());
        (lengths.0, lengths.1, core.counts(), core.has_open_work())
    }

    // The children get the numbers 1, 2, 3 in their order.
    fn event(&mut self, rt: &impl Abort, kind: Kind) {
        self.prepare(rt);
        assert!(rt; self.core.is_prepared());
        assert!(rt; !self.core.is_full());
        assert!(rt; self.reading <= 1 << 62);
        let mut numbers = Counter {
            last: self.core.greatest_number(),
        };
        assert!(rt; numbers.last < u64::MAX);
        let is_needed = self.core.needs_number(self.reading, &kind);
        let number = self.core.step_with(self.reading, &kind, &mut numbers);
        assert!(rt; number.is_some() == is_needed);
    }

    // What waits is taken as soon as no work is open.
    fn settle(&mut self, rt: &impl Abort) {
        for _ in 0..100 {
            if self.core.has_open_work() || !self.core.has_waiting() {
                return;
            }
            self.event(rt, Kind::Resumed);
        }
    }

    /// Tells it a line.
    pub(crate) fn line(&mut self, rt: &impl Abort, line: Line) {
        match line {
            Line::Empty => {}
            Line::At(reading) => {
                self.reading = reading;
                if self.core.is_due(reading) {
                    self.event(rt, Kind::Ticked);
                }
            }
            Line::Note(note) => self.event(rt, Kind::Took(Item::Note(note))),
            Line::Call(call) => {
                self.calls = self.calls.saturating_add(1);
                self.event(rt, Kind::Took(Item::Call(self.calls, call)));
            }
            Line::Stop => self.event(rt, Kind::Stopped),
        }
        self.settle(rt);
    }

    // So many children start.
    fn ups(&mut self, rt: &impl Abort, count: u64) {
        for number in 0..count {
            self.line(rt, Line::Note(Note::Up(number.saturating_add(1))));
        }
        self.told = self.core.effects().len();
    }

    // The child crashes so often, and starts again.
    fn crashes(&mut self, rt: &impl Abort, count: u64) {
        let crash = Reason::Error(Text::joined(b"x", b""));
        for number in 0..count {
            let number = number.saturating_add(1);
            self.line(rt, Line::Note(Note::Exit(number, crash)));
            self.line(rt, Line::Note(Note::Up(number.saturating_add(1))));
        }
        self.told = self.core.effects().len();
    }

    // So many calls for the list of children.
    fn asks(&mut self, rt: &impl Abort, count: u64) {
        for _ in 0..count {
            self.line(rt, Line::Call(Call::WhichChildren));
        }
        self.told = self.core.effects().len();
    }

    // The orders so far were carried out, and the history is cut.
    fn cut(&mut self, rt: &impl Abort) {
        self.core.clear_effects();
        self.told = 0;
        let cut = self.core.cut();
        assert!(rt; cut.is_ok() && self.core.can_cut() && !self.core.is_spent());
    }

    // The orders so far were carried out, and room is made under this limit.
    fn make_room(&mut self, rt: &impl Abort, limit: usize) {
        self.core.clear_effects();
        self.told = 0;
        let made = self.core.make_room(limit);
        assert!(rt; made.is_ok());
    }

    // In the place of the core comes one that is resumed from its checkpoint.
    fn move_on(&mut self, rt: &impl Abort, alloc: Global, out: &mut Vec<u8>) {
        let base = checkpoint(rt, alloc, &mut self.core);
        let resumed = got(rt, Core::resume(alloc, &base));
        put_made(rt, out, got(rt, format!(in alloc; "{:?}\n", base.counts)));
        drop(base);
        drop(mem::replace(&mut self.core, resumed));
        self.told = 0;
    }

    // The orders but for the replies are moved out, and none is left.
    fn move_out(&mut self, rt: &impl Abort, alloc: Global, out: &mut Vec<u8>) {
        let Ok(mut list) = Vec::with_capacity(alloc, 8) else {
            panic!(rt; "there is memory");
        };
        assert!(rt; self.core.count_orders() <= 8);
        self.core.move_orders(&mut list);
        for effect in list.iter() {
            print(rt, alloc, effect, None, out);
        }
        drop(list);
        assert!(rt; self.core.effects().is_empty());
        self.told = 0;
    }

    // A call under a number of its own, of one digit.
    fn take_call(&mut self, rt: &impl Abort, words: &str) {
        let Some((number, line)) = words.split_once(' ') else {
            panic!(rt; "a number and a call");
        };
        match line_in(rt, line) {
            Line::Call(call) => {
                let number = number_in(rt, number);
                self.event(rt, Kind::Took(Item::Call(number, call)));
            }
            _ => panic!(rt; "a call"),
        }
    }

    // The answer to this call, and whether it is still to be answered.
    fn put_answer(&self, rt: &impl Abort, alloc: Global, call: u64, out: &mut Vec<u8>) {
        match self.core.reply(call) {
            ReplyAnswer::Kept(reply) => print_copy(rt, alloc, call, reply, out),
            ReplyAnswer::Gone => put(rt, out, "gone\n"),
            ReplyAnswer::NotYet => put(rt, out, "not yet\n"),
        }
        if self.core.is_open_call(call) {
            put(rt, out, "open\n");
        }
    }

    // The orders that weren't told yet.
    fn put_orders(&mut self, rt: &impl Abort, alloc: Global, out: &mut Vec<u8>) {
        for effect in self.core.effects().iter().skip(self.told) {
            match effect {
                Effect::Reply(call) => self.put_answer(rt, alloc, *call, out),
                _ => print(rt, alloc, effect, None, out),
            }
        }
        self.told = self.core.effects().len();
    }

    fn put_counts(&self, rt: &impl Abort, out: &mut Vec<u8>) {
        let core = &self.core;
        put_number(rt, out, "events ", core.events_cut());
        put_number(rt, out, "+", core.history().len() as u64);
        put_number(rt, out, " starts ", core.count_starts());
        put_number(rt, out, " restarts ", core.count_restarts());
        put_number(rt, out, " kept ", core.kept_restarts().len() as u64);
        put_number(rt, out, " numbers ", core.last_number());
        put_number(rt, out, " ", core.greatest_number());
        match core.greatest_dropped_call() {
            Some(call) => put_number(rt, out, " dropped ", call),
            None => put(rt, out, " dropped none"),
        }
        put_number(rt, out, " rows ", core.rows().len() as u64);
        put(rt, out, if core.is_full() { " full\n" } else { "\n" });
    }

    fn put_state(&self, rt: &impl Abort, alloc: Global, out: &mut Vec<u8>) {
        let core = &self.core;
        let text = format!(in alloc;
            "{:?} works {} waits {:?} until {:?}\n",
            core.phase(),
            core.has_open_work(),
            core.first_waiting(),
            core.next_deadline()
        );
        put_made(rt, out, got(rt, text));
    }

    fn put_next(&self, rt: &impl Abort, alloc: Global, reading: u64, out: &mut Vec<u8>) {
        let next = self.core.next_kind(reading, false);
        let wanted = self.core.next_kind(reading, true);
        let text = format!(in alloc; "{next:?} {wanted:?}\n");
        put_made(rt, out, got(rt, text));
    }

    // The ends, each with the number of its opening; told as copies of them.
    fn put_ends(&self, rt: &impl Abort, out: &mut Vec<u8>) {
        for (own, end) in self.core.ends() {
            let copy = got(rt, end.try_clone());
            put_number(rt, out, "", *own);
            put(rt, out, " ");
            got(rt, write_reason(&copy.reason, out));
            drop(copy);
            put(rt, out, "\n");
        }
    }

    // A word with a number behind it.
    fn does_often(&mut self, rt: &impl Abort, alloc: Global, step: &str, out: &mut Vec<u8>) {
        let Some((word, number)) = step.split_once(' ') else {
            panic!(rt; "a step: {step}");
        };
        let number = number_in(rt, number);
        match word {
            "ups" => self.ups(rt, number),
            "crashes" => self.crashes(rt, number),
            "asks" => self.asks(rt, number),
            "open" => self.event(rt, Kind::Opened(number)),
            "room" => self.make_room(rt, number as usize),
            "answer" => self.put_answer(rt, alloc, number, out),
            "next" => self.put_next(rt, alloc, number, out),
            _ => panic!(rt; "a step: {step}"),
        }
    }

    // A word of these tests.
    fn does_word(&mut self, rt: &impl Abort, alloc: Global, step: &str, out: &mut Vec<u8>) {
        match step {
            "cut" => self.cut(rt),
            "move on" => self.move_on(rt, alloc, out),
            "move out" => self.move_out(rt, alloc, out),
            "counts" => self.put_counts(rt, out),
            "state" => self.put_state(rt, alloc, out),
            "ends" => self.put_ends(rt, out),
            _ => match step.strip_prefix("call ") {
                Some(words) => self.take_call(rt, words),
                None => self.does_often(rt, alloc, step, out),
            },
        }
    }

    /// Does a step, and appends what comes of it.
    fn does(&mut self, rt: &impl Abort, alloc: Global, step: &str, out: &mut Vec<u8>) {
        match read_line(step.as_bytes()) {
            Some(line) => self.line(rt, line),
            None => self.does_word(rt, alloc, step, out),
        }
        self.put_orders(rt, alloc, out);
    }

    /// Does all steps, of which each has to show what stands behind it.
    pub(crate) fn play(&mut self, rt: &impl Abort, alloc: Global, steps: &[Step]) {
        let mut out = Vec::new(alloc);
        for (step, shows) in steps {
            out.clear();
            self.does(rt, alloc, step, &mut out);
            match str::from_utf8(out.as_slice()) {
                Ok(text) => same(rt, step, text, *shows),
                Err(_) => panic!(rt; "a text"),
            }
        }
        drop(out);
    }
}

/// Does all steps by a new supervisor of this tree file.
pub(crate) fn plays(rt: &impl Abort, alloc: Global, tree: &str, steps: &[Step]) {
    let mut driver = Driver::open(rt, alloc, tree);
    driver.play(rt, alloc, steps);
    drop(driver);
}
