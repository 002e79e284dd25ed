// A supervisor's table without its lock, driven by hand: a turn at a time, and an order at a time, over a port in memory.
ghost use Rattle.std.specs.Prelude.{◌≡◌, ◌≤◌, ◌<◌, ◌^◌, Some};

use crate::fixtures::{Post, got, hand_in_all, has_told_end, same, seat_table};
use crate::script::{Known, Stand, Step, known_of};
use crate::shut::Shut;
use otp_inbox::{Inbox, Sender, UnnamedInbox};
use otp_reason::Note;
use otp_signals::counts::CountsPass;
use otp_signals::{OpenWords, Signal, Viewer, Words};
use otp_spec::SupSpec;
use otp_sup::{Flushed, MemoryPort, Message, NewProcess, SupNaming, Table, TurnAnswer, TurnFault};
use std::alloc::Global;
use std::process::Abort;
use std::sync::Wait;

// A table, and what a test needs to drive it.
#[derive(Drop)]
pub(crate) struct Alone<N: SupNaming> {
    words: Words<N>,
    viewer: Viewer<N>,
    inbox: Inbox<N, Message, Post>,
    table: Table<N, u64>,
    sender: Sender<N, Message, Post>,
    port: MemoryPort<u64>,
}

// A table of these children, with these bodies for the specifications.
pub(crate) fn make_table<N: SupNaming, R: Abort>(
    rt: &R,
    alloc: Global,
    words: OpenWords,
    inbox: UnnamedInbox<Message, Post>,
    supervisor: SupSpec,
    own: &[u64],
) -> Alone<N>
    requires words { words.words ≡ N.words }
    requires slots { words.slots ≡ 256 }
    requires inbox { inbox ≡ N.inbox 0 }
    requires plan { N.plan 0 ≡ Some supervisor }
{
    let bodies = hand_in_all(rt, alloc, own);
    let (words, mut owner) = words.named::<N>();
    let Ok(seat) = words.split(&mut owner, 0..256, 1000) else {
        panic!(rt; "no seat");
    };
    let viewer = words.viewer(&mut owner);
    drop(owner);
    let (inbox, taker, sender) = inbox.named::<N>(0);
    let table = seat_table(rt, alloc, supervisor, bodies, seat, taker);
    Alone {
        words,
        viewer,
        inbox,
        table,
        sender,
        port: MemoryPort::new(alloc),
    }
}

impl<N: SupNaming> Alone<N> {
    // The table takes from the inbox, and the sender, which is credited with what the table does, sends to it.
    fn fits<R: Abort>(&self, rt: &R)
        ensures table { self.now.table.taker.inbox ≡ self.now.inbox }
        ensures sender { self.now.sender.inbox ≡ self.now.inbox }
        ensures parts { 0 < self.now.sender.parts }
    {
        assert!(rt; self.table.number() == self.inbox.number());
        assert!(rt; self.sender.number() == self.inbox.number());
        assert!(rt; self.sender.parts() > 0);
    }

    // Sends the first order to a port that takes nothing.
    fn is_refused<R: Abort>(&mut self, rt: &R, alloc: Global) {
        let mut shut = Shut::new(alloc);
        self.fits(rt);
        let flushed = self
            .table
            .flush_one(&self.words, &self.inbox, &mut self.sender, &mut shut);
        drop(shut);
        same(rt, "a refused order", flushed, Flushed::Refused);
    }

    // Sends the first order.
    fn flush_one<R: Abort>(&mut self, rt: &R) -> Flushed {
        self.fits(rt);
        self.table
            .flush_one(&self.words, &self.inbox, &mut self.sender, &mut self.port)
    }

    // A pass to read the counts of the table.
    pub(crate) fn pass<R: Abort>(&mut self, rt: &R) -> CountsPass {
        got(rt, "memory was refused", self.table.pass())
    }

    // The table alone.
    pub(crate) fn into_table(self) -> Table<N, u64> {
        let Alone {
            words,
            viewer,
            inbox,
            table,
            sender,
            port,
        } = self;
        drop(words);
        drop(viewer);
        drop(inbox);
        drop(sender);
        drop(port);
        table
    }
}

impl<N: SupNaming> Stand for Alone<N> {
    fn turn<R: Wait + Abort>(
        &mut self,
        rt: &R,
        number: u64,
        reading: u64,
        told: Signal,
    ) -> Result<TurnAnswer, TurnFault>
        requires { reading ≤ 2 ^ 62 }
    {
        self.fits(rt);
        self.table.turn(
            rt,
            &self.words,
            &self.inbox,
            &mut self.sender,
            number,
            reading,
            told,
        )
    }

    fn send<R: Wait + Abort>(&mut self, rt: &R, letter: Post) {
        self.fits(rt);
        assert!(rt; self.inbox.send(rt, &mut self.sender, letter).is_ok());
    }

    // Orders are sent one by one, as many as it says are unsent.
    fn flush<R: Abort>(&mut self, rt: &R) -> u64 {
        let unsent = self.table.unsent_orders();
        for sent in 0..10 {
            match self.flush_one(rt) {
                Flushed::Empty => {
                    same(rt, "the unsent orders", unsent, sent);
                    return sent;
                }
                flushed => same(rt, "an order", flushed, Flushed::Sent),
            }
        }
        10
    }

    fn put<R: Wait + Abort>(&mut self, _rt: &R) -> Option<(u64, usize, u64)> {
        let NewProcess {
            number,
            slot,
            body,
            id: _,
            again: _,
        } = self.port.processes.pop()?;
        Some((number, slot, body?))
    }

    fn told<R: Wait + Abort>(&mut self, _rt: &R) -> Option<Note> {
        let told = self.port.notes.pop()?;
        let note = told.note;
        drop(told);
        Some(note)
    }

    fn look<R: Abort>(&mut self, rt: &R, number: u64) -> Signal {
        assert!(rt; self.words.slots() > 0);
        self.words.look(&mut self.viewer, 0, number)
    }

    fn known<R: Wait + Abort>(&self, _rt: &R, call: u64) -> Known {
        known_of(self.table.reply(call))
    }

    fn take_body<R: Wait + Abort>(&mut self, _rt: &R, call: Option<u64>) -> Option<u64> {
        match call {
            Some(call) => self.table.take_box(call),
            None => self.table.take_stray(),
        }
    }

    fn has_empty_port(&self) -> bool {
        self.port.processes.is_empty() && self.port.notes.is_empty()
    }

    fn acts<R: Wait + Abort>(&mut self, rt: &R, alloc: Global, step: Step) {
        match step {
            Step::IsRefused => self.is_refused(rt, alloc),
            Step::Cuts(answer) => {
                let cut = self.table.cut().ok();
                same(rt, "a checkpoint", cut, Some(answer))
            }
            Step::TellsAsked => assert!(rt; has_told_end(&self.port, true)),
            _ => panic!(rt; "a table has no such step"),
        }
    }

    fn call<R: Wait + Abort>(&mut self, rt: &R, _body: u64) -> u64 {
        panic!(rt; "a table has no client")
    }

    fn has_given_up<R: Wait + Abort>(&mut self, rt: &R) -> bool {
        panic!(rt; "a table is asked for each end")
    }
}
