// A supervisor under its lock, driven by hand over a port in memory.
//
// Under `rt try --test --fail-alloc N` memory is refused once: nothing has happened then, and the same with memory does what
// it would have done.
ghost use Rattle.std.specs.Prelude.{◌≡◌, ◌≤◌, ◌^◌, Some};

use crate::fixtures::{
    Post, got, hand_in_each, has_told_end, open_parts, same, seat_table, second,
};
use crate::script::{Known, Stand, Step, known_of, play};
use otp_core::ReplyAnswer;
use otp_inbox::{InboxNaming, Sender, UnnamedInbox};
use otp_reason::Note;
use otp_rules::Call;
use otp_signals::{OpenWords, Signal, Viewer, Words, WordsNaming};
use otp_spec::SupSpec;
use otp_sup::{
    Client, MemoryPort, Message, NewProcess, PlanNaming, SubmitCause, Sup, SupNaming, TurnAnswer,
    TurnFault,
};
use std::alloc::Global;
use std::marker::Brand;
use std::process::Abort;
use std::sync::Wait;

// A supervisor, and what a test needs to drive it.
#[derive(Drop)]
pub(crate) struct Driven<N: SupNaming> {
    pub(crate) words: Words<N>,
    pub(crate) viewer: Viewer<N>,
    pub(crate) sup: Sup<N, u64>,
    pub(crate) sender: Sender<N, Message, Post>,
    pub(crate) client: Client<N, u64>,
    pub(crate) port: MemoryPort<u64>,
    // The number under which it opened last.
    pub(crate) number: u64,
}

// A supervisor of these children, with these bodies for the specifications. Its client may send so many calls.
pub(crate) fn make_driven<N: SupNaming, R: Abort>(
    rt: &R,
    alloc: Global,
    words: OpenWords,
    inbox: UnnamedInbox<Message, Post>,
    supervisor: SupSpec,
    own: &[u64],
    calls: u64,
) -> Driven<N>
    requires words { words.words ≡ N.words }
    requires slots { words.slots ≡ 256 }
    requires inbox { inbox ≡ N.inbox 0 }
    requires plan { N.plan 0 ≡ Some supervisor }
{
    let bodies = hand_in_each(rt, alloc, own);
    let (words, mut owner) = words.named::<N>();
    let Ok(seat) = words.split(&mut owner, 0..256, 1000) else {
        panic!(rt; "no seat");
    };
    let Ok(callers) = words.split(&mut owner, 0..0, calls) else {
        panic!(rt; "no numbers for calls");
    };
    let viewer = words.viewer(&mut owner);
    drop(owner);
    let (inbox, taker, mut sender) = inbox.named::<N>(0);
    let table = seat_table(rt, alloc, supervisor, bodies, seat, taker);
    let own = inbox.split(&mut sender, 1);
    let client = Client::new(alloc, callers, sender);
    let sup = Sup::new(inbox, table);
    Driven {
        words,
        viewer,
        sup,
        sender: own,
        client,
        port: MemoryPort::new(alloc),
        number: 0,
    }
}

impl<N: SupNaming> Driven<N> {
    fn turn_once<R: Wait + Abort>(
        &mut self,
        rt: &R,
        number: u64,
        reading: u64,
        told: Signal,
    ) -> Result<TurnAnswer, TurnFault>
        requires { reading ≤ 2 ^ 62 }
    {
        assert!(rt; self.sender.number() == self.sup.inbox().number());
        assert!(rt; self.sender.parts() > 0);
        self.sup.turn(
            rt,
            &self.words,
            &mut self.sender,
            &mut self.port,
            number,
            reading,
            told,
        )
    }

    // What the port has.
    fn in_port(&self) -> (usize, usize) {
        (self.port.processes.len(), self.port.notes.len())
    }

    // Where the port was refused memory, the order stayed: the next turn says so, and sends it.
    fn send_orders<R: Wait + Abort>(&mut self, rt: &R, is_sent: bool) {
        if !is_sent {
            let turned = self.turn_once(rt, self.number, 0, Signal::None);
            same(rt, "a pending order", turned, Ok(TurnAnswer::Pending));
        }
    }

    // Where memory is refused the letter comes back.
    fn send_once<R: Wait + Abort>(&mut self, rt: &R, letter: Post) -> Option<Post> {
        assert!(rt; self.sender.number() == self.sup.inbox().number());
        assert!(rt; self.sender.parts() > 0);
        self.sup.inbox().send(rt, &mut self.sender, letter).err()
    }

    // A call that starts the child `b` with this body. Where memory is refused the body comes back.
    fn call_once<R: Wait + Abort>(
        &mut self,
        rt: &R,
        body: Option<u64>,
    ) -> Result<u64, (SubmitCause, Option<u64>)> {
        assert!(rt; self.client.number() == self.sup.inbox().number());
        let call = Call::StartChild(second(rt));
        let sent = self
            .client
            .submit(rt, &self.words, self.sup.inbox(), call, body);
        sent.map_err(|fault| (fault.cause, fault.body))
    }
}

impl<N: SupNaming> Stand for Driven<N> {
    fn turn<R: Wait + Abort>(
        &mut self,
        rt: &R,
        number: u64,
        reading: u64,
        told: Signal,
    ) -> Result<TurnAnswer, TurnFault>
        requires { reading ≤ 2 ^ 62 }
    {
        let before = self.in_port();
        let mut turned = self.turn_once(rt, number, reading, told);
        if turned == Err(TurnFault::OutOfMemory) {
            same(rt, "the port after a refusal", self.in_port(), before);
            turned = self.turn_once(rt, number, reading, told);
        }
        if turned == Ok(TurnAnswer::Opened) {
            self.number = number;
        }
        turned
    }

    fn send<R: Wait + Abort>(&mut self, rt: &R, letter: Post) {
        if let Some(letter) = self.send_once(rt, letter) {
            assert!(rt; self.send_once(rt, letter).is_none());
        }
    }

    // A turn under the lock has sent them.
    fn flush<R: Abort>(&mut self, _rt: &R) -> u64 {
        0
    }

    fn put<R: Wait + Abort>(&mut self, rt: &R) -> Option<(u64, usize, u64)> {
        let is_put = !self.port.processes.is_empty();
        self.send_orders(rt, is_put);
        let NewProcess {
            number,
            slot,
            body,
            id: _,
            again: _,
        } = self.port.processes.pop()?;
        assert!(rt; self.port.processes.is_empty());
        Some((number, slot, body?))
    }

    fn told<R: Wait + Abort>(&mut self, rt: &R) -> Option<Note> {
        let is_told = !self.port.notes.is_empty();
        self.send_orders(rt, is_told);
        let told = self.port.notes.pop()?;
        let note = told.note;
        drop(told);
        assert!(rt; self.port.notes.is_empty());
        Some(note)
    }

    fn look<R: Abort>(&mut self, rt: &R, number: u64) -> Signal {
        assert!(rt; self.words.slots() > 0);
        self.words.look(&mut self.viewer, 0, number)
    }

    fn known<R: Wait + Abort>(&self, rt: &R, call: u64) -> Known {
        let reply = got(rt, "memory was refused", self.sup.reply(rt, call));
        let known = match &reply {
            ReplyAnswer::Kept(reply) => known_of(ReplyAnswer::Kept(reply)),
            ReplyAnswer::Gone => Known::Gone,
            ReplyAnswer::NotYet => Known::NotYet,
        };
        drop(reply);
        known
    }

    fn take_body<R: Wait + Abort>(&mut self, rt: &R, call: Option<u64>) -> Option<u64> {
        match call {
            Some(call) => self.sup.take_box(rt, call),
            None => self.sup.take_stray(rt),
        }
    }

    fn has_empty_port(&self) -> bool {
        self.port.processes.is_empty() && self.port.notes.is_empty()
    }

    fn acts<R: Wait + Abort>(&mut self, rt: &R, _alloc: Global, _step: Step) {
        panic!(rt; "a supervisor under its lock has no such step")
    }

    // Where memory is refused it is sent again, with the body that came back.
    fn call<R: Wait + Abort>(&mut self, rt: &R, body: u64) -> u64 {
        match self.call_once(rt, Some(body)) {
            Ok(number) => number,
            Err((cause, back)) => {
                same(rt, "a refused call", cause, SubmitCause::OutOfMemory);
                same(rt, "its body", back, Some(body));
                got(rt, "a call was refused", self.call_once(rt, back))
            }
        }
    }

    fn has_given_up<R: Wait + Abort>(&mut self, rt: &R) -> bool {
        let is_told = !self.port.notes.is_empty();
        self.send_orders(rt, is_told);
        has_told_end(&self.port, false)
    }
}

// Whoever calls this picks the names, which the language allows for the traits alone that have them.
fn play_under_lock<N: WordsNaming + InboxNaming + PlanNaming, R: Wait + Abort>(
    rt: &R,
    alloc: Global,
    words: OpenWords,
    inbox: UnnamedInbox<Message, Post>,
    supervisor: SupSpec,
    own: &[u64],
    steps: &[Step],
)
    requires words { words.words ≡ N.words }
    requires slots { words.slots ≡ 256 }
    requires inbox { inbox ≡ N.inbox 0 }
    requires plan { N.plan 0 ≡ Some supervisor }
{
    let mut one = make_driven::<N, _>(rt, alloc, words, inbox, supervisor, own, 100);
    play(rt, alloc, &mut one, steps);
    drop(one);
}

// Plays these steps on a new supervisor under its lock, with these bodies for its specifications.
pub(crate) fn plays_under_lock<R: Wait + Abort>(
    rt: &R,
    alloc: Global,
    supervisor: SupSpec,
    own: &[u64],
    steps: &[Step],
) {
    let (words, inbox) = open_parts(rt, alloc);
    play_under_lock::<Brand, _>(rt, alloc, words, inbox, supervisor, own, steps);
}
