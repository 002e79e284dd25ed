// Calls that two clients send from threads of their own, while a third thread takes turns of the supervisor.
ghost use Rattle.std.specs.Prelude.{◌≡◌, Some};

use crate::driven::{Driven, make_driven};
use crate::fixtures::{Post, childless, got, open_parts, same};
use otp_core::{History, ReplyAnswer};
use otp_inbox::{InboxNaming, Sender, UnnamedInbox};
use otp_rules::{Call, CountsNow, Item, Kind, Reply};
use otp_signals::{OpenWords, Signal, Words, WordsNaming};
use otp_spec::SupSpec;
use otp_sup::{
    Client, MemoryPort, Message, PlanNaming, SplitFault, SubmitCause, Sup, SupNaming, TurnAnswer,
    TurnFault,
};
use std::alloc::Global;
use std::marker::Brand;
use std::process::Abort;
use std::sync::Wait;
use std::thread;
use std::thread::Threads;

// How many calls each client sends.
const CALLS: u64 = 10_000;

#[test]
fn two_clients_and_a_hand(rt: HostRuntime) {
    let (words, inbox) = open_parts(&rt, rt.alloc());
    let supervisor = childless(&rt, rt.alloc());
    clients_in::<Brand, _>(&rt, rt.alloc(), words, inbox, supervisor);
}

// Whoever calls this picks the names, which the language allows for the traits alone that have them.
fn clients_in<
    N: WordsNaming + InboxNaming + PlanNaming + Send + Sync,
    R: Threads + Wait + Abort + Sync,
>(rt: &R, alloc: Global, words: OpenWords, inbox: UnnamedInbox<Message, Post>, supervisor: SupSpec)
    requires words { words.words ≡ N.words }
    requires slots { words.slots ≡ 256 }
    requires inbox { inbox ≡ N.inbox 0 }
    requires plan { N.plan 0 ≡ Some supervisor }
{
    let Driven {
        words,
        viewer,
        sup,
        sender,
        client,
        port,
        number: _,
    } = make_driven::<N, _>(rt, alloc, words, inbox, supervisor, &[], 2 * CALLS);
    drop(viewer);
    let (first, second) = send_from_threads(rt, alloc, &words, &sup, client, sender, port);
    drop(words);
    answered(rt, &sup, first.as_slice());
    answered(rt, &sup, second.as_slice());
    are_taken(rt, alloc, sup, first.as_slice(), second.as_slice());
}

// It opens, and then two clients send while it is served: the numbers of the calls of each.
fn send_from_threads<N: SupNaming + Send + Sync, R: Threads + Wait + Abort + Sync>(
    rt: &R,
    alloc: Global,
    words: &Words<N>,
    sup: &Sup<N, u64>,
    mut first: Client<N, u64>,
    mut sender: Sender<N, Message, Post>,
    mut port: MemoryPort<u64>,
) -> (Vec<u64>, Vec<u64>) {
    let opened = turn(rt, sup, words, &mut sender, &mut port);
    same(rt, "the first turn", opened, Ok(TurnAnswer::Opened));
    let second = split(rt, &mut first, words, sup);
    let (sent, port) = thread::join(
        rt,
        move || thread::join(
            rt,
            move || send_all(rt, alloc, sup, words, first),
            move || send_all(rt, alloc, sup, words, second),
        ),
        move || serve(rt, sup, words, sender, port),
    );
    assert!(rt; port.processes.is_empty());
    drop(port);
    sent
}

// The history has each call once, and no other event but the opening.
fn are_taken<N: SupNaming, R: Wait + Abort>(
    rt: &R,
    alloc: Global,
    sup: Sup<N, u64>,
    first: &[u64],
    second: &[u64],
) {
    let parts = sup.unlock().into_parts();
    are_in(rt, alloc, parts.core.history(), first, second);
    drop(parts);
}

fn are_in<R: Abort>(rt: &R, alloc: Global, history: &History, first: &[u64], second: &[u64]) {
    let count = 2 * CALLS + 1;
    let mut taken = got(
        rt,
        "memory was refused",
        Vec::from_elem(alloc, 0u64, count as usize),
    );
    assert!(rt; count_taken(history, taken.as_mut_slice()));
    assert!(rt; are_once(taken.as_slice(), first));
    assert!(rt; are_once(taken.as_slice(), second));
    drop(taken);
    assert!(rt; history.len() as u64 == count);
}

// Counts how often the history has each call, by the call's number. Behind its opening it has no other event.
fn count_taken(history: &History, taken: &mut [u64]) -> bool {
    for place in 1..history.len() {
        let Kind::Took(Item::Call(number, Call::CountChildren)) = history.get(place).kind else {
            return false;
        };
        let Some(count) = taken.get_mut(number as usize) else {
            return false;
        };
        *count = count.saturating_add(1);
    }
    true
}

// Each of these calls was taken once.
fn are_once(taken: &[u64], calls: &[u64]) -> bool {
    calls
        .iter()
        .all(|call| taken.get(*call as usize) == Some(&1))
}

// Another client with half of the numbers; the first can't have more than it has, and sends no body that no call wants.
fn split<N: SupNaming, R: Wait + Abort>(
    rt: &R,
    first: &mut Client<N, u64>,
    words: &Words<N>,
    sup: &Sup<N, u64>,
) -> Client<N, u64> {
    assert!(rt; first.number() == sup.inbox().number());
    let more = first.split(words, sup.inbox(), 2 * CALLS + 1);
    same(rt, "more numbers", more.err(), Some(SplitFault::Exhausted));
    let wrong = first.submit(rt, words, sup.inbox(), Call::CountChildren, Some(3));
    let why = wrong.err().map(|fault| (fault.cause, fault.body));
    let wanted = Some((SubmitCause::WrongBody, Some(3)));
    same(rt, "a body that no call wants", why, wanted);
    let second = first.split(words, sup.inbox(), CALLS);
    got(rt, "a client was refused", second)
}

// Sends its calls, and answers their numbers. One more is refused, as no number is left.
fn send_all<N: SupNaming, R: Wait + Abort>(
    rt: &R,
    alloc: Global,
    sup: &Sup<N, u64>,
    words: &Words<N>,
    mut client: Client<N, u64>,
) -> Vec<u64> {
    let mut numbers = got(rt, "no memory", Vec::with_capacity(alloc, CALLS as usize));
    for _ in 0..CALLS {
        let number = got(
            rt,
            "a call was refused",
            send_one(rt, sup, words, &mut client),
        );
        assert!(rt; numbers.push(number).is_ok());
    }
    let more = send_one(rt, sup, words, &mut client);
    same(rt, "one call more", more, Err(SubmitCause::Exhausted));
    drop(client);
    numbers
}

fn send_one<N: SupNaming, R: Wait + Abort>(
    rt: &R,
    sup: &Sup<N, u64>,
    words: &Words<N>,
    client: &mut Client<N, u64>,
) -> Result<u64, SubmitCause> {
    assert!(rt; client.number() == sup.inbox().number());
    let sent = client.submit(rt, words, sup.inbox(), Call::CountChildren, None);
    sent.map_err(|fault| fault.cause)
}

// A turn, with which this sender is credited.
fn turn<N: SupNaming, R: Wait + Abort>(
    rt: &R,
    sup: &Sup<N, u64>,
    words: &Words<N>,
    sender: &mut Sender<N, Message, Post>,
    port: &mut MemoryPort<u64>,
) -> Result<TurnAnswer, TurnFault> {
    assert!(rt; sender.number() == sup.inbox().number());
    assert!(rt; sender.parts() > 0);
    sup.turn(rt, words, sender, port, 0, 0, Signal::None)
}

// Takes turns until all calls were taken: no other item comes.
fn serve<N: SupNaming, R: Wait + Abort>(
    rt: &R,
    sup: &Sup<N, u64>,
    words: &Words<N>,
    mut sender: Sender<N, Message, Post>,
    mut port: MemoryPort<u64>,
) -> MemoryPort<u64> {
    let mut taken = 0u64;
    for _ in rt.forever() {
        if taken >= 2 * CALLS {
            break;
        }
        match turn(rt, sup, words, &mut sender, &mut port) {
            Ok(TurnAnswer::Took) => taken += 1,
            Ok(TurnAnswer::Quiet) => thread::yield_now(),
            _ => assert!(rt; false),
        }
    }
    drop(sender);
    port
}

// Each call was taken once, and answered.
fn answered<N: SupNaming, R: Wait + Abort>(rt: &R, sup: &Sup<N, u64>, numbers: &[u64]) {
    same(rt, "the calls", numbers.len() as u64, CALLS);
    for number in numbers {
        let reply = got(rt, "memory was refused", sup.reply(rt, *number));
        assert!(rt; is_count(reply));
    }
}

// What count_children answers where there are no children.
fn is_count(reply: ReplyAnswer<Reply>) -> bool {
    let none = CountsNow {
        specs: 0,
        active: 0,
        supervisors: 0,
        workers: 0,
    };
    let is_so = matches!(&reply, ReplyAnswer::Kept(Reply::Count(now)) if *now == none);
    drop(reply);
    is_so
}
