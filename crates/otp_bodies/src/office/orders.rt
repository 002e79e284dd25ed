//! The orders among a core's effects, and how each is sent.
ghost use Rattle.std.specs.Prelude.{◌≡◌, ◌+◌, ◌≤◌, [], ◌∷◌, false, not, length, drop, ltb, option_copied, slice_get, Some};
ghost use Rattle.otp_rules.specs.declared.event.Effect.{Effect};
ghost use Rattle.otp_rules.specs.Effects.{is_reply};
ghost use Rattle.otp_rules.specs.Ended.{end_in};
ghost use Rattle.otp_bodies.specs.Orders.{orders_in, starts_in, has_some};
ghost use Rattle.otp_bodies.specs.Flushes.{sending_of, end_note};

use otp_reason::{Name, Note};
use otp_rules::{Cause, Effect, SupEnd};

/// How an order is sent.
#[derive(Clone, Copy, Debug, PartialEq, Eq)]
pub enum Sending {
    /// A process of the child with this id is put, with this number.
    Start(Option<Name>, u64),
    /// A shutdown is posted for the process with this number.
    Ask(u64),
    /// A kill is posted for it.
    Kill(u64),
    /// The parent is told: the supervisor is up, or it has ended.
    Tell(Note),
}

/// The note of a supervisor's end to its parent: it failed where a child didn't start at the opening, else it exited.
fn end_note(end: &SupEnd, own: u64) -> Note
    ensures { result ≡ end_note own end.now }
{
    match end.cause {
        Cause::InitFailed(_) => Note::Failed(own, end.reason),
        _ => Note::Exit(own, end.reason),
    }
}

/// How this order of the supervisor with this number is sent; a reply isn't.
pub(crate) fn sending_of(order: &Effect, own: u64) -> Option<Sending>
    ensures { result ≡ sending_of own order.now }
{
    match order {
        Effect::Start(id, number) => Some(Sending::Start(*id, *number)),
        Effect::Ask(_, number) => Some(Sending::Ask(*number)),
        Effect::Kill(_, number) => Some(Sending::Kill(*number)),
        Effect::Reply(_) => None,
        Effect::Ready => Some(Sending::Tell(Note::Up(own))),
        Effect::End(end) => Some(Sending::Tell(end_note(end, own))),
    }
}

/// The end that an order tells.
pub(crate) fn end_in(order: &Effect) -> Option<&SupEnd>
    ensures { option_copied result ≡ end_in order.now }
{
    match order {
        Effect::End(end) => Some(end),
        _ => None,
    }
}

/// Whether there is an order at the place: any effect but a reply.
fn is_order(effects: &[Effect], place: usize) -> bool
    ensures { (x : Effect) → slice_get effects.now place ≡ Some x → result ≡ not (is_reply x) }
{
    match effects.get(place) {
        None => false,
        Some(Effect::Reply(_)) => false,
        Some(_) => true,
    }
}

/// The place of the first order from here on, or the end.
pub(crate) fn first_order(effects: &[Effect], from: usize) -> usize
    ensures none { length effects.now ≤ result → orders_in (drop from effects.now) ≡ [] }
    ensures first { (x : Effect) → slice_get effects.now result ≡ Some x → orders_in (drop from effects.now) ≡ x ∷ orders_in (drop (result + 1) effects.now) }
    ensures order { (x : Effect) → slice_get effects.now result ≡ Some x → is_reply x ≡ false }
    ensures found { has_some (orders_in (drop from effects.now)) ≡ ltb result (length effects.now) }
{
    let mut place = from;
    while place < effects.len() {
        if is_order(effects, place) {
            return place;
        }
        place += 1;
    }
    place
}

/// How many children this effect starts: one or none.
fn count_start(effect: &Effect) -> u64
    ensures value { result ≡ length (starts_in (orders_in (effect.now ∷ []))) }
    ensures few { result ≤ 1 }
{
    match effect {
        Effect::Start(..) => 1,
        _ => 0,
    }
}

/// How many orders this effect is: a reply is none.
fn count_order(effect: &Effect) -> u64
    ensures value { result ≡ length (orders_in (effect.now ∷ [])) }
    ensures few { result ≤ 1 }
{
    match effect {
        Effect::Reply(_) => 0,
        _ => 1,
    }
}

/// How many orders are among the effects from here on.
pub(crate) fn count_orders(effects: &[Effect], from: usize) -> u64
    ensures { result ≡ length (orders_in (drop from effects.now)) }
{
    let mut orders: u64 = 0;
    let mut place = from;
    while place < effects.len() {
        orders += count_order(&effects[place]);
        place += 1;
    }
    orders
}

/// How many children the effects from here on start.
pub(crate) fn count_starts(effects: &[Effect], from: usize) -> u64
    ensures { result ≡ length (starts_in (orders_in (drop from effects.now))) }
{
    let mut starts: u64 = 0;
    let mut place = from;
    while place < effects.len() {
        starts += count_start(&effects[place]);
        place += 1;
    }
    starts
}
