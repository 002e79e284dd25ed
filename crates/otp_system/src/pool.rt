//! Hands serve a tree side by side, each in a thread of its own.
ghost use Rattle.std.specs.Prelude.{◌≡◌, ◌≤◌};
ghost use Rattle.otp_hand.specs.Standings.{standing_of, standings};
ghost use Rattle.otp_spec.specs.declared.limits.TheConstants.{MAX_READING};

use crate::clock::Gate;
use crate::listener::Nobody;
use crate::meeting::Meeting;
use crate::system::System;
use otp_hand::{Hand, TreeNaming};
use otp_job::Job;
use otp_job::bridge::Subsystem;
use std::sync::Wait;
use std::thread;
use std::thread::Threads;

/// The most hands that serve at once.
pub const MAX_HANDS: usize = 8;

/// Gives each hand so many turns, each hand in a thread of its own; one hand alone, in the thread that calls. Each turn begins with
/// the gate's answer, which is the reading of the clock for it.
///
/// A hand that finds nothing in a turn looks again as long as another hand may still do something, since that may give it something
/// to do; meanwhile it uses up no turn. Where no hand has anything to do, the gate is told ([`Gate::idle`]), and the turn is over.
pub fn pool_run<N, J, S, R, G>(
    rt: &R,
    system: &System<N, J, S>,
    hands: &mut [Hand<N, J, S>],
    gate: &G,
    turns: u64,
)
where
    N: TreeNaming + Send + Sync,
    J: Job + Send,
    S: Subsystem + Send,
    R: Threads + Wait + Sync,
    G: Gate + Sync,
    // Each hand keeps its place among all hands, and its parts of the right to send.
    ensures { standings hands.new ≡ standings hands.old }
{
    if hands.len() == 1 {
        serve_alone(rt, system, &mut hands[0], gate, turns);
    } else {
        serve_all(rt, system, hands, gate, turns);
    }
}

/// Gives a hand so many turns that has no other beside it.
///
/// After a search that gave nothing it doesn't search anew but where that may find something ([`Hand::may_find`]): a turn in which
/// nothing is to be done costs little, though the clock goes on.
fn serve_alone<N, J, S, R, G>(
    rt: &R,
    system: &System<N, J, S>,
    hand: &mut Hand<N, J, S>,
    gate: &G,
    turns: u64,
)
where
    N: TreeNaming,
    J: Job,
    S: Subsystem,
    R: Wait,
    G: Gate,
    ensures { standing_of hand.new ≡ standing_of hand.old }
{
    let mut is_idle = false;
    for _ in 0..turns {
        let reading = gate.before_turn(0);
        let searches = !is_idle || hand.may_find(reading);
        let has_served = searches
            && (system.turn_heard(rt, hand, reading, &Nobody)
                || look_again(rt, system, hand, reading));
        if !has_served {
            gate.idle(0);
        }
        is_idle = !has_served;
    }
}

/// Gives each of several hands so many turns.
fn serve_all<N, J, S, R, G>(
    rt: &R,
    system: &System<N, J, S>,
    hands: &mut [Hand<N, J, S>],
    gate: &G,
    turns: u64,
)
where
    N: TreeNaming + Send + Sync,
    J: Job + Send,
    S: Subsystem + Send,
    R: Threads + Wait + Sync,
    G: Gate + Sync,
    ensures { standings hands.new ≡ standings hands.old }
{
    let meeting = Meeting::of(hands.len());
    thread::for_each_mut(
        rt,
        hands,
        MAX_HANDS,
        &|index, hand|
            ensures { standing_of hand.new ≡ standing_of hand.old }
        { serve_beside(rt, system, hand, index, gate, turns, &meeting) },
    );
}

/// Gives a hand so many turns beside others.
fn serve_beside<N, J, S, R, G>(
    rt: &R,
    system: &System<N, J, S>,
    hand: &mut Hand<N, J, S>,
    index: usize,
    gate: &G,
    turns: u64,
    meeting: &Meeting,
)
where
    N: TreeNaming,
    J: Job,
    S: Subsystem,
    R: Wait,
    G: Gate,
    ensures { standing_of hand.new ≡ standing_of hand.old }
{
    let mut vain = NEVER;
    for _ in 0..turns {
        let reading = gate.before_turn(index);
        if !turn_beside(rt, system, hand, index, reading, meeting, &mut vain) {
            gate.idle(index);
        }
    }
    meeting.leave(index);
}

/// No number of changes.
const NEVER: u64 = u64::MAX;

/// A turn of a hand beside others, which looked in vain last after so many changes. False where no hand has anything to do.
///
/// While nothing changes it doesn't search anew but where that may find something ([`Hand::may_find`]): a turn in which nothing is to
/// be done costs little, though the clock goes on.
fn turn_beside<N, J, S, R>(
    rt: &R,
    system: &System<N, J, S>,
    hand: &mut Hand<N, J, S>,
    index: usize,
    reading: u64,
    meeting: &Meeting,
    vain: &mut u64,
) -> bool
where
    N: TreeNaming,
    J: Job,
    S: Subsystem,
    R: Wait,
    requires { reading ≤ MAX_READING }
    ensures { standing_of hand.new ≡ standing_of hand.old }
{
    for _ in rt.forever() {
        let changes = meeting.changes();
        if *vain != changes || hand.may_find(reading) {
            meeting.begin(index);
            hand.note_wanted(meeting.has_idle());
            if system.turn(rt, hand, reading) || look_again(rt, system, hand, reading) {
                meeting.found();
                return true;
            }
            meeting.rest(index, changes);
            *vain = changes;
        }
        if wait_for_change(rt, meeting, changes) {
            return false;
        }
    }
    false
}

/// A turn of a hand that found nothing at first, with a look at all that waits. False where there was nothing still.
fn look_again<N, J, S, R>(
    rt: &R,
    system: &System<N, J, S>,
    hand: &mut Hand<N, J, S>,
    reading: u64,
) -> bool
where
    N: TreeNaming,
    J: Job,
    S: Subsystem,
    R: Wait,
    requires { reading ≤ MAX_READING }
    ensures { standing_of hand.new ≡ standing_of hand.old }
{
    system.look_at_all(hand, reading) && system.turn(rt, hand, reading)
}

/// Waits until something has changed since, or no hand has anything to do. True in that case.
fn wait_for_change<R: Wait>(rt: &R, meeting: &Meeting, seen: u64) -> bool {
    let mut looks: u64 = 0;
    for _ in rt.forever() {
        if meeting.changes() != seen {
            return false;
        }
        if meeting.is_over(seen, looks) {
            return true;
        }
        looks = looks.saturating_add(1);
        thread::yield_now();
    }
    false
}
