//! What a hand looks at of what waits in it: each that waits has its turn to be looked at.
ghost use Rattle.std.specs.Prelude.{◌≡◌};

use crate::fixtures::{MEMORY, got, same};
use otp_hand::waiting::looks::Looks;
use otp_hand::waiting::{Around, Posted, Rested, Resting, Waiting};
use otp_job::wake::{Bells, WakeWords};
use otp_job::{Body, Process};
use otp_signals::{OpenWords, Signal, Viewer, Words, WordsNaming};
use std::alloc::Global;
use std::marker::Brand;
use std::process::Abort;
use std::sync::Arc;

// How many wait, and how many slots the words have.
const COUNT: usize = 64;

// So many that began to wait last are looked at in each turn, where one of all may have been told something.
const NEWEST: usize = 8;

// So few that all of them are looked at in one turn, where one may have been told something.
const FEW: usize = 5;

// A process; what it runs is never asked.
fn process_in(rt: &impl Abort, alloc: Global, slot: usize, number: u64) -> Process<u64, u64> {
    let process = Process::new(alloc, number, slot, 0, Body::Worker(0));
    got(rt, MEMORY, process)
}

// Processes that wait, and what they are looked at by.
#[derive(Drop)]
struct Watch<N: WordsNaming> {
    words: Words<N>,
    viewer: Viewer<N>,
    post: Arc<WakeWords>,
    around: Around,
    waiting: Vec<Process<u64, u64>>,
}

// A post for so many slots, which no thread waits at.
fn post_of(rt: &impl Abort, alloc: Global) -> Arc<WakeWords> {
    let bells = got(rt, MEMORY, Arc::new(alloc, Bells::new()));
    let post = got(rt, MEMORY, WakeWords::open(alloc, COUNT, &bells));
    drop(bells);
    got(rt, MEMORY, Arc::new(alloc, post))
}

// Those that wait, each with the slot of its place. For none of them was a signal posted.
fn all_waiting(rt: &impl Abort, alloc: Global) -> Vec<Process<u64, u64>> {
    let mut waiting = Vec::new(alloc);
    for slot in 0..COUNT {
        let process = process_in(rt, alloc, slot, 1);
        got(rt, MEMORY, waiting.push(process));
    }
    waiting
}

// The slot of a process that was taken out or came back, if there is one.
fn slot_of(taken: Option<Process<u64, u64>>) -> Option<usize> {
    let Some(process) = taken else {
        return None;
    };
    let slot = process.slot();
    drop(process);
    Some(slot)
}

// Those of the first slots wait in a hand, or stand aside there.
fn few_waiting(rt: &impl Abort, alloc: Global, is_aside: bool) -> Waiting<u64, u64> {
    let mut waiting = Waiting::new(alloc);
    for slot in 0..FEW {
        let process = process_in(rt, alloc, slot, 1);
        let back = if is_aside {
            waiting.set_aside(process)
        } else {
            waiting.keep(process)
        };
        same(rt, "what was refused", slot_of(back), None);
    }
    waiting
}

impl<N: WordsNaming> Watch<N> {
    // The one at this place, which alone was told something, is found with so many looks at the most.
    fn finds(&mut self, rt: &impl Abort, looks: &mut Looks, place: usize, most: usize) {
        for _ in 0..most {
            let found = self.find(looks);
            if found.is_some() {
                same(rt, "what was told something", found, Some(place));
                return;
            }
        }
        panic!(rt; "not looked at: the one at {place}")
    }

    fn find(&mut self, looks: &mut Looks) -> Option<usize> {
        let waiting = self.waiting.as_slice();
        looks.find_told(&self.words, &mut self.viewer, &self.around, waiting)
    }

    // Each is woken in turn. It is found with one look at all; by a notice, with as many looks as come to all, the newest with the
    // first; and without one when the looks, four in a turn, have gone round.
    fn finds_each(&mut self, rt: &impl Abort) {
        let mut quiet = Looks::new(4);
        for place in 0..COUNT {
            self.post.wake(place);
            let mut looks = Looks::new(0);
            looks.look_at_all();
            self.finds(rt, &mut looks, place, 1);
            looks.notice(COUNT);
            let is_new = place.saturating_add(NEWEST) >= COUNT;
            self.finds(rt, &mut looks, place, if is_new { 1 } else { 3 });
            self.finds(rt, &mut quiet, place, COUNT / 4);
            self.post.take(place);
        }
    }

    // Each is woken in turn, and looked for by its slot: it is found with one look. Where one that wasn't woken is looked for first,
    // it is found as by a notice. One that waits no more is found by nobody.
    fn finds_sought(&mut self, rt: &impl Abort) {
        for place in 0..COUNT {
            self.post.wake(place);
            let mut looks = Looks::new(0);
            looks.notice_at(place, COUNT);
            self.finds(rt, &mut looks, place, 1);
            same(
                rt,
                "what else was told something",
                self.find(&mut looks),
                None,
            );
            looks.notice_at(if place == 0 { 1 } else { 0 }, COUNT);
            looks.notice_at(place, COUNT);
            self.finds(rt, &mut looks, place, 3);
            self.post.take(place);
            looks.notice_at(place, COUNT);
            same(rt, "what was told nothing", self.find(&mut looks), None);
        }
    }

    // All are woken, and stay so. Where four are looked at in a turn each is found in its turn, and none twice before. Where one of the
    // newest is found first, each of the others is found in a look after it.
    fn finds_each_of_all(&mut self, rt: &impl Abort) {
        for place in 0..COUNT {
            self.post.wake(place);
        }
        let mut quiet = Looks::new(4);
        for place in 0..COUNT {
            same(rt, "the next", self.find(&mut quiet), Some(place));
        }
        let mut alert = Looks::new(0);
        for place in 0..COUNT.saturating_sub(NEWEST) {
            alert.notice(COUNT);
            same(rt, "the newest", self.find(&mut alert), Some(COUNT - 1));
            same(rt, "one before", self.find(&mut alert), Some(place));
        }
        for place in 0..COUNT {
            self.post.take(place);
        }
    }

    // Each is woken in turn, the first of them first: it is taken out, and none of the others.
    fn takes_each(&mut self, rt: &impl Abort, alloc: Global, is_aside: bool) {
        let mut waiting = few_waiting(rt, alloc, is_aside);
        for slot in 0..FEW {
            self.post.wake(slot);
            let taken = self.take(&mut waiting, is_aside);
            same(rt, "who was taken", taken, Some(slot));
            let more = self.take(&mut waiting, is_aside);
            same(rt, "who else was taken", more, None);
            self.post.take(slot);
        }
        drop(waiting);
    }

    // The slot of the one that is taken where one of them may have been told something.
    fn take(&mut self, waiting: &mut Waiting<u64, u64>, is_aside: bool) -> Option<usize> {
        waiting.notice();
        let taken = if is_aside {
            waiting.take_told_aside(&self.words, &mut self.viewer, &self.around)
        } else {
            waiting.take_told(&self.words, &mut self.viewer, &self.around)
        };
        slot_of(taken)
    }

    // One more waits, for which a signal was posted at the last slot.
    fn finds_told(&mut self, rt: &impl Abort, alloc: Global) {
        let told = process_in(rt, alloc, COUNT - 1, 0);
        got(rt, MEMORY, self.waiting.push(told));
        let mut looks = Looks::new(0);
        looks.look_at_all();
        self.finds(rt, &mut looks, COUNT, 1);
    }
}

fn looks_in<N: WordsNaming, R: Abort>(rt: &R, alloc: Global, opened: OpenWords)
    requires name { opened.words ≡ N.words }
    requires slots { opened.slots ≡ 64 }
{
    let (words, mut owner) = opened.named::<N>();
    let viewer = words.viewer(&mut owner);
    words.post(&mut owner, 63, 0, Signal::Shutdown);
    drop(owner);
    let post = post_of(rt, alloc);
    let mut around = Around::new();
    got(rt, MEMORY, around.open_post(&post));
    let mut watch = Watch {
        words,
        viewer,
        post,
        around,
        waiting: all_waiting(rt, alloc),
    };
    watch.finds_each(rt);
    watch.finds_sought(rt);
    watch.finds_each_of_all(rt);
    watch.takes_each(rt, alloc, false);
    watch.takes_each(rt, alloc, true);
    watch.finds_told(rt, alloc);
    drop(watch);
}

#[test]
fn each_that_waits_is_looked_at(rt: HostRuntime) {
    let opened = got(&rt, MEMORY, OpenWords::open(rt.alloc(), 64));
    looks_in::<Brand, _>(&rt, rt.alloc(), opened);
}

// The process of this supervisor, which waits until this deadline.
fn rested_at(rt: &impl Abort, alloc: Global, table: usize, due: Option<u64>) -> Rested<u64, u64> {
    Rested {
        process: process_in(rt, alloc, table, 1),
        table,
        told: Signal::None,
        due,
    }
}

// Of five supervisors that rest two are looked at in a turn, and after the last the first again. They rest until the least of
// their deadlines.
#[test]
fn supervisors_that_rest_are_looked_at_in_turn(rt: HostRuntime) {
    let mut resting: Resting<u64, u64> = Resting::new(rt.alloc());
    for (table, due) in [None, Some(7), Some(5), None, Some(9)].iter().enumerate() {
        let rested = rested_at(&rt, rt.alloc(), table, *due);
        assert!(rt; resting.keep(rested).is_none());
    }
    for places in [(0, 2), (2, 4), (4, 5), (0, 2)] {
        same(&rt, "the places", resting.next_places(), places);
    }
    same(&rt, "the deadline", resting.next_due(), Some(5));
    drop(resting);
}

// Something has come for five supervisors all the time. Two are looked at in a turn, and the first of them has it: so each has one in five.
#[test]
fn supervisors_that_rest_have_turns_in_turn(rt: HostRuntime) {
    let mut resting: Resting<u64, u64> = Resting::new(rt.alloc());
    for table in 0..5usize {
        assert!(rt;
            resting
                .keep(rested_at(&rt, rt.alloc(), table, None))
                .is_none()
        );
    }
    let mut turns: [u64; 5] = [0; 5];
    for _ in 0..50 {
        let (from, to) = resting.next_places();
        assert!(rt; from < to);
        let rested = resting.take_at(from);
        assert!(rt; rested.table < 5);
        turns[rested.table] = turns[rested.table].saturating_add(1);
        assert!(rt; resting.keep(rested).is_none());
    }
    for of_one in turns {
        assert!(rt; of_one >= 5);
    }
    drop(resting);
}

// After a search in vain so many are spared, but for a deadline that has come, and then there is one again.
#[test]
fn a_search_in_vain_is_made_again_in_time(rt: HostRuntime) {
    let mut around = Around::new();
    around.tried_in_vain();
    let mut spared: u64 = 0;
    for _ in 0..1_000 {
        if around.is_worth_a_search(Some(7), 6) {
            break;
        }
        spared = spared.saturating_add(1);
    }
    same(&rt, "how many were spared", spared, 256);
    around.tried_in_vain();
    assert!(rt; around.is_worth_a_search(Some(7), 7));
    assert!(rt; !around.is_worth_a_search(None, 7));
    drop(around);
}

// A signal that was posted is told once, with its slot; of two it is told that there were more.
#[test]
fn a_posted_signal_is_told_once(rt: HostRuntime) {
    let mut around = Around::new();
    same(&rt, "at first", around.take_posted(), Posted::Nothing);
    around.wake(0);
    same(&rt, "of one", around.take_posted(), Posted::At(0));
    same(&rt, "afterwards", around.take_posted(), Posted::Nothing);
    around.wake(3);
    around.wake(4);
    same(&rt, "of two", around.take_posted(), Posted::More);
    same(&rt, "after two", around.take_posted(), Posted::Nothing);
    drop(around);
}
