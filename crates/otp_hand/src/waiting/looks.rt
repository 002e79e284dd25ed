//! Which of the processes that are parked are looked at, whether they were told something.
ghost use Rattle.std.specs.Prelude.{◌<◌, ◌≤◌, length, IfSome};

use crate::waiting::around::Around;
use otp_job::Process;
use otp_signals::{Viewer, Words, WordsNaming};

/// How many of those that were parked last are looked at in a turn: a supervisor that stops its children begins with the
/// one that was started last.
const NEWEST: usize = 8;

/// How many of the others are looked at in a turn, one after the other, after a supervisor may have told one of them something.
const OTHERS: usize = 24;

/// Among so many of those that were parked last the one is looked for that was told something: mostly it is the very last.
const NEAR: usize = 64;

/// The next look is at all of them.
const ALL: usize = usize::MAX;

/// Which of some processes that are parked are looked at in the next turn.
#[derive(Drop)]
pub struct Looks {
    // The place of the first that is looked at, of those that are not the newest.
    next: usize,
    // In how many turns more the newest, and many of the others, are looked at; or `ALL`.
    alert: usize,
    // The slot of the one that is looked for in the next turn, if one alone was told something.
    sought: Option<usize>,
    // How many are looked at in each other turn.
    few: usize,
    // Whether the last look found one of the newest. Then the next begins with the others: so these don't wait for ever where one of the
    // newest is told something time and again.
    others_first: bool,
}

impl Looks {
    /// So many are looked at in a turn while none may have been told something.
    pub fn new(few: usize) -> Looks {
        Looks {
            next: 0,
            alert: 0,
            sought: None,
            few,
            others_first: false,
        }
    }

    /// Notes that one of so many may have been told something: the next turns look at all of them.
    pub fn notice(&mut self, len: usize) {
        self.alert = len / OTHERS + 1;
    }

    /// Notes that the one with this slot may have been told something, if it is one of so many: the next turn looks for it. If another
    /// is still looked for, all of them are looked at.
    pub fn notice_at(&mut self, slot: usize, len: usize) {
        if self.sought.is_none() {
            self.sought = Some(slot);
        } else {
            self.notice(len);
        }
    }

    /// Notes that the next look is to be at all of them.
    pub fn look_at_all(&mut self) {
        self.alert = ALL;
    }

    /// The place of one that was told something, if that is one of those that are looked at now.
    pub fn find_told<N: WordsNaming, J: Drop, S: Drop>(
        &mut self,
        words: &Words<N>,
        viewer: &mut Viewer<N>,
        around: &Around,
        parked: &[Process<J, S>],
    ) -> Option<usize>
        ensures { IfSome result (λ place. place < length parked.now) }
    {
        if let Some(place) = self.find_sought(parked) {
            if is_told(words, viewer, around, &parked[place]) {
                return Some(place);
            }
        }
        self.find_next(words, viewer, around, parked)
    }

    /// The place of the one that is looked for, if one is. If it is not among the last, the next turns look at all of them.
    fn find_sought<J: Drop, S: Drop>(&mut self, parked: &[Process<J, S>]) -> Option<usize>
        ensures { IfSome result (λ place. place < length parked.now) }
    {
        let slot = self.sought.take()?;
        let len = parked.len();
        let from = len.saturating_sub(NEAR);
        let place = find_slot(parked, slot, from);
        if place.is_none() && from > 0 {
            self.notice(len);
        }
        place
    }

    /// The place of one that was told something, if that is one of those whose turn it is to be looked at.
    fn find_next<N: WordsNaming, J: Drop, S: Drop>(
        &mut self,
        words: &Words<N>,
        viewer: &mut Viewer<N>,
        around: &Around,
        parked: &[Process<J, S>],
    ) -> Option<usize>
        ensures { IfSome result (λ place. place < length parked.now) }
    {
        let len = parked.len();
        let (newest, many) = match self.alert {
            0 => (len, self.few),
            ALL => (0, 0),
            _ => (len.saturating_sub(NEWEST), OTHERS),
        };
        self.alert = fewer(self.alert);
        if self.others_first {
            self.others_first = false;
            if let Some(place) = self.find_other(words, viewer, around, parked, newest, many) {
                return Some(place);
            }
        }
        let place = find_told_within(words, viewer, around, parked, newest, len, true);
        if place.is_some() {
            self.others_first = newest > 0;
            return place;
        }
        self.find_other(words, viewer, around, parked, newest, many)
    }

    /// The place of one of those before the newest that was told something, if it is among the next so many. The next look goes on behind
    /// it, or behind those that were looked at.
    fn find_other<N: WordsNaming, J: Drop, S: Drop>(
        &mut self,
        words: &Words<N>,
        viewer: &mut Viewer<N>,
        around: &Around,
        parked: &[Process<J, S>],
        newest: usize,
        many: usize,
    ) -> Option<usize>
        requires { newest ≤ length parked.now }
        ensures { IfSome result (λ place. place < length parked.now) }
    {
        let from = if self.next < newest { self.next } else { 0 };
        let to = from.saturating_add(many).min(newest);
        let place = find_told_within(words, viewer, around, parked, from, to, false);
        self.next = match place {
            Some(place) => place + 1,
            None => to,
        };
        place
    }
}

/// How many looks are left after one.
fn fewer(alert: usize) -> usize {
    match alert {
        ALL => 0,
        looks => looks.saturating_sub(1),
    }
}

/// The place of one of the processes at these places that was told something: the first, or the last.
fn find_told_within<N: WordsNaming, J: Drop, S: Drop>(
    words: &Words<N>,
    viewer: &mut Viewer<N>,
    around: &Around,
    parked: &[Process<J, S>],
    from: usize,
    to: usize,
    last_first: bool,
) -> Option<usize>
    requires { to ≤ length parked.now }
    ensures { IfSome result (λ place. place < length parked.now) }
{
    for step in from..to {
        let place = if last_first {
            to - 1 - (step - from)
        } else {
            step
        };
        if is_told(words, viewer, around, &parked[place]) {
            return Some(place);
        }
    }
    None
}

/// The last place from this one on of a process with this slot.
fn find_slot<J: Drop, S: Drop>(parked: &[Process<J, S>], slot: usize, from: usize) -> Option<usize>
    requires { from ≤ length parked.now }
    ensures { IfSome result (λ place. place < length parked.now) }
{
    let to = parked.len();
    for back in from..to {
        let place = to - 1 - (back - from);
        if parked[place].slot() == slot {
            return Some(place);
        }
    }
    None
}

/// Whether a process was told something, or its job was woken.
fn is_told<N: WordsNaming, J: Drop, S: Drop>(
    words: &Words<N>,
    viewer: &mut Viewer<N>,
    around: &Around,
    process: &Process<J, S>,
) -> bool {
    let (slot, number) = (process.slot(), process.number());
    if around.is_woken(slot) {
        return true;
    }
    slot < words.slots() && process.has_news(words.look(viewer, slot, number))
}
