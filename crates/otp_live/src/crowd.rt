//! Whether a hand has something that another could take.

/// So many turns a hand makes in a batch, before it looks at the clock and the stop again. Where the last batch took a millisecond or more
/// it makes one.
const BATCH: u32 = 16;

/// A deque of so many processes is crowded, whatever they do.
const MANY: u32 = 4;

/// After so many batches in a row in which there was much to do there is a crowd; and each time so many later another hand is woken for it.
const PATIENCE: u32 = 3;

/// What was told of some turns of a hand. Nothing is told of a turn of a job that goes on.
#[derive(Clone, Copy)]
pub(crate) struct News {
    /// Letters sent, and turns of supervisors: steps of starts and stops.
    pub steps: u64,
    /// Jobs that began to wait: a job that was told something or woken has one such turn, as a rule.
    pub waits: u64,
}

/// For how long a hand has had much to do.
///
/// Of two processes or three in its deque one may have nothing to do before the other's turn: a supervisor starts its children one after
/// the other, and a child that has begun has a turn in which it says that it waits. Whoever took one of these would be waited for. So there
/// is much to do where the deque has more processes; or some, and most turns are no steps of starts and stops, or are long; or where one job
/// after the other is woken.
#[derive(Drop)]
pub(crate) struct Crowd {
    batches: u32,
    // When the last batch ended, and whether the clock went on meanwhile.
    reading: u64,
    was_long: bool,
}

impl Crowd {
    /// No batch of turns has been made yet.
    pub fn new() -> Crowd {
        Crowd {
            batches: 0,
            reading: 0,
            was_long: false,
        }
    }

    /// How many turns the next batch has.
    pub fn turns(&self) -> u32 {
        if self.was_long { 1 } else { BATCH }
    }

    /// Notes a batch of turns that ended at this reading of the clock: whether there was something to do in each, how many processes are in
    /// the deque after it, and what was told of it.
    pub fn note(&mut self, is_busy: bool, stock: u32, news: News, reading: u64) {
        let half = half_of(self.turns());
        self.was_long = self.reading < reading;
        self.reading = reading;
        let goes_on = self.was_long || news.steps < half;
        let has_more = stock >= 2 || news.waits >= half;
        self.batches = if is_busy && (stock >= MANY || (has_more && goes_on)) {
            self.batches.saturating_add(1)
        } else {
            0
        };
    }

    /// Whether other hands may take something.
    pub fn is_there(&self) -> bool {
        self.batches >= PATIENCE
    }

    /// Whether another hand is to be woken for it after this batch.
    pub fn wakes_another(&self) -> bool {
        self.is_there() && self.batches % PATIENCE == 0
    }
}

/// Half of so many turns, and of one turn that.
fn half_of(turns: u32) -> u64 {
    if turns == 1 { 1 } else { (turns / 2) as u64 }
}
