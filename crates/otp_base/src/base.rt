//! What a checkpoint holds.

ghost use Rattle.std.specs.Prelude.{◌≡◌};
ghost use Rattle.otp_base.specs.States.{nothing};

use otp_rules::{Due, Phase, Sequel, Waiting};
use otp_spec::{ChildSpec, SupFlags};
use otp_table::Row;

/// What is counted of the events before a checkpoint.
#[derive(Clone, Copy, Debug, PartialEq, Eq)]
pub struct Counts {
    pub events: u64,
    /// Children that were started.
    pub starts: u64,
    /// Restarts since the last opening. A core that was resumed knows of those alone whose times the checkpoint kept.
    pub restarts: u64,
    /// The greatest process number that was given to a child, or 0. The next is to be above it.
    pub greatest_number: u64,
    /// The greatest number of a call that was answered, if one was: the answers before a checkpoint are gone.
    pub greatest_call: Option<u64>,
}

impl Counts {
    /// What is counted of a supervisor that was never opened.
    pub fn new() -> Counts
        ensures { result ≡ nothing }
    {
        Counts {
            events: 0,
            starts: 0,
            restarts: 0,
            greatest_number: 0,
            greatest_call: None,
        }
    }
}

/// A supervisor between two events. Nothing of it was tested: `Core::resume` does.
#[derive(Debug, Drop)]
pub struct Base {
    pub flags: SupFlags,
    /// The specifications given; under simple_one_for_one the one that all children share.
    pub specs: Vec<ChildSpec>,
    /// The children in start order.
    pub rows: Vec<Row>,
    /// The times of the last restarts since the last opening, in milliseconds: one more than the intensity at most.
    pub stamps: Vec<u64>,
    /// The processes that the open work is still to stop, in start order: the last one is stopped first.
    pub to_stop: Vec<u64>,
    /// The children that it is still to start, in start order.
    pub to_start: Vec<Due>,
    /// What follows the open work, if there is open work.
    pub follows: Option<Sequel>,
    /// What waits until no work is open.
    pub waiting: Vec<Waiting>,
    /// The stamp of the last event, in milliseconds.
    pub last: u64,
    pub phase: Phase,
    pub counts: Counts,
}
