//! What happens to a supervisor, and what it orders.

use crate::call::Call;
use crate::ending::SupEnd;
use otp_reason::{Name, Note};

/// What a supervisor takes from its inbox.
#[derive(Clone, Copy, Debug, PartialEq, Eq)]
pub enum Item {
    Note(Note),
    /// A call under its number.
    Call(u64, Call),
}

/// What waits until no work is open.
#[derive(Clone, Copy, Debug, PartialEq, Eq)]
pub enum Waiting {
    Item(Item),
    /// The next try to start the child that keeps this number.
    Retry(u64),
}

/// What happens.
#[derive(Clone, Copy, Debug, PartialEq, Eq)]
pub enum Kind {
    /// The supervisor starts under its own process number.
    Opened(u64),
    /// An item of the inbox.
    Took(Item),
    /// The first waiting item.
    Resumed,
    /// The time of a deadline has come.
    Ticked,
    /// The parent asks the supervisor to shut down.
    Stopped,
}

/// An event: the clock's reading in milliseconds, the number for the child that it starts, if it starts one, and what happens.
#[derive(Clone, Copy, Debug, PartialEq, Eq)]
pub struct Event {
    pub reading: u64,
    pub number: Option<u64>,
    pub kind: Kind,
}

/// An order of the supervisor. A child is named by its id, if it has one, and its process number.
#[derive(Debug, Drop)]
pub enum Effect {
    /// Start the child with this id (a dynamic child has none), as the process with this number.
    Start(Option<Name>, u64),
    /// Ask it to shut down.
    Ask(Option<Name>, u64),
    /// Kill it.
    Kill(Option<Name>, u64),
    /// The call with this number was answered.
    Reply(u64),
    /// All children have been started.
    Ready,
    /// The supervisor has ended, and all its children have.
    End(SupEnd),
}
