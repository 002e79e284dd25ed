//! What a line of a script says.

use otp_reason::{Name, Reason};
use otp_rules::Call;

/// A child of the supervisor, as a script names it.
#[derive(Clone, Copy, Debug, PartialEq, Eq)]
pub enum Child {
    /// By its id.
    Named(Name),
    /// By its process number, as `#3`.
    Numbered(u64),
}

/// What a child's next start answers, where it doesn't succeed.
#[derive(Clone, Copy, Debug, PartialEq, Eq)]
pub enum NextStart {
    Ignore,
    Fail(Reason),
}

/// When a line happens, in milliseconds.
#[derive(Clone, Copy, Debug, PartialEq, Eq)]
pub enum When {
    /// As soon as what came before has happened.
    Now,
    /// So long after the beginning.
    At(u64),
    /// So long after the line before; of a line that happens more than once also after the time before.
    After(u64),
}

/// How a child or a supervisor is expected to stand.
#[derive(Clone, Copy, Debug, PartialEq, Eq)]
pub enum Expected {
    /// The child's process runs.
    Up(Child),
    /// The child has no process.
    Ended(Child),
    /// So many times the child with this id was started again since its supervisor was started.
    Restarts(Name, u64),
    /// The supervisor itself has not ended.
    Alive,
    /// The supervisor itself has ended.
    Over,
}

/// What happens.
#[derive(Clone, Copy, Debug, PartialEq, Eq)]
pub enum Action {
    /// Nothing but that time goes by.
    Nothing,
    /// The child's process ends for this reason.
    Exit(Child, Reason),
    /// The next start of the child with this id answers so.
    Start(Name, NextStart),
    /// Each start of the child with this id takes so many milliseconds from now on.
    Init(Name, u64),
    /// The child doesn't end when it is next asked to shut down.
    Hang(Child),
    /// The child ends so many milliseconds after it is next asked to shut down.
    Slow(Child, u64),
    /// The parent asks the supervisor to shut down.
    Stop,
    /// Somebody calls the supervisor.
    Call(Call),
    /// How a child or a supervisor stands is compared with what is expected.
    Expect(Expected),
}

/// A line of a script.
#[derive(Clone, Copy, Debug, PartialEq, Eq)]
pub struct Step<'a> {
    pub when: When,
    /// How often it happens, at least once.
    pub times: u64,
    /// To which supervisor it is said: the ids from the root's child on, each with a `/` behind it; nothing for the root.
    pub path: &'a [u8],
    pub action: Action,
}
