//! A child's row: who it is, how it was specified, and what its process does.

use otp_reason::Name;
use otp_spec::{ChildSpec, ChildType};

/// What the process of a child does. Each state has its own process number, so that no state is read as another.
#[derive(Clone, Copy, Debug, PartialEq, Eq)]
pub enum RowState {
    /// No process.
    Undefined,
    /// The start of this process was ordered. The second number is kept if the start fails in a restart.
    Starting(u64, u64),
    /// This process runs.
    Up(u64),
    /// This process was told to shut down, until the deadline in milliseconds, if there is one.
    Asked(u64, Option<u64>),
    /// This process was sent a kill.
    Killed(u64),
    /// The start in the last restart failed: a retry under this number waits.
    Restarting(u64),
}

/// A child of a supervisor. A dynamic one, under simple_one_for_one, has no id.
#[derive(Clone, Copy, Debug, PartialEq, Eq)]
pub struct Row {
    /// The child's place in what is kept beside the rows, as its body and its signals. It is chosen when the row is
    /// added, no other row of the supervisor has it, and it stays as long as the row.
    pub slot: usize,
    pub id: Option<Name>,
    pub spec: ChildSpec,
    pub state: RowState,
}

impl RowState {
    ghost use Rattle.std.specs.Prelude.{◌≡◌};
    ghost use Rattle.otp_table.specs.Rows.{number_of, up_number, has_number, has_process, awaits_retry, is_awaited, is_active, is_timed, is_undefined, is_up, is_restarting, calmed};

    /// The number of the process, or the one that the waiting retry has.
    pub fn number(&self) -> Option<u64>
        ensures { result ≡ number_of self.now }
    {
        match *self {
            RowState::Starting(p, _)
            | RowState::Up(p)
            | RowState::Asked(p, _)
            | RowState::Killed(p)
            | RowState::Restarting(p) => Some(p),
            RowState::Undefined => None,
        }
    }

    /// Whether the process, or the waiting retry, has this number.
    pub fn has_number(&self, number: u64) -> bool
        ensures { result ≡ has_number number self.now }
    {
        match *self {
            RowState::Starting(p, _)
            | RowState::Up(p)
            | RowState::Asked(p, _)
            | RowState::Killed(p)
            | RowState::Restarting(p) => p == number,
            RowState::Undefined => false,
        }
    }

    /// Whether the process has this number.
    pub fn has_process(&self, number: u64) -> bool
        ensures { result ≡ has_process number self.now }
    {
        match *self {
            RowState::Starting(p, _)
            | RowState::Up(p)
            | RowState::Asked(p, _)
            | RowState::Killed(p) => p == number,
            RowState::Undefined | RowState::Restarting(_) => false,
        }
    }

    /// Whether a retry under this number waits.
    pub fn awaits_retry(&self, number: u64) -> bool
        ensures { result ≡ awaits_retry number self.now }
    {
        matches!(*self, RowState::Restarting(kept) if kept == number)
    }

    /// The number of the process, if it runs.
    pub fn up_number(&self) -> Option<u64>
        ensures { result ≡ up_number self.now }
    {
        match *self {
            RowState::Up(number) => Some(number),
            _ => None,
        }
    }

    /// Whether an answer of the process is awaited: to its start, its shutdown or its kill.
    pub fn is_awaited(&self) -> bool
        ensures { result ≡ is_awaited self.now }
    {
        match self {
            RowState::Starting(..) | RowState::Asked(..) | RowState::Killed(_) => true,
            RowState::Undefined | RowState::Up(_) | RowState::Restarting(_) => false,
        }
    }

    /// Whether the process was started and has not ended.
    pub fn is_active(&self) -> bool
        ensures { result ≡ is_active self.now }
    {
        match self {
            RowState::Up(_) | RowState::Asked(..) | RowState::Killed(_) => true,
            RowState::Undefined | RowState::Starting(..) | RowState::Restarting(_) => false,
        }
    }

    /// Whether the process was told to shut down until a deadline.
    pub fn is_timed(&self) -> bool
        ensures { result ≡ is_timed self.now }
    {
        matches!(self, RowState::Asked(_, Some(_)))
    }

    /// Whether there is no process, and no retry waits.
    pub fn is_undefined(&self) -> bool
        ensures { result ≡ is_undefined self.now }
    {
        matches!(self, RowState::Undefined)
    }

    /// Whether the process runs.
    pub fn is_up(&self) -> bool
        ensures { result ≡ is_up self.now }
    {
        matches!(self, RowState::Up(_))
    }

    /// Whether a retry waits.
    pub fn is_restarting(&self) -> bool
        ensures { result ≡ is_restarting self.now }
    {
        matches!(self, RowState::Restarting(_))
    }

    /// The state once the waiting retry, if there is one, is given up.
    pub fn calmed(self) -> RowState
        ensures { result ≡ calmed self }
    {
        match self {
            RowState::Restarting(_) => RowState::Undefined,
            state => state,
        }
    }
}

impl Row {
    ghost use Rattle.std.specs.Prelude.{◌≡◌, ◌&&◌, not};
    ghost use Rattle.otp_table.specs.Rows.{has_id, is_left, is_supervisor, is_worker};

    /// Whether the child has this id.
    pub fn has_id(&self, id: &Name) -> bool
        ensures { result ≡ has_id id.now self.now }
    {
        self.id == Some(*id)
    }

    /// Whether it is a significant child that is left.
    pub fn is_left(&self) -> bool
        ensures { result ≡ is_left self.now }
    {
        self.spec.significant && !self.state.is_undefined()
    }

    /// Whether the child is a supervisor.
    pub fn is_supervisor(&self) -> bool
        ensures { result ≡ is_supervisor self.now }
    {
        match self.spec.kind {
            ChildType::Supervisor => true,
            ChildType::Worker => false,
        }
    }

    /// Whether the child is a worker.
    pub fn is_worker(&self) -> bool
        ensures { result ≡ is_worker self.now }
    {
        match self.spec.kind {
            ChildType::Worker => true,
            ChildType::Supervisor => false,
        }
    }
}
