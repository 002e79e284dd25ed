//! What a tree was when it was taken apart.
ghost use Rattle.std.specs.Prelude.{◌≡◌, ◌-◌, ◌^◌, length, min, IfNone, IfSome};
ghost use Rattle.otp_core.specs.View.{state_of, stored_of};
ghost use Rattle.otp_rules.specs.Ends.{init_failed, reason_of};
ghost use Rattle.otp_rules.specs.Needs.{numbers_of};
ghost use Rattle.otp_close.specs.Reports.{last_reason};
ghost use Rattle.otp_close.specs.Tellings.{AreSo, IsMismatch};

use crate::report::evidence::{Mismatch, find_mismatch};
use otp_core::Core;
use otp_job::Process;
use otp_reason::{Name, Reason, Text};
use otp_rules::{Ending, Item, Phase};
use otp_sup::ToldEnd;

/// What is known of a supervisor when its tree was taken apart.
#[derive(Drop)]
pub struct TableReport {
    /// Its core, as its last turn left it, with its history since its last checkpoint.
    pub core: Core,
    /// The ends of other supervisors that it was told since then, in their order, each with what shows it.
    pub ends_told: Vec<ToldEnd>,
    /// What it hadn't taken from its inbox, in the order in which it would have. Bodies that came with it are dropped.
    pub left: Vec<Item>,
    /// How many orders it had still to send: the last ones of its history.
    pub unsent_orders: u64,
    /// How many of them start a child: one at most.
    pub unsent: u64,
}

impl TableReport {
    /// How many starts of children its history has, those before its last checkpoint too.
    pub fn starts(&self) -> u64
        ensures { result ≡ length (numbers_of self.now.core.history) }
    {
        self.core.count_starts()
    }

    /// How many restarts it made since its last opening: exactly, below 2^64.
    pub fn restarts(&self) -> u64
        ensures { result ≡ min (length (state_of self.now.core).stamps) (2 ^ 64 - 1) }
    {
        self.core.count_restarts()
    }

    /// The reason of its last end. None where it runs, or was never opened.
    pub fn end(&self) -> Option<Reason>
        ensures { result ≡ last_reason (state_of self.now.core) }
    {
        match self.core.phase() {
            Phase::Ended(_, ending) => Some(reason_of(ending)),
            Phase::Unopened | Phase::Open(_) => None,
        }
    }

    /// How many events are stored of it: all since its last checkpoint ([`Core::cut`]).
    pub fn events(&self) -> u64
        ensures { result ≡ length (stored_of self.now.core) }
    {
        self.core.history().len() as u64
    }
}

/// The reason that the parent of a supervisor sees (Supervisor Behaviour, Maximum Restart Intensity and Automatic Shutdown).
fn reason_of(ending: Ending) -> Reason
    ensures { result ≡ reason_of ending }
{
    match ending {
        Ending::Intensity | Ending::Significant(_) | Ending::Asked => Reason::Shutdown,
        Ending::InitFailed(id) => init_failed(id),
    }
}

/// The reason of a supervisor that failed to start the child with this id.
fn init_failed(id: Name) -> Reason
    ensures { result ≡ init_failed id }
{
    Reason::ShutdownWith(Text::joined(b"failed_to_start_child/", id.as_bytes()))
}

impl<J: Drop, S: Drop> Report<J, S> {
    /// An event that tells a supervisor an end of another one that isn't the one that the other's own history gives:
    /// another reason, or another cause. Whoever closes a tree looks for one. Which it is where there are several,
    /// no clause says.
    ///
    /// Histories are looked at as far as they are stored. An end that a checkpoint of the other supervisor dropped can't be
    /// compared, and is no mismatch.
    pub fn find_mismatch(&self) -> Option<Mismatch>
        ensures none { IfNone result (AreSo self.now.tables.items) }
        ensures found { IfSome result (IsMismatch self.now.tables.items) }
    {
        find_mismatch(self.tables.as_slice())
    }
}

/// What a tree was when it was taken apart.
#[derive(Drop)]
pub struct Report<J: Drop, S: Drop> {
    /// Of each supervisor, in the order of their numbers.
    pub tables: Vec<TableReport>,
    /// How many processes more began than ended; the root's is one of them.
    pub live: u64,
    /// How many processes began, the root's with them.
    pub begun: u64,
    /// How many processes ended.
    pub ended: u64,
    /// The processes that are left in the run queues.
    pub processes: Vec<Process<J, S>>,
    /// What whoever opened the tree hadn't taken of what the root told.
    pub last: Vec<Item>,
    /// How many ends of the root whoever opened the tree had taken.
    pub heard: u64,
    /// How many ends hands had still to tell, since their letters had been refused. Bodies that came with them are dropped.
    pub held: u64,
}
