use crate::place::Place;
use otp_reason::{Reason, Started};
use std::alloc::Global;

/// What a job is told at the beginning of a turn.
#[derive(Clone, Copy, Debug, PartialEq, Eq)]
pub enum Told {
    /// Nothing new.
    Nothing,
    /// Its supervisor asks it to shut down.
    Shutdown,
}

/// What a job answers at the end of a turn.
#[derive(Clone, Copy, Debug, PartialEq, Eq)]
pub enum Turn {
    /// It wants another turn.
    Again,
    /// It has nothing to do until it is told something, as a process of Erlang that waits in a receive: it has its next turn once
    /// it is to be killed, or is asked to shut down and wasn't told so yet, or is woken ([`Place::waker`]).
    Wait,
    /// It has ended, with this reason.
    End(Reason),
}

/// What a worker process runs: the child's own code, cut into turns.
///
/// # What an implementer owes
///
/// - **No turn may block.** A thread takes the turns of many processes, one after another. A turn that sleeps, waits
///   for a lock or reads from a socket that has nothing keeps all of them waiting, and a supervisor that waits for one
///   of them too. Do a piece of work, keep in `self` what the next turn needs, and answer [`Turn::Again`].
/// - **A job that has nothing to do should say so** ([`Turn::Wait`]): else it takes turns that do nothing, and all others wait
///   for them. One that looks after something outside takes a waker at its start ([`Job::begin`]) and gives it to the thread that
///   knows of that: it wakes the job. A turn may come for no reason, with nothing new.
/// - **Every turn returns.** A turn can't be broken off. A job that never returns from one is never killed, and keeps
///   its thread.
/// - **`start` begins anew, from whatever state the job is in.** After its end the same value may be started again,
///   under another number: as the last turn left it, and after a kill in the middle of its work.
/// - `traps` says whether the job traps exits (`process_flag(trap_exit, true)`). It is asked when a shutdown comes.
///
/// # What it is told, and how often
///
/// - The first turn of a process calls `begin` once, which calls `start` with the process's number where a job doesn't say
///   otherwise. It looks at no signal: a process that
///   was to be killed at once has started before it dies. Where the answer isn't [`Started::Up`], that was all.
/// - Each later turn calls `turn` at most once. A **kill acts between two turns**: the process ends with
///   [`Reason::Killed`], and nothing is called. A shutdown ends a job that doesn't trap, with [`Reason::Shutdown`] and no
///   call. A job that traps is told [`Told::Shutdown`] in **one** turn, and may take as many further turns as it likes to
///   clean up: it is told [`Told::Nothing`] in those, and ends by [`Turn::End`]; its supervisor may lose patience and
///   kill it.
/// - When it ends, the job goes home to its supervisor with the note of its end, as the last call left it.
///
/// # The relations
///
/// `is_trapping`, `started` and `turned` say what a call did: that the job `before`, in one call, gave this answer and
/// was left as `after`. `started` tells besides in which place that was. They are for contracts alone. The last two have a default
/// that says nothing, so a job need not write them. A contract above that speaks of one such fact can be met by one call, and by no
/// more and no fewer.
pub trait Job: Send + Drop {
    ghost use Rattle.std.specs.Prelude.{◌≡◌, ℕ, ⊤, Bool};
    ghost use Rattle.otp_reason.specs.declared.note.Started.{Started};
    ghost use Rattle.otp_job.specs.declared.job.Told.{Told};
    ghost use Rattle.otp_job.specs.declared.job.Turn.{Turn};
    ghost use Rattle.otp_job.specs.Places.{PlaceView};

    ghost is_trapping: { Self → Bool };

    ghost started: { Self → PlaceView → Started → Self → Type 0 } = { λ before place answer after. ⊤ };

    ghost turned: { Self → Told → Turn → Self → Type 0 } = { λ before told answer after. ⊤ };

    /// Whether it traps exits.
    fn traps(&self) -> bool
        ensures { result ≡ is_trapping self.now };

    /// Starts it, as the process with this number, wherever that is.
    fn start(&mut self, number: u64) -> Started
        ensures { (place : PlaceView) → place.number ≡ number → started self.old place result self.new };

    /// Starts it in this place: what a process calls. A job that needs more than its number, as a waker or the time, writes this
    /// one, and its `start` is what it does where it is started without a place.
    fn begin(&mut self, place: &Place<'_>) -> Started
        ensures { started self.old (record { number = place.now.number; slot = place.now.slot; table = place.now.table; id = place.now.id; reading = place.now.reading }) result self.new }
    {
        self.start(place.number)
    }

    /// A piece of its work.
    fn turn(&mut self, told: Told) -> Turn
        ensures { turned self.old told result self.new };
}

/// Any job.
pub type BoxedJob = Box<dyn Job, Global>;
