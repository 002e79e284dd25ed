//! A supervisor of a tree that is tried.

ghost use Rattle.std.specs.Prelude.{IsTrue, ◌≡◌, ◌≤◌, [], false, is_some, length, nat_lt, IfOk, OnOk};
ghost use Rattle.std.specs.List.{list_any};
ghost use Rattle.otp_core.specs.View.{new_core, state_of};
ghost use Rattle.otp_rules.specs.Ends.{last_stamps};
ghost use Rattle.otp_rules.specs.Next.{idle_kind, next_kind};
ghost use Rattle.otp_rules.specs.Run.{empty_state};
ghost use Rattle.otp_rules.specs.State.{is_over};
ghost use Rattle.otp_spec.specs.declared.limits.TheConstants.{MAX_READING};
ghost use Rattle.otp_trial.specs.Strains.{strained};
ghost use Rattle.otp_trial.specs.Played.{Happens, end_if_started, end_of_ended, end_of_expected, end_of_restarts, end_of_test, end_of_up, fresh, has_end_waiting, is_start, is_starting, state_in, unplayed, with_intensity};

use crate::planting::seat_of;
use crate::processes::finding::state_for;
use crate::story::away::{Away, note_presence, presence_of, tell_down};
use crate::story::starts::{Started, has_start, put_starts, starts_of};
use crate::story::strain::Strain;
use crate::story::telling::{Telling, tell};
use crate::trial::{ActionEnd, Halt};
use otp_core::{Core, MAX_EVENTS};
use otp_rules::{Effect, Kind, Phase};
use otp_script::Expected;
use otp_spec::{MAX_READING, SupFlags, SupSpec, copy_specs};
use otp_table::{Row, RowState};
use otp_text::Printer;
use std::alloc::Global;
use std::collections::VecDeque;
use std::marker::Model;

/// A supervisor with its core: what it is opened with whenever it starts, and what has happened to it since then.
#[derive(Drop)]
pub struct TriedSupervisor {
    /// What stands in front of the names of its children: the ids of the supervisors from the root's child on, each with
    /// a `/` behind it.
    path: Vec<u8>,
    /// All its orders are told, and not its ends alone.
    tells: bool,
    supervisor: SupSpec,
    core: Core,
    /// How it bore up so far, however often it was started anew.
    strain: Strain,
    /// Since when children of it are without a process, however often it was started anew.
    aways: Vec<Away>,
    /// The starts that it ordered since its own last start.
    starts: Vec<Started>,
    /// All of them are kept: memory was not refused in the midst of what happened last. Else nothing more happens.
    is_whole: bool,
}

impl Model for TriedSupervisor {
    ghost use Rattle.otp_trial.specs.Played.{Seated};

    ghost Value = { Seated };

    ghost use Rattle.otp_trial.specs.Inside.{IsSeat, seated_of};

    ghost view = { seated_of };

    ghost invariant = { IsSeat };
}

/// A core that was never opened.
fn core_of(alloc: Global, supervisor: &SupSpec) -> Result<Core, Halt>
    ensures { IfOk result (λ core. core ≡ new_core supervisor.now.flags supervisor.now.specs) }
{
    Ok(Core::of(alloc, supervisor.try_clone(alloc)?))
}

/// What a supervisor is opened with, but for another intensity.
fn with_intensity(alloc: Global, supervisor: &SupSpec, intensity: u64) -> Result<SupSpec, Halt>
    ensures { IfOk result (λ other. other ≡ record { flags = record supervisor.now.flags { intensity = intensity }; specs = supervisor.now.specs }) }
{
    let specs = copy_specs(alloc, supervisor.specs())?;
    let flags = SupFlags {
        intensity,
        ..supervisor.flags()
    };
    match SupSpec::check(flags, specs) {
        Ok(other) => Ok(other),
        // An intensity that a file may say doesn't decide whether specifications are lawful.
        Err(_) => Err(Halt::OutOfMemory),
    }
}

/// How a supervisor with these flags bears up whose core has done this at an event of this kind at this time.
fn strain_after(strain: Strain, time: u64, kind: &Kind, flags: SupFlags, core: &Core) -> Strain
    ensures { result ≡ strained strain time kind.now flags (last_stamps (state_of core.now).flags.intensity (state_of core.now).stamps) core.now.effects }
{
    strain.strained(time, kind, &flags, core.kept_restarts(), core.effects())
}

/// Whether nothing has happened to a core.
fn has_no_events(core: &Core) -> bool
    ensures { IsTrue result → core.now.history ≡ [] }
{
    core.events_cut() == 0 && core.history().len() == 0
}

impl TriedSupervisor {
    /// A supervisor that was never opened.
    pub(crate) fn new(
        alloc: Global,
        path: Vec<u8>,
        tells: bool,
        supervisor: SupSpec,
    ) -> Result<Self, Halt>
        ensures { IfOk result (λ seat. seat ≡ unplayed tells path.items supervisor.flags supervisor.specs) }
    {
        let core = match core_of(alloc, &supervisor) {
            Ok(core) => core,
            Err(halt) => {
                drop(supervisor);
                return Err(halt);
            }
        };
        Ok(TriedSupervisor {
            path,
            tells,
            supervisor,
            core,
            strain: Strain::new(),
            aways: Vec::new(alloc),
            starts: Vec::new(alloc),
            is_whole: true,
        })
    }

    /// This supervisor as at the beginning of a run.
    pub(crate) fn fresh(&self, alloc: Global) -> Result<Self, Halt>
        ensures { IfOk result (λ seat. seat ≡ fresh self.now) }
    {
        seat_of(alloc, self.path(), self.tells, &self.supervisor)
    }

    /// Whether nothing has happened to it since the beginning of the run.
    fn is_fresh(&self) -> bool
        ensures { IsTrue result → fresh self.now ≡ self.now }
    {
        has_no_events(&self.core) && self.aways.is_empty() && self.strain == Strain::new()
    }

    /// It is as at the beginning of a run.
    pub(crate) fn freshen(&mut self, alloc: Global) -> Result<(), Halt>
        ensures { OnOk result (self.new ≡ fresh self.old) }
    {
        if self.is_fresh() {
            return Ok(());
        }
        let anew = self.fresh(alloc)?;
        *self = anew;
        Ok(())
    }

    /// This supervisor with another intensity, as at the beginning of a run.
    pub(crate) fn with_intensity(&self, alloc: Global, intensity: u64) -> Result<Self, Halt>
        ensures { IfOk result (λ seat. seat ≡ with_intensity intensity self.now) }
    {
        let other = with_intensity(alloc, &self.supervisor, intensity)?;
        let seat = seat_of(alloc, self.path(), self.tells, &other);
        drop(other);
        seat
    }

    /// The supervisor is started anew: nothing has happened to it.
    pub(crate) fn renew(&mut self, alloc: Global) -> Result<(), Halt>
        ensures { OnOk result (self.new ≡ record self.old { history = [] }) }
    {
        self.core = core_of(alloc, &self.supervisor)?;
        self.starts.clear();
        self.is_whole = true;
        Ok(())
    }

    /// Something happens at this time, and its orders are told, all of them or its end alone. A child that is started gets the next number after
    /// `last`; the answer is the last number then.
    pub(crate) fn happen(
        &mut self,
        time: u64,
        kind: Kind,
        last: u64,
        printer: &mut Printer,
        out: &mut Vec<u8>,
    ) -> Result<u64, Halt>
        requires { time ≤ MAX_READING }
        ensures { OnOk result (Happens time kind self.old self.new out.old.items out.new.items) }
    {
        if !self.is_whole {
            return Err(Halt::OutOfMemory);
        }
        let last = last.max(self.core.last_number());
        if last >= MAX_READING {
            return Err(Halt::HistoryFull);
        }
        let presence = presence_of(self.core.rows(), &kind);
        self.core.clear_effects();
        let after = self.core.happen_after(MAX_EVENTS, time, &kind, last)?;
        self.is_whole = false;
        let starts = self.starts.as_slice();
        let scene = Telling {
            time,
            path: self.path.as_slice(),
            starts,
            tells: self.tells,
        };
        let aways = self.aways.as_slice();
        tell_down(&scene, presence, aways, out)?;
        tell(&scene, &self.core, printer, out)?;
        note_presence(presence, time, &mut self.aways)?;
        put_starts(self.core.effects(), &mut self.starts)?;
        self.strain = strain_after(
            self.strain,
            time,
            &kind,
            self.supervisor.flags(),
            &self.core,
        );
        self.is_whole = true;
        Ok(after)
    }

    /// How it bore up so far, however often it was started anew.
    pub fn strain(&self) -> Strain
        ensures { result ≡ self.now.strain }
    {
        self.strain
    }

    /// Whether what is expected of it, while it has a process, or of a child of it, is so.
    ///
    /// # Errors
    ///
    /// Where memory was refused in the midst of what happened last.
    #[tactic(auto, unfolding(crate::specs::Played::end_of_expected))]
    pub(crate) fn meets(&self, expected: Expected) -> Result<ActionEnd, Halt>
        ensures { IfOk result (λ taken. taken ≡ end_of_expected expected self.now) }
    {
        if !self.is_whole {
            return Err(Halt::OutOfMemory);
        }
        let starts = self.starts.as_slice();
        Ok(match expected {
            Expected::Up(child) => end_of_up(
                has_start(&child, starts),
                state_for(&child, self.rows()),
            ),
            Expected::Ended(child) => {
                end_of_ended(has_start(&child, starts), state_for(&child, self.rows()))
            }
            Expected::Restarts(id, restarts) => end_of_restarts(starts_of(&id, starts), restarts),
            Expected::Alive => end_of_test(!self.has_ended()),
            Expected::Over => end_of_test(self.has_ended()),
        })
    }

    /// The orders of what happened last.
    pub(crate) fn orders(&self) -> &[Effect] {
        self.core.effects()
    }

    /// What stands in front of the names of its children: the ids of the supervisors from the root's child on, each with a
    /// `/` behind it.
    pub fn path(&self) -> &[u8]
        ensures { result.now ≡ self.now.path }
    {
        self.path.as_slice()
    }

    pub fn flags(&self) -> SupFlags
        ensures { result ≡ self.now.base.flags }
    {
        self.supervisor.flags()
    }

    /// What it is opened with whenever it starts.
    pub fn supervisor(&self) -> &SupSpec
        ensures { self.now.base ≡ empty_state result.now.flags result.now.specs }
    {
        &self.supervisor
    }

    /// Whether it runs, and how it ended.
    pub fn phase(&self) -> Phase
        ensures { result ≡ (state_in self.now).phase }
    {
        self.core.phase()
    }

    /// The children in start order.
    pub fn rows(&self) -> &[Row]
        ensures { result.now ≡ (state_in self.now).rows }
    {
        self.core.rows()
    }

    /// The times in milliseconds of the last restarts: all of them, or one more than the intensity.
    pub fn kept_restarts(&self) -> &VecDeque<u64>
        ensures { result.now.items ≡ last_stamps (state_in self.now).flags.intensity (state_in self.now).stamps }
    {
        self.core.kept_restarts()
    }

    /// Whether the supervisor has ended.
    pub fn has_ended(&self) -> bool
        ensures { result ≡ is_over (state_in self.now).phase }
    {
        self.core.has_ended()
    }

    /// Whether the end of this process was told, and waits until no work is open.
    pub(crate) fn has_end_waiting(&self, process: u64) -> bool
        ensures { result ≡ has_end_waiting self.now process }
    {
        self.core.has_exit_waiting(process)
    }

    /// Whether the start of this process was ordered, and isn't answered.
    pub(crate) fn is_starting(&self, process: u64) -> bool
        ensures { result ≡ is_starting self.now process }
    {
        starts_as(self.rows(), process)
    }

    /// Whether children are being stopped or started.
    pub fn has_open_work(&self) -> bool
        ensures { result ≡ is_some (state_in self.now).follows }
    {
        self.core.has_open_work()
    }

    /// Whether something waits until no work is open.
    pub fn has_waiting(&self) -> bool
        ensures { result ≡ nat_lt 0 (length (state_in self.now).waiting) }
    {
        self.core.has_waiting()
    }

    /// What happens next at this time though no process tells anything.
    pub(crate) fn next_kind(&self, time: u64, is_stopping: bool) -> Option<Kind>
        ensures { result ≡ next_kind (state_in self.now) time is_stopping }
    {
        self.core.next_kind(time, is_stopping)
    }

    /// What happens next by itself, deadlines apart.
    pub(crate) fn idle_kind(&self, is_stopping: bool) -> Option<Kind>
        ensures { result ≡ idle_kind (state_in self.now) is_stopping }
    {
        self.core.idle_kind(is_stopping)
    }

    /// The next deadline of a child that was asked to shut down.
    pub fn next_deadline(&self) -> Option<u64> {
        self.core.next_deadline()
    }
}

/// Whether a child in this state starts as this process.
#[tactic(auto, unfolding(crate::specs::Played::is_start))]
fn is_start(state: RowState, process: u64) -> bool
    ensures { result ≡ is_start process state }
{
    match state {
        RowState::Starting(number, _) => number == process,
        RowState::Undefined
        | RowState::Up(_)
        | RowState::Asked(..)
        | RowState::Killed(_)
        | RowState::Restarting(_) => false,
    }
}

/// Whether one of these children starts as this process.
fn starts_as(rows: &[Row], process: u64) -> bool
    ensures { result ≡ list_any (λ row. is_start process row.state) rows.now }
{
    rows.iter().any(|row| is_start(row.state, process))
}

/// A child is there no more: what becomes of what is expected then, if its supervisor has started it.
#[tactic(auto, unfolding(crate::specs::Played::end_if_started))]
fn end_if_started(was_started: bool, known: ActionEnd) -> ActionEnd
    ensures { result ≡ end_if_started was_started known }
{
    if was_started {
        known
    } else {
        ActionEnd::NoChild
    }
}

/// Whether a child in this state runs, as is expected.
#[tactic(auto, unfolding(crate::specs::Played::end_of_up))]
fn end_of_up(was_started: bool, state: Option<RowState>) -> ActionEnd
    ensures { result ≡ end_of_up was_started state }
{
    match state {
        None => end_if_started(was_started, ActionEnd::Unmet),
        Some(RowState::Up(_)) => ActionEnd::Done,
        Some(
            RowState::Undefined
            | RowState::Starting(..)
            | RowState::Asked(..)
            | RowState::Killed(_)
            | RowState::Restarting(_),
        ) => ActionEnd::Unmet,
    }
}

/// Whether a child in this state has no process, as is expected.
#[tactic(auto, unfolding(crate::specs::Played::end_of_ended))]
fn end_of_ended(was_started: bool, state: Option<RowState>) -> ActionEnd
    ensures { result ≡ end_of_ended was_started state }
{
    match state {
        None => end_if_started(was_started, ActionEnd::Done),
        Some(RowState::Undefined | RowState::Restarting(_)) => ActionEnd::Done,
        Some(
            RowState::Starting(..) | RowState::Up(_) | RowState::Asked(..) | RowState::Killed(_),
        ) => ActionEnd::Unmet,
    }
}

/// Whether a child that has started so often was started again as often as is expected.
#[tactic(auto, unfolding(crate::specs::Played::end_of_restarts))]
fn end_of_restarts(starts: u64, restarts: u64) -> ActionEnd
    ensures { result ≡ end_of_restarts starts restarts }
{
    if starts == 0 {
        ActionEnd::NoChild
    } else if starts - 1 == restarts {
        ActionEnd::Done
    } else {
        ActionEnd::Unmet
    }
}

/// Whether it is so, as is expected.
#[tactic(auto, unfolding(crate::specs::Played::end_of_test))]
fn end_of_test(is_so: bool) -> ActionEnd
    ensures { result ≡ end_of_test is_so }
{
    if is_so {
        ActionEnd::Done
    } else {
        ActionEnd::Unmet
    }
}
