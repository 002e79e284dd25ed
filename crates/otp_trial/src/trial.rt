//! A tree that is tried.

ghost use Rattle.std.specs.Prelude.{ℕ, List, ◌∷◌, Bool, true, ◌≡◌, ◌<◌, ◌≤◌, OnOk, IfOk, IfSome, length, map, max, position};
ghost use Rattle.otp_reason.specs.declared.note.Note.TheVariants as note;
ghost use Rattle.otp_rules.specs.declared.event.Item.TheVariants as item;
ghost use Rattle.otp_rules.specs.declared.event.Kind.TheVariants as kind;
ghost use Rattle.otp_spec.specs.declared.limits.TheConstants.{MAX_READING};
ghost use Rattle.otp_trial.specs.Played.{ActsAt, Begins, EndsAt, EndsByAt, EndsProcessAt, ExpectsAt, IsPlanted, IsPlantedAs, PlansAt, Seated, Stops, StopsFirst, Tells, TellsFirst, at_start, fresh, is_root_over, now_of};
ghost use Rattle.otp_trial.specs.Steps.{has_path};
ghost use Rattle.otp_trial.specs.Taken.{taken_text};
ghost use Rattle.otp_trial.specs.declared.trial.ActionEnd.TheVariants.{Done};

use crate::clock::Clock;
use crate::next::{next_of_seats, place_of_process};
use crate::planting::{Change, fresh_seats, freshen, plant_as};
use crate::processes::finding::{Found, found_for, is_known};
use crate::processes::links::{links_again, links_to};
use crate::processes::{Deed, Hang, Init, PlannedStart, What, World};
use crate::seat::TriedSupervisor;
use otp_core::EventFault;
use otp_driver::driven::Link;
use otp_file::TreeSpec;
use otp_reason::{Name, Note, Reason};
use otp_rules::{Call, Item, Kind};
use otp_script::{Action, Child, Expected, NextStart, is_text};
use otp_text::Printer;
use std::alloc::{AllocError, Global};
use std::marker::Model;

/// Why a trial can't go on. It is not used again then.
#[derive(Clone, Copy, Debug, PartialEq, Eq)]
pub enum Halt {
    /// There were 2^62 events, as many as a supervisor has in its life.
    HistoryFull,
    OutOfMemory,
}

impl From<EventFault> for Halt {
    ghost use Rattle.std.specs.Prelude.{◌≡◌};
    ghost use Rattle.otp_trial.specs.Halts.{halt_of};

    ghost from_gives = { λ fault halt. halt ≡ halt_of fault };

    /// No order ever waits in a trial.
    fn from(fault: EventFault) -> Self {
        match fault {
            EventFault::HistoryFull => Halt::HistoryFull,
            EventFault::OutOfMemory | EventFault::OrdersWait => Halt::OutOfMemory,
        }
    }
}

impl From<AllocError> for Halt {
    ghost use Rattle.std.specs.Prelude.{◌≡◌};
    ghost use Rattle.otp_trial.specs.declared.trial.Halt.TheVariants.{OutOfMemory};

    ghost from_gives = { λ _ halt. halt ≡ OutOfMemory };

    fn from(_error: AllocError) -> Self {
        Halt::OutOfMemory
    }
}

/// What became of an action.
#[derive(Clone, Copy, Debug, PartialEq, Eq)]
pub enum ActionEnd {
    /// It was taken, and all that follows from it.
    Done,
    /// The child that it means has no process. Nothing happened.
    NoProcess,
    /// The process that it means has ended already, which its supervisor takes up once no work is open. Nothing happened.
    EndWaits,
    /// There is no child that it could mean. Nothing happened.
    NoChild,
    /// There is no supervisor with its path. Nothing happened.
    NoSupervisor,
    /// The supervisor that it means has no process. Nothing happened.
    NotRunning,
    /// What was expected is not so. Nothing happened.
    Unmet,
    /// Its time has gone by. Nothing happened.
    TooLate,
    /// The supervisor has ended, and has no children. Nothing happened.
    Ended,
    /// The children of its supervisor have no ids, so no start of one can be planned. Nothing happened.
    NoIds,
}

impl ActionEnd {
    /// Why it did nothing, and what to do; nothing where it was taken.
    #[tactic(auto, unfolding(crate::specs::Taken::taken_text))]
    pub fn text(self) -> &'static str
        ensures { result.now ≡ taken_text self }
    {
        match self {
            ActionEnd::Done => "",
            ActionEnd::NoProcess =>
                "ignored: this child has no process now; say restart ID to start it again",
            ActionEnd::EndWaits =>
                "ignored: this process has ended already; its supervisor takes that up once no work is open",
            ActionEnd::NoChild =>
                "ignored: there is no such child; which lists the root's, PATH/ which those below",
            ActionEnd::NoSupervisor =>
                "ignored: there is no supervisor of this path; write ids from the root's child on",
            ActionEnd::NotRunning =>
                "ignored: this supervisor has no process now; restart ID starts it, if not temporary",
            ActionEnd::Unmet => "it is not so",
            ActionEnd::TooLate =>
                "ignored: that time has gone by; +TIME counts from the line before",
            ActionEnd::Ended => "ignored: the supervisor has ended; the line of its end says why",
            ActionEnd::NoIds =>
                "ignored: children of simple_one_for_one have no ids, so no start of one can be planned",
        }
    }
}

/// A tree of supervisors in a world whose processes do what a script says, and else what is best: each start succeeds at once,
/// and each process that is asked to shut down ends. A supervisor below the root is a child of another: its start opens its
/// core, and its end is told to its parent. The cores decide, as one does for `sim`; nothing is decided twice.
#[derive(Drop)]
pub struct Trial {
    alloc: Global,
    /// The root first, and each before its children.
    seats: Vec<TriedSupervisor>,
    /// Whose child each of them is, as at the beginning.
    links: Vec<Link>,
    printer: Printer,
    world: World,
    clock: Clock,
    /// The time since the beginning, in milliseconds.
    time: u64,
    /// The greatest call number given.
    calls: u64,
    /// The greatest process number given.
    last: u64,
}

impl Model for Trial {
    ghost use Rattle.otp_trial.specs.Played.{Stand};

    ghost Value = { Stand };

    ghost use Rattle.otp_trial.specs.TrialInside.{IsTrial, stand_of};

    ghost view = { stand_of };

    ghost invariant = { IsTrial };
}

impl Trial {
    /// A tree whose root was opened, and whose children have started as far as they do. All orders are told, or the ends of
    /// supervisors alone.
    ///
    /// # Errors
    ///
    /// Where memory is refused.
    pub fn open(
        alloc: Global,
        tree: &TreeSpec,
        tells: bool,
        clock: Clock,
        out: &mut Vec<u8>,
    ) -> Result<Self, Halt>
        ensures opened { IfOk result (λ trial. (before : List Seated) × IsPlanted tells tree.now before × Tells (at_start clock before) trial out.old.items out.new.items × Begins 0 (kind.Opened 0) (at_start clock before) trial) }
        ensures told { IfOk result (λ trial. (before : List Seated) × IsPlanted tells tree.now before × TellsFirst 0 (kind.Opened 0) (at_start clock before) trial out.old.items out.new.items) }
        ensures time { IfOk result (λ trial. trial.time ≡ 0) }
    {
        let mut trial = Self::plant(alloc, tree, tells, clock, None)?;
        match trial.play(0, Kind::Opened(0), out) {
            Ok(()) => Ok(trial),
            Err(halt) => {
                drop(trial);
                Err(halt)
            }
        }
    }

    /// A tree of which nothing was opened yet, as its file says it, or one of its supervisors has another intensity.
    ///
    /// # Errors
    ///
    /// Where memory is refused; so too where there is no such supervisor, or none may have that intensity.
    pub fn plant(
        alloc: Global,
        tree: &TreeSpec,
        tells: bool,
        clock: Clock,
        change: Option<Change>,
    ) -> Result<Self, Halt>
        ensures planted { IfOk result (λ trial. IsPlantedAs change tells tree.now trial.seats) }
        ensures stands { IfOk result (λ trial. trial ≡ at_start clock trial.seats) }
    {
        let plants = plant_as(alloc, tree, tells, change)?;
        if plants.seats.is_empty() {
            drop(plants);
            return Err(Halt::OutOfMemory);
        }
        let Ok(links) = links_again(alloc, plants.links.as_slice()) else {
            drop(plants);
            return Err(Halt::OutOfMemory);
        };
        Ok(Trial {
            alloc,
            seats: plants.seats,
            links: plants.links,
            printer: Printer::new(alloc),
            world: World::new(alloc, links),
            clock,
            time: 0,
            calls: 0,
            last: 0,
        })
    }

    /// This tree is opened from its beginning on. Of its supervisors that at this place is played, and those above it. Each other one is
    /// a process of its parent as any worker: it starts, and ends where it is asked to.
    ///
    /// # Errors
    ///
    /// Where memory is refused.
    pub fn open_to(&mut self, place: usize, out: &mut Vec<u8>) -> Result<(), Halt>
        ensures opened { OnOk result (Begins 0 (kind.Opened 0) (at_start self.old.clock (map fresh self.old.seats)) self.new) }
        ensures time { OnOk result (self.new.time ≡ 0) }
    {
        let links = links_to(self.alloc, self.links.as_slice(), place)?;
        self.world = World::new(self.alloc, links);
        freshen(self.alloc, &mut self.seats)?;
        self.printer = Printer::new(self.alloc);
        self.time = 0;
        self.calls = 0;
        self.last = 0;
        self.play(0, Kind::Opened(0), out)
    }

    /// This tree from the beginning on: its root is opened, and its children have started as far as they do.
    ///
    /// # Errors
    ///
    /// Where memory is refused.
    pub fn again(&self, out: &mut Vec<u8>) -> Result<Self, Halt>
        ensures { IfOk result (λ trial. Tells (at_start self.now.clock (map fresh self.now.seats)) trial out.old.items out.new.items) }
    {
        let links = links_again(self.alloc, self.links.as_slice())?;
        let planted = links_again(self.alloc, self.links.as_slice())?;
        let seats = fresh_seats(self.alloc, self.seats.as_slice())?;
        if seats.is_empty() {
            drop(seats);
            return Err(Halt::OutOfMemory);
        }
        let mut trial = Trial {
            alloc: self.alloc,
            seats,
            links: planted,
            printer: Printer::new(self.alloc),
            world: World::new(self.alloc, links),
            clock: self.clock,
            time: 0,
            calls: 0,
            last: 0,
        };
        match trial.play(0, Kind::Opened(0), out) {
            Ok(()) => Ok(trial),
            Err(halt) => {
                drop(trial);
                Err(halt)
            }
        }
    }

    /// The supervisors, the root first, and each before its children.
    pub fn seats(&self) -> &[TriedSupervisor]
        ensures { result.now ≡ self.now.seats }
    {
        self.seats.as_slice()
    }

    /// The place of the supervisor whose children's names stand behind this path, as `sub/`; the root's is empty.
    pub fn place_of(&self, path: &[u8]) -> Option<usize>
        ensures inside { IfSome result (λ place. place < length self.now.seats) }
        ensures found { result ≡ position (has_path path.now) self.now.seats }
    {
        place_with(self.seats.as_slice(), path)
    }

    /// The place of the supervisor of which a child has a process of this number; the root's where there is none.
    pub fn place_of_process(&self, process: u64) -> usize
        ensures { result < length self.now.seats }
    {
        place_of_process(&self.world, self.seats.as_slice(), process)
    }

    /// Whether each of the supervisors has a process. The root always has one.
    ///
    /// # Errors
    ///
    /// Where memory is refused.
    pub fn running(&self) -> Result<Vec<bool>, AllocError>
        ensures root { IfOk result (λ running. (others : List Bool) × (running.items ≡ true ∷ others)) }
        ensures each { IfOk result (λ running. length running.items ≡ length self.now.seats) }
    {
        let mut running = Vec::new(self.alloc);
        running.push(true).map_err(|_| AllocError)?;
        for place in 1..self.seats.len() {
            running
                .push(self.world.has_process(place))
                .map_err(|_| AllocError)?;
        }
        Ok(running)
    }

    /// Whether the supervisor at this place has a process.
    pub fn has_process(&self, place: usize) -> bool {
        self.world.has_process(place)
    }

    /// Whether the root has ended.
    #[tactic(auto, unfolding(crate::specs::Played::is_root_over))]
    pub fn has_ended(&self) -> bool
        ensures { result ≡ is_root_over self.now.seats }
    {
        match self.seats.as_slice() {
            [] => true,
            [root, ..] => root.has_ended(),
        }
    }

    /// What starts answer that have not come yet, in the order of the lines that say so.
    pub fn planned(&self) -> &[PlannedStart] {
        self.world.starts()
    }

    /// How long the starts of children take, by the last line that says so of each.
    pub fn inits(&self) -> &[Init] {
        self.world.inits()
    }

    /// The children that will hang or be slow and were not asked to shut down yet, in the order of the lines that say so.
    pub fn hanging(&self) -> &[Hang] {
        self.world.hanging()
    }

    /// What is planned from now on is planned by this line of the script.
    pub fn begin_line(&mut self, line: u64)
        ensures { self.new ≡ self.old }
    {
        self.world.begin_line(line);
    }

    /// By which clock it is played.
    pub fn clock(&self) -> Clock
        ensures { result ≡ self.now.clock }
    {
        self.clock
    }

    /// The time since the beginning, in milliseconds.
    pub fn time(&self) -> u64
        ensures value { result ≡ self.now.time }
        ensures limit { result ≤ MAX_READING }
    {
        self.time
    }

    /// What the clock shows, in milliseconds since the beginning.
    pub fn now(&self) -> u64
        ensures value { result ≡ now_of self.now }
        ensures limit { result ≤ MAX_READING }
    {
        self.clock.shown(self.time)
    }

    /// Something happens now at the supervisor at this place, and is told.
    fn happen(&mut self, place: usize, kind: Kind, out: &mut Vec<u8>) -> Result<(), Halt>
        requires { place < length self.old.seats }
        ensures told { OnOk result (Tells self.old self.new out.old.items out.new.items) }
        ensures first { OnOk result (Begins place kind self.old self.new) }
        ensures begins { OnOk result (TellsFirst place kind self.old self.new out.old.items out.new.items) }
        ensures time { OnOk result (self.new.time ≡ self.old.time) }
    {
        let now = self.now();
        self.last = self.seats[place].happen(now, kind, self.last, &mut self.printer, out)?;
        let seat = &self.seats[place];
        self.world
            .obey(self.time, place, seat.rows(), seat.orders())?;
        Ok(())
    }

    /// The supervisor at this place starts under this number, as a child of its parent.
    fn begin(&mut self, place: usize, process: u64, out: &mut Vec<u8>) -> Result<(), Halt>
        requires { place < length self.old.seats }
        ensures told { OnOk result (Tells self.old self.new out.old.items out.new.items) }
        ensures time { OnOk result (self.new.time ≡ self.old.time) }
    {
        self.seats[place].renew(self.alloc)?;
        self.world.begin(place, process);
        self.happen(place, Kind::Opened(process), out)
    }

    /// What happens next by itself, if something does.
    fn next_deed(&mut self) -> Option<Deed>
        ensures { self.new ≡ self.old }
    {
        match self.world.next_deed() {
            Some(deed) => Some(deed),
            None => next_of_seats(&self.world, self.seats.as_slice(), self.now()),
        }
    }

    /// What comes next is done.
    fn take(&mut self, deed: Deed, out: &mut Vec<u8>) -> Result<(), Halt>
        ensures told { OnOk result (Tells self.old self.new out.old.items out.new.items) }
        ensures time { OnOk result (self.new.time ≡ self.old.time) }
    {
        if deed.place >= self.seats.len() {
            return Ok(());
        }
        match deed.what {
            What::Start(process) => self.begin(deed.place, process, out),
            What::Happen(kind) => self.happen(deed.place, kind, out),
        }
    }

    /// All of that happens until none is left to happen.
    fn settle(&mut self, out: &mut Vec<u8>) -> Result<(), Halt>
        ensures told { OnOk result (Tells self.old self.new out.old.items out.new.items) }
        ensures time { OnOk result (self.new.time ≡ self.old.time) }
    {
        for _ in 0..u64::MAX {
            let Some(deed) = self.next_deed() else {
                return Ok(());
            };
            self.take(deed, out)?;
        }
        Err(Halt::HistoryFull)
    }

    /// Something happens at the supervisor at this place, and all that follows from it.
    fn play(&mut self, place: usize, kind: Kind, out: &mut Vec<u8>) -> Result<(), Halt>
        requires { place < length self.old.seats }
        ensures told { OnOk result (Tells self.old self.new out.old.items out.new.items) }
        ensures first { OnOk result (Begins place kind self.old self.new) }
        ensures begins { OnOk result (TellsFirst place kind self.old self.new out.old.items out.new.items) }
        ensures time { OnOk result (self.new.time ≡ self.old.time) }
    {
        self.happen(place, kind, out)?;
        self.settle(out)
    }

    /// The next deadline of a child that was asked to shut down, by the clock.
    fn deadline_of_seats(&self) -> Option<u64> {
        let mut next = None;
        for place in 0..self.seats.len() {
            if self.world.has_process(place) {
                next = earlier(next, self.seats[place].next_deadline());
            }
        }
        Some(self.clock.reached(next?))
    }

    /// When next something happens by itself: a deadline passes, or a slow child ends or has started.
    pub fn next_time(&self) -> Option<u64> {
        earlier(self.deadline_of_seats(), self.world.next_late())
    }

    /// Whether something waits at a supervisor until no work is open there.
    pub fn waits(&self) -> bool {
        for place in 0..self.seats.len() {
            if self.world.has_process(place) && self.seats[place].has_waiting() {
                return true;
            }
        }
        false
    }

    /// When next something happens by itself, where that is not after this time.
    fn next_until(&self, time: u64) -> Option<u64>
        ensures { IfSome result (λ next. next ≤ time) }
    {
        let deadline = self.next_time()?;
        if deadline <= time {
            Some(deadline)
        } else {
            None
        }
    }

    /// The clock goes to this time, in milliseconds since the beginning. Deadlines that come before it come first, and slow
    /// children that end or have started before it do so first, in their order, with all that follows from each.
    pub fn go_to(&mut self, time: u64, out: &mut Vec<u8>) -> Result<(), Halt>
        requires { time ≤ MAX_READING }
        ensures told { OnOk result (Tells self.old self.new out.old.items out.new.items) }
        ensures time { OnOk result (self.new.time ≡ max self.old.time time) }
    {
        for _ in 0..u64::MAX {
            let Some(next) = self.next_until(time) else {
                self.time = self.time.max(time);
                return Ok(());
            };
            self.time = self.time.max(next);
            self.world.release(self.time)?;
            self.settle(out)?;
        }
        Err(Halt::HistoryFull)
    }

    /// An action happens now, and all that follows from it. It is said to the supervisor at this place, and means its
    /// children.
    #[tactic(auto, unfolding(crate::specs::Played::Acts))]
    pub fn act(
        &mut self,
        place: usize,
        action: Action,
        out: &mut Vec<u8>,
    ) -> Result<ActionEnd, Halt>
        requires { place < length self.old.seats }
        ensures told { OnOk result (Tells self.old self.new out.old.items out.new.items) }
        ensures acted { IfOk result (λ taken. ActsAt action place self.old taken self.new) }
        ensures time { OnOk result (self.new.time ≡ self.old.time) }
    {
        match action {
            Action::Nothing => Ok(ActionEnd::Done),
            Action::Exit(child, reason) => self.end_process(place, &child, reason, out),
            Action::Start(id, start) => self.plan_start(place, id, start),
            Action::Init(id, time) => self.plan_init(place, id, time),
            Action::Hang(child) => self.hang(place, child, None),
            Action::Slow(child, delay) => self.hang(place, child, Some(delay)),
            Action::Expect(expected) => self.expect(place, expected),
            Action::Stop => self.stop(place, out),
            Action::Call(call) => self.call(place, call, out),
        }
    }

    /// The process of this number, of a child of the supervisor at this place, ends now, and all that follows from it
    /// happens.
    ///
    /// # Errors
    ///
    /// Where memory is refused, or a supervisor has had 2^62 events.
    pub fn end_number(
        &mut self,
        place: usize,
        process: u64,
        reason: Reason,
        out: &mut Vec<u8>,
    ) -> Result<(), Halt>
        requires { place < length self.old.seats }
        ensures told { OnOk result (Tells self.old self.new out.old.items out.new.items) }
        ensures first { OnOk result (Begins place (kind.Took (item.Note (note.Exit process reason))) self.old self.new) }
        ensures time { OnOk result (self.new.time ≡ self.old.time) }
    {
        self.world.lose(place, process);
        self.play(
            place,
            Kind::Took(Item::Note(Note::Exit(process, reason))),
            out,
        )
    }

    /// The process of this number ends now, of a child of the supervisor at this place whose start isn't answered: the answer is
    /// that it failed; and all that follows from it happens.
    fn fail_number(
        &mut self,
        place: usize,
        process: u64,
        reason: Reason,
        out: &mut Vec<u8>,
    ) -> Result<(), Halt>
        requires { place < length self.old.seats }
        ensures told { OnOk result (Tells self.old self.new out.old.items out.new.items) }
        ensures first { OnOk result (Begins place (kind.Took (item.Note (note.Failed process reason))) self.old self.new) }
        ensures time { OnOk result (self.new.time ≡ self.old.time) }
    {
        self.world.lose(place, process);
        self.play(
            place,
            Kind::Took(Item::Note(Note::Failed(process, reason))),
            out,
        )
    }

    /// The process of this number ends; where its start isn't answered, that is the answer.
    #[tactic(auto, unfolding(crate::specs::Played::EndsBy))]
    fn end_or_fail(
        &mut self,
        place: usize,
        process: u64,
        reason: Reason,
        out: &mut Vec<u8>,
    ) -> Result<(), Halt>
        requires { place < length self.old.seats }
        ensures told { OnOk result (Tells self.old self.new out.old.items out.new.items) }
        ensures ends { OnOk result (EndsByAt place process reason self.old self.new) }
        ensures time { OnOk result (self.new.time ≡ self.old.time) }
    {
        if self.seats[place].is_starting(process) {
            self.fail_number(place, process, reason, out)
        } else {
            self.end_number(place, process, reason, out)
        }
    }

    /// The process of this number ends, unless its end was told already and waits: a process ends once.
    #[tactic(auto, unfolding(crate::specs::Played::EndsUnless))]
    fn end_found(
        &mut self,
        place: usize,
        process: u64,
        reason: Reason,
        out: &mut Vec<u8>,
    ) -> Result<ActionEnd, Halt>
        requires { place < length self.old.seats }
        ensures told { OnOk result (Tells self.old self.new out.old.items out.new.items) }
        ensures ends { IfOk result (λ taken. EndsProcessAt place process reason self.old taken self.new) }
        ensures time { OnOk result (self.new.time ≡ self.old.time) }
    {
        if self.seats[place].has_end_waiting(process) {
            return Ok(ActionEnd::EndWaits);
        }
        self.end_or_fail(place, process, reason, out)?;
        Ok(ActionEnd::Done)
    }

    /// The process of a child of the supervisor at this place ends.
    #[tactic(auto, unfolding(crate::specs::Played::Ends))]
    fn end_process(
        &mut self,
        place: usize,
        child: &Child,
        reason: Reason,
        out: &mut Vec<u8>,
    ) -> Result<ActionEnd, Halt>
        requires { place < length self.old.seats }
        ensures told { OnOk result (Tells self.old self.new out.old.items out.new.items) }
        ensures ends { IfOk result (λ taken. EndsAt place reason child.now self.old taken self.new) }
        ensures time { OnOk result (self.new.time ≡ self.old.time) }
    {
        match found_for(child, self.seats[place].rows()) {
            Found::Process(process) => self.end_found(place, process, reason, out),
            Found::NoProcess => Ok(ActionEnd::NoProcess),
            Found::NoChild => Ok(ActionEnd::NoChild),
        }
    }

    /// What becomes of it that starts of a child of the supervisor at this place are planned.
    #[tactic(auto, unfolding(crate::specs::Played::end_of_plan))]
    fn end_of_plan(&self, place: usize) -> ActionEnd
        requires { place < length self.now.seats }
        ensures { PlansAt place self.now.seats result }
    {
        if self.has_ended() {
            return ActionEnd::Ended;
        }
        let seat = &self.seats[place];
        if seat.flags().strategy.is_simple() {
            return ActionEnd::NoIds;
        }
        ActionEnd::Done
    }

    /// Whether the supervisor at this place has a child with this id.
    fn knows(&self, place: usize, id: &Name) -> bool
        requires { place < length self.now.seats }
    {
        is_known(id, self.seats[place].rows())
    }

    /// The next start of a child of the supervisor at this place answers so. The child need not be there: a call may add it.
    fn plan_start(&mut self, place: usize, id: Name, start: NextStart) -> Result<ActionEnd, Halt>
        requires { place < length self.old.seats }
        ensures same { self.new ≡ self.old }
        ensures plans { IfOk result (λ taken. PlansAt place self.old.seats taken) }
    {
        let taken = self.end_of_plan(place);
        if taken == ActionEnd::Done {
            let is_known = self.knows(place, &id);
            self.world.plan_start(place, id, start, is_known)?;
        }
        Ok(taken)
    }

    /// Each start of a child of the supervisor at this place takes so long from now on. The child need not be there: a call may
    /// add it.
    fn plan_init(&mut self, place: usize, id: Name, time: u64) -> Result<ActionEnd, Halt>
        requires { place < length self.old.seats }
        ensures same { self.new ≡ self.old }
        ensures plans { IfOk result (λ taken. PlansAt place self.old.seats taken) }
    {
        let taken = self.end_of_plan(place);
        if taken == ActionEnd::Done {
            let is_known = self.knows(place, &id);
            self.world.plan_init(place, id, time, is_known)?;
        }
        Ok(taken)
    }

    /// The supervisor at this place is wanted to shut down. It begins with it, and all that follows from it happens; where
    /// work is open, it does once that is done.
    #[tactic(auto, unfolding(crate::specs::Played::StopsBy))]
    fn want_stop(&mut self, place: usize, out: &mut Vec<u8>) -> Result<(), Halt>
        requires { place < length self.old.seats }
        ensures told { OnOk result (Tells self.old self.new out.old.items out.new.items) }
        ensures first { OnOk result (StopsFirst place self.old self.new) }
        ensures time { OnOk result (self.new.time ≡ self.old.time) }
    {
        self.world.stop(place);
        match self.seats[place].idle_kind(true) {
            None => Ok(()),
            Some(kind) => self.play(place, kind, out),
        }
    }

    /// The supervisor at this place is asked to shut down, and all that follows from it happens.
    #[tactic(auto, unfolding(crate::specs::Played::Stops))]
    fn stop(&mut self, place: usize, out: &mut Vec<u8>) -> Result<ActionEnd, Halt>
        requires { place < length self.old.seats }
        ensures told { OnOk result (Tells self.old self.new out.old.items out.new.items) }
        ensures stops { IfOk result (λ taken. Stops (is_root_over self.old.seats) place self.old taken self.new) }
        ensures time { OnOk result (self.new.time ≡ self.old.time) }
    {
        if self.has_ended() {
            return Ok(ActionEnd::Ended);
        }
        self.want_stop(place, out)?;
        Ok(ActionEnd::Done)
    }

    /// Whether what is expected of the supervisor at this place, or of a child of it, is so.
    fn expect(&self, place: usize, expected: Expected) -> Result<ActionEnd, Halt>
        requires { place < length self.now.seats }
        ensures { IfOk result (λ taken. ExpectsAt place expected self.now.seats taken) }
    {
        self.seats[place].meets(expected)
    }

    /// A child of the supervisor at this place will not end when it is next asked to shut down, or so much later.
    fn hang(&mut self, place: usize, child: Child, delay: Option<u64>) -> Result<ActionEnd, Halt>
        requires { place < length self.old.seats }
        ensures { self.new ≡ self.old }
    {
        if found_for(&child, self.seats[place].rows()) == Found::NoChild {
            return Ok(ActionEnd::NoChild);
        }
        self.world.plan_hang(place, child, delay)?;
        Ok(ActionEnd::Done)
    }

    /// Somebody calls the supervisor at this place.
    fn call(&mut self, place: usize, call: Call, out: &mut Vec<u8>) -> Result<ActionEnd, Halt>
        requires { place < length self.old.seats }
        ensures told { OnOk result (Tells self.old self.new out.old.items out.new.items) }
        ensures called { IfOk result (λ taken. (taken ≡ Done) × ((n : ℕ) × Begins place (kind.Took (item.Call n call)) self.old self.new)) }
        ensures time { OnOk result (self.new.time ≡ self.old.time) }
    {
        self.calls = self.calls.saturating_add(1);
        let number = self.calls;
        self.play(place, Kind::Took(Item::Call(number, call)), out)?;
        Ok(ActionEnd::Done)
    }
}

/// Whether this path stands before the names of its children.
fn has_path(seat: &TriedSupervisor, path: &[u8]) -> bool
    ensures { result ≡ has_path path.now seat.now }
{
    is_text(seat.path(), path)
}

/// The place of the first supervisor with this path.
fn place_with(seats: &[TriedSupervisor], path: &[u8]) -> Option<usize>
    ensures found { result ≡ position (has_path path.now) seats.now }
    ensures inside { IfSome result (λ place. place < length seats.now) }
{
    seats.iter().position(|seat| has_path(seat, path))
}

/// The earlier of two times, where there are any.
fn earlier(one: Option<u64>, other: Option<u64>) -> Option<u64> {
    match (one, other) {
        (Some(one), Some(other)) => Some(one.min(other)),
        (Some(one), None) => Some(one),
        (None, other) => other,
    }
}
