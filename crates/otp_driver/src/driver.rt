//! The tree.

ghost use Rattle.std.specs.Prelude.{Err, IsTrue, true, false, ◌≡◌, ◌<◌, ◌≤◌, ◌+◌, OnOk, OnErr, None, IfErr, IfOk, IfSome, ℕ, IfNone, Some, is_some, length, position, slice_get, min, max};
ghost use Rattle.otp_rules.specs.declared.event.Item.TheVariants as item;
ghost use Rattle.otp_rules.specs.declared.event.Kind.TheVariants as kind;
ghost use Rattle.otp_spec.specs.declared.limits.TheConstants.{MAX_READING};
ghost use Rattle.otp_driver.specs.Driven.{AllTaken, at_reading, Called, Carried, Does, GoesOn, IsAsked, IsAt, is_nested, IsNextBy, IsOutside, least_deadline, process_of, Occurs, Refuses, RefusesCall, RefusesMore, RefusesNote, RefusesRoute, RefusesStep, Relinks, Stands, Step, Takes, comes_at, with_link};
ghost use Rattle.otp_rules.specs.Next.{earlier};
ghost use Rattle.otp_driver.specs.declared.driven.fault.DriveFault.TheVariants as fault;
ghost use Rattle.otp_driver.specs.declared.route.Route.TheVariants as route;
ghost use Rattle.otp_driver.specs.Links.{asked, begun, is_link_of, told};
ghost use Rattle.otp_driver.specs.Members.{Member, has_order};
ghost use Rattle.otp_driver.specs.Routes.{IsWithin};
ghost use Rattle.otp_driver.specs.Turns.{Idles, Turns};

use crate::driven::link::{find_process, find_row, may_be_nested};
use crate::driven::{DriveFault, Link, Supervisor};
use crate::route::{Route, is_outside, nested_at, route_of};
use otp_reason::Note;
use otp_rules::{Call, Effect, Ending, Item, Kind};
use otp_spec::MAX_READING;
use otp_table::Row;
use std::marker::Model;

/// A tree of supervisors whose processes live outside. A supervisor below the root is a child of another: its start opens
/// its core, and what it tells is told to its parent. Every other process is the outside's.
///
/// ```text
/// let mut driver = Driver::open(alloc, &tree)?;            // the root starts
/// loop {
///     while let Some(place) = driver.go_on()? {          // what follows by itself is done
///         carry_out(&driver.supervisors()[place]);         // its next order: start, ask, kill, an answer, the root's end
///         driver.took(place);
///     }
///     wait(driver.next_deadline());
///     driver.note(now(), place, &Note::Exit(number, reason))?;     // what a process tells, a call, or the stop: and when
///     driver.tick(now())?;                                         // milliseconds; what is due by now
/// }
/// ```
///
/// An `Err` leaves the tree as it was, but that `go_on` may have gone on by whole steps; so the same may be told again.
#[derive(Drop)]
pub struct Driver {
    /// The root first, and each before its children.
    pub(crate) supervisors: Vec<Supervisor>,
    pub(crate) links: Vec<Link>,
    pub(crate) reading: u64,
    /// The last process number.
    pub(crate) last: u64,
    /// The last number of a call.
    pub(crate) calls: u64,
}

impl Model for Driver {
    ghost use Rattle.otp_driver.specs.Driven.{Driven};

    ghost Value = { Driven };

    ghost use Rattle.otp_driver.specs.DriverInside.{IsDriver, driven_of};

    ghost view = { driven_of };

    ghost invariant = { IsDriver };
}

/// The place of the first supervisor that has an order.
fn find_order(supervisors: &[Supervisor]) -> Option<usize>
    ensures { result ≡ position has_order supervisors.now }
{
    supervisors
        .iter()
        .position(|supervisor| supervisor.has_order())
}

impl Driver {
    /// The supervisors by the numbers of their tables, the root first.
    pub fn supervisors(&self) -> &[Supervisor]
        ensures { result.now ≡ self.now.members }
    {
        self.supervisors.as_slice()
    }

    /// Whose child each of them is, and how it stands.
    pub fn links(&self) -> &[Link]
        ensures { result.now ≡ self.now.links }
    {
        self.links.as_slice()
    }

    /// The supervisor of the tree that this child of the supervisor at this place is, if it is one.
    pub fn nested(&self, place: usize, row: &Row) -> Option<usize>
        ensures { result ≡ position (is_link_of place row.now) self.now.links }
    {
        find_row(self.links.as_slice(), place, row)
    }

    /// The last reading of the clock.
    pub fn reading(&self) -> u64
        ensures { result ≡ self.now.reading }
    {
        self.reading
    }

    /// Something happens at the supervisor at this place, at this reading of the clock, which is the last one from then on.
    fn happen_at(&mut self, reading: u64, place: usize, kind: &Kind) -> Result<(), DriveFault>
        requires reading { reading ≤ MAX_READING }
        requires place { place < length self.old.members }
        ensures ok { OnOk result (Occurs place kind.now (record self.old { reading = reading }) self.new) }
        ensures err { OnErr result (self.new ≡ self.old) }
        ensures why { IfErr result (λ why. Refuses place why self.old) }
    {
        self.last = self.supervisors[place].happen(reading, kind, self.last)?;
        self.reading = reading;
        Ok(())
    }

    /// Something happens at the supervisor at this place, at the last reading of the clock.
    pub(crate) fn happen(&mut self, place: usize, kind: &Kind) -> Result<(), DriveFault>
        requires { place < length self.old.members }
        ensures ok { OnOk result (Occurs place kind.now self.old self.new) }
        ensures err { OnErr result (self.new ≡ self.old) }
        ensures why { IfErr result (λ why. Refuses place why self.old) }
    {
        self.happen_at(self.reading, place, kind)
    }

    /// The next order of the supervisor at this place is taken.
    fn pass(&mut self, place: usize)
        requires { place < length self.old.members }
        ensures { Takes place self.old self.new }
    {
        self.supervisors[place].pass();
    }

    fn set_link(&mut self, place: usize, link: Link)
        requires place { place < length self.old.links }
        requires parent { link.parent < length self.old.links }
        ensures { self.new ≡ with_link place link self.old }
    {
        self.links[place] = link;
    }

    /// The link at this place, changed so: a supervisor was started under this number.
    fn begin(&mut self, place: usize, number: u64)
        requires { place < length self.old.links }
        ensures { Relinks place (begun number) self.old self.new }
    {
        let link = self.links[place];
        self.set_link(place, link.begun(number));
    }

    /// A supervisor is wanted to shut down.
    fn ask(&mut self, place: usize)
        requires { place < length self.old.links }
        ensures { Relinks place asked self.old self.new }
    {
        let link = self.links[place];
        self.set_link(place, link.asked());
    }

    /// A supervisor has told its parent this, and why it ended, where it did.
    fn tell(&mut self, place: usize, note: Note, ended: Option<Ending>)
        requires { place < length self.old.links }
        ensures { Relinks place (told note ended) self.old self.new }
    {
        let link = self.links[place];
        self.set_link(place, link.told(note, ended));
    }

    /// A supervisor starts, as this process.
    fn start_below(&mut self, place: usize, below: usize, number: u64) -> Result<(), DriveFault>
        requires { below < length self.old.members }
        ensures ok { OnOk result (Does (route.Start below number) place self.old self.new) }
        ensures err { OnErr result (self.new ≡ self.old) }
        ensures why { IfErr result (λ why. Refuses below why self.old) }
    {
        let _ = &self.links;
        self.happen(below, &Kind::Opened(number))?;
        self.begin(below, number);
        Ok(())
    }

    fn stop_below(&mut self, place: usize, below: usize)
        requires { below < length self.old.members }
        ensures { Does (route.Stop below) place self.old self.new }
    {
        let _ = &self.links;
        self.ask(below);
    }

    /// The parent of the supervisor at this place is told so.
    fn tell_parent(
        &mut self,
        place: usize,
        parent: usize,
        note: Note,
        ended: Option<Ending>,
    ) -> Result<(), DriveFault>
        requires place { place < length self.old.members }
        requires parent { parent < length self.old.members }
        ensures ok { OnOk result (Does (route.Tell parent note ended) place self.old self.new) }
        ensures err { OnErr result (self.new ≡ self.old) }
        ensures why { IfErr result (λ why. Refuses parent why self.old) }
    {
        let _ = &self.links;
        self.happen(parent, &Kind::Took(Item::Note(note)))?;
        self.tell(place, note, ended);
        Ok(())
    }

    /// An order that stays in the tree is done; an order for the outside is not.
    fn carry_out(&mut self, place: usize, route: &Route) -> Result<bool, DriveFault>
        requires place { place < length self.old.members }
        requires within { IsWithin (length self.old.members) route.now }
        ensures ok { IfOk result (λ done. Carried done route.now place self.old self.new) }
        ensures err { OnErr result (self.new ≡ self.old) }
        ensures why { IfErr result (λ why. RefusesRoute route.now why self.old) }
    {
        match route {
            Route::Outside => return Ok(false),
            Route::Start(below, number) => self.start_below(place, *below, *number)?,
            Route::Stop(below) => self.stop_below(place, *below),
            Route::Tell(parent, note, ended) => self.tell_parent(place, *parent, *note, *ended)?,
        }
        Ok(true)
    }

    /// Where the next order of the supervisor at this place goes.
    fn next_route(&self, place: usize) -> Option<Route>
        requires { place < length self.now.members }
        ensures some { IfSome result (λ route. IsNextBy self.now place route) }
        ensures within { IfSome result (IsWithin (length self.now.members)) }
        ensures none { IfNone result ((m : Member) → IsAt self.now.members place m → slice_get m.effects m.taken ≡ None) }
    {
        let supervisor = &self.supervisors[place];
        match supervisor.order() {
            None => None,
            Some(order) => Some(route_of(self.links.as_slice(), place, supervisor, order)),
        }
    }

    /// The next order of the supervisor at this place is done, if it stays in the tree; whether it was.
    #[inline(never)]
    fn do_next(&mut self, place: usize) -> Result<bool, DriveFault>
        requires place { place < length self.old.members }
        requires order { (m : Member) → IsAt self.old.members place m → has_order m ≡ true }
        requires first { position has_order self.old.members ≡ Some place }
        ensures ok { IfOk result (λ went. Turns went place self.old self.new) }
        ensures err { OnErr result (self.new ≡ self.old) }
        ensures why { IfErr result (λ why. RefusesStep why self.old) }
    {
        let Some(route) = self.next_route(place) else {
            return Err(DriveFault::NoSupervisor);
        };
        let done = self.carry_out(place, &route)?;
        if done {
            self.pass(place);
            Ok(true)
        } else {
            Ok(false)
        }
    }

    /// Whether the next order of the supervisor at this place is for the outside, as that is seen without its route.
    fn goes_outside(&self, place: usize) -> bool
        requires place { place < length self.now.members }
        requires first { position has_order self.now.members ≡ Some place }
        ensures { IsTrue result → IsOutside self.now place }
    {
        let supervisor = &self.supervisors[place];
        match supervisor.order() {
            None => false,
            Some(order) => is_outside(self.links.as_slice(), place, supervisor, order),
        }
    }

    /// The child that the next order of the supervisor at this place names is looked for.
    fn look_for_next(&mut self, place: usize)
        requires { place < length self.old.members }
        ensures { self.new ≡ self.old }
    {
        let number = match self.supervisors[place].order() {
            Some(Effect::Start(_, number) | Effect::Ask(_, number) | Effect::Kill(_, number)) => {
                *number
            }
            _ => return,
        };
        self.supervisors[place].look_for(number);
    }

    /// The next order of the supervisor at this place is done. Most orders are for the outside, as is seen without their routes; the child that such a one names is looked for.
    fn go_on_at(&mut self, place: usize) -> Result<bool, DriveFault>
        requires place { place < length self.old.members }
        requires order { (m : Member) → IsAt self.old.members place m → has_order m ≡ true }
        requires first { position has_order self.old.members ≡ Some place }
        ensures ok { IfOk result (λ went. Turns went place self.old self.new) }
        ensures err { OnErr result (self.new ≡ self.old) }
        ensures why { IfErr result (λ why. RefusesStep why self.old) }
    {
        if self.goes_outside(place) {
            self.look_for_next(place);
            Ok(false)
        } else {
            self.do_next(place)
        }
    }

    /// What the supervisor at this place does next by itself.
    #[tactic(auto, unfolding(crate::specs::Driven::comes_at))]
    fn comes_at(&self, place: usize) -> Option<Kind>
        ensures { result ≡ comes_at self.now place }
    {
        let supervisor = self.supervisors.get(place)?;
        let link = self.links.get(place)?;
        if link.runs(place) {
            supervisor.next_kind(self.reading, link.is_stopping)
        } else {
            None
        }
    }

    /// Whether the supervisor at this place does something next by itself.
    #[tactic(auto, unfolding(crate::specs::Driven::comes_at))]
    fn goes_on_at(&self, place: usize) -> bool
        ensures { result ≡ is_some (comes_at self.now place) }
    {
        let Some(supervisor) = self.supervisors.get(place) else {
            return false;
        };
        let Some(link) = self.links.get(place) else {
            return false;
        };
        link.runs(place) && supervisor.has_next(self.reading, link.is_stopping)
    }

    /// The first supervisor that does something by itself once all orders were taken: a deadline, a stop that is wanted, what
    /// waits.
    fn find_by_itself(&self) -> Option<usize>
        ensures some { IfSome result (λ place. (place < length self.now.members) × (is_some (comes_at self.now place) ≡ true)) }
        ensures first { IfSome result (λ place. (before : ℕ) → before < place → comes_at self.now before ≡ None) }
        ensures none { IfNone result ((place : ℕ) → place < length self.now.members → comes_at self.now place ≡ None) }
    {
        for place in 0..self.supervisors.len() {
            if self.goes_on_at(place) {
                return Some(place);
            }
        }
        None
    }

    /// What the supervisor at this place does next by itself happens.
    #[inline(never)]
    fn happen_by_itself(&mut self, place: usize) -> Result<(), DriveFault>
        requires taken { AllTaken self.old }
        requires place { place < length self.old.members }
        requires comes { is_some (comes_at self.old place) ≡ true }
        requires first { (before : ℕ) → before < place → comes_at self.old before ≡ None }
        ensures ok { OnOk result (Step self.old self.new) }
        ensures err { OnErr result (self.new ≡ self.old) }
        ensures why { IfErr result (λ why. RefusesStep why self.old) }
    {
        let Some(kind) = self.comes_at(place) else {
            return Err(DriveFault::NoSupervisor);
        };
        self.happen(place, &kind)?;
        Ok(())
    }

    /// What comes next by itself happens, if anything does; whether it did.
    fn go_on_idle(&mut self) -> Result<bool, DriveFault>
        requires { AllTaken self.old }
        ensures ok { IfOk result (λ went. Idles went self.old self.new) }
        ensures err { OnErr result (self.new ≡ self.old) }
        ensures why { IfErr result (λ why. RefusesStep why self.old) }
    {
        match self.find_by_itself() {
            None => Ok(false),
            Some(place) => {
                self.happen_by_itself(place)?;
                Ok(true)
            }
        }
    }

    /// Goes on by itself until an order for the outside is next, and says which supervisor has it; `None` where nothing is left
    /// to do. What comes by itself: orders that stay in the tree, and, once all orders were taken, a deadline that has come, a
    /// stop that is wanted, what waits.
    ///
    /// # Errors
    ///
    /// [`DriveFault::OutOfMemory`], [`DriveFault::OrdersWait`], [`DriveFault::Spent`]: the supervisor at which the next step
    /// would happen takes nothing now. The steps before were whole, and the next call goes on from there.
    pub fn go_on(&mut self) -> Result<Option<usize>, DriveFault>
        ensures goes_on { GoesOn self.old self.new }
        ensures stands { IfOk result (λ found. Stands found self.new) }
        ensures why { IfErr result (λ why. RefusesMore why self.old self.new) }
    {
        for _steps in 0..u64::MAX {
            match find_order(self.supervisors.as_slice()) {
                Some(place) => {
                    if !self.go_on_at(place)? {
                        return Ok(Some(place));
                    }
                }
                None => {
                    if !self.go_on_idle()? {
                        return Ok(None);
                    }
                }
            }
        }
        Err(DriveFault::Spent)
    }

    /// The order that is next at this place, for the outside, was taken by that.
    pub fn took(&mut self, place: usize)
        requires { IsOutside self.old place }
        ensures { Takes place self.old self.new }
    {
        self.pass(place);
    }

    /// When that happens which is told with this reading of the clock: then, but never before the last reading.
    fn held(&self, reading: u64) -> Result<u64, DriveFault>
        ensures ok { IfOk result (λ time. time ≡ max self.now.reading reading) }
        ensures err { IfErr result (λ why. why ≡ fault.BadReading) }
        ensures within { OnOk result (reading ≤ MAX_READING) }
        ensures above { OnErr result (MAX_READING < reading) }
    {
        if reading > MAX_READING {
            return Err(DriveFault::BadReading);
        }
        Ok(self.reading.max(reading))
    }

    /// The clock is read, in milliseconds. A reading below an earlier one counts as that one.
    ///
    /// # Errors
    ///
    /// [`DriveFault::BadReading`] above [`MAX_READING`].
    pub fn tick(&mut self, reading: u64) -> Result<(), DriveFault>
        ensures ok { OnOk result (self.new ≡ at_reading reading self.old) }
        ensures err { IfErr result (λ why. (why ≡ fault.BadReading) × (self.new ≡ self.old)) }
        ensures within { OnOk result (reading ≤ MAX_READING) }
        ensures above { OnErr result (MAX_READING < reading) }
    {
        self.reading = self.held(reading)?;
        Ok(())
    }

    /// Whether the process of this number, a child of the supervisor at this place, is a supervisor of the tree: it runs as
    /// one, or is to start as one.
    #[tactic(auto, unfolding(crate::specs::Driven::is_nested))]
    #[inline(never)]
    fn finds_nested(&self, place: usize, number: u64) -> bool
        requires { place < length self.now.members }
        ensures { result ≡ is_nested self.now place number }
    {
        let links = self.links.as_slice();
        if find_process(links, place, number).is_some() {
            return true;
        }
        let supervisor = &self.supervisors[place];
        nested_at(links, place, supervisor, number).is_some()
    }

    /// Whether the process is a supervisor of the tree, by one look where no child of the supervisor is one of the tree.
    #[tactic(auto, unfolding(crate::specs::Driven::is_nested))]
    fn is_nested(&self, place: usize, number: u64) -> bool
        requires { place < length self.now.members }
        ensures { result ≡ is_nested self.now place number }
    {
        if may_be_nested(self.links.as_slice(), place, number) {
            self.finds_nested(place, number)
        } else {
            false
        }
    }

    /// A process outside tells its supervisor, at this place, that it is up, was ignored, has failed, or has ended. It happens at
    /// this reading of the clock, in milliseconds; one below an earlier one counts as that one.
    ///
    /// # Errors
    ///
    /// [`DriveFault::BadReading`] above [`MAX_READING`]; [`DriveFault::NoSupervisor`], [`DriveFault::IsNested`],
    /// [`DriveFault::OutOfMemory`], [`DriveFault::OrdersWait`], [`DriveFault::Spent`].
    #[inline]
    pub fn note(&mut self, reading: u64, place: usize, note: &Note) -> Result<(), DriveFault>
        ensures ok { OnOk result (Occurs place (kind.Took (item.Note note.now)) (at_reading reading self.old) self.new) }
        ensures outside { OnOk result (is_nested self.old place (process_of note.now) ≡ false) }
        ensures within { OnOk result (reading ≤ MAX_READING) }
        ensures above { MAX_READING < reading → result ≡ Err fault.BadReading }
        ensures nested { reading ≤ MAX_READING → place < length self.old.members → is_nested self.old place (process_of note.now) ≡ true → result ≡ Err fault.IsNested }
        ensures missing { reading ≤ MAX_READING → length self.old.members ≤ place → result ≡ Err fault.NoSupervisor }
        ensures err { OnErr result (self.new ≡ self.old) }
        ensures why { IfErr result (λ why. RefusesNote reading place note.now why self.old) }
    {
        let kind = Kind::Took(Item::Note(*note));
        let time = self.held(reading)?;
        if place >= self.supervisors.len() {
            return Err(DriveFault::NoSupervisor);
        }
        if self.is_nested(place, process_of(note)) {
            return Err(DriveFault::IsNested);
        }
        self.happen_at(time, place, &kind)
    }

    /// Somebody calls the supervisor at this place, at this reading of the clock; the answer is the call's number. Its reply
    /// comes as an order of that supervisor, under this number.
    ///
    /// # Errors
    ///
    /// As of [`Driver::note`], but for [`DriveFault::IsNested`].
    pub fn call(&mut self, reading: u64, place: usize, call: Call) -> Result<u64, DriveFault>
        ensures ok { IfOk result (λ number. Called number place call (at_reading reading self.old) self.new) }
        ensures within { OnOk result (reading ≤ MAX_READING) }
        ensures err { OnErr result (self.new ≡ self.old) }
        ensures why { IfErr result (λ why. RefusesCall reading place why self.old) }
    {
        let time = self.held(reading)?;
        if place >= self.supervisors.len() {
            return Err(DriveFault::NoSupervisor);
        }
        if self.calls >= MAX_READING {
            return Err(DriveFault::Spent);
        }
        let number = self.calls + 1;
        self.happen_at(time, place, &Kind::Took(Item::Call(number, call)))?;
        self.calls = number;
        Ok(number)
    }

    /// The root is wanted to shut down, from this reading of the clock on.
    ///
    /// # Errors
    ///
    /// [`DriveFault::BadReading`] above [`MAX_READING`].
    pub fn stop(&mut self, reading: u64) -> Result<(), DriveFault>
        ensures ok { OnOk result (IsAsked (at_reading reading self.old) self.new) }
        ensures err { IfErr result (λ why. (why ≡ fault.BadReading) × (self.new ≡ self.old)) }
        ensures within { OnOk result (reading ≤ MAX_READING) }
        ensures above { OnErr result (MAX_READING < reading) }
    {
        self.tick(reading)?;
        if !self.links.is_empty() {
            self.ask(0);
        }
        Ok(())
    }

    /// The reading at which the clock has to be read again at the latest: the least deadline of all supervisors.
    pub fn next_deadline(&self) -> Option<u64>
        ensures { result ≡ least_deadline self.now.members }
    {
        least_deadline(self.supervisors.as_slice())
    }
}

/// The number of the process that tells this.
fn process_of(note: &Note) -> u64
    ensures { result ≡ process_of note.now }
{
    match note {
        Note::Up(number)
        | Note::Ignored(number)
        | Note::Failed(number, _)
        | Note::Exit(number, _) => *number,
    }
}

/// The least deadline of these supervisors.
fn least_deadline(supervisors: &[Supervisor]) -> Option<u64>
    ensures { result ≡ least_deadline supervisors.now }
{
    let mut least = None;
    for supervisor in supervisors {
        least = earlier(least, supervisor.next_deadline());
    }
    least
}

/// The earlier of two times, where there are any.
fn earlier(one: Option<u64>, other: Option<u64>) -> Option<u64>
    ensures { result ≡ earlier one other }
{
    match (one, other) {
        (Some(one), Some(other)) => Some(one.min(other)),
        (Some(one), None) => Some(one),
        (None, other) => other,
    }
}
