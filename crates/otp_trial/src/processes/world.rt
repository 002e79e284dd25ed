//! The world of a tree that is tried: what processes do, and how supervisors hear of one another.

ghost use Rattle.std.specs.Prelude.{◌≡◌, ◌<◌, ◌++◌, ◌∷◌, [], IfOk, IfSome, MatchOption, OnOk, false, filter, length, position};
ghost use Rattle.otp_driver.specs.Links.{asked, begun};
ghost use Rattle.otp_trial.specs.Deeds.{note_of_start, told_to};
ghost use Rattle.otp_trial.specs.Inits.{is_init_of, with_init};
ghost use Rattle.otp_trial.specs.Late.{is_elsewhere};
ghost use Rattle.otp_trial.specs.Links.{changed_at, has_process_at, is_stopping_at};
ghost use Rattle.otp_trial.specs.World.{Asks, AsksFor, Comes, ComesBy, Does, Ends, Kills, LosesSo, PutsOff, Readies, Starts, Stops, at_once, deed_of_end, deed_of_ready, deed_of_start, deed_of_stop, stopped_below, time_taken};

use crate::processes::inits::{Init, put_init, take_time};
use crate::processes::late::{Due, Late, delay, delay_start, due_at, forget, leave, next_time};
use crate::processes::links::{
    begin_at, end_at, end_orphans, has_process_at, is_stopping_at, link_at, nested_at, stop_at,
    up_at,
};
use crate::processes::plans::{
    Hang, PlannedStart, hang_of, put_hang, put_plan, take_hang, take_start,
};
use otp_driver::driven::Link;
use otp_driver::driven::link::{find_process, note_of_end};
use otp_reason::{Name, Note, Reason};
use otp_rules::{Effect, Item, Kind};
use otp_script::{Child, NextStart};
use otp_table::Row;
use std::alloc::{AllocError, Global};
use std::collections::VecDeque;
use std::marker::Model;

/// What comes next at a supervisor.
#[derive(Clone, Copy, Debug, PartialEq, Eq)]
pub enum What {
    /// It starts under this number, as a child of its parent.
    Start(u64),
    Happen(Kind),
}

/// What comes next, and the place of the supervisor at which it does.
#[derive(Clone, Copy, Debug, PartialEq, Eq)]
pub struct Deed {
    pub place: usize,
    pub what: What,
}

/// What a script said beforehand, how the supervisors stand, and what comes next. A start succeeds at once, and a process that is
/// asked to shut down ends, unless the script said otherwise; a process that is killed ends always.
#[derive(Drop)]
pub struct World {
    links: Vec<Link>,
    starts: Vec<PlannedStart>,
    inits: Vec<Init>,
    hanging: Vec<Hang>,
    late: Vec<Late>,
    deeds: VecDeque<Deed>,
    /// The line that is played.
    line: u64,
}

impl Model for World {
    ghost use Rattle.otp_trial.specs.World.{Around};

    ghost Value = { Around };

    ghost use Rattle.otp_trial.specs.ProcessesInside.{around_of};

    ghost view = { around_of };
}

/// What a process tells whose start went so.
#[tactic(auto, unfolding(crate::specs::Deeds::note_of_start))]
fn note_of_start(start: Option<NextStart>, number: u64) -> Note
    ensures { result ≡ note_of_start start number }
{
    match start {
        None => Note::Up(number),
        Some(NextStart::Ignore) => Note::Ignored(number),
        Some(NextStart::Fail(reason)) => Note::Failed(number, reason),
    }
}

/// A note comes to the supervisor at this place.
#[tactic(auto, unfolding(crate::specs::Deeds::told_to))]
fn told_to(place: usize, note: Note) -> Deed
    ensures { result ≡ told_to place note }
{
    Deed {
        place,
        what: What::Happen(Kind::Took(Item::Note(note))),
    }
}

/// What comes of a start whose child is a supervisor with a place of its own or isn't, and for which the script said so.
#[tactic(auto, unfolding(crate::specs::World::deed_of_start))]
fn deed_of_start(place: usize, number: u64, start: Option<NextStart>, below: Option<usize>) -> Deed
    ensures { result ≡ deed_of_start place number start below }
{
    match start {
        Some(_) => told_to(place, note_of_start(start, number)),
        None => match below {
            Some(below) => Deed {
                place: below,
                what: What::Start(number),
            },
            None => told_to(place, note_of_start(None, number)),
        },
    }
}

/// How long a start takes of which the script said so, or nothing.
#[tactic(auto, unfolding(crate::specs::World::time_taken))]
fn time_taken(said: Option<u64>) -> u64
    ensures { result ≡ time_taken said }
{
    match said {
        None => 0,
        Some(time) => time,
    }
}

/// What comes at once of a start that takes so long.
#[tactic(auto, unfolding(crate::specs::World::at_once))]
fn at_once(time: u64, deed: Deed) -> Option<Deed>
    ensures { result ≡ at_once time deed }
{
    if time == 0 { Some(deed) } else { None }
}

/// What comes of it where a process is to end for this reason: its end is told; where it is a supervisor nothing comes at once.
#[tactic(auto, unfolding(crate::specs::World::deed_of_stop))]
fn deed_of_stop(place: usize, number: u64, reason: Reason, below: Option<usize>) -> Option<Deed>
    ensures { result ≡ deed_of_stop place number reason below }
{
    match below {
        None => Some(told_to(place, Note::Exit(number, reason))),
        Some(_) => None,
    }
}

/// What a supervisor tells its parent that has started its children.
#[tactic(auto, unfolding(crate::specs::World::deed_of_ready, crate::specs::World::ready_as))]
fn deed_of_ready(link: Option<Link>) -> Option<Deed>
    ensures { result ≡ deed_of_ready link }
{
    match link {
        None => None,
        Some(link) => match link.process {
            None => None,
            Some(number) => Some(told_to(link.parent, Note::Up(number))),
        },
    }
}

/// What a supervisor tells its parent that has ended with this reason.
#[tactic(auto, unfolding(crate::specs::World::deed_of_end, crate::specs::World::end_as))]
fn deed_of_end(link: Option<Link>, reason: Reason) -> Option<Deed>
    ensures { result ≡ deed_of_end link reason }
{
    match link {
        None => None,
        Some(link) => match link.process {
            None => None,
            Some(number) => Some(told_to(link.parent, note_of_end(link.is_up, number, reason))),
        },
    }
}

/// The supervisor below is wanted to shut down, if it is one.
#[tactic(auto, unfolding(crate::specs::World::stopped_below))]
fn stop_below(links: &mut Vec<Link>, below: Option<usize>)
    ensures { links.new.items ≡ stopped_below below links.old.items }
{
    match below {
        None => {}
        Some(below) => stop_at(links, below),
    }
}

impl World {
    /// A world in which all goes well, with these supervisors; that at place 0 is the root.
    pub fn new(alloc: Global, links: Vec<Link>) -> Self
        ensures { result ≡ record { links = links.items; starts = []; inits = []; hanging = []; late = []; deeds = []; line = 0 } }
    {
        World {
            links,
            starts: Vec::new(alloc),
            inits: Vec::new(alloc),
            hanging: Vec::new(alloc),
            late: Vec::new(alloc),
            deeds: VecDeque::new(alloc),
            line: 0,
        }
    }

    /// What is planned from now on is planned by this line.
    pub fn begin_line(&mut self, line: u64)
        ensures { self.new ≡ record self.old { line = line } }
    {
        self.line = line;
    }

    /// The next start of this child of the supervisor at this place, which has it or not, answers so.
    pub fn plan_start(
        &mut self,
        place: usize,
        id: Name,
        start: NextStart,
        is_known: bool,
    ) -> Result<(), AllocError>
        ensures { OnOk result (self.new ≡ record self.old { starts = self.old.starts ++ record { place = place; id = id; start = start; line = self.old.line; is_known = is_known } ∷ [] }) }
    {
        let plan = PlannedStart {
            place,
            id,
            start,
            line: self.line,
            is_known,
        };
        put_plan(&mut self.starts, plan)
    }

    /// Each start of this child of the supervisor at this place, which has it or not, takes so many milliseconds from now on.
    pub fn plan_init(
        &mut self,
        place: usize,
        id: Name,
        time: u64,
        is_known: bool,
    ) -> Result<(), AllocError>
        ensures { OnOk result (self.new ≡ record self.old { inits = with_init (record { place = place; id = id; time = time; line = self.old.line; is_known = is_known; is_used = false }) (position (is_init_of place id) self.old.inits) self.old.inits }) }
    {
        let init = Init {
            place,
            id,
            time,
            line: self.line,
            is_known,
            is_used: false,
        };
        put_init(&mut self.inits, init)
    }

    /// The child doesn't end when it is next asked to shut down, or so many milliseconds later.
    pub fn plan_hang(
        &mut self,
        place: usize,
        child: Child,
        delay: Option<u64>,
    ) -> Result<(), AllocError>
        ensures { OnOk result (self.new ≡ record self.old { hanging = self.old.hanging ++ record { place = place; child = child; delay = delay; line = self.old.line } ∷ [] }) }
    {
        let hang = Hang {
            place,
            child,
            delay,
            line: self.line,
        };
        put_hang(&mut self.hanging, hang)
    }

    /// What starts answer that have not come yet, in the order of the lines that say so.
    pub fn starts(&self) -> &[PlannedStart]
        ensures { result.now ≡ self.now.starts }
    {
        self.starts.as_slice()
    }

    /// How long the starts of children take, by the last line that says so of each.
    pub fn inits(&self) -> &[Init]
        ensures { result.now ≡ self.now.inits }
    {
        self.inits.as_slice()
    }

    /// The children that will hang or be slow and were not asked to shut down yet, in the order of the lines that say so.
    pub fn hanging(&self) -> &[Hang]
        ensures { result.now ≡ self.now.hanging }
    {
        self.hanging.as_slice()
    }

    /// What comes next, if something does.
    pub fn next_deed(&mut self) -> Option<Deed>
        ensures { MatchOption result ((self.old.deeds ≡ []) × (self.new ≡ self.old)) (λ deed. (self.old.deeds ≡ deed ∷ self.new.deeds) × (self.new ≡ record self.old { deeds = self.new.deeds })) }
    {
        self.deeds.pop_front()
    }

    /// Whether the supervisor at this place has a process. The root always has one.
    pub fn has_process(&self, place: usize) -> bool
        ensures { result ≡ has_process_at place self.now.links }
    {
        has_process_at(self.links.as_slice(), place)
    }

    /// Whether the supervisor at this place is wanted to shut down.
    pub fn is_stopping(&self, place: usize) -> bool
        ensures { result ≡ is_stopping_at place self.now.links }
    {
        is_stopping_at(self.links.as_slice(), place)
    }

    /// The supervisor at this place is wanted to shut down.
    pub fn stop(&mut self, place: usize)
        ensures { self.new ≡ record self.old { links = changed_at asked place self.old.links } }
    {
        stop_at(&mut self.links, place);
    }

    /// The supervisor at this place has a process of this number, and starts its children. Nothing comes of what an earlier
    /// process of it had asked for.
    pub fn begin(&mut self, place: usize, process: u64)
        ensures { self.new ≡ record self.old { links = changed_at (begun process) place self.old.links; late = filter (is_elsewhere place) self.old.late } }
    {
        leave(&mut self.late, place);
        begin_at(&mut self.links, place, process);
    }

    /// The process of this number, of a child of the supervisor at this place, is gone. If it was a supervisor, all below
    /// it are gone with it, without an order.
    pub fn lose(&mut self, place: usize, process: u64)
        ensures { LosesSo process self.old self.new }
    {
        forget(&mut self.late, process);
        lose_below(&mut self.links, place, process);
    }

    /// When a process next does late what it was asked to.
    pub fn next_late(&self) -> Option<u64> {
        next_time(self.late.as_slice(), self.links.as_slice())
    }

    /// Those processes shut down, or have started, that were to do so up to now.
    ///
    /// # Errors
    ///
    /// Where memory is refused. The world is not used again then.
    pub fn release(&mut self, now: u64) -> Result<(), AllocError> {
        for _ in 0..u64::MAX {
            let Some(at) = due_at(&self.late, now) else {
                return Ok(());
            };
            let late = self.late.remove(at);
            if let Some(deed) = self.come(late) {
                self.deeds.push_back(deed).map_err(|_| AllocError)?;
            }
        }
        Ok(())
    }

    /// A process does what it was asked to, if its supervisor has one.
    fn come(&mut self, late: Late) -> Option<Deed>
        ensures { Comes (has_process_at late.place self.old.links) late self.old result self.new }
    {
        if self.has_process(late.place) {
            self.come_by(late.place, late.process, late.due)
        } else {
            None
        }
    }

    /// A process of a child of the supervisor at this place does that late.
    #[tactic(auto, unfolding(crate::specs::World::ComesBy))]
    fn come_by(&mut self, place: usize, number: u64, due: Due) -> Option<Deed>
        ensures { ComesBy due place number self.old result self.new }
    {
        match due {
            Due::End => self.end_process(place, number, Reason::Shutdown),
            Due::Start(deed) => Some(deed),
        }
    }

    /// A process is to end for this reason: it does, or a supervisor is wanted to shut down.
    fn end_process(&mut self, place: usize, number: u64, reason: Reason) -> Option<Deed>
        ensures { Stops place number reason self.old result self.new }
    {
        let below = find_process(self.links.as_slice(), place, number);
        stop_below(&mut self.links, below);
        deed_of_stop(place, number, reason, below)
    }

    /// What comes of a start that is ordered now: the child's process tells how it went, or a supervisor starts; at once, or as
    /// much later as the script said that its starts take.
    fn start(
        &mut self,
        now: u64,
        place: usize,
        rows: &[Row],
        id: &Option<Name>,
        number: u64,
    ) -> Result<Option<Deed>, AllocError>
        ensures { IfOk result (λ deed. Starts now place rows.now id.now number self.old deed self.new) }
    {
        let time = time_taken(take_time(&mut self.inits, place, id));
        let start = take_start(&mut self.starts, place, id);
        let below = nested_at(self.links.as_slice(), place, rows, number);
        let deed = deed_of_start(place, number, start, below);
        delay_start(&mut self.late, now, place, number, time, deed)?;
        Ok(at_once(time, deed))
    }

    /// A supervisor has started its children: so it tells its parent.
    fn get_ready(&mut self, place: usize) -> Option<Deed>
        ensures { Readies place self.old result self.new }
    {
        let link = link_at(self.links.as_slice(), place);
        up_at(&mut self.links, place);
        deed_of_ready(link)
    }

    /// A supervisor has ended, with this reason: so it tells its parent.
    fn end(&mut self, place: usize, reason: Reason) -> Option<Deed>
        ensures { Ends place reason self.old result self.new }
    {
        let link = link_at(self.links.as_slice(), place);
        end_at(&mut self.links, place);
        deed_of_end(link, reason)
    }

    /// A process is asked to shut down of which the script said, at this place of what it said of such, that it ends later or
    /// never. That is used up.
    #[tactic(auto, unfolding(crate::specs::Plans::delay_said))]
    fn put_off(&mut self, now: u64, place: usize, number: u64, at: usize) -> Result<(), AllocError>
        requires { at < length self.old.hanging }
        ensures { OnOk result (PutsOff at now place number self.old self.new) }
    {
        let hang = take_hang(&mut self.hanging, at);
        delay(&mut self.late, now, place, number, hang.delay)
    }

    /// What comes of an order to shut down: that; or the process ends later or never, where the script said so.
    #[tactic(auto, unfolding(crate::specs::World::AsksFor))]
    fn ask_for(
        &mut self,
        now: u64,
        place: usize,
        number: u64,
        hang: Option<usize>,
    ) -> Result<Option<Deed>, AllocError>
        requires { IfSome hang (λ at. at < length self.old.hanging) }
        ensures { IfOk result (λ deed. AsksFor hang now place number self.old deed self.new) }
    {
        match hang {
            None => Ok(self.end_process(place, number, Reason::Shutdown)),
            Some(at) => {
                self.put_off(now, place, number, at)?;
                Ok(None)
            }
        }
    }

    /// What comes of an order to shut down this child of the supervisor at this place, whose process has this number.
    fn ask(
        &mut self,
        now: u64,
        place: usize,
        id: &Option<Name>,
        number: u64,
    ) -> Result<Option<Deed>, AllocError>
        ensures { IfOk result (λ deed. Asks now place id.now number self.old deed self.new) }
    {
        let hang = hang_of(self.hanging.as_slice(), place, id, number);
        self.ask_for(now, place, number, hang)
    }

    /// A process is killed: it ends, and does nothing later; a supervisor ends by its own rules.
    fn kill(&mut self, place: usize, number: u64) -> Option<Deed>
        ensures { Kills place number self.old result self.new }
    {
        forget(&mut self.late, number);
        self.end_process(place, number, Reason::Killed)
    }

    /// What comes of an order that the supervisor at this place gave now, which has these children.
    #[tactic(auto, unfolding(crate::specs::World::Does))]
    fn do_order(
        &mut self,
        now: u64,
        place: usize,
        rows: &[Row],
        order: &Effect,
    ) -> Result<Option<Deed>, AllocError>
        ensures { IfOk result (λ deed. Does now place rows.now order.now self.old deed self.new) }
    {
        match order {
            Effect::Start(id, number) => self.start(now, place, rows, id, *number),
            Effect::Ask(id, number) => self.ask(now, place, id, *number),
            Effect::Kill(_, number) => Ok(self.kill(place, *number)),
            Effect::Reply(_) => Ok(None),
            Effect::Ready => Ok(self.get_ready(place)),
            Effect::End(end) => Ok(self.end(place, end.reason)),
        }
    }

    /// What these orders ask is done, in order, which the supervisor at this place gave now.
    ///
    /// # Errors
    ///
    /// Where memory is refused. The world is not used again then.
    pub fn obey(
        &mut self,
        now: u64,
        place: usize,
        rows: &[Row],
        orders: &[Effect],
    ) -> Result<(), AllocError> {
        for order in orders {
            if let Some(deed) = self.do_order(now, place, rows, order)? {
                self.deeds.push_back(deed).map_err(|_| AllocError)?;
            }
        }
        Ok(())
    }
}

/// The process of this number, of a child of the supervisor at this place, is gone: if it was a supervisor, all below it are
/// gone with it.
fn lose_below(links: &mut Vec<Link>, place: usize, process: u64) {
    let below = find_process(links.as_slice(), place, process);
    if let Some(below) = below {
        end_at(links, below);
        end_orphans(links);
    }
}
