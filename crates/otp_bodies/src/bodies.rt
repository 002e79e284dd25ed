//! The bodies that a supervisor keeps: of children that have no process, and those that no child has.
ghost use Rattle.std.specs.Prelude.{◌≡◌, ℕ, ◌+◌, ◌<◌, ◌≤◌, ◌++◌, ◌∷◌, ◌↔◌, [], true, get_or, is_some, false, length, position, remove, slice_set, Bool, IfErr, IfOk, IfSome, IsTrue, MatchOption, None, OnOk, OnErr, Some};
ghost use Rattle.std.specs.List.{list_any};
ghost use Rattle.otp_bodies.specs.Bodies.{AreHere, AreThere, are_ready, come_home, came_for, count_given, handed_in, has_body, home_or_free, IsNew, is_at_home, is_away, is_here, is_left_of, is_stray, is_waiting, move_first, opened, place_of_call, place_without_line, put_home, settled, without_first, count_opened};
ghost use Rattle.otp_bodies.specs.Loose.{is_with_call};
ghost use Rattle.otp_bodies.specs.Slots.{AreBelow};
ghost use Rattle.otp_bodies.specs.declared.bodies.Kept.{Kept};
ghost use Rattle.otp_bodies.specs.declared.bodies.Origin.TheVariants as origin;
ghost use Rattle.otp_bodies.specs.declared.bodies.BodyPlace.TheVariants as placed;

use crate::kept::{
    are_given, find_away, find_home, find_left, find_stray, find_waiting, home_or_free,
    is_any_from, is_any_out, is_away, open_items, place_of_call, settle_items,
};
use crate::loose::{find_home_at, is_alone_and_stays, only_at, only_loose};
use otp_spec::SupSpec;
use otp_table::Row;
use std::alloc::{AllocError, Global};
use std::marker::Model;

/// How many children an opening makes: one of each specification, but none where children are dynamic
/// (Supervisor Behaviour, Simplified one_for_one Supervisors).
pub fn count_opened(supervisor: &SupSpec) -> usize
    ensures { result ≡ count_opened supervisor.now.flags supervisor.now.specs }
{
    if supervisor.flags().strategy.is_simple() {
        0
    } else {
        supervisor.specs().len()
    }
}

/// Whose a body is: who may have it once no child has it.
#[derive(Clone, Copy, Debug, PartialEq, Eq)]
pub enum Origin {
    /// The child specification at this place: its child has the body at each opening.
    Spec(usize),
    /// The call with this number, which was to start a child.
    Call(u64),
    /// Nobody: it came with a note that told of no child's end.
    Nobody,
}

/// Where a body is.
#[derive(Clone, Copy, Debug, PartialEq, Eq)]
pub enum BodyPlace {
    /// At home: its child is in this slot, and has no process.
    Home(usize),
    /// With the call that brought it, which waits.
    Waiting,
    /// No child has it.
    Free,
    /// With the process of the child in this slot.
    Away(usize),
}

/// Whose a body is, and where.
#[derive(Clone, Copy, Debug, PartialEq, Eq)]
pub struct Kept {
    pub origin: Origin,
    pub place: BodyPlace,
}

/// The bodies of a supervisor's children. Contracts see whose each is, and where, and for how many more there is room.
///
/// A child that has no process has its body here, by its slot. Where a child is gone, its body is its specification's
/// again, or its call's.
#[derive(Drop)]
pub struct Bodies<B: Drop> {
    kept: Vec<Kept>,
    /// The bodies in the same order, of those that are here.
    bodies: Vec<Option<B>>,
    /// The place in the list of the only one that an event may let go, where that is known: no other is then at home, or
    /// waits with its call.
    only: Option<usize>,
}

impl<B: Drop> Model for Bodies<B> {
    ghost use Rattle.std.specs.Prelude.{◌-◌, length, map, is_some, min, vec_capacity};
    ghost use Rattle.otp_bodies.specs.Bodies.{IsStored};
    ghost use Rattle.otp_bodies.specs.Bodies.{BodiesView};
    ghost use Rattle.otp_bodies.specs.Loose.{IsOnlyLoose};

    ghost Value = { BodiesView };

    ghost view = { λ b. record { kept = b.kept.items; room = min (vec_capacity b.kept - length b.kept.items) (vec_capacity b.bodies - length b.bodies.items) } };

    ghost invariant = { λ b. IsStored (map is_some b.bodies.items) b.kept.items × IsOnlyLoose b.only b.kept.items };
}

impl<B: Drop> Bodies<B> {
    /// No bodies.
    pub fn new(alloc: Global) -> Bodies<B>
        ensures { result.kept ≡ [] }
    {
        Bodies {
            kept: Vec::new(alloc),
            bodies: Vec::new(alloc),
            only: Some(0),
        }
    }

    /// No bodies, and room for so many.
    pub fn with_room(alloc: Global, count: usize) -> Result<Bodies<B>, AllocError>
        ensures none { IfOk result (λ b. b.kept ≡ []) }
        ensures room { IfOk result (λ b. count ≤ b.room) }
    {
        let kept = Vec::with_capacity(alloc, count)?;
        let Ok(bodies) = Vec::with_capacity(alloc, count) else {
            drop(kept);
            return Err(AllocError);
        };
        Ok(Bodies {
            kept,
            bodies,
            only: None,
        })
    }

    /// Hands in the body of the next child specification, for which there is room.
    #[tactic(auto, using(crate::proofs::Handed::handed_more))]
    fn hand_in_next(&mut self, count: usize, body: B)
        requires room { 0 < self.old.room }
        requires handed { self.old.kept ≡ handed_in count }
        ensures handed { self.new.kept ≡ handed_in (count + 1) }
        ensures room { self.new.room + 1 ≡ self.old.room }
    {
        self.only = None;
        self.kept.push_reserved(Kept {
            origin: Origin::Spec(count),
            place: BodyPlace::Free,
        });
        self.bodies.push_reserved(Some(body));
    }

    /// Hands in the bodies of the first child specifications, in their order, for which there is room. Takes no memory.
    pub fn hand_in_list(self, list: Vec<B>) -> Bodies<B>
        requires none { self.kept ≡ [] }
        requires room { length list.items ≤ self.room }
        ensures { result.kept ≡ handed_in (length list.items) }
    {
        let mut bodies = self;
        let mut count = 0;
        for body in list {
            bodies.hand_in_next(count, body);
            count += 1;
        }
        bodies
    }

    /// Of each child specification one body at most was handed in and is kept.
    pub fn has_one_each(&self)
        ensures { (place : ℕ) → count_given place self.now.kept ≤ 1 }
    {
        let _ = &self.kept;
    }

    /// Hands in the body of the child specification at this place. It comes back where memory is refused, and where one was
    /// handed in for that specification before: a child has one body.
    pub fn hand_in(&mut self, place: usize, body: B) -> Result<(), B>
        ensures ok { OnOk result (self.new.kept ≡ self.old.kept ++ record { origin = origin.Spec place; place = placed.Free } ∷ []) }
        ensures back { IfErr result (λ back. back ≡ body) }
        ensures kept { OnErr result (self.new.kept ≡ self.old.kept) }
        ensures first { OnOk result (count_given place self.old.kept ≡ 0) }
    {
        if is_any_from(&self.kept, place) || self.prepare().is_err() {
            return Err(body);
        }
        self.put(Origin::Spec(place), BodyPlace::Free, body);
        Ok(())
    }

    /// Whether there is memory for one more. Where there is, [`Bodies::prepare`] has nothing to take.
    pub fn has_room(&self) -> bool
        ensures { IsTrue result ↔ (0 < self.now.room) }
    {
        self.kept.len() < self.kept.capacity() && self.bodies.len() < self.bodies.capacity()
    }

    /// Takes the memory for one more.
    pub fn prepare(&mut self) -> Result<(), AllocError>
        ensures kept { self.new.kept ≡ self.old.kept }
        ensures room { OnOk result (0 < self.new.room) }
    {
        self.kept.reserve(1)?;
        self.bodies.reserve(1)
    }

    /// Takes in a body, which no child has.
    fn put(&mut self, origin: Origin, place: BodyPlace, body: B)
        requires room { 0 < self.old.room }
        requires here { is_here place ≡ true }
        requires new { IsNew origin self.old.kept }
        ensures { self.new.kept ≡ self.old.kept ++ record { origin = origin; place = place } ∷ [] }
    {
        self.only = only_at(&self.kept, self.only, self.kept.len());
        self.kept.push_reserved(Kept { origin, place });
        self.bodies.push_reserved(Some(body));
    }

    /// Takes out the body at this place in the list.
    fn take(&mut self, at: usize) -> Option<B>
        requires { at < length self.old.kept }
        ensures kept { self.new.kept ≡ remove self.old.kept at }
        ensures body { (d : Kept) → is_some result ≡ is_here (get_or self.old.kept at d).place }
    {
        self.only = None;
        self.kept.remove(at);
        self.bodies.remove(at)
    }

    /// Takes out the body at this place in the list, which is the first that passes a test; nothing where none does.
    fn take_first(&mut self, at: Option<usize>) -> Option<B>
        requires { IfSome at (λ place. place < length self.old.kept) }
        ensures kept { (test : Kept → Bool) → at ≡ position test self.old.kept → self.new.kept ≡ without_first test self.old.kept }
        ensures body { (test : Kept → Bool) → at ≡ position test self.old.kept → AreHere test → is_some result ≡ list_any test self.old.kept }
    {
        match at {
            Some(at) => self.take(at),
            None => None,
        }
    }

    /// The body at this place in the list is there from now on; it stays here.
    fn move_to(&mut self, at: usize, to: BodyPlace)
        requires within { at < length self.old.kept }
        requires here { (d : Kept) → is_here (get_or self.old.kept at d).place ≡ is_here to }
        ensures { (d : Kept) → self.new.kept ≡ slice_set self.old.kept at (record (get_or self.old.kept at d) { place = to }) }
    {
        self.only = None;
        self.kept[at].place = to;
    }

    /// The body at this place in the list comes, and is there from now on.
    fn take_in(&mut self, at: usize, to: BodyPlace, body: B)
        requires within { at < length self.old.kept }
        requires here { is_here to ≡ true }
        ensures { (d : Kept) → self.new.kept ≡ slice_set self.old.kept at (record (get_or self.old.kept at d) { place = to }) }
    {
        self.only = only_at(&self.kept, self.only, at);
        self.kept[at].place = to;
        self.bodies[at] = Some(body);
    }

    /// The body at this place in the list goes, and is away from now on.
    fn take_out(&mut self, at: usize, to: BodyPlace) -> Option<B>
        requires within { at < length self.old.kept }
        requires away { is_here to ≡ false }
        ensures kept { (d : Kept) → self.new.kept ≡ slice_set self.old.kept at (record (get_or self.old.kept at d) { place = to }) }
        ensures body { (d : Kept) → is_some result ≡ is_here (get_or self.old.kept at d).place }
    {
        self.only = only_at(&self.kept, self.only, at);
        self.kept[at].place = to;
        self.bodies[at].take()
    }

    /// Where the body of the child in this slot is in the list, if it is at home.
    pub fn find_home(&self, slot: Option<usize>) -> Option<usize>
        ensures { MatchOption slot (result ≡ None) (λ k. result ≡ position (is_at_home k) self.now.kept) }
    {
        find_home_at(&self.kept, self.only, slot?)
    }

    /// Takes out the body at this place in the list, which is at home in this slot: it goes with the child's process.
    pub fn leave(&mut self, at: usize, slot: usize) -> Option<B>
        requires { position (is_at_home slot) self.old.kept ≡ Some at }
        ensures kept { self.new.kept ≡ move_first (is_at_home slot) (placed.Away slot) self.old.kept }
        ensures body { is_some result ≡ true }
        ensures back { put_home at slot self.new.kept ≡ self.old.kept }
        ensures within { at < length self.new.kept }
    {
        self.take_out(at, BodyPlace::Away(slot))
    }

    /// Takes in, at this place in the list, the body of the child in this slot: it came home with the note of its process's end, or the
    /// port didn't take it.
    pub fn come_back(&mut self, at: usize, slot: usize, body: B)
        requires { at < length self.old.kept }
        ensures { self.new.kept ≡ put_home at slot self.old.kept }
    {
        self.take_in(at, BodyPlace::Home(slot), body);
    }

    /// Takes in the body of the child in this slot. Where its body is here already, this one is nobody's.
    pub(crate) fn come_home(&mut self, slot: usize, body: B)
        requires { 0 < self.old.room }
        ensures { self.new.kept ≡ come_home slot self.old.kept }
    {
        match find_away(&self.kept, slot) {
            Some(at) => self.take_in(at, BodyPlace::Home(slot), body),
            None => {
                let place = self.place_without_line(slot);
                self.put(Origin::Nobody, place, body)
            }
        }
    }

    /// Where a body goes that comes for the child in this slot and that has no line in the list: home, unless the child
    /// has its body there already.
    fn place_without_line(&self, slot: usize) -> BodyPlace
        ensures place { result ≡ place_without_line slot self.now.kept }
        ensures here { is_here result ≡ true }
    {
        match find_home(&self.kept, slot) {
            Some(_) => BodyPlace::Free,
            None => BodyPlace::Home(slot),
        }
    }

    /// Whether the body at this place in the list is that of the child in this slot, and with its process.
    pub fn is_away_at(&self, at: usize, slot: usize) -> bool
        ensures within { IsTrue result → at < length self.now.kept }
        ensures away { IsTrue result → (d : Kept) → is_away slot (get_or self.now.kept at d) ≡ true }
    {
        at < self.kept.len() && is_away(&self.kept[at], slot)
    }

    /// An end note brought this body: home, to the child in this slot, or else it is nobody's.
    pub fn come(&mut self, home: Option<usize>, body: B)
        requires { 0 < self.old.room }
        ensures { self.new.kept ≡ came_for home self.old.kept }
    {
        match home {
            Some(slot) => self.come_home(slot, body),
            None => self.put(Origin::Nobody, BodyPlace::Free, body),
        }
    }

    /// A start call brought this body: it waits with the call, or is at home in the slot of the call's child, if that has one.
    pub fn bring(&mut self, call: u64, waits: bool, slot: Option<usize>, body: B)
        requires { 0 < self.old.room }
        ensures { self.new.kept ≡ self.old.kept ++ record { origin = origin.Call call; place = place_of_call waits slot } ∷ [] }
    {
        let place = place_of_call(waits, slot);
        self.put(Origin::Call(call), place, body);
    }

    /// The first call whose body waits was taken up: its child is in this slot, if it has one.
    pub fn take_up(&mut self, slot: Option<usize>)
        ensures { self.new.kept ≡ move_first is_waiting (home_or_free slot) self.old.kept }
    {
        let Some(at) = find_waiting(&self.kept) else {
            return;
        };
        self.move_to(at, home_or_free(slot));
    }

    /// Whether [`Bodies::settle`] would change nothing, as far as a look at one body tells.
    pub fn is_settled(&self, rows: &[Row], is_any_waiting: bool) -> bool
        requires { AreBelow rows.now }
        ensures { IsTrue result → settled rows.now is_any_waiting self.now.kept ≡ self.now.kept }
    {
        is_alone_and_stays(&self.kept, self.only, rows, is_any_waiting)
    }

    /// Once these are the rows: bodies of children that are gone are whose they were before.
    pub fn settle(&mut self, rows: &[Row], is_any_waiting: bool)
        requires { AreBelow rows.now }
        ensures { self.new.kept ≡ settled rows.now is_any_waiting self.old.kept }
    {
        if self.is_settled(rows, is_any_waiting) {
            return;
        }
        settle_items(&mut self.kept, rows, is_any_waiting);
        self.only = only_loose(&self.kept);
    }

    /// Where no child has gone and no body waits with its call, none is let go: they are settled as they stand, and none is looked at.
    pub fn are_settled(&self, rows: &[Row], is_any_waiting: bool)
        requires there { AreThere rows.now self.now.kept }
        requires calls { list_any is_with_call self.now.kept ≡ false }
        ensures { settled rows.now is_any_waiting self.now.kept ≡ self.now.kept }
    {}

    /// At an opening each child, of these rows, has the body that was handed in for it.
    pub fn open(&mut self, rows: &[Row])
        requires { AreBelow rows.now }
        ensures { self.new.kept ≡ opened rows.now self.old.kept }
    {
        self.only = None;
        open_items(&mut self.kept, rows);
    }

    /// Whether a body was handed in for each of the first so many child specifications, and none is with a process.
    pub fn are_ready(&self, specs: usize) -> bool
        ensures { result ≡ are_ready specs self.now.kept }
    {
        are_given(&self.kept, specs) && !is_any_out(&self.kept)
    }

    /// The body of this call, once no child has it and the call waits no more.
    pub fn take_of_call(&mut self, call: u64) -> Option<B>
        ensures kept { self.new.kept ≡ without_first (is_left_of call) self.old.kept }
        ensures body { is_some result ≡ list_any (is_left_of call) self.old.kept }
    {
        let at = find_left(&self.kept, call);
        self.take_first(at)
    }

    /// A body that is nobody's.
    pub fn take_of_nobody(&mut self) -> Option<B>
        ensures kept { self.new.kept ≡ without_first is_stray self.old.kept }
        ensures body { is_some result ≡ list_any is_stray self.old.kept }
    {
        let at = find_stray(&self.kept);
        self.take_first(at)
    }
}
