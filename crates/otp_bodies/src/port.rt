//! Where orders go.
ghost use Rattle.std.specs.Prelude.{◌≡◌, ℕ, ◌<◌, List, [], ◌∷◌, ◌++◌, is_some, option_copied, OnOk, OnErr, IfErr};
ghost use Rattle.otp_rules.specs.declared.event.Item.TheVariants as item;
ghost use Rattle.otp_bodies.specs.Letters.{Comes, is_end_note};
ghost use Rattle.otp_bodies.specs.Ports.{launched, launched_all, told};
ghost use Rattle.otp_bodies.specs.declared.port.Launched.{Launched};
ghost use Rattle.otp_bodies.specs.declared.port.ToldNote.{ToldNote};

use crate::told::{Evidence, evidence_of};
use otp_reason::{Name, Note};
use otp_rules::SupEnd;
use otp_tally::Tally;
use std::alloc::Global;

/// A process that is to run: its number, the slot of its signal word, the id of its child, whether that had a process before (since
/// its supervisor opened), and its body.
///
/// Each process that a supervisor puts has its body: that of its child, which was at home until then.
#[derive(Drop)]
pub struct NewProcess<B> {
    pub number: u64,
    pub slot: usize,
    pub id: Option<Name>,
    pub again: bool,
    pub body: Option<B>,
}

/// What contracts say of a process that a port took: its number, its slot, whose it is, and whether it had a body.
#[derive(Clone, Copy, Debug, PartialEq, Eq)]
pub struct Launched {
    pub number: u64,
    pub slot: usize,
    pub id: Option<Name>,
    pub again: bool,
    pub body: bool,
}

/// A note to the parent, with the supervisor's end, if that is what it tells.
#[derive(Drop)]
pub struct ToldNote {
    pub note: Note,
    pub end: Option<Evidence>,
}

/// What became of the first order.
#[derive(Clone, Copy, Debug, PartialEq, Eq)]
pub enum Flushed {
    /// There was none.
    Empty,
    /// It was sent.
    Sent,
    /// The port refused. The order stays, and so does its body.
    Refused,
}

/// Where the processes that a supervisor starts and the notes to its parent go.
///
/// Contracts see what the port took, in order, and how often it refused; and what it keeps besides, in numbers, of which
/// these calls change nothing.
pub trait Port<B: Drop> {
    ghost processes: { Self → List Launched };

    ghost notes: { Self → List ToldNote };

    ghost refusals: { Self → ℕ };

    ghost beside: { Self → List ℕ };

    /// Takes a process. A refused one comes back.
    fn put(&mut self, process: NewProcess<B>) -> Result<(), NewProcess<B>>
        ensures took { OnOk result (processes self.new ≡ processes self.old ++ launched process.number process.slot process.id process.again (is_some process.body) ∷ []) }
        ensures kept { OnErr result (processes self.new ≡ processes self.old) }
        ensures refused { OnErr result (refusals self.old < refusals self.new) }
        ensures counted { OnOk result (refusals self.new ≡ refusals self.old) }
        ensures back { IfErr result (λ back. back ≡ process) }
        ensures notes { notes self.new ≡ notes self.old }
        ensures beside { beside self.new ≡ beside self.old };

    /// Takes a note to the parent: Up, once all children have started; or Exit or Failed, when the supervisor has ended. With
    /// those two comes that end, and with no other note one; the port keeps a copy of it. A refused note comes back.
    fn send(&mut self, note: Note, end: Option<&SupEnd>) -> Result<(), Note>
        requires comes { Comes (item.Note note) (option_copied end) }
        requires whole { is_some (option_copied end) ≡ is_end_note note }
        ensures took { OnOk result (notes self.new ≡ notes self.old ++ told note (option_copied end.entry) ∷ []) }
        ensures kept { OnErr result (notes self.new ≡ notes self.old) }
        ensures refused { OnErr result (refusals self.old < refusals self.new) }
        ensures counted { OnOk result (refusals self.new ≡ refusals self.old) }
        ensures processes { processes self.new ≡ processes self.old }
        ensures beside { beside self.new ≡ beside self.old };

    /// Hears that a shutdown or a kill was posted to this slot. Whoever lets threads sleep wakes by it the one in which the process of
    /// the slot waits. It needn't be written: by default nothing is done.
    fn posted(&self, _slot: usize) {}
}

/// A port that keeps what it takes, for whoever drives supervisors by hand. It refuses where memory is refused.
#[derive(Drop)]
pub struct MemoryPort<B: Drop> {
    /// The processes that it took, in order.
    pub processes: Vec<NewProcess<B>>,
    /// The notes to the parent, in order, each with the end that it tells.
    pub notes: Vec<ToldNote>,
    refusals: Tally,
    alloc: Global,
}

impl<B: Drop> MemoryPort<B> {
    /// A port that took nothing.
    pub fn new(alloc: Global) -> Self
        ensures processes { result.processes.items ≡ [] }
        ensures notes { result.notes.items ≡ [] }
    {
        MemoryPort {
            processes: Vec::new(alloc),
            notes: Vec::new(alloc),
            refusals: Tally::new(),
            alloc,
        }
    }
}

impl<B: Drop> Port<B> for MemoryPort<B> {
    ghost use Rattle.otp_bodies.specs.Ports.{launched_all};

    ghost processes = { λ m. launched_all m.processes.items };

    ghost notes = { λ m. m.notes.items };

    ghost refusals = { λ m. m.refusals.count };

    ghost beside = { λ _. [] };

    fn put(&mut self, process: NewProcess<B>) -> Result<(), NewProcess<B>>
        ensures took { OnOk result (launched_all self.new.processes.items ≡ launched_all self.old.processes.items ++ launched process.number process.slot process.id process.again (is_some process.body) ∷ []) }
        ensures kept { OnErr result (launched_all self.new.processes.items ≡ launched_all self.old.processes.items) }
        ensures refused { OnErr result (self.old.refusals.count < self.new.refusals.count) }
        ensures counted { OnOk result (self.new.refusals.count ≡ self.old.refusals.count) }
        ensures back { IfErr result (λ back. back ≡ process) }
        ensures notes { self.new.notes.items ≡ self.old.notes.items }
    {
        if self.processes.reserve(1).is_err() {
            self.refusals.raise();
            return Err(process);
        }
        self.processes.push_reserved(process);
        Ok(())
    }

    fn send(&mut self, note: Note, end: Option<&SupEnd>) -> Result<(), Note>
        requires comes { Comes (item.Note note) (option_copied end) }
        requires whole { is_some (option_copied end) ≡ is_end_note note }
        ensures took { OnOk result (self.new.notes.items ≡ self.old.notes.items ++ told note (option_copied end.entry) ∷ []) }
        ensures kept { OnErr result (self.new.notes.items ≡ self.old.notes.items) }
        ensures refused { OnErr result (self.old.refusals.count < self.new.refusals.count) }
        ensures counted { OnOk result (self.new.refusals.count ≡ self.old.refusals.count) }
        ensures processes { launched_all self.new.processes.items ≡ launched_all self.old.processes.items }
    {
        if self.notes.reserve(1).is_err() {
            self.refusals.raise();
            return Err(note);
        }
        let Ok(end) = evidence_of(self.alloc, note, end) else {
            self.refusals.raise();
            return Err(note);
        };
        self.notes.push_reserved(ToldNote { note, end });
        Ok(())
    }
}
