// A port that takes nothing.
ghost use Rattle.std.specs.Prelude.{◌≡◌, ◌<◌, ◌++◌, ◌∷◌, [], is_some, option_copied, IfErr, OnErr, OnOk};
ghost use Rattle.otp_rules.specs.declared.event.Item.TheVariants as item;
ghost use Rattle.otp_bodies.specs.Letters.{Comes, is_end_note};
ghost use Rattle.otp_bodies.specs.Ports.{launched, launched_all, told};

use otp_reason::Note;
use otp_rules::SupEnd;
use otp_sup::{NewProcess, Port, ToldNote};
use otp_tally::Tally;
use std::alloc::Global;

// What it would take it gives back, and counts that.
#[derive(Drop)]
pub(crate) struct Shut {
    processes: Vec<NewProcess<u64>>,
    notes: Vec<ToldNote>,
    refusals: Tally,
}

impl Shut {
    pub(crate) fn new(alloc: Global) -> Self {
        Shut {
            processes: Vec::new(alloc),
            notes: Vec::new(alloc),
            refusals: Tally::new(),
        }
    }
}

impl Port<u64> for Shut {
    ghost use Rattle.otp_bodies.specs.Ports.{launched_all};

    ghost processes = { λ p. launched_all p.processes.items };

    ghost notes = { λ p. p.notes.items };

    ghost refusals = { λ p. p.refusals.count };

    ghost beside = { λ _. [] };

    fn put(&mut self, process: NewProcess<u64>) -> Result<(), NewProcess<u64>>
        ensures took { OnOk result (launched_all self.new.processes.items ≡ launched_all self.old.processes.items ++ launched process.number process.slot process.id process.again (is_some process.body) ∷ []) }
        ensures kept { OnErr result (launched_all self.new.processes.items ≡ launched_all self.old.processes.items) }
        ensures refused { OnErr result (self.old.refusals.count < self.new.refusals.count) }
        ensures counted { OnOk result (self.new.refusals.count ≡ self.old.refusals.count) }
        ensures back { IfErr result (λ back. back ≡ process) }
        ensures notes { self.new.notes.items ≡ self.old.notes.items }
    {
        self.refusals.raise();
        Err(process)
    }

    fn send(&mut self, note: Note, end: Option<&SupEnd>) -> Result<(), Note>
        requires comes { Comes (item.Note note) (option_copied end) }
        requires whole { is_some (option_copied end) ≡ is_end_note note }
        ensures took { OnOk result (self.new.notes.items ≡ self.old.notes.items ++ told note (option_copied end.entry) ∷ []) }
        ensures kept { OnErr result (self.new.notes.items ≡ self.old.notes.items) }
        ensures refused { OnErr result (self.old.refusals.count < self.new.refusals.count) }
        ensures counted { OnOk result (self.new.refusals.count ≡ self.old.refusals.count) }
        ensures processes { launched_all self.new.processes.items ≡ launched_all self.old.processes.items }
    {
        let _ = end;
        self.refusals.raise();
        Err(note)
    }
}
