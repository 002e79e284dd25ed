//! What parents are told of the ends of their children that are supervisors.
ghost use Rattle.std.specs.Prelude.{◌≡◌, ◌++◌, ◌<◌, length, option_copied, vec_capacity, IfOk};
ghost use Rattle.otp_rules.specs.declared.event.Item.TheVariants as item;
ghost use Rattle.otp_rules.specs.Evidence.{IsEvidence};
ghost use Rattle.otp_bodies.specs.Ends.{told_with};
ghost use Rattle.otp_bodies.specs.Letters.{Comes, number_of};

use otp_reason::Note;
use otp_rules::{Item, SupEnd};
use std::alloc::{AllocError, Global};
use std::marker::Model;

/// The end of a supervisor, with what shows why it ended. By its type it is shown: see [`Evidence::is_shown`].
///
/// It stands in a box, since most notes tell no such end.
pub struct Evidence {
    end: Box<SupEnd, Global>,
}

impl Model for Evidence {
    ghost use Rattle.otp_rules.specs.declared.ending.SupEnd.{SupEnd};
    ghost use Rattle.otp_bodies.specs.Letters.{IsShown};

    ghost Value = { SupEnd };

    ghost view = { λ e. e.end.value };

    ghost invariant = { λ e. IsShown e.end.value };
}

impl Drop for Evidence {
    fn drop(self) {
        let Self { end: _ } = self;
    }
}

impl Evidence {
    /// A copy of an end that is shown.
    #[tactic(auto, unfolding(crate::specs::Letters::IsShown))]
    fn copy_of(alloc: Global, end: &SupEnd) -> Result<Self, AllocError>
        requires { IsEvidence end.now }
        ensures { IfOk result (λ copy. copy ≡ end.now) }
    {
        Ok(Evidence {
            end: Box::new(alloc, end.try_clone()?)?,
        })
    }

    /// The end.
    pub fn end(&self) -> &SupEnd
        ensures { result.now ≡ self.now }
    {
        &self.end
    }

    /// The cause shows why the supervisor ended with this reason: by the intensity, its flags and one restart more than
    /// that, none before another and all within one period; else the reason that the cause has (Supervisor Behaviour,
    /// Maximum Restart Intensity and Automatic Shutdown).
    #[tactic(auto, unfolding(crate::specs::Letters::IsShown))]
    pub fn is_shown(&self)
        ensures { IsEvidence self.now }
    {
        let _ = &self.end;
    }
}

/// A copy of the end that goes with this note, if one does. Refused where memory is.
#[tactic(auto, unfolding(crate::specs::Letters::Comes))]
pub fn evidence_of(
    alloc: Global,
    note: Note,
    end: Option<&SupEnd>,
) -> Result<Option<Evidence>, AllocError>
    requires { Comes (item.Note note) (option_copied end) }
    ensures { IfOk result (λ copy. copy ≡ option_copied end.entry) }
{
    let _ = note;
    match end {
        Some(end) => Ok(Some(Evidence::copy_of(alloc, end)?)),
        None => Ok(None),
    }
}

/// The end of a supervisor, as the parent's history was told it.
#[derive(Drop)]
pub struct ToldEnd {
    /// The place of the event among those that are stored, from 0 on: it took the note that told the end.
    pub event: usize,
    /// The number of the process that ended.
    pub number: u64,
    pub end: Evidence,
}

/// The number of the process that a note tells of.
pub fn number_of(note: Note) -> u64
    ensures { result ≡ number_of note }
{
    match note {
        Note::Up(number)
        | Note::Ignored(number)
        | Note::Failed(number, _)
        | Note::Exit(number, _) => number,
    }
}

/// Keeps the end that came with an item, if one did, as that of the event at this place.
pub fn keep_end(ends: &mut Vec<ToldEnd>, event: usize, item: Item, end: Option<Evidence>)
    requires room { length ends.old.items < vec_capacity ends.old }
    ensures { ends.new.items ≡ ends.old.items ++ told_with event item end }
{
    if let (Item::Note(note), Some(end)) = (item, end) {
        ends.push_reserved(ToldEnd {
            event,
            number: number_of(note),
            end,
        });
    }
}
