//! What an event is about to do with bodies, as far as it can be known before it.
ghost use Rattle.std.specs.Prelude.{◌≡◌};
ghost use Rattle.otp_core.specs.View.{state_of};
ghost use Rattle.otp_sup.specs.Moves.{IsPlan, free_for, given_among, home_of, is_kept_at, is_start_item, is_start_waiting, is_taken_up, is_waited_for, keeps_children, may_seat};

use crate::client::is_start_call;
use crate::rows::{has_slot, keeps_row, slot_heeding};
use otp_bodies::office::Office;
use otp_core::Core;
use otp_reason::Note;
use otp_rules::{Item, Kind, Waiting};
use otp_signals::WordsNaming;
use otp_table::free_slot;

/// What an event is about to do with bodies, as it was before the event.
#[derive(Clone, Copy, Debug, PartialEq, Eq)]
pub(crate) struct BodiesPlan {
    /// The slot of the child whose body comes home.
    pub home: Option<usize>,
    /// The slot that a new child gets, where the event may make one for a call that brought a body.
    pub free: Option<usize>,
    /// A start call waits.
    pub waits: bool,
    /// The first start call that waits is taken up.
    pub is_taken_up: bool,
    /// No child goes, unless the supervisor ends.
    pub keeps_children: bool,
}

/// Whether a call that is taken now waits.
fn is_waited_for(core: &Core) -> bool
    ensures { result ≡ is_waited_for (state_of core.now) }
{
    core.has_open_work() && !core.has_ended()
}

/// Whether a start call is the first that waits, and is taken up when the supervisor resumes.
fn is_taken_up(core: &Core) -> bool
    ensures { result ≡ is_taken_up (state_of core.now) }
{
    !core.has_open_work() && !core.has_ended() && is_start_waiting(&core.first_waiting())
}

/// The slot of the child whose body an end note brings home.
fn home_of<N: WordsNaming>(office: &Office<N>, note: &Note) -> Option<usize>
    ensures { result ≡ home_of (state_of office.now.core) note.now }
{
    if office.has_ended() {
        return None;
    }
    slot_heeding(office, note)
}

/// Whether an event may make a child for a call that brought a body.
fn may_seat(core: &Core, kind: &Kind) -> bool
    ensures { result ≡ may_seat (state_of core.now) kind.now }
{
    match kind {
        Kind::Took(item) => is_start_item(item),
        Kind::Resumed => is_taken_up(core),
        Kind::Opened(_) | Kind::Ticked | Kind::Stopped => false,
    }
}

/// The slot that a child gets which an event makes for a call that brought a body. It is searched for only where there may be such
/// a child, as that walks over all children.
fn free_for(core: &Core, kind: &Kind) -> Option<usize>
    ensures { result ≡ free_for (state_of core.now) kind.now }
{
    if may_seat(core, kind) {
        Some(free_slot(core.rows()))
    } else {
        None
    }
}

/// Whether no child goes with a note, where nothing waits: a process is up, or one has ended whose child was told to stop, and the
/// row stays. Only while work is open is a child told to stop; else no row is searched for.
fn is_kept_at(core: &Core, note: &Note) -> bool
    ensures { result ≡ is_kept_at (state_of core.now) note.now }
{
    match note {
        Note::Up(_) => true,
        Note::Exit(number, _) => core.has_open_work() && keeps_row(core, *number),
        Note::Ignored(_) | Note::Failed(..) => false,
    }
}

/// Whether no child goes at an event, unless the supervisor ends: it takes a note with which no child goes, and nothing waits.
fn keeps_children(core: &Core, kind: &Kind) -> bool
    ensures { result ≡ keeps_children (state_of core.now) kind.now }
{
    match kind {
        Kind::Took(Item::Note(note)) => is_kept_at(core, note) && !core.has_waiting(),
        _ => false,
    }
}

/// What an event is about to do with bodies, as far as it can be known before it.
pub(crate) fn plan_of<N: WordsNaming>(office: &Office<N>, kind: &Kind) -> BodiesPlan
    ensures { IsPlan (state_of office.now.core) kind.now result }
{
    let core = office.core();
    let home = match kind {
        Kind::Took(Item::Note(note)) => home_of(office, note),
        _ => None,
    };
    BodiesPlan {
        home,
        free: free_for(core, kind),
        waits: is_waited_for(core),
        is_taken_up: is_taken_up(core),
        keeps_children: keeps_children(core, kind),
    }
}

/// The slot that a call's child was given, if a row has it now.
pub(crate) fn slot_given<N: WordsNaming>(office: &Office<N>, free: Option<usize>) -> Option<usize>
    ensures { result ≡ given_among free (state_of office.now.core).rows }
{
    let slot = free?;
    if has_slot(office.rows(), slot) {
        Some(slot)
    } else {
        None
    }
}

fn is_start_waiting(first: &Option<Waiting>) -> bool
    ensures { result ≡ is_start_waiting first.now }
{
    match first {
        Some(Waiting::Item(item)) => is_start_item(item),
        _ => false,
    }
}

fn is_start_item(item: &Item) -> bool
    ensures { result ≡ is_start_item item.now }
{
    match item {
        Item::Call(_, call) => is_start_call(call),
        Item::Note(_) => false,
    }
}
