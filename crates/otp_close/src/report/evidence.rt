//! What supervisors were told of the ends of others, held against the others' own histories.
ghost use Rattle.std.specs.Prelude.{◌≡◌, ◌↔◌, ◌<◌, IfNone, IfSome, IsTrue, MatchOption, slice_get};
ghost use Rattle.otp_core.specs.View.{stored_state};
ghost use Rattle.otp_reason.specs.Names.{name_bytes};
ghost use Rattle.otp_reason.specs.Texts.{text_bytes};
ghost use Rattle.otp_rules.specs.declared.work.Phase.TheVariants.{Open};
ghost use Rattle.otp_run.specs.Lists.{AllAt};
ghost use Rattle.otp_close.specs.Marks.{AreAllMarked};
ghost use Rattle.otp_close.specs.Tellings.{Agrees, AllAgree, AreSo, EndedSo, IsBorneOut, IsCutOff, IsEndTold, IsEndUnder, IsGiven, IsMismatch, IsMismatchOf, IsSameCause, IsSameReason, IsSo, IsThere, IsToldSo, KnowsNone, told_end};

use crate::report::marks::{MARKS, is_marked, marks_of};
use crate::report::report::TableReport;
use otp_core::{Core, History};
use otp_reason::{Name, Note, Reason, Text};
use otp_rules::{Cause, Event, Item, Kind, Phase, Stamps, SupEnd};
use otp_sup::ToldEnd;

/// E17: which event tells a supervisor an end of another one that isn't the one that the other's own history gives.
#[derive(Clone, Copy, Debug, PartialEq, Eq)]
pub struct Mismatch {
    /// The number of the supervisor that was told it.
    pub table: usize,
    /// The place of the event in what is stored of that supervisor's history, from 0 on.
    pub event: usize,
}

/// An event that tells an end that isn't so.
pub(crate) fn find_mismatch(tables: &[TableReport]) -> Option<Mismatch>
    ensures none { IfNone result (AreSo tables.now) }
    ensures found { IfSome result (IsMismatch tables.now) }
{
    let marks = marks_of(tables);
    for table in 0..tables.len() {
        if let Some(event) = find_in(&tables[table], tables, &marks) {
            return Some(Mismatch { table, event });
        }
    }
    None
}

/// An event of a supervisor that tells an end that isn't so: for another reason, or else with another cause.
fn find_in(table: &TableReport, tables: &[TableReport], marks: &[bool; MARKS]) -> Option<usize>
    requires { AreAllMarked marks.now tables.now }
    ensures none { IfNone result (IsToldSo tables.now table.now) }
    ensures found { IfSome result (λ event. IsMismatchOf tables.now table.now event) }
{
    match find_untrue(table.core.history(), tables, marks) {
        Some(event) => Some(event),
        None => find_false_end(table.ends_told.as_slice(), tables),
    }
}

/// An event of a history that tells an end that isn't so.
fn find_untrue(history: &History, tables: &[TableReport], marks: &[bool; MARKS]) -> Option<usize>
    requires { AreAllMarked marks.now tables.now }
    ensures none { IfNone result (AllAt (λ _ e. IsSo tables.now e) history.now.events) }
    ensures found { IfSome result (λ place. MatchOption (slice_get history.now.events place) ⊥ (λ event. ¬ (IsSo tables.now event))) }
{
    for place in 0..history.len() {
        if !is_so(&history.get(place), tables, marks) {
            return Some(place);
        }
    }
    None
}

/// Whether an event tells no end of a supervisor, or one that is so. Of these marks none is set for most processes, which are no
/// supervisors: no history is looked at then.
fn is_so(event: &Event, tables: &[TableReport], marks: &[bool; MARKS]) -> bool
    requires { AreAllMarked marks.now tables.now }
    ensures { IsTrue result ↔ IsSo tables.now event.now }
{
    match told_end(&event.kind) {
        Some((number, reason)) => all_agree_marked(tables, marks, number, reason),
        None => true,
    }
}

/// Whether the histories of all supervisors agree with the end of this process. They do where none was opened under its number.
fn all_agree_marked(
    tables: &[TableReport],
    marks: &[bool; MARKS],
    number: u64,
    reason: Option<Reason>,
) -> bool
    requires { AreAllMarked marks.now tables.now }
    ensures { IsTrue result ↔ AllAgree tables.now number reason }
{
    if is_marked(marks, number) {
        all_agree(tables, number, reason)
    } else {
        true
    }
}

/// The number of the process whose end an event tells, and the reason; None as the reason where there was nothing to run.
fn told_end(kind: &Kind) -> Option<(u64, Option<Reason>)>
    ensures { result ≡ told_end kind.now }
{
    match kind {
        Kind::Took(Item::Note(Note::Exit(number, reason) | Note::Failed(number, reason))) => {
            Some((*number, Some(*reason)))
        }
        Kind::Took(Item::Note(Note::Ignored(number))) => Some((*number, None)),
        _ => None,
    }
}

/// Whether the histories of all supervisors agree with the end of this process.
fn all_agree(tables: &[TableReport], number: u64, reason: Option<Reason>) -> bool
    ensures { IsTrue result ↔ AllAgree tables.now number reason }
{
    for table in 0..tables.len() {
        if !agrees(&tables[table].core, number, reason) {
            return false;
        }
    }
    true
}

/// Whether a supervisor doesn't run under this number, and each opening under it ended with this reason.
fn agrees(core: &Core, number: u64, reason: Option<Reason>) -> bool
    ensures { IsTrue result ↔ Agrees (stored_state core.now) number reason }
{
    !is_open_under(core.phase(), number) && all_ended_so(core.ends(), number, reason)
}

/// Whether each opening under this number ended with this reason.
fn all_ended_so(ends: &[(u64, SupEnd)], number: u64, reason: Option<Reason>) -> bool
    ensures { IsTrue result ↔ AllAt (λ _ x. EndedSo number reason x) ends.now }
{
    for place in 0..ends.len() {
        if !ended_so(&ends[place], number, reason) {
            return false;
        }
    }
    true
}

/// Whether an opening was under another number, or ended with this reason.
fn ended_so(entry: &(u64, SupEnd), number: u64, reason: Option<Reason>) -> bool
    ensures { IsTrue result ↔ EndedSo number reason entry.now }
{
    let (own, end) = entry;
    is_end(*own, end.reason, number, reason)
}

/// Whether an end under a number of its own is one under another number, or for this reason.
fn is_end(own: u64, ended: Reason, number: u64, reason: Option<Reason>) -> bool
    ensures { IsTrue result ↔ (own ≡ number → IsEndTold ended reason) }
{
    own != number || is_told(ended, reason)
}

/// Whether an end for the one reason is that which is told with the other.
fn is_told(ended: Reason, reason: Option<Reason>) -> bool
    ensures { IsTrue result ↔ IsEndTold ended reason }
{
    match reason {
        Some(reason) => is_same_reason(ended, reason),
        None => false,
    }
}

/// Whether two reasons say the same.
fn is_same_reason(one: Reason, other: Reason) -> bool
    ensures { IsTrue result ↔ IsSameReason one other }
{
    match (one, other) {
        (Reason::Normal, Reason::Normal) => true,
        (Reason::Shutdown, Reason::Shutdown) => true,
        (Reason::Kill, Reason::Kill) => true,
        (Reason::Killed, Reason::Killed) => true,
        (Reason::NoProc, Reason::NoProc) => true,
        (Reason::ShutdownWith(one), Reason::ShutdownWith(other)) => is_same_text(&one, &other),
        (Reason::Error(one), Reason::Error(other)) => is_same_text(&one, &other),
        _ => false,
    }
}

/// Whether two texts show the same bytes.
fn is_same_text(one: &Text, other: &Text) -> bool
    ensures { IsTrue result ↔ (text_bytes one.now ≡ text_bytes other.now) }
{
    one.as_bytes() == other.as_bytes()
}

/// Whether it runs under this number.
fn is_open_under(phase: Phase, number: u64) -> bool
    ensures { IsTrue result ↔ (phase ≡ Open number) }
{
    match phase {
        Phase::Open(own) => own == number,
        Phase::Unopened | Phase::Ended(..) => false,
    }
}

/// The event of an end that was told and that isn't borne out.
fn find_false_end(ends: &[ToldEnd], tables: &[TableReport]) -> Option<usize>
    ensures none { IfNone result (AllAt (λ _ x. IsBorneOut tables.now x) ends.now) }
    ensures found { IfSome result (λ event. IsThere (λ x. (x.event ≡ event) × ¬ (IsBorneOut tables.now x)) ends.now) }
{
    for place in 0..ends.len() {
        if !is_borne_out(&ends[place], tables) {
            return Some(ends[place].event);
        }
    }
    None
}

/// Whether the history of one of the supervisors gives this end, or a checkpoint cut it off.
fn is_borne_out(told: &ToldEnd, tables: &[TableReport]) -> bool
    ensures { IsTrue result ↔ IsBorneOut tables.now told.now }
{
    is_given(told, tables) || is_cut_off(told.number, tables)
}

/// Whether a checkpoint cut off the opening under this number, and its end.
fn is_cut_off(number: u64, tables: &[TableReport]) -> bool
    ensures { IsTrue result ↔ IsCutOff tables.now number }
{
    has_checkpoint(tables) && is_unknown(number, tables)
}

/// Whether events of one of the supervisors were cut off.
fn has_checkpoint(tables: &[TableReport]) -> bool
    ensures { IsTrue result ↔ IsThere (λ t. 0 < t.core.cut) tables.now }
{
    for table in 0..tables.len() {
        if tables[table].core.events_cut() > 0 {
            return true;
        }
    }
    false
}

/// Whether nothing that is stored of the supervisors knows of an opening under this number. No opening ends without a reason: so that
/// all agree with such an end says just this.
fn is_unknown(number: u64, tables: &[TableReport]) -> bool
    ensures { IsTrue result ↔ AllAt (λ _ t. KnowsNone number (stored_state t.core)) tables.now }
{
    all_agree(tables, number, None)
}

/// Whether the history of one of the supervisors gives this end.
fn is_given(told: &ToldEnd, tables: &[TableReport]) -> bool
    ensures { IsTrue result ↔ IsGiven tables.now told.now }
{
    for table in 0..tables.len() {
        if gives(tables[table].core.ends(), told.number, told.end.end()) {
            return true;
        }
    }
    false
}

/// Whether one of these ends is this one, of the opening under this number.
fn gives(ends: &[(u64, SupEnd)], number: u64, end: &SupEnd) -> bool
    ensures { IsTrue result ↔ IsThere (IsEndUnder number end.now) ends.now }
{
    for place in 0..ends.len() {
        if is_end_under(&ends[place], number, end) {
            return true;
        }
    }
    false
}

/// Whether this is the end of an opening under this number, with the same reason and the same cause.
fn is_end_under(entry: &(u64, SupEnd), number: u64, end: &SupEnd) -> bool
    ensures { IsTrue result ↔ IsEndUnder number end.now entry.now }
{
    let (own, ended) = entry;
    *own == number
        && is_same_reason(ended.reason, end.reason)
        && is_same_cause(&ended.cause, &end.cause)
}

/// Whether two causes are the same.
fn is_same_cause(one: &Cause, other: &Cause) -> bool
    ensures { IsTrue result ↔ IsSameCause one.now other.now }
{
    match (one, other) {
        (
            Cause::Intensity { flags, stamps },
            Cause::Intensity {
                flags: others,
                stamps: times,
            },
        ) => *flags == *others && is_same_times(stamps, times),
        (Cause::Significant(one), Cause::Significant(other)) => *one == *other,
        (Cause::Asked, Cause::Asked) => true,
        (Cause::InitFailed(one), Cause::InitFailed(other)) => is_same_name(one, other),
        _ => false,
    }
}

/// Whether two lists have the same times.
fn is_same_times(one: &Stamps, other: &Stamps) -> bool
    ensures { IsTrue result ↔ (one.now ≡ other.now) }
{
    one.as_slice() == other.as_slice()
}

/// Whether two ids show the same bytes.
fn is_same_name(one: &Name, other: &Name) -> bool
    ensures { IsTrue result ↔ (name_bytes one.now ≡ name_bytes other.now) }
{
    one.as_bytes() == other.as_bytes()
}
