//! Which events start a child, asked without a change (`specs/Needs` of the rules).
//!
//! Each function here answers for one decision of an event whether the work that it opens, or that goes on, starts a
//! child. By its code none takes memory. Where an answer of a child is awaited, or nothing is left to start, that is seen at once.

ghost use Rattle.std.specs.Prelude.{ℕ, Bool, Option, false, ◌≡◌, ◌≤◌, ◌<◌, All, None, Some, length, max, slice_get};
ghost use Rattle.otp_rules.specs.Needs.{needs_number, work_starts};
ghost use Rattle.otp_needs.specs.Begun.{begun};
ghost use Rattle.otp_needs.specs.Restarted.{goes_on_beside, has_spec, outlives_failure, outlives_up};
ghost use Rattle.otp_machine.specs.Seen.{outcome_of};
ghost use Rattle.otp_reason.specs.declared.note.Note.TheVariants as note;
ghost use Rattle.otp_reason.specs.declared.reason.Reason.{Reason};
ghost use Rattle.otp_reason.specs.declared.name.Name.{Name};
ghost use Rattle.otp_spec.specs.declared.child.ChildSpec.{ChildSpec};
ghost use Rattle.otp_rules.specs.Calls.{add_child, call_child, start_child, start_dynamic, start_lawful, take_call};
ghost use Rattle.otp_rules.specs.declared.call.Call.TheVariants as asked;
ghost use Rattle.otp_rules.specs.Deaths.{death, restart, retry, take_exit};
ghost use Rattle.otp_rules.specs.Places.{end_row, set_row};
ghost use Rattle.otp_rules.specs.Starts.{take_failed, take_ignored, take_up};
ghost use Rattle.otp_rules.specs.State.{put_last};
ghost use Rattle.otp_rules.specs.Step.{ask, decide, open_rows, resume, take_item, take_note, take_waiting};
ghost use Rattle.otp_rules.specs.declared.event.Item.TheVariants as item;
ghost use Rattle.otp_rules.specs.declared.event.Waiting.TheVariants as waiting;
ghost use Rattle.otp_table.specs.declared.row.Row.{Row};
ghost use Rattle.otp_table.specs.declared.row.RowState.TheVariants.{Up};

use crate::waited::{Span, has_other_awaited, have_ended, have_ended_with, restart_goes_on};
use otp_machine::Machine;
use otp_machine::decisions::restarts::{affected, is_restarted};
use otp_machine::decisions::state::is_over;
use otp_reason::{Name, Note, Reason};
use otp_rules::laws::number_starts_work;
use otp_rules::{Call, Item, Kind, Sequel, Waiting};
use otp_spec::{ChildSpec, check_childspecs};
use otp_table::{Row, RowState};

/// The open work as it is.
#[tactic(auto, unfolding(otp_rules::specs::Needs::work_starts))]
fn goes_on(machine: &Machine, resumed: bool) -> bool
    ensures { (now : ℕ) → result ≡ work_starts (begun machine.now now resumed) }
{
    machine.follows.is_some()
        && !machine.rows.has_awaited()
        && have_ended(&machine.to_stop, &machine.waiting, resumed)
        && !machine.to_start.is_empty()
}

fn work_beside(machine: &Machine, place: usize, resumed: bool) -> bool
    requires { place < length machine.now.rows.rows }
    ensures { (now : ℕ) → result ≡ goes_on_beside place (begun machine.now now resumed) }
{
    machine.follows.is_some()
        && !has_other_awaited(machine.rows.as_slice(), place)
        && have_ended(&machine.to_stop, &machine.waiting, resumed)
        && !machine.to_start.is_empty()
}

/// The open work once the child at the place is no longer awaited: it runs, or has ended.
fn goes_on_beside(machine: &Machine, place: usize, resumed: bool) -> bool
    requires { place < length machine.now.rows.rows }
    ensures up { (now number : ℕ) (row : Row) → slice_get machine.now.rows.rows place ≡ Some row →
        result ≡ work_starts (set_row place row (Up number) (begun machine.now now resumed)) }
    ensures ended { (now : ℕ) (row : Row) → slice_get machine.now.rows.rows place ≡ Some row →
        result ≡ work_starts (end_row place row (begun machine.now now resumed)) }
{
    work_beside(machine, place, resumed)
}

/// The open work once the end of this process waits too.
#[tactic(auto, unfolding(otp_rules::specs::Needs::work_starts))]
fn goes_on_with_exit(machine: &Machine, number: u64, resumed: bool) -> bool
    ensures { (now : ℕ) (reason : Reason) →
        result ≡ work_starts (put_last (waiting.Item (item.Note (note.Exit number reason))) (begun machine.now now resumed)) }
{
    machine.follows.is_some()
        && !machine.rows.has_awaited()
        && have_ended_with(&machine.to_stop, &machine.waiting, resumed, number)
        && !machine.to_start.is_empty()
}

/// The note Up.
#[tactic(auto, using(crate::proofs::Needed::up_after_starts), unfolding(otp_rules::specs::Starts::take_up, otp_rules::specs::Starts::at_starting, otp_rules::specs::Places::at_number, otp_rules::specs::Places::at_row, otp_rules::specs::Places::at_found, otp_rules::specs::Places::at_place))]
fn up_starts(machine: &Machine, number: u64, resumed: bool) -> bool
    ensures { (now : ℕ) → result ≡ work_starts (take_up number (begun machine.now now resumed)) }
{
    let Some(place) = machine.rows.find_process(number) else {
        return goes_on(machine, resumed);
    };
    if let RowState::Starting(..) = machine.rows.get(place).state {
        outlives_up(machine.follows) && goes_on_beside(machine, place, resumed)
    } else {
        goes_on(machine, resumed)
    }
}

/// The note Ignored.
#[tactic(auto, unfolding(otp_rules::specs::Starts::take_ignored, otp_rules::specs::Starts::at_starting, otp_rules::specs::Places::at_number, otp_rules::specs::Places::at_row, otp_rules::specs::Places::at_found, otp_rules::specs::Places::at_place))]
fn ignored_starts(machine: &Machine, number: u64, resumed: bool) -> bool
    ensures { (now : ℕ) → result ≡ work_starts (take_ignored number (begun machine.now now resumed)) }
{
    let Some(place) = machine.rows.find_process(number) else {
        return goes_on(machine, resumed);
    };
    if let RowState::Starting(..) = machine.rows.get(place).state {
        goes_on_beside(machine, place, resumed)
    } else {
        goes_on(machine, resumed)
    }
}

/// The note Failed: a start that failed lets no other follow.
#[tactic(auto, using(crate::proofs::Needed::failed_after_starts), unfolding(otp_rules::specs::Starts::take_failed, otp_rules::specs::Starts::at_starting, otp_rules::specs::Places::at_number, otp_rules::specs::Places::at_row, otp_rules::specs::Places::at_found, otp_rules::specs::Places::at_place))]
fn failed_starts(machine: &Machine, number: u64, resumed: bool) -> bool
    ensures { (now : ℕ) (reason : Reason) → result ≡ work_starts (take_failed number reason (begun machine.now now resumed)) }
{
    let Some(place) = machine.rows.find_process(number) else {
        return goes_on(machine, resumed);
    };
    if let RowState::Starting(..) = machine.rows.get(place).state {
        outlives_failure(machine.follows) && goes_on(machine, resumed)
    } else {
        goes_on(machine, resumed)
    }
}

/// The restart of the child at the place.
#[tactic(auto, using(crate::proofs::Needed::terminate_starts_none), unfolding(otp_rules::specs::Needs::work_starts, otp_rules::specs::Deaths::restart, otp_rules::specs::Deaths::restart_or_end, otp_rules::specs::Deaths::restart_rows))]
fn restart_starts(machine: &Machine, place: usize, now: u64, resumed: bool) -> bool
    requires place { place < length machine.now.rows.rows }
    requires latest { All (λ s. s ≤ now) machine.now.window.stamps }
    ensures { (kept : ℕ) (row : Row) → slice_get machine.now.rows.rows place ≡ Some row →
        result ≡ work_starts (restart kept place row (begun machine.now now resumed)) }
{
    if machine.window.would_exceed(now) {
        return false;
    }
    let (from, to) = affected(machine.strategy, place, machine.rows.len());
    restart_goes_on(
        machine.rows.as_slice(),
        Span { from, place, to },
        &machine.waiting,
        resumed,
    )
}

/// The end of the process of the child at the place, with no work open.
#[tactic(auto, using(crate::proofs::Needed::ended_starts_none), unfolding(otp_rules::specs::Deaths::death))]
fn death_starts(machine: &Machine, place: usize, reason: Reason, now: u64, resumed: bool) -> bool
    requires idle { machine.now.follows ≡ None }
    requires place { place < length machine.now.rows.rows }
    requires latest { All (λ s. s ≤ now) machine.now.window.stamps }
    ensures { (number : ℕ) (row : Row) → slice_get machine.now.rows.rows place ≡ Some row →
        result ≡ work_starts (death number reason place row (begun machine.now now resumed)) }
{
    let restart = machine.rows.get(place).spec.restart;
    is_restarted(restart, &reason) && restart_starts(machine, place, now, resumed)
}

/// The note Exit.
#[tactic(auto, unfolding(otp_rules::specs::Deaths::take_exit, otp_rules::specs::Deaths::exit_in, otp_rules::specs::Places::at_number, otp_rules::specs::Places::at_row, otp_rules::specs::Places::at_found, otp_rules::specs::Places::at_place))]
fn exit_starts(machine: &Machine, number: u64, reason: Reason, now: u64, resumed: bool) -> bool
    requires { All (λ s. s ≤ now) machine.now.window.stamps }
    ensures { result ≡ work_starts (take_exit number reason (begun machine.now now resumed)) }
{
    let Some(place) = machine.rows.find_process(number) else {
        return goes_on(machine, resumed);
    };
    match machine.rows.get(place).state {
        RowState::Undefined | RowState::Restarting(_) => goes_on(machine, resumed),
        RowState::Starting(..) => goes_on_with_exit(machine, number, resumed),
        RowState::Up(_) => {
            if machine.follows.is_some() {
                goes_on_with_exit(machine, number, resumed)
            } else {
                death_starts(machine, place, reason, now, resumed)
            }
        }
        RowState::Asked(..) | RowState::Killed(_) => goes_on_beside(machine, place, resumed),
    }
}

/// The next try of a restart that failed.
#[tactic(auto, unfolding(otp_rules::specs::Deaths::retry, otp_rules::specs::Places::at_row, otp_rules::specs::Places::at_found, otp_rules::specs::Places::at_place))]
fn retry_starts(machine: &Machine, kept: u64, now: u64, resumed: bool) -> bool
    requires { All (λ s. s ≤ now) machine.now.window.stamps }
    ensures { result ≡ work_starts (retry kept (begun machine.now now resumed)) }
{
    let Some(place) = machine.rows.find_retry(kept) else {
        return goes_on(machine, resumed);
    };
    restart_starts(machine, place, now, resumed)
}

/// A child that is added.
#[tactic(auto, using(crate::proofs::Needed::add_child_starts))]
fn added_starts(machine: &Machine) -> bool
    requires { machine.now.follows ≡ None }
    ensures { (call now : ℕ) (id : Option Name) (spec : ChildSpec) (resumed : Bool) →
        result ≡ work_starts (add_child call id spec (begun machine.now now resumed)) }
{
    !machine.rows.is_full() && !machine.rows.has_awaited()
}

#[tactic(auto, using(crate::proofs::Needed::present_starts_none), unfolding(otp_rules::specs::Calls::start_lawful, otp_rules::specs::Places::at_row, otp_rules::specs::Places::at_found, otp_rules::specs::Places::at_place))]
fn lawful_starts(machine: &Machine, spec: ChildSpec) -> bool
    requires { machine.now.follows ≡ None }
    ensures { (call now : ℕ) (resumed : Bool) → result ≡ work_starts (start_lawful call spec (begun machine.now now resumed)) }
{
    match machine.rows.find_id(&spec.id) {
        None => added_starts(machine),
        Some(place) => {
            let _ = machine.rows.get(place);
            false
        }
    }
}

/// start_child with a specification.
#[tactic(auto, using(crate::proofs::Needed::answered_starts_none), unfolding(otp_rules::specs::Calls::start_child, otp_rules::specs::Calls::start_checked))]
fn child_starts(machine: &Machine, spec: ChildSpec) -> bool
    requires { machine.now.follows ≡ None }
    ensures { (call now : ℕ) (resumed : Bool) → result ≡ work_starts (start_child call spec (begun machine.now now resumed)) }
{
    if machine.strategy.is_simple() {
        return false;
    }
    match check_childspecs(&[spec], Some(machine.auto_shutdown)) {
        Err(_) => false,
        Ok(()) => lawful_starts(machine, spec),
    }
}

/// start_child under simple_one_for_one.
#[tactic(auto, using(crate::proofs::Needed::answered_starts_none), unfolding(otp_rules::specs::Calls::start_dynamic, otp_rules::specs::Calls::start_shared))]
fn dynamic_starts(machine: &Machine) -> bool
    requires { machine.now.follows ≡ None }
    ensures { (call now : ℕ) (resumed : Bool) → result ≡ work_starts (start_dynamic call (begun machine.now now resumed)) }
{
    if !machine.strategy.is_simple() {
        return false;
    }
    match machine.specs.first() {
        None => false,
        Some(_) => added_starts(machine),
    }
}

/// restart_child.
#[tactic(auto, using(crate::proofs::Needed::answered_starts_none, crate::proofs::Needed::again_starts), unfolding(otp_rules::specs::Calls::call_child, otp_rules::specs::Places::at_row, otp_rules::specs::Places::at_found, otp_rules::specs::Places::at_place))]
fn again_starts(machine: &Machine, id: Name) -> bool
    requires { machine.now.follows ≡ None }
    ensures { (call now : ℕ) (resumed : Bool) → result ≡ work_starts (call_child call id (asked.RestartChild id) (begun machine.now now resumed)) }
{
    if machine.strategy.is_simple() {
        return false;
    }
    match machine.rows.find_id(&id) {
        None => false,
        Some(place) => machine.rows.get(place).state.is_undefined() && !machine.rows.has_awaited(),
    }
}

/// A call, with no work open.
#[tactic(auto, using(crate::proofs::Needed::delete_starts_none, crate::proofs::Needed::terminate_child_starts_none, crate::proofs::Needed::terminate_process_starts_none, crate::proofs::Needed::which_starts_none, crate::proofs::Needed::count_starts_none, crate::proofs::Needed::get_childspec_starts_none, crate::proofs::Needed::start_child_is, crate::proofs::Needed::start_dynamic_is, crate::proofs::Needed::restart_child_is))]
fn call_starts(machine: &Machine, call: Call) -> bool
    requires { machine.now.follows ≡ None }
    ensures { (number now : ℕ) (resumed : Bool) → result ≡ work_starts (take_call number call (begun machine.now now resumed)) }
{
    match call {
        Call::StartChild(spec) => child_starts(machine, spec),
        Call::StartDynamic => dynamic_starts(machine),
        Call::RestartChild(id) => again_starts(machine, id),
        Call::DeleteChild(_) => false,
        Call::TerminateChild(_) => false,
        Call::TerminateProcess(_) => false,
        Call::WhichChildren => false,
        Call::CountChildren => false,
        Call::GetChildspec(_) => false,
    }
}

#[tactic(auto, using(crate::proofs::Needed::ask_over, crate::proofs::Needed::ask_busy, crate::proofs::Needed::ask_idle))]
fn ask_starts(machine: &Machine, call: Call, resumed: bool) -> bool
    ensures { (number now : ℕ) → result ≡ work_starts (ask number call (begun machine.now now resumed)) }
{
    if is_over(machine.phase) || machine.follows.is_some() {
        goes_on(machine, resumed)
    } else {
        call_starts(machine, call)
    }
}

#[tactic(auto, unfolding(otp_rules::specs::Step::take_note))]
fn note_starts(machine: &Machine, note: Note, now: u64, resumed: bool) -> bool
    requires { All (λ s. s ≤ now) machine.now.window.stamps }
    ensures { result ≡ work_starts (take_note note (begun machine.now now resumed)) }
{
    match note {
        Note::Up(p) => up_starts(machine, p, resumed),
        Note::Ignored(p) => ignored_starts(machine, p, resumed),
        Note::Failed(p, _) => failed_starts(machine, p, resumed),
        Note::Exit(p, reason) => exit_starts(machine, p, reason, now, resumed),
    }
}

#[tactic(auto, unfolding(otp_rules::specs::Step::take_item))]
fn item_starts(machine: &Machine, item: Item, now: u64, resumed: bool) -> bool
    requires { All (λ s. s ≤ now) machine.now.window.stamps }
    ensures { result ≡ work_starts (take_item item (begun machine.now now resumed)) }
{
    match item {
        Item::Note(note) => {
            if is_over(machine.phase) {
                goes_on(machine, resumed)
            } else {
                note_starts(machine, note, now, resumed)
            }
        }
        Item::Call(_, call) => ask_starts(machine, call, resumed),
    }
}

#[tactic(auto, unfolding(otp_rules::specs::Step::take_waiting))]
fn waiting_starts(machine: &Machine, item: Waiting, now: u64, resumed: bool) -> bool
    requires { All (λ s. s ≤ now) machine.now.window.stamps }
    ensures { result ≡ work_starts (take_waiting item (begun machine.now now resumed)) }
{
    match item {
        Waiting::Item(item) => item_starts(machine, item, now, resumed),
        Waiting::Retry(kept) => retry_starts(machine, kept, now, resumed),
    }
}

/// The first waiting item is taken.
#[tactic(auto, unfolding(otp_rules::specs::Step::resume))]
fn resume_starts(machine: &Machine, now: u64) -> bool
    requires { All (λ s. s ≤ now) machine.now.window.stamps }
    ensures { result ≡ work_starts (resume machine.now.waiting.items (begun machine.now now false)) }
{
    match machine.waiting.first() {
        None => goes_on(machine, false),
        Some(first) => waiting_starts(machine, first, now, true),
    }
}

/// The supervisor opens.
#[tactic(auto, using(crate::proofs::Needed::opening_starts))]
fn opening_starts(machine: &Machine) -> bool
    ensures { (own now : ℕ) → result ≡ work_starts (open_rows own (begun machine.now now false)) }
{
    !machine.strategy.is_simple() && !machine.specs.is_empty()
}

#[tactic(auto, using(crate::proofs::Needed::tick_starts, crate::proofs::Needed::terminate_starts_none), unfolding(otp_rules::specs::Step::decide))]
fn decision_starts(machine: &Machine, kind: Kind, now: u64) -> bool
    requires { All (λ s. s ≤ now) machine.now.window.stamps }
    ensures { result ≡ work_starts (decide kind (begun machine.now now false)) }
{
    match kind {
        Kind::Opened(_) => {
            if is_over(machine.phase) {
                opening_starts(machine)
            } else {
                goes_on(machine, false)
            }
        }
        Kind::Took(item) => item_starts(machine, item, now, false),
        Kind::Resumed => {
            if machine.is_idle() {
                resume_starts(machine, now)
            } else {
                goes_on(machine, false)
            }
        }
        Kind::Ticked => goes_on(machine, false),
        Kind::Stopped => !machine.is_idle() && goes_on(machine, false),
    }
}

/// Whether the event starts a child, decided by what a core decides by.
pub(crate) fn needs_number(machine: &Machine, reading: u64, kind: &Kind) -> bool
    requires { All (λ s. s ≤ machine.now.last) machine.now.window.stamps }
    ensures { result ≡ needs_number (outcome_of machine.now).state reading kind.now }
{
    number_starts_work();
    decision_starts(machine, *kind, reading.max(machine.last))
}

/// Whether the work goes on once a child runs.
fn outlives_up(follows: Option<Sequel>) -> bool
    ensures { result ≡ outlives_up follows }
{
    match follows {
        Some(Sequel::Added(_)) | Some(Sequel::Restarted(_)) => false,
        _ => true,
    }
}

/// Whether the work goes on though a child did not start.
fn outlives_failure(follows: Option<Sequel>) -> bool
    ensures { result ≡ outlives_failure follows }
{
    match follows {
        None | Some(Sequel::Stopped(_)) | Some(Sequel::End(_)) => true,
        _ => false,
    }
}
