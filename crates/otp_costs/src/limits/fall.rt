//! How the root of a tree fares where a child crashes again and again.

ghost use Rattle.std.specs.Prelude.{◌≡◌, ◌<◌, ◌++◌, false, IfOk, IfSome, OnOk, length, map, slice_get};
ghost use Rattle.otp_costs.specs.Falls.{Bears, BearsFrom, FallsSo, Joins, OpensFrom, gave_up, gave_up_by, given_up, is_joined, path_if, process_at, supervisor_path};
ghost use Rattle.otp_trial.specs.Played.{fresh, is_root_over};
ghost use Rattle.otp_trial.specs.declared.clock.Clock.TheVariants.{Milliseconds};

use crate::limits::fate::Fate;
use crate::limits::list::Listed;
use crate::limits::path::Path;
use crate::limits::stage::process_of;
use otp_file::TreeSpec;
use otp_reason::{Name, Reason};
use otp_rules::{Call, Ending, Phase};
use otp_script::Action;
use otp_trial::{Change, Clock, Halt, Trial, TriedSupervisor, laws};
use std::alloc::Global;

/// The most crashes of a child that are played in a whole tree. Each level of supervisors multiplies those that the root
/// survives.
pub const MOST_FALLS: u64 = 10_000;

/// How a tree fares where a child crashes again and again, with no time between.
#[derive(Debug, Drop)]
pub struct Fall {
    /// How the root fares.
    pub root: Fate,
    /// The supervisors that have given up in the end, those below before those above them.
    pub ends: Listed<Path>,
}

/// The process of the first child of the specification with this id, of the supervisor at this place, if it runs.
#[tactic(auto, unfolding(crate::specs::Falls::process_at))]
fn process_at(seats: &[TriedSupervisor], place: usize, id: &Name) -> Option<u64>
    ensures value { result ≡ process_at id.now (slice_get seats.now place) }
    ensures inside { IfSome result (λ process. place < length seats.now) }
{
    if place >= seats.len() {
        return None;
    }
    let seat = &seats[place];
    process_of(seat.rows(), id)
}

/// Whether the supervisor at this place is one of simple_one_for_one that runs.
#[tactic(auto, unfolding(crate::specs::Falls::is_joined))]
fn is_joined(seats: &[TriedSupervisor], place: usize) -> bool
    requires { place < length seats.now }
    ensures { result ≡ is_joined (slice_get seats.now place) }
{
    let seat = &seats[place];
    seat.flags().strategy.is_simple() && !seat.has_ended()
}

/// Somebody starts a child of the supervisor at this place, where it is one of simple_one_for_one that runs.
#[tactic(auto, unfolding(crate::specs::Falls::Joins, otp_trial::specs::Played::Acts))]
fn join(trial: &mut Trial, place: usize, page: &mut Vec<u8>) -> Result<(), Halt>
    requires { place < length trial.old.seats }
    ensures joins { OnOk result (Joins (is_joined (slice_get trial.old.seats place)) place trial.old trial.new) }
    ensures time { OnOk result (trial.new.time ≡ trial.old.time) }
{
    if is_joined(trial.seats(), place) {
        trial.act(place, Action::Call(Call::StartDynamic), page)?;
    }
    Ok(())
}

/// Does as `join`, where there is a supervisor at this place.
fn join_at(trial: &mut Trial, place: usize, page: &mut Vec<u8>) -> Result<(), Halt>
    ensures joins { OnOk result (Joins (is_joined (slice_get trial.old.seats place)) place trial.old trial.new) }
    ensures time { OnOk result (trial.new.time ≡ trial.old.time) }
{
    if place >= trial.seats().len() {
        return Err(Halt::OutOfMemory);
    }
    join(trial, place, page)
}

/// The tree of a trial is opened from its beginning on, and the supervisor at this place has a child. It and those above it are played:
/// no other supervisor has a child that ends by itself.
fn open(trial: &mut Trial, place: usize, page: &mut Vec<u8>) -> Result<(), Halt>
    requires clock { trial.old.clock ≡ Milliseconds }
    ensures { OnOk result (OpensFrom (map fresh trial.old.seats) place trial.new) }
{
    page.clear();
    trial.open_to(place, page)?;
    join_at(trial, place, page)
}

/// A child of the supervisor at this place crashes until the root has ended, or so often.
#[tactic(auto, unfolding(crate::specs::Falls::FallsSo))]
fn crash_often(
    trial: &mut Trial,
    place: usize,
    id: &Name,
    most: u64,
    page: &mut Vec<u8>,
) -> Result<Fate, Halt>
    requires runs { is_root_over trial.old.seats ≡ false }
    ensures { IfOk result (λ fate. FallsSo most place id.now trial.old fate trial.new) }
{
    for count in 0..most {
        let Some(process) = process_at(trial.seats(), place, id) else {
            return Ok(Fate::Gone(count));
        };
        page.clear();
        trial.end_number(place, process, Reason::Killed, page)?;
        if trial.has_ended() {
            return Ok(Fate::Ended(count));
        }
    }
    Ok(Fate::Survived)
}

/// Whether a supervisor that ended so has given up: nobody asked it to end.
#[tactic(auto, unfolding(crate::specs::Falls::gave_up_by))]
fn gave_up_by(ending: Ending) -> bool
    ensures { result ≡ gave_up_by ending }
{
    match ending {
        Ending::Asked => false,
        Ending::Intensity | Ending::Significant(_) | Ending::InitFailed(_) => true,
    }
}

/// Whether a supervisor has ended though nobody asked it to.
#[tactic(auto, unfolding(crate::specs::Falls::gave_up))]
fn gave_up(phase: Phase) -> bool
    ensures { result ≡ gave_up phase }
{
    match phase {
        Phase::Ended(_, ending) => gave_up_by(ending),
        Phase::Unopened | Phase::Open(_) => false,
    }
}

/// The path of a supervisor whose children have this in front of their names.
#[tactic(auto, unfolding(crate::specs::Falls::supervisor_path))]
pub fn supervisor_path(path: &[u8]) -> &[u8]
    ensures { result.now ≡ supervisor_path path.now }
{
    match path {
        [] => b"root",
        path => &path[..path.len() - 1],
    }
}

/// Puts the path of a supervisor behind others, if it has given up.
#[tactic(auto, unfolding(crate::specs::Falls::path_if))]
fn put_if(
    alloc: Global,
    is_given_up: bool,
    path: &[u8],
    ends: &mut Listed<Path>,
) -> Result<(), Halt>
    ensures { OnOk result (ends.new ≡ ends.old ++ path_if is_given_up path.now) }
{
    if is_given_up {
        ends.push(Path::copy_of(alloc, supervisor_path(path))?)?;
    }
    Ok(())
}

/// Puts the supervisors that gave up behind others, those below before those above them.
fn put_given_up(
    alloc: Global,
    seats: &[TriedSupervisor],
    ends: &mut Listed<Path>,
) -> Result<(), Halt>
    ensures { OnOk result (ends.new ≡ ends.old ++ given_up seats.now) }
{
    match seats {
        [] => Ok(()),
        [seat, others @ ..] => {
            put_given_up(alloc, others, ends)?;
            put_if(alloc, gave_up(seat.phase()), seat.path(), ends)
        }
    }
}

/// The supervisors that gave up, those below before those above them.
pub(crate) fn find_given_up(alloc: Global, seats: &[TriedSupervisor]) -> Result<Listed<Path>, Halt>
    ensures { IfOk result (λ ends. ends ≡ given_up seats.now) }
{
    let mut ends = Listed::new(alloc);
    put_given_up(alloc, seats, &mut ends)?;
    Ok(ends)
}

/// Lets a child of the supervisor at this place of an opened tree crash so often, or until the root has ended.
fn bear_in(
    trial: &mut Trial,
    place: usize,
    id: &Name,
    most: u64,
    page: &mut Vec<u8>,
) -> Result<Fate, Halt>
    ensures { IfOk result (λ fate. FallsSo most place id.now trial.old fate trial.new) }
{
    if trial.has_ended() {
        return Err(Halt::HistoryFull);
    }
    crash_often(trial, place, id, most, page)
}

/// Opens the tree of a trial, and lets a child of the supervisor at this place crash so often, or until the root has ended.
pub(crate) fn bear_from(
    trial: &mut Trial,
    place: usize,
    id: &Name,
    count: u64,
    page: &mut Vec<u8>,
) -> Result<Fate, Halt>
    requires clock { trial.old.clock ≡ Milliseconds }
    ensures { IfOk result (λ root. BearsFrom (map fresh trial.old.seats) place id.now count root trial.new) }
{
    open(trial, place, page)?;
    bear_in(trial, place, id, count, page)
}

/// Opens a tree, as its file says it or with another intensity of one supervisor, and lets a child of the supervisor at this place
/// crash so often, with no time between: how the root fares.
///
/// # Errors
///
/// Where memory is refused, the opening itself doesn't come to its end, or a supervisor has 2^62 events before the last crash.
pub fn bear(
    alloc: Global,
    change: Option<Change>,
    tree: &TreeSpec,
    place: usize,
    id: &Name,
    count: u64,
) -> Result<Fate, Halt>
    ensures { IfOk result (λ root. Bears change tree.now place id.now count root) }
{
    laws::trees_are_kept();
    let mut page = Vec::new(alloc);
    let mut trial = Trial::plant(alloc, tree, false, Clock::Milliseconds, change)?;
    let root = bear_from(&mut trial, place, id, count, &mut page);
    drop(trial);
    root
}
