//! What the failure of each child of a tree costs, the worst first.

ghost use Rattle.std.specs.Prelude.{◌≡◌, IfOk, OnOk};
ghost use Rattle.otp_costs.specs.Groups.{is_wanted};
ghost use Rattle.otp_costs.specs.Rows.{AreRows, HasRow, HaveRows, IsRow, PutsRanked, groups_in};

use crate::alike::Grain;
use crate::below::{count_processes, weigh_all};
use crate::group::{Group, find_groups};
use crate::limits::{Cost, Fate, Listed, Path, TreePlayer, copy_names};
use crate::pick::Pick;
use crate::progress::{Progress, Unseen, see};
use crate::rank::put_in;
use otp_file::TreeSpec;
use otp_reason::Name;
use otp_trial::{Halt, TriedSupervisor, plant_seats};
use std::alloc::{AllocError, Global};

/// What the failure of each of some children of a supervisor costs.
#[derive(Debug, Drop)]
pub struct Row {
    /// What stands in front of their names: the ids of the supervisors from the root's child on, each with a `/` behind it.
    pub path: Path,
    /// The children that it stands for, in start order. The first was played.
    pub names: Listed<Name>,
    /// What it costs their own supervisor.
    pub own: Cost,
    /// How many processes one crash stops, with those below the children that it stops.
    pub stopped: u64,
    /// How many it starts again, with those below the children that it starts.
    pub started: u64,
    /// How the root fares where the child crashes again and again, with no time between.
    pub root: Fate,
    /// The supervisors that have given up then, those below before those above them.
    pub ends: Listed<Path>,
}

/// The row of a group of the supervisor at this place among all. The word is a place for a text.
fn find_row(
    alloc: Global,
    player: &mut TreePlayer<'_>,
    seats: &[TriedSupervisor],
    place: usize,
    seat: &TriedSupervisor,
    group: &Group,
    word: &mut Vec<u8>,
) -> Result<Row, Halt>
    ensures row { IfOk result (λ row. IsRow player.old seats.now place seat.now group.now row) }
    ensures tree { player.new ≡ player.old }
{
    let path = Path::copy_of(alloc, seat.path())?;
    let names = copy_names(alloc, group.names.as_slice())?;
    let own = player.find_cost(seat.supervisor(), &group.first)?;
    let stopped = count_processes(seat.path(), seats, own.stops.as_slice(), word)?;
    let started = count_processes(seat.path(), seats, own.starts.as_slice(), word)?;
    let fall = player.find_fall(place, &group.first)?;
    Ok(Row {
        path,
        names,
        own,
        stopped,
        started,
        root: fall.root,
        ends: fall.ends,
    })
}

/// Whether a group of a supervisor is asked for. The word is a place for a text.
fn is_asked_for(
    pick: &Pick<'_>,
    seat: &TriedSupervisor,
    group: &Group,
    word: &mut Vec<u8>,
) -> Result<bool, AllocError>
    ensures { IfOk result (λ wanted. wanted ≡ is_wanted pick.now seat.now.path group.now.names) }
{
    pick.wants(seat.path(), group.names.as_slice(), word)
}

/// Puts the row of a group in its place among others, where it is asked for.
#[tactic(auto, unfolding(crate::specs::Rows::HasRow))]
fn put_row_if(
    alloc: Global,
    player: &mut TreePlayer<'_>,
    seats: &[TriedSupervisor],
    place: usize,
    seat: &TriedSupervisor,
    group: &Group,
    is_wanted: bool,
    word: &mut Vec<u8>,
    rows: &mut Vec<Row>,
) -> Result<(), Halt>
    ensures tree { player.new ≡ player.old }
    ensures rows { OnOk result (PutsRanked (HasRow is_wanted player.old seats.now place seat.now group.now) rows.old.items rows.new.items) }
{
    if is_wanted {
        let row = find_row(alloc, player, seats, place, seat, group, word)?;
        put_in(row, rows)?;
    }
    Ok(())
}

/// Puts the row of a group in its place among others, where it is asked for. The word is a place for a text.
fn put_row(
    alloc: Global,
    pick: &Pick<'_>,
    player: &mut TreePlayer<'_>,
    seats: &[TriedSupervisor],
    place: usize,
    seat: &TriedSupervisor,
    group: &Group,
    word: &mut Vec<u8>,
    rows: &mut Vec<Row>,
) -> Result<(), Halt>
    ensures tree { player.new ≡ player.old }
    ensures rows { OnOk result (PutsRanked (HasRow (is_wanted pick.now seat.now.path group.now.names) player.old seats.now place seat.now group.now)
        rows.old.items rows.new.items) }
{
    let is_wanted = is_asked_for(pick, seat, group, word)?;
    put_row_if(
        alloc, player, seats, place, seat, group, is_wanted, word, rows,
    )
}

/// Puts the rows of those of these groups that are asked for in their places among others.
fn put_rows(
    alloc: Global,
    pick: &Pick<'_>,
    player: &mut TreePlayer<'_>,
    seats: &[TriedSupervisor],
    place: usize,
    seat: &TriedSupervisor,
    groups: &[Group],
    rows: &mut Vec<Row>,
) -> Result<(), Halt>
    ensures tree { player.new ≡ player.old }
    ensures rows { OnOk result (PutsRanked (HaveRows pick.now player.old seats.now place seat.now groups.now) rows.old.items rows.new.items) }
{
    let mut word = Vec::new(alloc);
    for at in 0..groups.len() {
        put_row(
            alloc,
            pick,
            player,
            seats,
            place,
            seat,
            &groups[at],
            &mut word,
            rows,
        )?;
    }
    Ok(())
}

/// The groups of a supervisor among all.
fn groups_in(
    alloc: Global,
    grain: Grain,
    seats: &[TriedSupervisor],
    seat: &TriedSupervisor,
) -> Result<Vec<Group>, AllocError>
    ensures { IfOk result (λ found. found.items ≡ groups_in grain seats.now seat.now) }
{
    let supervisor = seat.supervisor();
    let children = weigh_all(alloc, seat.path(), seats, supervisor.specs())?;
    find_groups(
        alloc,
        grain,
        supervisor.flags().strategy,
        children.as_slice(),
    )
}

/// Puts the rows of those children of the supervisor at this place among all that are asked for in their places among others.
fn put_seat(
    alloc: Global,
    grain: Grain,
    pick: &Pick<'_>,
    player: &mut TreePlayer<'_>,
    seats: &[TriedSupervisor],
    place: usize,
    seat: &TriedSupervisor,
    rows: &mut Vec<Row>,
) -> Result<(), Halt>
    ensures tree { player.new ≡ player.old }
    ensures rows { OnOk result (PutsRanked (HaveRows pick.now player.old seats.now place seat.now (groups_in grain seats.now seat.now)) rows.old.items rows.new.items) }
{
    let groups = groups_in(alloc, grain, seats, seat)?;
    let put = put_rows(
        alloc,
        pick,
        player,
        seats,
        place,
        seat,
        groups.as_slice(),
        rows,
    );
    drop(groups);
    put
}

/// What the failure of those children of a tree costs that are asked for, the worst first.
///
/// # Errors
///
/// Where memory is refused, or a supervisor has 2^62 events before the last crash of a run.
pub fn find_rows(
    alloc: Global,
    grain: Grain,
    pick: &Pick<'_>,
    tree: &TreeSpec,
) -> Result<Vec<Row>, Halt>
    ensures { IfOk result (λ rows. AreRows grain pick.now tree.now rows.items) }
{
    find_rows_seen(alloc, grain, pick, tree, &Unseen)
}

/// What [`find_rows`] finds, where somebody sees how far it is.
///
/// # Errors
///
/// Those of [`find_rows`].
pub fn find_rows_seen<P: Progress>(
    alloc: Global,
    grain: Grain,
    pick: &Pick<'_>,
    tree: &TreeSpec,
    progress: &P,
) -> Result<Vec<Row>, Halt>
    ensures { IfOk result (λ rows. AreRows grain pick.now tree.now rows.items) }
{
    let seats = plant_seats(alloc, tree)?;
    let mut player = TreePlayer::of(alloc, tree)?;
    let mut rows = Vec::new(alloc);
    for place in 0..seats.len() {
        see(progress, place, seats.as_slice());
        put_seat(
            alloc,
            grain,
            pick,
            &mut player,
            seats.as_slice(),
            place,
            &seats[place],
            &mut rows,
        )?;
    }
    Ok(rows)
}
