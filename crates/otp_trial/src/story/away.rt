//! Since when children are without a process, and how long they were.

ghost use Rattle.std.specs.Prelude.{◌≡◌, ◌≤◌, ◌<◌, ◌++◌, IfSome, OnOk, length, position};
ghost use Rattle.otp_table.specs.Rows.{has_process, row_has};
ghost use Rattle.otp_trial.specs.Aways.{away_at, aways_by, back_by, id_at, id_of, is_away, left_at, left_by, presence_in, presence_of, up_by, without_away};
ghost use Rattle.otp_trial.specs.Story.{down_line, down_text, down_told};

use crate::story::telling::Telling;
use crate::story::time::write_time;
use otp_reason::{Name, Note};
use otp_rules::{Item, Kind};
use otp_table::Row;
use otp_text::write_name;
use std::alloc::AllocError;

/// A child whose process ended at this time, in milliseconds, and which has not come up since.
#[derive(Clone, Copy, Debug, PartialEq, Eq)]
pub struct Away {
    pub id: Name,
    pub since: u64,
}

/// What an event means for the child with this id: its presence ends, or begins.
#[derive(Clone, Copy, Debug, PartialEq, Eq)]
pub enum Presence {
    /// Its process has ended.
    Left(Name),
    /// It is up.
    Back(Name),
}

/// The place of the child that has this process.
fn place_of_process(rows: &[Row], process: u64) -> Option<usize>
    ensures place { result ≡ position (row_has (has_process process)) rows.now }
    ensures inside { IfSome result (λ place. place < length rows.now) }
{
    rows.iter().position(|row| row.state.has_process(process))
}

/// The id of the child at this place.
#[tactic(auto, unfolding(crate::specs::Aways::id_at, crate::specs::Aways::id_in))]
fn id_at(rows: &[Row], place: Option<usize>) -> Option<Name>
    requires { IfSome place (λ at. at < length rows.now) }
    ensures { result ≡ id_at rows.now place }
{
    match place {
        None => None,
        Some(place) => {
            let row = &rows[place];
            row.id
        }
    }
}

/// The id of the child that has this process.
fn id_of(rows: &[Row], process: u64) -> Option<Name>
    ensures { result ≡ id_of rows.now process }
{
    id_at(rows, place_of_process(rows, process))
}

/// This child has lost its process, if it has an id.
#[tactic(auto, unfolding(crate::specs::Aways::left_by))]
fn left_by(id: Option<Name>) -> Option<Presence>
    ensures { result ≡ left_by id }
{
    match id {
        None => None,
        Some(id) => Some(Presence::Left(id)),
    }
}

/// This child is up, if it has an id.
#[tactic(auto, unfolding(crate::specs::Aways::up_by))]
fn up_by(id: Option<Name>) -> Option<Presence>
    ensures { result ≡ up_by id }
{
    match id {
        None => None,
        Some(id) => Some(Presence::Back(id)),
    }
}

/// What a note says so of these children.
#[tactic(auto, unfolding(crate::specs::Aways::presence_in))]
fn presence_in(rows: &[Row], note: Note) -> Option<Presence>
    ensures { result ≡ presence_in rows.now note }
{
    match note {
        Note::Up(process) => up_by(id_of(rows, process)),
        Note::Exit(process, _) => left_by(id_of(rows, process)),
        Note::Ignored(_) | Note::Failed(..) => None,
    }
}

/// Which of these children an event of this kind takes its process, or gives one that is up.
#[tactic(auto, unfolding(crate::specs::Aways::presence_of))]
pub fn presence_of(rows: &[Row], kind: &Kind) -> Option<Presence>
    ensures { result ≡ presence_of rows.now kind.now }
{
    match kind {
        Kind::Took(Item::Note(note)) => presence_in(rows, *note),
        _ => None,
    }
}

/// Whether it is the child with this id that is away.
fn is_away(id: &Name, away: &Away) -> bool
    ensures { result ≡ is_away id.now away.now }
{
    away.id == *id
}

/// Where the child with this id stands among those that are away.
fn place_of(aways: &[Away], id: &Name) -> Option<usize>
    ensures place { result ≡ position (is_away id.now) aways.now }
    ensures inside { IfSome result (λ at. at < length aways.now) }
{
    aways.iter().position(|away| is_away(id, away))
}

/// The child at this place of those that are away.
#[tactic(auto, unfolding(crate::specs::Aways::away_at))]
fn away_at(aways: &[Away], place: Option<usize>) -> Option<Away>
    requires { IfSome place (λ at. at < length aways.now) }
    ensures { result ≡ away_at aways.now place }
{
    match place {
        None => None,
        Some(at) => Some(aways[at]),
    }
}

/// The child at this place is away no more.
#[tactic(auto, unfolding(crate::specs::Aways::without_away))]
fn take_out(aways: &mut Vec<Away>, place: Option<usize>)
    requires { IfSome place (λ at. at < length aways.old.items) }
    ensures { aways.new.items ≡ without_away aways.old.items place }
{
    if let Some(at) = place {
        aways.remove(at);
    }
}

/// The process of this child ended now: it is away, where it was not before.
#[tactic(auto, unfolding(crate::specs::Aways::left_at))]
fn put_in(aways: &mut Vec<Away>, now: u64, id: Name, place: Option<usize>) -> Result<(), AllocError>
    ensures { OnOk result (aways.new.items ≡ left_at now id place aways.old.items) }
{
    match place {
        None => aways.push(Away { id, since: now }).map_err(|_| AllocError),
        Some(_) => Ok(()),
    }
}

/// Which children are away after that.
///
/// # Errors
///
/// Where memory is refused.
#[tactic(auto, unfolding(crate::specs::Aways::aways_by))]
pub fn note_presence(
    presence: Option<Presence>,
    now: u64,
    aways: &mut Vec<Away>,
) -> Result<(), AllocError>
    ensures { OnOk result (aways.new.items ≡ aways_by presence now aways.old.items) }
{
    match presence {
        None => Ok(()),
        Some(Presence::Left(id)) => {
            let place = place_of(aways.as_slice(), &id);
            put_in(aways, now, id, place)
        }
        Some(Presence::Back(id)) => {
            let place = place_of(aways.as_slice(), &id);
            take_out(aways, place);
            Ok(())
        }
    }
}

/// The child that was away, and is up by that.
#[tactic(auto, unfolding(crate::specs::Aways::back_by))]
fn back_by(presence: Option<Presence>, aways: &[Away]) -> Option<Away>
    ensures { result ≡ back_by presence aways.now }
{
    match presence {
        Some(Presence::Back(id)) => away_at(aways, place_of(aways, &id)),
        Some(Presence::Left(_)) | None => None,
    }
}

/// Appends how long a child of the supervisor with this path was down.
#[tactic(auto, unfolding(crate::specs::Story::down_line))]
fn write_line(now: u64, path: &[u8], away: Away, out: &mut Vec<u8>) -> Result<(), AllocError>
    requires { away.since ≤ now }
    ensures { OnOk result (out.new.items ≡ out.old.items ++ down_line now path.now away) }
{
    write_time(now, out)?;
    out.extend_from_slice(b"  ")?;
    out.extend_from_slice(path)?;
    write_name(&away.id, out)?;
    out.extend_from_slice(b" was down ")?;
    write_time(now - away.since, out)?;
    out.extend_from_slice(b"\n")
}

/// Appends how long a child of the supervisor with this path was down, if it was for any time.
#[tactic(auto, unfolding(crate::specs::Story::down_text))]
fn write_back(
    now: u64,
    path: &[u8],
    away: Option<Away>,
    out: &mut Vec<u8>,
) -> Result<(), AllocError>
    ensures { OnOk result (out.new.items ≡ out.old.items ++ down_text now path.now away) }
{
    match away {
        None => Ok(()),
        Some(away) => {
            if away.since < now {
                write_line(now, path, away, out)
            } else {
                Ok(())
            }
        }
    }
}

/// Appends how long the child was down that is up by an event, if that is told; these children were away before it.
#[tactic(auto, unfolding(crate::specs::Story::down_told))]
pub fn tell_down(
    scene: &Telling<'_>,
    presence: Option<Presence>,
    aways: &[Away],
    out: &mut Vec<u8>,
) -> Result<(), AllocError>
    ensures { OnOk result (out.new.items ≡ out.old.items ++ down_told scene.now.tells scene.now.time scene.now.path.now (back_by presence aways.now)) }
{
    if scene.tells {
        write_back(scene.time, scene.path, back_by(presence, aways), out)
    } else {
        Ok(())
    }
}
