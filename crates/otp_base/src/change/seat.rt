//! Which child takes which place of new specifications.

ghost use Rattle.std.specs.Prelude.{◌≡◌, ◌+◌, ◌≤◌, [], IfOk, length, position};
ghost use Rattle.otp_spec.specs.declared.limits.TheConstants.{MAX_CHILDREN};
ghost use Rattle.otp_table.specs.Rows.{has_id};
ghost use Rattle.otp_base.specs.Seats.{added_row, filled, kept_rows, named, respecified, rows_of, seat_of, seated, standing, vacant, without};

use otp_reason::Name;
use otp_spec::ChildSpec;
use otp_table::{Row, RowState, free_slot};
use std::alloc::{AllocError, Global};

/// What has the place of a specification.
#[derive(Clone, Copy, Debug, PartialEq, Eq)]
pub(crate) enum Seat {
    /// A child that there was.
    Kept(Row),
    /// One that is added.
    Added(ChildSpec),
}

/// The seats in the order of the specifications, and the children without one.
#[derive(Debug, Drop)]
pub(crate) struct Seating {
    pub(crate) seats: Vec<Seat>,
    pub(crate) left: Vec<Row>,
}

/// The child under another specification.
pub(crate) fn respecified(spec: &ChildSpec, row: Row) -> Row
    ensures { result ≡ respecified spec.now row }
{
    Row { spec: *spec, ..row }
}

fn seat_of(spec: &ChildSpec, row: Option<Row>) -> Seat
    ensures { result ≡ seat_of spec.now row }
{
    match row {
        Some(row) => Seat::Kept(respecified(spec, row)),
        None => Seat::Added(*spec),
    }
}

fn find_child(rows: &[Row], id: &Name) -> Option<usize>
    ensures { result ≡ position (has_id id.now) rows.now }
{
    rows.iter().position(|row| row.has_id(id))
}

/// Takes the first child with this id, if there is one.
fn take_child(rows: &mut Vec<Row>, id: &Name) -> Option<Row>
    ensures row { result ≡ named id.now rows.old.items }
    ensures rows { rows.new.items ≡ without id.now rows.old.items }
{
    match find_child(rows.as_slice(), id) {
        Some(place) => Some(rows.remove(place)),
        None => None,
    }
}

/// Gives each specification its seat.
pub(crate) fn seat_children(
    alloc: Global,
    rows: &[Row],
    specs: &[ChildSpec],
) -> Result<Seating, AllocError>
    ensures seats { IfOk result (λ all. all.seats.items ≡ (seated (standing rows.now) specs.now).seats) }
    ensures left { IfOk result (λ all. all.left.items ≡ (seated (standing rows.now) specs.now).left) }
{
    let mut left = Vec::new(alloc);
    left.extend_from_slice(rows)?;
    let mut seats = Vec::new(alloc);
    for spec in specs {
        let row = take_child(&mut left, &spec.id);
        seats.push(seat_of(spec, row))?;
    }
    Ok(Seating { seats, left })
}

fn list_kept(alloc: Global, seats: &[Seat]) -> Result<Vec<Row>, AllocError>
    ensures { IfOk result (λ rows. rows.items ≡ kept_rows seats.now) }
{
    let mut rows = Vec::new(alloc);
    for seat in seats {
        if let Seat::Kept(row) = seat {
            rows.push(*row)?;
        }
    }
    Ok(rows)
}

fn added_row(spec: &ChildSpec, used: &[Row]) -> Row
    requires { length used.now ≤ MAX_CHILDREN }
    ensures { result ≡ added_row spec.now used.now }
{
    Row {
        slot: free_slot(used),
        id: Some(spec.id),
        spec: *spec,
        state: RowState::Undefined,
    }
}

/// The rows of the seats, where those whose slots are taken are given.
fn fill(alloc: Global, mut used: Vec<Row>, seats: &[Seat]) -> Result<Vec<Row>, AllocError>
    requires { length used.items + vacant seats.now ≤ MAX_CHILDREN }
    ensures { IfOk result (λ rows. rows.items ≡ filled used.items [] seats.now) }
{
    let mut rows = Vec::new(alloc);
    for seat in seats {
        let row = match seat {
            Seat::Kept(row) => *row,
            Seat::Added(spec) => {
                let row = added_row(spec, used.as_slice());
                used.push(row)?;
                row
            }
        };
        rows.push(row)?;
    }
    Ok(rows)
}

/// The rows of all seats.
pub(crate) fn rows_of(alloc: Global, seats: &[Seat]) -> Result<Vec<Row>, AllocError>
    requires { length seats.now ≤ MAX_CHILDREN }
    ensures { IfOk result (λ rows. rows.items ≡ rows_of seats.now) }
{
    let used = list_kept(alloc, seats)?;
    fill(alloc, used, seats)
}
