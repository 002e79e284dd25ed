//! Searches over rows.

ghost use Rattle.std.specs.Prelude.{◌≡◌, ◌<◌, ◌≤◌, ℕ, false, get_or, length, position};
ghost use Rattle.std.specs.List.{list_any};
ghost use Rattle.otp_table.specs.Marks.{AreMarks, Rises, id_at, number_at};
ghost use Rattle.otp_table.specs.Numbers.{AreApart};
ghost use Rattle.otp_table.specs.declared.row.Row.{Row};
ghost use Rattle.otp_table.specs.Rows.{awaits_retry, free_slot, has_id, has_number, has_process, has_slot, row_has, slot_of};

use crate::keys::fingerprint;
use crate::marks::{Mark, find_mark};
use crate::row::Row;
use otp_reason::Name;
use otp_spec::MAX_CHILDREN;

/// The place of the first row with this id.
pub fn find_id(rows: &[Row], id: &Name) -> Option<usize>
    ensures { result ≡ position (has_id id.now) rows.now }
{
    rows.iter().position(|row| row.has_id(id))
}

/// The place of the first row whose process, or waiting retry, has this number.
pub fn find_number(rows: &[Row], number: u64) -> Option<usize>
    ensures { result ≡ position (row_has (has_number number)) rows.now }
{
    rows.iter().position(|row| row.state.has_number(number))
}

/// Whether a row's process, or waiting retry, has this number.
pub fn has_number(rows: &[Row], number: u64) -> bool
    ensures { result ≡ list_any (row_has (has_number number)) rows.now }
{
    rows.iter().any(|row| row.state.has_number(number))
}

/// The place of the first row whose process has this number.
pub fn find_process(rows: &[Row], number: u64) -> Option<usize>
    ensures { result ≡ position (row_has (has_process number)) rows.now }
{
    rows.iter().position(|row| row.state.has_process(number))
}

/// The place of the first row that waits for the retry of this number.
pub fn find_retry(rows: &[Row], number: u64) -> Option<usize>
    ensures { result ≡ position (row_has (awaits_retry number)) rows.now }
{
    rows.iter().position(|row| row.state.awaits_retry(number))
}

fn has_id_at(rows: &[Row], place: usize, id: &Name) -> bool
    requires { place < length rows.now }
    ensures { (d : Row) → result ≡ has_id id.now (get_or rows.now place d) }
{
    rows[place].has_id(id)
}

/// The place of the first row with this id, by the marks.
pub fn id_marked(rows: &[Row], marks: &[Mark], id: &Name) -> Option<usize>
    requires rises { Rises marks.now }
    requires marks { AreMarks (id_at rows.now) marks.now }
    ensures { result ≡ position (has_id id.now) rows.now }
{
    match find_mark(marks, fingerprint(id)) {
        None => None,
        Some(place) => {
            if has_id_at(rows, place, id) {
                Some(place)
            } else {
                None
            }
        }
    }
}

fn has_number_at(rows: &[Row], place: usize, number: u64) -> bool
    requires { place < length rows.now }
    ensures { (d : Row) → result ≡ has_number number (get_or rows.now place d).state }
{
    rows[place].state.has_number(number)
}

fn has_process_at(rows: &[Row], place: usize, number: u64) -> bool
    requires { place < length rows.now }
    ensures { (d : Row) → result ≡ has_process number (get_or rows.now place d).state }
{
    rows[place].state.has_process(number)
}

fn awaits_retry_at(rows: &[Row], place: usize, number: u64) -> bool
    requires { place < length rows.now }
    ensures { (d : Row) → result ≡ awaits_retry number (get_or rows.now place d).state }
{
    rows[place].state.awaits_retry(number)
}

/// The place of the row whose process, or waiting retry, has this number, where no two rows have one. The given place is looked
/// at first.
pub fn number_near(rows: &[Row], place: usize, number: u64) -> Option<usize>
    requires { AreApart (number_at rows.now) }
    ensures { result ≡ position (row_has (has_number number)) rows.now }
{
    if place < rows.len() && has_number_at(rows, place, number) {
        Some(place)
    } else {
        find_number(rows, number)
    }
}

/// The place of the row whose process has this number, where no two rows have one. The given place is looked at first.
pub fn process_near(rows: &[Row], place: usize, number: u64) -> Option<usize>
    requires { AreApart (number_at rows.now) }
    ensures { result ≡ position (row_has (has_process number)) rows.now }
{
    if place < rows.len() && has_process_at(rows, place, number) {
        Some(place)
    } else {
        find_process(rows, number)
    }
}

/// The place of the row that waits for the retry of this number, where no two rows have one. The given place is looked at first.
pub fn retry_near(rows: &[Row], place: usize, number: u64) -> Option<usize>
    requires { AreApart (number_at rows.now) }
    ensures { result ≡ position (row_has (awaits_retry number)) rows.now }
{
    if place < rows.len() && awaits_retry_at(rows, place, number) {
        Some(place)
    } else {
        find_retry(rows, number)
    }
}

/// The slot of the first row whose process has this number.
pub fn slot_of(rows: &[Row], number: u64) -> Option<usize>
    ensures { result ≡ slot_of number rows.now }
{
    for row in rows {
        if row.state.has_process(number) {
            return Some(row.slot);
        }
    }
    None
}

/// Which slots below [`MAX_CHILDREN`] a row has.
fn taken_slots(rows: &[Row]) -> [bool; MAX_CHILDREN]
    ensures len { length result ≡ MAX_CHILDREN }
    ensures taken { (slot : ℕ) → slot < MAX_CHILDREN → get_or result slot false ≡ list_any (has_slot slot) rows.now }
{
    let mut taken = [false; MAX_CHILDREN];
    for row in rows {
        if row.slot < MAX_CHILDREN {
            taken[row.slot] = true;
        }
    }
    taken
}

/// The least slot that no row has.
#[tactic(auto, unfolding(crate::specs::Rows::free_slot))]
pub fn free_slot(rows: &[Row]) -> usize
    requires { length rows.now ≤ MAX_CHILDREN }
    ensures slot { result ≡ free_slot rows.now }
    ensures limit { result ≤ length rows.now }
{
    let taken = taken_slots(rows);
    let mut slot = 0;
    while slot < rows.len() {
        if !taken[slot] {
            return slot;
        }
        slot += 1;
    }
    slot
}
