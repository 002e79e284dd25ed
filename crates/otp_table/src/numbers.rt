//! What is known of rows' numbers: the greatest, and whether they differ.

ghost use Rattle.std.specs.Prelude.{◌≡◌, ℕ, IsTrue, length};
ghost use Rattle.otp_table.specs.Marks.{number_at};
ghost use Rattle.otp_table.specs.Numbers.{AreApart, AreWithin, IsBound, IsOnlyAt};

use crate::marks::is_same;
use crate::row::Row;
use crate::search::has_number;

/// No number is above this one, once a row has the new one.
pub fn greatest_with(greatest: u64, new: Option<u64>) -> u64
    ensures { IsBound greatest new result }
{
    match new {
        None => greatest,
        Some(number) => greatest.max(number),
    }
}

/// Whether no row has the number but perhaps the one at the place, whose number is the old one. A number above all before, as
/// that of a child that is started, is nobody's: then no row is looked at.
fn is_only_at(rows: &[Row], greatest: u64, place: usize, old: Option<u64>, number: u64) -> bool
    requires within { AreWithin greatest (number_at rows.now) }
    requires apart { AreApart (number_at rows.now) }
    requires old { old ≡ number_at rows.now place }
    ensures { IsTrue result → IsOnlyAt place (Some number) (number_at rows.now) }
{
    if number > greatest {
        return true;
    }
    if is_same(old, Some(number)) {
        return true;
    }
    !has_number(rows, number)
}

/// Whether no two rows have one number, once the one at the place has the new one in place of the old one.
pub fn stay_apart(
    rows: &[Row],
    is_apart: bool,
    greatest: u64,
    place: usize,
    old: Option<u64>,
    new: Option<u64>,
) -> bool
    requires within { AreWithin greatest (number_at rows.now) }
    requires apart { IsTrue is_apart → AreApart (number_at rows.now) }
    requires old { old ≡ number_at rows.now place }
    ensures before { IsTrue result → IsTrue is_apart }
    ensures only { IsTrue result → IsOnlyAt place new (number_at rows.now) }
{
    if !is_apart {
        return false;
    }
    match new {
        None => true,
        Some(number) => is_only_at(rows, greatest, place, old, number),
    }
}
