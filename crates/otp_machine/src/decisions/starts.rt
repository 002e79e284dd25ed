//! The row of a child that is to be started (`specs/Starts` of the rules).

ghost use Rattle.std.specs.Prelude.{◌≡◌, position};
ghost use Rattle.otp_rules.specs.Starts.{is_due};
ghost use Rattle.otp_table.specs.Rows.{AreDefined};

use otp_rules::Due;
use otp_table::Row;

/// Whether the row is the one to be started.
pub fn is_due(due: &Due, row: &Row) -> bool
    ensures { result ≡ is_due due.now row.now }
{
    row.state.is_undefined() && row.id == due.id
}

fn first_due(rows: &[Row], due: &Due) -> Option<usize>
    ensures { result ≡ position (is_due due.now) rows.now }
{
    rows.iter().position(|row| is_due(due, row))
}

/// The place of the row to start. So many rows, the first, are not undefined: none of them is looked at.
pub fn find_due(rows: &[Row], defined: usize, due: &Due) -> Option<usize>
    requires { AreDefined defined rows.now }
    ensures { result ≡ position (is_due due.now) rows.now }
{
    let from = defined.min(rows.len());
    match first_due(&rows[from..], due) {
        None => None,
        Some(place) => Some(from + place),
    }
}
