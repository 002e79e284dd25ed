//! Which rows go away (`specs/Places` of the rules).

ghost use Rattle.std.specs.Prelude.{◌≡◌};
ghost use Rattle.otp_rules.specs.Places.{is_removed, is_temporary};

use otp_spec::Restart;
use otp_table::Row;

pub fn is_temporary(restart: Restart) -> bool
    ensures { result ≡ is_temporary restart }
{
    match restart {
        Restart::Permanent | Restart::Transient => false,
        Restart::Temporary => true,
    }
}

/// Whether the row goes away where it would become undefined.
pub fn is_removed(row: &Row) -> bool
    ensures { result ≡ is_removed row.now }
{
    is_temporary(row.spec.restart) || row.id.is_none()
}
