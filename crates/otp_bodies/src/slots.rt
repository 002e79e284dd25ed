//! Which slots the children have.
ghost use Rattle.std.specs.Prelude.{◌≡◌, length};
ghost use Rattle.std.specs.List.{list_any};
ghost use Rattle.otp_spec.specs.declared.limits.TheConstants.{MAX_CHILDREN};
ghost use Rattle.otp_table.specs.Rows.{has_slot};
ghost use Rattle.otp_bodies.specs.Slots.{AreBelow, AreTaken};

use otp_spec::MAX_CHILDREN;
use otp_table::Row;

/// Which slots a row has.
pub(crate) fn taken_slots(rows: &[Row]) -> [bool; MAX_CHILDREN]
    ensures len { length result ≡ MAX_CHILDREN }
    ensures taken { AreTaken rows.now result }
{
    let mut taken = [false; MAX_CHILDREN];
    for row in rows {
        if row.slot < MAX_CHILDREN {
            taken[row.slot] = true;
        }
    }
    taken
}

/// Whether a row has this slot.
pub(crate) fn is_taken(rows: &[Row], taken: &[bool; MAX_CHILDREN], slot: usize) -> bool
    requires taken { AreTaken rows.now taken.now }
    requires below { AreBelow rows.now }
    ensures { result ≡ list_any (has_slot slot) rows.now }
{
    slot < MAX_CHILDREN && taken[slot]
}
