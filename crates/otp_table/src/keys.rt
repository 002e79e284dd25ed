//! The keys of rows: their numbers, and the fingerprints of their ids, by which they are marked.

ghost use Rattle.std.specs.Prelude.{◌≡◌, ◌<◌, length};
ghost use Rattle.otp_reason.specs.Names.{name_bytes};
ghost use Rattle.otp_table.specs.Keys.{fingerprint, id_key, mixed, print_of};
ghost use Rattle.otp_table.specs.Marks.{id_at, number_at};
ghost use Rattle.otp_table.specs.declared.keys.TheConstants.{FNV_START};

use crate::row::Row;
use otp_reason::Name;

/// What FNV-1a begins with, where a hash has 64 bits.
const FNV_START: u64 = 0xcbf2_9ce4_8422_2325;

/// What it multiplies by at each byte.
const FNV_PRIME: u64 = 0x100_0000_01b3;

/// The number of the row at the place.
pub fn number_in(rows: &[Row], place: usize) -> Option<u64>
    requires { place < length rows.now }
    ensures { result ≡ number_at rows.now place }
{
    rows[place].state.number()
}

/// The fingerprint of the id of the row at the place.
pub fn id_in(rows: &[Row], place: usize) -> Option<u64>
    requires { place < length rows.now }
    ensures { result ≡ id_at rows.now place }
{
    id_key(&rows[place])
}

/// The fingerprint of the row's id. A dynamic row has none.
pub fn id_key(row: &Row) -> Option<u64>
    ensures { result ≡ id_key row.now }
{
    match row.id {
        None => None,
        Some(id) => Some(fingerprint(&id)),
    }
}

/// A number that is the same for names that show the same bytes, and hardly ever for others.
#[tactic(auto, unfolding(crate::specs::Keys::fingerprint))]
pub fn fingerprint(name: &Name) -> u64
    ensures { result ≡ fingerprint name.now }
{
    print_of(name.as_bytes())
}

/// The FNV-1a hash of these bytes.
fn print_of(bytes: &[u8]) -> u64
    ensures { result ≡ print_of FNV_START bytes.now }
{
    let mut print = FNV_START;
    for byte in bytes {
        print = mixed(print, *byte);
    }
    print
}

/// One byte more.
#[tactic(auto, unfolding(crate::specs::Keys::mixed))]
fn mixed(print: u64, byte: u8) -> u64
    ensures { result ≡ mixed print byte }
{
    (print ^ byte as u64).wrapping_mul(FNV_PRIME)
}
