//! Marks of ids: an id whose mark no earlier one has is a new one, at one look.

ghost use Rattle.std.specs.Prelude.{◌≡◌, ◌<◌};
ghost use Rattle.otp_reason.specs.Names.{name_bytes};
ghost use Rattle.otp_spec.specs.Marks.{mark_from, mark_of, mixed};

use otp_reason::Name;

/// So many marks: among the ids of a full supervisor few have one mark.
pub(crate) const MARKS: usize = 4096;

/// The mark of an id: the same for names that show the same bytes.
#[tactic(auto, unfolding(crate::specs::Marks::mark_of))]
pub(crate) fn mark_of(id: &Name) -> usize
    ensures mark { result ≡ mark_of id.now }
    ensures limit { result < MARKS }
{
    mark_from(id.as_bytes())
}

/// The mark of these bytes.
fn mark_from(bytes: &[u8]) -> usize
    ensures mark { result ≡ mark_from 0 bytes.now }
    ensures limit { result < MARKS }
{
    let mut mark = 0;
    for byte in bytes {
        mark = mixed(mark, *byte);
    }
    mark
}

/// The mark with one byte more.
fn mixed(mark: usize, byte: u8) -> usize
    requires { mark < MARKS }
    ensures mark { result ≡ mixed mark byte }
    ensures limit { result < MARKS }
{
    (mark * 31 + byte as usize) % MARKS
}
