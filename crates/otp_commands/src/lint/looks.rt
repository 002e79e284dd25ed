//! Ids that differ by letters that look the same.

ghost use Rattle.std.specs.Prelude.{◌≡◌};
ghost use Rattle.otp_commands.specs.Lint.{first_alike, look_alike, looks};

use crate::lint::below::LintedChild;
use otp_reason::Name;

/// A byte that stands for all that look as this one.
#[tactic(auto, unfolding(crate::specs::Lint::looks))]
fn looks(byte: u8) -> u8
    ensures { result ≡ looks byte }
{
    if byte == b'0' || byte == b'O' {
        b'o'
    } else if byte == b'1' || byte == b'I' {
        b'l'
    } else if byte == b'C'
        || byte == b'S'
        || byte == b'V'
        || byte == b'W'
        || byte == b'X'
        || byte == b'Z'
    {
        byte + 32
    } else {
        byte
    }
}

/// Whether two ids look the same.
fn look_alike(id: &[u8], other: &[u8]) -> bool
    ensures { result ≡ look_alike id.now other.now }
{
    match id {
        [] => match other {
            [] => true,
            [_, ..] => false,
        },
        [byte, bytes @ ..] => match other {
            [] => false,
            [next, others @ ..] => looks(*byte) == looks(*next) && look_alike(bytes, others),
        },
    }
}

/// The first id of these that looks like this one.
pub(crate) fn first_alike(id: &[u8], children: &[LintedChild]) -> Option<Name>
    ensures { result ≡ first_alike id.now children.now }
{
    let [child, others @ ..] = children else {
        return None;
    };
    if look_alike(child.spec.id.as_bytes(), id) {
        Some(child.spec.id)
    } else {
        first_alike(id, others)
    }
}
