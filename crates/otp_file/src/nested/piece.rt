//! Pieces of a text.

use std::marker::Model;

/// What is said of a supervisor and all below it. Contracts see its bytes.
#[derive(Drop)]
pub struct NestedText {
    bytes: Vec<u8>,
}

impl Model for NestedText {
    ghost use Rattle.std.specs.Prelude.{ℕ, List};

    ghost Value = { List ℕ };

    ghost view = { λ a. a.bytes.items };
}

impl NestedText {
    ghost use Rattle.std.specs.Prelude.{◌≡◌};

    /// These bytes.
    pub(crate) fn new(bytes: Vec<u8>) -> Self
        ensures { result ≡ bytes.items }
    {
        NestedText { bytes }
    }

    /// All of it.
    pub fn as_bytes(&self) -> &[u8]
        ensures { result.now ≡ self.now }
    {
        &self.bytes
    }
}

ghost use Rattle.std.specs.Prelude.{◌≡◌, option_map};
ghost use Rattle.otp_file.specs.Nested.{sub_at};

/// What is said of the tree of the child at this place, if it has one: those at these places have.
pub fn sub_at<'e>(place: usize, nested: &[usize], each: &'e [NestedText]) -> Option<&'e NestedText>
    ensures { option_map (λ piece. piece.now) result ≡ sub_at place nested.now each.now }
{
    let [other, others @ ..] = nested else {
        return None;
    };
    let [piece, rest @ ..] = each else {
        return None;
    };
    if *other == place {
        Some(piece)
    } else {
        sub_at(place, others, rest)
    }
}
