//! A short text that is made on the stack. It is appended at once, for about what one of its words would take.

ghost use Rattle.std.specs.Prelude.{◌≡◌, ◌+◌, ◌≤◌, ◌++◌, length, take};

use itoa::Buffer;
use std::marker::Model;

/// How many bytes a short text has room for: those of an order to a child, whose id and number have the greatest length, are
/// 61.
const SHORT_SIZE: usize = 64;

/// A text in the making. Contracts see its bytes.
#[derive(Drop)]
pub(crate) struct ShortText {
    bytes: [u8; SHORT_SIZE],
    /// So many of them, the first, were added.
    len: usize,
}

impl Model for ShortText {
    ghost use Rattle.std.specs.Prelude.{◌≡◌, ◌≤◌, ℕ, List, length, take};
    ghost use Rattle.otp_text.specs.declared.short.TheConstants.{SHORT_SIZE};

    ghost Value = { List ℕ };

    ghost view = { λ text. take text.len text.bytes };

    ghost invariant = { λ text. (text.len ≤ SHORT_SIZE) × (length text.bytes ≡ SHORT_SIZE) };
}

impl ShortText {
    ghost use Rattle.std.specs.Prelude.{[], OnSome, decimal};
    ghost use Rattle.otp_text.specs.Values.{process_text};

    /// No bytes.
    pub(crate) fn new() -> Self
        ensures { result ≡ [] }
    {
        ShortText {
            bytes: [0; SHORT_SIZE],
            len: 0,
        }
    }

    pub(crate) fn as_bytes(&self) -> &[u8]
        ensures { result.now ≡ self.now }
    {
        &self.bytes[..self.len]
    }

    /// Adds bytes, if there is room for them. Whoever has none appends what is to be said word by word.
    pub(crate) fn add(&mut self, bytes: &[u8]) -> Option<()>
        ensures { OnSome result (self.new ≡ self.old ++ bytes.now) }
    {
        if bytes.len() > SHORT_SIZE - self.len {
            return None;
        }
        copy_in(&mut self.bytes, self.len, bytes);
        self.len += bytes.len();
        Some(())
    }

    /// Adds a number in decimal digits.
    pub(crate) fn add_number(&mut self, number: u64) -> Option<()>
        ensures { OnSome result (self.new ≡ self.old ++ decimal number) }
    {
        let mut buffer = Buffer::new();
        self.add(buffer.format(number).as_bytes())
    }

    /// Adds a process number: `#` and the digits.
    #[tactic(auto, unfolding(crate::specs::Values::process_text))]
    pub(crate) fn add_process(&mut self, number: u64) -> Option<()>
        ensures { OnSome result (self.new ≡ self.old ++ process_text number) }
    {
        self.add(b"#")?;
        self.add_number(number)
    }
}

/// Writes these bytes over those from a place on.
fn copy_in(bytes: &mut [u8], start: usize, source: &[u8])
    requires { start + length source.now ≤ length bytes.old }
    ensures front { take (start + length source.now) bytes.new ≡ take start bytes.old ++ source.now }
    ensures len { length bytes.new ≡ length bytes.old }
{
    bytes[start..start + source.len()].copy_from_slice(source);
}
