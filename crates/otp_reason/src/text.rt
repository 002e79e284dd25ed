ghost use Rattle.std.specs.Prelude.{◌≡◌, ◌+◌, ◌≤◌, ◌++◌, IsTrue, drop, length, take};
ghost use Rattle.std.specs.Option.{SomeIff};
ghost use Rattle.std.specs.List.{list_all};
ghost use Rattle.otp_reason.specs.Texts.{text_block, text_bytes, text_of, text_with, is_text_byte, is_lawful_text};
ghost use Rattle.otp_reason.specs.declared.text.TheConstants.{TEXT_SIZE};

/// The most bytes that a text holds (own).
pub const TEXT_SIZE: usize = 64;

/// The term of a reason: 1 to [`TEXT_SIZE`] printable bytes with no space among them (0x21 to 0x7E), kept in place.
///
/// Erlang takes any term; here it is a text of fixed size, so that a reason takes no memory. [`Text::new`] tests the bytes;
/// [`Text::joined`] and [`Text::of_parts`] don't, and make whatever text their caller's bytes show.
/// Two texts are equal where they show the same bytes.
#[derive(Clone, Copy, Debug)]
pub struct Text {
    // The bytes, and zeros from `len` on.
    bytes: [u8; TEXT_SIZE],
    len: u8,
}

impl Text {
    /// The text that shows these bytes; `None` for anything but 1 to [`TEXT_SIZE`] bytes from 0x21 to 0x7E.
    pub fn new(bytes: &[u8]) -> Option<Self>
        ensures { SomeIff result (IsTrue (is_lawful_text bytes.now)) (text_of bytes.now) }
    {
        if !may_be_text(bytes) {
            return None;
        }
        let mut kept = [0; TEXT_SIZE];
        kept[..bytes.len()].copy_from_slice(bytes);
        Some(Text {
            bytes: kept,
            len: bytes.len() as u8,
        })
    }

    /// The text of these bytes followed by those, which the caller knows to be lawful bytes of a text.
    pub fn joined(front: &[u8], back: &[u8]) -> Self
        requires { length front.now + length back.now ≤ TEXT_SIZE }
        ensures { result ≡ text_of (front.now ++ back.now) }
    {
        let end = front.len() + back.len();
        let mut kept = [0; TEXT_SIZE];
        write_at(&mut kept, 0, front);
        write_at(&mut kept, front.len(), back);
        Text {
            bytes: kept,
            len: end as u8,
        }
    }

    /// All bytes that are kept, those that the text doesn't show too, and how many it shows: for whoever keeps many texts.
    pub fn parts(&self) -> ([u8; TEXT_SIZE], u8)
        ensures block { result.0 ≡ text_block self.now }
        ensures text { text_with result.0 result.1 ≡ self.now }
    {
        (self.bytes, self.len)
    }

    /// The text of the [`parts`](Text::parts) of one.
    pub fn of_parts(bytes: [u8; TEXT_SIZE], len: u8) -> Self
        ensures { result ≡ text_with bytes len }
    {
        Text { bytes, len }
    }

    /// The bytes that the text shows.
    pub fn as_bytes(&self) -> &[u8]
        ensures { result.now ≡ text_bytes self.now }
    {
        &self.bytes[..usize::from(self.len).min(TEXT_SIZE)]
    }
}

/// Writes the bytes over those from a place on.
fn write_at(buffer: &mut [u8], at: usize, bytes: &[u8])
    requires { at + length bytes.now ≤ length buffer.old }
    ensures { buffer.new ≡ take at buffer.old ++ (bytes.now ++ drop (at + length bytes.now) buffer.old) }
{
    let end = at + bytes.len();
    buffer[at..end].copy_from_slice(bytes);
}

/// Whether these are 1 to [`TEXT_SIZE`] bytes from 0x21 to 0x7E.
fn may_be_text(bytes: &[u8]) -> bool
    ensures { result ≡ is_lawful_text bytes.now }
{
    match bytes.len() {
        1..=TEXT_SIZE => all_may_stand_in_text(bytes),
        _ => false,
    }
}

/// Whether each byte is printable and no space.
fn all_may_stand_in_text(bytes: &[u8]) -> bool
    ensures { result ≡ list_all is_text_byte bytes.now }
{
    bytes.iter().all(|byte| may_stand_in_text(*byte))
}

/// Whether the byte is printable and no space.
fn may_stand_in_text(byte: u8) -> bool
    ensures { result ≡ is_text_byte byte }
{
    matches!(byte, 0x21..=0x7E)
}

impl PartialEq for Text {
    ghost use Rattle.std.specs.Str.{bytes_eq};
    ghost use Rattle.std.proofs.Common.{rules};
    ghost use Rattle.std.specs.Cmp.Rules.{comparing};
    ghost use Rattle.std.specs.Ordering.{on};

    ghost eq = { on text_bytes bytes_eq };

    ghost laws = { Prim.search (comparing, rules) };

    fn eq(&self, other: &Text) -> bool {
        self.as_bytes() == other.as_bytes()
    }
}

impl Eq for Text {
    ghost use Rattle.std.proofs.Common.{rules};
    ghost use Rattle.std.specs.Cmp.Rules.{comparing};

    ghost laws = { Prim.search (comparing, rules) };
}
