ghost use Rattle.std.specs.Prelude.{◌≡◌, ◌≤◌, ◌↔◌, IsTrue, length};
ghost use Rattle.std.specs.Option.{SomeIff};
ghost use Rattle.std.specs.List.{list_all};
ghost use Rattle.otp_reason.specs.Names.{name_bytes, name_of, is_name_byte, is_lawful_name};
ghost use Rattle.otp_reason.specs.declared.name.TheConstants.{NAME_SIZE};

/// The most bytes that a name holds (own).
pub const NAME_SIZE: usize = 32;

/// A child's id, or the name of its start function's module: at most [`NAME_SIZE`] bytes, kept in place.
///
/// Erlang takes any term as an id; here it is a name, so that a specification takes no memory.
/// Two names are equal where they show the same bytes.
#[derive(Clone, Copy, Debug)]
pub struct Name {
    // The bytes, and zeros from `len` on.
    bytes: [u8; NAME_SIZE],
    len: u8,
}

impl Name {
    /// The name that shows these bytes, whatever they are; `None` where they are more than [`NAME_SIZE`].
    ///
    /// Whether the name is one that a specification may have is what [`Name::is_lawful`] answers.
    pub fn new(bytes: &[u8]) -> Option<Self>
        ensures { SomeIff result (length bytes.now ≤ NAME_SIZE) (name_of bytes.now) }
    {
        if bytes.len() > NAME_SIZE {
            return None;
        }
        let mut kept = [0; NAME_SIZE];
        kept[..bytes.len()].copy_from_slice(bytes);
        Some(Name {
            bytes: kept,
            len: bytes.len() as u8,
        })
    }

    /// The bytes that the name shows.
    pub fn as_bytes(&self) -> &[u8]
        ensures { result.now ≡ name_bytes self.now }
    {
        &self.bytes[..usize::from(self.len).min(NAME_SIZE)]
    }

    /// Whether the other name is this one in every byte that is kept, those that it doesn't show too. Then one can
    /// stand for the other, which `==` alone doesn't tell.
    pub fn is_same(&self, other: &Name) -> bool
        ensures { IsTrue result ↔ (self.now ≡ other.now) }
    {
        self.len == other.len && self.bytes == other.bytes
    }

    /// Whether the name has 1 to [`NAME_SIZE`] bytes, each of them one of `a-z A-Z 0-9 _ - .`.
    pub fn is_lawful(&self) -> bool
        ensures { result ≡ is_lawful_name (name_bytes self.now) }
    {
        let bytes = self.as_bytes();
        match bytes.len() {
            1..=NAME_SIZE => all_may_stand_in_name(bytes),
            _ => false,
        }
    }
}

/// Whether each byte is one of `a-z A-Z 0-9 _ - .`.
fn all_may_stand_in_name(bytes: &[u8]) -> bool
    ensures { result ≡ list_all is_name_byte bytes.now }
{
    bytes.iter().all(|byte| may_stand_in_name(*byte))
}

/// Whether the byte is one of `a-z A-Z 0-9 _ - .`.
fn may_stand_in_name(byte: u8) -> bool
    ensures { result ≡ is_name_byte byte }
{
    matches!(byte, b'a'..=b'z' | b'A'..=b'Z' | b'0'..=b'9' | b'_' | b'-' | b'.')
}

impl PartialEq for Name {
    ghost use Rattle.std.specs.Str.{bytes_eq};
    ghost use Rattle.std.proofs.Common.{rules};
    ghost use Rattle.std.specs.Cmp.Rules.{comparing};
    ghost use Rattle.std.specs.Ordering.{on};

    ghost eq = { on name_bytes bytes_eq };

    ghost laws = { Prim.search (comparing, rules) };

    fn eq(&self, other: &Name) -> bool {
        self.as_bytes() == other.as_bytes()
    }
}

impl Eq for Name {
    ghost use Rattle.std.proofs.Common.{rules};
    ghost use Rattle.std.specs.Cmp.Rules.{comparing};

    ghost laws = { Prim.search (comparing, rules) };
}
