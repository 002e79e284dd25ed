//! Which children are asked for.

ghost use Rattle.std.specs.Prelude.{◌≡◌, ◌≤◌, IfOk, OnOk};
ghost use Rattle.std.specs.List.{list_any};
ghost use Rattle.std.specs.Str.{bytes_eq};
ghost use Rattle.otp_costs.specs.Groups.{below, is_wanted};
ghost use Rattle.otp_costs.specs.Told.{is_all, most_of};
ghost use Rattle.otp_costs.specs.declared.table.TheConstants.{SHOWN};

use crate::limits::supervisor_path;
use otp_reason::Name;
use std::alloc::AllocError;

/// Which children of a tree are asked for.
#[derive(Clone, Copy, Debug, PartialEq, Eq)]
pub enum Pick<'a> {
    /// All of them.
    All,
    /// The one with this name: the ids of the supervisors from the root's child on, each with a `/` behind it, and its own id.
    Child(&'a str),
    /// Those of the supervisor with this name, which is `root` for the root.
    Table(&'a str),
}

/// Puts the name of a child of a supervisor with this path in the place of a text.
///
/// # Errors
///
/// Where memory is refused.
pub fn put_below(path: &[u8], name: &Name, word: &mut Vec<u8>) -> Result<(), AllocError>
    ensures { OnOk result (word.new.items ≡ below path.now name.now) }
{
    word.clear();
    word.extend_from_slice(path)?;
    word.extend_from_slice(name.as_bytes())
}

/// Whether two texts are the same.
pub(crate) fn is_text(one: &[u8], other: &[u8]) -> bool
    ensures { result ≡ bytes_eq one.now other.now }
{
    one == other
}

/// Whether one of these children of a supervisor with this path has this name.
pub(crate) fn has_child(
    path: &[u8],
    names: &[Name],
    whole: &[u8],
    word: &mut Vec<u8>,
) -> Result<bool, AllocError>
    ensures { IfOk result (λ found. found ≡ list_any (λ name. bytes_eq (below path.now name) whole.now) names.now) }
{
    for name in names {
        put_below(path, name, word)?;
        if is_text(word.as_slice(), whole) {
            return Ok(true);
        }
    }
    Ok(false)
}

/// The most children in a list of which all are shown.
const FEW: usize = 12;

/// More than a list has.
const ALL: usize = 1000;

impl<'a> Pick<'a> {
    /// So many children of a list are shown at the most, and of more the first: all where one child is asked for.
    #[tactic(auto, unfolding(crate::specs::Told::most_of))]
    pub fn most(&self) -> usize
        ensures value { result ≡ most_of self.now }
        ensures least { SHOWN ≤ result }
    {
        match self {
            Pick::Child(_) => ALL,
            Pick::All | Pick::Table(_) => FEW,
        }
    }

    /// Whether all children are asked for.
    #[tactic(auto, unfolding(crate::specs::Told::is_all))]
    pub fn is_all(&self) -> bool
        ensures { result ≡ is_all self.now }
    {
        match self {
            Pick::All => true,
            Pick::Child(_) | Pick::Table(_) => false,
        }
    }

    /// Whether a group of these children of a supervisor with this path is asked for. The word is a place for a text.
    #[tactic(auto, unfolding(crate::specs::Groups::is_wanted))]
    pub fn wants(&self, path: &[u8], names: &[Name], word: &mut Vec<u8>) -> Result<bool, AllocError>
        ensures { IfOk result (λ wanted. wanted ≡ is_wanted self.now path.now names.now) }
    {
        match self {
            Pick::All => Ok(true),
            Pick::Child(whole) => has_child(path, names, whole.as_bytes(), word),
            Pick::Table(whole) => Ok(is_text(supervisor_path(path), whole.as_bytes())),
        }
    }
}
