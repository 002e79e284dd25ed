//! Whose child each supervisor of a tree is, and how it stands.

ghost use Rattle.std.specs.Prelude.{◌≡◌, option_map, position};
ghost use Rattle.std.specs.List.{list_any};
ghost use Rattle.otp_driver.specs.Links.{asked, begun, first_link, gone, holds_process, is_link_near, is_link_of, is_link_under, nested_of, note_of_end, runs, told, up};

use otp_reason::{Note, Reason};
use otp_rules::Ending;
use otp_spec::ChildSpec;
use otp_table::Row;

/// Whose child a supervisor is, and how it stands.
#[derive(Clone, Copy, Debug, PartialEq, Eq)]
pub struct Link {
    /// The number of its parent; the root's is 0.
    pub parent: usize,
    /// The child that it is, as the tree file has it; the root is none.
    pub child: Option<ChildSpec>,
    /// The number of its process, while it has one. The root has none that its parent gave.
    pub process: Option<u64>,
    /// It has told its parent that it is up.
    pub is_up: bool,
    /// It is wanted to shut down.
    pub is_stopping: bool,
    /// How often its parent has started it.
    pub starts: u64,
    /// Why it ended last, as it told its parent.
    pub ended: Option<Ending>,
}

impl Link {
    /// A supervisor that was not started yet.
    pub fn new(parent: usize, child: Option<ChildSpec>) -> Self
        ensures { result ≡ first_link parent child }
    {
        Link {
            parent,
            child,
            process: None,
            is_up: false,
            is_stopping: false,
            starts: 0,
            ended: None,
        }
    }

    /// This link once its supervisor was started under this number.
    pub fn begun(self, process: u64) -> Link
        ensures { result ≡ begun process self }
    {
        Link {
            process: Some(process),
            is_up: false,
            is_stopping: false,
            starts: self.starts.saturating_add(1),
            ..self
        }
    }

    /// This link once its supervisor is wanted to shut down.
    pub fn asked(self) -> Link
        ensures { result ≡ asked self }
    {
        Link {
            is_stopping: true,
            ..self
        }
    }

    /// This link once its supervisor has told its parent this, and why it ended, where it did.
    #[tactic(auto, unfolding(crate::specs::Links::told))]
    pub fn told(self, note: Note, ended: Option<Ending>) -> Link
        ensures { result ≡ told note ended self }
    {
        match note {
            Note::Up(_) => self.up(),
            _ => self.gone(ended),
        }
    }

    /// This link once its supervisor has told its parent that it is up.
    pub fn up(self) -> Link
        ensures { result ≡ up self }
    {
        Link {
            is_up: true,
            ..self
        }
    }

    /// This link once its supervisor has no process any more, and why it ended, where that is known.
    pub fn gone(self, ended: Option<Ending>) -> Link
        ensures { result ≡ gone ended self }
    {
        Link {
            process: None,
            is_up: false,
            ended,
            ..self
        }
    }

    /// Whether it runs, or may: the root always.
    pub fn runs(&self, place: usize) -> bool
        ensures { result ≡ runs place self.now }
    {
        place == 0 || self.process.is_some()
    }

    /// Whether it is a child of this supervisor.
    pub(crate) fn is_under(&self, parent: usize) -> bool
        ensures { result ≡ is_link_under parent self.now }
    {
        self.parent == parent && self.child.is_some()
    }

    /// Whether it is the child that this row of its parent has.
    pub(crate) fn is_of(&self, parent: usize, row: &Row) -> bool
        ensures { result ≡ is_link_of parent row.now self.now }
    {
        match self.child {
            None => false,
            Some(spec) => self.parent == parent
                && row.has_id(&spec.id)
                && row.spec.start == spec.start
                && row.is_supervisor(),
        }
    }

    /// Whether it runs as the process of this number, a child of this supervisor.
    pub(crate) fn holds(&self, parent: usize, number: u64) -> bool
        ensures { result ≡ holds_process parent number self.now }
    {
        match self.process {
            None => false,
            Some(process) => self.parent == parent && process == number,
        }
    }
}

/// Whether a child of this supervisor is a supervisor of the tree.
pub fn has_nested(links: &[Link], parent: usize) -> bool
    ensures { result ≡ list_any (is_link_under parent) links.now }
{
    links.iter().any(|link| link.is_under(parent))
}

/// Whether a child of this supervisor is a supervisor of the tree, or one runs as the process of this number, a child of it.
pub fn may_be_nested(links: &[Link], parent: usize, number: u64) -> bool
    ensures { result ≡ list_any (is_link_near parent number) links.now }
{
    links
        .iter()
        .any(|link| link.is_under(parent) || link.holds(parent, number))
}

/// The supervisor that is the child which this row of its parent has.
pub fn find_row(links: &[Link], parent: usize, row: &Row) -> Option<usize>
    ensures { result ≡ position (is_link_of parent row.now) links.now }
{
    links.iter().position(|link| link.is_of(parent, row))
}

/// The supervisor of the tree that is this child of a supervisor, if it is one.
#[tactic(auto, unfolding(crate::specs::Links::nested_of))]
pub fn nested_of(links: &[Link], parent: usize, row: Option<&Row>) -> Option<usize>
    ensures { result ≡ nested_of links.now parent (option_map (λ r. r.now) row.entry) }
{
    match row {
        None => None,
        Some(row) => find_row(links, parent, row),
    }
}

/// The supervisor that runs as the process of this number, a child of this supervisor.
pub fn find_process(links: &[Link], parent: usize, number: u64) -> Option<usize>
    ensures { result ≡ position (holds_process parent number) links.now }
{
    links.iter().position(|link| link.holds(parent, number))
}

/// What a supervisor tells its parent when it ends: that its start has failed, if it never was up.
pub fn note_of_end(is_up: bool, number: u64, reason: Reason) -> Note
    ensures { result ≡ note_of_end is_up number reason }
{
    if is_up {
        Note::Exit(number, reason)
    } else {
        Note::Failed(number, reason)
    }
}
