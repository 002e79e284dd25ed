//! A remark on a tree.

use otp_reason::Name;
use std::alloc::{AllocError, Global};
use std::marker::Model;

/// What is remarked on a child, or on a supervisor.
#[derive(Clone, Copy, Debug)]
pub enum RemarkKind {
    /// The stop of a child may take so many milliseconds, longer than its supervisor's period, which has so many seconds.
    LongStop {
        stop: u64,
        period: u64,
    },
    /// A supervisor with an intensity of 0 has so many permanent children.
    NoRestart {
        children: usize,
    },
    /// A worker has for ever to stop.
    EndlessWorker,
    /// So many children have one start, more than this intensity.
    FanOut {
        children: usize,
        start: Name,
        intensity: u64,
    },
    /// A significant child never ends by itself.
    NeverEnds,
    /// The id of a child looks like this one, of an earlier sibling.
    AlikeId {
        other: Name,
    },
}

/// The ids from below the root on, with a `/` between them; none of the root. Contracts see the bytes.
#[derive(Drop)]
pub struct RemarkPath {
    bytes: Vec<u8>,
}

impl Model for RemarkPath {
    ghost use Rattle.std.specs.Prelude.{ℕ, List};

    ghost Value = { List ℕ };

    ghost view = { λ a. a.bytes.items };
}

impl RemarkPath {
    ghost use Rattle.std.specs.Prelude.{◌≡◌, ◌++◌, [], IfOk};
    ghost use Rattle.otp_reason.specs.Names.{name_bytes};
    ghost use Rattle.otp_commands.specs.Lint.{child_path};

    /// The path of the root.
    pub(crate) fn root(alloc: Global) -> Self
        ensures { result ≡ [] }
    {
        RemarkPath {
            bytes: Vec::new(alloc),
        }
    }

    /// A copy.
    pub(crate) fn copy(&self, alloc: Global) -> Result<Self, AllocError>
        ensures { IfOk result (λ path. path ≡ self.now) }
    {
        let mut bytes = Vec::new(alloc);
        bytes.extend_from_slice(self.bytes.as_slice())?;
        Ok(RemarkPath { bytes })
    }

    /// The path of a child of the supervisor that has this one.
    pub(crate) fn child(&self, alloc: Global, id: &Name) -> Result<Self, AllocError>
        ensures { IfOk result (λ path. path ≡ child_path self.now (name_bytes id.now)) }
    {
        let mut bytes = Vec::new(alloc);
        bytes.extend_from_slice(self.bytes.as_slice())?;
        if !bytes.is_empty() {
            bytes.extend_from_slice(b"/")?;
        }
        bytes.extend_from_slice(id.as_bytes())?;
        Ok(RemarkPath { bytes })
    }

    pub fn as_bytes(&self) -> &[u8]
        ensures { result.now ≡ self.now }
    {
        &self.bytes
    }
}

/// A remark on a tree.
#[derive(Drop)]
pub struct Remark {
    /// The number of a supervisor: the root's is 0, and others follow in the order of the walk.
    pub supervisor: usize,
    /// The place of that one of its children which is remarked on, from 0; none where it is itself.
    pub child: Option<usize>,
    /// The path of whom it is about.
    pub path: RemarkPath,
    pub kind: RemarkKind,
}

/// Remarks in their order. Contracts see them as a list.
#[derive(Drop)]
pub struct Remarks {
    remarks: Vec<Remark>,
}

impl Model for Remarks {
    ghost use Rattle.std.specs.Prelude.{List};
    ghost use Rattle.otp_commands.specs.declared.lint.remark.Remark.{Remark};

    ghost Value = { List Remark };

    ghost view = { λ a. a.remarks.items };
}

impl Remarks {
    ghost use Rattle.std.specs.Prelude.{◌≡◌, ◌∷◌, ◌++◌, [], OnOk};

    /// None yet.
    pub(crate) fn new(alloc: Global) -> Self
        ensures { result ≡ [] }
    {
        Remarks {
            remarks: Vec::new(alloc),
        }
    }

    pub fn as_slice(&self) -> &[Remark]
        ensures { result.now ≡ self.now }
    {
        &self.remarks
    }

    /// Puts a remark behind the others.
    pub(crate) fn push(&mut self, remark: Remark) -> Result<(), AllocError>
        ensures { OnOk result (self.new ≡ self.old ++ remark ∷ []) }
    {
        self.remarks.push(remark).map_err(|_| AllocError)
    }
}
