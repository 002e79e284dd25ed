ghost use Rattle.std.specs.Prelude.{◌≡◌};
ghost use Rattle.otp_file.specs.Faults.{child_fault, code_of, flag_fault};
ghost use Rattle.otp_file.specs.Tables.{child_key_text, flag_key_text};

use crate::value::Unfit;
use otp_spec::SpecFault;
use std::fmt;
use thiserror::Error;

/// The keys of a supervisor's table.
#[derive(Clone, Copy, Debug, PartialEq, Eq)]
pub enum FlagKey {
    Strategy,
    Intensity,
    Period,
    AutoShutdown,
    Child,
}

impl FlagKey {
    /// The key as the file has it and as it is printed.
    pub fn name(self) -> &'static str
        ensures { result.now ≡ flag_key_text self }
    {
        match self {
            FlagKey::Strategy => "strategy",
            FlagKey::Intensity => "intensity",
            FlagKey::Period => "period",
            FlagKey::AutoShutdown => "auto_shutdown",
            FlagKey::Child => "child",
        }
    }

    /// The fault of a supervisor whose value at this key is unfit.
    pub(crate) fn fault(self, unfit: Unfit) -> TreeFault
        ensures { result ≡ flag_fault self unfit }
    {
        match unfit {
            Unfit::WrongKind => TreeFault::WrongKind(FaultPlace::Flag(self)),
            Unfit::OutOfLimits => TreeFault::BadFlag(self),
        }
    }
}

impl fmt::Display for FlagKey {
    ghost use Rattle.std.specs.Prelude.{Some};

    ghost output = { λ key. Some (flag_key_text key) };

    fn fmt<W: fmt::Write>(&self, f: &mut fmt::Formatter<W>) -> fmt::Result {
        f.write_str(self.name())
    }
}

/// The keys of a child's table.
#[derive(Clone, Copy, Debug, PartialEq, Eq)]
pub enum ChildKey {
    Id,
    Start,
    Restart,
    Significant,
    Shutdown,
    Kind,
    Modules,
    /// The table of a supervisor of its own.
    Tree,
}

impl ChildKey {
    /// The key as the file has it and as it is printed.
    pub fn name(self) -> &'static str
        ensures { result.now ≡ child_key_text self }
    {
        match self {
            ChildKey::Id => "id",
            ChildKey::Start => "start",
            ChildKey::Restart => "restart",
            ChildKey::Significant => "significant",
            ChildKey::Shutdown => "shutdown",
            ChildKey::Kind => "type",
            ChildKey::Modules => "modules",
            ChildKey::Tree => "tree",
        }
    }

    /// The fault of the child at `index` whose value at this key is unfit.
    pub(crate) fn fault(self, index: usize, unfit: Unfit) -> TreeFault
        ensures { result ≡ child_fault index self unfit }
    {
        match unfit {
            Unfit::WrongKind => TreeFault::WrongKind(FaultPlace::ChildKey(index, self)),
            Unfit::OutOfLimits => TreeFault::BadSpec { index, key: self },
        }
    }
}

impl fmt::Display for ChildKey {
    ghost use Rattle.std.specs.Prelude.{Some};

    ghost output = { λ key. Some (child_key_text key) };

    fn fmt<W: fmt::Write>(&self, f: &mut fmt::Formatter<W>) -> fmt::Result {
        f.write_str(self.name())
    }
}

/// A place in the file. An index is that of a child, from 0.
#[derive(Clone, Copy, Debug, PartialEq, Eq)]
pub enum FaultPlace {
    /// The supervisor's table.
    Table,
    /// A key of it.
    Flag(FlagKey),
    /// The child at an index.
    Child(usize),
    /// A key of that child.
    ChildKey(usize, ChildKey),
}

impl fmt::Display for FaultPlace {
    fn fmt<W: fmt::Write>(&self, f: &mut fmt::Formatter<W>) -> fmt::Result {
        match self {
            FaultPlace::Table => write!(f, "supervisor"),
            FaultPlace::Flag(key) => write!(f, "supervisor, {key}"),
            FaultPlace::Child(index) => write!(f, "child {index}"),
            FaultPlace::ChildKey(index, key) => write!(f, "child {index}, {key}"),
        }
    }
}

/// Why a tree file is refused. An index is that of a child, from 0.
#[derive(Clone, Copy, Debug, PartialEq, Eq, Error)]
pub enum TreeFault {
    /// E0: memory was refused, which says nothing of the file.
    #[error("out of memory")]
    OutOfMemory,
    /// E10: the bytes are no UTF-8, or the text is no TOML document.
    #[error("the file is not TOML")]
    NotToml,
    /// E11: a table has a key that is not listed for it.
    #[error("{0}: unknown key")]
    UnknownKey(FaultPlace),
    /// E12: a child has no `id` or no `start`.
    #[error("child {index}: {key} is missing")]
    MissingKey { index: usize, key: ChildKey },
    /// E13: a value is of another kind than its key asks for, or another word.
    #[error("{0}: the value is of the wrong kind")]
    WrongKind(FaultPlace),
    /// E1: the intensity is not 0 to 1000, or the period not 1 to 1,000,000 seconds.
    #[error("supervisor, {0}: the number is out of its limits")]
    BadFlag(FlagKey),
    /// E2: a text is no lawful name, a list of modules has more than four, or a shutdown is not 0 to
    /// 4,294,967,295 milliseconds.
    #[error("child {index}, {key}: the value is out of its limits")]
    BadSpec { index: usize, key: ChildKey },
    /// E2 to E7: the specifications are refused as they would be outside a file. Under simple_one_for_one a child that
    /// has a tree is refused too.
    #[error("{0}")]
    Unlawful(SpecFault),
    /// E14: the table lies below the 16th level.
    #[error("supervisors are nested more than 16 deep")]
    TooDeep,
    /// E15: it is the 65th table.
    #[error("there are more than 64 supervisors")]
    TooManyTables,
    /// E16: a child that has a tree is not waited for when it is stopped.
    #[error("child {index}, shutdown: a supervisor with a tree is waited for")]
    NestedNotInfinity { index: usize },
}

impl TreeFault {
    /// The number by which the program names the fault: printed as `E0` to `E7` and `E10` to `E16`.
    pub fn code(&self) -> u8
        ensures { result ≡ code_of self.now }
    {
        match self {
            TreeFault::OutOfMemory => 0,
            TreeFault::BadFlag(_) => 1,
            TreeFault::BadSpec { .. } => 2,
            TreeFault::Unlawful(fault) => fault.code(),
            TreeFault::NotToml => 10,
            TreeFault::UnknownKey(_) => 11,
            TreeFault::MissingKey { .. } => 12,
            TreeFault::WrongKind(_) => 13,
            TreeFault::TooDeep => 14,
            TreeFault::TooManyTables => 15,
            TreeFault::NestedNotInfinity { .. } => 16,
        }
    }
}

/// A fault, and the number of the table that has it: the root is 0, and then tables are numbered in the order of the
/// walk, each before the trees of its children.
#[derive(Clone, Copy, Debug, PartialEq, Eq, Error)]
#[error("table {table}, {fault}")]
pub struct TableFault {
    pub table: usize,
    pub fault: TreeFault,
}
