//! All parts of a document, one by one.

ghost use Rattle.std.specs.Prelude.{◌≡◌, ◌+◌, ◌-◌, ◌^◌, ◌==◌, OnOk, min};
ghost use Rattle.otp_check.specs.Checks.{Holds, Puts};

use crate::advice::key_to_blame;
use crate::finding::{Finding, of_only_child, of_table, of_unknown, of_value};
use crate::hints::{Key, child_keys, flag_keys};
use crate::judging::{judge_child, judge_count, judge_flag, judge_key, judge_names, tree_of};
use crate::owner::{Owner, write_child};
use crate::places::{moved_to, place_of};
use crate::source::{Part, Source};
use otp_file::{ChildKey, FaultPlace, FlagKey, MAX_DEPTH, TableFault, TreeFault};
use otp_spec::{MAX_CHILDREN, MAX_TABLES, SpecFault};
use std::alloc::{AllocError, Global};
use toml::{Table, Value};

/// What is found in a document.
#[derive(Drop)]
pub(crate) struct Found {
    /// The fault for which the tree is refused.
    pub(crate) first: Option<Finding>,
    /// All others, in the order of the walk.
    pub(crate) others: Vec<Finding>,
}

/// A table of the document: its path, and where it stands in the file, if that is known.
#[derive(Clone, Copy)]
struct Place<'a> {
    owner: Owner<'a>,
    part: Option<Part>,
}

/// A supervisor's table: the path of the child whose tree it is, empty for the root, and where it stands in the file.
#[derive(Clone, Copy)]
struct Within<'a> {
    path: &'a [u8],
    part: Option<Part>,
}

impl<'a> Within<'a> {
    /// The table itself.
    fn place(&self) -> Place<'a> {
        Place {
            owner: Owner::Supervisor(self.path),
            part: self.part,
        }
    }
}

/// What is found so far.
#[derive(Drop)]
struct Scanning<'s> {
    alloc: Global,
    /// Where the parts of the document stand in the file.
    source: &'s Source,
    /// The fault for which the tree is refused, and the number of its table.
    why: TableFault,
    /// So many tables are looked at; the last of them is the one that is looked at now.
    tables: usize,
    found: Found,
}

impl Scanning<'_> {
    /// Whether the table that is looked at now has the fault for which the tree is refused.
    fn is_refused_here(&self) -> bool
        ensures { result ≡ (self.now.tables == min (self.now.why.table + 1) (2 ^ 64 - 1)) }
    {
        self.tables == self.why.table.saturating_add(1)
    }

    /// The line of a key of a table; without the key that of the table itself. The whole file has none.
    fn line_at(&self, part: Option<Part>, key: &str) -> Option<u64> {
        match self.source.line(self.source.at_key(part, key)) {
            None if part != Some(Part::WHOLE) => self.source.line(part),
            line => line,
        }
    }

    /// One thing more is found on this line, in the table that is looked at now.
    fn add(&mut self, line: Option<u64>, finding: Finding) -> Result<(), AllocError>
        ensures { OnOk result (Holds finding.fault finding.text.items self.old.found self.new.found) }
    {
        self.hold(finding.on_line(line))
    }

    /// One thing more is held: for the first fault, if it is that for which the tree is refused, or behind the others.
    fn hold(&mut self, finding: Finding) -> Result<(), AllocError>
        ensures { OnOk result (Puts finding self.old.found self.new.found) }
    {
        if self.is_refused_here() && self.found.first.is_none() && finding.fault == self.why.fault {
            self.found.first = Some(finding);
            return Ok(());
        }
        self.found.others.push(finding).map_err(|_| AllocError)
    }

    /// A fault of a whole table is found.
    fn add_of_table(&mut self, fault: TreeFault, place: &Place<'_>) -> Result<(), AllocError> {
        let finding = of_table(self.alloc, fault, &place.owner)?;
        self.add(self.line_at(place.part, key_to_blame(&fault)), finding)
    }

    /// The one child under simple_one_for_one has a tree.
    fn add_of_only_child(&mut self, place: &Place<'_>) -> Result<(), AllocError> {
        let finding = of_only_child(self.alloc, &place.owner)?;
        let key = key_to_blame(&finding.fault);
        self.add(self.line_at(place.part, key), finding)
    }

    /// The value at a key of a supervisor.
    fn scan_flag(&mut self, place: &Place<'_>, key: &str, value: &Value) -> Result<(), AllocError> {
        let Some(fault) = judge_flag(self.alloc, key, value)? else {
            return Ok(());
        };
        let finding = match (fault, Key::of_flag(key)) {
            (TreeFault::UnknownKey(_), _) => {
                of_unknown(self.alloc, fault, &place.owner, key, &flag_keys())?
            }
            (TreeFault::WrongKind(_) | TreeFault::BadFlag(_), Some(key)) => {
                of_value(self.alloc, fault, &place.owner, key, value)?
            }
            _ => return Ok(()),
        };
        self.add(self.line_at(place.part, key), finding)
    }

    /// The keys of a supervisor, but for its children.
    fn scan_flags(&mut self, place: &Place<'_>, table: &Table) -> Result<(), AllocError> {
        for (key, value) in table.iter() {
            if key.as_str() != FlagKey::Child.name() || value.as_array().is_none() {
                self.scan_flag(place, key.as_str(), value)?;
            }
        }
        Ok(())
    }

    /// The value at a key of a child, but for what lies in its tree.
    fn scan_key(
        &mut self,
        index: usize,
        place: &Place<'_>,
        key: &str,
        value: &Value,
    ) -> Result<(), AllocError> {
        if key == ChildKey::Tree.name() && value.is_table() {
            return Ok(());
        }
        let Some(fault) = judge_key(self.alloc, key, value)? else {
            return Ok(());
        };
        let fault = moved_to(fault, index);
        let finding = match (fault, Key::of_child(key)) {
            (TreeFault::UnknownKey(_), _) => {
                of_unknown(self.alloc, fault, &place.owner, key, &child_keys())?
            }
            (TreeFault::WrongKind(_) | TreeFault::BadSpec { .. }, Some(key)) => {
                of_value(self.alloc, fault, &place.owner, key, value)?
            }
            _ => return Ok(()),
        };
        self.add(self.line_at(place.part, key), finding)
    }

    /// What a child's table lacks, and whether its values go together.
    fn scan_whole(
        &mut self,
        index: usize,
        place: &Place<'_>,
        auto_shutdown: Option<&Value>,
        child: &Table,
    ) -> Result<(), AllocError> {
        if let Some(fault) = judge_names(self.alloc, child)? {
            self.add_of_table(moved_to(fault, index), place)?;
        }
        let Some(fault) = judge_child(self.alloc, auto_shutdown, child)? else {
            return Ok(());
        };
        if self.is_of_whole(&fault, child)? {
            self.add_of_table(moved_to(fault, index), place)?;
        }
        Ok(())
    }

    /// Whether this fault of a child is none of one value of it.
    fn is_of_whole(&self, fault: &TreeFault, child: &Table) -> Result<bool, AllocError> {
        match fault {
            TreeFault::Unlawful(_) | TreeFault::NestedNotInfinity { .. } => Ok(true),
            TreeFault::WrongKind(FaultPlace::ChildKey(_, ChildKey::Kind)) => {
                let key = ChildKey::Kind.name();
                match child.get(key) {
                    Some(kind) => Ok(judge_key(self.alloc, key, kind)?.is_none()),
                    None => Ok(false),
                }
            }
            _ => Ok(false),
        }
    }

    /// Where the child at this place of a supervisor stands in the file.
    fn part_of_child(&self, supervisor: Option<Part>, index: usize) -> Option<Part> {
        let children = self.source.at_key(supervisor, FlagKey::Child.name());
        self.source.at_index(children, index)
    }

    /// The child at this place of a supervisor.
    fn place_of_child<'a>(&self, within: &Within<'a>, index: usize, value: &'a Value) -> Place<'a> {
        Place {
            owner: Owner::Child(within.path, index, id_of(value)),
            part: self.part_of_child(within.part, index),
        }
    }

    /// A child of a supervisor.
    fn scan_child(
        &mut self,
        within: &Within<'_>,
        index: usize,
        auto_shutdown: Option<&Value>,
        value: &Value,
    ) -> Result<(), AllocError> {
        let place = self.place_of_child(within, index, value);
        let Some(child) = value.as_table() else {
            let fault = TreeFault::WrongKind(FaultPlace::Child(index));
            return self.add_of_table(fault, &place);
        };
        for (key, value) in child.iter() {
            self.scan_key(index, &place, key.as_str(), value)?;
        }
        self.scan_whole(index, &place, auto_shutdown, child)
    }

    /// Whether the child at this place is looked at: one of those that may be, or that for which the tree is refused.
    fn is_looked_at(&self, index: usize) -> bool {
        index < MAX_CHILDREN || self.is_refused_here() && place_of(&self.why.fault) == Some(index)
    }

    /// The children, one by one, and ids that stand twice.
    fn scan_children(
        &mut self,
        within: &Within<'_>,
        auto_shutdown: Option<&Value>,
        children: &[Value],
    ) -> Result<(), AllocError> {
        for (index, value) in children.iter().enumerate() {
            if self.is_looked_at(index) {
                self.scan_child(within, index, auto_shutdown, value)?;
                self.scan_id(within, index, value, children.get(..index).unwrap_or(&[]))?;
            }
        }
        Ok(())
    }

    /// Whether an earlier child has the id of this one.
    fn scan_id(
        &mut self,
        within: &Within<'_>,
        index: usize,
        value: &Value,
        earlier: &[Value],
    ) -> Result<(), AllocError> {
        let id = id_of(value);
        if !is_among(id, earlier) {
            return Ok(());
        }
        let fault = TreeFault::Unlawful(SpecFault::DuplicateId { index });
        self.add_of_table(fault, &self.place_of_child(within, index, value))
    }

    /// How many children there are.
    fn scan_count(
        &mut self,
        place: &Place<'_>,
        strategy: Option<&Value>,
        children: &[Value],
    ) -> Result<(), AllocError> {
        match judge_count(self.alloc, strategy, children)? {
            Some(TreeFault::Unlawful(SpecFault::SimpleNeedsOne)) if children.len() == 1 => {
                self.add_of_only_child(place)
            }
            Some(fault @ TreeFault::Unlawful(SpecFault::SimpleNeedsOne)) => {
                self.add_of_table(fault, place)
            }
            Some(fault @ TreeFault::Unlawful(SpecFault::TooManyChildren)) => {
                let first_too_many = Place {
                    owner: place.owner,
                    part: self.part_of_child(place.part, MAX_CHILDREN),
                };
                self.add_of_table(fault, &first_too_many)
            }
            _ => Ok(()),
        }
    }

    /// The table of a supervisor, but for the trees of its children.
    fn scan_table(&mut self, within: &Within<'_>, table: &Table) -> Result<(), AllocError> {
        let place = within.place();
        self.scan_flags(&place, table)?;
        let children = match table.get(FlagKey::Child.name()) {
            None => &[],
            Some(Value::Array(children)) => children.as_slice(),
            Some(_) => return Ok(()),
        };
        self.scan_children(within, table.get(FlagKey::AutoShutdown.name()), children)?;
        self.scan_count(&place, table.get(FlagKey::Strategy.name()), children)
    }

    /// A table that isn't looked at, since there may be none: the tree is refused for it, or for one before it.
    fn refuse_table(&mut self, within: &Within<'_>, fault: TreeFault) -> Result<(), AllocError> {
        if self.is_refused_here() && self.why.fault == fault {
            return self.add_of_table(fault, &within.place());
        }
        Ok(())
    }
}

/// The id of a child, where it is a text.
fn id_of(child: &Value) -> Option<&str> {
    child.as_table()?.get(ChildKey::Id.name())?.as_str()
}

/// Whether one of these children has this id.
fn is_among(id: Option<&str>, children: &[Value]) -> bool {
    if id.is_none() {
        return false;
    }
    children.iter().any(|child| id_of(child) == id)
}

/// The table of this supervisor, and all below it, to so many levels: in the order in which tables are numbered.
fn scan_below(
    scanning: &mut Scanning<'_>,
    within: &Within<'_>,
    table: &Table,
    levels: usize,
) -> Result<(), AllocError> {
    scanning.tables = scanning.tables.saturating_add(1);
    let Some(left) = levels.checked_sub(1) else {
        return scanning.refuse_table(within, TreeFault::TooDeep);
    };
    if scanning.tables > MAX_TABLES {
        return scanning.refuse_table(within, TreeFault::TooManyTables);
    }
    scanning.scan_table(within, table)?;
    let Some(Value::Array(children)) = table.get(FlagKey::Child.name()) else {
        return Ok(());
    };
    for (index, child) in children.iter().enumerate().take(MAX_CHILDREN) {
        if let Some(tree) = tree_of(child) {
            let mut path = Vec::new(scanning.alloc);
            write_child(within.path, index, id_of(child), &mut path)?;
            let part = scanning.part_of_child(within.part, index);
            let deeper = Within {
                path: path.as_slice(),
                part: scanning.source.at_key(part, ChildKey::Tree.name()),
            };
            scan_below(scanning, &deeper, tree, left)?;
        }
    }
    Ok(())
}

/// What is wrong in the parts of a document, whose tree is refused for this fault.
pub(crate) fn scan(
    alloc: Global,
    why: TableFault,
    source: &Source,
    table: &Table,
) -> Result<Found, AllocError> {
    let mut scanning = Scanning {
        alloc,
        source,
        why,
        tables: 0,
        found: Found {
            first: None,
            others: Vec::new(alloc),
        },
    };
    let root = Within {
        path: b"",
        part: Some(Part::WHOLE),
    };
    scan_below(&mut scanning, &root, table, MAX_DEPTH)?;
    let Scanning { found, .. } = scanning;
    Ok(found)
}
