//! The children of a tree, and which of them a log means.

use crate::seeking::is_at;
use otp_file::TreeSpec;
use otp_foreign::{Id, Range, write_byte};
use otp_spec::{MAX_TABLES, Strategy};
use std::alloc::{AllocError, Global};

/// A child of the tree.
#[derive(Clone, Copy)]
pub(crate) struct Child {
    /// Where its path stands among the names, and the parts of that which are its own id and its supervisor's.
    pub path: Range,
    id: Range,
    parent: Range,
    /// It is a supervisor of the tree.
    pub is_supervisor: bool,
    /// Its supervisor is one of simple_one_for_one.
    pub is_dynamic: bool,
}

/// All children of a tree.
#[derive(Drop)]
pub struct Known {
    names: Vec<u8>,
    children: Vec<Child>,
}

/// A supervisor whose children are not noted yet, and where its path and its id stand among the names.
#[derive(Clone, Copy)]
struct Waiting<'t> {
    tree: &'t TreeSpec,
    path: Range,
    id: Range,
}

/// Which child a name means.
#[derive(Clone, Copy)]
pub(crate) enum Meant {
    /// That with this number.
    Child(usize),
    /// None of the tree.
    Unknown,
    /// More than one.
    Several,
}

/// Nothing of the names.
const NOTHING: Range = Range { start: 0, end: 0 };

impl Known {
    /// The children of a tree.
    pub fn of(alloc: Global, tree: &TreeSpec) -> Result<Known, AllocError> {
        let mut known = Known {
            names: Vec::new(alloc),
            children: Vec::new(alloc),
        };
        let mut waiting = Vec::new(alloc);
        let noted = known.add_all(tree, &mut waiting);
        drop(waiting);
        match noted {
            Ok(()) => Ok(known),
            Err(_) => {
                drop(known);
                Err(AllocError)
            }
        }
    }

    /// Notes all children of a tree.
    fn add_all<'t>(
        &mut self,
        tree: &'t TreeSpec,
        waiting: &mut Vec<Waiting<'t>>,
    ) -> Result<(), AllocError> {
        let root = Waiting {
            tree,
            path: NOTHING,
            id: NOTHING,
        };
        waiting.push(root).map_err(|_| AllocError)?;
        for _ in 0..MAX_TABLES {
            match waiting.pop() {
                Some(next) => self.add_children(next, waiting)?,
                None => return Ok(()),
            }
        }
        Ok(())
    }

    /// Notes the children of a supervisor; those that are supervisors wait.
    fn add_children<'t>(
        &mut self,
        of: Waiting<'t>,
        waiting: &mut Vec<Waiting<'t>>,
    ) -> Result<(), AllocError> {
        let nested = of.tree.nested();
        let is_dynamic = of.tree.supervisor().flags().strategy == Strategy::SimpleOneForOne;
        let mut count: usize = 0;
        for place in 0..of.tree.supervisor().specs().len() {
            let tree = match nested.get(count) {
                Some(next) if *next == place => of.tree.trees().get(count),
                _ => None,
            };
            let child = self.add_child(of, place, tree.is_some(), is_dynamic)?;
            if let Some(tree) = tree {
                count = count.saturating_add(1);
                let next = Waiting {
                    tree,
                    path: child.path,
                    id: child.id,
                };
                waiting.push(next).map_err(|_| AllocError)?;
            }
        }
        Ok(())
    }

    /// Notes the child at this place of a supervisor.
    fn add_child(
        &mut self,
        of: Waiting<'_>,
        place: usize,
        is_supervisor: bool,
        is_dynamic: bool,
    ) -> Result<Child, AllocError> {
        let start = self.names.len();
        for at in of.path.start..of.path.end {
            let byte = otp_foreign::byte_of(self.names.as_slice(), at);
            write_byte(byte, &mut self.names)?;
        }
        if of.path.end > of.path.start {
            write_byte(b'/', &mut self.names)?;
        }
        let own = self.names.len();
        if let Some(spec) = of.tree.supervisor().specs().get(place) {
            self.names.extend_from_slice(spec.id.as_bytes())?;
        }
        let end = self.names.len();
        let child = Child {
            path: Range { start, end },
            id: Range { start: own, end },
            parent: of.id,
            is_supervisor,
            is_dynamic,
        };
        self.children.push(child).map_err(|_| AllocError)?;
        Ok(child)
    }

    /// The child with this number.
    pub(crate) fn child(&self, number: usize) -> Option<Child> {
        match self.children.get(number) {
            Some(child) => Some(*child),
            None => None,
        }
    }

    /// The path of a child.
    pub(crate) fn path_of(&self, child: Child) -> &[u8] {
        child.path.of(self.names.as_slice())
    }

    /// The child with this path.
    pub(crate) fn at_path(&self, path: &[u8]) -> Meant {
        for number in 0..self.children.len() {
            if self.children[number].path.of(self.names.as_slice()) == path {
                return Meant::Child(number);
            }
        }
        Meant::Unknown
    }

    /// The child of this id, if it is the only one; among several that of a supervisor with this id.
    fn by_id(&self, supervisor: &[u8], id: &[u8]) -> Meant {
        let mut first = Meant::Unknown;
        let mut own = Meant::Unknown;
        for number in 0..self.children.len() {
            let child = self.children[number];
            if child.id.of(self.names.as_slice()) != id {
                continue;
            }
            first = one_more(first, number);
            if child.parent.of(self.names.as_slice()) == supervisor {
                own = one_more(own, number);
            }
        }
        match own {
            Meant::Child(_) => own,
            _ => first,
        }
    }

    /// The child that a log calls so, and its supervisor so.
    pub(crate) fn meant(&self, supervisor: &[u8], name: &[u8]) -> Meant {
        let supervisor = id_of(supervisor);
        let id = id_of(name);
        self.by_id(supervisor.as_slice(), id.as_slice())
    }
}

/// One child more that a name may mean.
fn one_more(meant: Meant, number: usize) -> Meant {
    match meant {
        Meant::Unknown => Meant::Child(number),
        _ => Meant::Several,
    }
}

/// A name of Erlang or Elixir as a tree file has it: `Elixir.` is left out, as `otp import` does.
pub(crate) fn id_of(name: &[u8]) -> Id {
    let front: usize = if is_at(name, 0, b"'") { 1 } else { 0 };
    let behind = front.saturating_add(7);
    if is_at(name, front, b"Elixir.") {
        Id::of(name.get(behind..).unwrap_or(b""))
    } else {
        Id::of(name)
    }
}
