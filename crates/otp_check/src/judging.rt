//! What `read_tree` says of a part of a document.

use otp_file::{ChildKey, FlagKey, TreeFault, read_tree};
use otp_spec::MAX_CHILDREN;
use std::alloc::{AllocError, Global};
use toml::{Table, Value};

/// So many children are too many, and more are not counted.
const MOST_COUNTED: usize = MAX_CHILDREN + 1;

/// The tree of a child that has one.
pub(crate) fn tree_of(child: &Value) -> Option<&Table> {
    child.as_table()?.get(ChildKey::Tree.name())?.as_table()
}

/// The first fault of a document with this top table; none where it can't be printed.
fn judge(alloc: Global, table: &Table) -> Result<Option<TreeFault>, AllocError> {
    let text = match toml::table_to_string(alloc, table) {
        Ok(text) => text,
        Err(toml::ser::Error::OutOfMemory) => return Err(AllocError),
        Err(_) => return Ok(None),
    };
    match read_tree(alloc, text.as_bytes()) {
        Ok(_) => Ok(None),
        Err(TreeFault::OutOfMemory) => Err(AllocError),
        Err(fault) => Ok(Some(fault)),
    }
}

/// Puts a copy of a value at a key.
fn put(alloc: Global, table: &mut Table, key: &str, value: &Value) -> Result<(), AllocError> {
    let key = String::from_str(alloc, key)?;
    let copy = value.clone()?;
    drop(table.insert(key, copy)?);
    Ok(())
}

/// The fault of a supervisor that has this value at this key, and no children.
pub(crate) fn judge_flag(
    alloc: Global,
    key: &str,
    value: &Value,
) -> Result<Option<TreeFault>, AllocError> {
    let mut table = Table::new(alloc);
    let judged = match put(alloc, &mut table, key, value) {
        Ok(()) => judge(alloc, &table),
        Err(error) => Err(error),
    };
    drop(table);
    judged
}

/// Puts children at their key.
fn put_children(alloc: Global, table: &mut Table, children: Vec<Value>) -> Result<(), AllocError> {
    let Ok(key) = String::from_str(alloc, FlagKey::Child.name()) else {
        drop(children);
        return Err(AllocError);
    };
    drop(table.insert(key, Value::Array(children))?);
    Ok(())
}

/// The fault of a supervisor with these values beside its children.
fn judge_children(
    alloc: Global,
    mut table: Table,
    children: Vec<Value>,
) -> Result<Option<TreeFault>, AllocError> {
    let judged = match put_children(alloc, &mut table, children) {
        Ok(()) => judge(alloc, &table),
        Err(error) => Err(error),
    };
    drop(table);
    judged
}

/// The fault of a supervisor with these values beside its one child.
fn judge_only_child(
    alloc: Global,
    table: Table,
    child: Table,
) -> Result<Option<TreeFault>, AllocError> {
    let mut children = Vec::new(alloc);
    match children.push(Value::Table(child)) {
        Ok(()) => judge_children(alloc, table, children),
        Err(error) => {
            drop(error);
            drop(children);
            drop(table);
            Err(AllocError)
        }
    }
}

/// Puts a lawful id and start.
fn put_names(alloc: Global, child: &mut Table, name: &Value) -> Result<(), AllocError> {
    put(alloc, child, ChildKey::Id.name(), name)?;
    put(alloc, child, ChildKey::Start.name(), name)
}

/// A child that has a lawful id and start.
fn lawful_child(alloc: Global) -> Result<Table, AllocError> {
    let name = Value::string(alloc, "a")?;
    let mut child = Table::new(alloc);
    let put = put_names(alloc, &mut child, &name);
    drop(name);
    given(child, put)
}

/// The table that was made, if all was put there.
fn given(table: Table, put: Result<(), AllocError>) -> Result<Table, AllocError> {
    match put {
        Ok(()) => Ok(table),
        Err(error) => {
            drop(table);
            Err(error)
        }
    }
}

/// Puts the tree of a supervisor of which nothing is said.
fn put_bare_tree(alloc: Global, child: &mut Table) -> Result<(), AllocError> {
    put(
        alloc,
        child,
        ChildKey::Tree.name(),
        &Value::Table(Table::new(alloc)),
    )
}

/// The fault of a child that has this value at this key, and else a lawful id and start.
pub(crate) fn judge_key(
    alloc: Global,
    key: &str,
    value: &Value,
) -> Result<Option<TreeFault>, AllocError> {
    let mut child = lawful_child(alloc)?;
    match put(alloc, &mut child, key, value) {
        Ok(()) => judge_only_child(alloc, Table::new(alloc), child),
        Err(error) => {
            drop(child);
            Err(error)
        }
    }
}

/// Puts a lawful value at a key that the child has.
fn put_if_there(
    alloc: Global,
    child: &Table,
    key: &str,
    name: &Value,
    names: &mut Table,
) -> Result<(), AllocError> {
    match child.get(key) {
        Some(_) => put(alloc, names, key, name),
        None => Ok(()),
    }
}

/// Puts a lawful id and start where the child has some.
fn put_names_of(
    alloc: Global,
    child: &Table,
    name: &Value,
    names: &mut Table,
) -> Result<(), AllocError> {
    put_if_there(alloc, child, ChildKey::Id.name(), name, names)?;
    put_if_there(alloc, child, ChildKey::Start.name(), name, names)
}

/// A child that has a lawful id and start where this one has some, and nothing else.
fn names_of(alloc: Global, child: &Table) -> Result<Table, AllocError> {
    let name = Value::string(alloc, "a")?;
    let mut names = Table::new(alloc);
    let put = put_names_of(alloc, child, &name, &mut names);
    drop(name);
    given(names, put)
}

/// The fault of a child that has a lawful id and start where this one has some, and nothing else.
pub(crate) fn judge_names(alloc: Global, child: &Table) -> Result<Option<TreeFault>, AllocError> {
    let names = names_of(alloc, child)?;
    judge_only_child(alloc, Table::new(alloc), names)
}

/// Puts a copy of a child, but for what lies in its tree.
fn put_without_tree(alloc: Global, child: &Table, copy: &mut Table) -> Result<(), AllocError> {
    for (key, value) in child.iter() {
        if key.as_str() == ChildKey::Tree.name() && value.is_table() {
            put_bare_tree(alloc, copy)?;
        } else {
            put(alloc, copy, key.as_str(), value)?;
        }
    }
    Ok(())
}

/// A copy of a child, but for what lies in its tree.
fn without_tree(alloc: Global, child: &Table) -> Result<Table, AllocError> {
    let mut copy = Table::new(alloc);
    let put = put_without_tree(alloc, child, &mut copy);
    given(copy, put)
}

/// A supervisor that has this value at a key, if there is one, and no children.
fn table_with(alloc: Global, key: &str, value: Option<&Value>) -> Result<Table, AllocError> {
    let mut table = Table::new(alloc);
    let put = match value {
        Some(value) => put(alloc, &mut table, key, value),
        None => Ok(()),
    };
    given(table, put)
}

/// The fault of this child, were it the only one of its supervisor; what lies in its tree isn't looked at.
pub(crate) fn judge_child(
    alloc: Global,
    auto_shutdown: Option<&Value>,
    child: &Table,
) -> Result<Option<TreeFault>, AllocError> {
    let table = table_with(alloc, FlagKey::AutoShutdown.name(), auto_shutdown)?;
    match without_tree(alloc, child) {
        Ok(copy) => judge_only_child(alloc, table, copy),
        Err(error) => {
            drop(table);
            Err(error)
        }
    }
}

/// A lawful child, with a tree where this one has one.
fn lawful_copy(alloc: Global, child: &Value) -> Result<Table, AllocError> {
    let mut copy = lawful_child(alloc)?;
    let put = match tree_of(child) {
        Some(_) => put_bare_tree(alloc, &mut copy),
        None => Ok(()),
    };
    given(copy, put)
}

/// Puts lawful children, each with a tree where one of these has one.
fn put_copies(
    alloc: Global,
    children: &[Value],
    copies: &mut Vec<Value>,
) -> Result<(), AllocError> {
    for child in children.iter().take(MOST_COUNTED) {
        copies.push(Value::Table(lawful_copy(alloc, child)?))?;
    }
    Ok(())
}

/// The fault of a supervisor with this strategy and so many children, each lawful, and with a tree where this one has one.
pub(crate) fn judge_count(
    alloc: Global,
    strategy: Option<&Value>,
    children: &[Value],
) -> Result<Option<TreeFault>, AllocError> {
    let table = table_with(alloc, FlagKey::Strategy.name(), strategy)?;
    let mut copies = Vec::new(alloc);
    match put_copies(alloc, children, &mut copies) {
        Ok(()) => judge_children(alloc, table, copies),
        Err(error) => {
            drop(copies);
            drop(table);
            Err(error)
        }
    }
}
