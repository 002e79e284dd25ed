//! The parts of a document as a list, each with its line.

use std::alloc::{AllocError, Global};
use toml_parser::Key;

/// A part of a document: the whole of it, the value at a key, or a value of an array.
#[derive(Clone, Copy, Debug, PartialEq, Eq)]
pub struct Part(usize);

impl Part {
    /// The whole document.
    pub const WHOLE: Part = Part(0);
}

/// What is known of a part.
#[derive(Drop)]
struct Node {
    /// The key that it is at; none of a value of an array.
    key: Option<String>,
    /// The line that says it, from 1.
    line: u64,
    /// How many parts stand before it in the same array or table.
    index: usize,
    /// The part before it in the same array or table.
    before: Option<Part>,
    /// The last of its own parts.
    last: Option<Part>,
}

/// The parts of a document.
#[derive(Drop)]
pub(crate) struct Nodes {
    nodes: Vec<Node>,
}

impl Nodes {
    /// None yet.
    pub fn new(alloc: Global) -> Self {
        Nodes {
            nodes: Vec::new(alloc),
        }
    }

    /// The document itself, which begins on the first line.
    pub fn add_whole(&mut self) -> Result<(), AllocError> {
        let node = Node {
            key: None,
            line: 1,
            index: 0,
            before: None,
            last: None,
        };
        self.nodes.push(node).map_err(|_| AllocError)
    }

    fn node(&self, part: Part) -> Option<&Node> {
        self.nodes.get(part.0)
    }

    /// The last part of this one.
    fn last_of(&self, whole: Part) -> Option<Part> {
        self.node(whole)?.last
    }

    /// The line of a part.
    pub fn line(&self, part: Part) -> Option<u64> {
        Some(self.node(part)?.line)
    }

    /// How many parts of a whole stand before the next one.
    fn next_index(&self, last: Option<Part>) -> usize {
        match last {
            Some(last) => match self.node(last) {
                Some(node) => node.index.saturating_add(1),
                None => 0,
            },
            None => 0,
        }
    }

    /// A part more of this one, behind its others.
    pub fn add(&mut self, whole: Part, key: Option<String>, line: u64) -> Result<Part, AllocError> {
        let part = Part(self.nodes.len());
        let before = self.last_of(whole);
        let node = Node {
            key,
            line,
            index: self.next_index(before),
            before,
            last: None,
        };
        self.nodes.push(node).map_err(|_| AllocError)?;
        if let Some(node) = self.nodes.get_mut(whole.0) {
            node.last = Some(part);
        }
        Ok(part)
    }

    /// Notes that a part that was implied before is said on this line.
    pub fn say(&mut self, part: Part, line: u64) {
        if let Some(node) = self.nodes.get_mut(part.0) {
            node.line = line;
        }
    }

    /// The value at a key of a table.
    pub fn at_key(&self, table: Part, key: &str) -> Option<Part> {
        let mut part = self.last_of(table);
        for _ in 0..self.nodes.len() {
            let node = self.node(part?)?;
            if is_key(&node.key, key) {
                return part;
            }
            part = node.before;
        }
        None
    }

    /// The value at a place of an array, from 0.
    pub fn at_index(&self, array: Part, index: usize) -> Option<Part> {
        let mut part = self.last_of(array);
        for _ in 0..self.nodes.len() {
            let node = self.node(part?)?;
            if node.index == index && node.key.is_none() {
                return part;
            }
            part = node.before;
        }
        None
    }

    /// The value at a key of a table, which is added where it isn't there.
    fn come_to(&mut self, table: Part, key: &String, line: u64) -> Result<Part, AllocError> {
        match self.at_key(table, key.as_str()) {
            Some(part) => Ok(part),
            None => self.add(table, Some(key.clone()?), line),
        }
    }

    /// The table that a header or a dotted key goes on in: of an array of tables it is the last.
    fn table_in(&self, part: Part) -> Part {
        let Some(last) = self.last_of(part) else {
            return part;
        };
        match self.node(last) {
            Some(node) if node.key.is_none() => last,
            _ => part,
        }
    }

    /// The table in which the last part of a key stands.
    pub fn walk(&mut self, table: Part, key: &Key, line: u64) -> Result<Part, AllocError> {
        let mut table = table;
        for name in key.path.iter() {
            let part = self.come_to(table, name, line)?;
            table = self.table_in(part);
        }
        Ok(table)
    }

    /// The value at the last part of a key, in its table.
    pub fn last_at(&mut self, table: Part, key: &Key, line: u64) -> Result<Part, AllocError> {
        self.come_to(table, &key.last, line)
    }
}

/// Whether a part is at this key.
fn is_key(found: &Option<String>, key: &str) -> bool {
    match found {
        Some(found) => found.as_str() == key,
        None => false,
    }
}
