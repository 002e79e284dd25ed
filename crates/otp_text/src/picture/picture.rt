//! A tree as text.

use crate::{write_name, write_number};
use otp_file::{MAX_DEPTH, TreeSpec};
use otp_spec::{AutoShutdown, ChildSpec, ChildType, Shutdown, SupFlags};
use std::alloc::{AllocError, Global};

/// What a picture says of a tree, beside how its supervisors restart and the ids of their children.
pub trait Caption {
    /// Appends what is said of the supervisor of the table with this number, from 0 in the order of the walk.
    ///
    /// # Errors
    ///
    /// Where memory is refused.
    fn write_supervisor(
        &self,
        table: usize,
        flags: &SupFlags,
        out: &mut Vec<u8>,
    ) -> Result<(), AllocError>;

    /// Appends what is said of a child of the supervisor of this table.
    ///
    /// # Errors
    ///
    /// Where memory is refused.
    fn write_child(
        &self,
        table: usize,
        spec: &ChildSpec,
        out: &mut Vec<u8>,
    ) -> Result<(), AllocError>;
}

/// What a file says of its tree.
struct Keys;

impl Caption for Keys {
    fn write_supervisor(
        &self,
        _table: usize,
        flags: &SupFlags,
        out: &mut Vec<u8>,
    ) -> Result<(), AllocError> {
        out.extend_from_slice(shutdown_words(flags.auto_shutdown).as_bytes())
    }

    fn write_child(
        &self,
        _table: usize,
        spec: &ChildSpec,
        out: &mut Vec<u8>,
    ) -> Result<(), AllocError> {
        out.extend_from_slice(spec.restart.word().as_bytes())?;
        out.extend_from_slice(b"  ")?;
        write_kind(spec.kind, out)?;
        out.extend_from_slice(b"  ")?;
        write_shutdown(spec.shutdown, out)
    }
}

/// What an automatic shutdown comes from.
fn shutdown_words(auto_shutdown: AutoShutdown) -> &'static str {
    match auto_shutdown {
        AutoShutdown::Never => "",
        AutoShutdown::AnySignificant => "ends with any significant child",
        AutoShutdown::AllSignificant => "ends with the last significant child",
    }
}

/// The most columns of a line.
const COLUMNS: usize = 80;

/// The columns of a child's type: so long is `supervisor`.
const KIND_COLUMNS: usize = 10;

/// Appends how long a child may take to end.
fn write_shutdown(shutdown: Shutdown, out: &mut Vec<u8>) -> Result<(), AllocError> {
    if let Some(word) = shutdown.word() {
        return out.extend_from_slice(word.as_bytes());
    }
    match shutdown {
        Shutdown::BrutalKill | Shutdown::Infinity => Ok(()),
        Shutdown::Milliseconds(time) => {
            write_number(u64::from(time), out)?;
            out.extend_from_slice(b" ms")
        }
    }
}

/// Appends so many spaces.
fn write_spaces(count: usize, out: &mut Vec<u8>) -> Result<(), AllocError> {
    for _ in 0..count {
        out.extend_from_slice(b" ")?;
    }
    Ok(())
}

/// Appends a child's type, at the left of its columns.
fn write_kind(kind: ChildType, out: &mut Vec<u8>) -> Result<(), AllocError> {
    let word = kind.word();
    out.extend_from_slice(word.as_bytes())?;
    write_spaces(KIND_COLUMNS.saturating_sub(word.len()), out)
}

/// What stands on a line, and what stands behind it, or on a line of its own where both are too long.
#[derive(Drop)]
struct Halves {
    first: Vec<u8>,
    between: &'static str,
    second: Vec<u8>,
}

impl Halves {
    /// Whether both stand on one line behind these columns.
    fn fit(&self, margin: usize) -> bool {
        let columns = margin
            .saturating_add(self.first.len())
            .saturating_add(self.between.len())
            .saturating_add(self.second.len());
        self.second.is_empty() || columns <= COLUMNS
    }

    /// Appends both behind this margin. On the line stands `branch` before them; where the second half has a line of its
    /// own, `below` stands before it.
    fn write(
        &self,
        margin: &[u8],
        branch: &str,
        below: &str,
        out: &mut Vec<u8>,
    ) -> Result<(), AllocError> {
        out.extend_from_slice(margin)?;
        out.extend_from_slice(branch.as_bytes())?;
        out.extend_from_slice(self.first.as_slice())?;
        if self.second.is_empty() {
            return out.extend_from_slice(b"\n");
        }
        if self.fit(margin.len().saturating_add(branch.len())) {
            out.extend_from_slice(self.between.as_bytes())?;
            out.extend_from_slice(self.second.as_slice())?;
        } else {
            out.extend_from_slice(b"\n")?;
            out.extend_from_slice(margin)?;
            out.extend_from_slice(below.as_bytes())?;
            let columns = margin.len().saturating_add(below.len());
            write_cut(self.second.as_slice(), COLUMNS.saturating_sub(columns), out)?;
        }
        out.extend_from_slice(b"\n")
    }
}

/// Appends a text, or as much of it as there are columns for, with two dots at its end.
fn write_cut(text: &[u8], columns: usize, out: &mut Vec<u8>) -> Result<(), AllocError> {
    if text.len() <= columns {
        return out.extend_from_slice(text);
    }
    let front = text.get(..columns.saturating_sub(2)).unwrap_or(text);
    out.extend_from_slice(front)?;
    out.extend_from_slice(b"..")
}

/// What stands between a number of restarts and the period.
fn restarts_words(count: u64) -> &'static str {
    if count == 1 {
        " restart in "
    } else {
        " restarts in "
    }
}

/// What is said of a supervisor: how it restarts, and the caption.
fn halves_of_supervisor<C: Caption>(
    alloc: Global,
    table: usize,
    flags: &SupFlags,
    caption: &C,
) -> Result<Halves, AllocError> {
    let mut first = Vec::new(alloc);
    first.extend_from_slice(flags.strategy.word().as_bytes())?;
    first.extend_from_slice(b", ")?;
    write_number(flags.intensity, &mut first)?;
    first.extend_from_slice(restarts_words(flags.intensity).as_bytes())?;
    write_number(flags.period, &mut first)?;
    first.extend_from_slice(b" s")?;
    let mut second = Vec::new(alloc);
    caption.write_supervisor(table, flags, &mut second)?;
    Ok(Halves {
        first,
        between: ", ",
        second,
    })
}

/// What is said of a child, whose id is filled up to this width: its id with a star if it is significant, and the caption.
fn halves_of_child<C: Caption>(
    alloc: Global,
    table: usize,
    spec: &ChildSpec,
    width: usize,
    caption: &C,
) -> Result<Halves, AllocError> {
    let mut first = Vec::new(alloc);
    write_name(&spec.id, &mut first)?;
    first.extend_from_slice(if spec.significant { b"*" } else { b" " })?;
    write_spaces(width.saturating_sub(spec.id.as_bytes().len()), &mut first)?;
    let mut second = Vec::new(alloc);
    caption.write_child(table, spec, &mut second)?;
    Ok(Halves {
        first,
        between: " ",
        second,
    })
}

/// The length of the longest id.
fn longest_id(specs: &[ChildSpec]) -> usize {
    let mut longest = 0;
    for spec in specs {
        longest = spec.id.as_bytes().len().max(longest);
    }
    longest
}

/// The tree of the child at this place, if it has one.
pub fn tree_at(tree: &TreeSpec, place: usize) -> Option<&TreeSpec> {
    let index = tree.nested().iter().position(|nested| *nested == place)?;
    tree.trees().get(index)
}

/// Appends the lines of the supervisor of this table and of all below it, each behind this margin, to so many levels, and
/// gives the number of the table that comes next.
fn draw_below<C: Caption>(
    alloc: Global,
    tree: &TreeSpec,
    table: usize,
    levels: usize,
    margin: &[u8],
    caption: &C,
    out: &mut Vec<u8>,
) -> Result<usize, AllocError> {
    let mut next = table.saturating_add(1);
    let Some(left) = levels.checked_sub(1) else {
        return Ok(next);
    };
    let supervisor = tree.supervisor();
    halves_of_supervisor(alloc, table, &supervisor.flags(), caption)?.write(margin, "", "  ", out)?;
    let specs = supervisor.specs();
    let width = longest_id(specs);
    for (place, spec) in specs.iter().enumerate() {
        let is_last = place.saturating_add(1) == specs.len();
        let (branch, below) = branch(is_last);
        halves_of_child(alloc, table, spec, width, caption)?.write(margin, branch, below, out)?;
        if let Some(nested) = tree_at(tree, place) {
            let mut deeper = Vec::new(alloc);
            deeper.extend_from_slice(margin)?;
            deeper.extend_from_slice(bar(is_last))?;
            next = draw_below(alloc, nested, next, left, deeper.as_slice(), caption, out)?;
        }
    }
    Ok(next)
}

/// What stands below the line of a child, in front of what lies below it.
fn bar(is_last: bool) -> &'static [u8] {
    if is_last { b"  " } else { b"| " }
}

/// What stands in front of a child, and in front of the second line that is said of it.
fn branch(is_last: bool) -> (&'static str, &'static str) {
    if is_last {
        ("`-- ", "      ")
    } else {
        ("|-- ", "|     ")
    }
}

/// Appends a tree: a line for the supervisor, and one for each child in start order, with its restart type, its type and
/// how long it may take to end; below a child that has a tree stand the lines of that. A star marks a significant child.
/// No line has more than 80 columns: what would be longer stands on two.
///
/// # Errors
///
/// Where memory is refused.
pub fn draw(alloc: Global, tree: &TreeSpec, out: &mut Vec<u8>) -> Result<(), AllocError> {
    draw_with(alloc, tree, &Keys, out)
}

/// Appends a tree as [`draw`] does, with what the caption says of supervisors and children in the place of their keys. What
/// has no room on two lines is cut.
///
/// # Errors
///
/// Where memory is refused.
pub fn draw_with<C: Caption>(
    alloc: Global,
    tree: &TreeSpec,
    caption: &C,
    out: &mut Vec<u8>,
) -> Result<(), AllocError> {
    let _tables = draw_below(alloc, tree, 0, MAX_DEPTH, b"", caption, out)?;
    Ok(())
}
