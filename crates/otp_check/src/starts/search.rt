//! The children of a tree that can't be run.

ghost use Rattle.std.specs.Prelude.{◌≡◌, [], IfOk};
ghost use Rattle.otp_check.specs.Unfit.{FindsUnfit};

use crate::owner::write_child;
use crate::source::{Part, Source};
use crate::starts::finding::{StartFinding, text_of, why_unfit};
use otp_file::roles::{PlanFault, runnable_tables};
use otp_file::{ChildKey, FlagKey, MAX_DEPTH, TreeSpec, read_tree};
use otp_spec::ChildSpec;
use otp_text::picture::tree_at;
use std::alloc::{AllocError, Global};

/// A supervisor of a tree: the path of the child whose tree it is, empty for the root, and where it stands in the file.
#[derive(Clone, Copy)]
struct Within<'a> {
    path: &'a [u8],
    part: Option<Part>,
}

/// What is found so far.
#[derive(Drop)]
struct Search<'a> {
    alloc: Global,
    source: &'a Source,
    found: Vec<StartFinding>,
}

impl Search<'_> {
    /// The part of the file that says the child at this place.
    fn part_of(&self, within: &Within<'_>, place: usize) -> Option<Part> {
        let children = self.source.at_key(within.part, FlagKey::Child.name());
        self.source.at_index(children, place)
    }

    /// A child that has no tree.
    fn look(
        &mut self,
        within: &Within<'_>,
        place: usize,
        spec: &ChildSpec,
        is_simple: bool,
    ) -> Result<(), AllocError> {
        let Some(why) = why_unfit(spec, is_simple) else {
            return Ok(());
        };
        let part = self.part_of(within, place);
        let line = self
            .source
            .line(self.source.at_key(part, ChildKey::Start.name()));
        let text = text_of(self.alloc, why, within.path, place, spec)?;
        self.found
            .push(StartFinding { line, text })
            .map_err(|_| AllocError)
    }
}

/// The children of a supervisor that have no tree.
fn look_at(
    search: &mut Search<'_>,
    within: &Within<'_>,
    tree: &TreeSpec,
) -> Result<(), AllocError> {
    let supervisor = tree.supervisor();
    let is_simple = supervisor.flags().strategy.is_simple();
    for (place, spec) in supervisor.specs().iter().enumerate() {
        if tree_at(tree, place).is_none() {
            search.look(within, place, spec, is_simple)?;
        }
    }
    Ok(())
}

/// The children of a supervisor that have no tree, and all below it, to so many levels.
fn look_below(
    search: &mut Search<'_>,
    within: &Within<'_>,
    tree: &TreeSpec,
    levels: usize,
) -> Result<(), AllocError> {
    let Some(left) = levels.checked_sub(1) else {
        return Ok(());
    };
    look_at(search, within, tree)?;
    for (place, spec) in tree.supervisor().specs().iter().enumerate() {
        if let Some(nested) = tree_at(tree, place) {
            let mut path = Vec::new(search.alloc);
            let id = std::str::from_utf8(spec.id.as_bytes()).ok();
            write_child(within.path, place, id, &mut path)?;
            let part = search.part_of(within, place);
            let deeper = Within {
                path: path.as_slice(),
                part: search.source.at_key(part, ChildKey::Tree.name()),
            };
            look_below(search, &deeper, nested, left)?;
        }
    }
    Ok(())
}

/// All that is found in a tree.
fn search_all(
    alloc: Global,
    source: &Source,
    tree: &TreeSpec,
) -> Result<Vec<StartFinding>, AllocError> {
    let mut search = Search {
        alloc,
        source,
        found: Vec::new(alloc),
    };
    let root = Within {
        path: b"",
        part: Some(Part::WHOLE),
    };
    look_below(&mut search, &root, tree, MAX_DEPTH)?;
    let Search { found, .. } = search;
    Ok(found)
}

/// What is found in a file whose tree is refused for its starts.
fn found_in(alloc: Global, file: &[u8]) -> Result<Vec<StartFinding>, AllocError> {
    let Ok(tree) = read_tree(alloc, file) else {
        return Err(AllocError);
    };
    let Ok(source) = Source::read(alloc, file) else {
        drop(tree);
        return Err(AllocError);
    };
    let found = search_all(alloc, &source, &tree);
    drop(source);
    drop(tree);
    found
}

/// What is found in a file whose tree is refused for its starts, and at least that there is such a start.
fn refused_in(alloc: Global, file: &[u8]) -> Result<Vec<StartFinding>, AllocError>
    ensures { IfOk result (λ found. ¬ (found.items ≡ [])) }
{
    let mut found = found_in(alloc, file)?;
    if found.is_empty() {
        let text = Vec::from_slice(alloc, b"a start that run doesn't know")?;
        found
            .push(StartFinding { line: None, text })
            .map_err(|_| AllocError)?;
    }
    Ok(found)
}

/// The children of the tree of a file that `run` would refuse, in the order of the tables.
///
/// # Errors
///
/// Where memory is refused, and for a file that says no tree.
pub fn find_unfit(alloc: Global, file: &[u8]) -> Result<Vec<StartFinding>, AllocError>
    ensures { IfOk result (λ found. FindsUnfit found.items file.now) }
{
    let Ok(tree) = read_tree(alloc, file) else {
        return Err(AllocError);
    };
    match runnable_tables(alloc, tree) {
        Ok(tables) => {
            drop(tables);
            Ok(Vec::new(alloc))
        }
        Err(PlanFault::UnknownStart(_) | PlanFault::WrongBody) => refused_in(alloc, file),
        Err(PlanFault::OutOfMemory | PlanFault::TooManyTables) => Err(AllocError),
    }
}
