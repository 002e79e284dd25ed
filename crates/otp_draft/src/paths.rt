//! The paths of a tree's supervisors.
ghost use Rattle.std.specs.Prelude.{◌≡◌, ◌++◌, [], ◌∷◌, IfOk, OnOk, map, position};
ghost use Rattle.otp_draft.specs.Paths.{has_path, next_prefix, path_text, prefixes_behind};

use otp_reason::Name;
use std::alloc::{AllocError, Global};
use std::marker::Model;

/// Which child of its parent a nested supervisor is, and how many places behind its parent it stands in the order of the walk.
#[derive(Clone, Copy, Debug, PartialEq, Eq)]
pub struct Nested {
    pub id: Name,
    pub behind: usize,
}

/// Where a supervisor stands in its tree: `root`, or the ids from the root's child on, as `pool/cache`.
#[derive(Drop)]
pub struct TreePath {
    // What its children have in front of their ids: nothing of the root's, else the path and a slash.
    prefix: Vec<u8>,
}

impl Model for TreePath {
    ghost use Rattle.std.specs.Prelude.{ℕ, List};

    ghost Value = { List ℕ };

    ghost view = { λ p. p.prefix.items };
}

impl TreePath {
    /// Its text.
    pub fn as_bytes(&self) -> &[u8]
        ensures { result.now ≡ path_text self.now }
    {
        text_of(self.prefix.as_slice())
    }

    /// Whether the path is this text.
    fn has_text(&self, text: &str) -> bool
        ensures { result ≡ has_path text.now self.now }
    {
        self.as_bytes() == text.as_bytes()
    }
}

/// The path of a supervisor whose children have this in front of their ids.
#[tactic(auto, unfolding(crate::specs::Paths::path_text))]
fn text_of(prefix: &[u8]) -> &[u8]
    ensures { result.now ≡ path_text prefix.now }
{
    match prefix {
        [] => b"root",
        prefix => &prefix[..prefix.len() - 1],
    }
}

/// The path of the next supervisor, behind these.
fn next_path(alloc: Global, before: &[TreePath], one: &Nested) -> Result<TreePath, AllocError>
    ensures { IfOk result (λ path. path ≡ next_prefix before.now one.now) }
{
    let mut prefix = Vec::new(alloc);
    if let Some(parent) = before.get(before.len().saturating_sub(one.behind)) {
        prefix.extend_from_slice(parent.prefix.as_slice())?;
    }
    prefix.extend_from_slice(one.id.as_bytes())?;
    prefix.extend_from_slice(b"/")?;
    Ok(TreePath { prefix })
}

/// Puts a path behind the others.
fn put_path(paths: &mut Vec<TreePath>, path: TreePath) -> Result<(), AllocError>
    ensures { OnOk result (paths.new.items ≡ paths.old.items ++ path ∷ []) }
{
    paths.push(path).map_err(|_| AllocError)
}

/// Puts the paths of these supervisors behind those that stand before them.
fn put_paths(alloc: Global, paths: &mut Vec<TreePath>, nested: &[Nested]) -> Result<(), AllocError>
    ensures { OnOk result (paths.new.items ≡ prefixes_behind paths.old.items nested.now) }
{
    for one in nested {
        let path = next_path(alloc, paths.as_slice(), one)?;
        put_path(paths, path)?;
    }
    Ok(())
}

/// Puts the root's path first, and then those of these supervisors.
fn put_all_paths(
    alloc: Global,
    paths: &mut Vec<TreePath>,
    nested: &[Nested],
) -> Result<(), AllocError>
    requires { paths.old.items ≡ [] }
    ensures { OnOk result (paths.new.items ≡ prefixes_behind ([] ∷ []) nested.now) }
{
    let root = TreePath {
        prefix: Vec::new(alloc),
    };
    put_path(paths, root)?;
    put_paths(alloc, paths, nested)
}

/// The paths of a tree's supervisors, of which these stand below the root.
pub(crate) fn paths_of(alloc: Global, nested: &[Nested]) -> Result<Vec<TreePath>, AllocError>
    ensures { IfOk result (λ paths. paths.items ≡ prefixes_behind ([] ∷ []) nested.now) }
{
    let mut paths = Vec::new(alloc);
    match put_all_paths(alloc, &mut paths, nested) {
        Ok(()) => Ok(paths),
        Err(AllocError) => {
            drop(paths);
            Err(AllocError)
        }
    }
}

/// The place of the first of these paths whose text is this.
pub fn find_path(paths: &[TreePath], text: &str) -> Option<usize>
    ensures { result ≡ position (has_path text.now) paths.now }
{
    paths.iter().position(|path| path.has_text(text))
}
