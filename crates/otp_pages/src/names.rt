//! Names of children and supervisors in a page.

ghost use Rattle.std.specs.Prelude.{◌≡◌, ◌++◌, OnOk};
ghost use Rattle.std.specs.List.{flat_map};
ghost use Rattle.otp_pages.specs.Names.{name_html, names_html, next_name, next_path, path_html, paths_html, some_paths};

use crate::html::put_element;
use otp_costs::limits::Path;
use otp_costs::put_below;
use otp_reason::Name;
use std::alloc::AllocError;

/// Appends the name of a child. The word is a place for a text.
#[tactic(auto, unfolding(crate::specs::Names::name_html))]
pub(crate) fn put_name(
    path: &[u8],
    name: &Name,
    word: &mut Vec<u8>,
    out: &mut Vec<u8>,
) -> Result<(), AllocError>
    ensures { OnOk result (out.new.items ≡ out.old.items ++ name_html path.now name.now) }
{
    put_below(path, name, word)?;
    put_element(b"<code>", word.as_slice(), b"</code>", out)
}

/// Appends the name of a child behind another.
#[tactic(auto, unfolding(crate::specs::Names::next_name))]
fn put_next_name(
    path: &[u8],
    name: &Name,
    word: &mut Vec<u8>,
    out: &mut Vec<u8>,
) -> Result<(), AllocError>
    ensures { OnOk result (out.new.items ≡ out.old.items ++ next_name path.now name.now) }
{
    out.extend_from_slice(b", ")?;
    put_name(path, name, word, out)
}

/// Appends the names of children behind others.
fn put_next_names(
    path: &[u8],
    names: &[Name],
    word: &mut Vec<u8>,
    out: &mut Vec<u8>,
) -> Result<(), AllocError>
    ensures { OnOk result (out.new.items ≡ out.old.items ++ flat_map (next_name path.now) names.now) }
{
    for name in names {
        put_next_name(path, name, word, out)?;
    }
    Ok(())
}

/// Appends the names of children of one supervisor.
#[tactic(auto, unfolding(crate::specs::Names::names_html))]
pub(crate) fn put_names(
    path: &[u8],
    names: &[Name],
    word: &mut Vec<u8>,
    out: &mut Vec<u8>,
) -> Result<(), AllocError>
    ensures { OnOk result (out.new.items ≡ out.old.items ++ names_html path.now names.now) }
{
    match names {
        [] => out.extend_from_slice(b"<small>nothing</small>"),
        [first, others @ ..] => {
            put_name(path, first, word, out)?;
            put_next_names(path, others, word, out)
        }
    }
}

/// Appends the path of a supervisor.
#[tactic(auto, unfolding(crate::specs::Names::path_html))]
pub(crate) fn put_path(path: &[u8], out: &mut Vec<u8>) -> Result<(), AllocError>
    ensures { OnOk result (out.new.items ≡ out.old.items ++ path_html path.now) }
{
    put_element(b"<code>", path, b"</code>", out)
}

/// Appends the path of a supervisor behind another.
#[tactic(auto, unfolding(crate::specs::Names::next_path))]
fn put_next_path(path: &Path, out: &mut Vec<u8>) -> Result<(), AllocError>
    ensures { OnOk result (out.new.items ≡ out.old.items ++ next_path path.now) }
{
    out.extend_from_slice(b", then ")?;
    put_path(path.as_bytes(), out)
}

/// Appends the paths of supervisors behind others.
fn put_next_paths(paths: &[Path], out: &mut Vec<u8>) -> Result<(), AllocError>
    ensures { OnOk result (out.new.items ≡ out.old.items ++ flat_map next_path paths.now) }
{
    for path in paths {
        put_next_path(path, out)?;
    }
    Ok(())
}

/// Appends the paths of supervisors that give up one after the other.
#[tactic(auto, unfolding(crate::specs::Names::some_paths))]
fn put_some(first: &Path, others: &[Path], out: &mut Vec<u8>) -> Result<(), AllocError>
    ensures { OnOk result (out.new.items ≡ out.old.items ++ some_paths first.now others.now) }
{
    out.extend_from_slice(b"<small>through ")?;
    put_path(first.as_bytes(), out)?;
    put_next_paths(others, out)?;
    out.extend_from_slice(b"</small>")
}

/// Appends the paths of supervisors that give up one after the other, if there are some.
#[tactic(auto, unfolding(crate::specs::Names::paths_html))]
pub(crate) fn put_paths(paths: &[Path], out: &mut Vec<u8>) -> Result<(), AllocError>
    ensures { OnOk result (out.new.items ≡ out.old.items ++ paths_html paths.now) }
{
    match paths {
        [] => Ok(()),
        [first, others @ ..] => put_some(first, others, out),
    }
}
