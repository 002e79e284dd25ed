//! Lists of names as arrays.

ghost use Rattle.std.specs.Prelude.{◌≡◌, ◌++◌, OnOk};
ghost use Rattle.std.specs.List.{flat_map};
ghost use Rattle.otp_objects.specs.Names.{name_text, names_text, next_name, next_path, paths_text};

use otp_costs::limits::Path;
use otp_costs::put_below;
use otp_json::put_json_text;
use otp_reason::Name;
use std::alloc::AllocError;

/// Appends the name of a child. The word is a place for a text.
#[tactic(auto, unfolding(crate::specs::Names::name_text))]
fn write_name(
    path: &[u8],
    name: &Name,
    word: &mut Vec<u8>,
    out: &mut Vec<u8>,
) -> Result<(), AllocError>
    ensures { OnOk result (out.new.items ≡ out.old.items ++ name_text path.now name.now) }
{
    put_below(path, name, word)?;
    put_json_text(word.as_slice(), out)
}

/// Appends the name of a child behind another.
#[tactic(auto, unfolding(crate::specs::Names::next_name))]
fn write_next_name(
    path: &[u8],
    name: &Name,
    word: &mut Vec<u8>,
    out: &mut Vec<u8>,
) -> Result<(), AllocError>
    ensures { OnOk result (out.new.items ≡ out.old.items ++ next_name path.now name.now) }
{
    out.extend_from_slice(b", ")?;
    write_name(path, name, word, out)
}

/// Appends the names of children behind others.
fn write_next_names(
    path: &[u8],
    names: &[Name],
    word: &mut Vec<u8>,
    out: &mut Vec<u8>,
) -> Result<(), AllocError>
    ensures { OnOk result (out.new.items ≡ out.old.items ++ flat_map (next_name path.now) names.now) }
{
    for name in names {
        write_next_name(path, name, word, out)?;
    }
    Ok(())
}

/// Appends the names of children of one supervisor.
#[tactic(auto, unfolding(crate::specs::Names::names_text))]
pub(crate) fn write_names(
    path: &[u8],
    names: &[Name],
    word: &mut Vec<u8>,
    out: &mut Vec<u8>,
) -> Result<(), AllocError>
    ensures { OnOk result (out.new.items ≡ out.old.items ++ names_text path.now names.now) }
{
    match names {
        [] => out.extend_from_slice(b"[]"),
        [first, others @ ..] => {
            out.extend_from_slice(b"[")?;
            write_name(path, first, word, out)?;
            write_next_names(path, others, word, out)?;
            out.extend_from_slice(b"]")
        }
    }
}

/// Appends the path of a supervisor behind another.
#[tactic(auto, unfolding(crate::specs::Names::next_path))]
fn write_next_path(path: &Path, out: &mut Vec<u8>) -> Result<(), AllocError>
    ensures { OnOk result (out.new.items ≡ out.old.items ++ next_path path.now) }
{
    out.extend_from_slice(b", ")?;
    put_json_text(path.as_bytes(), out)
}

/// Appends the paths of supervisors behind others.
fn write_next_paths(paths: &[Path], out: &mut Vec<u8>) -> Result<(), AllocError>
    ensures { OnOk result (out.new.items ≡ out.old.items ++ flat_map next_path paths.now) }
{
    for path in paths {
        write_next_path(path, out)?;
    }
    Ok(())
}

/// Appends the paths of supervisors.
#[tactic(auto, unfolding(crate::specs::Names::paths_text))]
pub(crate) fn write_paths(paths: &[Path], out: &mut Vec<u8>) -> Result<(), AllocError>
    ensures { OnOk result (out.new.items ≡ out.old.items ++ paths_text paths.now) }
{
    match paths {
        [] => out.extend_from_slice(b"[]"),
        [first, others @ ..] => {
            out.extend_from_slice(b"[")?;
            put_json_text(first.as_bytes(), out)?;
            write_next_paths(others, out)?;
            out.extend_from_slice(b"]")
        }
    }
}
