//! A text comes in, and a tree file goes out.

ghost use Rattle.std.specs.Prelude.{◌≤◌, IfErr, IfOk, length};
ghost use Rattle.otp_foreign.specs.Faults.{place_of};
ghost use Rattle.otp_import.specs.Trees.{HasTree};

use crate::like::is_tree;
use crate::supervisor::put_supervisor;
use crate::supervisord::{is_ini, put_programs};
use crate::term::read_term;
use crate::units::{is_units, put_units};
use otp_file::{MAX_DEPTH, TreeFault, read_tree};
use otp_foreign::{ImportFault, ImportWork, Spot, Why, write_place};
use otp_spec::SpecFault;
use std::alloc::{AllocError, Global};

/// What a text says.
#[derive(Debug, Drop)]
pub struct Import {
    /// The tree file.
    pub tree: Vec<u8>,
    /// What each start word of it runs, where the text says that: a file of commands.
    pub commands: Vec<u8>,
    /// What has no counterpart or became something else, a line each: the name of the text, line, column, and what it is.
    pub remarks: Vec<u8>,
}

/// Why a tree file that was written would be refused.
fn refusal(fault: &TreeFault) -> &'static str {
    match fault {
        TreeFault::Unlawful(SpecFault::SignificantPermanent { .. }) =>
            "a significant child is permanent, which OTP refuses too",
        TreeFault::Unlawful(SpecFault::SignificantNever { .. }) =>
            "a child is significant under auto_shutdown never, which OTP refuses too",
        TreeFault::Unlawful(SpecFault::SimpleNeedsOne) =>
            "a supervisor of simple_one_for_one has exactly one child, from which all are made",
        TreeFault::TooManyTables =>
            "more than 64 supervisors: import the parts of the tree one by one",
        TreeFault::TooDeep => "supervisors are nested more than 16 deep",
        _ => "the tree that it says is refused",
    }
}

/// A text without the mark of its encoding, which some editors put at its beginning.
fn behind_mark(text: &[u8]) -> &[u8]
    ensures { length result.now ≤ length text.now }
{
    text.strip_prefix(b"\xef\xbb\xbf").unwrap_or(text)
}

/// Whether a text begins with the mark of UTF-16.
fn is_wide(text: &[u8]) -> bool {
    matches!(text, [0xff, 0xfe, ..] | [0xfe, 0xff, ..])
}

/// Writes what a text says.
fn put_all(work: &mut ImportWork<'_>) -> Result<(), ImportFault> {
    if is_wide(work.text) {
        return Err(ImportFault::At(0, Why::NotUtf8));
    }
    if is_tree(work.text) {
        return Err(ImportFault::At(0, Why::IsTree));
    }
    if is_units(work.text) {
        return put_units(work);
    }
    if is_ini(work.text) {
        return put_programs(work);
    }
    let terms = read_term(work.alloc, work.text)?;
    put_supervisor(work, &terms, 0, b"", MAX_DEPTH)
}

/// An import whose tree file is read back.
fn read_back(alloc: Global, import: Import) -> Result<Import, ImportFault>
    ensures { IfOk result (λ import. HasTree import.tree.items) }
{
    match read_tree(alloc, import.tree.as_slice()) {
        Ok(tree) => {
            drop(tree);
            Ok(import)
        }
        Err(TreeFault::OutOfMemory) => Err(ImportFault::OutOfMemory),
        Err(fault) => Err(ImportFault::NoTree(0, refusal(&fault))),
    }
}

/// What a text says.
fn import_whole(alloc: Global, name: &str, text: &[u8]) -> Result<Import, ImportFault>
    ensures { IfOk result (λ import. HasTree import.tree.items) }
{
    let mut work = ImportWork::new(alloc, name, text);
    let written = put_all(&mut work);
    let (tree, commands, remarks) = work.into_parts();
    let import = Import {
        tree,
        commands,
        remarks,
    };
    match written {
        Ok(()) => read_back(alloc, import),
        Err(fault) => Err(fault),
    }
}

/// Makes a tree file of a text, which is called by this name in the remarks: a term of Erlang or Elixir that says a supervisor,
/// the file of supervisord, or units of systemd as `systemctl cat` prints them.
///
/// # Errors
///
/// Where the text isn't one, what is wrong and where; and where memory is refused.
pub fn import_text(alloc: Global, name: &str, text: &[u8]) -> Result<Import, ImportFault>
    ensures tree { IfOk result (λ import. HasTree import.tree.items) }
    ensures inside { IfErr result (λ fault. place_of fault ≤ length text.now) }
{
    match import_whole(alloc, name, behind_mark(text)) {
        Ok(import) => Ok(import),
        Err(fault) => Err(fault.within(text.len())),
    }
}

/// Appends what is wrong with a text of this name, and where: one line.
///
/// # Errors
///
/// Where memory is refused.
pub fn write_fault(
    name: &str,
    text: &[u8],
    fault: &ImportFault,
    out: &mut Vec<u8>,
) -> Result<(), AllocError> {
    let spot = Spot::FIRST.moved_to(behind_mark(text), fault.place());
    write_place(name, spot, out)?;
    out.extend_from_slice(fault.text().as_bytes())?;
    out.extend_from_slice(b"\n")
}
