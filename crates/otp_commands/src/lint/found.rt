//! The remarks on the tree of a file, with the lines that they are about.

ghost use Rattle.std.specs.Prelude.{◌≡◌, ◌++◌, IfOk, OnOk, map};
ghost use Rattle.otp_commands.specs.Found.{Finds, FindsAny, text_of};
ghost use Rattle.otp_commands.specs.Lint.{remarks_in};
ghost use Rattle.otp_commands.specs.Texts.{remark_text};

use crate::lint::remark::{Remark, RemarkKind};
use crate::lint::remarks::lint;
use crate::lint::text::write_remark;
use otp_check::source::{Part, Source};
use otp_file::{ChildKey, FlagKey, MAX_DEPTH, TreeSpec, read_tree};
use std::alloc::{AllocError, Global};

/// A remark on the tree of a file.
#[derive(Drop)]
pub struct LintFinding {
    /// The line of the file that it is about, from 1, where that is known.
    pub line: Option<u64>,
    /// One line, without its end: `L3: pool/a: ..`.
    pub text: Vec<u8>,
}

impl otp_check::Remark for LintFinding {
    ghost use Rattle.otp_commands.specs.Found.{remarked};

    ghost remarked = { remarked };

    fn line(&self) -> Option<u64> {
        self.line
    }

    fn text(&self) -> &[u8] {
        self.text.as_slice()
    }
}

/// The part of the file that says the child at this place of a supervisor.
fn part_of_child(source: &Source, supervisor: Option<Part>, place: usize) -> Option<Part> {
    let children = source.at_key(supervisor, FlagKey::Child.name());
    source.at_index(children, place)
}

/// Appends where the table of a supervisor stands, and then those of all below it, to so many levels: by their numbers.
fn put_parts(
    source: &Source,
    part: Option<Part>,
    tree: &TreeSpec,
    levels: usize,
    out: &mut Vec<Option<Part>>,
) -> Result<(), AllocError> {
    let Some(left) = levels.checked_sub(1) else {
        return Ok(());
    };
    out.push(part).map_err(|_| AllocError)?;
    let nested = tree.nested();
    for (index, sub) in tree.trees().iter().enumerate() {
        if index < nested.len() {
            let child = part_of_child(source, part, nested[index]);
            let below = source.at_key(child, ChildKey::Tree.name());
            put_parts(source, below, sub, left, out)?;
        }
    }
    Ok(())
}

/// The key that a remark of this kind is about.
fn key_of(kind: &RemarkKind) -> &'static str {
    match kind {
        RemarkKind::LongStop { .. } | RemarkKind::EndlessWorker => ChildKey::Shutdown.name(),
        RemarkKind::NoRestart { .. } => FlagKey::Intensity.name(),
        RemarkKind::FanOut { .. } => ChildKey::Start.name(),
        RemarkKind::NeverEnds => ChildKey::Significant.name(),
        RemarkKind::AlikeId { .. } => ChildKey::Id.name(),
    }
}

/// The line of a key of a table, or of the table itself where it has no such key. The whole file has none.
fn line_at(source: &Source, part: Option<Part>, key: &str) -> Option<u64> {
    match source.line(source.at_key(part, key)) {
        None if part != Some(Part::WHOLE) => source.line(part),
        line => line,
    }
}

/// The line that a remark is about, where the tables of supervisors stand there.
fn line_of(source: &Source, parts: &[Option<Part>], remark: &Remark) -> Option<u64> {
    if remark.supervisor >= parts.len() {
        return None;
    }
    let supervisor = parts[remark.supervisor];
    let part = match remark.child {
        Some(place) => part_of_child(source, supervisor, place),
        None => supervisor,
    };
    line_at(source, part, key_of(&remark.kind))
}

/// Puts the findings of these remarks behind others.
fn put_findings(
    alloc: Global,
    source: &Source,
    parts: &[Option<Part>],
    remarks: &[Remark],
    out: &mut Vec<LintFinding>,
) -> Result<(), AllocError>
    ensures { OnOk result (map text_of out.new.items ≡ map text_of out.old.items ++ map remark_text remarks.now) }
{
    let [remark, others @ ..] = remarks else {
        return Ok(());
    };
    let mut text = Vec::new(alloc);
    write_remark(remark, &mut text)?;
    let line = line_of(source, parts, remark);
    out.push(LintFinding { line, text })
        .map_err(|_| AllocError)?;
    put_findings(alloc, source, parts, others, out)
}

/// What is remarked on a tree that stands so in its file.
fn findings_in(
    alloc: Global,
    source: &Source,
    tree: &TreeSpec,
) -> Result<Vec<LintFinding>, AllocError>
    ensures { IfOk result (λ found. map text_of found.items ≡ map remark_text (remarks_in tree.now)) }
{
    let mut parts = Vec::new(alloc);
    put_parts(source, Some(Part::WHOLE), tree, MAX_DEPTH, &mut parts)?;
    let remarks = lint(alloc, tree)?;
    let mut found = Vec::new(alloc);
    put_findings(
        alloc,
        source,
        parts.as_slice(),
        remarks.as_slice(),
        &mut found,
    )?;
    Ok(found)
}

/// The remarks on the tree of a file, in the order of its supervisors.
///
/// # Errors
///
/// Where memory is refused, and for a file that says no tree.
pub fn find_remarks(alloc: Global, file: &[u8]) -> Result<Vec<LintFinding>, AllocError>
    ensures texts { IfOk result (λ found. Finds found.items file.now) }
    ensures any { IfOk result (λ found. FindsAny found.items file.now) }
{
    let Ok(tree) = read_tree(alloc, file) else {
        return Err(AllocError);
    };
    let Ok(source) = Source::read(alloc, file) else {
        drop(tree);
        return Err(AllocError);
    };
    let found = findings_in(alloc, &source, &tree);
    drop(source);
    drop(tree);
    found
}
