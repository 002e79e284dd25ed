//! A start that `run` can't do, and the words for it.

use crate::finding::Remark;
use crate::hints::nearest;
use crate::owner::write_child;
use otp_file::roles::{JobWork, Role};
use otp_spec::{ChildSpec, ChildType};
use otp_text::write_name;
use std::alloc::{AllocError, Global};

/// A child that can't be run.
#[derive(Debug, Drop)]
pub struct StartFinding {
    /// The line of the file that has its start, from 1, where that is known.
    pub line: Option<u64>,
    /// Which child it is, what was read, and what to write: one line, without its end.
    pub text: Vec<u8>,
}

impl Remark for StartFinding {
    ghost use Rattle.otp_check.specs.Unfit.{remarked};

    ghost remarked = { remarked };

    fn line(&self) -> Option<u64> {
        self.line
    }

    fn text(&self) -> &[u8] {
        self.text.as_slice()
    }
}

/// The words that stand for something that a child can do.
fn known_words() -> [&'static str; 8] {
    [
        JobWork::Steady.word(),
        JobWork::Once.word(),
        JobWork::Crash.word(),
        JobWork::CrashOnce.word(),
        JobWork::Ignore.word(),
        JobWork::Refuse.word(),
        JobWork::Stubborn.word(),
        "bridge",
    ]
}

/// Why a child without a tree can't be run.
#[derive(Clone, Copy, Debug, PartialEq, Eq)]
pub(crate) enum Unfit {
    /// Its start is no word that stands for something.
    Unknown,
    /// Its start stands for a worker's job, and its type is supervisor.
    NoSupervisor,
}

/// Why a child without a tree can't be run, if so. Under simple_one_for_one none is started, so no type is wrong.
pub(crate) fn why_unfit(spec: &ChildSpec, is_simple: bool) -> Option<Unfit> {
    match (Role::of_word(spec.start.as_bytes()), spec.kind) {
        (None, _) => Some(Unfit::Unknown),
        (Some(Role::Worker(_)), ChildType::Supervisor) if !is_simple => Some(Unfit::NoSupervisor),
        (Some(_), _) => None,
    }
}

/// What is said of the child at this place of the supervisor that has this path.
pub(crate) fn text_of(
    alloc: Global,
    why: Unfit,
    path: &[u8],
    place: usize,
    spec: &ChildSpec,
) -> Result<Vec<u8>, AllocError> {
    let mut text = Vec::new(alloc);
    let head: &[u8] = match why {
        Unfit::Unknown => b"unknown start: ",
        Unfit::NoSupervisor => b"E19: ",
    };
    text.extend_from_slice(head)?;
    let id = std::str::from_utf8(spec.id.as_bytes()).ok();
    write_child(path, place, id, &mut text)?;
    text.extend_from_slice(b", start: read \"")?;
    write_name(&spec.start, &mut text)?;
    match why {
        Unfit::Unknown => write_words(alloc, spec, &mut text)?,
        Unfit::NoSupervisor => text.extend_from_slice(
            b"\", a worker's job, of a child of type supervisor; write type = \"worker\", or start = \"bridge\"",
        )?,
    }
    Ok(text)
}

/// Appends which words there are, and the one that was meant, if one is near.
fn write_words(alloc: Global, spec: &ChildSpec, out: &mut Vec<u8>) -> Result<(), AllocError> {
    out.extend_from_slice(b"\"; run knows:")?;
    let words = known_words();
    for word in &words {
        out.extend_from_slice(b" ")?;
        out.extend_from_slice(word.as_bytes())?;
    }
    let Ok(start) = std::str::from_utf8(spec.start.as_bytes()) else {
        return Ok(());
    };
    if let Some(near) = nearest(alloc, start, &words)? {
        out.extend_from_slice(b"; did you mean ")?;
        out.extend_from_slice(near.as_bytes())?;
        out.extend_from_slice(b"?")?;
    }
    Ok(())
}
