//! A supervisor and all below it.

use crate::child::{behind_ok, put_child};
use crate::flags::put_flags;
use crate::term::{TermKind, Terms};
use otp_foreign::{ImportFault, ImportWork, Why};
use otp_spec::MAX_CHILDREN;
use std::alloc::{AllocError, Global};

/// The parts of a term that say a supervisor.
#[derive(Clone, Copy, Debug)]
struct Supervisor {
    flags: Option<usize>,
    children: usize,
}

/// The supervisor that a part says: a pair of flags and a list, as `init/1` answers it, or a list of children alone.
fn supervisor_at(text: &[u8], terms: &Terms, at: usize) -> Result<Supervisor, ImportFault> {
    let at = behind_ok(text, terms, at);
    if terms.is_kind(at, TermKind::List) {
        return Ok(Supervisor {
            flags: None,
            children: at,
        });
    }
    if !terms.is_kind(at, TermKind::Tuple) || terms.count(at) != 2 {
        return Err(ImportFault::At(terms.start(at), Why::NoSupervisor));
    }
    let Some(children) = terms.nth(at, 1) else {
        return Err(ImportFault::At(terms.start(at), Why::NoSupervisor));
    };
    if !terms.is_kind(children, TermKind::List) {
        return Err(ImportFault::At(terms.start(children), Why::BadChildren));
    }
    Ok(Supervisor {
        flags: terms.nth(at, 0),
        children,
    })
}

/// Writes the flags of a supervisor, and says whether all its children are made from one.
fn put_own(
    work: &mut ImportWork<'_>,
    terms: &Terms,
    supervisor: Supervisor,
) -> Result<bool, ImportFault> {
    match supervisor.flags {
        Some(flags) => put_flags(work, terms, flags),
        None => {
            work.remark(
                terms.start(supervisor.children),
                "",
                b"",
                "no flags stand before these children: they are those of OTP by default",
            )?;
            Ok(false)
        }
    }
}

/// The path of the children of a child that stands below this path.
fn path_below(alloc: Global, path: &[u8]) -> Result<Vec<u8>, AllocError> {
    let mut deeper = Vec::from_slice(alloc, path)?;
    deeper.extend_from_slice(b"child.tree.")?;
    Ok(deeper)
}

/// Writes the supervisor that a part says, whose keys have this path before them, and all below it, to so many levels.
pub(crate) fn put_supervisor(
    work: &mut ImportWork<'_>,
    terms: &Terms,
    at: usize,
    path: &[u8],
    levels: usize,
) -> Result<(), ImportFault> {
    let Some(left) = levels.checked_sub(1) else {
        return Err(ImportFault::At(terms.start(at), Why::TooDeep));
    };
    let supervisor = supervisor_at(work.text, terms, at)?;
    let is_simple = put_own(work, terms, supervisor)?;
    let children = supervisor.children;
    let mut taken = Vec::new(work.alloc);
    for number in children.saturating_add(1)..terms.last(children) {
        if !terms.has(children, number) {
            continue;
        }
        if taken.len() >= MAX_CHILDREN {
            return Err(ImportFault::At(terms.start(number), Why::TooMany));
        }
        if let Some(tree) = put_child(work, terms, number, path, is_simple, &mut taken)? {
            work.put_head("[", path, "child.tree]\n")?;
            let deeper = path_below(work.alloc, path)?;
            put_supervisor(work, terms, tree, deeper.as_slice(), left)?;
        }
    }
    Ok(())
}
