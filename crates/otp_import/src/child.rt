//! A child specification.

use crate::term::{TermKind, Terms};
use crate::values::{put_one_of, put_within};
use otp_foreign::{Id, ImportFault, ImportWork, Why, number_in, set_apart};
use otp_spec::MAX_SHUTDOWN;

/// The most modules that a child has.
const MOST_MODULES: usize = 4;

/// The parts of a term that say a child, where they are said.
#[derive(Clone, Copy, Debug)]
pub(crate) struct Said {
    id: Option<usize>,
    start: Option<usize>,
    restart: Option<usize>,
    significant: Option<usize>,
    shutdown: Option<usize>,
    kind: Option<usize>,
    modules: Option<usize>,
    /// What the child supervises.
    pub tree: Option<usize>,
}

/// A child of which nothing is said.
fn nothing_said() -> Said {
    Said {
        id: None,
        start: None,
        restart: None,
        significant: None,
        shutdown: None,
        kind: None,
        modules: None,
        tree: None,
    }
}

/// Takes what is said of a child at a key of a map.
fn take_said(
    work: &mut ImportWork<'_>,
    terms: &Terms,
    key: usize,
    value: usize,
    said: &mut Said,
) -> Result<(), ImportFault> {
    let word = terms.bytes(work.text, key);
    match word {
        b"id" => said.id = Some(value),
        b"start" => said.start = Some(value),
        b"restart" => said.restart = Some(value),
        b"significant" => said.significant = Some(value),
        b"shutdown" => said.shutdown = Some(value),
        b"type" => said.kind = Some(value),
        b"modules" => said.modules = Some(value),
        b"tree" => said.tree = Some(value),
        _ => work.remark(
            terms.start(key),
            "key ",
            word,
            ": it has no counterpart, and is left out",
        )?,
    }
    Ok(())
}

/// The child that a map says.
fn said_by_key(work: &mut ImportWork<'_>, terms: &Terms, at: usize) -> Result<Said, ImportFault> {
    let mut said = nothing_said();
    let entries = terms.entries(work.alloc, at)?;
    for entry in entries.as_slice() {
        take_said(work, terms, entry.key, entry.value, &mut said)?;
    }
    Ok(said)
}

/// The child that an answer of `which_children` tells of: of how it is restarted nothing is known.
fn said_by_process(
    work: &mut ImportWork<'_>,
    terms: &Terms,
    at: usize,
) -> Result<Said, ImportFault> {
    work.remark(
        terms.start(at),
        "",
        b"",
        "which_children says neither start, restart nor shutdown: those of OTP by default are written",
    )?;
    Ok(Said {
        id: terms.nth(at, 0),
        start: terms.nth(at, 0),
        kind: terms.nth(at, 2),
        modules: terms.nth(at, 3),
        ..nothing_said()
    })
}

/// Whether a part is a module as Elixir writes it.
fn is_module(text: &[u8], terms: &Terms, at: Option<usize>) -> bool {
    let Some(at) = at else {
        return false;
    };
    let is_written = match text.get(terms.start(at)) {
        Some(byte) => byte.is_ascii_uppercase() || *byte == b':',
        None => false,
    };
    is_written && terms.is_kind(at, TermKind::Atom)
}

/// The child that Elixir asks a module for, whose answer isn't known.
fn said_by_module(
    work: &mut ImportWork<'_>,
    terms: &Terms,
    at: usize,
    module: Option<usize>,
) -> Result<Said, ImportFault> {
    if !is_module(work.text, terms, module) {
        return Err(ImportFault::At(terms.start(at), Why::NoChild));
    }
    work.remark(
        terms.start(at),
        "",
        b"",
        "what child_spec/1 of this module answers isn't said: the values of OTP by default are written",
    )?;
    Ok(Said {
        id: module,
        start: module,
        ..nothing_said()
    })
}

/// The child that a tuple says, by how many parts it has.
fn said_by_tuple(work: &mut ImportWork<'_>, terms: &Terms, at: usize) -> Result<Said, ImportFault> {
    match terms.count(at) {
        6 => Ok(Said {
            id: terms.nth(at, 0),
            start: terms.nth(at, 1),
            restart: terms.nth(at, 2),
            shutdown: terms.nth(at, 3),
            kind: terms.nth(at, 4),
            modules: terms.nth(at, 5),
            ..nothing_said()
        }),
        4 => said_by_process(work, terms, at),
        2 => said_by_module(work, terms, at, terms.nth(at, 0)),
        _ => Err(ImportFault::At(terms.start(at), Why::NoChild)),
    }
}

/// The part behind `ok`, or the part itself.
pub(crate) fn behind_ok(text: &[u8], terms: &Terms, at: usize) -> usize {
    if !terms.is_kind(at, TermKind::Tuple) || terms.count(at) != 2 {
        return at;
    }
    match terms.nth(at, 0) {
        Some(first) if terms.is_atom(text, first, b"ok") => terms.nth(at, 1).unwrap_or(at),
        _ => at,
    }
}

/// The child that a part says.
fn said_of(work: &mut ImportWork<'_>, terms: &Terms, at: usize) -> Result<Said, ImportFault> {
    let at = behind_ok(work.text, terms, at);
    match terms.part(at) {
        Some(part) => match part.kind {
            TermKind::Map => said_by_key(work, terms, at),
            TermKind::Tuple => said_by_tuple(work, terms, at),
            TermKind::Atom => said_by_module(work, terms, at, Some(at)),
            TermKind::List | TermKind::Text | TermKind::Number | TermKind::Opaque => Err(
                ImportFault::At(part.start, Why::NoChild),
            ),
        },
        None => Err(ImportFault::At(0, Why::NoChild)),
    }
}

/// Writes the id of a child, which no sibling has.
fn put_id(
    work: &mut ImportWork<'_>,
    terms: &Terms,
    at: usize,
    taken: &mut Vec<Id>,
) -> Result<(), ImportFault> {
    let read = terms.bytes(work.text, at);
    let id = set_apart(Id::of(read), taken)?;
    if id.as_slice() != read {
        work.remark_as(
            terms.start(at),
            "id ",
            read,
            ": this name stands for it: ",
            id.as_slice(),
        )?;
    }
    work.put_word("id", id.as_slice())?;
    Ok(())
}

/// The module of a start function.
fn module_of(terms: &Terms, at: usize) -> Result<usize, ImportFault> {
    let module = if terms.is_kind(at, TermKind::Tuple) && terms.count(at) == 3 {
        terms.nth(at, 0)
    } else {
        Some(at)
    };
    let Some(module) = module else {
        return Err(ImportFault::At(terms.start(at), Why::BadStart));
    };
    if terms.is_kind(module, TermKind::Tuple) {
        return Err(ImportFault::At(terms.start(at), Why::BadStart));
    }
    Ok(module)
}

/// Writes the module of a child's start function.
fn put_start(work: &mut ImportWork<'_>, terms: &Terms, at: usize) -> Result<(), ImportFault> {
    let module = module_of(terms, at)?;
    put_module(work, terms, module, "start")
}

/// Writes a module's name at a key.
fn put_module(
    work: &mut ImportWork<'_>,
    terms: &Terms,
    at: usize,
    key: &str,
) -> Result<(), ImportFault> {
    let id = named_module(work, terms, at)?;
    work.put_word(key, id.as_slice())?;
    Ok(())
}

/// The name of a module, with a remark where it is another one.
fn named_module(work: &mut ImportWork<'_>, terms: &Terms, at: usize) -> Result<Id, ImportFault> {
    let read = terms.bytes(work.text, at);
    let id = Id::of(read);
    if id.as_slice() != read {
        work.remark_as(
            terms.start(at),
            "module ",
            read,
            ": this name stands for it: ",
            id.as_slice(),
        )?;
    }
    Ok(id)
}

/// Writes how long a child may take to end. One with a tree is waited for.
fn put_shutdown(
    work: &mut ImportWork<'_>,
    terms: &Terms,
    at: usize,
    has_tree: bool,
) -> Result<(), ImportFault> {
    let word = terms.bytes(work.text, at);
    let place = terms.start(at);
    if has_tree {
        if word != b"infinity".as_slice() {
            work.remark(
                place,
                "shutdown ",
                word,
                " of a supervisor: infinity is written, since it is waited for",
            )?;
        }
        return Ok(());
    }
    if let Some(time) = number_in(word) {
        return put_within(work, "shutdown", place, time, 0, MAX_SHUTDOWN);
    }
    put_one_of(
        work,
        terms,
        "shutdown",
        at,
        &["brutal_kill", "infinity"],
        Why::BadShutdown,
    )
}

/// Writes the type of a child; one with a tree is a supervisor.
fn put_type(
    work: &mut ImportWork<'_>,
    terms: &Terms,
    at: usize,
    has_tree: bool,
) -> Result<(), ImportFault> {
    if has_tree && terms.is_atom(work.text, at, b"worker") {
        work.remark(
            terms.start(at),
            "",
            b"",
            "type worker of a child with a tree: supervisor is written",
        )?;
        return Ok(());
    }
    if !has_tree && terms.is_atom(work.text, at, b"supervisor") {
        work.remark(
            terms.start(at),
            "",
            b"",
            "what this supervisor supervises isn't said: it is written without a tree",
        )?;
    }
    put_one_of(
        work,
        terms,
        "type",
        at,
        &["worker", "supervisor"],
        Why::BadType,
    )
}

/// Writes the modules of a list, as many as a child has.
fn put_modules(work: &mut ImportWork<'_>, terms: &Terms, at: usize) -> Result<(), ImportFault> {
    work.tree.extend_from_slice(b"modules = [")?;
    let mut count: usize = 0;
    for number in at.saturating_add(1)..terms.last(at) {
        if terms.has(at, number) && count < MOST_MODULES {
            if count > 0 {
                work.tree.extend_from_slice(b", ")?;
            }
            let id = named_module(work, terms, number)?;
            work.tree.extend_from_slice(b"\"")?;
            work.tree.extend_from_slice(id.as_slice())?;
            work.tree.extend_from_slice(b"\"")?;
            count = count.saturating_add(1);
        }
    }
    work.tree.extend_from_slice(b"]\n")?;
    if terms.count(at) > MOST_MODULES {
        work.remark(
            terms.start(at),
            "",
            b"",
            "more than four modules: the first four are written",
        )?;
    }
    Ok(())
}

/// Whether these modules are the start function's alone, as they are where none are said.
fn are_default(text: &[u8], terms: &Terms, at: usize, start: usize) -> bool {
    if terms.count(at) != 1 {
        return false;
    }
    let (Some(first), Ok(module)) = (terms.nth(at, 0), module_of(terms, start)) else {
        return false;
    };
    terms.bytes(text, first) == terms.bytes(text, module)
}

/// Writes the modules of a child, unless they are those that it has where none are said.
fn put_said_modules(
    work: &mut ImportWork<'_>,
    terms: &Terms,
    at: usize,
    start: usize,
) -> Result<(), ImportFault> {
    if terms.is_atom(work.text, at, b"dynamic") {
        work.put_word("modules", b"dynamic")?;
        return Ok(());
    }
    if !terms.is_kind(at, TermKind::List) {
        return Err(ImportFault::At(terms.start(at), Why::BadModules));
    }
    if are_default(work.text, terms, at, start) {
        return Ok(());
    }
    put_modules(work, terms, at)
}

/// Writes what a child is restarted by.
fn put_restart(work: &mut ImportWork<'_>, terms: &Terms, said: &Said) -> Result<(), ImportFault> {
    if let Some(at) = said.restart {
        let words = ["permanent", "transient", "temporary"];
        put_one_of(work, terms, "restart", at, &words, Why::BadRestart)?;
    }
    let Some(at) = said.significant else {
        return Ok(());
    };
    let word = terms.bytes(work.text, at);
    if word != b"true".as_slice() && word != b"false".as_slice() {
        return Err(ImportFault::At(terms.start(at), Why::BadSignificant));
    }
    work.put_bare("significant", word)?;
    Ok(())
}

/// Writes the rest of a child whose start is known.
fn put_rest(
    work: &mut ImportWork<'_>,
    terms: &Terms,
    said: &Said,
    start: usize,
) -> Result<(), ImportFault> {
    let has_tree = said.tree.is_some();
    put_restart(work, terms, said)?;
    if let Some(at) = said.shutdown {
        put_shutdown(work, terms, at, has_tree)?;
    }
    if let Some(at) = said.kind {
        put_type(work, terms, at, has_tree)?;
    }
    if let Some(at) = said.modules {
        put_said_modules(work, terms, at, start)?;
    }
    Ok(())
}

/// Leaves out the tree of a child from which all are made.
fn without_tree(
    work: &mut ImportWork<'_>,
    terms: &Terms,
    said: Said,
    is_simple: bool,
) -> Result<Said, ImportFault> {
    let Some(at) = said.tree else {
        return Ok(said);
    };
    if !is_simple {
        return Ok(said);
    }
    work.remark(
        terms.start(at),
        "",
        b"",
        "under simple_one_for_one a child has no tree: it is left out",
    )?;
    Ok(Said { tree: None, ..said })
}

/// Writes the child that a part says, below this path, and gives what it supervises.
pub(crate) fn put_child(
    work: &mut ImportWork<'_>,
    terms: &Terms,
    at: usize,
    path: &[u8],
    is_simple: bool,
    taken: &mut Vec<Id>,
) -> Result<Option<usize>, ImportFault> {
    let said = said_of(work, terms, at)?;
    let said = without_tree(work, terms, said, is_simple)?;
    let Some(id) = said.id else {
        return Err(ImportFault::At(terms.start(at), Why::NoId));
    };
    let Some(start) = said.start else {
        return Err(ImportFault::At(terms.start(at), Why::NoStart));
    };
    work.put_head("[[", path, "child]]\n")?;
    put_id(work, terms, id, taken)?;
    put_start(work, terms, start)?;
    put_rest(work, terms, &said, start)?;
    Ok(said.tree)
}
