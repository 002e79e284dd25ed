//! A fault that was found, and the words for it.

ghost use Rattle.std.specs.Prelude.{ℕ, List, ◌≡◌, ◌++◌, IfOk, OnOk};
ghost use Rattle.otp_check.specs.Advice.{remedy_text};
ghost use Rattle.otp_check.specs.Texts.{IsSaid, Remarked, head_text, told};
ghost use Rattle.otp_file.specs.declared.fault.TreeFault.TheVariants.{Unlawful};
ghost use Rattle.otp_spec.specs.declared.fault.SpecFault.TheVariants.{SimpleNeedsOne};

use crate::advice::{is_detailed, no_only_child, remedy};
use crate::hints::{
    Key, is_root_header, meant_child_key, meant_flag, meant_word, nearest, small_letters,
    strange_letter, strange_sign, what_child_key, what_flag_key, what_value, words_at,
    write_allowed, write_letter,
};
use crate::owner::{Owner, write_owner};
use crate::shown::{write_shown, write_value};
use otp_file::{ChildKey, FlagKey, TreeFault};
use otp_reason::NAME_SIZE;
use otp_spec::SpecFault;
use otp_text::write_number;
use std::alloc::{AllocError, Global};
use toml::Value;

/// The most modules of a child.
const MAX_MODULES: usize = 4;

/// A fault of a tree file.
#[derive(Debug, Drop)]
pub struct Finding {
    /// The fault by its name.
    pub fault: TreeFault,
    /// The line of the file that has it, from 1, where that is known.
    pub line: Option<u64>,
    /// Where it is, what was read there, and what is allowed: one line, without its end.
    pub text: Vec<u8>,
    ghost said: { ∥ IsSaid fault text.items ∥₁ },
}

impl Finding {
    /// This finding, on this line.
    pub(crate) fn on_line(self, line: Option<u64>) -> Finding
        ensures fault { result.fault ≡ self.fault }
        ensures text { result.text.items ≡ self.text.items }
    {
        let Finding { fault, text, .. } = self;
        Finding { fault, line, text }
    }
}

/// What is said of a file: on which line of it, and in which words.
pub trait Remark {
    /// Both.
    ghost remarked: { Self → Remarked };

    /// The line, from 1, where it is known.
    fn line(&self) -> Option<u64>
        ensures { result ≡ (remarked self.now).line };

    /// One line of text, without its end.
    fn text(&self) -> &[u8]
        ensures { result.now ≡ (remarked self.now).text };
}

impl Remark for Finding {
    ghost use Rattle.otp_check.specs.Checks.{remarked};

    ghost remarked = { remarked };

    fn line(&self) -> Option<u64> {
        self.line
    }

    fn text(&self) -> &[u8] {
        self.text.as_slice()
    }
}

/// Appends the number of a fault: `E11: `.
fn write_head(fault: &TreeFault, out: &mut Vec<u8>) -> Result<(), AllocError>
    ensures { OnOk result (out.new.items ≡ out.old.items ++ head_text fault.now) }
{
    out.extend_from_slice(b"E")?;
    write_number(u64::from(fault.code()), out)?;
    out.extend_from_slice(b": ")
}

/// The number of a fault, and then two texts.
fn headed(
    alloc: Global,
    fault: &TreeFault,
    place: &[u8],
    rest: &[u8],
) -> Result<Vec<u8>, AllocError>
    ensures { IfOk result (λ text. text.items ≡ head_text fault.now ++ (place.now ++ rest.now)) }
{
    let mut text = Vec::new(alloc);
    write_head(fault, &mut text)?;
    text.extend_from_slice(place)?;
    text.extend_from_slice(rest)?;
    Ok(text)
}

/// What is said of a fault of a table: its number, where the table is, and this.
fn text_of(
    alloc: Global,
    fault: &TreeFault,
    owner: &Owner<'_>,
    rest: &[u8],
) -> Result<Vec<u8>, AllocError>
    ensures { IfOk result (λ text. (place : List ℕ) × (text.items ≡ head_text fault.now ++ (place ++ rest.now))) }
{
    let mut place = Vec::new(alloc);
    write_owner(owner, &mut place)?;
    headed(alloc, fault, place.as_slice(), rest)
}

/// Appends a text between two others.
fn write_between(
    front: &[u8],
    text: &[u8],
    back: &[u8],
    out: &mut Vec<u8>,
) -> Result<(), AllocError>
    ensures { OnOk result (out.new.items ≡ out.old.items ++ (front.now ++ (text.now ++ back.now))) }
{
    out.extend_from_slice(front)?;
    out.extend_from_slice(text)?;
    out.extend_from_slice(back)
}

/// A fault of a whole table, with what to do.
pub(crate) fn of_table(
    alloc: Global,
    fault: TreeFault,
    owner: &Owner<'_>,
) -> Result<Finding, AllocError>
    ensures fault { IfOk result (λ finding. finding.fault ≡ fault) }
    ensures text { IfOk result (λ finding. (place : List ℕ) × (finding.text.items ≡ head_text fault ++ (place ++ told (remedy_text fault)))) }
{
    let mut rest = Vec::new(alloc);
    write_between(b": ", remedy(&fault).as_bytes(), b"", &mut rest)?;
    let text = text_of(alloc, &fault, owner, rest.as_slice())?;
    Ok(Finding {
        fault,
        line: None,
        text,
    })
}

/// A supervisor of simple_one_for_one whose one child has a tree.
pub(crate) fn of_only_child(alloc: Global, owner: &Owner<'_>) -> Result<Finding, AllocError>
    ensures { IfOk result (λ finding. finding.fault ≡ Unlawful SimpleNeedsOne) }
{
    let fault = TreeFault::Unlawful(SpecFault::SimpleNeedsOne);
    let mut rest = Vec::new(alloc);
    write_between(b": ", no_only_child().as_bytes(), b"", &mut rest)?;
    let text = text_of(alloc, &fault, owner, rest.as_slice())?;
    Ok(Finding {
        fault,
        line: None,
        text,
    })
}

/// A text that is no document: why, and what to do.
pub(crate) fn of_text(
    alloc: Global,
    fault: TreeFault,
    place: &[u8],
    rest: &[u8],
) -> Result<Finding, AllocError>
    ensures { IfOk result (λ finding. finding.fault ≡ fault) }
{
    if !is_detailed(&fault) {
        return of_table(alloc, fault, &Owner::Supervisor(b""));
    }
    let text = headed(alloc, &fault, place, rest)?;
    Ok(Finding {
        fault,
        line: None,
        text,
    })
}

/// A fault of a table, with what was read there.
fn of_read(
    alloc: Global,
    fault: TreeFault,
    owner: &Owner<'_>,
    rest: &[u8],
) -> Result<Finding, AllocError>
    ensures { IfOk result (λ finding. finding.fault ≡ fault) }
{
    if !is_detailed(&fault) {
        return of_table(alloc, fault, owner);
    }
    let text = text_of(alloc, &fault, owner, rest)?;
    Ok(Finding {
        fault,
        line: None,
        text,
    })
}

/// A fault at a key that may not stand in its table. Behind those that may stands the one that was meant; or of a key that a
/// supervisor may have, and a child not, or the other way round, where it belongs.
pub(crate) fn of_unknown(
    alloc: Global,
    fault: TreeFault,
    owner: &Owner<'_>,
    key: &str,
    keys: &[&'static str],
) -> Result<Finding, AllocError>
    ensures { IfOk result (λ finding. finding.fault ≡ fault) }
{
    let mut rest = Vec::new(alloc);
    rest.extend_from_slice(b": unknown key ")?;
    write_shown(key, &mut rest)?;
    write_keys(keys, &mut rest)?;
    write_meant_key(alloc, owner, key, keys, &mut rest)?;
    of_read(alloc, fault, owner, rest.as_slice())
}

/// A fault of the value at a key.
pub(crate) fn of_value(
    alloc: Global,
    fault: TreeFault,
    owner: &Owner<'_>,
    key: Key,
    value: &Value,
) -> Result<Finding, AllocError>
    ensures { IfOk result (λ finding. finding.fault ≡ fault) }
{
    let mut rest = Vec::new(alloc);
    write_between(b", ", key.name().as_bytes(), b": read ", &mut rest)?;
    write_value(alloc, value, &mut rest)?;
    rest.extend_from_slice(b"; allowed: ")?;
    let words = words_at(alloc, key)?;
    write_allowed(key, words.as_slice(), &mut rest)?;
    if let Value::String(word) = value {
        write_strange(key, word.as_str(), &mut rest)?;
        write_meant_word(alloc, key, word.as_str(), words.as_slice(), &mut rest)?;
    }
    rest.extend_from_slice(what_value(key, value).as_bytes())?;
    write_header(owner, key, value, &mut rest)?;
    write_count(key, value, &mut rest)?;
    of_read(alloc, fault, owner, rest.as_slice())
}

/// Appends which letter of a word isn't plain, or may stand in no name; the first where there are more.
fn write_strange(key: Key, word: &str, out: &mut Vec<u8>) -> Result<(), AllocError> {
    match (strange_letter(word), key) {
        (Some(letter), _) => {
            out.extend_from_slice(b"; it has ")?;
            write_letter(letter, out)
        }
        (None, Key::Child(ChildKey::Id)) => write_sign(word, out),
        _ => Ok(()),
    }
}

/// Appends which sign an id has that no name has.
fn write_sign(id: &str, out: &mut Vec<u8>) -> Result<(), AllocError> {
    match strange_sign(id) {
        Some(sign) => {
            out.extend_from_slice(b"; it has ")?;
            out.push(sign).map_err(|_| AllocError)
        }
        None => Ok(()),
    }
}

/// Appends the header of a child of a supervisor that is a child itself, where the table of one stands alone.
fn write_header(
    owner: &Owner<'_>,
    key: Key,
    value: &Value,
    out: &mut Vec<u8>,
) -> Result<(), AllocError> {
    match (owner, key, value) {
        (Owner::Supervisor(path), Key::Flag(FlagKey::Child), Value::Table(_)) if !path.is_empty() =>
            out.extend_from_slice(b": here [[child.tree.child]]"),
        _ => Ok(()),
    }
}

/// Appends which keys are allowed.
fn write_keys(keys: &[&'static str], out: &mut Vec<u8>) -> Result<(), AllocError> {
    out.extend_from_slice(b"; allowed:")?;
    for key in keys {
        out.extend_from_slice(b" ")?;
        out.extend_from_slice(key.as_bytes())?;
    }
    Ok(())
}

/// Whether a table is that of a child of a supervisor that is a child itself.
fn is_nested(owner: &Owner<'_>) -> bool {
    match owner {
        Owner::Child(path, ..) | Owner::Supervisor(path) => !path.is_empty(),
    }
}

/// Appends where a key of a supervisor belongs that stands in a child's table, or one of a child in a supervisor's: in a file
/// whatever is written below a `[[child]]` is that child's.
fn write_home(owner: &Owner<'_>, key: Key, out: &mut Vec<u8>) -> Result<(), AllocError> {
    let home: &[u8] = match key {
        Key::Flag(FlagKey::Child) => {
            return out.extend_from_slice(
                b"; children of a child stand in its tree: write [[child.tree.child]]",
            );
        }
        Key::Flag(_) if is_nested(owner) => {
            b" belongs to the supervisor: write it below [child.tree], before the first [[child.tree.child]]"
        }
        Key::Flag(_) => b" belongs to the supervisor: write it before the first [[child]]",
        Key::Child(_) => b" belongs to a child: write it below a [[child]]",
    };
    write_between(b"; ", key.name().as_bytes(), home, out)
}

/// Appends the key that was meant, or where this one belongs.
fn write_meant_key(
    alloc: Global,
    owner: &Owner<'_>,
    key: &str,
    keys: &[&'static str],
    out: &mut Vec<u8>,
) -> Result<(), AllocError> {
    let small = small_letters(alloc, key)?;
    if matches!(owner, Owner::Supervisor(_)) && is_root_header(small.as_str()) {
        return out.extend_from_slice(b"; a supervisor's keys stand under no header of their own");
    }
    let (home, meant, what) = match owner {
        Owner::Child(..) => (
            Key::of_flag(key),
            meant_child_key(small.as_str()),
            what_child_key(small.as_str()),
        ),
        Owner::Supervisor(_) => (
            Key::of_child(key),
            meant_flag(small.as_str()),
            what_flag_key(small.as_str()),
        ),
    };
    match (home, meant, what) {
        (Some(key), _, _) => write_home(owner, key, out),
        (None, Some(meant), _) => write_meant(meant, out),
        (None, None, "") => write_nearest(alloc, key, keys, out),
        (None, None, what) => out.extend_from_slice(what.as_bytes()),
    }
}

/// Appends the word that was meant at a key.
fn write_meant_word(
    alloc: Global,
    key: Key,
    word: &str,
    words: &[&'static str],
    out: &mut Vec<u8>,
) -> Result<(), AllocError> {
    let small = small_letters(alloc, word)?;
    match meant_word(key, small.as_str()) {
        Some(meant) => write_meant(meant, out),
        None => write_nearest(alloc, word, words, out),
    }
}

/// Appends the word that was meant, where one is near.
fn write_nearest(
    alloc: Global,
    word: &str,
    words: &[&'static str],
    out: &mut Vec<u8>,
) -> Result<(), AllocError> {
    match nearest(alloc, word, words)? {
        Some(near) => write_meant(near, out),
        None => Ok(()),
    }
}

/// Appends the word that was meant.
fn write_meant(word: &str, out: &mut Vec<u8>) -> Result<(), AllocError> {
    write_between(b"; did you mean ", word.as_bytes(), b"?", out)
}

/// Appends how many bytes a name has, or how many names there are, where it is more than may be.
fn write_count(key: Key, value: &Value, out: &mut Vec<u8>) -> Result<(), AllocError> {
    match (key, value) {
        (Key::Child(ChildKey::Id | ChildKey::Start), Value::String(name))
            if name.as_str().len() > NAME_SIZE => {
            write_so_many(name.as_str().len(), b" bytes", out)
        }
        (Key::Child(ChildKey::Modules), Value::Array(names)) if names.len() > MAX_MODULES => {
            write_so_many(names.len(), b" names", out)
        }
        _ => Ok(()),
    }
}

/// Appends how many there are.
fn write_so_many(count: usize, what: &[u8], out: &mut Vec<u8>) -> Result<(), AllocError> {
    out.extend_from_slice(b"; it has ")?;
    write_number(count as u64, out)?;
    out.extend_from_slice(what)
}
