//! `diff`: what differs in two trees?

ghost use Rattle.std.specs.Prelude.{◌≡◌};
ghost use Rattle.otp_questions.specs.Compared.{IsCompared, form_of};

use crate::limiting::end_of_halt;
use otp_diff::{Form, write_trees_difference};
use otp_exit::ProgramEnd;
use otp_file::read_tree;
use otp_sim::{Failed, Output, write_all};
use std::alloc::Global;

/// In which form the differences are told.
fn form_of(is_json: bool) -> Form
    ensures { result ≡ form_of is_json }
{
    if is_json { Form::Object } else { Form::Text }
}

/// Reads the trees of two files, and writes what differs in them, and in what each failure costs: as lines, or as an object of JSON.
pub fn compare_files<'a, W: Output>(
    alloc: Global,
    name: &'a str,
    file: &[u8],
    other: &'a str,
    other_file: &[u8],
    is_json: bool,
    output: &mut W,
) -> ProgramEnd<'a>
    ensures { IsCompared is_json name.now other.now result file.now other_file.now
        (W.seen output.old) (W.seen output.new) }
{
    let tree = match read_tree(alloc, file) {
        Ok(tree) => tree,
        Err(fault) => return ProgramEnd::of_no_tree(fault, name),
    };
    let other_tree = match read_tree(alloc, other_file) {
        Ok(other_tree) => other_tree,
        Err(fault) => {
            drop(tree);
            return ProgramEnd::of_no_tree(fault, other);
        }
    };
    let mut text = Vec::new(alloc);
    let told = write_trees_difference(
        alloc,
        form_of(is_json),
        name.as_bytes(),
        &tree,
        other.as_bytes(),
        &other_tree,
        &mut text,
    );
    drop(tree);
    drop(other_tree);
    match told {
        Ok(()) => {}
        Err(halt) => return end_of_halt(halt),
    }
    match write_all(output, text.as_slice()) {
        Ok(()) => ProgramEnd::Done,
        Err(Failed) => ProgramEnd::OutputFailed,
    }
}
