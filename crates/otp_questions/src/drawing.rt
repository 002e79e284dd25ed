//! `tree`: what does a tree look like?

ghost use Rattle.otp_questions.specs.Said.{IsDrawn, IsTreeTold};

use otp_exit::ProgramEnd;
use otp_file::read_tree;
use otp_objects::write_tree_object;
use otp_sim::{Failed, Output, write_all};
use otp_text::picture::draw;
use std::alloc::Global;

/// Draws the tree that a file says.
pub fn draw_file<'a, W: Output>(
    alloc: Global,
    name: &'a str,
    file: &[u8],
    output: &mut W,
) -> ProgramEnd<'a>
    ensures { IsDrawn name.now result file.now (W.seen output.old) (W.seen output.new) }
{
    let tree = match read_tree(alloc, file) {
        Ok(tree) => tree,
        Err(fault) => return ProgramEnd::of_no_tree(fault, name),
    };
    let mut picture = Vec::new(alloc);
    let Ok(()) = draw(alloc, &tree, &mut picture) else {
        drop(tree);
        return ProgramEnd::OutOfMemory;
    };
    drop(tree);
    match write_all(output, picture.as_slice()) {
        Ok(()) => ProgramEnd::Done,
        Err(Failed) => ProgramEnd::OutputFailed,
    }
}

/// Writes the tree that a file says as an object of JSON.
pub fn tell_tree<'a, W: Output>(
    alloc: Global,
    name: &'a str,
    file: &[u8],
    output: &mut W,
) -> ProgramEnd<'a>
    ensures { IsTreeTold name.now result file.now (W.seen output.old) (W.seen output.new) }
{
    let tree = match read_tree(alloc, file) {
        Ok(tree) => tree,
        Err(fault) => return ProgramEnd::of_no_tree(fault, name),
    };
    let mut text = Vec::new(alloc);
    let told = write_tree_object(alloc, name.as_bytes(), &tree, &mut text);
    drop(tree);
    let Ok(()) = told else {
        return ProgramEnd::OutOfMemory;
    };
    match write_all(output, text.as_slice()) {
        Ok(()) => ProgramEnd::Done,
        Err(Failed) => ProgramEnd::OutputFailed,
    }
}
