//! `suggest`: which flags would survive crashes of a child?

ghost use Rattle.std.specs.Prelude.{◌≡◌, IfErr, IfOk};
ghost use Rattle.otp_questions.specs.Suggested.{IsSuggested, TellsSuggestion};
ghost use Rattle.otp_suggest.specs.Advised.{IsUnsuggested};
ghost use Rattle.otp_suggest.specs.Courses.{IsQuestion};
ghost use Rattle.otp_trial.specs.declared.trial.Halt.TheVariants.{HistoryFull};

use crate::limiting::end_of_halt;
use crate::near::near_child;
use otp_exit::ProgramEnd;
use otp_file::{TreeSpec, read_tree};
use otp_objects::write_suggestion_object;
use otp_sim::{Failed, Output, write_all};
use otp_suggest::{Asked, Question, SuggestionAnswer, read_question, write_suggestion};
use otp_trial::Halt;
use std::alloc::Global;

/// Appends what would survive crashes of a child, as a table or as an object.
fn tell_suggestion(
    alloc: Global,
    is_json: bool,
    name: &str,
    tree: &TreeSpec,
    child: &str,
    question: Question,
    out: &mut Vec<u8>,
) -> Result<SuggestionAnswer, Halt>
    requires { IsQuestion question }
    ensures ok { IfOk result (λ answer. TellsSuggestion is_json name.now tree.now child.now question answer out.old.items out.new.items) }
    ensures full { IfErr result (λ halt. halt ≡ HistoryFull → IsUnsuggested tree.now child.now) }
{
    if is_json {
        write_suggestion_object(
            alloc,
            name.as_bytes(),
            tree,
            child.as_bytes(),
            question,
            out,
        )
    } else {
        write_suggestion(alloc, tree, child.as_bytes(), question, out)
    }
}

/// Reads the tree of a file, and writes which intensity and which period would survive crashes of a child that come so: as a table, or
/// as an object of JSON.
pub fn suggest_file<'a, W: Output>(
    alloc: Global,
    name: &'a str,
    file: &[u8],
    child: &'a str,
    asked: Asked<'a>,
    is_json: bool,
    output: &mut W,
) -> ProgramEnd<'a>
    ensures { IsSuggested is_json child.entry asked.entry name.now result file.now
        (W.seen output.old) (W.seen output.new) }
{
    let question = match read_question(asked) {
        Ok(question) => question,
        Err(amiss) => return ProgramEnd::NotAGap(amiss.word, amiss.why),
    };
    let tree = match read_tree(alloc, file) {
        Ok(tree) => tree,
        Err(fault) => return ProgramEnd::of_no_tree(fault, name),
    };
    let near = near_child(alloc, &tree, child);
    let mut text = Vec::new(alloc);
    let told = tell_suggestion(alloc, is_json, name, &tree, child, question, &mut text);
    drop(tree);
    match told {
        Ok(SuggestionAnswer::Told) => {}
        Ok(SuggestionAnswer::NoChild) => return ProgramEnd::NotFound(child, near),
        Ok(SuggestionAnswer::IsSupervisor) => return ProgramEnd::NamesSupervisor(child),
        Err(halt) => return end_of_halt(halt),
    }
    match write_all(output, text.as_slice()) {
        Ok(()) => ProgramEnd::Done,
        Err(Failed) => ProgramEnd::OutputFailed,
    }
}
