//! What would survive crashes of a child, as an object.

ghost use Rattle.std.specs.Prelude.{◌≡◌, ◌++◌, IfErr, IfOk, OnOk};
ghost use Rattle.otp_trial.specs.declared.trial.Halt.TheVariants.{HistoryFull};
ghost use Rattle.otp_suggest.specs.Advised.{IsUnsuggested};
ghost use Rattle.otp_suggest.specs.Courses.{IsQuestion};
ghost use Rattle.otp_objects.specs.Suggested.{SuggestsObject, TellsObject, advice_value, asked_text, clock_text, clocks_text, crash_word, edges_text, has_text, intensity_value, lasts_text, period_value, said_text, subject_text, times_of, who_text, within_of, worst_value};

use crate::values::put_word;
use otp_costs::limits::{Fate, Verdict, supervisor_path};
use otp_file::TreeSpec;
use otp_json::{put_key, put_number, put_optional, put_text};
use otp_spec::SupFlags;
use otp_suggest::{
    Advice, Edge, Finding, Question, Subject, Suggestion, SuggestionAnswer, find_subject,
};
use otp_text::write_number;
use otp_trial::Halt;
use std::alloc::{AllocError, Global};

/// Appends whether crashes are survived.
#[tactic(auto, unfolding(crate::specs::Suggested::lasts_text))]
fn write_lasts(verdict: Verdict, out: &mut Vec<u8>) -> Result<(), AllocError>
    ensures { OnOk result (out.new.items ≡ out.old.items ++ lasts_text verdict) }
{
    match verdict {
        Verdict::Lasts => out.extend_from_slice(b"true"),
        Verdict::Falls => out.extend_from_slice(b"false"),
    }
}

/// Appends the least intensity.
#[tactic(auto, unfolding(crate::specs::Suggested::intensity_value))]
fn write_intensity(edge: Edge, out: &mut Vec<u8>) -> Result<(), AllocError>
    ensures { OnOk result (out.new.items ≡ out.old.items ++ intensity_value edge) }
{
    match edge {
        Edge::Any => out.extend_from_slice(b"0"),
        Edge::At(value) => write_number(value, out),
        Edge::Nowhere => out.extend_from_slice(b"\"none\""),
    }
}

/// Appends the greatest period, in seconds.
#[tactic(auto, unfolding(crate::specs::Suggested::period_value))]
fn write_period(edge: Edge, out: &mut Vec<u8>) -> Result<(), AllocError>
    ensures { OnOk result (out.new.items ≡ out.old.items ++ period_value edge) }
{
    match edge {
        Edge::Any => out.extend_from_slice(b"\"any\""),
        Edge::At(value) => write_number(value, out),
        Edge::Nowhere => out.extend_from_slice(b"\"none\""),
    }
}

/// Appends the edge of each flag.
#[tactic(auto, unfolding(crate::specs::Suggested::edges_text))]
fn write_edges(advice: Advice, out: &mut Vec<u8>) -> Result<(), AllocError>
    ensures { OnOk result (out.new.items ≡ out.old.items ++ edges_text advice) }
{
    put_key(b", ", b"intensity", out)?;
    write_intensity(advice.intensity, out)?;
    put_key(b", ", b"period", out)?;
    write_period(advice.period, out)
}

/// Appends what one clock says.
#[tactic(auto, unfolding(crate::specs::Suggested::advice_value))]
fn write_advice(advice: Advice, out: &mut Vec<u8>) -> Result<(), AllocError>
    ensures { OnOk result (out.new.items ≡ out.old.items ++ advice_value advice) }
{
    put_key(b"{", b"survived", out)?;
    write_lasts(advice.today, out)?;
    write_edges(advice, out)?;
    out.extend_from_slice(b"}")
}

/// Appends what survives so many crashes at once, or `null`.
#[tactic(auto, unfolding(crate::specs::Suggested::worst_value))]
fn write_worst(worst: Option<Advice>, out: &mut Vec<u8>) -> Result<(), AllocError>
    ensures { OnOk result (out.new.items ≡ out.old.items ++ worst_value worst) }
{
    match worst {
        None => out.extend_from_slice(b"null"),
        Some(advice) => write_advice(advice, out),
    }
}

/// Appends the file, the child, and its supervisor.
#[tactic(auto, unfolding(crate::specs::Suggested::who_text))]
fn write_who(name: &[u8], child: &[u8], path: &[u8], out: &mut Vec<u8>) -> Result<(), AllocError>
    ensures { OnOk result (out.new.items ≡ out.old.items ++ who_text name.now child.now path.now) }
{
    put_text(b"{", b"file", name, out)?;
    put_text(b", ", b"child", child, out)?;
    put_text(b", ", b"supervisor", supervisor_path(path), out)
}

/// Appends the flags of its supervisor.
#[tactic(auto, unfolding(crate::specs::Suggested::has_text))]
fn write_has(flags: &SupFlags, out: &mut Vec<u8>) -> Result<(), AllocError>
    ensures { OnOk result (out.new.items ≡ out.old.items ++ has_text flags.now) }
{
    put_number(b", ", b"intensity", flags.intensity, out)?;
    put_number(b", ", b"period", flags.period, out)
}

/// How many crashes are asked for, where they come within a time.
fn times_of(question: Question) -> Option<u64>
    ensures { result ≡ times_of question }
{
    match question {
        Question::Every(_) => None,
        Question::Within(count, _) => Some(count),
    }
}

/// Within which time they come.
fn within_of(question: Question) -> Option<u64>
    ensures { result ≡ within_of question }
{
    match question {
        Question::Every(_) => None,
        Question::Within(_, time) => Some(time),
    }
}

/// Appends what is asked.
#[tactic(auto, unfolding(crate::specs::Suggested::asked_text))]
fn write_asked(question: Question, out: &mut Vec<u8>) -> Result<(), AllocError>
    ensures { OnOk result (out.new.items ≡ out.old.items ++ asked_text question) }
{
    put_optional(b", ", b"times", times_of(question), out)?;
    put_optional(b", ", b"within", within_of(question), out)?;
    put_number(b", ", b"every", question.apart(), out)
}

/// What a crash does.
#[tactic(auto, unfolding(crate::specs::Suggested::crash_word))]
fn crash_word(twice: Fate) -> &'static str
    ensures { result.now ≡ crash_word twice }
{
    match twice {
        Fate::Ended(_) => "ends the supervisor",
        Fate::Gone(_) => "isn't restarted",
        Fate::Survived => "is restarted",
    }
}

/// Appends what a clock says, under its key.
#[tactic(auto, unfolding(crate::specs::Suggested::clock_text))]
fn write_clock(key: &[u8], advice: Advice, out: &mut Vec<u8>) -> Result<(), AllocError>
    ensures { OnOk result (out.new.items ≡ out.old.items ++ clock_text key.now advice) }
{
    put_key(b", ", key, out)?;
    write_advice(advice, out)
}

/// Appends the answers of both clocks.
#[tactic(auto, unfolding(crate::specs::Suggested::clocks_text))]
fn write_clocks(said: &Suggestion, out: &mut Vec<u8>) -> Result<(), AllocError>
    ensures { OnOk result (out.new.items ≡ out.old.items ++ clocks_text said.now) }
{
    write_clock(b"milliseconds", said.ours, out)?;
    write_clock(b"seconds", said.theirs, out)
}

/// Appends what is said of the crashes.
#[tactic(auto, unfolding(crate::specs::Suggested::said_text))]
fn write_said(said: &Suggestion, out: &mut Vec<u8>) -> Result<(), AllocError>
    ensures { OnOk result (out.new.items ≡ out.old.items ++ said_text said.now) }
{
    put_word(b"crash", crash_word(said.twice), out)?;
    put_key(b", ", b"at_once", out)?;
    write_worst(said.worst, out)?;
    write_clocks(said, out)
}

/// Appends the object of a child, a line.
#[tactic(auto, unfolding(crate::specs::Suggested::subject_text))]
fn write_subject(
    name: &[u8],
    child: &[u8],
    question: Question,
    subject: &Subject,
    out: &mut Vec<u8>,
) -> Result<(), AllocError>
    ensures { OnOk result (out.new.items ≡ out.old.items ++ subject_text name.now child.now question subject.now) }
{
    write_who(name, child, subject.path.as_bytes(), out)?;
    write_has(&subject.flags, out)?;
    write_asked(question, out)?;
    write_said(&subject.said, out)?;
    out.extend_from_slice(b"}\n")
}

/// Appends the object of what was found, if a worker was.
fn write_finding(
    name: &[u8],
    child: &[u8],
    question: Question,
    found: &Finding,
    out: &mut Vec<u8>,
) -> Result<SuggestionAnswer, AllocError>
    ensures { IfOk result (λ answer. TellsObject name.now child.now question found.now answer out.old.items out.new.items) }
{
    match found {
        Finding::Of(subject) => {
            write_subject(name, child, question, subject, out)?;
            Ok(SuggestionAnswer::Told)
        }
        Finding::NoChild => Ok(SuggestionAnswer::NoChild),
        Finding::IsSupervisor => Ok(SuggestionAnswer::IsSupervisor),
    }
}

/// Appends with which flags crashes of the worker with this name would be survived that come as is asked ([`find_subject`]), as an
/// object with the name of its file. Nothing is appended where the answer is that it was refused.
///
/// # Errors
///
/// Where memory is refused, or a supervisor has 2^62 events before the last crash of a run.
pub fn write_suggestion_object(
    alloc: Global,
    name: &[u8],
    tree: &TreeSpec,
    child: &[u8],
    question: Question,
    out: &mut Vec<u8>,
) -> Result<SuggestionAnswer, Halt>
    requires { IsQuestion question }
    ensures ok { IfOk result (λ answer. SuggestsObject name.now tree.now child.now question answer out.old.items out.new.items) }
    ensures full { IfErr result (λ halt. halt ≡ HistoryFull → IsUnsuggested tree.now child.now) }
{
    let found = find_subject(alloc, tree, child, question)?;
    let told = write_finding(name, child, question, &found, out);
    drop(found);
    match told {
        Ok(answer) => Ok(answer),
        Err(AllocError) => Err(Halt::OutOfMemory),
    }
}
