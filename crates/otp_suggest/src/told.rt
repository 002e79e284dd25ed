//! What would survive crashes of a child, as it is told.

ghost use Rattle.std.specs.Prelude.{◌≡◌, ◌++◌, ◌||◌, IfErr, IfOk, OnOk};
ghost use Rattle.otp_trial.specs.declared.trial.Halt.TheVariants.{HistoryFull};
ghost use Rattle.otp_suggest.specs.Advised.{IsUnsuggested};
ghost use Rattle.otp_suggest.specs.Courses.{IsQuestion};
ghost use Rattle.otp_suggest.specs.Told.{Suggests, Tells, advice_text, and_text, answers_text, apart_text, apart_why_text, asked_text, crashes_text, enough_text, every_text, gap_text, has_text, heads_text, intensity_text, is_nowhere, line_text, many_text, measure_line, measure_row, measure_text, no_intensity_text, no_period_at_once_text, no_period_text, period_text, question_text, rates_why_text, row_text, rows_text, table_text, than_text, times_text, title_of, titles_text, verdict_text, why_text, within_text, worst_why_text};

use crate::advice::{Advice, Suggestion};
use crate::course::Question;
use crate::edge::Edge;
use crate::refused::SuggestionAnswer;
use crate::subject::{Finding, Subject, find_subject};
use otp_costs::limits::{Fate, Verdict, supervisor_path};
use otp_costs::{write_clipped, write_left};
use otp_file::TreeSpec;
use otp_spec::{MAX_INTENSITY, SupFlags};
use otp_text::write_number;
use otp_trial::Halt;
use std::alloc::{AllocError, Global};

/// What a line of a table says.
#[derive(Clone, Copy, Debug, PartialEq, Eq)]
pub(crate) enum Measure {
    /// Whether crashes are survived today.
    Survived,
    LeastIntensity,
    GreatestPeriod,
}

/// Appends whether crashes are survived.
#[tactic(auto, unfolding(crate::specs::Told::verdict_text))]
fn write_verdict(verdict: Verdict, out: &mut Vec<u8>) -> Result<(), AllocError>
    ensures { OnOk result (out.new.items ≡ out.old.items ++ verdict_text verdict) }
{
    match verdict {
        Verdict::Lasts => out.extend_from_slice(b"yes"),
        Verdict::Falls => out.extend_from_slice(b"no"),
    }
}

/// Appends the least intensity.
#[tactic(auto, unfolding(crate::specs::Told::intensity_text))]
pub(crate) fn write_intensity(edge: Edge, out: &mut Vec<u8>) -> Result<(), AllocError>
    ensures { OnOk result (out.new.items ≡ out.old.items ++ intensity_text edge) }
{
    match edge {
        Edge::Any => out.extend_from_slice(b"0"),
        Edge::At(value) => write_number(value, out),
        Edge::Nowhere => out.extend_from_slice(b"none"),
    }
}

/// Appends the greatest period.
#[tactic(auto, unfolding(crate::specs::Told::period_text))]
fn write_period(edge: Edge, out: &mut Vec<u8>) -> Result<(), AllocError>
    ensures { OnOk result (out.new.items ≡ out.old.items ++ period_text edge) }
{
    match edge {
        Edge::Any => out.extend_from_slice(b"any"),
        Edge::At(value) => {
            write_number(value, out)?;
            out.extend_from_slice(b" s")
        }
        Edge::Nowhere => out.extend_from_slice(b"none"),
    }
}

/// How a line of a table begins.
#[tactic(auto, unfolding(crate::specs::Told::title_of))]
fn title_of(measure: Measure) -> &'static [u8]
    ensures { result.now ≡ title_of measure }
{
    match measure {
        Measure::Survived => b"survived",
        Measure::LeastIntensity => b"least intensity",
        Measure::GreatestPeriod => b"greatest period",
    }
}

/// Appends what an answer says in a line of a table.
#[tactic(auto, unfolding(crate::specs::Told::measure_text))]
fn write_measure(measure: Measure, said: Advice, out: &mut Vec<u8>) -> Result<(), AllocError>
    ensures { OnOk result (out.new.items ≡ out.old.items ++ measure_text measure said) }
{
    match measure {
        Measure::Survived => write_verdict(said.today, out),
        Measure::LeastIntensity => write_intensity(said.intensity, out),
        Measure::GreatestPeriod => write_period(said.period, out),
    }
}

/// Appends a line of the table.
#[tactic(auto, unfolding(crate::specs::Told::line_text))]
fn write_line(title: &[u8], one: &[u8], other: &[u8], out: &mut Vec<u8>) -> Result<(), AllocError>
    ensures { OnOk result (out.new.items ≡ out.old.items ++ line_text title.now one.now other.now) }
{
    write_left(18, title, out)?;
    write_left(18, one, out)?;
    out.extend_from_slice(other)?;
    out.extend_from_slice(b"\n")
}

/// Appends the titles of the table.
#[tactic(auto, unfolding(crate::specs::Told::titles_text))]
fn write_titles(out: &mut Vec<u8>) -> Result<(), AllocError>
    ensures { OnOk result (out.new.items ≡ out.old.items ++ titles_text) }
{
    write_line(
        b"restarts counted",
        b"by milliseconds",
        b"by whole seconds, as OTP does",
        out,
    )
}

/// Appends a line of the table, by both clocks.
#[tactic(auto, unfolding(crate::specs::Told::measure_line))]
fn write_measure_line(
    alloc: Global,
    measure: Measure,
    ours: Advice,
    theirs: Advice,
    out: &mut Vec<u8>,
) -> Result<(), AllocError>
    ensures { OnOk result (out.new.items ≡ out.old.items ++ measure_line measure ours theirs) }
{
    let mut one = Vec::new(alloc);
    let mut other = Vec::new(alloc);
    write_measure(measure, ours, &mut one)?;
    write_measure(measure, theirs, &mut other)?;
    write_line(title_of(measure), one.as_slice(), other.as_slice(), out)
}

/// Appends the answer of both clocks.
#[tactic(auto, unfolding(crate::specs::Told::table_text))]
fn write_table(
    alloc: Global,
    ours: Advice,
    theirs: Advice,
    out: &mut Vec<u8>,
) -> Result<(), AllocError>
    ensures { OnOk result (out.new.items ≡ out.old.items ++ table_text ours theirs) }
{
    write_titles(out)?;
    write_measure_line(alloc, Measure::Survived, ours, theirs, out)?;
    write_measure_line(alloc, Measure::LeastIntensity, ours, theirs, out)?;
    write_measure_line(alloc, Measure::GreatestPeriod, ours, theirs, out)
}

/// Appends a line of the table of so many crashes.
#[tactic(auto, unfolding(crate::specs::Told::row_text))]
fn write_row(
    title: &[u8],
    once: &[u8],
    even: &[u8],
    other: &[u8],
    out: &mut Vec<u8>,
) -> Result<(), AllocError>
    ensures { OnOk result (out.new.items ≡ out.old.items ++ row_text title.now once.now even.now other.now) }
{
    write_left(18, title, out)?;
    write_left(12, once, out)?;
    write_left(22, even, out)?;
    out.extend_from_slice(other)?;
    out.extend_from_slice(b"\n")
}

/// Appends how far apart crashes are.
#[tactic(auto, unfolding(crate::specs::Told::apart_text))]
fn write_apart(gap: u64, out: &mut Vec<u8>) -> Result<(), AllocError>
    ensures { OnOk result (out.new.items ≡ out.old.items ++ apart_text gap) }
{
    out.extend_from_slice(b"every ")?;
    write_number(gap, out)?;
    out.extend_from_slice(b" ms")
}

/// Appends the titles of that table.
#[tactic(auto, unfolding(crate::specs::Told::heads_text))]
fn write_heads(alloc: Global, gap: u64, out: &mut Vec<u8>) -> Result<(), AllocError>
    ensures { OnOk result (out.new.items ≡ out.old.items ++ heads_text gap) }
{
    let mut even = Vec::new(alloc);
    write_apart(gap, &mut even)?;
    write_row(
        b"they come",
        b"at once",
        even.as_slice(),
        b"so, by whole seconds",
        out,
    )
}

/// Appends a line of that table.
#[tactic(auto, unfolding(crate::specs::Told::measure_row))]
fn write_measure_row(
    alloc: Global,
    measure: Measure,
    once: Advice,
    ours: Advice,
    theirs: Advice,
    out: &mut Vec<u8>,
) -> Result<(), AllocError>
    ensures { OnOk result (out.new.items ≡ out.old.items ++ measure_row measure once ours theirs) }
{
    let mut first = Vec::new(alloc);
    let mut one = Vec::new(alloc);
    let mut other = Vec::new(alloc);
    write_measure(measure, once, &mut first)?;
    write_measure(measure, ours, &mut one)?;
    write_measure(measure, theirs, &mut other)?;
    write_row(
        title_of(measure),
        first.as_slice(),
        one.as_slice(),
        other.as_slice(),
        out,
    )
}

/// Appends the answer to so many crashes: at once, and evenly spread by both clocks.
#[tactic(auto, unfolding(crate::specs::Told::rows_text))]
fn write_rows(
    alloc: Global,
    gap: u64,
    once: Advice,
    ours: Advice,
    theirs: Advice,
    out: &mut Vec<u8>,
) -> Result<(), AllocError>
    ensures { OnOk result (out.new.items ≡ out.old.items ++ rows_text gap once ours theirs) }
{
    write_heads(alloc, gap, out)?;
    write_measure_row(alloc, Measure::Survived, once, ours, theirs, out)?;
    write_measure_row(alloc, Measure::LeastIntensity, once, ours, theirs, out)?;
    write_measure_row(alloc, Measure::GreatestPeriod, once, ours, theirs, out)
}

/// Appends which child crashes.
#[tactic(auto, unfolding(crate::specs::Told::every_text))]
fn write_every(name: &[u8], out: &mut Vec<u8>) -> Result<(), AllocError>
    ensures { OnOk result (out.new.items ≡ out.old.items ++ every_text name.now) }
{
    write_clipped(50, name, out)?;
    out.extend_from_slice(b" crashes every ")
}

/// Appends how far apart its crashes are.
#[tactic(auto, unfolding(crate::specs::Told::gap_text))]
pub(crate) fn write_gap(gap: u64, out: &mut Vec<u8>) -> Result<(), AllocError>
    ensures { OnOk result (out.new.items ≡ out.old.items ++ gap_text gap) }
{
    write_number(gap, out)?;
    out.extend_from_slice(b" ms\n")
}

/// Appends which child crashes, and how often.
#[tactic(auto, unfolding(crate::specs::Told::crashes_text))]
fn write_crashes(name: &[u8], gap: u64, out: &mut Vec<u8>) -> Result<(), AllocError>
    ensures { OnOk result (out.new.items ≡ out.old.items ++ crashes_text name.now gap) }
{
    write_every(name, out)?;
    write_gap(gap, out)
}

/// Appends how many times a child crashes.
#[tactic(auto, unfolding(crate::specs::Told::many_text))]
fn write_many(name: &[u8], count: u64, out: &mut Vec<u8>) -> Result<(), AllocError>
    ensures { OnOk result (out.new.items ≡ out.old.items ++ many_text name.now count) }
{
    write_clipped(40, name, out)?;
    out.extend_from_slice(b" crashes ")?;
    write_number(count, out)?;
    out.extend_from_slice(b" times within ")
}

/// Appends how many times a child crashes, and within which time.
#[tactic(auto, unfolding(crate::specs::Told::times_text))]
pub(crate) fn write_times(
    name: &[u8],
    count: u64,
    time: u64,
    out: &mut Vec<u8>,
) -> Result<(), AllocError>
    ensures { OnOk result (out.new.items ≡ out.old.items ++ times_text name.now count time) }
{
    write_many(name, count, out)?;
    write_gap(time, out)
}

/// Appends which child crashes, and how its crashes come.
#[tactic(auto, unfolding(crate::specs::Told::asked_text))]
fn write_asked(name: &[u8], question: Question, out: &mut Vec<u8>) -> Result<(), AllocError>
    ensures { OnOk result (out.new.items ≡ out.old.items ++ asked_text name.now question) }
{
    match question {
        Question::Every(gap) => write_crashes(name, gap, out),
        Question::Within(count, time) => write_times(name, count, time, out),
    }
}

/// Appends which intensity its supervisor has.
#[tactic(auto, unfolding(crate::specs::Told::has_text))]
fn write_has(above: &[u8], intensity: u64, out: &mut Vec<u8>) -> Result<(), AllocError>
    ensures { OnOk result (out.new.items ≡ out.old.items ++ has_text above.now intensity) }
{
    write_clipped(40, above, out)?;
    out.extend_from_slice(b" has intensity ")?;
    write_number(intensity, out)
}

/// Appends which period its supervisor has.
#[tactic(auto, unfolding(crate::specs::Told::and_text))]
fn write_and(period: u64, out: &mut Vec<u8>) -> Result<(), AllocError>
    ensures { OnOk result (out.new.items ≡ out.old.items ++ and_text period) }
{
    out.extend_from_slice(b" and period ")?;
    write_number(period, out)?;
    out.extend_from_slice(b" s\n")
}

/// Appends what is asked.
#[tactic(auto, unfolding(crate::specs::Told::question_text))]
fn write_question(
    name: &[u8],
    above: &[u8],
    question: Question,
    flags: &SupFlags,
    out: &mut Vec<u8>,
) -> Result<(), AllocError>
    ensures { OnOk result (out.new.items ≡ out.old.items ++ question_text name.now above.now question flags.now) }
{
    write_asked(name, question, out)?;
    write_has(above, flags.intensity, out)?;
    write_and(flags.period, out)
}

/// Whether no value survives.
fn is_nowhere(edge: Edge) -> bool
    ensures { result ≡ is_nowhere edge }
{
    match edge {
        Edge::Nowhere => true,
        Edge::Any | Edge::At(_) => false,
    }
}

/// Whether by one of two clocks no value survives.
fn is_either_nowhere(ours: Edge, theirs: Edge) -> bool
    ensures { result ≡ (is_nowhere ours || is_nowhere theirs) }
{
    is_nowhere(ours) || is_nowhere(theirs)
}

/// Appends within which time no intensity is enough.
#[tactic(auto, unfolding(crate::specs::Told::within_text))]
fn write_within(period: u64, out: &mut Vec<u8>) -> Result<(), AllocError>
    ensures { OnOk result (out.new.items ≡ out.old.items ++ within_text period) }
{
    out.extend_from_slice(b"no intensity is enough: within ")?;
    write_number(period, out)
}

/// Appends than what there are more restarts.
#[tactic(auto, unfolding(crate::specs::Told::than_text))]
fn write_than(most: u64, out: &mut Vec<u8>) -> Result<(), AllocError>
    ensures { OnOk result (out.new.items ≡ out.old.items ++ than_text most) }
{
    out.extend_from_slice(b" s there are more restarts than ")?;
    write_number(most, out)?;
    out.extend_from_slice(b"\n")
}

/// Appends why no intensity survives.
#[tactic(auto, unfolding(crate::specs::Told::no_intensity_text))]
fn write_no_intensity(is_none: bool, flags: &SupFlags, out: &mut Vec<u8>) -> Result<(), AllocError>
    ensures { OnOk result (out.new.items ≡ out.old.items ++ no_intensity_text is_none flags.now) }
{
    if !is_none {
        return Ok(());
    }
    write_within(flags.period, out)?;
    write_than(MAX_INTENSITY, out)
}

/// Appends why no period survives.
#[tactic(auto, unfolding(crate::specs::Told::no_period_text))]
fn write_no_period(is_none: bool, flags: &SupFlags, out: &mut Vec<u8>) -> Result<(), AllocError>
    ensures { OnOk result (out.new.items ≡ out.old.items ++ no_period_text is_none flags.now) }
{
    if !is_none {
        return Ok(());
    }
    out.extend_from_slice(b"no period is short enough: within 1 s there are more restarts than ")?;
    write_number(flags.intensity, out)?;
    out.extend_from_slice(b"\n")
}

/// Appends what is enough of so many crashes, whenever they come.
#[tactic(auto, unfolding(crate::specs::Told::enough_text))]
fn write_enough(edge: Edge, out: &mut Vec<u8>) -> Result<(), AllocError>
    ensures { OnOk result (out.new.items ≡ out.old.items ++ enough_text edge) }
{
    match edge {
        Edge::Any => Ok(()),
        Edge::At(value) => {
            out.extend_from_slice(b"intensity ")?;
            write_number(value, out)?;
            out.extend_from_slice(b" is enough, whenever they come\n")
        }
        Edge::Nowhere => out.extend_from_slice(b"no intensity is enough where they come at once\n"),
    }
}

/// Appends why no period is short enough where so many crashes may come at once.
#[tactic(auto, unfolding(crate::specs::Told::no_period_at_once_text))]
fn write_no_period_at_once(
    is_none: bool,
    flags: &SupFlags,
    out: &mut Vec<u8>,
) -> Result<(), AllocError>
    ensures { OnOk result (out.new.items ≡ out.old.items ++ no_period_at_once_text is_none flags.now) }
{
    if !is_none {
        return Ok(());
    }
    out.extend_from_slice(b"no period is short enough: at once there are more restarts than ")?;
    write_number(flags.intensity, out)?;
    out.extend_from_slice(b"\n")
}

/// Appends why nothing is enough at an interval.
#[tactic(auto, unfolding(crate::specs::Told::apart_why_text))]
fn write_apart_why(flags: &SupFlags, said: &Suggestion, out: &mut Vec<u8>) -> Result<(), AllocError>
    ensures { OnOk result (out.new.items ≡ out.old.items ++ apart_why_text flags.now said.now) }
{
    let is_none = is_either_nowhere(said.ours.intensity, said.theirs.intensity);
    write_no_intensity(is_none, flags, out)?;
    let is_none = is_either_nowhere(said.ours.period, said.theirs.period);
    write_no_period(is_none, flags, out)
}

/// Appends what is enough of so many crashes, and why nothing is.
#[tactic(auto, unfolding(crate::specs::Told::worst_why_text))]
fn write_worst_why(flags: &SupFlags, worst: Advice, out: &mut Vec<u8>) -> Result<(), AllocError>
    ensures { OnOk result (out.new.items ≡ out.old.items ++ worst_why_text flags.now worst) }
{
    write_enough(worst.intensity, out)?;
    write_no_period_at_once(is_nowhere(worst.period), flags, out)
}

/// Appends why nothing is enough of a child that is started again.
#[tactic(auto, unfolding(crate::specs::Told::rates_why_text))]
fn write_rates_why(
    flags: &SupFlags,
    said: &Suggestion,
    worst: Option<Advice>,
    out: &mut Vec<u8>,
) -> Result<(), AllocError>
    ensures { OnOk result (out.new.items ≡ out.old.items ++ rates_why_text flags.now said.now worst) }
{
    match worst {
        None => write_apart_why(flags, said, out),
        Some(worst) => write_worst_why(flags, worst, out),
    }
}

/// Appends why nothing survives, or everything.
#[tactic(auto, unfolding(crate::specs::Told::why_text))]
fn write_why(
    name: &[u8],
    above: &[u8],
    flags: &SupFlags,
    said: &Suggestion,
    twice: Fate,
    out: &mut Vec<u8>,
) -> Result<(), AllocError>
    ensures { OnOk result (out.new.items ≡ out.old.items ++ why_text name.now above.now flags.now said.now twice) }
{
    match twice {
        Fate::Ended(_) => {
            write_clipped(30, name, out)?;
            out.extend_from_slice(b" is significant: its first crash ends ")?;
            write_clipped(30, above, out)?;
            out.extend_from_slice(b"\nwhatever intensity and period are\n")
        }
        Fate::Gone(_) => {
            write_clipped(30, name, out)?;
            out.extend_from_slice(b" isn't started again: each intensity and period will do\n")
        }
        Fate::Survived => write_rates_why(flags, said, said.worst, out),
    }
}

/// Appends the table of what is asked.
#[tactic(auto, unfolding(crate::specs::Told::answers_text))]
fn write_answers(
    alloc: Global,
    question: Question,
    said: &Suggestion,
    worst: Option<Advice>,
    out: &mut Vec<u8>,
) -> Result<(), AllocError>
    ensures { OnOk result (out.new.items ≡ out.old.items ++ answers_text question said.now worst) }
{
    match worst {
        None => write_table(alloc, said.ours, said.theirs, out),
        Some(worst) => write_rows(alloc, question.apart(), worst, said.ours, said.theirs, out),
    }
}

/// Appends what would survive crashes of a child with this name. No line has more than 80 columns.
///
/// # Errors
///
/// Where memory is refused.
#[tactic(auto, unfolding(crate::specs::Told::advice_text))]
fn write_advice(
    alloc: Global,
    name: &[u8],
    question: Question,
    subject: &Subject,
    out: &mut Vec<u8>,
) -> Result<(), AllocError>
    ensures { OnOk result (out.new.items ≡ out.old.items ++ advice_text name.now question subject.now) }
{
    let above = supervisor_path(subject.path.as_bytes());
    let said = &subject.said;
    write_question(name, above, question, &subject.flags, out)?;
    write_answers(alloc, question, said, said.worst, out)?;
    write_why(name, above, &subject.flags, said, said.twice, out)
}

/// Appends what would survive crashes of a child, if it is a worker.
fn write_finding(
    alloc: Global,
    name: &[u8],
    question: Question,
    found: &Finding,
    out: &mut Vec<u8>,
) -> Result<SuggestionAnswer, AllocError>
    ensures { IfOk result (λ answer. Tells name.now question found.now answer out.old.items out.new.items) }
{
    match found {
        Finding::Of(subject) => {
            write_advice(alloc, name, question, subject, out)?;
            Ok(SuggestionAnswer::Told)
        }
        Finding::NoChild => Ok(SuggestionAnswer::NoChild),
        Finding::IsSupervisor => Ok(SuggestionAnswer::IsSupervisor),
    }
}

/// Appends with which flags crashes of the worker with this name would be survived that come as is asked ([`find_subject`]).
/// Nothing is appended where the answer is that it was refused.
///
/// # Errors
///
/// Where memory is refused, or a supervisor has 2^62 events before the last crash of a run.
pub fn write_suggestion(
    alloc: Global,
    tree: &TreeSpec,
    name: &[u8],
    question: Question,
    out: &mut Vec<u8>,
) -> Result<SuggestionAnswer, Halt>
    requires { IsQuestion question }
    ensures ok { IfOk result (λ answer. Suggests tree.now name.now question answer out.old.items out.new.items) }
    ensures full { IfErr result (λ halt. halt ≡ HistoryFull → IsUnsuggested tree.now name.now) }
{
    let found = find_subject(alloc, tree, name, question)?;
    let told = write_finding(alloc, name, question, &found, out);
    drop(found);
    match told {
        Ok(answer) => Ok(answer),
        Err(AllocError) => Err(Halt::OutOfMemory),
    }
}
