//! How crashes of a child come.

ghost use Rattle.std.specs.Prelude.{◌≡◌, ◌≤◌, IfErr, IfOk};
ghost use Rattle.otp_costs.specs.Costs.{IsUnknown, verdict_of};
ghost use Rattle.otp_trial.specs.declared.trial.Halt.TheVariants.{HistoryFull};
ghost use Rattle.otp_suggest.specs.Courses.{IsCourse, IsJudgedBy, IsQuestion, apart_of, course_of, even_gap};
ghost use Rattle.otp_suggest.specs.declared.course.Course.TheVariants.{Times};

use otp_costs::limits::{Fate, Verdict, judge, play};
use otp_reason::Name;
use otp_spec::SupSpec;
use otp_trial::{Clock, Halt};
use std::alloc::Global;

/// The most crashes that are asked for: no supervisor has a greater intensity.
pub const MOST_TIMES: u64 = 1_000;

/// What is asked: how crashes of a child come.
#[derive(Clone, Copy, Debug, PartialEq, Eq)]
pub enum Question {
    /// So many milliseconds apart, for ever.
    Every(u64),
    /// So many of them, at any moments within so many milliseconds.
    Within(u64, u64),
}

/// How crashes of a child come that are played.
#[derive(Clone, Copy, Debug, PartialEq, Eq)]
pub enum Course {
    /// So many milliseconds apart, for ever.
    Steady(u64),
    /// So many of them, so many milliseconds apart.
    Times(u64, u64),
}

/// How far apart so many crashes are that are evenly spread over a time.
fn even_gap(count: u64, time: u64) -> u64
    ensures value { result ≡ even_gap count time }
    ensures limit { result ≤ time }
{
    if count <= 1 { 0 } else { time / (count - 1) }
}

impl Question {
    /// How far apart the crashes are, evenly spread where they come within a time, in milliseconds.
    pub fn apart(self) -> u64
        ensures { result ≡ apart_of self }
    {
        match self {
            Question::Every(gap) => gap,
            Question::Within(count, time) => even_gap(count, time),
        }
    }

    /// How the crashes come that are asked for: at their interval, or evenly spread.
    pub fn course(self) -> Course
        requires { IsQuestion self }
        ensures value { result ≡ course_of self }
        ensures limit { IsCourse result }
    {
        match self {
            Question::Every(gap) => Course::Steady(gap),
            Question::Within(count, time) => Course::Times(count, even_gap(count, time)),
        }
    }
}

/// What a run that went so shows.
#[tactic(auto, unfolding(otp_costs::specs::Costs::verdict_of))]
pub(crate) fn verdict_of(fate: Fate) -> Verdict
    ensures { result ≡ verdict_of fate }
{
    match fate {
        Fate::Survived | Fate::Gone(_) => Verdict::Lasts,
        Fate::Ended(_) => Verdict::Falls,
    }
}

/// Plays so many crashes of a child, so many milliseconds apart.
fn judge_times(
    alloc: Global,
    supervisor: &SupSpec,
    clock: Clock,
    id: &Name,
    count: u64,
    gap: u64,
) -> Result<Verdict, Halt>
    requires { IsCourse (Times count gap) }
    ensures ok { IfOk result (IsJudgedBy clock supervisor.now.flags supervisor.now.specs id.now (Times count gap)) }
    ensures full { IfErr result (λ halt. halt ≡ HistoryFull → IsUnknown supervisor.now.flags supervisor.now.specs id.now) }
{
    let fate = play(alloc, supervisor, clock, id, gap, count)?;
    Ok(verdict_of(fate))
}

/// Plays crashes of a child that come so.
///
/// # Errors
///
/// Where memory is refused, or a supervisor has 2^62 events before the last crash.
pub(crate) fn judge_course(
    alloc: Global,
    supervisor: &SupSpec,
    clock: Clock,
    id: &Name,
    course: Course,
) -> Result<Verdict, Halt>
    requires { IsCourse course }
    ensures ok { IfOk result (IsJudgedBy clock supervisor.now.flags supervisor.now.specs id.now course) }
    ensures full { IfErr result (λ halt. halt ≡ HistoryFull → IsUnknown supervisor.now.flags supervisor.now.specs id.now) }
{
    match course {
        Course::Steady(gap) => judge(alloc, supervisor, clock, id, gap),
        Course::Times(count, gap) => judge_times(alloc, supervisor, clock, id, count, gap),
    }
}
