//! What would survive crashes of a child.

ghost use Rattle.std.specs.Prelude.{◌≡◌, IfErr, IfOk};
ghost use Rattle.otp_costs.specs.Fates.{Plays};
ghost use Rattle.otp_trial.specs.declared.clock.Clock.TheVariants.{Milliseconds};
ghost use Rattle.otp_spec.specs.declared.limits.TheConstants.{MAX_INTENSITY};
ghost use Rattle.otp_trial.specs.declared.trial.Halt.TheVariants.{HistoryFull};
ghost use Rattle.otp_costs.specs.Costs.{IsUnknown};
ghost use Rattle.otp_suggest.specs.Advised.{IsAdvice, IsSuggestion, IsUnadvised, IsWorst};
ghost use Rattle.otp_suggest.specs.Courses.{IsCourse, IsQuestion};
ghost use Rattle.otp_suggest.specs.Edges.{turned};
ghost use Rattle.otp_suggest.specs.declared.dial.Dial.TheVariants.{Intensity};

use crate::course::{Course, Question, judge_course};
use crate::dial::Dial;
use crate::edge::{Edge, find_edge, with_value};
use otp_costs::limits::{Fate, Verdict, play};
use otp_reason::Name;
use otp_spec::{MAX_INTENSITY, SupSpec};
use otp_trial::{Clock, Halt};
use std::alloc::Global;

/// What one clock says of crashes of a child.
#[derive(Clone, Copy, Debug, PartialEq, Eq)]
pub struct Advice {
    /// Whether its supervisor survives them as it is.
    pub today: Verdict,
    /// The least intensity that survives them.
    pub intensity: Edge,
    /// The greatest period that survives them, in seconds.
    pub period: Edge,
}

/// What is said of them.
#[derive(Clone, Copy, Debug, PartialEq, Eq)]
pub struct Suggestion {
    /// How the supervisor fares with the greatest intensity where the child crashes twice at once: whether a crash ends it, or the
    /// child isn't started again.
    pub twice: Fate,
    /// Where so many are asked for as come within a time: what survives them all at once, which by each clock is at one time.
    pub worst: Option<Advice>,
    /// By milliseconds, as this library counts. So many within a time are evenly spread.
    pub ours: Advice,
    /// By whole seconds, as OTP does.
    pub theirs: Advice,
}

/// What one clock says of crashes of a child that come so.
///
/// # Errors
///
/// Where memory is refused, or a supervisor has 2^62 events before the last crash of a run.
#[tactic(auto, unfolding(crate::specs::Advised::IsUnadvised))]
pub fn find_advice(
    alloc: Global,
    supervisor: &SupSpec,
    clock: Clock,
    id: &Name,
    course: Course,
) -> Result<Advice, Halt>
    requires { IsCourse course }
    ensures ok { IfOk result (IsAdvice clock supervisor.now.flags supervisor.now.specs id.now course) }
    ensures full { IfErr result (λ halt. halt ≡ HistoryFull → IsUnadvised supervisor.now.flags supervisor.now.specs id.now) }
{
    let today = judge_course(alloc, supervisor, clock, id, course)?;
    let intensity = find_edge(alloc, supervisor, clock, id, course, Dial::Intensity)?;
    let period = find_edge(alloc, supervisor, clock, id, course, Dial::Period)?;
    Ok(Advice {
        today,
        intensity,
        period,
    })
}

/// What is said of so many crashes at once, where so many are asked for.
fn find_worst(
    alloc: Global,
    supervisor: &SupSpec,
    id: &Name,
    question: Question,
) -> Result<Option<Advice>, Halt>
    requires { IsQuestion question }
    ensures ok { IfOk result (IsWorst question supervisor.now.flags supervisor.now.specs id.now) }
    ensures full { IfErr result (λ halt. halt ≡ HistoryFull → IsUnadvised supervisor.now.flags supervisor.now.specs id.now) }
{
    match question {
        Question::Every(_) => Ok(None),
        Question::Within(count, _) => {
            let course = Course::Times(count, 0);
            let worst = find_advice(alloc, supervisor, Clock::Milliseconds, id, course)?;
            Ok(Some(worst))
        }
    }
}

/// How a supervisor fares where a child crashes twice at once.
fn play_two(alloc: Global, supervisor: &SupSpec, id: &Name) -> Result<Fate, Halt>
    ensures ok { IfOk result (Plays supervisor.now.flags supervisor.now.specs Milliseconds id.now 0 2) }
    ensures full { IfErr result (λ halt. halt ≡ HistoryFull → IsUnknown supervisor.now.flags supervisor.now.specs id.now) }
{
    play(alloc, supervisor, Clock::Milliseconds, id, 0, 2)
}

/// How a supervisor of the greatest intensity fares where a child crashes twice at once.
fn play_twice(alloc: Global, supervisor: &SupSpec, id: &Name) -> Result<Fate, Halt>
    ensures ok { IfOk result (Plays (turned Intensity MAX_INTENSITY supervisor.now.flags) supervisor.now.specs Milliseconds id.now 0 2) }
    ensures full { IfErr result (λ halt. halt ≡ HistoryFull → IsUnknown (turned Intensity MAX_INTENSITY supervisor.now.flags) supervisor.now.specs id.now) }
{
    let other = with_value(alloc, supervisor, Dial::Intensity, MAX_INTENSITY)?;
    let fate = play_two(alloc, &other, id);
    drop(other);
    fate
}

/// What would survive crashes of a child that come as is asked.
///
/// # Errors
///
/// Where memory is refused, or a supervisor has 2^62 events before the last crash of a run.
#[tactic(auto, unfolding(crate::specs::Advised::IsUnadvised))]
pub fn find_suggestion(
    alloc: Global,
    supervisor: &SupSpec,
    id: &Name,
    question: Question,
) -> Result<Suggestion, Halt>
    requires { IsQuestion question }
    ensures ok { IfOk result (IsSuggestion supervisor.now.flags supervisor.now.specs id.now question) }
    ensures full { IfErr result (λ halt. halt ≡ HistoryFull → IsUnadvised supervisor.now.flags supervisor.now.specs id.now) }
{
    let course = question.course();
    let twice = play_twice(alloc, supervisor, id)?;
    let worst = find_worst(alloc, supervisor, id, question)?;
    let ours = find_advice(alloc, supervisor, Clock::Milliseconds, id, course)?;
    let theirs = find_advice(alloc, supervisor, Clock::Seconds, id, course)?;
    Ok(Suggestion {
        twice,
        worst,
        ours,
        theirs,
    })
}
