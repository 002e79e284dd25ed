//! How a supervisor fares where a child crashes again and again.

ghost use Rattle.std.specs.Prelude.{◌≡◌, ◌≤◌, ◌*◌, IfErr, IfOk, false};
ghost use Rattle.otp_spec.specs.declared.limits.TheConstants.{MAX_READING};
ghost use Rattle.otp_costs.specs.Fates.{Fares, Fills, IsUnplayed, Plays};
ghost use Rattle.otp_rules.specs.State.{is_over};
ghost use Rattle.otp_trial.specs.declared.trial.Halt.TheVariants.{HistoryFull};

use crate::limits::stage::CrashPlayer;
use otp_reason::Name;
use otp_spec::SupSpec;
use otp_trial::{Clock, Halt};
use std::alloc::Global;

/// How a supervisor fares where a child crashes so many times.
#[derive(Clone, Copy, Debug, PartialEq, Eq)]
pub enum Fate {
    /// It runs after them all.
    Survived,
    /// It runs after so many, and the next one ends it.
    Ended(u64),
    /// It runs after so many, and then the child isn't there any more.
    Gone(u64),
}

/// Lets a child of an opened supervisor crash so often, first at once and then each time after so many milliseconds.
#[tactic(auto, unfolding(crate::specs::Fates::Fares))]
fn fare(
    stage: &mut CrashPlayer,
    clock: Clock,
    id: &Name,
    gap: u64,
    crashes: u64,
) -> Result<Fate, Halt>
    requires runs { is_over stage.old.state.phase ≡ false }
    requires time { crashes * gap ≤ MAX_READING }
    ensures ok { IfOk result (λ fate. Fares clock id.now gap crashes stage.old fate) }
    ensures full { IfErr result (λ halt. halt ≡ HistoryFull → Fills clock id.now gap crashes stage.old) }
{
    for count in 0..crashes {
        if stage.process_of(id).is_none() {
            return Ok(Fate::Gone(count));
        }
        stage.crash(id, clock.shown(count * gap))?;
        if stage.has_ended() {
            return Ok(Fate::Ended(count));
        }
    }
    Ok(Fate::Survived)
}

/// Opens a supervisor, and lets a child of it crash so often, first at once and then each time after so many milliseconds, by
/// this clock.
///
/// # Errors
///
/// Where memory is refused, or a supervisor has 2^62 events before the last crash.
pub fn play(
    alloc: Global,
    supervisor: &SupSpec,
    clock: Clock,
    id: &Name,
    gap: u64,
    crashes: u64,
) -> Result<Fate, Halt>
    requires time { crashes * gap ≤ MAX_READING }
    ensures ok { IfOk result (λ fate. Plays supervisor.now.flags supervisor.now.specs clock id.now gap crashes fate) }
    ensures full { IfErr result (λ halt. halt ≡ HistoryFull → IsUnplayed supervisor.now.flags supervisor.now.specs clock id.now gap crashes) }
{
    let mut stage = CrashPlayer::open(alloc, supervisor)?;
    if stage.has_ended() {
        drop(stage);
        return Err(Halt::HistoryFull);
    }
    let fate = fare(&mut stage, clock, id, gap, crashes);
    drop(stage);
    fate
}
