//! How often a child crashes, as words say it.

ghost use Rattle.std.specs.Prelude.{◌≡◌, ◌≤◌, IfErr, IfOk};
ghost use Rattle.otp_suggest.specs.Asked.{Asks, IsAmiss, IsBurst, count_in, count_of};
ghost use Rattle.otp_suggest.specs.Courses.{IsQuestion};
ghost use Rattle.otp_suggest.specs.declared.asked.Asked.TheVariants as asked;
ghost use Rattle.otp_suggest.specs.declared.course.Question.TheVariants.{Within};
ghost use Rattle.otp_suggest.specs.declared.course.TheConstants.{MOST_TIMES};

use crate::course::{MOST_TIMES, Question};
use crate::gap::{GapFault, read_gap};
use otp_text::read_number;

/// How crashes of a child come, in words.
#[derive(Clone, Copy, Debug, PartialEq, Eq)]
pub enum Asked<'a> {
    /// The time between them.
    Every(&'a str),
    /// How many, and the time within which they come.
    Within(&'a str, &'a str),
}

/// A word that says nothing which can be asked, and why.
#[derive(Clone, Copy, Debug, PartialEq, Eq)]
pub struct Amiss<'a> {
    pub word: &'a str,
    pub why: GapFault,
}

/// How many crashes a word says.
#[tactic(auto, unfolding(crate::specs::Asked::count_of))]
fn read_count(word: &str) -> Result<u64, GapFault>
    ensures count { result ≡ count_in word.now }
    ensures limit { IfOk result (λ count. count ≤ MOST_TIMES) }
{
    match read_number(MOST_TIMES, word.as_bytes()) {
        None => Err(GapFault::NoCount),
        Some(0) => Err(GapFault::NoCount),
        Some(count) => Ok(count),
    }
}

/// How many crashes there are, and within how many milliseconds they come, as these words say it.
///
/// # Errors
///
/// The first of them that says no number from 1 to [`MOST_TIMES`], or no time.
pub fn read_burst<'a>(times: &'a str, within: &'a str) -> Result<(u64, u64), Amiss<'a>>
    ensures burst { IfOk result (λ (count, time). IsBurst times.entry within.entry count time) }
    ensures limit { IfOk result (λ (count, time). IsQuestion (Within count time)) }
    ensures amiss { IfErr result (λ amiss. IsAmiss (asked.Within times.entry within.entry) amiss.word amiss.why) }
{
    let count = match read_count(times) {
        Ok(count) => count,
        Err(why) => return Err(Amiss { word: times, why }),
    };
    match read_gap(within) {
        Ok(time) => Ok((count, time)),
        Err(why) => Err(Amiss { word: within, why }),
    }
}

/// What is asked by these words.
fn read_within<'a>(times: &'a str, within: &'a str) -> Result<Question, Amiss<'a>>
    ensures asked { IfOk result (Asks (asked.Within times.entry within.entry)) }
    ensures limit { IfOk result IsQuestion }
    ensures amiss { IfErr result (λ amiss. IsAmiss (asked.Within times.entry within.entry) amiss.word amiss.why) }
{
    match read_burst(times, within) {
        Ok((count, time)) => Ok(Question::Within(count, time)),
        Err(amiss) => Err(amiss),
    }
}

/// What is asked by words that say how far apart crashes are.
fn read_every<'a>(every: &'a str) -> Result<Question, Amiss<'a>>
    ensures asked { IfOk result (Asks (asked.Every every.entry)) }
    ensures limit { IfOk result IsQuestion }
    ensures amiss { IfErr result (λ amiss. IsAmiss (asked.Every every.entry) amiss.word amiss.why) }
{
    match read_gap(every) {
        Ok(gap) => Ok(Question::Every(gap)),
        Err(why) => Err(Amiss { word: every, why }),
    }
}

/// What is asked by these words.
///
/// # Errors
///
/// The first of them that says no time, or a number of crashes that is none from 1 to [`MOST_TIMES`].
pub fn read_question<'a>(asked: Asked<'a>) -> Result<Question, Amiss<'a>>
    ensures asked { IfOk result (Asks asked.entry) }
    ensures limit { IfOk result IsQuestion }
    ensures amiss { IfErr result (λ amiss. IsAmiss asked.entry amiss.word amiss.why) }
{
    match asked {
        Asked::Every(every) => read_every(every),
        Asked::Within(times, within) => read_within(times, within),
    }
}
