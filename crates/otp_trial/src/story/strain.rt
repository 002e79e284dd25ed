//! How a supervisor bears up over a whole run, however often it is started anew in it.

ghost use Rattle.std.specs.Prelude.{◌≡◌, ◌≤◌, ◌+◌, ◌-◌, ◌*◌, ◌&&◌, count_by, nat_le};
ghost use Rattle.std.specs.List.{list_any};
ghost use Rattle.otp_trial.specs.Strains.{course_after, first_course, given_up, is_apart, is_given_up, is_intensity, is_last, is_over_limit, made_now, may_give_up, one_more, parted, put_on, second, strained, unstrained, used};

use otp_rules::{Cause, Effect, Kind};
use otp_spec::SupFlags;
use otp_text::timeline::restarts_in;
use std::collections::VecDeque;

/// Whether a supervisor that runs is on its way to its end.
#[derive(Clone, Copy, Debug, PartialEq, Eq)]
pub enum Course {
    /// It isn't, as far as its restarts and its parent say.
    Stays,
    /// It was asked to shut down at this time.
    Asked(u64),
    /// It has given up at this time: there was a restart more than its intensity.
    GivesUp(u64),
}

/// When a supervisor gave up, and the most restarts that lay in its period. Times are in milliseconds.
#[derive(Clone, Copy, Debug, PartialEq, Eq)]
pub struct Strain {
    /// How often it gave up: ended since there were more restarts than its intensity.
    pub times: u64,
    /// When it last did.
    pub last: u64,
    /// The most restarts that lay in its period.
    pub most: u64,
    /// When first a clock of whole seconds may have ended it, as the second falls, and this one didn't.
    pub apart: Option<u64>,
    /// Whether it is on its way to its end.
    pub course: Course,
}

/// The second that has begun at this time, in milliseconds.
pub fn second(time: u64) -> u64
    ensures value { result ≡ second time }
    ensures before { result ≤ time }
{
    time - time % 1000
}

/// Whether a supervisor that ends so had more restarts than its intensity.
#[tactic(auto, unfolding(crate::specs::Strains::is_intensity))]
fn is_intensity(cause: &Cause) -> bool
    ensures { result ≡ is_intensity cause.now }
{
    match cause {
        Cause::Intensity { .. } => true,
        Cause::Significant(_) | Cause::Asked | Cause::InitFailed(_) => false,
    }
}

/// Whether a supervisor gives up by this order.
#[tactic(auto, unfolding(crate::specs::Strains::is_given_up))]
fn is_given_up(order: &Effect) -> bool
    ensures { result ≡ is_given_up order.now }
{
    match order {
        Effect::Start(..) | Effect::Ask(..) | Effect::Kill(..) => false,
        Effect::Reply(_) | Effect::Ready => false,
        Effect::End(end) => is_intensity(&end.cause),
    }
}

/// Whether a supervisor gives up by one of these orders.
fn gives_up(orders: &[Effect]) -> bool
    ensures { result ≡ list_any is_given_up orders.now }
{
    orders.iter().any(|order| is_given_up(order))
}

/// Whether a restart lies so near that a clock of whole seconds shows it in the period, if a second ends as it is now.
fn is_near(period: u64, stamp: u64, now: u64) -> bool
    ensures { result ≡ (nat_le stamp now && nat_le (now - stamp) (1000 * period + 999)) }
{
    stamp <= now && now - stamp <= period.saturating_mul(1000).saturating_add(999)
}

/// How many of the restarts lie so near.
fn count_near(stamps: &VecDeque<u64>, period: u64, now: u64) -> u64
    ensures { result ≡ count_by (λ stamp. nat_le stamp now && nat_le (now - stamp) (1000 * period + 999)) stamps.now.items }
{
    let mut count: u64 = 0;
    for place in 0..stamps.len() {
        if is_near(period, stamps[place], now) {
            count += 1;
        }
    }
    count
}

/// Whether there is a phase of the second at which a clock of whole seconds ends the supervisor: at none it shows more restarts in
/// the period than where a second ends as it is now.
fn may_give_up(flags: &SupFlags, stamps: &VecDeque<u64>, now: u64) -> bool
    ensures { result ≡ may_give_up flags.now stamps.now.items now }
{
    count_near(stamps, flags.period, now) > flags.intensity
}

/// How many of the restarts were made now.
fn made_now(stamps: &VecDeque<u64>, now: u64) -> u64
    ensures { result ≡ made_now stamps.now.items now }
{
    let mut count: u64 = 0;
    for place in 0..stamps.len() {
        if stamps[place] == now {
            count += 1;
        }
    }
    count
}

/// Whether more restarts than the intensity lie in the period.
#[tactic(auto, unfolding(crate::specs::Strains::is_over_limit))]
fn is_over_limit(flags: &SupFlags, stamps: &VecDeque<u64>, now: u64) -> bool
    ensures { result ≡ is_over_limit flags.now stamps.now.items now }
{
    restarts_in(stamps, flags.period, now) > flags.intensity
}

/// Whether a restart was made now after which a clock of whole seconds may end the supervisor, and one of milliseconds doesn't.
#[tactic(auto, unfolding(crate::specs::Strains::is_apart))]
fn is_apart(flags: &SupFlags, stamps: &VecDeque<u64>, now: u64) -> bool
    ensures { result ≡ is_apart flags.now stamps.now.items now }
{
    made_now(stamps, now) > 0
        && may_give_up(flags, stamps, now)
        && !is_over_limit(flags, stamps, now)
}

/// Whether a restart was made now that is one too many.
#[tactic(auto, unfolding(crate::specs::Strains::is_last))]
fn is_last(flags: &SupFlags, stamps: &VecDeque<u64>, now: u64) -> bool
    ensures { result ≡ is_last flags.now stamps.now.items now }
{
    made_now(stamps, now) > 0 && is_over_limit(flags, stamps, now)
}

/// A count more, while it fits.
#[tactic(auto, unfolding(crate::specs::Strains::one_more))]
fn one_more(count: u64) -> u64
    ensures { result ≡ one_more count }
{
    if count == u64::MAX { count } else { count + 1 }
}

impl Course {
    /// This course, if it leads to an end already; else the other one.
    #[tactic(auto, unfolding(crate::specs::Strains::first_course))]
    fn first(self, to: Course) -> Self
        ensures { result ≡ first_course to self }
    {
        match self {
            Course::Stays => to,
            course => course,
        }
    }

    /// The course after an event of this kind, where the last restart is one too many or not.
    #[tactic(auto, unfolding(crate::specs::Strains::course_after))]
    fn after(self, kind: &Kind, now: u64, is_last: bool) -> Self
        ensures { result ≡ course_after kind.now now is_last self }
    {
        match kind {
            Kind::Opened(_) => Course::Stays,
            Kind::Stopped => self.first(Course::Asked(now)),
            Kind::Took(_) | Kind::Resumed | Kind::Ticked => {
                if is_last {
                    self.first(Course::GivesUp(now))
                } else {
                    self
                }
            }
        }
    }
}

impl Strain {
    /// The strain of a supervisor that was never opened.
    pub fn new() -> Self
        ensures { result ≡ unstrained }
    {
        Strain {
            times: 0,
            last: 0,
            most: 0,
            apart: None,
            course: Course::Stays,
        }
    }

    /// It gives up now, or not.
    #[tactic(auto, unfolding(crate::specs::Strains::given_up))]
    fn given_up(self, gives_up: bool, now: u64) -> Self
        ensures { result ≡ given_up gives_up now self }
    {
        if !gives_up {
            return self;
        }
        Strain {
            times: one_more(self.times),
            last: now,
            most: self.most,
            apart: self.apart,
            course: self.course,
        }
    }

    /// So many restarts lie in its period now.
    #[tactic(auto, unfolding(crate::specs::Strains::used))]
    fn used(self, restarts: u64) -> Self
        ensures { result ≡ used restarts self }
    {
        if self.most < restarts {
            Strain {
                times: self.times,
                last: self.last,
                most: restarts,
                apart: self.apart,
                course: self.course,
            }
        } else {
            self
        }
    }

    /// The clocks decide apart now, or not.
    #[tactic(auto, unfolding(crate::specs::Strains::parted, crate::specs::Strains::first_apart))]
    fn parted(self, is_apart: bool, now: u64) -> Self
        ensures { result ≡ parted is_apart now self }
    {
        if !is_apart || self.apart.is_some() {
            return self;
        }
        Strain {
            times: self.times,
            last: self.last,
            most: self.most,
            apart: Some(now),
            course: self.course,
        }
    }

    /// An event of this kind puts it on its course.
    #[tactic(auto, unfolding(crate::specs::Strains::put_on))]
    fn put_on(self, kind: &Kind, now: u64, is_last: bool) -> Self
        ensures { result ≡ put_on kind.now now is_last self }
    {
        Strain {
            course: self.course.after(kind, now, is_last),
            ..self
        }
    }

    /// What an event of this kind made of it, after which the supervisor has these restarts, and by which it gave these orders.
    #[tactic(auto, unfolding(crate::specs::Strains::strained))]
    pub fn strained(
        self,
        now: u64,
        kind: &Kind,
        flags: &SupFlags,
        stamps: &VecDeque<u64>,
        orders: &[Effect],
    ) -> Self
        ensures { result ≡ strained self now kind.now flags.now stamps.now.items orders.now }
    {
        self.given_up(gives_up(orders), now)
            .used(restarts_in(stamps, flags.period, now))
            .parted(is_apart(flags, stamps, now), now)
            .put_on(kind, now, is_last(flags, stamps, now))
    }
}
