//! A supervisor that threads share, under a lock.
//!
//! A [`Table`] is what lies under the lock: the core of the supervisor, the seat that draws its process numbers and posts
//! its signals, the taker of its inbox, its orders on their way, and the bodies of children that have no process. What its
//! type keeps is so whenever the lock is free: [`Table::keeps_rules`] says it. A turn ([`Table::turn`]) is at most one
//! event of the core, and [`Table::flush_one`] sends one order to a [`Port`].
//!
//! A [`Sup`] is a table under its lock beside its inbox, and a [`Client`] sends calls to supervisors. Everything is
//! generic in the body, what a child runs, and in the name of words and inboxes.
#![tactic(auto)]

pub mod client;
pub mod cut;
mod moves;
pub mod naming;
mod plans;
mod rows;
pub mod sup;
pub mod table;

pub use client::{Client, SplitFault, SubmitCause, SubmitFault};
pub use cut::CutAnswer;
pub use naming::{PlanNaming, SupNaming};
pub use otp_bodies::office::{Office, TurnAnswer, TurnFault};
pub use otp_bodies::{
    Bodies, BodyPlace, Evidence, Flushed, Kept, Launched, Letter, MemoryPort, Message, NewProcess,
    Origin, Port, ToldEnd, ToldNote, count_opened, evidence_of,
};
pub use sup::{Displaced, Sup, SupParts, Unlocked};
pub use table::Table;
