//! What each side of a tree holds while it runs: each thread that serves it a [`Hand`], whoever calls its supervisors a
//! [`TreeClient`], and all of them what is [`Shared`].
//!
//! - `senders.rt`: a sender to each supervisor, of which each hand and each client has a list.
//! - `client.rt`: numbers for calls, and the right to stop the root.
//! - `hand.rt`: what one thread has; `runner.rt`: what it runs processes with. What waits in it, and what it knows of the deques,
//!   stands in `waiting`.
//! - `reading.rt`: counts of supervisors, read without their locks.
//! - `shared.rt`: the signal words and the supervisors themselves.
//!
//! A hand is opened with its tree (`otp_open`), has its turns in `otp_system`, and is taken apart again in `otp_close`. Fields are open
//! to those three; what has to hold of a value's fields is its type's invariant, which whoever changes them has to keep.
#![tactic(auto)]

pub mod client;
pub mod ending;
pub mod hand;
pub mod naming;
pub mod places;
pub mod reading;
pub mod runner;
pub mod senders;
pub mod shared;
pub mod waiting;

pub use client::{ROOT_NUMBER, ROOT_SLOT, TreeClient};
pub use hand::Hand;
pub use naming::TreeNaming;
pub use runner::{Runner, Unsent};
pub use senders::Senders;
pub use shared::Shared;
