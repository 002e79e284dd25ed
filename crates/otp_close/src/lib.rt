//! A tree is closed: all its hands and its client have to be back, then each supervisor is taken out of its lock, each inbox is
//! emptied, and a report says what the tree was ([`close`]). Where a part is lacking or memory is refused nothing was taken apart.
//!
//! - `complete.rt`: whether all parts are there.
//! - `rooms.rt`: memory for all that is left, before anything is taken apart.
//! - `unlocking.rt`: the supervisors come out of their locks, and go back where the close is refused.
//! - `parting.rt`: hands in two parts, their schedulers and the rest; the schedulers give their ledger.
//! - `joining.rt`: the senders of all hands come home to the client's, so each knows all that was sent.
//! - `settling.rt`: an inbox is emptied.
//! - `spares.rt`: places that never had a supervisor are left out of the report.
//! - `closing.rt`: all of it, in order, and the report.
#![tactic(auto)]

pub mod closing;
mod complete;
mod joining;
mod parting;
pub mod report;
mod rooms;
mod settling;
mod spares;
mod unlocking;

pub use closing::{CloseFault, Intact, close, finish};
