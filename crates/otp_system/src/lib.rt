//! A tree of supervisors that hands serve, open and not yet closed. `otp_tree` opens it, adds supervisors to it and closes it, and users
//! have all of this from there.
//!
//! - `system.rt`: the tree ([`System`]), the root's stop and notes, the counts of each supervisor.
//! - `serving.rt`: a turn of a hand; `finding.rt`: which process has it.
//! - `pool.rt`: hands side by side, each in a thread of its own ([`pool_run`]); `meeting.rt`: whether any has something to do.
//! - `calling.rt`: calls of supervisors, and their answers.
//! - `clock.rt`, `listener.rt`, `happening.rt`: where the time comes from, who is told what a hand does, and what happens to processes.
//! - `growth.rt`: which places have a supervisor, where some are added while the tree runs.
#![tactic(auto)]

pub mod calling;
pub mod clock;
mod finding;
pub mod growth;
pub mod happening;
pub mod listener;
mod meeting;
pub mod pool;
pub mod serving;
pub mod system;

pub use calling::{CallRefusal, NoTable, Uncalled};
pub use clock::{Gate, Millis};
pub use growth::{Desk, Growth};
pub use happening::Happening;
pub use listener::Listener;
pub use pool::{MAX_HANDS, pool_run};
pub use system::System;
