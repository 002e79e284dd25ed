//! How a tree is opened: what is drawn up becomes plans, plans become supervisors, and hands are made to serve them.
//!
//! - `draft.rt`: a supervisor is drawn up child by child ([`TableDraft`]); `plan.rt`: what comes of it ([`TablePlan`]).
//! - `ready.rt`: a place is made ready for each supervisor, with its number, its inbox and its seat ([`ready_all`]); `opening.rt`: the
//!   supervisors are opened there, which takes no memory ([`Site::open`]).
//! - `spares.rt`: places behind them that have none yet; `adding.rt`: supervisors are added there.
//! - `hands.rt`: a hand for each scheduler ([`make_hands`]); `passes.rt`: its passes to the counts of supervisors.
//!
//! `otp_tree` puts it together, under a name (`Parts`).
#![tactic(auto)]

pub mod adding;
pub mod draft;
pub mod hands;
pub mod opening;
mod passes;
pub mod plan;
pub mod ready;
pub mod spares;

pub use adding::{are_unused, find_lacking, find_stranger, make_spaces, plan_all};
pub use draft::{TableDraft, Unplanned};
pub use hands::{make_hands, seat};
pub use opening::{Site, SystemFault, Unopened, slots_of};
pub use plan::TablePlan;
pub use ready::{Readied, ReadyPlace, open_inboxes, ready_all};
pub use spares::{with_spares, without_spares};
