//! A tree of supervisors is drawn up by value: each supervisor child by child, and a supervisor below another with all that
//! is below it. So nobody numbers supervisors, no tree leads back to itself, and what is refused comes back.
//!
//! ```text
//! let mut pool = TreeDraft::new(alloc, SupFlags::default());
//! pool.add_worker("a", Steady)?;
//! pool.add(Child::worker("b", Steady).restart(Restart::Transient))?;
//! let mut root = TreeDraft::new(alloc, SupFlags::default());
//! root.add_worker("db", Steady)?;
//! root.add_supervisor("pool", pool)?;
//! let plan = root.finish(alloc)?;
//! ```
//!
//! The plan has the supervisors in one list, the root first, each before those below its own children
//! ([`TreePlan::numbered`] gives them their numbers). That this is so of every tree, however it was drawn up, says
//! [`laws::trees_are_walked`]. [`TreeDraft::paths`] has the path of each, in the same order.
#![tactic(auto)]

pub mod child;
pub mod draft;
pub mod fault;
pub mod laws;
pub mod limits;
pub mod paths;
pub mod plan;

pub use child::{Child, ChildKeys, Runs};
pub use draft::TreeDraft;
pub use fault::{DraftFault, Refused};
pub use limits::MAX_DEPTH;
pub use paths::{Nested, TreePath, find_path};
pub use plan::{DraftedTable, TreePlan, number_bodies};
