//! A tree of supervisors that runs on threads: opened, served by 1 to 8 hands, stopped, and closed with a report.
//!
//! A job is any type that is a [`otp_job::Job`]. A supervisor is drawn up child by child ([`TableDraft`]), and a tree is the list of
//! its supervisors' plans ([`TablePlan`]), the root first. [`run_tree`] is the whole life of a tree in one call: each hand
//! makes so many turns in a thread of its own, the root is asked to stop, each hand makes as many turns again, and a
//! [`Report`] says what the tree was:
//!
//! ```text
//! let mut root = TableDraft::new(rt.alloc());
//! root.add_worker(Name::new(b"db")?, Steady).ok()?;
//! root.add_worker(Name::new(b"web")?, Steady).ok()?;
//! let mut plans = Vec::new(rt.alloc());
//! plans.push(root.plan(SupFlags::default()).ok()?).ok()?;
//! let report = run_tree(&rt, rt.alloc(), plans, 4, &clock, 1000).ok()?;
//! for table in report.tables.as_slice() {
//!     println!("{} starts, {} restarts", table.starts(), table.restarts());
//! }
//! println!("{} left", report.live);
//! ```
//!
//! `crates/otp_uses/src/two_workers.rt` is such a use whole, with its job; there a function of its own makes the list, whose
//! contract says how many plans there are, since 64 are the most. A child that is a supervisor is added by its number in the list
//! ([`TableDraft::add_supervisor`]).
//!
//! [`run_tree_counted`] tells besides what each supervisor counted before the stop (count_children).
//!
//! [`lead`] goes round by round, and a [`Leader`] says what each round is:
//!
//! ```text
//! /// Serves until the root is up, then asks it to stop, and serves until it has ended.
//! #[derive(Drop)]
//! struct UpAndDown;
//!
//! impl Leader<Job, Subsystem> for UpAndDown {
//!     fn next(&mut self, told: Option<Note>) -> Round<Job, Subsystem> {
//!         match told {
//!             Some(Note::Up(_)) => Round::Stop(1000),
//!             Some(_) => Round::Leave,
//!             None => Round::Serve(1000),
//!         }
//!     }
//! }
//!
//! lead(&rt, rt.alloc(), plans, 4, &clock, 100, UpAndDown)?;
//! ```
//!
//! Its rounds may call a supervisor too, as `supervisor:start_child` and `supervisor:which_children` do ([`Round::Call`]), and
//! then it hears the answer ([`Leader::hear`]).
//!
//! Nothing else is to be written, and no proof: `plans` are the tree's supervisors with their jobs, each of flags and child
//! specifications that were tested once ([`TableDraft::plan`]), 4 the hands, `clock` is
//! a [`Gate`], which is asked the time before each turn, and 100 the most rounds. At the end the tree is closed, and its report
//! comes with the leader.
//!
//! Whoever wants to serve in one thread, or to do more with the open tree, writes a [`Session`] for [`with_system`]. All
//! that belongs to one tree bears one name, `N`, in its type, so that nothing of it can be mixed up with another's, and the
//! library picks the name; that is why a session is a trait with one generic method. In it [`System::serve`] gives a hand
//! turns, [`System::root_note`] is the next thing that the root tells, [`System::submit`] calls a supervisor and
//! [`System::reply`] has its answer, [`System::stop`] asks the root to shut down, and [`close_tree`] takes the tree apart
//! and reports.
//! Where the tree is opened by [`with_growing_system`] a session can add supervisors to it ([`add_tree`]), and then start the
//! first of them as somebody's child.
//! `crates/otp_uses/src/tree.rt` has a whole session, with its job and its plan. The prover doesn't cover a call of
//! [`pool_run`] in a trait's method yet, so a session serves hand by hand.
//!
//! In OTP's words the root is a supervisor that `supervisor:start_link` started, turns are the time that passes, `stop` is
//! its parent's `shutdown`, and the root's note is what its parent hears (OTP Design Principles, Supervisor Behaviour).
#![tactic(auto)]

pub mod adding;
pub mod closing;
pub mod opening;
pub mod rounds;
pub mod session;
pub mod whole;

pub use adding::{AddFault, Unadded, add_tree};
pub use closing::{Unclosed, close_tree, finish_tree};
pub use opening::{Opened, Parts};
pub use otp_close::CloseFault;
pub use otp_close::report::{Mismatch, Report, TableReport};
pub use otp_hand::{Hand, Senders, TreeClient, TreeNaming};
pub use otp_open::{SystemFault, TableDraft, TablePlan, Unopened, Unplanned};
pub use otp_system::{
    CallRefusal, Gate, Happening, Listener, MAX_HANDS, Millis, NoTable, System, Uncalled, pool_run,
};
pub use rounds::{CallEnd, CallId, CallRequest, Leader, Led, Round, lead};
pub use session::{Session, with_growing_system, with_system};
pub use whole::{CountedRun, RunFault, run_tree, run_tree_counted};
