//! A tree of supervisors with jobs of your own: all that its users need, from one crate.
//!
//! A child is a [`Job`]. A supervisor is drawn up child by child ([`TreeDraft`]), and goes by value below another; so
//! nobody numbers supervisors. [`run`] runs a tree until its root has ended or a [`StopFlag`] is raised, on threads that sleep while
//! there is nothing to do. [`run_turns`] is a life counted in turns, and [`lead`] goes round by round, as a [`Leader`] says. Each
//! fault of a draft has its name ([`DraftFault`]), and what was handed in comes back with it ([`Refused`], [`Unrun`]); where it
//! needn't, `?` makes a [`Fault`] of it.
//!
//! ```text
//! let mut pool = TreeDraft::new(alloc, SupFlags::default());
//! pool.add_worker("a", Steady)?;
//! pool.add_worker("b", Steady)?;
//! let mut root = TreeDraft::new(alloc, SupFlags::default());
//! root.add_worker("db", Steady)?;
//! root.add_supervisor("pool", pool)?;
//! let report = run(rt, alloc, root, 4, &stop, &Unwatched)?;
//! ```
//!
//! `crates/otp_uses/src/until_stopped.rt` is this whole, with its job: another thread raises the stop, and a watch writes what
//! happens. To a tree that is run with room for more ([`run_growing`]) any thread adds others ([`grow`]). Whoever does more with the
//! open tree writes a [`Session`] for [`with_tree`], or for [`with_growing_tree`], to which it adds others ([`add_tree`]).
//!
//! # Limits
//!
//! A tree has at most [`MAX_TABLES`] supervisors, on at most [`MAX_DEPTH`] levels, each with at most [`MAX_CHILDREN`] children, and
//! is served by 1 to [`MAX_HANDS`] hands. `docs/FORMATS.md` has what happens at each limit.
#![tactic(auto)]

pub mod adding;
pub mod fault;
pub mod running;
pub mod still;
mod watching;

pub use adding::NotAdded;
pub use adding::add_tree;
pub use adding::grow;
pub use fault::Fault;
pub use fault::Unrun;
pub use otp_core::ReplyAnswer;
pub use otp_draft::Child;
pub use otp_draft::ChildKeys;
pub use otp_draft::DraftFault;
pub use otp_draft::MAX_DEPTH;
pub use otp_draft::Refused;
pub use otp_draft::Runs;
pub use otp_draft::TreeDraft;
pub use otp_draft::TreePath;
pub use otp_draft::find_path;
pub use otp_job::Body;
pub use otp_job::BoxedJob;
pub use otp_job::Job;
pub use otp_job::NoWaker;
pub use otp_job::Place;
pub use otp_job::Told;
pub use otp_job::Turn;
pub use otp_job::bridge::BoxedSubsystem;
pub use otp_job::bridge::Bridge;
pub use otp_job::bridge::Subsystem;
pub use otp_live::AddError;
pub use otp_live::Answer;
pub use otp_live::CallError;
pub use otp_live::Caller;
pub use otp_live::DeleteRefusal;
pub use otp_live::GetRefusal;
pub use otp_live::Happening;
pub use otp_live::LogLines;
pub use otp_live::Mailbox;
pub use otp_live::NoRefusal;
pub use otp_live::RestartRefusal;
pub use otp_live::Seen;
pub use otp_live::StartEnd;
pub use otp_live::StartRefusal;
pub use otp_live::StopFlag;
pub use otp_live::TerminateRefusal;
pub use otp_live::Unwatched;
pub use otp_live::Waker;
pub use otp_live::Watch;
pub use otp_reason::Name;
pub use otp_reason::Note;
pub use otp_reason::Reason;
pub use otp_reason::Started;
pub use otp_reason::Text;
pub use otp_rules::Call;
pub use otp_rules::CountsNow;
pub use otp_rules::Reply;
pub use otp_spec::AutoShutdown;
pub use otp_spec::ChildSpec;
pub use otp_spec::ChildType;
pub use otp_spec::MAX_CHILDREN;
pub use otp_spec::MAX_TABLES;
pub use otp_spec::Modules;
pub use otp_spec::Restart;
pub use otp_spec::Shutdown;
pub use otp_spec::SpecFault;
pub use otp_spec::SpecKey;
pub use otp_spec::Strategy;
pub use otp_spec::SupFlags;
pub use otp_tree::AddFault;
pub use otp_tree::CallEnd;
pub use otp_tree::CallId;
pub use otp_tree::CallRefusal;
pub use otp_tree::CallRequest;
pub use otp_tree::CountedRun;
pub use otp_tree::Gate;
pub use otp_tree::Hand;
pub use otp_tree::Leader;
pub use otp_tree::Led;
pub use otp_tree::MAX_HANDS;
pub use otp_tree::Millis;
pub use otp_tree::NoTable;
pub use otp_tree::Report;
pub use otp_tree::Round;
pub use otp_tree::RunFault;
pub use otp_tree::Session;
pub use otp_tree::System;
pub use otp_tree::SystemFault;
pub use otp_tree::TablePlan;
pub use otp_tree::TableReport;
pub use otp_tree::TreeClient;
pub use otp_tree::TreeNaming;
pub use otp_tree::Unadded;
pub use otp_tree::Uncalled;
pub use otp_tree::Unopened;
pub use otp_tree::close_tree;
pub use otp_tree::finish_tree;
pub use otp_tree::with_growing_system;
pub use otp_tree::with_system;
pub use running::GrowingTree;
pub use running::lead;
pub use running::plans;
pub use running::run;
pub use running::run_counted;
pub use running::run_growing;
pub use running::run_turns;
pub use running::run_with_callers;
pub use running::with_growing_tree;
pub use running::with_tree;
pub use still::Still;
