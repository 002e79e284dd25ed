//! Any thread calls the supervisors of a tree that runs, as OTP's `supervisor:restart_child` and the others do, or adds some to it: by a
//! [`Caller`].
//!
//! - `caller.rt`: a caller, and what comes of what it wants. Whoever serves the tree does it for the caller.
//! - `calls.rt`: the functions that OTP's `supervisor` exports, as calls of a caller.
//! - `answers.rt`: what each may be answered, and why it is refused.
//!
//! Trees that run with callers are those of `otp_live`, which re-exports all this.

pub mod answers;
pub mod caller;
pub mod calls;
pub mod locked;

pub use answers::{
    CallError, DeleteRefusal, GetRefusal, NoRefusal, RestartRefusal, StartEnd, StartRefusal,
    TerminateRefusal,
};
pub use caller::{AddError, Answer, Caller};
