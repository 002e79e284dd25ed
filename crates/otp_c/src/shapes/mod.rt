//! The structs of `otp.h`: what each holds, how it is written, and what it says.
//!
//! Numbers that stand for words are those of the header; 0 is none of them.

mod answer;
mod fault;
mod order;
mod spec;
mod status;
mod structs;
mod words;

pub use answer::{answer_out, line_out};
pub use fault::{fault_of, unchanged_of};
pub use order::write_order;
pub use spec::{named, spec_in, spec_out};
pub use status::{
    OTP_BAD_KIND, OTP_BAD_NAME, OTP_BAD_READING, OTP_BAD_TEXT, OTP_BAD_TREE, OTP_BUSY, OTP_CLOSED,
    OTP_FULL, OTP_MEMORY, OTP_NESTED, OTP_NO_SUPERVISOR, OTP_NONE, OTP_OK, OTP_OPEN, OTP_RUNNING,
    OTP_SPENT, OTP_TURNED, change_status, status_of,
};
pub use structs::{
    CAnswer, CChild, CFault, CLine, CName, COrder, CSpec, CSupervisor, CText, FAULT_SIZE,
};
pub use words::{
    NoReason, auto_shutdown_number, cause_number, flag, name_out, no_name, no_text, reason_in,
    some_name_out, strategy_number,
};
