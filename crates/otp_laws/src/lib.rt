//! More laws of OTP's supervisor over whole histories: what becomes of a process from its start to its end, how often a note
//! counts, what an answer to a call means, and when a supervisor must end.
//!
//! They stand above `otp_rules`, whose definitions they speak of. Two serve a supervisor under its lock (`up_keeps_children`,
//! `stop_keeps_children`); on the others nothing stands.
#![tactic(auto)]

pub mod laws;
