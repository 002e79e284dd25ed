//! What a supervisor decides about rows, orders and lists of them. Each function is one word of the rules of `otp_rules`, and
//! its file has the rule's name.

pub mod counts;
pub mod effects;
pub mod next;
pub mod places;
pub mod restarts;
pub mod starts;
pub mod state;
pub mod step;
pub mod stops;
