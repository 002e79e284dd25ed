//! What a supervisor's children run, and how it comes and goes: bodies at home, letters that bring them, ports that take them.
//!
//! [`Bodies`] are the bodies that a supervisor keeps, of children that have no process. A [`Letter`] is a note or a call on
//! its way to the supervisor, with the body or the end that it brings. A [`Port`] takes the processes that a supervisor
//! starts, each with its body, and the notes to its parent. All of it is generic in the body.
//!
//! [`office`] is a core with the seat that draws its numbers, and its orders on their way.
#![tactic(auto)]

pub mod bodies;
mod kept;
pub mod letter;
mod loose;
pub mod office;
pub mod port;
mod slots;
pub mod told;

pub use bodies::{Bodies, BodyPlace, Kept, Origin, count_opened};
pub use letter::{Letter, Message};
pub use port::{Flushed, Launched, MemoryPort, NewProcess, Port, ToldNote};
pub use told::{Evidence, ToldEnd, evidence_of, keep_end, number_of};
