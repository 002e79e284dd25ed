//! A supervisor that runs gets other flags and other specifications, by its checkpoint: a child of both keeps its process, its
//! number and its slot. Whoever has the core makes a checkpoint of it, changes that, and resumes a core from it
//! (`Core::checkpoint` and `Core::resume` of `otp_core`).

mod changing;
pub mod fault;
pub mod laws;
mod rows;
mod seat;
mod stamps;

pub use changing::change;
pub use fault::ChangeFault;
