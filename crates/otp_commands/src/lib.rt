//! The program, as a function of its words, its files, its input and two writers: `sim FILE` reads a tree file and then lines
//! of standard input, and prints the orders of its supervisor; `check FILE` says what is wrong in the file. It runs no tree:
//! `otp_command_run` has it with `run`. Questions about a tree are in `otp_questions`.
#![tactic(auto)]

pub mod checking;
pub mod console;
mod findings;
mod importing;
mod judging;
pub mod lint;
mod logs;
mod objects;
mod pages;
pub mod program;
mod using;
