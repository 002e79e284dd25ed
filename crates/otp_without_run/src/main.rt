//! The program `otp` without what runs trees: it answers all commands but `run`, which it refuses. It has a third less code, so it
//! is there sooner where a program is compiled for one question (`./otp`).
#![tactic(auto)]

use otp_cli::words_of;
use otp_commands::program::run;
use otp_exit::host::System;
use otp_sim::Counted;
use std::process::ExitCode;

fn main(rt: HostRuntime) -> ExitCode {
    let system = System::new(&rt);
    let status = run(
        rt.alloc(),
        words_of(&rt),
        &system,
        &mut Counted::new(rt.stdin()),
        &mut system.output(),
        &mut Counted::new(rt.stderr()),
    );
    ExitCode::from(status)
}
