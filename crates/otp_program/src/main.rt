//! The program `otp`.
#![tactic(auto)]

mod screen;

use otp_cli::words_of;
use otp_command_run::{Pool, run_with};
use otp_exit::host::System;
use otp_live::LogLines;
use otp_sim::Counted;
use screen::Screen;
use std::process::ExitCode;

fn main(rt: HostRuntime) -> ExitCode {
    let pool = Pool {
        rt: &rt,
        alloc: rt.alloc(),
        gate: &Screen::start(&rt),
        watch: &LogLines::to(&rt, rt.alloc()),
    };
    let system = System::new(&rt);
    let status = run_with(
        &pool,
        words_of(&rt),
        &system,
        &mut Counted::new(rt.stdin()),
        &mut system.output(),
        &mut Counted::new(rt.stderr()),
    );
    ExitCode::from(status)
}
