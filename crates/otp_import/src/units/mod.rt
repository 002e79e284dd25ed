//! Units of systemd, as `systemctl cat` prints them: services as children of a tree file, and what each runs as a file of commands
//! of `otp-procs`.

mod reading;
mod service;
mod services;
mod time;
mod words;

pub use reading::is_units;
pub use services::put_units;
