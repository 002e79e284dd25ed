use crate::reason::Reason;

/// What a process tells its supervisor. The `u64` is the number of the process.
#[derive(Clone, Copy, Debug, PartialEq, Eq)]
pub enum Note {
    /// It started: `{ok, Pid}`.
    Up(u64),
    /// Its start function answered `ignore`; there is no process.
    Ignored(u64),
    /// Its start failed; there is no process.
    Failed(u64, Reason),
    /// It ended after it had started.
    Exit(u64, Reason),
}

/// What a start function answers (`supervisor`, "Child Specification", `start`).
#[derive(Clone, Copy, Debug, PartialEq, Eq)]
pub enum Started {
    /// The process runs: `{ok, Pid}`.
    Up,
    /// There is nothing to run: `ignore`.
    Ignore,
    /// The start failed: `{error, Term}`.
    Fail(Reason),
}
