//! How long a tree is run.
ghost use Rattle.std.specs.Prelude.{◌≡◌};
ghost use Rattle.otp_live.specs.Spans.{is_past, leave_at, sooner};

/// How long a tree is run before it is stopped, and how long its stop may take, in milliseconds since the run began.
#[derive(Clone, Copy, Debug, PartialEq, Eq)]
pub struct Span {
    /// When the root is asked to stop. None: that comes from outside alone, by the stop.
    pub stop: Option<u64>,
    /// So long after that the hands leave the tree, whether its root has ended or not. None: they don't before.
    pub grace: Option<u64>,
}

impl Span {
    /// Without an end of its own.
    pub fn endless() -> Span {
        Span {
            stop: None,
            grace: None,
        }
    }

    /// When the hands leave.
    pub fn leave(&self) -> Option<u64>
        ensures { result ≡ leave_at self.now }
    {
        match (self.stop, self.grace) {
            (Some(stop), Some(grace)) => Some(stop.saturating_add(grace)),
            _ => None,
        }
    }

    /// Whether the root is to be asked to stop, by this reading of the clock.
    pub fn is_to_stop(&self, reading: u64) -> bool
        ensures { result ≡ is_past self.now.stop reading }
    {
        is_past(self.stop, reading)
    }

    /// Whether the hands are to leave, by this reading of the clock.
    pub fn is_over(&self, reading: u64) -> bool
        ensures { result ≡ is_past (leave_at self.now) reading }
    {
        is_past(self.leave(), reading)
    }
}

/// Whether a time has come, if there is one.
pub(crate) fn is_past(time: Option<u64>, reading: u64) -> bool
    ensures { result ≡ is_past time reading }
{
    match time {
        Some(time) => time <= reading,
        None => false,
    }
}

/// The sooner of two times.
pub(crate) fn sooner(one: Option<u64>, other: Option<u64>) -> Option<u64>
    ensures { result ≡ sooner one other }
{
    match (one, other) {
        (Some(one), Some(other)) => Some(one.min(other)),
        (Some(one), None) => Some(one),
        (None, other) => other,
    }
}
