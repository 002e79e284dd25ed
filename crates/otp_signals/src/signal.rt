ghost use Rattle.std.specs.Prelude.{◌≡◌, ◌+◌, ◌*◌, ◌<◌};
ghost use Rattle.otp_signals.specs.declared.signal.TheConstants.{NUMBER_LIMIT};
ghost use Rattle.otp_signals.specs.Signals.{code_of, word_of, signal_of};

/// All process numbers are below this one, 2^62.
pub const NUMBER_LIMIT: u64 = 1 << 62;

/// What a supervisor tells the process in a slot: nothing, `exit(Child, shutdown)` or `exit(Child, kill)` of OTP
/// (manual page `supervisor`, the key `shutdown` of a child specification).
///
/// For one number a later signal in this order stands over an earlier one.
#[derive(Clone, Copy, Debug, PartialEq, Eq)]
pub enum Signal {
    /// Nothing yet.
    None,
    /// To end in an orderly way.
    Shutdown,
    /// To end without being asked.
    Kill,
}

impl Signal {
    // The word of this signal for a number: four values for each number, of which three are used.
    pub(crate) fn word(self, number: u64) -> u64
        requires { number < NUMBER_LIMIT }
        ensures { result ≡ word_of number self }
    {
        4 * number + self.code()
    }

    fn code(self) -> u64
        ensures { result ≡ code_of self }
    {
        match self {
            Signal::None => 0,
            Signal::Shutdown => 1,
            Signal::Kill => 2,
        }
    }

    // The signal in a word, for the number that asks.
    pub(crate) fn of_word(word: u64, number: u64) -> Signal
        ensures { result ≡ signal_of word number }
    {
        if word / 4 != number {
            return Signal::None;
        }
        match word % 4 {
            1 => Signal::Shutdown,
            2 => Signal::Kill,
            _ => Signal::None,
        }
    }
}
