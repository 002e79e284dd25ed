//! Counts as one word.

ghost use Rattle.std.specs.Prelude.{◌≡◌};
ghost use Rattle.otp_signals.specs.Words.{AreFew, counts_in, word_of};

use otp_rules::CountsNow;

/// The word of these counts: nine bits for each, the specifications the lowest.
pub(crate) fn word_of(counts: CountsNow) -> u64
    requires { AreFew counts }
    ensures { result ≡ word_of counts }
{
    counts.specs + 512 * counts.active + 262_144 * counts.supervisors + 134_217_728 * counts.workers
}

/// The counts in a word.
pub(crate) fn counts_in(word: u64) -> CountsNow
    ensures { result ≡ counts_in word }
{
    CountsNow {
        specs: word % 512,
        active: word / 512 % 512,
        supervisors: word / 262_144 % 512,
        workers: word / 134_217_728,
    }
}
