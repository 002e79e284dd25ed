//! Counts of supervisors, which a hand reads without their locks.
ghost use Rattle.std.specs.Prelude.{◌≡◌, ◌<◌, ◌≤◌, [], length, vec_capacity};
ghost use Rattle.otp_hand.specs.Readings.{AreRead, IsReadAt};

use otp_rules::CountsNow;
use otp_signals::counts::CountsPass;

/// Reads by the pass at this place.
pub fn read_at(passes: &mut [CountsPass], place: usize) -> CountsNow
    requires { place < length passes.old }
    ensures { IsReadAt place result passes.old passes.new }
{
    passes[place].read()
}

/// Reads by each pass, in their order.
pub fn read_each(passes: &mut [CountsPass], counts: &mut Vec<CountsNow>)
    requires none { counts.old.items ≡ [] }
    requires room { length passes.old ≤ vec_capacity counts.old }
    ensures many { length counts.new.items ≡ length passes.old }
    ensures read { AreRead counts.new.items passes.old passes.new }
{
    for pass in passes.iter_mut() {
        counts.push_reserved(pass.read());
    }
}
