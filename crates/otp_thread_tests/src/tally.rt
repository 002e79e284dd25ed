use crate::fixtures::same;
use otp_tally::Tally;
use std::mem::size_of;

#[test]
fn takes_no_memory(rt: HostRuntime) {
    let mut count = Tally::new();
    count.raise();
    same(&rt, "the size", size_of::<Tally>(), 0);
}
