// What threads share of a run is Send and Sync, also as seen from a crate above.
use otp_live::{StopFlag, Waker};

fn is_send<T: Send>(_: &T) {}

fn is_sync<T: Sync>(_: &T) {}

pub fn flags_are_shared(stop: &StopFlag, waker: &Waker) {
    is_send(stop);
    is_sync(stop);
    is_send(waker);
    is_sync(waker);
}
