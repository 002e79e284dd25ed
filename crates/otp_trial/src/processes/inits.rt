//! How long the starts of children take.

ghost use Rattle.std.specs.Prelude.{◌≡◌, ◌<◌, IfSome, OnOk, length, position, slice_set};
ghost use Rattle.otp_trial.specs.Inits.{init_for, is_init_of, time_said, used_init, with_init};

use otp_reason::Name;
use std::alloc::AllocError;

/// How long each start of the child with this id takes, of the supervisor at this place.
#[derive(Clone, Copy, Debug, PartialEq, Eq)]
pub struct Init {
    pub place: usize,
    pub id: Name,
    /// So many milliseconds after it was ordered it is answered.
    pub time: u64,
    /// The line that says so.
    pub line: u64,
    /// The child was there then. Otherwise a later `start` may add it.
    pub is_known: bool,
    /// It was started since.
    pub is_used: bool,
}

/// Whether it is said of this child of the supervisor at this place.
fn is_init_of(place: usize, id: &Name, init: &Init) -> bool
    ensures { result ≡ is_init_of place id.now init.now }
{
    init.place == place && init.id == *id
}

/// Where it stands how long the starts of this child take, of the supervisor at this place.
fn init_of(inits: &[Init], place: usize, id: &Name) -> Option<usize>
    ensures place { result ≡ position (is_init_of place id.now) inits.now }
    ensures inside { IfSome result (λ at. at < length inits.now) }
{
    inits.iter().position(|init| is_init_of(place, id, init))
}

/// Where it stands how long the starts of this child take, of the supervisor at this place, if the child has an id.
#[tactic(auto, unfolding(crate::specs::Inits::init_for))]
fn init_for(inits: &[Init], place: usize, id: &Option<Name>) -> Option<usize>
    ensures place { result ≡ init_for place id.now inits.now }
    ensures inside { IfSome result (λ at. at < length inits.now) }
{
    match id {
        None => None,
        Some(id) => init_of(inits, place, id),
    }
}

/// What is said at this place stands so.
fn put_at(inits: &mut Vec<Init>, at: usize, init: Init)
    requires { at < length inits.old.items }
    ensures { inits.new.items ≡ slice_set inits.old.items at init }
{
    inits[at] = init;
}

/// How long the start of this child takes, if the script said so; that was used then.
#[tactic(auto, unfolding(crate::specs::Inits::time_said, crate::specs::Inits::used_init, crate::specs::Inits::used_in))]
pub(crate) fn take_time(inits: &mut Vec<Init>, place: usize, id: &Option<Name>) -> Option<u64>
    ensures time { result ≡ time_said inits.old.items (init_for place id.now inits.old.items) }
    ensures used { inits.new.items ≡ used_init inits.old.items (init_for place id.now inits.old.items) }
{
    let found = init_for(inits.as_slice(), place, id);
    match found {
        None => None,
        Some(at) => {
            let mut init = inits[at];
            init.is_used = true;
            put_at(inits, at, init);
            Some(init.time)
        }
    }
}

/// The starts of a child take so long from now on, whatever was said of it before.
#[tactic(auto, unfolding(crate::specs::Inits::with_init))]
pub(crate) fn put_init(inits: &mut Vec<Init>, init: Init) -> Result<(), AllocError>
    ensures { OnOk result (inits.new.items ≡ with_init init (position (is_init_of init.place init.id) inits.old.items) inits.old.items) }
{
    let found = init_of(inits.as_slice(), init.place, &init.id);
    match found {
        None => inits.push(init).map_err(|_| AllocError),
        Some(at) => {
            put_at(inits, at, init);
            Ok(())
        }
    }
}
