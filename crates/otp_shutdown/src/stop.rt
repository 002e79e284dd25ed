//! The stop of a child.

ghost use Rattle.std.specs.Prelude.{◌≡◌, ◌++◌, IfOk, OnOk};
ghost use Rattle.otp_reason.specs.Names.{name_bytes};

use otp_reason::Name;
use otp_spec::Shutdown;
use std::alloc::{AllocError, Global};
use std::marker::Model;

/// The name of a child of a tree: the ids of the supervisors from the root's child on, each with a `/` behind it, and its own id.
/// Contracts see its bytes.
#[derive(Debug, Drop)]
pub struct ChildPath {
    bytes: Vec<u8>,
}

impl Model for ChildPath {
    ghost use Rattle.std.specs.Prelude.{ℕ, List};

    ghost Value = { List ℕ };

    ghost view = { λ a. a.bytes.items };
}

impl ChildPath {
    ghost use Rattle.std.specs.Prelude.{◌≡◌, IfOk};

    /// A copy of these bytes.
    pub(crate) fn copy_of(alloc: Global, bytes: &[u8]) -> Result<Self, AllocError>
        ensures { IfOk result (λ path. path ≡ bytes.now) }
    {
        let mut copy = Vec::new(alloc);
        copy.extend_from_slice(bytes)?;
        Ok(ChildPath { bytes: copy })
    }

    pub fn as_bytes(&self) -> &[u8]
        ensures { result.now ≡ self.now }
    {
        &self.bytes
    }
}

/// The stop of a child.
#[derive(Debug, Drop)]
pub struct Stop {
    /// The child.
    pub name: ChildPath,
    /// How it is told to stop, and how long its supervisor waits for it.
    pub shutdown: Shutdown,
    /// It stands for all children of a supervisor of simple_one_for_one, which are told together.
    pub is_shared: bool,
}

/// Stops, one after the other. Contracts see them as a list.
#[derive(Debug, Drop)]
pub struct Stops {
    stops: Vec<Stop>,
}

impl Model for Stops {
    ghost use Rattle.std.specs.Prelude.{List};
    ghost use Rattle.otp_shutdown.specs.declared.stop.Stop.{Stop};

    ghost Value = { List Stop };

    ghost view = { λ a. a.stops.items };
}

impl Stops {
    ghost use Rattle.std.specs.Prelude.{◌≡◌, ◌∷◌, ◌++◌, [], OnOk};

    /// No stops yet.
    pub(crate) fn new(alloc: Global) -> Self
        ensures { result ≡ [] }
    {
        Stops {
            stops: Vec::new(alloc),
        }
    }

    /// The stops in their order.
    pub fn as_slice(&self) -> &[Stop]
        ensures { result.now ≡ self.now }
    {
        &self.stops
    }

    /// Puts a stop behind the others.
    pub(crate) fn push(&mut self, stop: Stop) -> Result<(), AllocError>
        ensures { OnOk result (self.new ≡ self.old ++ stop ∷ []) }
    {
        self.stops.push(stop).map_err(|_| AllocError)
    }
}

/// The name of a child whose supervisor's children have this path.
pub(crate) fn name_of(alloc: Global, path: &[u8], id: &Name) -> Result<ChildPath, AllocError>
    ensures { IfOk result (λ name. name ≡ path.now ++ name_bytes id.now) }
{
    let mut name = Vec::new(alloc);
    name.extend_from_slice(path)?;
    name.extend_from_slice(id.as_bytes())?;
    ChildPath::copy_of(alloc, name.as_slice())
}

/// A copy.
fn copy_of(alloc: Global, stop: &Stop) -> Result<Stop, AllocError>
    ensures { IfOk result (λ copy. copy ≡ stop.now) }
{
    Ok(Stop {
        name: ChildPath::copy_of(alloc, stop.name.as_bytes())?,
        shutdown: stop.shutdown,
        is_shared: stop.is_shared,
    })
}

/// Puts copies behind others.
pub(crate) fn put_copies(alloc: Global, stops: &[Stop], out: &mut Stops) -> Result<(), AllocError>
    ensures { OnOk result (out.new ≡ out.old ++ stops.now) }
{
    for stop in stops {
        out.push(copy_of(alloc, stop)?)?;
    }
    Ok(())
}
