//! What a supervisor is opened with.

ghost use Rattle.std.specs.Prelude.{◌≡◌, None, Some, IfErr, IfOk, OnOk};
ghost use Rattle.otp_spec.specs.Faults.{answer_of};
ghost use Rattle.otp_spec.specs.Supervisor.{IsLawful, supervisor_fault};

use crate::check::check_childspecs;
use crate::child::ChildSpec;
use crate::fault::SpecFault;
use crate::flags::{SupFlags, check_flags};
use crate::limits::MAX_CHILDREN;
use std::alloc::{AllocError, Global};
use std::marker::Model;

/// Flags and the specifications of the children in start order, which a supervisor may be opened with: they were
/// checked, and nobody checks them again (`supervisor`, `init/1`).
#[derive(Debug, Drop)]
pub struct SupSpec {
    flags: SupFlags,
    specs: Vec<ChildSpec>,
}

impl Model for SupSpec {
    ghost use Rattle.otp_spec.specs.Supervisor.{IsLawfulInside, Supervisor, supervisor_of};

    ghost Value = { Supervisor };

    ghost view = { supervisor_of };

    ghost invariant = { IsLawfulInside };
}

impl SupSpec {
    /// Flags and specifications that [`check_supervisor`] passes. Takes no memory.
    pub fn new(flags: SupFlags, specs: Vec<ChildSpec>) -> Self
        requires { IsLawful flags specs.items }
        ensures { result ≡ record { flags = flags; specs = specs.items } }
    {
        SupSpec { flags, specs }
    }

    /// Flags and specifications that nobody has tested; tests them.
    ///
    /// # Errors
    ///
    /// Those of [`check_supervisor`]. The list is dropped then.
    pub fn check(flags: SupFlags, specs: Vec<ChildSpec>) -> Result<Self, SpecFault>
        ensures ok { IfOk result (λ supervisor. supervisor ≡ record { flags = flags; specs = specs.items }) }
        ensures lawful { OnOk result (supervisor_fault flags specs.items ≡ None) }
        ensures fault { IfErr result (λ why. supervisor_fault flags specs.items ≡ Some why) }
    {
        check_supervisor(&flags, specs.as_slice())?;
        Ok(SupSpec { flags, specs })
    }

    /// A copy, which is tested as little as this one.
    ///
    /// # Errors
    ///
    /// Where memory is refused.
    pub fn try_clone(&self, alloc: Global) -> Result<Self, AllocError>
        ensures { IfOk result (λ copy. copy ≡ self.now) }
    {
        let specs = copy_specs(alloc, self.specs.as_slice())?;
        Ok(SupSpec {
            flags: self.flags,
            specs,
        })
    }

    pub fn flags(&self) -> SupFlags
        ensures { result ≡ self.now.flags }
    {
        self.flags
    }

    /// The specifications of the children in start order.
    pub fn specs(&self) -> &[ChildSpec]
        ensures value { result.now ≡ self.now.specs }
        ensures lawful { IsLawful self.now.flags self.now.specs }
        ensures fault { supervisor_fault self.now.flags self.now.specs ≡ None }
    {
        &self.specs
    }

    /// The flags and the list of the specifications, without taking memory.
    pub fn into_parts(self) -> (SupFlags, Vec<ChildSpec>)
        ensures flags { result.0 ≡ self.flags }
        ensures specs { result.1.items ≡ self.specs }
        ensures lawful { IsLawful self.flags self.specs }
        ensures fault { supervisor_fault self.flags self.specs ≡ None }
    {
        let SupSpec { flags, specs } = self;
        (flags, specs)
    }
}

/// A copy of specifications.
///
/// # Errors
///
/// Where memory is refused.
pub fn copy_specs(alloc: Global, specs: &[ChildSpec]) -> Result<Vec<ChildSpec>, AllocError>
    ensures { IfOk result (λ list. list.items ≡ specs.now) }
{
    let mut list = Vec::with_capacity(alloc, specs.len())?;
    for spec in specs {
        list.push_reserved(*spec);
    }
    Ok(list)
}

/// Tests what a supervisor is to be opened with.
///
/// # Errors
///
/// The first fault in this order: [`SpecFault::BadFlag`], [`SpecFault::SimpleNeedsOne`],
/// [`SpecFault::TooManyChildren`], and then those of [`check_childspecs`].
#[tactic(auto, unfolding(crate::specs::Supervisor::supervisor_fault))]
pub fn check_supervisor(flags: &SupFlags, specs: &[ChildSpec]) -> Result<(), SpecFault>
    ensures fault { result ≡ answer_of (supervisor_fault flags.now specs.now) }
    ensures lawful { OnOk result (IsLawful flags.now specs.now) }
{
    check_flags(flags)?;
    if flags.strategy.is_simple() && specs.len() != 1 {
        return Err(SpecFault::SimpleNeedsOne);
    }
    if specs.len() > MAX_CHILDREN {
        return Err(SpecFault::TooManyChildren);
    }
    check_childspecs(specs, Some(flags.auto_shutdown))
}
