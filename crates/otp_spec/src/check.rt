ghost use Rattle.std.specs.Prelude.{◌≡◌, false, take};
ghost use Rattle.std.specs.List.{list_any};
ghost use Rattle.otp_spec.specs.Faults.{answer_of};
ghost use Rattle.otp_spec.specs.Lawful.{is_never, has_id_of, faults_at, first_of, first_fault};

use crate::child::ChildSpec;
use crate::fault::{SpecFault, SpecKey};
use crate::flags::AutoShutdown;
use crate::marks::{MARKS, mark_of};

/// Tests a list of specifications, for a supervisor with this automatic shutdown where one is given
/// (`supervisor:check_childspecs/2`).
///
/// # Errors
///
/// The first fault at the least place where there is one. At a place they come in this order:
/// [`SpecFault::BadSpec`] for `id`, `start` and `modules`; [`SpecFault::SignificantPermanent`];
/// [`SpecFault::SignificantNever`], never without an `auto_shutdown`; [`SpecFault::DuplicateId`], at the later
/// of the two.
pub fn check_childspecs(
    specs: &[ChildSpec],
    auto_shutdown: Option<AutoShutdown>,
) -> Result<(), SpecFault>
    ensures { result ≡ answer_of (first_fault specs.now auto_shutdown) }
{
    if specs.len() < MANY {
        check_few(specs, auto_shutdown)
    } else {
        check_many(specs, auto_shutdown)
    }
}

/// So many ids are told apart by marks; fewer are compared sooner than the marks are made.
const MANY: usize = 8;

/// Tests the list as [`check_childspecs`] does; each id is compared with all before it.
fn check_few(specs: &[ChildSpec], auto_shutdown: Option<AutoShutdown>) -> Result<(), SpecFault>
    ensures { result ≡ answer_of (first_fault specs.now auto_shutdown) }
{
    for (index, spec) in specs.iter().enumerate() {
        if let Some(fault) = fault_at(auto_shutdown, index, &specs[..index], true, spec) {
            return Err(fault);
        }
    }
    Ok(())
}

/// Tests the list as [`check_childspecs`] does; an id is compared with those before it only where one of them has its mark.
fn check_many(specs: &[ChildSpec], auto_shutdown: Option<AutoShutdown>) -> Result<(), SpecFault>
    ensures { result ≡ answer_of (first_fault specs.now auto_shutdown) }
{
    let mut seen = [false; MARKS];
    for (index, spec) in specs.iter().enumerate() {
        let mark = mark_of(&spec.id);
        let is_seen = seen[mark];
        if let Some(fault) = fault_at(auto_shutdown, index, &specs[..index], is_seen, spec) {
            return Err(fault);
        }
        seen[mark] = true;
    }
    Ok(())
}

/// The first fault of the specification that stands at `index`, after these earlier ones. One of them may have its id, or none
/// has.
fn fault_at(
    auto_shutdown: Option<AutoShutdown>,
    index: usize,
    earlier: &[ChildSpec],
    may_repeat: bool,
    spec: &ChildSpec,
) -> Option<SpecFault>
    requires { may_repeat ≡ false → list_any (has_id_of spec.now) earlier.now ≡ false }
    ensures { result ≡ first_of (faults_at auto_shutdown index earlier.now spec.now) }
{
    if !spec.id.is_lawful() {
        return Some(SpecFault::BadSpec {
            index,
            key: SpecKey::Id,
        });
    }
    if !spec.start.is_lawful() {
        return Some(SpecFault::BadSpec {
            index,
            key: SpecKey::Start,
        });
    }
    if !spec.modules.are_lawful() {
        return Some(SpecFault::BadSpec {
            index,
            key: SpecKey::Modules,
        });
    }
    if spec.significant && spec.restart.is_permanent() {
        return Some(SpecFault::SignificantPermanent { index });
    }
    if spec.significant && is_never(auto_shutdown) {
        return Some(SpecFault::SignificantNever { index });
    }
    if repeats(spec, earlier, may_repeat) {
        return Some(SpecFault::DuplicateId { index });
    }
    None
}

/// Whether a value is given, and it is `never`.
fn is_never(auto_shutdown: Option<AutoShutdown>) -> bool
    ensures { result ≡ is_never auto_shutdown }
{
    matches!(auto_shutdown, Some(AutoShutdown::Never))
}

/// Whether one of the earlier specifications has the id of this one, where one may have it.
fn repeats(spec: &ChildSpec, earlier: &[ChildSpec], may_repeat: bool) -> bool
    requires { may_repeat ≡ false → list_any (has_id_of spec.now) earlier.now ≡ false }
    ensures { result ≡ list_any (has_id_of spec.now) earlier.now }
{
    if may_repeat {
        is_duplicate(spec, earlier)
    } else {
        false
    }
}

/// Whether one of the earlier specifications has the id of this one.
fn is_duplicate(spec: &ChildSpec, earlier: &[ChildSpec]) -> bool
    ensures { result ≡ list_any (has_id_of spec.now) earlier.now }
{
    earlier.iter().any(|other| other.id == spec.id)
}
