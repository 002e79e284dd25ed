//! The remarks on a supervisor and its children.

ghost use Rattle.std.specs.Prelude.{◌≡◌, ◌+◌, ◌≤◌, ◌++◌, OnOk, length, take};
ghost use Rattle.otp_commands.specs.Lint.{remark_if, remarks_at, remarks_from, remarks_on};

use crate::lint::below::LintedChild;
use crate::lint::kinds::{alike_id, endless_worker, fan_out, long_stop, never_ends, no_restart};
use crate::lint::remark::{Remark, RemarkKind, RemarkPath, Remarks};
use otp_spec::SupFlags;
use std::alloc::{AllocError, Global};

/// Puts the remark of this kind behind others, if there is one, on the supervisor of this number or its child at this place.
fn put_remark(
    alloc: Global,
    supervisor: usize,
    child: Option<usize>,
    path: &RemarkPath,
    kind: Option<RemarkKind>,
    out: &mut Remarks,
) -> Result<(), AllocError>
    ensures { OnOk result (out.new ≡ out.old ++ remark_if supervisor child path.now kind) }
{
    match kind {
        None => Ok(()),
        Some(kind) => out.push(Remark {
            supervisor,
            child,
            path: path.copy(alloc)?,
            kind,
        }),
    }
}

/// Puts all remarks on a child at this place, of this path, behind others: it stands between these, and with it begin the
/// last ones.
#[tactic(auto, unfolding(crate::specs::Lint::remarks_at))]
fn put_at(
    alloc: Global,
    supervisor: usize,
    place: usize,
    path: &RemarkPath,
    flags: SupFlags,
    earlier: &[LintedChild],
    child: &LintedChild,
    later: &[LintedChild],
    these: &[LintedChild],
    out: &mut Remarks,
) -> Result<(), AllocError>
    ensures { OnOk result (out.new ≡ out.old ++ remarks_at supervisor place path.now flags earlier.now child.now later.now these.now) }
{
    let at = Some(place);
    let long = long_stop(flags, earlier, child, later);
    put_remark(alloc, supervisor, at, path, long, out)?;
    put_remark(alloc, supervisor, at, path, endless_worker(child), out)?;
    let fan = fan_out(flags, earlier, child, these);
    put_remark(alloc, supervisor, at, path, fan, out)?;
    let never = never_ends(child.spec.significant, child.tree);
    put_remark(alloc, supervisor, at, path, never, out)?;
    put_remark(alloc, supervisor, at, path, alike_id(earlier, child), out)
}

/// Puts all remarks on these of a supervisor's children behind others, of which the first stands at this place.
fn put_from(
    alloc: Global,
    supervisor: usize,
    path: &RemarkPath,
    flags: SupFlags,
    children: &[LintedChild],
    place: usize,
    rest: &[LintedChild],
    out: &mut Remarks,
) -> Result<(), AllocError>
    requires { place + length rest.now ≤ length children.now }
    ensures { OnOk result (out.new ≡ out.old ++ remarks_from supervisor path.now flags children.now place rest.now) }
{
    match rest {
        [] => Ok(()),
        [child, others @ ..] => {
            let own = path.child(alloc, &child.spec.id)?;
            let earlier = &children[..place];
            put_at(
                alloc, supervisor, place, &own, flags, earlier, child, others, rest, out,
            )?;
            put_from(
                alloc,
                supervisor,
                path,
                flags,
                children,
                place + 1,
                others,
                out,
            )
        }
    }
}

/// Puts all remarks on a supervisor of this number and path behind others, and then those on its children.
pub(crate) fn put_remarks_on(
    alloc: Global,
    supervisor: usize,
    path: &RemarkPath,
    flags: SupFlags,
    children: &[LintedChild],
    out: &mut Remarks,
) -> Result<(), AllocError>
    ensures { OnOk result (out.new ≡ out.old ++ remarks_on supervisor path.now flags children.now) }
{
    let none = no_restart(flags, children);
    put_remark(alloc, supervisor, None, path, none, out)?;
    put_from(alloc, supervisor, path, flags, children, 0, children, out)
}
