//! What can be asked of a supervisor, and its answers (OTP: `supervisor`, the exported functions).

use otp_reason::{Name, Reason};
use otp_spec::{ChildSpec, ChildType, Modules, SpecFault};
use std::alloc::AllocError;
use std::marker::Model;

/// A call of a supervisor, and what it is answered where it isn't refused. A call that comes while work is open waits for
/// the end of that work; after the end of the supervisor each is answered [`Reply::NoProc`].
///
/// Under simple_one_for_one children have no ids, and a call that names one, get_childspec apart, is refused
/// ([`CallFault::SimpleOneForOne`]).
#[derive(Clone, Copy, Debug, PartialEq, Eq)]
pub enum Call {
    /// start_child/2 with a specification: adds the child as the last one and starts it. Answered once it has started:
    /// [`Reply::OkProcess`], or [`Reply::OkUndefined`] where its start answered `ignore` (a temporary child is then gone
    /// again). Refused, in this order: an unlawful specification, the id of a child that runs or is there already, a child more
    /// than [`MAX_CHILDREN`](otp_spec::MAX_CHILDREN); and where the start fails, and the child is not kept.
    StartChild(ChildSpec),
    /// start_child/2 under simple_one_for_one, where all children share one specification: starts one more child. Answered as
    /// [`StartChild`](Call::StartChild); one whose start answered `ignore` is not kept. Under every other strategy refused
    /// ([`CallFault::NotSimple`]).
    StartDynamic,
    /// restart_child/2: starts a child that has no process. Answered once it has started, [`Reply::OkProcess`] or
    /// [`Reply::OkUndefined`]. Refused where no child is named so, where it runs, where it waits for its next restart, and
    /// where the start fails: the child then stays as it was.
    RestartChild(Name),
    /// delete_child/2: takes the specification of a child that has no process away. Answered [`Reply::Ok`] at once. Refused
    /// where no child is named so, where it runs, and where it waits for its next restart.
    DeleteChild(Name),
    /// terminate_child/2: stops the child, which keeps its specification unless it is temporary. Answered [`Reply::Ok`] once
    /// it has ended, at once where it has no process. Refused where no child is named so.
    TerminateChild(Name),
    /// terminate_child/2 by the process number, under simple_one_for_one: stops the child, which is then gone. Answered as
    /// [`TerminateChild`](Call::TerminateChild). Refused where no child has the number, and under every other strategy.
    TerminateProcess(u64),
    /// which_children/1: answered [`Reply::Which`] at once, the children in start order.
    WhichChildren,
    /// count_children/1: answered [`Reply::Count`] at once.
    CountChildren,
    /// get_childspec/2: answered [`Reply::Spec`] at once, under simple_one_for_one for the id of the specification that all
    /// share. Refused where no child is named so.
    GetChildspec(Name),
}

/// Why a call is refused. OTP's term stands at each (supervisor, the exported functions).
#[derive(Clone, Copy, Debug, PartialEq, Eq)]
pub enum CallFault {
    /// `not_found`: no child is named so, or has this process number. Of restart_child/2, delete_child/2, terminate_child/2
    /// and get_childspec/2.
    NotFound,
    /// `running`: the child runs. Of restart_child/2 and delete_child/2.
    Running,
    /// `restarting`: the child waits for its next restart. Of restart_child/2 and delete_child/2.
    Restarting,
    /// `simple_one_for_one`: the call names a child by its id, and dynamic children have none. Of start_child/2 with a
    /// specification, restart_child/2, delete_child/2 and terminate_child/2.
    SimpleOneForOne,
    /// The call is for simple_one_for_one alone (own; there OTP takes the arguments for a specification that is wrong). Of
    /// start_child/2 without a specification.
    NotSimple,
    /// `already_present`: a child that isn't up has this id. Of start_child/2.
    AlreadyPresent,
    /// `{already_started, Child}`: a child with this id is up, under this process number. Of start_child/2.
    AlreadyStarted(u64),
    /// There are [`MAX_CHILDREN`](otp_spec::MAX_CHILDREN) children (own). Of start_child/2.
    TooManyChildren,
    /// The specification is unlawful; the first thing that is wrong with it. Of start_child/2, before the children are looked at.
    BadSpec(SpecFault),
    /// The start failed with this reason. Of start_child/2, whose child is then gone again, and restart_child/2, whose child
    /// stays without a process; answered once the start has failed.
    Start(Reason),
}

/// What which_children says of a child's process (supervisor, which_children/1, `Child`).
#[derive(Clone, Copy, Debug, PartialEq, Eq)]
pub enum ChildProcess {
    /// It has a process with this number.
    Number(u64),
    /// `restarting`: it waits for its next restart.
    Restarting,
    /// `undefined`: it has none.
    Undefined,
}

/// A child as which_children lists it (supervisor, which_children/1).
#[derive(Clone, Copy, Debug, PartialEq, Eq)]
pub struct ChildLine {
    /// `Id`, as the specification has it. A dynamic child has none.
    pub id: Option<Name>,
    /// `Child`.
    pub process: ChildProcess,
    /// `Type`, as the specification has it.
    pub kind: ChildType,
    /// `Modules`, as the specification has them.
    pub modules: Modules,
}

/// The lines of which_children, in start order. Contracts see the list.
#[derive(Debug, Drop)]
pub struct ChildLines {
    lines: Vec<ChildLine>,
}

impl Model for ChildLines {
    ghost use Rattle.std.specs.Prelude.{List};
    ghost use Rattle.otp_rules.specs.declared.call.ChildLine.{ChildLine};

    ghost Value = { List ChildLine };

    ghost view = { λ a. a.lines.items };
}

impl ChildLines {
    ghost use Rattle.std.specs.Prelude.{◌≡◌, IfOk};

    /// The lines of a list, without taking memory.
    pub fn from_vec(lines: Vec<ChildLine>) -> Self
        ensures { result ≡ lines.items }
    {
        ChildLines { lines }
    }

    pub fn as_slice(&self) -> &[ChildLine]
        ensures { result.now ≡ self.now }
    {
        &self.lines
    }

    /// A copy, unless memory is refused.
    pub fn try_clone(&self) -> Result<Self, AllocError>
        ensures { IfOk result (λ copy. copy ≡ self.now) }
    {
        Ok(ChildLines {
            lines: self.lines.clone()?,
        })
    }

    /// The list of the lines, without taking memory.
    pub fn into_vec(self) -> Vec<ChildLine>
        ensures { result.items ≡ self }
    {
        let ChildLines { lines } = self;
        lines
    }
}

/// What count_children answers (supervisor, count_children/1).
#[derive(Clone, Copy, Debug, PartialEq, Eq)]
pub struct CountsNow {
    /// Specifications: one for each child, or 1 under simple_one_for_one, whose children share it.
    pub specs: u64,
    /// Children with a process.
    pub active: u64,
    /// Children of type supervisor, alive or not.
    pub supervisors: u64,
    /// Children of type worker, alive or not.
    pub workers: u64,
}

/// The answer to a call (supervisor, the exported functions).
#[derive(Debug, Drop)]
pub enum Reply {
    /// `ok`, of delete_child/2: the specification is gone; of terminate_child/2: the child's process has ended, or it had none.
    Ok,
    /// `{ok, Child}`, of start_child/2 and restart_child/2: the child started under this number.
    OkProcess(u64),
    /// `{ok, undefined}`, of start_child/2 and restart_child/2: the child's start answered `ignore`.
    OkUndefined,
    /// `{error, Error}`, of each call but which_children/1 and count_children/1, which are never refused.
    Refused(CallFault),
    /// Of which_children/1: a line for each child, in start order, as they stand when the call is taken up (own: the
    /// manual says nothing of the order).
    Which(ChildLines),
    /// Of count_children/1: the counts when the call is taken up.
    Count(CountsNow),
    /// `{ok, ChildSpec}`, of get_childspec/2: the child's specification, or the one that all share under simple_one_for_one.
    Spec(ChildSpec),
    /// `noproc`, of every call: the supervisor has ended, or was never opened.
    NoProc,
}

impl Reply {
    ghost use Rattle.std.specs.Prelude.{◌≡◌, IfOk};

    /// A copy, unless memory is refused.
    pub fn try_clone(&self) -> Result<Self, AllocError>
        ensures { IfOk result (λ copy. copy ≡ self.now) }
    {
        Ok(match self {
            Reply::Ok => Reply::Ok,
            Reply::OkProcess(number) => Reply::OkProcess(*number),
            Reply::OkUndefined => Reply::OkUndefined,
            Reply::Refused(fault) => Reply::Refused(*fault),
            Reply::Which(lines) => Reply::Which(lines.try_clone()?),
            Reply::Count(counts) => Reply::Count(*counts),
            Reply::Spec(spec) => Reply::Spec(*spec),
            Reply::NoProc => Reply::NoProc,
        })
    }
}

/// A kept reply: the number of its call, and the answer.
#[derive(Debug, Drop)]
pub struct Answered {
    pub call: u64,
    pub reply: Reply,
}
