//! What each call of a supervisor may be answered: a type of refusals for each of the functions that OTP's `supervisor` exports, and which
//! reply stands for what (supervisor, "Exports").

ghost use Rattle.std.specs.Prelude.{◌≡◌};
ghost use Rattle.otp_live.specs.Answers.{
  counted,
  deleted,
  delete_refusal,
  described,
  get_refusal,
  given,
  listed,
  refused,
  restart_refusal,
  restarted,
  start_refusal,
  started,
  terminate_refusal,
  terminated,
};

use crate::calling::caller::Answer;
use otp_job::Body;
use otp_reason::Reason;
use otp_rules::{CallFault, ChildLines, CountsNow, Reply};
use otp_spec::{ChildSpec, SpecFault};
use otp_tree::CallRefusal;

/// Why a call has no answer that it wants.
#[derive(Clone, Copy, Debug, PartialEq, Eq)]
pub enum CallError<F> {
    /// The supervisor refused it, for this.
    Refused(F),
    /// `noproc`: the supervisor has ended, or was never opened.
    NoProc,
    /// It was not sent.
    Unsent(CallRefusal),
    /// The answer was given and is gone: a checkpoint of the supervisor dropped it before it was read.
    Gone,
    /// The run has ended.
    Over,
    /// The supervisor answered what no answer to such a call is. By its rules that doesn't happen.
    Strange,
}

/// Why restart_child/2 is refused.
#[derive(Clone, Copy, Debug, PartialEq, Eq)]
pub enum RestartRefusal {
    /// `not_found`
    NotFound,
    /// `running`
    Running,
    /// `restarting`
    Restarting,
    /// `simple_one_for_one`
    SimpleOneForOne,
    /// The start failed, for this reason. The child stays, without a process.
    Start(Reason),
}

/// Why delete_child/2 is refused.
#[derive(Clone, Copy, Debug, PartialEq, Eq)]
pub enum DeleteRefusal {
    /// `not_found`
    NotFound,
    /// `running`
    Running,
    /// `restarting`
    Restarting,
    /// `simple_one_for_one`
    SimpleOneForOne,
}

/// Why terminate_child/2 is refused.
#[derive(Clone, Copy, Debug, PartialEq, Eq)]
pub enum TerminateRefusal {
    /// `not_found`
    NotFound,
    /// `simple_one_for_one`: by an id, under that strategy; or by a process number, under another.
    WrongStrategy,
}

/// Why start_child/2 is refused.
#[derive(Clone, Copy, Debug, PartialEq, Eq)]
pub enum StartRefusal {
    /// The specification is unlawful.
    BadSpec(SpecFault),
    /// `already_present`
    AlreadyPresent,
    /// `{already_started, Child}`
    AlreadyStarted(u64),
    /// There are 256 children.
    TooManyChildren,
    /// With a specification under simple_one_for_one, or without one under another strategy.
    WrongStrategy,
    /// The start failed, for this reason. The child is gone.
    Start(Reason),
}

/// Why get_childspec/2 is refused.
#[derive(Clone, Copy, Debug, PartialEq, Eq)]
pub enum GetRefusal {
    /// `not_found`
    NotFound,
}

/// Of a call that is never refused.
pub type NoRefusal = ();

/// What came of start_child/2: the number of the child's process, or None where its start answered `ignore`; or why not, with the
/// body, if no child has it.
pub type StartEnd<J, S> = Result<Option<u64>, (CallError<StartRefusal>, Option<Body<J, S>>)>;

impl RestartRefusal {
    /// The refusal that this fault is. None where no such call is refused so.
    pub fn of(fault: CallFault) -> Option<RestartRefusal>
        ensures { result ≡ restart_refusal fault }
    {
        match fault {
            CallFault::NotFound => Some(RestartRefusal::NotFound),
            CallFault::Running => Some(RestartRefusal::Running),
            CallFault::Restarting => Some(RestartRefusal::Restarting),
            CallFault::SimpleOneForOne => Some(RestartRefusal::SimpleOneForOne),
            CallFault::Start(reason) => Some(RestartRefusal::Start(reason)),
            _ => None,
        }
    }
}

impl DeleteRefusal {
    /// The refusal that this fault is. None where no such call is refused so.
    pub fn of(fault: CallFault) -> Option<DeleteRefusal>
        ensures { result ≡ delete_refusal fault }
    {
        match fault {
            CallFault::NotFound => Some(DeleteRefusal::NotFound),
            CallFault::Running => Some(DeleteRefusal::Running),
            CallFault::Restarting => Some(DeleteRefusal::Restarting),
            CallFault::SimpleOneForOne => Some(DeleteRefusal::SimpleOneForOne),
            _ => None,
        }
    }
}

impl TerminateRefusal {
    /// The refusal that this fault is. None where no such call is refused so.
    pub fn of(fault: CallFault) -> Option<TerminateRefusal>
        ensures { result ≡ terminate_refusal fault }
    {
        match fault {
            CallFault::NotFound => Some(TerminateRefusal::NotFound),
            CallFault::SimpleOneForOne | CallFault::NotSimple => {
                Some(TerminateRefusal::WrongStrategy)
            },
            _ => None,
        }
    }
}

impl StartRefusal {
    /// The refusal that this fault is. None where no such call is refused so.
    pub fn of(fault: CallFault) -> Option<StartRefusal>
        ensures { result ≡ start_refusal fault }
    {
        match fault {
            CallFault::BadSpec(fault) => Some(StartRefusal::BadSpec(fault)),
            CallFault::AlreadyPresent => Some(StartRefusal::AlreadyPresent),
            CallFault::AlreadyStarted(number) => Some(StartRefusal::AlreadyStarted(number)),
            CallFault::TooManyChildren => Some(StartRefusal::TooManyChildren),
            CallFault::SimpleOneForOne | CallFault::NotSimple => Some(StartRefusal::WrongStrategy),
            CallFault::Start(reason) => Some(StartRefusal::Start(reason)),
            _ => None,
        }
    }
}

impl GetRefusal {
    /// The refusal that this fault is. None where no such call is refused so.
    pub fn of(fault: CallFault) -> Option<GetRefusal>
        ensures { result ≡ get_refusal fault }
    {
        match fault {
            CallFault::NotFound => Some(GetRefusal::NotFound),
            _ => None,
        }
    }
}

/// The error of a refusal; [`CallError::Strange`] where no such call is refused so.
fn refused<F>(refusal: Option<F>) -> CallError<F>
    ensures { result ≡ refused refusal }
{
    match refusal {
        Some(refusal) => CallError::Refused(refusal),
        None => CallError::Strange,
    }
}

/// What was answered and the body that came back, or why nothing was answered.
pub fn given<J: Drop, S: Drop, F>(
    answer: Answer<J, S>,
) -> (Result<Reply, CallError<F>>, Option<Body<J, S>>)
    ensures { result ≡ given answer }
{
    match answer {
        Answer::Given(Reply::NoProc, body) => (Err(CallError::NoProc), body),
        Answer::Given(reply, body) => (Ok(reply), body),
        Answer::Gone(body) => (Err(CallError::Gone), body),
        Answer::Unsent(cause, body) => (Err(CallError::Unsent(cause)), body),
        Answer::Over(body) => (Err(CallError::Over), body),
    }
}

/// The answer to restart_child/2: the number of the child's process, or None where its start answered `ignore`.
pub fn restarted(reply: Reply) -> Result<Option<u64>, CallError<RestartRefusal>>
    ensures { result ≡ restarted reply }
{
    match reply {
        Reply::OkProcess(number) => Ok(Some(number)),
        Reply::OkUndefined => Ok(None),
        Reply::Refused(fault) => Err(refused(RestartRefusal::of(fault))),
        _ => Err(CallError::Strange),
    }
}

/// The answer to delete_child/2.
pub fn deleted(reply: Reply) -> Result<(), CallError<DeleteRefusal>>
    ensures { result ≡ deleted reply }
{
    match reply {
        Reply::Ok => Ok(()),
        Reply::Refused(fault) => Err(refused(DeleteRefusal::of(fault))),
        _ => Err(CallError::Strange),
    }
}

/// The answer to terminate_child/2.
pub fn terminated(reply: Reply) -> Result<(), CallError<TerminateRefusal>>
    ensures { result ≡ terminated reply }
{
    match reply {
        Reply::Ok => Ok(()),
        Reply::Refused(fault) => Err(refused(TerminateRefusal::of(fault))),
        _ => Err(CallError::Strange),
    }
}

/// The answer to which_children/1: the children in start order.
pub fn listed(reply: Reply) -> Result<ChildLines, CallError<NoRefusal>>
    ensures { result ≡ listed reply }
{
    match reply {
        Reply::Which(lines) => Ok(lines),
        _ => Err(CallError::Strange),
    }
}

/// The answer to count_children/1.
pub fn counted(reply: Reply) -> Result<CountsNow, CallError<NoRefusal>>
    ensures { result ≡ counted reply }
{
    match reply {
        Reply::Count(counts) => Ok(counts),
        _ => Err(CallError::Strange),
    }
}

/// The answer to get_childspec/2.
pub fn described(reply: Reply) -> Result<ChildSpec, CallError<GetRefusal>>
    ensures { result ≡ described reply }
{
    match reply {
        Reply::Spec(spec) => Ok(spec),
        Reply::Refused(fault) => Err(refused(GetRefusal::of(fault))),
        _ => Err(CallError::Strange),
    }
}

/// What came of start_child/2. The body is back where no child has it.
pub fn started<J: Drop, S: Drop>(answer: Answer<J, S>) -> StartEnd<J, S>
    ensures { result ≡ started answer }
{
    let (reply, body) = given(answer);
    match reply {
        Ok(Reply::OkProcess(number)) => Ok(Some(number)),
        Ok(Reply::OkUndefined) => Ok(None),
        Ok(Reply::Refused(fault)) => Err((refused(StartRefusal::of(fault)), body)),
        Ok(_) => Err((CallError::Strange, body)),
        Err(error) => Err((error, body)),
    }
}
