//! The answer to a call as a struct of C.

ghost use Rattle.std.specs.Prelude.{◌≡◌};
ghost use Rattle.otp_c.specs.AnswersShown.{ShowsAnswer, ShowsLine, ShowsRefusal, key_of};
ghost use Rattle.otp_c.specs.Words.{call_fault_number};

use crate::shapes::spec::modules_out;
use crate::shapes::structs::{CAnswer, CLine};
use crate::shapes::words::{child_type_number, no_text, reason_number, reason_text, some_name_out};
use otp_rules::{Answered, CallFault, ChildLine, ChildProcess, Reply};
use otp_spec::{SpecFault, SpecKey};

/// An answer of this kind with nothing beside it.
fn plain(call: u64, kind: u32) -> CAnswer
    ensures call { result.call ≡ call }
    ensures kind { result.kind ≡ kind }
    ensures number { result.number ≡ 0 }
{
    CAnswer {
        call,
        number: 0,
        specs: 0,
        active: 0,
        supervisors: 0,
        workers: 0,
        kind,
        fault: 0,
        spec_fault: 0,
        spec_key: 0,
        reason: 0,
        lines: 0,
        text: no_text(),
    }
}

fn key_number(fault: &SpecFault) -> u32
    ensures { result ≡ key_of fault.now }
{
    match fault {
        SpecFault::BadSpec {
            key: SpecKey::Id,
            ..
        } => 1,
        SpecFault::BadSpec {
            key: SpecKey::Start,
            ..
        } => 2,
        SpecFault::BadSpec {
            key: SpecKey::Modules,
            ..
        } => 3,
        _ => 0,
    }
}

fn fault_number(fault: &CallFault) -> u32
    ensures { result ≡ call_fault_number fault.now }
{
    match fault {
        CallFault::NotFound => 1,
        CallFault::Running => 2,
        CallFault::Restarting => 3,
        CallFault::SimpleOneForOne => 4,
        CallFault::NotSimple => 5,
        CallFault::AlreadyPresent => 6,
        CallFault::AlreadyStarted(_) => 7,
        CallFault::TooManyChildren => 8,
        CallFault::BadSpec(_) => 9,
        CallFault::Start(_) => 10,
    }
}

/// A refusal.
fn refused(call: u64, fault: &CallFault) -> CAnswer
    ensures call { result.call ≡ call }
    ensures kind { result.kind ≡ 4 }
    ensures fault { result.fault ≡ call_fault_number fault.now }
    ensures refusal { ShowsRefusal fault.now result }
{
    let answer = CAnswer {
        fault: fault_number(fault),
        ..plain(call, 4)
    };
    match fault {
        CallFault::AlreadyStarted(number) => CAnswer {
            number: *number,
            ..answer
        },
        CallFault::BadSpec(why) => CAnswer {
            spec_fault: u32::from(why.code()),
            spec_key: key_number(why),
            ..answer
        },
        CallFault::Start(reason) => CAnswer {
            reason: reason_number(reason),
            text: reason_text(reason),
            ..answer
        },
        _ => answer,
    }
}

/// The answer as plain numbers and bytes.
pub fn answer_out(answered: &Answered) -> CAnswer
    ensures { ShowsAnswer answered.now result }
{
    let call = answered.call;
    match &answered.reply {
        Reply::Ok => plain(call, 1),
        Reply::OkProcess(number) => CAnswer {
            number: *number,
            ..plain(call, 2)
        },
        Reply::OkUndefined => plain(call, 3),
        Reply::Refused(fault) => refused(call, fault),
        Reply::Which(lines) => CAnswer {
            lines: lines.as_slice().len().min(u32::MAX as usize) as u32,
            ..plain(call, 5)
        },
        Reply::Count(counts) => CAnswer {
            specs: counts.specs,
            active: counts.active,
            supervisors: counts.supervisors,
            workers: counts.workers,
            ..plain(call, 6)
        },
        Reply::Spec(_) => plain(call, 7),
        Reply::NoProc => plain(call, 8),
    }
}

/// A line of which_children as plain numbers and bytes.
pub fn line_out(line: &ChildLine) -> CLine
    ensures { ShowsLine line.now result }
{
    let (modules, module) = modules_out(&line.modules);
    let (process, number) = match line.process {
        ChildProcess::Number(number) => (1, number),
        ChildProcess::Restarting => (2, 0),
        ChildProcess::Undefined => (3, 0),
    };
    CLine {
        number,
        process,
        kind: child_type_number(line.kind),
        modules,
        id: some_name_out(&line.id),
        module,
    }
}
