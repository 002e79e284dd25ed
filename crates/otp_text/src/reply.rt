//! Replies as they are printed.

ghost use Rattle.std.specs.Prelude.{◌≡◌, ◌++◌, OnOk, OnSome, codes, option_copied, unwrap_or, []};
ghost use Rattle.std.specs.List.{flat_map};
ghost use Rattle.otp_reason.specs.Names.{name_bytes};
ghost use Rattle.otp_spec.specs.Words.{type_word};
ghost use Rattle.otp_text.specs.Values.{modules_text};
ghost use Rattle.otp_text.specs.Replies.{fault_text, id_text, child_process_text, child_text, which_text, count_text, counts_text, spec_names_text, spec_restart_text, spec_shutdown_text, spec_text, reply_text};

use crate::short::ShortText;
use crate::value::{
    write_bool, write_byte, write_modules, write_name, write_number, write_process, write_reason,
    write_shutdown,
};
use otp_reason::Name;
use otp_rules::{CallFault, ChildLine, ChildProcess, CountsNow, Reply};
use otp_spec::{ChildSpec, ChildType, Modules};
use std::alloc::AllocError;

/// Appends the answer to a call.
#[tactic(auto, unfolding(crate::specs::Replies::reply_text))]
pub(crate) fn write_reply(reply: &Reply, out: &mut Vec<u8>) -> Result<(), AllocError>
    ensures { OnOk result (out.new.items ≡ out.old.items ++ reply_text reply.now) }
{
    match reply {
        Reply::Ok => out.extend_from_slice(b"ok"),
        Reply::OkProcess(number) => {
            out.extend_from_slice(b"ok ")?;
            write_process(*number, out)
        }
        Reply::OkUndefined => out.extend_from_slice(b"ok undefined"),
        Reply::Refused(fault) => {
            out.extend_from_slice(b"error ")?;
            write_fault(fault, out)
        }
        Reply::Which(children) => write_which(children.as_slice(), out),
        Reply::Count(counts) => write_counts(counts, out),
        Reply::Spec(spec) => write_spec(spec, out),
        Reply::NoProc => out.extend_from_slice(b"noproc"),
    }
}

/// Appends why a call is refused.
#[tactic(auto, unfolding(crate::specs::Replies::fault_text))]
fn write_fault(fault: &CallFault, out: &mut Vec<u8>) -> Result<(), AllocError>
    ensures { OnOk result (out.new.items ≡ out.old.items ++ fault_text fault.now) }
{
    match fault {
        CallFault::NotFound => out.extend_from_slice(b"not_found"),
        CallFault::Running => out.extend_from_slice(b"running"),
        CallFault::Restarting => out.extend_from_slice(b"restarting"),
        CallFault::SimpleOneForOne => out.extend_from_slice(b"simple_one_for_one"),
        CallFault::NotSimple => out.extend_from_slice(b"not_simple"),
        CallFault::AlreadyPresent => out.extend_from_slice(b"already_present"),
        CallFault::AlreadyStarted(number) => {
            out.extend_from_slice(b"already_started ")?;
            write_process(*number, out)
        }
        CallFault::TooManyChildren => out.extend_from_slice(b"too_many_children"),
        CallFault::BadSpec(spec_fault) => {
            out.extend_from_slice(b"bad_spec E")?;
            write_number(u64::from(spec_fault.code()), out)
        }
        CallFault::Start(reason) => {
            out.extend_from_slice(b"start ")?;
            write_reason(reason, out)
        }
    }
}

/// Appends the answer of which_children.
#[tactic(auto, unfolding(crate::specs::Replies::which_text))]
fn write_which(children: &[ChildLine], out: &mut Vec<u8>) -> Result<(), AllocError>
    ensures { OnOk result (out.new.items ≡ out.old.items ++ which_text children.now) }
{
    out.extend_from_slice(b"which")?;
    write_children(children, out)
}

/// Appends each child of which_children.
fn write_children(children: &[ChildLine], out: &mut Vec<u8>) -> Result<(), AllocError>
    ensures { OnOk result (out.new.items ≡ out.old.items ++ flat_map child_text children.now) }
{
    for child in children {
        write_child(child, out)?;
    }
    Ok(())
}

/// Appends a space and a child of which_children: id, process, type and modules. Most are short, and go out at once.
fn write_child(child: &ChildLine, out: &mut Vec<u8>) -> Result<(), AllocError>
    ensures { OnOk result (out.new.items ≡ out.old.items ++ child_text child.now) }
{
    let mut short = ShortText::new();
    match add_child(child, &mut short) {
        Some(()) => out.extend_from_slice(short.as_bytes()),
        None => write_long_child(child, out),
    }
}

/// Adds a space and a child of which_children.
#[tactic(auto, unfolding(crate::specs::Replies::child_text))]
fn add_child(child: &ChildLine, text: &mut ShortText) -> Option<()>
    ensures { OnSome result (text.new ≡ text.old ++ child_text child.now) }
{
    text.add(b" ")?;
    add_id(&child.id, text)?;
    text.add(b",")?;
    add_child_process(child.process, text)?;
    add_kind(child.kind, text)?;
    add_modules(&child.modules, text)
}

/// Adds a child's id, or `undefined` for a dynamic child.
#[tactic(auto, unfolding(crate::specs::Replies::id_text))]
fn add_id(id: &Option<Name>, text: &mut ShortText) -> Option<()>
    ensures { OnSome result (text.new ≡ text.old ++ id_text id.now) }
{
    match id {
        None => text.add(b"undefined"),
        Some(id) => text.add(id.as_bytes()),
    }
}

/// Adds what which_children says of a child's process.
#[tactic(auto, unfolding(crate::specs::Replies::child_process_text))]
fn add_child_process(process: ChildProcess, text: &mut ShortText) -> Option<()>
    ensures { OnSome result (text.new ≡ text.old ++ child_process_text process) }
{
    match process {
        ChildProcess::Number(number) => text.add_process(number),
        ChildProcess::Restarting => text.add(b"restarting"),
        ChildProcess::Undefined => text.add(b"undefined"),
    }
}

/// Adds what a child is, between commas.
#[tactic(auto, unfolding(otp_spec::specs::Words::type_word))]
fn add_kind(kind: ChildType, text: &mut ShortText) -> Option<()>
    ensures { OnSome result (text.new ≡ text.old ++ codes "," ++ type_word kind ++ codes ",") }
{
    match kind {
        ChildType::Worker => text.add(b",worker,"),
        ChildType::Supervisor => text.add(b",supervisor,"),
    }
}

/// Adds the name of one module, or what stands where no module is named. More names aren't added.
#[tactic(auto, unfolding(crate::specs::Values::modules_text))]
fn add_modules(modules: &Modules, text: &mut ShortText) -> Option<()>
    ensures { OnSome result (text.new ≡ text.old ++ modules_text modules.now) }
{
    match modules {
        Modules::Dynamic => add_word(modules.word(), text),
        Modules::None => text.add(b"-"),
        Modules::One(first) => text.add(first.as_bytes()),
        Modules::Two(_, _) | Modules::Three(_, _, _) | Modules::Four(_, _, _, _) => None,
    }
}

/// Adds a word, if there is one.
fn add_word(word: Option<&str>, text: &mut ShortText) -> Option<()>
    ensures { OnSome result (text.new ≡ text.old ++ unwrap_or (option_copied word.entry) []) }
{
    text.add(word?.as_bytes())
}

/// Appends a space and a child of which_children, word by word.
#[tactic(auto, unfolding(crate::specs::Replies::child_text))]
fn write_long_child(child: &ChildLine, out: &mut Vec<u8>) -> Result<(), AllocError>
    ensures { OnOk result (out.new.items ≡ out.old.items ++ child_text child.now) }
{
    write_byte(b' ', out)?;
    write_id(&child.id, out)?;
    write_byte(b',', out)?;
    write_child_process(child.process, out)?;
    write_byte(b',', out)?;
    out.extend_from_slice(child.kind.word().as_bytes())?;
    write_byte(b',', out)?;
    write_modules(&child.modules, out)
}

/// Appends a child's id, or `undefined` for a dynamic child.
#[tactic(auto, unfolding(crate::specs::Replies::id_text))]
fn write_id(id: &Option<Name>, out: &mut Vec<u8>) -> Result<(), AllocError>
    ensures { OnOk result (out.new.items ≡ out.old.items ++ id_text id.now) }
{
    match id {
        None => out.extend_from_slice(b"undefined"),
        Some(id) => write_name(id, out),
    }
}

/// Appends what which_children says of a child's process.
#[tactic(auto, unfolding(crate::specs::Replies::child_process_text))]
fn write_child_process(process: ChildProcess, out: &mut Vec<u8>) -> Result<(), AllocError>
    ensures { OnOk result (out.new.items ≡ out.old.items ++ child_process_text process) }
{
    match process {
        ChildProcess::Number(number) => write_process(number, out),
        ChildProcess::Restarting => out.extend_from_slice(b"restarting"),
        ChildProcess::Undefined => out.extend_from_slice(b"undefined"),
    }
}

/// Appends a word, which ends with a space, and a number.
#[tactic(auto, unfolding(crate::specs::Replies::count_text))]
fn write_count(word: &[u8], number: u64, out: &mut Vec<u8>) -> Result<(), AllocError>
    ensures { OnOk result (out.new.items ≡ out.old.items ++ count_text word.now number) }
{
    out.extend_from_slice(word)?;
    write_number(number, out)
}

/// Appends the answer of count_children.
#[tactic(auto, unfolding(crate::specs::Replies::counts_text))]
fn write_counts(counts: &CountsNow, out: &mut Vec<u8>) -> Result<(), AllocError>
    ensures { OnOk result (out.new.items ≡ out.old.items ++ counts_text counts.now) }
{
    write_count(b"count specs ", counts.specs, out)?;
    write_count(b" active ", counts.active, out)?;
    write_count(b" supervisors ", counts.supervisors, out)?;
    write_count(b" workers ", counts.workers, out)
}

/// Appends the answer of get_childspec.
#[tactic(auto, unfolding(crate::specs::Replies::spec_text))]
fn write_spec(spec: &ChildSpec, out: &mut Vec<u8>) -> Result<(), AllocError>
    ensures { OnOk result (out.new.items ≡ out.old.items ++ spec_text spec.now) }
{
    write_spec_names(spec, out)?;
    write_spec_restart(spec, out)?;
    write_spec_shutdown(spec, out)?;
    out.extend_from_slice(b" modules ")?;
    write_modules(&spec.modules, out)
}

/// Appends what a specification names.
#[tactic(auto, unfolding(crate::specs::Replies::spec_names_text))]
fn write_spec_names(spec: &ChildSpec, out: &mut Vec<u8>) -> Result<(), AllocError>
    ensures { OnOk result (out.new.items ≡ out.old.items ++ spec_names_text spec.now) }
{
    out.extend_from_slice(b"spec ")?;
    write_name(&spec.id, out)?;
    out.extend_from_slice(b" start ")?;
    write_name(&spec.start, out)
}

/// Appends when the child of a specification is restarted, and whether it is significant.
#[tactic(auto, unfolding(crate::specs::Replies::spec_restart_text))]
fn write_spec_restart(spec: &ChildSpec, out: &mut Vec<u8>) -> Result<(), AllocError>
    ensures { OnOk result (out.new.items ≡ out.old.items ++ spec_restart_text spec.now) }
{
    out.extend_from_slice(b" restart ")?;
    out.extend_from_slice(spec.restart.word().as_bytes())?;
    out.extend_from_slice(b" significant ")?;
    write_bool(spec.significant, out)
}

/// Appends how the child of a specification is stopped, and what the child is.
#[tactic(auto, unfolding(crate::specs::Replies::spec_shutdown_text))]
fn write_spec_shutdown(spec: &ChildSpec, out: &mut Vec<u8>) -> Result<(), AllocError>
    ensures { OnOk result (out.new.items ≡ out.old.items ++ spec_shutdown_text spec.now) }
{
    out.extend_from_slice(b" shutdown ")?;
    write_shutdown(&spec.shutdown, out)?;
    out.extend_from_slice(b" type ")?;
    out.extend_from_slice(spec.kind.word().as_bytes())
}
