// A plan as text, a line for each supervisor: the ids of its children in start order, each with what it runs, as `db=w1` for a
// worker's job 1, `gate=b` for a bridge, `pool=^3` for supervisor 3, and `any` for the specification of dynamic children.
use crate::fixtures::{got, same};
use otp_draft::{DraftFault, DraftedTable, Refused, TreeDraft, TreePlan};
use otp_job::Body;
use otp_spec::{ChildSpec, MAX_TABLES, Strategy, SupFlags};
use std::alloc::Global;
use std::process::Abort;

// Jobs and subsystems are numbers here, so that each can be told from others.
pub(crate) type Draft = TreeDraft<u64, u64>;

// What a test says that stops for want of memory.
pub(crate) const MEMORY: &str = "memory was refused";

// A draft with these flags, which are lawful.
pub(crate) fn empty(alloc: Global) -> Draft {
    Draft::new(alloc, SupFlags::default())
}

// A draft of dynamic children.
pub(crate) fn dynamic(alloc: Global) -> Draft {
    let flags = SupFlags {
        strategy: Strategy::SimpleOneForOne,
        ..SupFlags::default()
    };
    Draft::new(alloc, flags)
}

// Adds a worker, once more where memory was refused.
pub(crate) fn add(rt: &impl Abort, draft: &mut Draft, id: &str, job: u64) {
    let added = match draft.add_worker(id, job) {
        Err(
            Refused {
                fault: DraftFault::OutOfMemory,
                given,
            },
        ) => draft.add_worker(id, given),
        other => other,
    };
    got(rt, "a worker was refused", added);
}

// Adds a supervisor, once more where memory was refused.
pub(crate) fn put(rt: &impl Abort, draft: &mut Draft, id: &str, below: Draft) {
    let added = match draft.add_supervisor(id, below) {
        Err(
            Refused {
                fault: DraftFault::OutOfMemory,
                given,
            },
        ) => draft.add_supervisor(id, given),
        other => other,
    };
    got(rt, "a tree was refused", added);
}

// A text that is made up.
pub(crate) fn numbered(rt: &impl Abort, alloc: Global, word: &str, number: u64) -> String {
    got(rt, MEMORY, format!(in alloc; "{word}{number}"))
}

fn show(rt: &impl Abort, text: &mut String, word: &str) {
    got(rt, MEMORY, text.push_str(word));
}

fn show_number(rt: &impl Abort, text: &mut String, word: &str, number: u64) {
    let made = numbered(rt, *text.allocator(), word, number);
    show(rt, text, made.as_str());
    drop(made);
}

// Appends what a child runs.
fn show_body(rt: &impl Abort, body: &Body<u64, u64>, text: &mut String) {
    match body {
        Body::Worker(job) => show_number(rt, text, "=w", *job),
        Body::Bridge(_) => show(rt, text, "=b"),
        Body::Sup(table) => show_number(rt, text, "=^", table.number() as u64),
    }
}

fn show_id(rt: &impl Abort, spec: &ChildSpec, text: &mut String) {
    for byte in spec.id.as_bytes() {
        got(rt, MEMORY, text.push(char::from(*byte)));
    }
}

// Appends the children of a supervisor.
fn show_table(rt: &impl Abort, specs: &[ChildSpec], bodies: &[Body<u64, u64>], text: &mut String) {
    for (place, spec) in specs.iter().enumerate() {
        show(rt, text, " ");
        show_id(rt, spec, text);
        if let Some(body) = bodies.get(place) {
            show_body(rt, body, text);
        }
    }
    show(rt, text, "\n");
}

fn show_all(rt: &impl Abort, plans: &[DraftedTable<u64, u64>], first: usize, text: &mut String) {
    for (place, plan) in plans.iter().enumerate() {
        show_number(rt, text, "", first.saturating_add(place) as u64);
        show(rt, text, ":");
        show_table(rt, plan.supervisor.specs(), plan.bodies.as_slice(), text);
    }
}

// The plans of a tree are these, the root having this number.
pub(crate) fn has_plans(
    rt: &impl Abort,
    alloc: Global,
    plan: TreePlan<u64, u64>,
    first: usize,
    wanted: &str,
) {
    assert!(rt; first <= MAX_TABLES - plan.len());
    let plans = plan.numbered(first);
    let mut text = String::new(alloc);
    show_all(rt, plans.as_slice(), first, &mut text);
    drop(plans);
    same(rt, "the plans", text.as_str(), wanted);
    drop(text);
}
