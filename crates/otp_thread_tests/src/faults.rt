// Each fault of a draft, with what comes back.
use crate::fixtures::same;
use crate::shown::{Draft, add, dynamic, empty, numbered, put};
use otp_draft::{Child, DraftFault, Refused};
use otp_spec::{ChildType, Restart, Shutdown, SpecFault, SpecKey, SupFlags};
use std::alloc::Global;
use std::process::Abort;

// Thirty-three bytes, one more than an id may have.
const LONG_ID: &str = "abcdefghijklmnopqrstuvwxyz0123456";

// What of a child that runs a job came back: the fault, and the job.
fn job_back(back: Result<(), Refused<u64>>) -> Option<(DraftFault, u64)> {
    match back {
        Ok(()) => None,
        Err(Refused { fault, given }) => Some((fault, given)),
    }
}

// Of a supervisor: the fault, how many supervisors there are below it and how many children it has.
fn tree_back(back: Result<(), Refused<Draft>>) -> Option<(DraftFault, usize, usize)> {
    match back {
        Ok(()) => None,
        Err(Refused { fault, given }) => {
            let counted = (fault, given.tables(), given.len());
            drop(given);
            Some(counted)
        }
    }
}

// Of a child with keys of its own.
fn fault_of(back: Result<(), Refused<Child<u64, u64>>>) -> Option<DraftFault> {
    match back {
        Ok(()) => None,
        Err(back) => Some(DraftFault::from(back)),
    }
}

// A supervisor of so many children.
fn of_children(rt: &impl Abort, alloc: Global, count: u64) -> Draft {
    let mut draft = empty(alloc);
    for number in 0..count {
        let id = numbered(rt, alloc, "c", number);
        add(rt, &mut draft, id.as_str(), number);
        drop(id);
    }
    draft
}

// So many levels of supervisors.
fn of_levels(rt: &impl Abort, alloc: Global, levels: usize) -> Draft {
    let mut draft = empty(alloc);
    for _ in 1..levels {
        let mut above = empty(alloc);
        put(rt, &mut above, "below", draft);
        draft = above;
    }
    draft
}

// A supervisor of so many others.
fn of_supervisors(rt: &impl Abort, alloc: Global, count: u64) -> Draft {
    let mut draft = empty(alloc);
    for number in 0..count {
        let id = numbered(rt, alloc, "s", number);
        put(rt, &mut draft, id.as_str(), empty(alloc));
        drop(id);
    }
    draft
}

// A supervisor of so many children, and of one more with this id.
fn with_one_more(rt: &impl Abort, alloc: Global, count: u64, id: &str) -> Draft {
    let mut draft = of_children(rt, alloc, count);
    add(rt, &mut draft, id, 9);
    draft
}

// A worker of this id isn't added: its job comes back, and there are as many children as before.
fn gives_job_back(rt: &impl Abort, draft: Draft, id: &str, fault: DraftFault, len: usize) {
    let mut draft = draft;
    let back = job_back(draft.add_worker(id, 7));
    let seen = (back, draft.len());
    drop(draft);
    same(rt, id, seen, (Some((fault, 7)), len));
}

#[test]
fn a_job_that_was_not_added_comes_back(rt: HostRuntime) {
    let alloc = rt.alloc();
    let many = DraftFault::Spec(SpecFault::TooManyChildren);
    gives_job_back(&rt, of_children(&rt, alloc, 256), "one_more", many, 256);
    gives_job_back(&rt, dynamic(alloc), "a", DraftFault::Dynamic, 0);
    let id = DraftFault::Spec(SpecFault::BadSpec {
        index: 2,
        key: SpecKey::Id,
    });
    gives_job_back(&rt, of_children(&rt, alloc, 2), LONG_ID, id, 2);
    let mut draft = dynamic(alloc);
    let back = job_back(draft.add_bridge("a", 7));
    let seen = (back, draft.len());
    drop(draft);
    let wanted = (Some((DraftFault::Dynamic, 7)), 0);
    same(&rt, "a bridge", seen, wanted);
}

// This tree isn't put below the other, and comes back: the fault, and how many supervisors and children it has.
fn gives_tree_back(
    rt: &impl Abort,
    root: &mut Draft,
    id: &str,
    below: Draft,
    wanted: (DraftFault, usize, usize),
) {
    let back = tree_back(root.add_supervisor(id, below));
    same(rt, id, back, Some(wanted));
}

// A root without children refuses these, and is the one supervisor then.
fn root_gives_back(rt: &impl Abort, alloc: Global, root: &mut Draft) {
    let deep = (DraftFault::TooDeep, 16, 1);
    gives_tree_back(rt, root, "deep", of_levels(rt, alloc, 16), deep);
    let twice = (DraftFault::Spec(SpecFault::DuplicateId { index: 1 }), 1, 2);
    gives_tree_back(rt, root, "twice", with_one_more(rt, alloc, 1, "c0"), twice);
    let none = (DraftFault::Spec(SpecFault::SimpleNeedsOne), 1, 0);
    gives_tree_back(rt, root, "empty", dynamic(alloc), none);
    same(rt, "the supervisors", root.tables(), 1);
}

// Of 63 supervisors the root takes one more, and not two.
fn many_give_back(rt: &impl Abort, alloc: Global, many: &mut Draft) {
    let more = (DraftFault::TooManyTables, 2, 1);
    gives_tree_back(rt, many, "more", of_levels(rt, alloc, 2), more);
    same(rt, "the supervisors", many.tables(), 63);
    put(rt, many, "last", empty(alloc));
    same(rt, "the supervisors then", many.tables(), 64);
}

// A supervisor of dynamic children has none below it.
fn dynamic_gives_back(rt: &impl Abort, alloc: Global, root: &mut Draft) {
    let wanted = (DraftFault::Dynamic, 1, 3);
    gives_tree_back(rt, root, "a", of_children(rt, alloc, 3), wanted);
    same(rt, "the supervisors", root.tables(), 1);
}

#[test]
fn a_tree_that_was_not_put_below_another_comes_back(rt: HostRuntime) {
    let mut root = empty(rt.alloc());
    root_gives_back(&rt, rt.alloc(), &mut root);
    drop(root);
    let mut many = of_supervisors(&rt, rt.alloc(), 62);
    many_give_back(&rt, rt.alloc(), &mut many);
    drop(many);
    let mut none = dynamic(rt.alloc());
    dynamic_gives_back(&rt, rt.alloc(), &mut none);
    drop(none);
}

// A child isn't added, for this fault, or is added.
fn has_fault(rt: &impl Abort, root: &mut Draft, child: Child<u64, u64>, fault: Option<DraftFault>) {
    same(rt, "the fault", fault_of(root.add(child)), fault);
}

#[test]
fn what_is_not_of_its_type_is_refused(rt: HostRuntime) {
    let mut root = empty(rt.alloc());
    types_are_refused(&rt, rt.alloc(), &mut root);
    let counted = (root.len(), root.tables());
    drop(root);
    same(&rt, "the children and supervisors", counted, (2, 2));
}

fn types_are_refused(rt: &impl Abort, alloc: Global, root: &mut Draft) {
    let wrong = Some(DraftFault::WrongBody);
    let child = Child::worker("a", 1).kind(ChildType::Supervisor);
    has_fault(rt, root, child, wrong);
    let child = Child::supervisor("b", empty(alloc)).kind(ChildType::Worker);
    has_fault(rt, root, child, wrong);
    let child = Child::supervisor("c", empty(alloc)).shutdown(Shutdown::BrutalKill);
    has_fault(rt, root, child, Some(DraftFault::NestedNotInfinity));
    has_fault(rt, root, Child::template("d"), Some(DraftFault::NoBody));
    let child = Child::bridge("e", 1).kind(ChildType::Supervisor);
    has_fault(rt, root, child, None);
    let child = Child::supervisor("f", empty(alloc)).restart(Restart::Temporary);
    has_fault(rt, root, child, None);
}

// This tree isn't finished, for this fault, and comes back with so many children.
fn is_unfinished(rt: &impl Abort, alloc: Global, draft: Draft, wanted: (DraftFault, usize)) {
    match draft.finish(alloc) {
        Ok(plan) => {
            drop(plan);
            panic!(rt; "it was finished")
        }
        Err(Refused { fault, given }) => {
            let len = given.len();
            drop(given);
            same(rt, "the fault", (fault, len), wanted);
        }
    }
}

#[test]
fn a_root_without_lawful_flags_or_children_comes_back(rt: HostRuntime) {
    let alloc = rt.alloc();
    let mut no_period = SupFlags::default();
    no_period.period = 0;
    let flags = (DraftFault::Spec(SpecFault::BadFlag), 0);
    is_unfinished(&rt, alloc, Draft::new(alloc, no_period), flags);
    let one = (DraftFault::Spec(SpecFault::SimpleNeedsOne), 0);
    is_unfinished(&rt, alloc, dynamic(alloc), one);
    let twice = (DraftFault::Spec(SpecFault::DuplicateId { index: 2 }), 3);
    is_unfinished(&rt, alloc, with_one_more(&rt, alloc, 2, "c0"), twice);
}
