// A growth of memory that is refused changes nothing, and what was handed in comes back: the same call is made again.
use crate::drafts::deep;
use crate::fixtures::got;
use crate::shown::{Draft, add, empty, has_plans, put};
use otp_draft::{DraftFault, Refused, TreePlan};
use std::alloc::Global;
use std::process::Abort;

// Finishes a tree, once more where memory was refused.
fn finish(rt: &impl Abort, alloc: Global, draft: Draft) -> TreePlan<u64, u64> {
    let plan = match draft.finish(alloc) {
        Err(
            Refused {
                fault: DraftFault::OutOfMemory,
                given,
            },
        ) => given.finish(alloc),
        other => other,
    };
    got(rt, "it was refused", plan)
}

fn pool(rt: &impl Abort, alloc: Global) -> Draft {
    let mut pool = empty(alloc);
    add(rt, &mut pool, "a", 1);
    put(rt, &mut pool, "deep", deep(rt, alloc));
    add(rt, &mut pool, "b", 2);
    pool
}

fn tree(rt: &impl Abort, alloc: Global) -> Draft {
    let mut root = empty(alloc);
    add(rt, &mut root, "db", 4);
    put(rt, &mut root, "pool", pool(rt, alloc));
    root
}

// Run by `.ci/refused-growths --drafts`, which refuses one growth after another.
#[test]
fn refused_growths_of_a_draft(rt: HostRuntime) {
    let plan = finish(&rt, rt.alloc(), tree(&rt, rt.alloc()));
    let wanted = "0: db=w4 pool=^1\n1: a=w1 deep=^2 b=w2\n2: x=w3\n";
    has_plans(&rt, rt.alloc(), plan, 0, wanted);
}
