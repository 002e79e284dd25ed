// Which plans come of a draft.
use crate::fixtures::{got, same};
use crate::shown::{Draft, MEMORY, add, dynamic, empty, has_plans, put};
use otp_draft::Child;
use otp_spec::{ChildType, Restart, Shutdown};
use std::alloc::Global;
use std::process::Abort;

// Three levels: the supervisors stand in the order of the walk, each before those below its own children, and not in that in
// which they were made.
const THREE_LEVELS: &str = "\
0: db=w1 east=^1 gate=b west=^3 last=w9
1: a=w2 deep=^2 b=w4
2: x=w3
3: y=w5 calls=^4
4: any
";

// Those supervisors below another tree's three.
const FROM_THREE: &str = "\
3: db=w1 east=^4 gate=b west=^6 last=w9
4: a=w2 deep=^5 b=w4
5: x=w3
6: y=w5 calls=^7
7: any
";

const PATHS: [&str; 5] = ["root", "east", "east/deep", "west", "west/calls"];

pub(crate) fn deep(rt: &impl Abort, alloc: Global) -> Draft {
    let mut deep = empty(alloc);
    add(rt, &mut deep, "x", 3);
    deep
}

fn east(rt: &impl Abort, alloc: Global) -> Draft {
    let mut east = empty(alloc);
    add(rt, &mut east, "a", 2);
    put(rt, &mut east, "deep", deep(rt, alloc));
    add(rt, &mut east, "b", 4);
    east
}

fn calls(rt: &impl Abort, alloc: Global) -> Draft {
    let mut calls = dynamic(alloc);
    got(rt, "a template was refused", calls.add_template("any"));
    calls
}

fn west(rt: &impl Abort, alloc: Global) -> Draft {
    let mut west = empty(alloc);
    add(rt, &mut west, "y", 5);
    put(rt, &mut west, "calls", calls(rt, alloc));
    west
}

fn three_levels(rt: &impl Abort, alloc: Global) -> Draft {
    let mut root = empty(alloc);
    add(rt, &mut root, "db", 1);
    put(rt, &mut root, "east", east(rt, alloc));
    got(rt, "a bridge was refused", root.add_bridge("gate", 7));
    put(rt, &mut root, "west", west(rt, alloc));
    add(rt, &mut root, "last", 9);
    root
}

// The plans of that tree, the root having this number.
fn are_planned(rt: &impl Abort, alloc: Global, first: usize, wanted: &str) {
    let plan = three_levels(rt, alloc).finish(alloc);
    has_plans(rt, alloc, got(rt, "it was refused", plan), first, wanted);
}

#[test]
fn supervisors_stand_in_the_order_of_the_walk(rt: HostRuntime) {
    are_planned(&rt, rt.alloc(), 0, THREE_LEVELS);
    are_planned(&rt, rt.alloc(), 3, FROM_THREE);
}

// The paths of that tree's supervisors, in the order of the walk; and the number of each, by its path.
#[test]
fn supervisors_have_paths(rt: HostRuntime) {
    let draft = three_levels(&rt, rt.alloc());
    for (number, path) in PATHS.iter().enumerate() {
        let found = got(&rt, MEMORY, draft.table_of(rt.alloc(), path));
        same(&rt, path, found, Some(number));
        assert!(rt; is_at(&rt, rt.alloc(), &draft, number, path));
    }
    let unknown = got(&rt, MEMORY, draft.table_of(rt.alloc(), "west/deep"));
    same(&rt, "a path of no supervisor", unknown, None);
    assert!(rt; !is_at(&rt, rt.alloc(), &draft, PATHS.len(), "root"));
    drop(draft);
}

fn is_at(rt: &impl Abort, alloc: Global, draft: &Draft, number: usize, wanted: &str) -> bool {
    match got(rt, MEMORY, draft.path_of(alloc, number)) {
        Some(path) => path.as_bytes() == wanted.as_bytes(),
        None => false,
    }
}

#[test]
fn size_and_depth_are_counted(rt: HostRuntime) {
    let draft = three_levels(&rt, rt.alloc());
    let counted = (draft.tables(), draft.depth(), draft.len(), draft.is_empty());
    drop(draft);
    same(&rt, "the counts", counted, (5, 3, 5, false));
}

// A child has these keys, as they were said or are the defaults of its type.
fn has_keys(rt: &impl Abort, child: Child<u64, u64>, wanted: (Restart, bool, Shutdown, ChildType)) {
    let spec = child.keys.spec();
    drop(child);
    match spec {
        Some(spec) => {
            let said = (spec.restart, spec.significant, spec.shutdown, spec.kind);
            same(rt, "the keys", said, wanted);
        }
        None => panic!(rt; "a specification"),
    }
}

#[test]
fn keys_are_those_that_were_said(rt: HostRuntime) {
    let worker = (
        Restart::Permanent,
        false,
        Shutdown::Milliseconds(5000),
        ChildType::Worker,
    );
    has_keys(&rt, Child::worker("a", 1), worker);
    let bridge = (
        Restart::Permanent,
        false,
        Shutdown::Infinity,
        ChildType::Supervisor,
    );
    let child = Child::bridge("b", 2).kind(ChildType::Supervisor);
    has_keys(&rt, child, bridge);
    let other = (
        Restart::Transient,
        true,
        Shutdown::BrutalKill,
        ChildType::Supervisor,
    );
    let child = Child::template("c")
        .restart(Restart::Transient)
        .significant()
        .shutdown(Shutdown::BrutalKill)
        .kind(ChildType::Supervisor);
    has_keys(&rt, child, other);
}
