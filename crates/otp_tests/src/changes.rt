//! A supervisor that runs gets another tree file: who keeps a process, who comes, which restarts count, and why it is refused.

use crate::driver::{Driver, Step, TWO, checkpoint};
use crate::fixtures::{got, same};
use otp_base::change::{ChangeFault, change};
use otp_core::{Base, Core};
use otp_file::read_tree;
use otp_spec::{SpecFault, SupFlags};
use std::alloc::Global;
use std::mem;
use std::process::Abort;

// The checkpoint under what a tree file says, with this intensity.
fn change_to(
    rt: &impl Abort,
    alloc: Global,
    base: &Base,
    tree: &str,
    intensity: u64,
) -> Result<Base, ChangeFault> {
    let tree = got(rt, read_tree(alloc, tree.as_bytes()));
    let plan = tree.supervisor();
    let flags = SupFlags {
        intensity,
        ..plan.flags()
    };
    let made = change(alloc, base, &flags, plan.specs());
    drop(tree);
    made
}

// In the place of the core comes one that goes on from that, or the fault is told.
fn change_core(
    rt: &impl Abort,
    alloc: Global,
    driver: &mut Driver,
    tree: &str,
    intensity: u64,
) -> Option<ChangeFault> {
    let base = checkpoint(rt, alloc, &mut driver.core);
    driver.told = 0;
    let made = change_to(rt, alloc, &base, tree, intensity);
    drop(base);
    match made {
        Err(why) => Some(why),
        Ok(new) => {
            let core = got(rt, Core::resume(alloc, &new));
            drop(new);
            drop(mem::replace(&mut driver.core, core));
            None
        }
    }
}

// Steps, the tree file and the intensity that come after them, and why it is refused.
type Stage = (&'static [Step], &'static str, u64, Option<ChangeFault>);

fn stages(rt: &impl Abort, alloc: Global, stages: &[Stage], last: &[Step]) {
    let mut driver = Driver::open(rt, alloc, TWO);
    for (steps, tree, intensity, fault) in stages {
        driver.play(rt, alloc, steps);
        let told = change_core(rt, alloc, &mut driver, tree, *intensity);
        same(rt, "why it is refused", told, *fault);
    }
    driver.play(rt, alloc, last);
    drop(driver);
}

// Another child before `b`, and no `a`.
const OTHERS: &str =
    "[[child]]\nid = \"c\"\nstart = \"c\"\n[[child]]\nid = \"b\"\nstart = \"new\"\n";

const DYNAMIC: &str = "strategy = \"simple_one_for_one\"\n[[child]]\nid = \"a\"\nstart = \"a\"\n";

const OF_CHILDREN: [Stage; 6] = [
    (
        &[("up 1", "start a #1\nstart b #2\n")],
        OTHERS,
        1,
        Some(ChangeFault::Busy),
    ),
    (
        &[("up 2", "ready\n")],
        OTHERS,
        1,
        Some(ChangeFault::Running),
    ),
    (&[], DYNAMIC, 1, Some(ChangeFault::Turned)),
    (
        &[],
        OTHERS,
        1001,
        Some(ChangeFault::Spec(SpecFault::BadFlag)),
    ),
    (
        &[("terminate a", "ask a #1\n")],
        OTHERS,
        1,
        Some(ChangeFault::Busy),
    ),
    (&[("exit 1 shutdown", "reply 1 ok\n")], OTHERS, 1, None),
];

const NEW_CHILDREN: [Step; 4] = [
    (
        "which",
        "reply 2 which c,undefined,worker,c b,#2,worker,new\n",
    ),
    ("restart c", "start c #3\n"),
    ("up 3", "reply 3 ok #3\n"),
    ("exit 2 error:x", "start b #4\n"),
];

#[test]
fn children_of_another_file(rt: HostRuntime) {
    stages(&rt, rt.alloc(), &OF_CHILDREN, &NEW_CHILDREN);
}

// Of two restarts the last is kept, so that the next one is too many.
const OF_RESTARTS: [Stage; 2] = [
    (
        &[
            ("up 1", "start a #1\nstart b #2\n"),
            ("up 2", "ready\n"),
            ("at 1000", ""),
        ],
        TWO,
        2,
        None,
    ),
    (
        &[
            ("exit 2 error:x", "start b #3\n"),
            ("up 3", ""),
            ("at 2000", ""),
            ("exit 3 error:x", "start b #4\n"),
            ("up 4", ""),
        ],
        TWO,
        1,
        None,
    ),
];

const ONE_TOO_MANY: [Step; 3] = [
    (
        "counts",
        "events 0+0 starts 0 restarts 1 kept 1 numbers 0 4 dropped none rows 2\n",
    ),
    ("at 7000", ""),
    ("exit 4 error:x", "ask a #1\n"),
];

#[test]
fn restarts_under_another_intensity(rt: HostRuntime) {
    stages(&rt, rt.alloc(), &OF_RESTARTS, &ONE_TOO_MANY);
}
