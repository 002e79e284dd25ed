//! Which fault is told of a tree file, with the table that has it. What a file says whose tree is read, and how large one may be, the
//! program shows, by the calls of `.ci/calls`.

use crate::fixtures::{got, prints, same};
use otp_file::{TreeFault, read_located};
use otp_spec::SpecFault;
use std::alloc::{AllocError, Global};
use std::process::Abort;

/// What is told of a file that is read.
const READ: &str = "it is read";

/// Of a file that is refused the code of the fault, the table that has it, and the fault.
fn told_of(alloc: Global, file: &[u8]) -> Result<String, AllocError> {
    match read_located(alloc, file) {
        Ok(tree) => {
            drop(tree);
            READ.to_string(alloc)
        }
        Err(why) => format!(in alloc; "E{} {why}", why.fault.code()),
    }
}

fn tells(rt: &impl Abort, alloc: Global, file: &str, wanted: &str) {
    let told = got(rt, told_of(alloc, file.as_bytes()));
    same(rt, file, told.as_str(), wanted);
    drop(told);
}

/// Files, and the first fault of each in its supervisor.
const OF_SUPERVISORS: [(&str, &str); 12] = [
    ("", READ),
    ("a =", "E10 table 0, the file is not TOML"),
    (
        "period = 0\nchilds = []",
        "E11 table 0, supervisor: unknown key",
    ),
    ("tree = {}", "E11 table 0, supervisor: unknown key"),
    (
        "intensity = -1\nstrategy = 1",
        "E13 table 0, supervisor, strategy: the value is of the wrong kind",
    ),
    (
        "strategy = \"one\"",
        "E13 table 0, supervisor, strategy: the value is of the wrong kind",
    ),
    (
        "intensity = 1001\nperiod = 0",
        "E1 table 0, supervisor, intensity: the number is out of its limits",
    ),
    (
        "period = 0\nauto_shutdown = true",
        "E1 table 0, supervisor, period: the number is out of its limits",
    ),
    (
        "period = 1000001",
        "E1 table 0, supervisor, period: the number is out of its limits",
    ),
    (
        "auto_shutdown = \"some\"\nchild = 1",
        "E13 table 0, supervisor, auto_shutdown: the value is of the wrong kind",
    ),
    (
        "child = 1",
        "E13 table 0, supervisor, child: the value is of the wrong kind",
    ),
    (
        "strategy = \"simple_one_for_one\"",
        "E6 table 0, simple_one_for_one needs exactly one specification",
    ),
];

/// Files whose supervisor has a second child, and the first fault of each.
const OF_CHILDREN: [(&str, &str); 19] = [
    (
        "child = [{ id = \"a\", start = \"a\" }, { id = \"b\", start = \"b\" }]",
        READ,
    ),
    (
        "child = [{ id = \"a\", start = \"a\" }, 1]",
        "E13 table 0, child 1: the value is of the wrong kind",
    ),
    (
        "child = [{ id = \"a\", start = \"a\" }, { trees = {} }]",
        "E11 table 0, child 1: unknown key",
    ),
    (
        "child = [{ id = \"a\", start = \"a\" }, { start = 1 }]",
        "E12 table 0, child 1: id is missing",
    ),
    (
        "child = [{ id = \"a\", start = \"a\" }, { id = 1 }]",
        "E12 table 0, child 1: start is missing",
    ),
    (
        "child = [{ id = \"a\", start = \"a\" }, { id = \"\", start = 1 }]",
        "E2 table 0, child 1, id: the value is out of its limits",
    ),
    (
        "child = [{ id = \"a\", start = \"a\" }, { id = \"b\", start = 1, restart = 1 }]",
        "E13 table 0, child 1, start: the value is of the wrong kind",
    ),
    (
        "child = [{ id = \"a\", start = \"a\" }, { id = \"b\", start = \"b\", restart = 1, significant = 1 }]",
        "E13 table 0, child 1, restart: the value is of the wrong kind",
    ),
    (
        "child = [{ id = \"a\", start = \"a\" }, { id = \"b\", start = \"b\", significant = 1, shutdown = -1 }]",
        "E13 table 0, child 1, significant: the value is of the wrong kind",
    ),
    (
        "child = [{ id = \"a\", start = \"a\" }, { id = \"b\", start = \"b\", shutdown = -1, type = 1 }]",
        "E2 table 0, child 1, shutdown: the value is out of its limits",
    ),
    (
        "child = [{ id = \"a\", start = \"a\" }, { id = \"b\", start = \"b\", shutdown = 4294967296 }]",
        "E2 table 0, child 1, shutdown: the value is out of its limits",
    ),
    (
        "child = [{ id = \"a\", start = \"a\" }, { id = \"b\", start = \"b\", shutdown = \"kill\" }]",
        "E13 table 0, child 1, shutdown: the value is of the wrong kind",
    ),
    (
        "child = [{ id = \"a\", start = \"a\" }, { id = \"b\", start = \"b\", type = 1, modules = 1 }]",
        "E13 table 0, child 1, type: the value is of the wrong kind",
    ),
    (
        "child = [{ id = \"a\", start = \"a\" }, { id = \"b\", start = \"b\", modules = [\"\", 1] }]",
        "E13 table 0, child 1, modules: the value is of the wrong kind",
    ),
    (
        "child = [{ id = \"a\", start = \"a\" }, { id = \"b\", start = \"b\", modules = [\"\"] }]",
        "E2 table 0, child 1, modules: the value is out of its limits",
    ),
    (
        "child = [{ id = \"a\", start = \"a\" }, { id = \"b\", start = \"b\", modules = [\"b\", \"b\", \"b\", \"b\", \"b\"] }]",
        "E2 table 0, child 1, modules: the value is out of its limits",
    ),
    (
        "child = [{ id = \"a\", start = \"a\" }, { id = \"a\", start = \"b\" }]",
        "E3 table 0, specification 1: an earlier one has the same id",
    ),
    (
        "child = [{ id = \"a\", start = \"a\" }, { id = \"b\", start = \"b\", significant = true }]",
        "E4 table 0, specification 1: a significant child may not be permanent",
    ),
    (
        "child = [{ id = \"a\", start = \"a\" }, { id = \"b\", start = \"b\", significant = true, restart = \"transient\" }]",
        "E5 table 0, specification 1: a significant child needs an automatic shutdown",
    ),
];

/// Files in which a child may have a tree, and the first fault of each. The child's tree is table 1.
const OF_TREES: [(&str, &str); 8] = [
    ("[[child]]\nid = \"a\"\nstart = \"a\"\ntree = {}", READ),
    (
        "[[child]]\nid = \"a\"\nstart = \"a\"\ntree = 1",
        "E13 table 0, child 0, tree: the value is of the wrong kind",
    ),
    (
        "[[child]]\nid = \"a\"\nstart = \"a\"\ntype = \"worker\"\ntree = {}",
        "E13 table 0, child 0, type: the value is of the wrong kind",
    ),
    (
        "[[child]]\nid = \"a\"\nstart = \"a\"\nshutdown = 5000\ntree = {}",
        "E16 table 0, child 0, shutdown: a supervisor with a tree is waited for",
    ),
    (
        "[[child]]\nid = \"a\"\nstart = \"a\"\ntree = { id = 1 }",
        "E11 table 1, supervisor: unknown key",
    ),
    (
        "[[child]]\nid = \"a\"\nstart = \"a\"\ntree = { period = 0 }",
        "E1 table 1, supervisor, period: the number is out of its limits",
    ),
    (
        "[[child]]\nid = \"a\"\nstart = \"a\"\ntree = { child = [{ id = \"x\" }] }",
        "E12 table 1, child 0: start is missing",
    ),
    (
        "[[child]]\nid = \"a\"\nstart = \"a\"\ntree = {}\n[[child]]\nid = \"a\"\nstart = \"b\"",
        "E3 table 0, specification 1: an earlier one has the same id",
    ),
];

#[test]
fn faults_of_files(rt: HostRuntime) {
    all_tell(&rt, rt.alloc(), &OF_SUPERVISORS);
    all_tell(&rt, rt.alloc(), &OF_CHILDREN);
    all_tell(&rt, rt.alloc(), &OF_TREES);
}

fn all_tell(rt: &impl Abort, alloc: Global, table: &[(&str, &str)]) {
    for (file, wanted) in table {
        tells(rt, alloc, file, wanted);
    }
}

/// Faults that no file above has, their codes and texts.
const OTHERS: [(TreeFault, u8, &str); 4] = [
    (TreeFault::OutOfMemory, 0, "out of memory"),
    (
        TreeFault::Unlawful(SpecFault::TooManyChildren),
        7,
        "a supervisor has at most 256 children",
    ),
    (
        TreeFault::TooDeep,
        14,
        "supervisors are nested more than 16 deep",
    ),
    (
        TreeFault::TooManyTables,
        15,
        "there are more than 64 supervisors",
    ),
];

/// Want of memory says nothing of the file. The others are faults of large files, which the program reads.
#[test]
fn texts_of_other_faults(rt: HostRuntime) {
    for (fault, code, text) in OTHERS {
        assert!(rt; fault.code() == code);
        prints(&rt, rt.alloc(), &fault, text);
    }
}
