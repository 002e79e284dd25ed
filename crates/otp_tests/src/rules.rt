use crate::fixtures::{got, same};
use otp_reason::Name;
use otp_rules::{ChildLine, ChildLines, ChildProcess, Stamps};
use otp_spec::{ChildType, Modules};
use std::alloc::Global;
use std::process::Abort;

#[test]
fn lists_come_back(rt: HostRuntime) {
    let times: [u64; 2] = [0, 5000];
    let stamps = Stamps::from_vec(got(&rt, Vec::from_slice(rt.alloc(), times.as_slice())));
    same(&rt, "stamps", stamps.as_slice(), times.as_slice());
    let back = stamps.into_vec();
    same(&rt, "given back", back.as_slice(), times.as_slice());
    drop(back);
    children_come_back(&rt, rt.alloc());
}

fn children_come_back(rt: &impl Abort, alloc: Global) {
    let line = ChildLine {
        id: Name::new(b"a"),
        process: ChildProcess::Number(1),
        kind: ChildType::Worker,
        modules: Modules::Dynamic,
    };
    let both = [line, line];
    let lines = ChildLines::from_vec(got(rt, Vec::from_slice(alloc, both.as_slice())));
    same(rt, "lines", lines.as_slice(), both.as_slice());
    let back = lines.into_vec();
    same(rt, "given back", back.as_slice(), both.as_slice());
    drop(back);
}
