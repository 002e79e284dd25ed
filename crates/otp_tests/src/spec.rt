ghost use Rattle.std.specs.Prelude.{◌≡◌, [], ◌∷◌, Some};
ghost use Rattle.otp_spec.specs.Faults.{answer_of};
ghost use Rattle.otp_spec.specs.Lawful.{first_fault};

use crate::fixtures::{got, named, prints, same};
use otp_spec::{
    AutoShutdown, ChildSpec, ChildType, Modules, Restart, Shutdown, SpecFault, SpecKey, Strategy,
    SupFlags, SupSpec, check_childspecs, check_flags,
};
use std::alloc::Global;
use std::process::Abort;
use std::slice;

// A caller that asks about one specification, as `start_child` does, can state what it is told.
fn check_one(spec: ChildSpec, auto_shutdown: AutoShutdown) -> Result<(), SpecFault>
    ensures { result ≡ answer_of (first_fault (spec ∷ []) (Some auto_shutdown)) }
{
    check_childspecs(slice::from_ref(&spec), Some(auto_shutdown))
}

// A child whose id isn't its start word.
fn worker(rt: &impl Abort, id: &[u8]) -> ChildSpec {
    ChildSpec::new(named(rt, id), named(rt, b"start"))
}

fn significant(rt: &impl Abort, id: &[u8], restart: Restart) -> ChildSpec {
    let mut spec = worker(rt, id);
    spec.significant = true;
    spec.restart = restart;
    spec
}

#[test]
fn defaults_are_the_manuals(rt: HostRuntime) {
    let wanted = SupFlags {
        strategy: Strategy::OneForOne,
        intensity: 1,
        period: 5,
        auto_shutdown: AutoShutdown::Never,
    };
    same(&rt, "the flags", SupFlags::default(), wanted);
    same(&rt, "their check", check_flags(&wanted), Ok(()));
    let name = named(&rt, b"a");
    let wanted = ChildSpec {
        id: name,
        start: name,
        restart: Restart::Permanent,
        significant: false,
        shutdown: Shutdown::Milliseconds(5000),
        kind: ChildType::Worker,
        modules: Modules::One(name),
    };
    same(&rt, "a worker", ChildSpec::new(name, name), wanted);
    let time = Shutdown::default_of(ChildType::Supervisor);
    same(&rt, "a supervisor's time", time, Shutdown::Infinity);
}

#[test]
fn same_modules(rt: HostRuntime) {
    let [a, b] = [named(&rt, b"a"), named(&rt, b"b")];
    let lists = [
        Modules::Dynamic,
        Modules::None,
        Modules::One(a),
        Modules::Two(a, b),
        Modules::Two(b, a),
        Modules::Three(a, b, a),
        Modules::Four(a, b, a, b),
    ];
    for (place, one) in lists.iter().enumerate() {
        for (other_place, other) in lists.iter().enumerate() {
            let told = (place, other_place, one.is_same(other));
            let wanted = (place, other_place, place == other_place);
            same(&rt, "the same modules", told, wanted);
        }
    }
}

#[test]
fn transient_significant_child(rt: HostRuntime) {
    let spec = significant(&rt, b"s", Restart::Transient);
    same(&rt, "not known", check_childspecs(&[spec], None), Ok(()));
    let never = Err(SpecFault::SignificantNever { index: 0 });
    same(&rt, "never", check_one(spec, AutoShutdown::Never), never);
    let any = check_one(spec, AutoShutdown::AnySignificant);
    same(&rt, "any", any, Ok(()));
}

// Of three children, of which the last has every fault, the second is told, for this fault.
fn is_second(rt: &impl Abort, second: ChildSpec, fault: SpecFault) {
    let first = worker(rt, b"a");
    let last = all_wrong(rt);
    let told = check_childspecs(&[first, second, last], Some(AutoShutdown::Never));
    same(rt, "the first fault", told, Err(fault));
}

fn all_wrong(rt: &impl Abort) -> ChildSpec {
    let mut spec = significant(rt, b"", Restart::Permanent);
    spec.start = named(rt, b"no space");
    spec.modules = Modules::Two(named(rt, b"a"), named(rt, b""));
    spec
}

fn bad(index: usize, key: SpecKey) -> SpecFault {
    SpecFault::BadSpec { index, key }
}

#[test]
fn faults_in_their_order(rt: HostRuntime) {
    let mut second = all_wrong(&rt);
    is_second(&rt, second, bad(1, SpecKey::Id));
    second.id = named(&rt, b"a");
    is_second(&rt, second, bad(1, SpecKey::Start));
    second.start = second.id;
    is_second(&rt, second, bad(1, SpecKey::Modules));
    second.modules = Modules::Dynamic;
    let fault = SpecFault::SignificantPermanent { index: 1 };
    is_second(&rt, second, fault);
    second.restart = Restart::Temporary;
    let fault = SpecFault::SignificantNever { index: 1 };
    is_second(&rt, second, fault);
    let fault = SpecFault::DuplicateId { index: 1 };
    is_second(&rt, worker(&rt, b"a"), fault);
}

/// A tree file tests names as it reads them, so no transcript sees this test of each module's.
#[test]
fn names_of_modules_are_tested(rt: HostRuntime) {
    let [a, no] = [named(&rt, b"a"), named(&rt, b"")];
    let lists = [
        Modules::One(no),
        Modules::Two(no, a),
        Modules::Two(a, no),
        Modules::Three(no, a, a),
        Modules::Three(a, no, a),
        Modules::Three(a, a, no),
        Modules::Four(no, a, a, a),
        Modules::Four(a, no, a, a),
        Modules::Four(a, a, no, a),
        Modules::Four(a, a, a, no),
    ];
    let mut spec = worker(&rt, b"a");
    for modules in lists {
        spec.modules = modules;
        let told = check_childspecs(slice::from_ref(&spec), None);
        same(&rt, "bad modules", told, Err(bad(0, SpecKey::Modules)));
    }
}

/// The texts of the other faults are in those of tree files.
#[test]
fn texts_of_faults(rt: HostRuntime) {
    let texts = [
        (
            SpecFault::BadFlag,
            "a flag is out of its limits: intensity 0 to 1000, period 1 to 1000000 seconds",
        ),
        (
            bad(7, SpecKey::Start),
            "specification 7: the value of start is not a lawful name",
        ),
        (
            bad(0, SpecKey::Id),
            "specification 0: the value of id is not a lawful name",
        ),
        (
            bad(1, SpecKey::Modules),
            "specification 1: the value of modules is not a lawful name",
        ),
    ];
    for (fault, text) in texts {
        prints(&rt, rt.alloc(), &fault, text);
    }
}

// Two workers, of these ids.
fn of_two(rt: &impl Abort, alloc: Global, ids: [&[u8]; 2]) -> Vec<ChildSpec> {
    got(
        rt,
        Vec::from_slice(alloc, &[worker(rt, ids[0]), worker(rt, ids[1])]),
    )
}

#[test]
fn lawful_supervisors(rt: HostRuntime) {
    let specs = of_two(&rt, rt.alloc(), [b"a", b"b"]);
    let supervisor = got(&rt, SupSpec::check(SupFlags::default(), specs));
    let copy = got(&rt, supervisor.try_clone(rt.alloc()));
    is_of_two(&rt, supervisor);
    is_of_two(&rt, copy);
}

// What it tells, and what it is taken apart into.
fn is_of_two(rt: &impl Abort, supervisor: SupSpec) {
    let wanted = [worker(rt, b"a"), worker(rt, b"b")];
    same(rt, "the flags", supervisor.flags(), SupFlags::default());
    same(rt, "the children", supervisor.specs(), wanted.as_slice());
    let (flags, specs) = supervisor.into_parts();
    same(rt, "its flags", flags, SupFlags::default());
    same(rt, "its children", specs.as_slice(), wanted.as_slice());
    drop(specs);
}

// A strategy and a period, and why two children of one id are refused under them.
const UNLAWFUL: [(Strategy, u64, SpecFault); 3] = [
    (Strategy::OneForOne, 5, SpecFault::DuplicateId { index: 1 }),
    (Strategy::SimpleOneForOne, 5, SpecFault::SimpleNeedsOne),
    (Strategy::SimpleOneForOne, 0, SpecFault::BadFlag),
];

#[test]
fn unlawful_supervisors(rt: HostRuntime) {
    for (strategy, period, fault) in UNLAWFUL {
        let flags = SupFlags {
            strategy,
            period,
            ..SupFlags::default()
        };
        is_unlawful(&rt, rt.alloc(), flags, fault);
    }
}

// Two children of one id under these flags are refused for this fault.
fn is_unlawful(rt: &impl Abort, alloc: Global, flags: SupFlags, fault: SpecFault) {
    match SupSpec::check(flags, of_two(rt, alloc, [b"a", b"a"])) {
        Ok(supervisor) => {
            drop(supervisor);
            panic!(rt; "it is unlawful")
        }
        Err(why) => same(rt, "the fault", why, fault),
    }
}
