//! A child's specification as a struct of C, and back.

ghost use Rattle.std.specs.Prelude.{◌≡◌, MatchOption, Ok, Err};
ghost use Rattle.otp_c.specs.Shown.{IsOutside, ModulesSaid, NameSaid, ShowsModules, ShowsSpec, SpecSaid};
ghost use Rattle.otp_c.specs.Words.{flag_number};
ghost use Rattle.otp_c.specs.declared.shapes.status.TheConstants.{OTP_BAD_KIND};

use crate::shapes::status::{OTP_BAD_KIND, OTP_BAD_NAME};
use crate::shapes::structs::{CName, CSpec};
use crate::shapes::words::{
    child_type_in, child_type_number, flag, name_in, name_out, no_name, restart_in, restart_number,
    shutdown_in, shutdown_ms, shutdown_number,
};
use otp_reason::Name;
use otp_spec::{ChildSpec, Modules};

/// The number of modules that are dynamic.
pub const DYNAMIC: u32 = 5;

/// How many modules there are, and their names.
pub fn modules_out(modules: &Modules) -> (u32, [CName; 4])
    ensures { ShowsModules modules.now result.0 result.1 }
{
    let none = no_name();
    match modules {
        Modules::Dynamic => (DYNAMIC, [none, none, none, none]),
        Modules::None => (0, [none, none, none, none]),
        Modules::One(one) => (1, [name_out(one), none, none, none]),
        Modules::Two(one, two) => (2, [name_out(one), name_out(two), none, none]),
        Modules::Three(one, two, three) => {
            (3, [name_out(one), name_out(two), name_out(three), none])
        }
        Modules::Four(one, two, three, four) => (
            4,
            [
                name_out(one),
                name_out(two),
                name_out(three),
                name_out(four),
            ],
        ),
    }
}

/// A specification as a struct.
pub fn spec_out(spec: &ChildSpec) -> CSpec
    ensures { ShowsSpec spec.now result }
{
    let (modules, module) = modules_out(&spec.modules);
    CSpec {
        restart: restart_number(spec.restart),
        significant: flag(spec.significant),
        kind: child_type_number(spec.kind),
        shutdown: shutdown_number(spec.shutdown),
        shutdown_ms: shutdown_ms(spec.shutdown),
        modules,
        id: name_out(&spec.id),
        start: name_out(&spec.start),
        module,
    }
}

/// The name of these bytes, or the status that says why there is none.
pub fn named(name: &CName) -> Result<Name, u32>
    ensures { NameSaid name.now result }
{
    match name_in(name) {
        Some(name) => Ok(name),
        None => Err(OTP_BAD_NAME),
    }
}

/// What a word's number stands for, or the status that says that it stands for nothing.
fn known<T: Copy>(word: Option<T>) -> Result<T, u32>
    ensures { MatchOption word (result ≡ Err OTP_BAD_KIND) (λ it. result ≡ Ok it) }
{
    match word {
        Some(word) => Ok(word),
        None => Err(OTP_BAD_KIND),
    }
}

fn modules_in(modules: u32, names: &[CName; 4]) -> Result<Modules, u32>
    ensures { ModulesSaid modules names.now result }
{
    match modules {
        0 => Ok(Modules::None),
        1 => Ok(Modules::One(named(&names[0])?)),
        2 => Ok(Modules::Two(named(&names[0])?, named(&names[1])?)),
        3 => Ok(Modules::Three(named(&names[0])?, named(&names[1])?, named(&names[2])?)),
        4 => Ok(Modules::Four(
            named(&names[0])?,
            named(&names[1])?,
            named(&names[2])?,
            named(&names[3])?,
        )),
        DYNAMIC => Ok(Modules::Dynamic),
        _ => Err(OTP_BAD_KIND),
    }
}

fn significant_in(significant: u32) -> Option<bool>
    ensures { MatchOption result (IsOutside 0 1 significant) (λ said. significant ≡ flag_number said) }
{
    match significant {
        0 => Some(false),
        1 => Some(true),
        _ => None,
    }
}

/// The specification that a struct says, lawful or not; or the status that says why it says none.
pub fn spec_in(spec: &CSpec) -> Result<ChildSpec, u32>
    ensures { SpecSaid spec.now result }
{
    Ok(ChildSpec {
        id: named(&spec.id)?,
        start: named(&spec.start)?,
        restart: known(restart_in(spec.restart))?,
        significant: known(significant_in(spec.significant))?,
        shutdown: known(shutdown_in(spec.shutdown, spec.shutdown_ms))?,
        kind: known(child_type_in(spec.kind))?,
        modules: modules_in(spec.modules, &spec.module)?,
    })
}
