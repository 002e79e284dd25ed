//! The table of a supervisor as an object.

ghost use Rattle.std.specs.Prelude.{◌≡◌, ◌+◌, ◌≤◌, ◌++◌, OnOk, length, option_map};
ghost use Rattle.otp_file.specs.Nested.{sub_at};
ghost use Rattle.otp_objects.specs.Trees.{child_head, child_text, children_text, comma_at, flags_members, kind_members, modules_member, modules_value, name_members, name_value, next_value, sub_member, sub_value, table_text};

use crate::values::{put_bool, put_shutdown, put_word};
use otp_file::nested::{NestedText, TableWriter, sub_at};
use otp_json::{put_json_text, put_key, put_number, put_text};
use otp_reason::Name;
use otp_spec::{ChildSpec, Modules, SupFlags};
use std::alloc::AllocError;

/// Appends a name.
#[tactic(auto, unfolding(crate::specs::Trees::name_value))]
fn write_name(name: &Name, out: &mut Vec<u8>) -> Result<(), AllocError>
    ensures { OnOk result (out.new.items ≡ out.old.items ++ name_value name.now) }
{
    put_json_text(name.as_bytes(), out)
}

/// Appends a name behind another.
#[tactic(auto, unfolding(crate::specs::Trees::next_value))]
fn write_next_name(name: &Name, out: &mut Vec<u8>) -> Result<(), AllocError>
    ensures { OnOk result (out.new.items ≡ out.old.items ++ next_value name.now) }
{
    out.extend_from_slice(b", ")?;
    write_name(name, out)
}

/// Appends the modules of a child: a word, or an array of names.
#[tactic(auto, unfolding(crate::specs::Trees::modules_value))]
fn write_modules(modules: &Modules, out: &mut Vec<u8>) -> Result<(), AllocError>
    ensures { OnOk result (out.new.items ≡ out.old.items ++ modules_value modules.now) }
{
    match modules {
        Modules::Dynamic => out.extend_from_slice(b"\"dynamic\""),
        Modules::None => out.extend_from_slice(b"[]"),
        Modules::One(first) => {
            out.extend_from_slice(b"[")?;
            write_name(first, out)?;
            out.extend_from_slice(b"]")
        }
        Modules::Two(first, second) => {
            out.extend_from_slice(b"[")?;
            write_name(first, out)?;
            write_next_name(second, out)?;
            out.extend_from_slice(b"]")
        }
        Modules::Three(first, second, third) => {
            out.extend_from_slice(b"[")?;
            write_name(first, out)?;
            write_next_name(second, out)?;
            write_next_name(third, out)?;
            out.extend_from_slice(b"]")
        }
        Modules::Four(first, second, third, fourth) => {
            out.extend_from_slice(b"[")?;
            write_name(first, out)?;
            write_next_name(second, out)?;
            write_next_name(third, out)?;
            write_next_name(fourth, out)?;
            out.extend_from_slice(b"]")
        }
    }
}

/// Appends the member that says a child's modules.
#[tactic(auto, unfolding(crate::specs::Trees::modules_member))]
fn put_modules(modules: &Modules, out: &mut Vec<u8>) -> Result<(), AllocError>
    ensures { OnOk result (out.new.items ≡ out.old.items ++ modules_member modules.now) }
{
    put_key(b", ", b"modules", out)?;
    write_modules(modules, out)
}

/// Appends a child's id, and the module of its start.
#[tactic(auto, unfolding(crate::specs::Trees::name_members))]
fn put_names(spec: &ChildSpec, out: &mut Vec<u8>) -> Result<(), AllocError>
    ensures { OnOk result (out.new.items ≡ out.old.items ++ name_members spec.now) }
{
    put_text(b"{", b"id", spec.id.as_bytes(), out)?;
    put_text(b", ", b"start", spec.start.as_bytes(), out)
}

/// Appends after which ends a child is restarted, how it is stopped, and what it is.
#[tactic(auto, unfolding(crate::specs::Trees::kind_members))]
fn put_kind(spec: &ChildSpec, out: &mut Vec<u8>) -> Result<(), AllocError>
    ensures { OnOk result (out.new.items ≡ out.old.items ++ kind_members spec.now) }
{
    put_word(b"restart", spec.restart.word(), out)?;
    put_bool(b"significant", spec.significant, out)?;
    put_shutdown(spec.shutdown, out)?;
    put_word(b"type", spec.kind.word(), out)
}

/// Appends all of a child but its tree.
#[tactic(auto, unfolding(crate::specs::Trees::child_head))]
fn put_head(spec: &ChildSpec, out: &mut Vec<u8>) -> Result<(), AllocError>
    ensures { OnOk result (out.new.items ≡ out.old.items ++ child_head spec.now) }
{
    put_names(spec, out)?;
    put_kind(spec, out)?;
    put_modules(&spec.modules, out)
}

/// Appends the object of the tree of a child, or `null` where it has none.
#[tactic(auto, unfolding(crate::specs::Trees::sub_value))]
fn write_sub(sub: Option<&NestedText>, out: &mut Vec<u8>) -> Result<(), AllocError>
    ensures { OnOk result (out.new.items ≡ out.old.items ++ sub_value (option_map (λ piece. piece.now) sub.entry)) }
{
    match sub {
        None => out.extend_from_slice(b"null"),
        Some(piece) => out.extend_from_slice(piece.as_bytes()),
    }
}

/// Appends the member that is the tree of a child.
#[tactic(auto, unfolding(crate::specs::Trees::sub_member))]
fn put_sub(sub: Option<&NestedText>, out: &mut Vec<u8>) -> Result<(), AllocError>
    ensures { OnOk result (out.new.items ≡ out.old.items ++ sub_member (option_map (λ piece. piece.now) sub.entry)) }
{
    put_key(b", ", b"tree", out)?;
    write_sub(sub, out)
}

/// Appends the object of a child.
#[tactic(auto, unfolding(crate::specs::Trees::child_text))]
fn put_child(
    spec: &ChildSpec,
    sub: Option<&NestedText>,
    out: &mut Vec<u8>,
) -> Result<(), AllocError>
    ensures { OnOk result (out.new.items ≡ out.old.items ++ child_text spec.now (option_map (λ piece. piece.now) sub.entry)) }
{
    put_head(spec, out)?;
    put_sub(sub, out)?;
    out.extend_from_slice(b"}")
}

/// Appends what stands before the child at this place.
#[tactic(auto, unfolding(crate::specs::Trees::comma_at))]
fn put_comma(place: usize, out: &mut Vec<u8>) -> Result<(), AllocError>
    ensures { OnOk result (out.new.items ≡ out.old.items ++ comma_at place) }
{
    if place == 0 {
        Ok(())
    } else {
        out.extend_from_slice(b", ")
    }
}

/// Appends the objects of these children, of which the first stands at this place.
fn put_children(
    nested: &[usize],
    each: &[NestedText],
    place: usize,
    specs: &[ChildSpec],
    out: &mut Vec<u8>,
) -> Result<(), AllocError>
    requires { place + length specs.now ≤ 256 }
    ensures { OnOk result (out.new.items ≡ out.old.items ++ children_text nested.now each.now place specs.now) }
{
    match specs {
        [] => Ok(()),
        [spec, others @ ..] => {
            put_comma(place, out)?;
            put_child(spec, sub_at(place, nested, each), out)?;
            put_children(nested, each, place + 1, others, out)
        }
    }
}

/// Appends how a supervisor restarts its children, and when it ends by itself.
#[tactic(auto, unfolding(crate::specs::Trees::flags_members))]
fn put_flags(flags: &SupFlags, out: &mut Vec<u8>) -> Result<(), AllocError>
    ensures { OnOk result (out.new.items ≡ out.old.items ++ flags_members flags.now) }
{
    put_text(b"{", b"strategy", flags.strategy.word().as_bytes(), out)?;
    put_number(b", ", b"intensity", flags.intensity, out)?;
    put_number(b", ", b"period", flags.period, out)?;
    put_word(b"auto_shutdown", flags.auto_shutdown.word(), out)
}

/// Appends the object of a supervisor with these children, of which those at these places have trees with these objects.
#[tactic(auto, unfolding(crate::specs::Trees::table_text))]
fn put_table(
    flags: &SupFlags,
    specs: &[ChildSpec],
    nested: &[usize],
    each: &[NestedText],
    out: &mut Vec<u8>,
) -> Result<(), AllocError>
    requires { length specs.now ≤ 256 }
    ensures { OnOk result (out.new.items ≡ out.old.items ++ table_text flags.now specs.now nested.now each.now) }
{
    put_flags(flags, out)?;
    put_key(b", ", b"child", out)?;
    out.extend_from_slice(b"[")?;
    put_children(nested, each, 0, specs, out)?;
    out.extend_from_slice(b"]}")
}

/// Who writes the object of a supervisor.
#[derive(Drop)]
pub(crate) struct Objects;

impl TableWriter for Objects {
    ghost use Rattle.otp_objects.specs.Trees.{object_at};

    ghost written = { λ _. object_at };

    fn write(
        &self,
        _path: &[u8],
        flags: &SupFlags,
        specs: &[ChildSpec],
        nested: &[usize],
        each: &[NestedText],
        out: &mut Vec<u8>,
    ) -> Result<(), AllocError> {
        put_table(flags, specs, nested, each, out)
    }
}
