//! What a page says of a supervisor of a tree.

ghost use Rattle.std.specs.Prelude.{◌≡◌, ◌+◌, ◌≤◌, ◌++◌, OnOk, length, option_map};
ghost use Rattle.otp_file.specs.Nested.{sub_at};
ghost use Rattle.otp_pages.specs.Trees.{auto_words, children_html, flags_html, limit_words, restarts_words, supervisor_html};

use crate::child::put_child;
use otp_file::nested::{NestedText, TableWriter, sub_at};
use otp_spec::{AutoShutdown, ChildSpec, SupFlags};
use otp_text::write_number;
use std::alloc::AllocError;

/// What stands between a number of restarts and the period.
#[tactic(auto, unfolding(crate::specs::Trees::restarts_words))]
fn restarts_words(count: u64) -> &'static [u8]
    ensures { result.now ≡ restarts_words count }
{
    if count == 1 {
        b" restart in "
    } else {
        b" restarts in "
    }
}

/// Appends how many restarts there may be, and in which time.
///
/// # Errors
///
/// Where memory is refused.
#[tactic(auto, unfolding(crate::specs::Trees::limit_words))]
pub fn put_limit(flags: &SupFlags, out: &mut Vec<u8>) -> Result<(), AllocError>
    ensures { OnOk result (out.new.items ≡ out.old.items ++ limit_words flags.now) }
{
    write_number(flags.intensity, out)?;
    out.extend_from_slice(restarts_words(flags.intensity))?;
    write_number(flags.period, out)?;
    out.extend_from_slice(b" s")
}

/// What an automatic shutdown comes from.
#[tactic(auto, unfolding(crate::specs::Trees::auto_words))]
fn auto_words(auto_shutdown: AutoShutdown) -> &'static [u8]
    ensures { result.now ≡ auto_words auto_shutdown }
{
    match auto_shutdown {
        AutoShutdown::Never => b"",
        AutoShutdown::AnySignificant => b", ends with any significant child",
        AutoShutdown::AllSignificant => b", ends with the last significant child",
    }
}

/// Appends how a supervisor restarts its children, and when it ends by itself.
#[tactic(auto, unfolding(crate::specs::Trees::flags_html))]
fn put_flags(flags: &SupFlags, out: &mut Vec<u8>) -> Result<(), AllocError>
    ensures { OnOk result (out.new.items ≡ out.old.items ++ flags_html flags.now) }
{
    out.extend_from_slice(b"<p class=\"flags\"><b>")?;
    out.extend_from_slice(flags.strategy.word().as_bytes())?;
    out.extend_from_slice(b"</b> ")?;
    put_limit(flags, out)?;
    out.extend_from_slice(auto_words(flags.auto_shutdown))?;
    out.extend_from_slice(b"</p>\n")
}

/// Appends what is said of these children, of which the first stands at this place.
fn put_children(
    nested: &[usize],
    each: &[NestedText],
    place: usize,
    specs: &[ChildSpec],
    out: &mut Vec<u8>,
) -> Result<(), AllocError>
    requires { place + length specs.now ≤ 256 }
    ensures { OnOk result (out.new.items ≡ out.old.items ++ children_html nested.now each.now place specs.now) }
{
    match specs {
        [] => Ok(()),
        [spec, others @ ..] => {
            put_child(spec, sub_at(place, nested, each), out)?;
            put_children(nested, each, place + 1, others, out)
        }
    }
}

/// Appends what is said of a supervisor and its children, of which those at these places have trees of which this is said.
#[tactic(auto, unfolding(crate::specs::Trees::supervisor_html))]
fn put_supervisor(
    flags: &SupFlags,
    specs: &[ChildSpec],
    nested: &[usize],
    each: &[NestedText],
    out: &mut Vec<u8>,
) -> Result<(), AllocError>
    requires { length specs.now ≤ 256 }
    ensures { OnOk result (out.new.items ≡ out.old.items ++ supervisor_html flags.now specs.now nested.now each.now) }
{
    put_flags(flags, out)?;
    out.extend_from_slice(b"<ul>\n")?;
    put_children(nested, each, 0, specs, out)?;
    out.extend_from_slice(b"</ul>\n")
}

/// Who writes what a page says of a supervisor.
#[derive(Drop)]
pub(crate) struct Supervisors;

impl TableWriter for Supervisors {
    ghost use Rattle.otp_pages.specs.Trees.{html_at};

    ghost written = { λ _. html_at };

    fn write(
        &self,
        _path: &[u8],
        flags: &SupFlags,
        specs: &[ChildSpec],
        nested: &[usize],
        each: &[NestedText],
        out: &mut Vec<u8>,
    ) -> Result<(), AllocError> {
        put_supervisor(flags, specs, nested, each, out)
    }
}
