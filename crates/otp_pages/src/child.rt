//! What a page says of a child of a tree.

ghost use Rattle.std.specs.Prelude.{◌≡◌, ◌++◌, OnOk, option_map};
ghost use Rattle.otp_pages.specs.Trees.{child_head, child_html, kind_tag, restart_tag, shutdown_tag, shutdown_words, significant_tag, start_html, sub_html, tags_html};

use crate::html::put_element;
use otp_file::nested::NestedText;
use otp_spec::{ChildSpec, ChildType, Restart, Shutdown};
use otp_text::write_number;
use std::alloc::AllocError;

/// Appends when a child is restarted, in a colour of its own.
#[tactic(auto, unfolding(crate::specs::Trees::restart_tag))]
fn put_restart(restart: Restart, out: &mut Vec<u8>) -> Result<(), AllocError>
    ensures { OnOk result (out.new.items ≡ out.old.items ++ restart_tag restart) }
{
    out.extend_from_slice(b"<span class=\"tag ")?;
    out.extend_from_slice(restart.word().as_bytes())?;
    out.extend_from_slice(b"\">")?;
    out.extend_from_slice(restart.word().as_bytes())?;
    out.extend_from_slice(b"</span>")
}

/// Appends that a child is significant, if it is.
#[tactic(auto, unfolding(crate::specs::Trees::significant_tag))]
fn put_significant(significant: bool, out: &mut Vec<u8>) -> Result<(), AllocError>
    ensures { OnOk result (out.new.items ≡ out.old.items ++ significant_tag significant) }
{
    if significant {
        out.extend_from_slice(b"<span class=\"tag significant\">significant</span>")
    } else {
        Ok(())
    }
}

/// Appends what a child is.
#[tactic(auto, unfolding(crate::specs::Trees::kind_tag))]
fn put_kind(kind: ChildType, out: &mut Vec<u8>) -> Result<(), AllocError>
    ensures { OnOk result (out.new.items ≡ out.old.items ++ kind_tag kind) }
{
    out.extend_from_slice(b"<span class=\"tag\">")?;
    out.extend_from_slice(kind.word().as_bytes())?;
    out.extend_from_slice(b"</span>")
}

/// Appends how long a child may take to end.
#[tactic(auto, unfolding(crate::specs::Trees::shutdown_words))]
fn put_shutdown_words(shutdown: Shutdown, out: &mut Vec<u8>) -> Result<(), AllocError>
    ensures { OnOk result (out.new.items ≡ out.old.items ++ shutdown_words shutdown) }
{
    match shutdown {
        Shutdown::BrutalKill => out.extend_from_slice(b"brutal_kill"),
        Shutdown::Milliseconds(time) => {
            write_number(u64::from(time), out)?;
            out.extend_from_slice(b" ms")
        }
        Shutdown::Infinity => out.extend_from_slice(b"infinity"),
    }
}

/// Appends how long a child may take to end, as a tag.
#[tactic(auto, unfolding(crate::specs::Trees::shutdown_tag))]
fn put_shutdown(shutdown: Shutdown, out: &mut Vec<u8>) -> Result<(), AllocError>
    ensures { OnOk result (out.new.items ≡ out.old.items ++ shutdown_tag shutdown) }
{
    out.extend_from_slice(b"<span class=\"tag\">shutdown ")?;
    put_shutdown_words(shutdown, out)?;
    out.extend_from_slice(b"</span>")
}

/// Appends all that is said of a child in tags.
#[tactic(auto, unfolding(crate::specs::Trees::tags_html))]
fn put_tags(spec: &ChildSpec, out: &mut Vec<u8>) -> Result<(), AllocError>
    ensures { OnOk result (out.new.items ≡ out.old.items ++ tags_html spec.now) }
{
    put_restart(spec.restart, out)?;
    put_significant(spec.significant, out)?;
    put_kind(spec.kind, out)?;
    put_shutdown(spec.shutdown, out)
}

/// Appends the module of the start function.
#[tactic(auto, unfolding(crate::specs::Trees::start_html))]
fn put_start(spec: &ChildSpec, out: &mut Vec<u8>) -> Result<(), AllocError>
    ensures { OnOk result (out.new.items ≡ out.old.items ++ start_html spec.now) }
{
    put_element(
        b"<small>start <code>",
        spec.start.as_bytes(),
        b"</code></small>",
        out,
    )
}

/// Appends the line of a child.
#[tactic(auto, unfolding(crate::specs::Trees::child_head))]
fn put_head(spec: &ChildSpec, out: &mut Vec<u8>) -> Result<(), AllocError>
    ensures { OnOk result (out.new.items ≡ out.old.items ++ child_head spec.now) }
{
    put_element(b"<li><code>", spec.id.as_bytes(), b"</code>", out)?;
    put_tags(spec, out)?;
    put_start(spec, out)
}

/// Appends what is said of the supervisor that a child is, if its tree stands in the file.
#[tactic(auto, unfolding(crate::specs::Trees::sub_html))]
pub(crate) fn put_sub(sub: Option<&NestedText>, out: &mut Vec<u8>) -> Result<(), AllocError>
    ensures { OnOk result (out.new.items ≡ out.old.items ++ sub_html (option_map (λ piece. piece.now) sub.entry)) }
{
    match sub {
        None => Ok(()),
        Some(piece) => {
            out.extend_from_slice(b"\n")?;
            out.extend_from_slice(piece.as_bytes())
        }
    }
}

/// Appends what is said of a child, and of all below it.
#[tactic(auto, unfolding(crate::specs::Trees::child_html))]
pub(crate) fn put_child(
    spec: &ChildSpec,
    sub: Option<&NestedText>,
    out: &mut Vec<u8>,
) -> Result<(), AllocError>
    ensures { OnOk result (out.new.items ≡ out.old.items ++ child_html spec.now (option_map (λ piece. piece.now) sub.entry)) }
{
    put_head(spec, out)?;
    put_sub(sub, out)?;
    out.extend_from_slice(b"</li>\n")
}
