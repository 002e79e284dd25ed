//! What stands round all pages.

ghost use Rattle.std.specs.Prelude.{◌≡◌, ◌++◌, OnOk};
ghost use Rattle.otp_pages.specs.Frame.{document_text, foot_text, head_text, heading_text, title_text};

use crate::html::markup::put_element;
use crate::html::style::put_style;
use std::alloc::AllocError;

/// How a page begins. It is read without a script, and nothing is fetched for it.
const DOCUMENT: &[u8] = b"\
<!DOCTYPE html>\n\
<html lang=\"en\">\n\
<head>\n\
<meta charset=\"utf-8\">\n\
<meta name=\"viewport\" content=\"width=device-width, initial-scale=1\">\n\
<title>";

/// Appends how a page begins.
#[tactic(auto, unfolding(crate::specs::Frame::document_text))]
fn put_document(out: &mut Vec<u8>) -> Result<(), AllocError>
    ensures { OnOk result (out.new.items ≡ out.old.items ++ document_text) }
{
    out.extend_from_slice(DOCUMENT)
}

/// Appends the title: what the page is, and of which file.
#[tactic(auto, unfolding(crate::specs::Frame::title_text))]
fn put_title(what: &[u8], name: &[u8], out: &mut Vec<u8>) -> Result<(), AllocError>
    ensures { OnOk result (out.new.items ≡ out.old.items ++ title_text what.now name.now) }
{
    out.extend_from_slice(what)?;
    put_element(b" ", name, b"</title>\n<style>\n", out)
}

/// Appends the heading, which says as the title what the page is and of which file.
#[tactic(auto, unfolding(crate::specs::Frame::heading_text))]
fn put_heading(what: &[u8], name: &[u8], out: &mut Vec<u8>) -> Result<(), AllocError>
    ensures { OnOk result (out.new.items ≡ out.old.items ++ heading_text what.now name.now) }
{
    out.extend_from_slice(b"</style>\n</head>\n<body>\n<h1>")?;
    out.extend_from_slice(what)?;
    put_element(b" <code>", name, b"</code></h1>\n", out)
}

/// Appends all that stands before what a page tells: what it is, which is taken as it is, and the name of its file, which is
/// escaped.
///
/// # Errors
///
/// Where memory is refused.
#[tactic(auto, unfolding(crate::specs::Frame::head_text))]
pub fn put_head(what: &[u8], name: &[u8], out: &mut Vec<u8>) -> Result<(), AllocError>
    ensures { OnOk result (out.new.items ≡ out.old.items ++ head_text what.now name.now) }
{
    put_document(out)?;
    put_title(what, name, out)?;
    put_style(out)?;
    put_heading(what, name, out)
}

/// Appends the end of a page.
///
/// # Errors
///
/// Where memory is refused.
#[tactic(auto, unfolding(crate::specs::Frame::foot_text))]
pub fn put_foot(out: &mut Vec<u8>) -> Result<(), AllocError>
    ensures { OnOk result (out.new.items ≡ out.old.items ++ foot_text) }
{
    out.extend_from_slice(b"</body>\n</html>\n")
}
