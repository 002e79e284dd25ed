//! The law of pages. A law is a function that does nothing: what it ensures is the law.

ghost use Rattle.otp_pages.specs.Markup.{OpensNothing};

/// No `<`, no `>` and no quote of a text that comes from outside reaches a page, and no byte that can't be printed.
pub fn escaped_opens_nothing()
    ensures { OpensNothing }
{}
