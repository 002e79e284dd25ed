//! Laws of the texts. A law is a function that does nothing: what it ensures is the law.

ghost use Rattle.otp_text.specs.ReadBack.{ReasonsAreReadBack, WordsAreReadBack};

/// The printed word of a restart type, of a child's type or of a truth value is read as that value.
pub fn words_are_read_back()
    ensures { WordsAreReadBack }
{}

/// The printed text of a reason is read as that reason.
pub fn reasons_are_read_back()
    ensures { ReasonsAreReadBack }
{}
