//! Letters outside of ASCII that look like one of `a-z`.

ghost use Rattle.std.specs.Prelude.{◌≡◌, ◌<◌, IfSome, length, nat_le, position};
ghost use Rattle.otp_text.specs.Letters.{code_point, letter_at, letter_in, letter_of, letter_text, other_letter};

/// A letter that looks like one of `a-z`, as it comes from a keyboard of another script.
#[derive(Clone, Copy, Debug, PartialEq, Eq)]
pub enum Letter {
    CyrillicA,
    CyrillicE,
    CyrillicO,
    CyrillicP,
    CyrillicC,
    CyrillicY,
    CyrillicX,
    CyrillicI,
    CyrillicS,
    CyrillicT,
    CyrillicK,
    CyrillicH,
    GreekA,
    GreekI,
    GreekO,
    GreekP,
    GreekV,
}

/// The first letter of a word that is outside of ASCII, where it looks like one of `a-z`.
#[tactic(auto, unfolding(crate::specs::Letters::letter_in))]
pub fn strange_letter(word: &[u8]) -> Option<Letter>
    ensures { result ≡ letter_in word.now }
{
    let place = first_strange(word)?;
    letter_at(&word[place..])
}

/// The place of the first byte outside of ASCII.
fn first_strange(word: &[u8]) -> Option<usize>
    ensures found { result ≡ position (nat_le 128) word.now }
    ensures inside { IfSome result (λ place. place < length word.now) }
{
    word.iter().position(|byte| *byte >= 128)
}

/// The letter that these bytes begin with.
#[tactic(auto, unfolding(crate::specs::Letters::letter_at))]
fn letter_at(bytes: &[u8]) -> Option<Letter>
    ensures { result ≡ letter_at bytes.now }
{
    match bytes {
        [first, second, ..] => Letter::of_code_point(code_point(*first, *second)),
        _ => None,
    }
}

/// The code point that two bytes are in UTF-8.
#[tactic(auto, unfolding(crate::specs::Letters::code_point))]
fn code_point(first: u8, second: u8) -> u32
    ensures { result ≡ code_point first second }
{
    u32::from(first.saturating_sub(192)) * 64 + u32::from(second.saturating_sub(128))
}

impl Letter {
    /// The letter with this code point.
    #[tactic(auto, unfolding(crate::specs::Letters::letter_of))]
    fn of_code_point(code: u32) -> Option<Self>
        ensures { result ≡ letter_of code }
    {
        if code == 0x430 {
            Some(Letter::CyrillicA)
        } else if code == 0x435 {
            Some(Letter::CyrillicE)
        } else if code == 0x43e {
            Some(Letter::CyrillicO)
        } else if code == 0x440 {
            Some(Letter::CyrillicP)
        } else if code == 0x441 {
            Some(Letter::CyrillicC)
        } else if code == 0x443 {
            Some(Letter::CyrillicY)
        } else if code == 0x445 {
            Some(Letter::CyrillicX)
        } else if code == 0x456 {
            Some(Letter::CyrillicI)
        } else {
            Letter::of_other(code)
        }
    }

    /// The letter with this code point, of those that stand for others less often.
    #[tactic(auto, unfolding(crate::specs::Letters::other_letter))]
    fn of_other(code: u32) -> Option<Self>
        ensures { result ≡ other_letter code }
    {
        if code == 0x442 {
            Some(Letter::CyrillicT)
        } else if code == 0x43a {
            Some(Letter::CyrillicK)
        } else if code == 0x455 {
            Some(Letter::CyrillicS)
        } else if code == 0x4bb {
            Some(Letter::CyrillicH)
        } else if code == 0x3b1 {
            Some(Letter::GreekA)
        } else if code == 0x3b9 {
            Some(Letter::GreekI)
        } else if code == 0x3bd {
            Some(Letter::GreekV)
        } else if code == 0x3bf {
            Some(Letter::GreekO)
        } else if code == 0x3c1 {
            Some(Letter::GreekP)
        } else {
            None
        }
    }

    /// What is said of a word that has this letter.
    #[tactic(auto, unfolding(crate::specs::Letters::letter_text))]
    pub fn text(self) -> &'static str
        ensures { result.now ≡ letter_text self }
    {
        match self {
            Letter::CyrillicA => "a word has the letter U+0430, which only looks like a",
            Letter::CyrillicE => "a word has the letter U+0435, which only looks like e",
            Letter::CyrillicO => "a word has the letter U+043E, which only looks like o",
            Letter::CyrillicP => "a word has the letter U+0440, which only looks like p",
            Letter::CyrillicC => "a word has the letter U+0441, which only looks like c",
            Letter::CyrillicY => "a word has the letter U+0443, which only looks like y",
            Letter::CyrillicX => "a word has the letter U+0445, which only looks like x",
            Letter::CyrillicI => "a word has the letter U+0456, which only looks like i",
            Letter::CyrillicT => "a word has the letter U+0442, which only looks like t",
            Letter::CyrillicK => "a word has the letter U+043A, which only looks like k",
            Letter::CyrillicS => "a word has the letter U+0455, which only looks like s",
            Letter::CyrillicH => "a word has the letter U+04BB, which only looks like h",
            Letter::GreekA => "a word has the letter U+03B1, which only looks like a",
            Letter::GreekI => "a word has the letter U+03B9, which only looks like i",
            Letter::GreekV => "a word has the letter U+03BD, which only looks like v",
            Letter::GreekO => "a word has the letter U+03BF, which only looks like o",
            Letter::GreekP => "a word has the letter U+03C1, which only looks like p",
        }
    }
}
