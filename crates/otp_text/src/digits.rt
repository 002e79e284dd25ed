//! The number that a line begins with: its digits are found, and their value is summed up, in one pass.

ghost use Rattle.std.specs.Prelude.{◌≡◌, ◌+◌, ◌-◌, ◌<◌, ◌≤◌, length, take, drop, get_or, true, Some, IfSome};
ghost use Rattle.std.specs.List.{list_all};
ghost use Rattle.std.specs.Str.Parse.{digits_value};
ghost use Rattle.otp_spec.specs.declared.limits.TheConstants.{MAX_READING};
ghost use Rattle.otp_text.specs.declared.digits.TheConstants.{FEW_DIGITS};
ghost use Rattle.otp_text.specs.Words.{words_of, is_digit, one_reason};
ghost use Rattle.otp_text.specs.Lines.{number_in, number_and_reason, one_number, with_number};

/// A number of so many digits is within all limits. A longer one is read word by word.
const FEW_DIGITS: usize = 18;

/// The number that is all of a line, where it is found in one pass.
pub(crate) fn whole_number(line: &[u8]) -> Option<u64>
    ensures number { IfSome result (λ number. one_number (words_of line.now) ≡ Some number) }
    ensures within { IfSome result (λ number. number ≤ MAX_READING) }
{
    let (number, count) = leading_number(line)?;
    if count == line.len() {
        Some(number)
    } else {
        None
    }
}

/// The number that a line begins with, and what stands after the space behind it, where it is found in one pass.
pub(crate) fn cut_number(line: &[u8]) -> Option<(u64, &[u8])>
    ensures { IfSome result (λ found. number_and_reason (words_of line.now) ≡ with_number found.0 (one_reason (words_of found.1.now))) }
{
    let (number, count) = leading_number(line)?;
    let rest = after_space(line, count)?;
    Some((number, rest))
}

/// What stands after the space at the place, if there is one.
fn after_space(line: &[u8], place: usize) -> Option<&[u8]>
    ensures inside { IfSome result (λ rest. place < length line.now) }
    ensures space { IfSome result (λ rest. get_or line.now place 0 ≡ 32) }
    ensures rest { IfSome result (λ rest. rest.now ≡ drop (place + 1) line.now) }
{
    if place < line.len() && line[place] == b' ' {
        Some(&line[place + 1..])
    } else {
        None
    }
}

/// The number that a line's first digits write, and how many they are. There is none where they begin with a zero.
fn leading_number(line: &[u8]) -> Option<(u64, usize)>
    ensures number { IfSome result (λ found. number_in (take found.1 line.now) ≡ Some found.0) }
    ensures within { IfSome result (λ found. found.0 ≤ MAX_READING) }
    ensures digits { IfSome result (λ found. list_all is_digit (take found.1 line.now) ≡ true) }
    ensures inside { IfSome result (λ found. found.1 ≤ length line.now) }
{
    let (number, count) = leading_digits(line);
    if count == 0 || line[0] == b'0' {
        return None;
    }
    Some((number, count))
}

/// What a line's first digits write, and how many they are; at most [`FEW_DIGITS`] are read.
fn leading_digits(line: &[u8]) -> (u64, usize)
    ensures inside { result.1 ≤ length line.now }
    ensures few { result.1 ≤ FEW_DIGITS }
    ensures digits { list_all is_digit (take result.1 line.now) ≡ true }
    ensures value { result.0 ≡ digits_value 10 (take result.1 line.now) }
{
    let mut number = 0;
    let mut count = 0;
    while let Some(digit) = digit_at(line, count) {
        number = number * 10 + digit;
        count += 1;
    }
    (number, count)
}

/// What the digit at the place is worth, if one stands there, and it is among the first [`FEW_DIGITS`].
fn digit_at(line: &[u8], place: usize) -> Option<u64>
    ensures inside { IfSome result (λ digit. place < length line.now) }
    ensures few { IfSome result (λ digit. place < FEW_DIGITS) }
    ensures digit { IfSome result (λ digit. is_digit (get_or line.now place 0) ≡ true) }
    ensures value { IfSome result (λ digit. digit ≡ get_or line.now place 0 - 48) }
    ensures small { IfSome result (λ digit. digit < 10) }
{
    if place >= line.len() || place >= FEW_DIGITS {
        return None;
    }
    match line[place] {
        byte @ b'0'..=b'9' => Some(u64::from(byte - b'0')),
        _ => None,
    }
}
