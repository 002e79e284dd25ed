//! Times of systemd.

use otp_foreign::is_blank;

/// How many microseconds a unit of time has.
fn unit_of(word: &[u8]) -> Option<u64> {
    match word {
        b"us" | b"usec" => Some(1),
        b"ms" | b"msec" => Some(1_000),
        b"" | b"s" | b"sec" | b"second" | b"seconds" => Some(1_000_000),
        b"m" | b"min" | b"minute" | b"minutes" => Some(60_000_000),
        b"h" | b"hr" | b"hour" | b"hours" => Some(3_600_000_000),
        b"d" | b"day" | b"days" => Some(86_400_000_000),
        _ => None,
    }
}

/// How far a time is read.
#[derive(Clone, Copy, Debug)]
struct Reading {
    /// The microseconds so far.
    sum: u64,
    number: u64,
    has_number: bool,
    /// The place of the first letter of a unit.
    unit: Option<usize>,
}

impl Reading {
    /// A number ends here with its unit; none where either can't be.
    fn end(self, value: &[u8], place: usize) -> Option<Reading> {
        let word = match self.unit {
            Some(start) => value.get(start..place).unwrap_or(b""),
            None => b"",
        };
        if !self.has_number {
            return None;
        }
        let sum = self
            .sum
            .saturating_add(self.number.saturating_mul(unit_of(word)?));
        Some(Reading {
            sum,
            number: 0,
            has_number: false,
            unit: None,
        })
    }

    /// A digit more.
    fn digit(self, byte: u8) -> Reading {
        Reading {
            number: self
                .number
                .saturating_mul(10)
                .saturating_add(u64::from(byte.saturating_sub(b'0'))),
            has_number: true,
            ..self
        }
    }

    /// A byte that is of no unit: a digit, or a blank.
    fn take_first(self, byte: u8) -> Option<Reading> {
        if byte.is_ascii_digit() {
            return Some(self.digit(byte));
        }
        if is_blank(byte) { Some(self) } else { None }
    }

    /// The next byte; none where it can't stand there.
    fn take(self, value: &[u8], place: usize, byte: u8) -> Option<Reading> {
        let is_letter = byte.is_ascii_alphabetic();
        if self.unit.is_some() && !is_letter {
            return self.end(value, place)?.take_first(byte);
        }
        if !is_letter {
            return self.take_first(byte);
        }
        if !self.has_number {
            return None;
        }
        Some(Reading {
            unit: Some(self.unit.unwrap_or(place)),
            ..self
        })
    }
}

/// The milliseconds of a time, as `90`, `1min 30s` or `100ms`; none where it is no such time.
pub(crate) fn time_in(value: &[u8]) -> Option<u64> {
    let mut reading = Reading {
        sum: 0,
        number: 0,
        has_number: false,
        unit: None,
    };
    for place in 0..value.len() {
        reading = reading.take(value, place, value[place])?;
    }
    let whole = reading.end(value, value.len())?;
    Some(whole.sum / 1000)
}
