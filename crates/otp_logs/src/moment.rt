//! Times as logs have them.

use crate::seeking::{is_at, is_text};
use otp_foreign::{byte_of, write_byte};
use std::alloc::AllocError;

/// Milliseconds of a day.
const DAY: u64 = 86_400_000;

/// Days before 1970 since the first of March of the year 0.
const DAYS_BEFORE: u64 = 719_468;

/// By which clock a time was read.
#[derive(Clone, Copy)]
pub enum Zone {
    /// By one of which nothing is said.
    Local,
    Utc,
    /// By one that is so many minutes before UTC.
    East(u64),
    /// By one that is so many minutes behind it.
    West(u64),
}

/// A date, and a time of the day.
#[derive(Clone, Copy)]
pub struct Moment {
    pub year: u64,
    pub month: u64,
    pub day: u64,
    /// Milliseconds of the day.
    pub clock: u64,
    pub zone: Zone,
}

impl Moment {
    /// Days since 1970.
    fn days(&self) -> u64 {
        let is_early = self.month <= 2;
        let year = if is_early {
            self.year.saturating_sub(1)
        } else {
            self.year
        };
        let month = if is_early {
            self.month.saturating_add(9)
        } else {
            self.month.saturating_sub(3)
        };
        let of_year = month.saturating_mul(153).saturating_add(2) / 5;
        year.saturating_mul(365)
            .saturating_add(year / 4)
            .saturating_sub(year / 100)
            .saturating_add(year / 400)
            .saturating_add(of_year)
            .saturating_add(self.day)
            .saturating_sub(1)
            .saturating_sub(DAYS_BEFORE)
    }

    /// Milliseconds since 1970, by UTC where the clock is known.
    pub fn millis(&self) -> u64 {
        let millis = self.days().saturating_mul(DAY).saturating_add(self.clock);
        match self.zone {
            Zone::Local | Zone::Utc => millis,
            Zone::East(minutes) => millis.saturating_sub(minutes.saturating_mul(60_000)),
            Zone::West(minutes) => millis.saturating_add(minutes.saturating_mul(60_000)),
        }
    }

    /// The moment so many milliseconds after 1970 began.
    pub fn at(millis: u64, zone: Zone) -> Moment {
        let days = (millis / DAY).saturating_add(DAYS_BEFORE);
        let era = days / 146_097;
        let of_era = days % 146_097;
        let year_of_era = of_era
            .saturating_sub(of_era / 1460)
            .saturating_add(of_era / 36_524)
            .saturating_sub(of_era / 146_096)
            / 365;
        let before = year_of_era
            .saturating_mul(365)
            .saturating_add(year_of_era / 4)
            .saturating_sub(year_of_era / 100);
        let of_year = of_era.saturating_sub(before);
        let month = of_year.saturating_mul(5).saturating_add(2) / 153;
        let day = of_year.saturating_sub(month.saturating_mul(153).saturating_add(2) / 5);
        let year = year_of_era.saturating_add(era.saturating_mul(400));
        let is_late = month >= 10;
        Moment {
            year: if is_late {
                year.saturating_add(1)
            } else {
                year
            },
            month: if is_late {
                month.saturating_sub(9)
            } else {
                month.saturating_add(3)
            },
            day: day.saturating_add(1),
            clock: millis % DAY,
            zone,
        }
    }

    /// Appends it as an instant: what says no clock is taken to be of UTC by a replay.
    pub fn write(&self, out: &mut Vec<u8>) -> Result<(), AllocError> {
        write_two(self.year / 100, out)?;
        write_two(self.year, out)?;
        write_byte(b'-', out)?;
        write_two(self.month, out)?;
        write_byte(b'-', out)?;
        write_two(self.day, out)?;
        write_byte(b'T', out)?;
        write_clock(self.clock, out)?;
        match self.zone {
            Zone::Local => Ok(()),
            Zone::Utc => write_byte(b'Z', out),
            Zone::East(minutes) => write_offset(b'+', minutes, out),
            Zone::West(minutes) => write_offset(b'-', minutes, out),
        }
    }
}

/// Appends the last digit of a number.
fn write_digit(number: u64, out: &mut Vec<u8>) -> Result<(), AllocError> {
    write_byte(b'0'.saturating_add((number % 10) as u8), out)
}

/// Appends the last two digits of a number.
fn write_two(number: u64, out: &mut Vec<u8>) -> Result<(), AllocError> {
    write_digit(number / 10, out)?;
    write_digit(number, out)
}

/// Appends a time of the day.
fn write_clock(clock: u64, out: &mut Vec<u8>) -> Result<(), AllocError> {
    write_two(clock / 3_600_000, out)?;
    write_byte(b':', out)?;
    write_two(clock / 60_000 % 60, out)?;
    write_byte(b':', out)?;
    write_two(clock / 1000 % 60, out)?;
    write_byte(b'.', out)?;
    write_digit(clock / 100, out)?;
    write_two(clock, out)
}

/// Appends how far a clock is from UTC.
fn write_offset(sign: u8, minutes: u64, out: &mut Vec<u8>) -> Result<(), AllocError> {
    write_byte(sign, out)?;
    write_two(minutes / 60, out)?;
    write_byte(b':', out)?;
    write_two(minutes % 60, out)
}

/// The number that so many digits say at a place.
fn number_at(text: &[u8], place: usize, count: usize) -> Option<u64> {
    let mut number: u64 = 0;
    for at in place..place.saturating_add(count) {
        let byte = byte_of(text, at);
        if !byte.is_ascii_digit() {
            return None;
        }
        number = number
            .saturating_mul(10)
            .saturating_add(u64::from(byte.saturating_sub(b'0')));
    }
    Some(number)
}

/// The number that so many digits say at a place, up to a most.
fn number_up_to(text: &[u8], place: usize, count: usize, most: u64) -> Option<u64> {
    let number = number_at(text, place, count)?;
    if number <= most { Some(number) } else { None }
}

/// The place behind digits.
fn behind_digits(text: &[u8], from: usize) -> usize {
    for place in from..text.len() {
        if !byte_of(text, place).is_ascii_digit() {
            return place;
        }
    }
    text.len()
}

/// The thousandths that the digit at this place says, of which each is worth so many.
fn thousandths(text: &[u8], place: usize, worth: u64) -> u64 {
    match number_at(text, place, 1) {
        Some(digit) => digit.saturating_mul(worth),
        None => 0,
    }
}

/// The milliseconds of a day of a time as `20:49:00.125` at a place, also with a comma or without a fraction; and the place behind it.
pub fn read_clock(text: &[u8], place: usize) -> Option<(u64, usize)> {
    let hours = number_up_to(text, place, 2, 23)?;
    let minutes = number_up_to(text, place.saturating_add(3), 2, 59)?;
    let seconds = number_up_to(text, place.saturating_add(6), 2, 59)?;
    let has_colons = is_at(text, place.saturating_add(2), b":")
        && is_at(text, place.saturating_add(5), b":");
    if !has_colons {
        return None;
    }
    let whole = hours
        .saturating_mul(3600)
        .saturating_add(minutes.saturating_mul(60))
        .saturating_add(seconds)
        .saturating_mul(1000);
    let point = place.saturating_add(8);
    if !matches!(byte_of(text, point), b'.' | b',') {
        return Some((whole, point));
    }
    let first = point.saturating_add(1);
    let end = behind_digits(text, first);
    let mut part = thousandths(text, first, 100);
    if end > first.saturating_add(1) {
        part = part.saturating_add(thousandths(text, first.saturating_add(1), 10));
    }
    if end > first.saturating_add(2) {
        part = part.saturating_add(thousandths(text, first.saturating_add(2), 1));
    }
    Some((whole.saturating_add(part), end))
}

/// How far a clock is from UTC, as `Z`, `+01:00` or `+0100` say at a place, or nothing; and the place behind it.
fn read_zone(text: &[u8], place: usize) -> (Zone, usize) {
    let first = place.saturating_add(1);
    if byte_of(text, place) == b'Z' {
        return (Zone::Utc, first);
    }
    let is_west = byte_of(text, place) == b'-';
    if !is_west && byte_of(text, place) != b'+' {
        return (Zone::Local, place);
    }
    let has_colon = is_at(text, first.saturating_add(2), b":");
    let behind = if has_colon { 3 } else { 2 };
    let second = first.saturating_add(behind);
    let Some(hours) = number_up_to(text, first, 2, 23) else {
        return (Zone::Local, place);
    };
    let Some(minutes) = number_up_to(text, second, 2, 59) else {
        return (Zone::Local, place);
    };
    let offset = hours.saturating_mul(60).saturating_add(minutes);
    let zone = if is_west {
        Zone::West(offset)
    } else {
        Zone::East(offset)
    };
    (zone, second.saturating_add(2))
}

/// The midnight with which a date begins, if there is such a date.
fn date_of(year: u64, month: u64, day: u64) -> Option<Moment> {
    if year < 1970 || month == 0 || month > 12 || day == 0 {
        return None;
    }
    let date = Moment {
        year,
        month,
        day,
        clock: 0,
        zone: Zone::Local,
    };
    // A day that the month lacks would be one of the next.
    if Moment::at(date.millis(), Zone::Local).month == month {
        Some(date)
    } else {
        None
    }
}

/// A date as `2026-11-26` at a place, which begins there at midnight.
fn read_date(text: &[u8], place: usize) -> Option<Moment> {
    let year = number_at(text, place, 4)?;
    let month = number_up_to(text, place.saturating_add(5), 2, 12)?;
    let day = number_up_to(text, place.saturating_add(8), 2, 31)?;
    let has_lines = is_at(text, place.saturating_add(4), b"-")
        && is_at(text, place.saturating_add(7), b"-");
    if has_lines {
        date_of(year, month, day)
    } else {
        None
    }
}

/// A date and a time of the day as `2026-11-26T20:49:00.125Z` at a place, also with a space for the T; and the place behind them.
pub fn read_moment(text: &[u8], place: usize) -> Option<(Moment, usize)> {
    let date = read_date(text, place)?;
    let between = place.saturating_add(10);
    if !matches!(byte_of(text, between), b'T' | b' ') {
        return None;
    }
    let (clock, end) = read_clock(text, between.saturating_add(1))?;
    let (zone, behind) = read_zone(text, end);
    Some((
        Moment {
            clock,
            zone,
            ..date
        },
        behind,
    ))
}

/// The first letters of the months.
const MONTHS: &[u8] = b"JanFebMarAprMayJunJulAugSepOctNovDec";

/// The number of the month of these letters.
fn month_of(letters: &[u8]) -> Option<u64> {
    for month in 0..12u64 {
        let place = (month as usize).saturating_mul(3);
        if is_text(
            MONTHS.get(place..place.saturating_add(3)).unwrap_or(b""),
            letters,
        ) {
            return Some(month.saturating_add(1));
        }
    }
    None
}

/// The year of a day that is told without one: it has a 29th of February.
const NO_YEAR: u64 = 1972;

/// A day and a time of the day as `Nov 26 20:49:00` at a place, where a space may stand for the first digit of the day.
pub fn read_stamp(text: &[u8], place: usize) -> Option<Moment> {
    let day = place.saturating_add(4);
    let month = month_of(text.get(place..place.saturating_add(3)).unwrap_or(b""))?;
    let number = if byte_of(text, day) == b' ' {
        number_at(text, day.saturating_add(1), 1)?
    } else {
        number_up_to(text, day, 2, 31)?
    };
    let (clock, _) = read_clock(text, place.saturating_add(7))?;
    let date = date_of(NO_YEAR, month, number)?;
    Some(Moment { clock, ..date })
}

/// A date and a time of the day as `26-Nov-2026::20:49:00.125000` at a place. The day has one digit or two.
pub fn read_report_moment(text: &[u8], place: usize) -> Option<Moment> {
    let line = behind_digits(text, place);
    let day = number_up_to(text, place, line.saturating_sub(place), 31)?;
    let letters = line.saturating_add(1);
    let behind = letters.saturating_add(3);
    let month = month_of(text.get(letters..behind).unwrap_or(b""))?;
    let year = number_at(text, behind.saturating_add(1), 4)?;
    if !is_at(text, behind.saturating_add(5), b"::") {
        return None;
    }
    let (clock, _) = read_clock(text, behind.saturating_add(7))?;
    let date = date_of(year, month, day)?;
    Some(Moment { clock, ..date })
}
