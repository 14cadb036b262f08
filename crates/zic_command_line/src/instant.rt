//! The words for an instant and for a local time.

ghost use Rattle.std.specs.Prelude.{◌≡◌, ◌↔◌, IsSome, IfSome};
ghost use Rattle.std.specs.Str.Parse.{signed_digits_value};
ghost use Rattle.zic_command_line.specs.Instant.{IsInstant};

use crate::no_request::{NoRequest, bad_value};
use std::alloc::Global;
use zic_layouts::Unit;
use zic_local::LocalTime;
use zic_row_text::parse_local_time;

/// The length of a date in bytes.
const DATE: usize = 10;

/// Why a word is refused at a place for a date or an instant.
const NO_DATE: &str =
    "neither a date, as 2026-11-29, nor a whole number of seconds from -9223372036854775808 to 9223372036854775807";

/// Returns the instant that a word says, in seconds from 1970-01-01T00:00:00 UT without leap
/// seconds, or `None` where the word isn't an optional `-` and digits, within `i64`. A `+` is
/// refused.
pub fn parse_instant_word(text: &str) -> Option<i64>
    ensures just { IsSome result ↔ IsInstant text.now }
    ensures value { IfSome result (λ instant. instant ≡ signed_digits_value 10 text.now) }
{
    if text.starts_with('+') {
        return None;
    }
    text.parse::<i64>().ok()
}

/// Returns the local time that a word says, a date and a time of day of the years 1 to 9999, or `None`
/// where it says none.
pub(crate) fn parse_local_word(text: &str) -> Option<LocalTime> {
    let seconds = parse_local_time(text.as_bytes(), Unit::Second)?;
    LocalTime::new(i64::try_from(seconds).ok()?)
}

/// Returns the instant that the word says at a place for one.
pub(crate) fn instant_of(alloc: Global, word: &str, place: &str) -> Result<i64, NoRequest> {
    match parse_instant_word(word) {
        Some(instant) => Ok(instant),
        None => Err(no_seconds(alloc, word, place)),
    }
}

/// Returns the instant that the word says at a place for a date or an instant: of a date, as
/// `2026-11-29`, the start in UT.
pub(crate) fn date_or_instant(alloc: Global, word: &str, place: &str) -> Result<i64, NoRequest> {
    match parse_date_word(word) {
        Some(start) => Ok(start),
        None => match parse_instant_word(word) {
            Some(instant) => Ok(instant),
            None => Err(bad_value(alloc, word, place, NO_DATE)),
        },
    }
}

/// Returns the start in UT of the date that a word says, of the years 1 to 9999, or `None` where it says
/// none.
pub(crate) fn parse_date_word(text: &str) -> Option<i64> {
    let date = text.as_bytes();
    if date.len() != DATE {
        return None;
    }
    let mut midnight = *b"0000-00-00T00:00:00";
    midnight[..DATE].copy_from_slice(date);
    let seconds = parse_local_time(&midnight, Unit::Second)?;
    i64::try_from(seconds).ok()
}

/// Returns the refusal of a word that is no number of seconds, at the place for one. A date is told how to
/// become one.
fn no_seconds(alloc: Global, word: &str, place: &str) -> NoRequest {
    let why = if is_date(word) {
        "not a whole number of seconds, as 'date -d 2026-11-29 +%s' prints them"
    } else {
        "not a whole number of seconds from -9223372036854775808 to 9223372036854775807"
    };
    bad_value(alloc, word, place, why)
}

/// Returns whether a word has a hyphen or a colon after a digit, as dates and times have.
fn is_date(word: &str) -> bool {
    let digits = word.trim_start_matches(|c: char| c.is_ascii_digit());
    digits.len() < word.len() && (digits.starts_with('-') || digits.starts_with(':'))
}
