//! Times and offsets: of AT and UNTIL, of SAVE and amounts in RULES.

ghost use Rattle.std.specs.Prelude.{◌≡◌, ◌+◌, ◌*◌, ◌^◌, ◌<◌, ◌≤◌, IfSome, Some, length, option_map};
ghost use Rattle.zic_base.specs.Number.{number};
ghost use Rattle.zic_lines.specs.WordLaws.{IsNearestSecond};
ghost use Rattle.zic_lines.specs.Time.{sixtieths, decimals, seconds_of, magnitude, whole_seconds, signed_seconds, offset_of, IsWithin};
ghost use Rattle.zic_lines.specs.Saving.{daylight_suffix, saving_of};

use crate::word::{is_dash, split_at_most_once, split_once};
use std::cmp::Ordering;

/// The greatest number of digits of years, hours and decimals of a second.
pub const MAX_DIGITS: usize = 9;

/// The greatest STDOFF, SAVE and amount in RULES either way, in seconds: 24 hours.
pub const GREATEST_OFFSET: u32 = 86_400;

/// The billionths of a second.
const BILLION: u32 = 1_000_000_000;

/// A time without its sign.
#[derive(Clone, Copy, Debug)]
struct Time {
    seconds: u64,
    /// The fraction of a second, in billionths, below a billion.
    billionths: u32,
}

/// Returns the number that the text spells in decimal digits, from one to `most` of them.
#[tactic(auto, unfolding(zic_base::specs::Number::number))]
pub(crate) fn number(most: usize, text: &[u8]) -> Option<u32>
    requires { most ≤ MAX_DIGITS }
    ensures value { result ≡ number most text.now }
    ensures digits { IfSome result (λ n. n < 10 ^ length text.now) }
    ensures length { IfSome result (λ _. length text.now ≤ most) }
{
    if text.is_empty() || text.len() > most {
        return None;
    }
    let mut n = 0;
    for byte in text {
        if !byte.is_ascii_digit() {
            return None;
        }
        n = 10 * n + u32::from(*byte - b'0');
    }
    Some(n)
}

/// Returns minutes or seconds, 0 to 59, from one or two digits.
#[tactic(auto, unfolding(crate::specs::Time::sixtieths))]
fn sixtieths(text: &[u8]) -> Option<u64>
    ensures value { result ≡ sixtieths text.now }
    ensures fits { IfSome result (λ n. n < 60) }
{
    let n = number(2, text)?;
    if n < 60 { Some(u64::from(n)) } else { None }
}

/// Returns the billionths that one to nine decimals of a second name.
#[tactic(auto, unfolding(crate::specs::Time::decimals))]
fn decimals(text: &[u8]) -> Option<u32>
    ensures value { result ≡ decimals (Some text.now) }
    ensures fits { IfSome result (λ n. n < 10 ^ 9) }
{
    let n = number(MAX_DIGITS, text)?;
    Some(n * 10u32.pow((MAX_DIGITS - text.len()) as u32))
}

/// Returns a time of seconds below 60, with decimals where there is a point.
#[tactic(auto, unfolding(crate::specs::Time::seconds_of, crate::specs::Time::decimals))]
fn seconds(text: &[u8]) -> Option<Time>
    ensures value { option_map (λ time. 10 ^ 9 * time.seconds + time.billionths) result
        ≡ seconds_of text.now }
    ensures seconds { IfSome result (λ time. time.seconds < 60) }
    ensures billionths { IfSome result (λ time. time.billionths < 10 ^ 9) }
{
    let (whole, fraction) = split_at_most_once(text, b'.')?;
    let seconds = sixtieths(whole)?;
    let billionths = match fraction {
        Some(fraction) => decimals(fraction)?,
        None => 0,
    };
    Some(Time {
        seconds,
        billionths,
    })
}

/// Returns a time without a sign, of hours, of hours and minutes, or of hours, minutes and seconds.
#[tactic(auto, unfolding(crate::specs::Time::magnitude, crate::specs::Parts::split_at_most_once))]
fn magnitude(text: &[u8]) -> Option<Time>
    ensures value { option_map (λ time. 10 ^ 9 * time.seconds + time.billionths) result
        ≡ magnitude text.now }
    ensures seconds { IfSome result (λ time. time.seconds < 10 ^ 13) }
    ensures billionths { IfSome result (λ time. time.billionths < 10 ^ 9) }
{
    let (hours, rest) = split_once(text, b':');
    let hours = 3600 * u64::from(number(MAX_DIGITS, hours)?);
    let Some(rest) = rest else {
        return Some(Time {
            seconds: hours,
            billionths: 0,
        });
    };
    let (minutes, rest) = split_at_most_once(rest, b':')?;
    let whole = hours + 60 * sixtieths(minutes)?;
    let Some(rest) = rest else {
        return Some(Time {
            seconds: whole,
            billionths: 0,
        });
    };
    let rest = seconds(rest)?;
    Some(Time {
        seconds: whole + rest.seconds,
        billionths: rest.billionths,
    })
}

/// Returns the whole second nearest to a time; of two equally near, the even one.
fn nearest_second(time: Time) -> u64
    requires seconds { time.seconds < 10 ^ 13 }
    requires billionths { time.billionths < 10 ^ 9 }
    ensures { IsNearestSecond (10 ^ 9 * time.seconds + time.billionths) result }
{
    let whole = time.seconds;
    match (2 * time.billionths).cmp(&BILLION) {
        Ordering::Less => whole,
        Ordering::Equal => whole + whole % 2,
        Ordering::Greater => whole + 1,
    }
}

/// Returns a time without a sign in whole seconds, if it is within the limit.
#[tactic(auto, using(crate::proofs::Seconds::nearest_is), unfolding(crate::specs::Time::whole_seconds))]
fn whole_seconds(limit: u32, text: &[u8]) -> Option<u32>
    ensures value { result ≡ whole_seconds limit text.now }
    ensures fits { IfSome result (λ s. s ≤ limit) }
{
    let time = magnitude(text)?;
    let seconds = nearest_second(time);
    if seconds <= u64::from(limit) {
        Some(seconds as u32)
    } else {
        None
    }
}

/// Returns a time in whole seconds, negated after a `-`, if it is within the limit either way.
#[tactic(auto, unfolding(crate::specs::Time::signed_seconds))]
pub(crate) fn signed_seconds(limit: u32, text: &[u8]) -> Option<i32>
    requires { limit < 2 ^ 31 }
    ensures value { result ≡ signed_seconds limit text.now }
    ensures within { IfSome result (λ s. IsWithin limit s) }
{
    match text {
        [b'-', text @ ..] => {
            let seconds = whole_seconds(limit, text)?;
            Some(-(seconds as i32))
        }
        _ => {
            let seconds = whole_seconds(limit, text)?;
            Some(seconds as i32)
        }
    }
}

/// Returns the offset that an STDOFF field names, in seconds, positive east, within 24 hours either
/// way; `None` where it names none (zic(8), STDOFF).
#[tactic(auto, unfolding(crate::specs::Time::offset_of))]
pub fn offset(field: &[u8]) -> Option<i32>
    ensures value { result ≡ offset_of field.now }
    ensures within { IfSome result (λ s. IsWithin GREATEST_OFFSET s) }
{
    if is_dash(field) {
        return Some(0);
    }
    signed_seconds(GREATEST_OFFSET, field)
}

/// The amount that is added to standard time.
#[derive(Clone, Copy, Debug, PartialEq, Eq)]
pub struct Saving {
    /// Within 24:00:00 either way.
    pub seconds: i32,
    /// Whether this is daylight saving time.
    pub daylight: bool,
}

/// Returns whether a suffix names daylight saving time, if it is one.
fn daylight_suffix(byte: u8) -> Option<bool>
    ensures { result ≡ daylight_suffix byte }
{
    match byte {
        b's' | b'S' => Some(false),
        b'd' | b'D' => Some(true),
        _ => None,
    }
}

/// Returns the saving that a SAVE field names, within 24 hours either way; `None` where it names
/// none (zic(8), SAVE).
#[tactic(auto, unfolding(crate::specs::Saving::saving_of))]
pub fn save(field: &[u8]) -> Option<Saving>
    ensures value { result ≡ saving_of field.now }
    ensures within { IfSome result (λ saving. IsWithin GREATEST_OFFSET saving.seconds) }
{
    if is_dash(field) {
        return Some(Saving {
            seconds: 0,
            daylight: false,
        });
    }
    match field {
        [text @ .., last] => match daylight_suffix(*last) {
            Some(daylight) => {
                let seconds = signed_seconds(GREATEST_OFFSET, text)?;
                Some(Saving { seconds, daylight })
            }
            None => {
                let seconds = signed_seconds(GREATEST_OFFSET, field)?;
                let daylight = seconds != 0;
                Some(Saving { seconds, daylight })
            }
        },
        [] => None,
    }
}
