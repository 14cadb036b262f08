//! The words for when something is due: a time of day, days of the week, and what is taken for gaps and folds.

ghost use Rattle.std.specs.Prelude.{◌≤◌, IfSome};

use crate::no_request::{NoRequest, bad_value, usage};
use crate::values::given;
use clap::ArgMatches;
use std::alloc::Global;
use zic_local::{Policy, Schedule, TimeOfDay, Weekdays};

/// The names of the days of the week, from Monday on.
const DAYS: [&str; 7] = ["mon", "tue", "wed", "thu", "fri", "sat", "sun"];

/// The days of the week from Monday up to each, as bits.
const UP_TO: [u8; 7] = [1, 3, 7, 15, 31, 63, 127];

/// Returns when it is that clocks show the time of day which a word says, by the other words.
pub(crate) fn schedule(
    alloc: Global,
    matches: &ArgMatches<'_>,
    word: &str,
) -> Result<Schedule, NoRequest> {
    let Some(time) = parse_time_word(word) else {
        let why = "not a time of day as 02:30 or 02:30:00";
        return Err(bad_value(alloc, word, "--next <TIME>", why));
    };
    let days = given(alloc, matches, "weekdays")?;
    let Some(weekdays) = parse_days_word(days) else {
        let why = "neither all nor days as mon,wed or mon-fri";
        return Err(bad_value(alloc, days, "--weekdays <LIST>", why));
    };
    let policy = policy(alloc, matches)?;
    Ok(Schedule {
        time,
        weekdays,
        policy,
    })
}

/// Returns what is taken for times in gaps and in folds: by default what RFC 5545, 3.3.5, takes.
fn policy(alloc: Global, matches: &ArgMatches<'_>) -> Result<Policy, NoRequest> {
    match matches.get_str("disambiguation") {
        None | Some("compatible") => Ok(Policy::Compatible),
        Some("earlier") => Ok(Policy::Earlier),
        Some("later") => Ok(Policy::Later),
        Some("skip") => Ok(Policy::Skip),
        Some(_) => Err(usage(
            alloc,
            "--disambiguation is compatible, earlier, later or skip",
        )),
    }
}

/// Returns the time of day that a word says, as `02:30` or `02:30:00`, or `None` where it says none.
fn parse_time_word(word: &str) -> Option<TimeOfDay> {
    let (hour, rest) = word.split_once(':')?;
    let (minute, second) = rest.split_once(':').unwrap_or((rest, "00"));
    let hour = two_digits(hour, 23)?;
    let minute = two_digits(minute, 59)?;
    let second = two_digits(second, 59)?;
    TimeOfDay::new(3_600 * hour + 60 * minute + second)
}

/// Returns the number that two digits say, or `None` where a word isn't two digits, or its number is above
/// the greatest one.
fn two_digits(word: &str, most: u32) -> Option<u32>
    ensures { IfSome result (λ number. number ≤ most) }
{
    let [tens, ones] = word.as_bytes() else {
        return None;
    };
    let tens = char::from(*tens).to_digit(10)?;
    let ones = char::from(*ones).to_digit(10)?;
    let number = 10 * tens + ones;
    if number <= most { Some(number) } else { None }
}

/// Returns the days of the week that a word says: `all`, or days and ranges of days with commas between
/// them, as `mon,wed` or `mon-fri,sun`. Returns `None` where it says none.
fn parse_days_word(word: &str) -> Option<Weekdays> {
    if word == "all" {
        return Weekdays::new(127);
    }
    let mut bits = 0;
    for part in word.as_bytes().split(|byte| *byte == b',') {
        bits |= days_in(part)?;
    }
    Weekdays::new(bits)
}

/// Returns the days of the week of one name, or from one to another, as bits.
fn days_in(part: &[u8]) -> Option<u8> {
    match part {
        [a, b, c, b'-', d, e, f] => days_between(day_of(&[*a, *b, *c])?, day_of(&[*d, *e, *f])?),
        name => {
            let day = day_of(name)?;
            days_between(day, day)
        }
    }
}

/// Returns the day of the week of a name, from 0 for Monday.
fn day_of(name: &[u8]) -> Option<usize> {
    DAYS.iter().position(|day| day.as_bytes() == name)
}

/// Returns the days of the week from one to another, as bits, or `None` where the first is after the last.
fn days_between(first: usize, last: usize) -> Option<u8> {
    let up_to_first = *UP_TO.get(first)?;
    let up_to_last = *UP_TO.get(last)?;
    if first <= last {
        Some(up_to_last & !(up_to_first >> 1))
    } else {
        None
    }
}
