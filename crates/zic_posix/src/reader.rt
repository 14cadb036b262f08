//! The parts of a POSIX TZ string. Each function returns the part at the start of a text and the
//! text after it.

ghost use Rattle.std.specs.Prelude.{◌≡◌, ◌+◌, ◌*◌, ◌<◌, ◌≤◌, IfSome, unsigned_abs};
ghost use Rattle.zic_posix.specs.code.Reading.{Reads, sign_at, part_at, clock_at, signed_at, offset_at, plain_time_at, time_at, digit_at, weekday_at, julian_at, numbered_at, day_at, edge_time_at, edge_at, next_edge_at, daylight_offset_at, daylight_at, string_of};
ghost use Rattle.zic_posix.specs.code.Text.{daylight, string};

use crate::footer::{
    DayRule, Edge, LAST_DAY, MAX_HOURS, MAX_MINUTES_OR_SECONDS, MAX_WIDE_HOURS, USUAL_SAVING,
    USUAL_TIME,
};
use crate::word::{after, name_at, number_at};

/// A string whose names lie in its text.
#[derive(Drop)]
pub(crate) struct TzText<'a> {
    pub(crate) std: &'a [u8],
    pub(crate) offset: i32,
    pub(crate) dst: Option<DstText<'a>>,
}

/// A daylight part whose name lies in its text.
#[derive(Drop)]
pub(crate) struct DstText<'a> {
    pub(crate) name: &'a [u8],
    pub(crate) offset: i32,
    pub(crate) start: Edge,
    pub(crate) stop: Edge,
}

/// Returns the string that is all of a text of TZif version 2 or 3.
#[tactic(auto, unfolding(crate::specs::code::Reading::string_of))]
pub(crate) fn string_of(version: u8, text: &[u8]) -> Option<TzText<'_>>
    ensures { Reads string result (string_of version text.now) }
{
    let (std, rest) = name_at(text)?;
    let (offset, rest) = offset_at(rest)?;
    if rest.is_empty() {
        return Some(TzText {
            std,
            offset,
            dst: None,
        });
    }
    let (dst, rest) = daylight_at(version, offset, rest)?;
    rest.is_empty().then_some(TzText {
        std,
        offset,
        dst: Some(dst),
    })
}

/// Reads a daylight part beside standard time of this offset.
#[tactic(auto, unfolding(crate::specs::code::Reading::daylight_at))]
fn daylight_at(version: u8, standard: i32, text: &[u8]) -> Option<(DstText<'_>, &[u8])>
    requires { unsigned_abs standard < (MAX_HOURS + 1) * 3600 }
    ensures { Reads (λ x. (daylight x.0, x.1.now)) result (daylight_at version standard text.now) }
{
    let (name, rest) = name_at(text)?;
    let (offset, rest) = daylight_offset_at(standard, rest)?;
    let (start, rest) = next_edge_at(version, rest)?;
    let (stop, rest) = next_edge_at(version, rest)?;
    Some((
        DstText {
            name,
            offset,
            start,
            stop,
        },
        rest,
    ))
}

/// Reads the offset of daylight saving time. Before a comma stands none, for one hour ahead of
/// standard time.
#[tactic(auto, unfolding(crate::specs::code::Reading::daylight_offset_at))]
fn daylight_offset_at(standard: i32, text: &[u8]) -> Option<(i32, &[u8])>
    requires { unsigned_abs standard < (MAX_HOURS + 1) * 3600 }
    ensures { Reads (λ x. (x.0, x.1.now)) result (daylight_offset_at standard text.now) }
{
    match text {
        [b',', ..] => Some((standard + USUAL_SAVING, text)),
        _ => offset_at(text),
    }
}

/// Reads an edge after a comma.
#[tactic(auto, unfolding(crate::specs::code::Reading::next_edge_at))]
fn next_edge_at(version: u8, text: &[u8]) -> Option<(Edge, &[u8])>
    ensures { Reads (λ x. (x.0, x.1.now)) result (next_edge_at version text.now) }
{
    edge_at(version, after(b',', text)?)
}

/// Reads a start or stop of daylight saving time.
#[tactic(auto, unfolding(crate::specs::code::Reading::edge_at))]
fn edge_at(version: u8, text: &[u8]) -> Option<(Edge, &[u8])>
    ensures { Reads (λ x. (x.0, x.1.now)) result (edge_at version text.now) }
{
    let (day, rest) = day_at(text)?;
    let (time, rest) = edge_time_at(version, rest)?;
    Some((Edge { day, time }, rest))
}

#[tactic(auto, unfolding(crate::specs::code::Reading::day_at))]
fn day_at(text: &[u8]) -> Option<(DayRule, &[u8])>
    ensures { Reads (λ x. (x.0, x.1.now)) result (day_at text.now) }
{
    match text {
        [] => None,
        [b'J', rest @ ..] => julian_at(rest),
        [b'M', rest @ ..] => weekday_at(rest),
        _ => numbered_at(text),
    }
}

/// Reads a day counted without February 29, whose `J` has been read.
#[tactic(auto, unfolding(crate::specs::code::Reading::julian_at))]
fn julian_at(text: &[u8]) -> Option<(DayRule, &[u8])>
    ensures { Reads (λ x. (x.0, x.1.now)) result (julian_at text.now) }
{
    let (day, rest) = number_at(3, 1, LAST_DAY, text)?;
    Some((DayRule::J(day), rest))
}

/// Reads a day counted with February 29.
#[tactic(auto, unfolding(crate::specs::code::Reading::numbered_at))]
fn numbered_at(text: &[u8]) -> Option<(DayRule, &[u8])>
    ensures { Reads (λ x. (x.0, x.1.now)) result (numbered_at text.now) }
{
    let (day, rest) = number_at(3, 0, LAST_DAY, text)?;
    Some((DayRule::N(day), rest))
}

/// Reads a weekday of a month, whose `M` has been read.
#[tactic(auto, unfolding(crate::specs::code::Reading::weekday_at))]
fn weekday_at(text: &[u8]) -> Option<(DayRule, &[u8])>
    ensures { Reads (λ x. (x.0, x.1.now)) result (weekday_at text.now) }
{
    let (month, rest) = number_at(2, 1, 12, text)?;
    let (week, rest) = digit_at(1, 5, rest)?;
    let (weekday, rest) = digit_at(0, 6, rest)?;
    let day = DayRule::M {
        month: month as u8,
        week: week as u8,
        weekday: weekday as u8,
    };
    Some((day, rest))
}

/// Reads a number of one digit after a dot.
#[tactic(auto, unfolding(crate::specs::code::Reading::digit_at))]
fn digit_at(least: u16, most: u16, text: &[u8]) -> Option<(u16, &[u8])>
    ensures digit { Reads (λ x. (x.0, x.1.now)) result (digit_at least most text.now) }
    ensures limit { IfSome result (λ x. x.0 ≤ most) }
{
    number_at(1, least, most, after(b'.', text)?)
}

/// Reads the time of an edge after a `/`, or 02:00:00 where there is no `/`.
#[tactic(auto, unfolding(crate::specs::code::Reading::edge_time_at))]
fn edge_time_at(version: u8, text: &[u8]) -> Option<(i32, &[u8])>
    ensures { Reads (λ x. (x.0, x.1.now)) result (edge_time_at version text.now) }
{
    match text {
        [b'/', rest @ ..] => time_at(version, rest),
        _ => Some((USUAL_TIME, text)),
    }
}

/// Reads the time of an edge in seconds. In version 3 it may have a sign and up to 167 hours.
#[tactic(auto, unfolding(crate::specs::code::Reading::time_at))]
fn time_at(version: u8, text: &[u8]) -> Option<(i32, &[u8])>
    ensures { Reads (λ x. (x.0, x.1.now)) result (time_at version text.now) }
{
    if version == 2 {
        return plain_time_at(text);
    }
    signed_at(3, MAX_WIDE_HOURS, text)
}

#[tactic(auto, unfolding(crate::specs::code::Reading::plain_time_at))]
fn plain_time_at(text: &[u8]) -> Option<(i32, &[u8])>
    ensures { Reads (λ x. (x.0, x.1.now)) result (plain_time_at text.now) }
{
    let (size, rest) = clock_at(2, MAX_HOURS, text)?;
    Some((size as i32, rest))
}

/// Reads a UT offset in seconds, positive east, of which a text counts west.
#[tactic(auto, unfolding(crate::specs::code::Reading::offset_at))]
fn offset_at(text: &[u8]) -> Option<(i32, &[u8])>
    ensures offset { Reads (λ x. (x.0, x.1.now)) result (offset_at text.now) }
    ensures limit { IfSome result (λ x. unsigned_abs x.0 < (MAX_HOURS + 1) * 3600) }
{
    let (west, rest) = signed_at(2, MAX_HOURS, text)?;
    Some((-west, rest))
}

/// Reads hours, minutes and seconds with a sign or none, as seconds.
#[tactic(auto, unfolding(crate::specs::code::Reading::signed_at))]
fn signed_at(longest: usize, most: u8, text: &[u8]) -> Option<(i32, &[u8])>
    requires { longest ≤ 3 }
    ensures signed { Reads (λ x. (x.0, x.1.now)) result (signed_at longest most text.now) }
    ensures limit { IfSome result (λ x. unsigned_abs x.0 < (most + 1) * 3600) }
{
    let (is_negative, clock) = sign_at(text);
    let (size, rest) = clock_at(longest, most, clock)?;
    let size = size as i32;
    Some((if is_negative { -size } else { size }, rest))
}

/// Returns whether a `-` stands at the start, and the text after a sign.
#[tactic(auto, unfolding(crate::specs::code::Reading::sign_at))]
fn sign_at(text: &[u8]) -> (bool, &[u8])
    ensures { let (is_negative, rest) = sign_at text.now in
        (result.0 ≡ is_negative) × (result.1.now ≡ rest) }
{
    match text {
        [b'-', clock @ ..] => (true, clock),
        [b'+', clock @ ..] => (false, clock),
        _ => (false, text),
    }
}

/// Reads hours up to `most`, minutes and seconds, as seconds.
#[tactic(auto, unfolding(crate::specs::code::Reading::clock_at))]
fn clock_at(longest: usize, most: u8, text: &[u8]) -> Option<(u32, &[u8])>
    requires { longest ≤ 3 }
    ensures clock { Reads (λ x. (x.0, x.1.now)) result (clock_at longest most text.now) }
    ensures limit { IfSome result (λ x. x.0 < (most + 1) * 3600) }
{
    let (hours, rest) = number_at(longest, 0, u16::from(most), text)?;
    let (minutes, rest) = part_at(rest)?;
    let (seconds, rest) = part_at(rest)?;
    let all = u32::from(hours) * 3600 + u32::from(minutes) * 60 + u32::from(seconds);
    Some((all, rest))
}

/// Reads minutes or seconds after a colon, or 0 where there is no colon.
#[tactic(auto, unfolding(crate::specs::code::Reading::part_at))]
fn part_at(text: &[u8]) -> Option<(u16, &[u8])>
    ensures part { Reads (λ x. (x.0, x.1.now)) result (part_at text.now) }
    ensures limit { IfSome result (λ x. x.0 ≤ MAX_MINUTES_OR_SECONDS) }
{
    match text {
        [b':', rest @ ..] => number_at(2, 0, u16::from(MAX_MINUTES_OR_SECONDS), rest),
        _ => Some((0, text)),
    }
}
