//! The date of rows of one day. Years begin on 1 March here, so that a leap day comes last.

ghost use Rattle.std.specs.Prelude.{◌≡◌, ◌+◌, ◌<◌, take, ◌≤◌, ◌++◌, length};
ghost use Rattle.jiff_core.specs.March.{march_days};
ghost use Rattle.zic_row_text.specs.code.March.{march_text};
ghost use Rattle.zic_row_text.specs.code.Cached.{cached_date};

use crate::count::DAYS;
use crate::digits::digit_pair;
use crate::store::put_8;
use std::simd::prelude::*;

/// The days from 1 March to 1 January.
pub(crate) const DAYS_TO_JANUARY: u32 = 306;

/// The month and the day of the month of each day of a year from 1 March on, in eight bytes each.
static DAY_TEXTS: [u8; 2928] = *b"\
    -03-01T -03-02T -03-03T -03-04T -03-05T -03-06T -03-07T -03-08T -03-09T -03-10T -03-11T -03-12T -03-13T -03-14T -03-15T -03-16T -03-17T -03-18T -03-19T -03-20T -03-21T -03-22T -03-23T -03-24T -03-25T -03-26T -03-27T -03-28T -03-29T -03-30T -03-31T \
    -04-01T -04-02T -04-03T -04-04T -04-05T -04-06T -04-07T -04-08T -04-09T -04-10T -04-11T -04-12T -04-13T -04-14T -04-15T -04-16T -04-17T -04-18T -04-19T -04-20T -04-21T -04-22T -04-23T -04-24T -04-25T -04-26T -04-27T -04-28T -04-29T -04-30T \
    -05-01T -05-02T -05-03T -05-04T -05-05T -05-06T -05-07T -05-08T -05-09T -05-10T -05-11T -05-12T -05-13T -05-14T -05-15T -05-16T -05-17T -05-18T -05-19T -05-20T -05-21T -05-22T -05-23T -05-24T -05-25T -05-26T -05-27T -05-28T -05-29T -05-30T -05-31T \
    -06-01T -06-02T -06-03T -06-04T -06-05T -06-06T -06-07T -06-08T -06-09T -06-10T -06-11T -06-12T -06-13T -06-14T -06-15T -06-16T -06-17T -06-18T -06-19T -06-20T -06-21T -06-22T -06-23T -06-24T -06-25T -06-26T -06-27T -06-28T -06-29T -06-30T \
    -07-01T -07-02T -07-03T -07-04T -07-05T -07-06T -07-07T -07-08T -07-09T -07-10T -07-11T -07-12T -07-13T -07-14T -07-15T -07-16T -07-17T -07-18T -07-19T -07-20T -07-21T -07-22T -07-23T -07-24T -07-25T -07-26T -07-27T -07-28T -07-29T -07-30T -07-31T \
    -08-01T -08-02T -08-03T -08-04T -08-05T -08-06T -08-07T -08-08T -08-09T -08-10T -08-11T -08-12T -08-13T -08-14T -08-15T -08-16T -08-17T -08-18T -08-19T -08-20T -08-21T -08-22T -08-23T -08-24T -08-25T -08-26T -08-27T -08-28T -08-29T -08-30T -08-31T \
    -09-01T -09-02T -09-03T -09-04T -09-05T -09-06T -09-07T -09-08T -09-09T -09-10T -09-11T -09-12T -09-13T -09-14T -09-15T -09-16T -09-17T -09-18T -09-19T -09-20T -09-21T -09-22T -09-23T -09-24T -09-25T -09-26T -09-27T -09-28T -09-29T -09-30T \
    -10-01T -10-02T -10-03T -10-04T -10-05T -10-06T -10-07T -10-08T -10-09T -10-10T -10-11T -10-12T -10-13T -10-14T -10-15T -10-16T -10-17T -10-18T -10-19T -10-20T -10-21T -10-22T -10-23T -10-24T -10-25T -10-26T -10-27T -10-28T -10-29T -10-30T -10-31T \
    -11-01T -11-02T -11-03T -11-04T -11-05T -11-06T -11-07T -11-08T -11-09T -11-10T -11-11T -11-12T -11-13T -11-14T -11-15T -11-16T -11-17T -11-18T -11-19T -11-20T -11-21T -11-22T -11-23T -11-24T -11-25T -11-26T -11-27T -11-28T -11-29T -11-30T \
    -12-01T -12-02T -12-03T -12-04T -12-05T -12-06T -12-07T -12-08T -12-09T -12-10T -12-11T -12-12T -12-13T -12-14T -12-15T -12-16T -12-17T -12-18T -12-19T -12-20T -12-21T -12-22T -12-23T -12-24T -12-25T -12-26T -12-27T -12-28T -12-29T -12-30T -12-31T \
    -01-01T -01-02T -01-03T -01-04T -01-05T -01-06T -01-07T -01-08T -01-09T -01-10T -01-11T -01-12T -01-13T -01-14T -01-15T -01-16T -01-17T -01-18T -01-19T -01-20T -01-21T -01-22T -01-23T -01-24T -01-25T -01-26T -01-27T -01-28T -01-29T -01-30T -01-31T \
    -02-01T -02-02T -02-03T -02-04T -02-05T -02-06T -02-07T -02-08T -02-09T -02-10T -02-11T -02-12T -02-13T -02-14T -02-15T -02-16T -02-17T -02-18T -02-19T -02-20T -02-21T -02-22T -02-23T -02-24T -02-25T -02-26T -02-27T -02-28T -02-29T ";

/// A day of a year that begins on 1 March.
#[derive(Clone, Copy, Drop)]
pub(crate) struct MarchDay {
    /// The year in which it begins.
    pub(crate) year: u32,
    /// The days from 1 March.
    pub(crate) day: u32,
}

/// Returns the day that is this many days after 0001-01-01.
#[inline(always)]
pub(crate) fn march_day(day: u32) -> MarchDay
    requires { day < DAYS }
    ensures value { march_days result.year + result.day ≡ day + DAYS_TO_JANUARY }
    ensures within { day + DAYS_TO_JANUARY < march_days (result.year + 1) }
    ensures bound { result.day < 366 }
{
    let scaled = 4 * (day + DAYS_TO_JANUARY) + 3;
    let century = scaled / 146_097;
    let in_century = scaled % 146_097 / 4 * 4 + 3;
    MarchDay {
        year: 100 * century + in_century / 1461,
        day: in_century % 1461 / 4,
    }
}

/// Returns a minus, the month, a minus, the day of the month and a `T`, in the first seven bytes.
#[inline(always)]
pub(crate) fn day_text(day: u32) -> [u8; 8]
    requires { day < 366 }
    ensures { take 7 result ≡ march_text day }
{
    u8x8::from_slice(&DAY_TEXTS[8 * day as usize..]).to_array()
}

/// The date of a day and a `T`, in two parts.
#[derive(Clone, Copy, Drop)]
struct DateText {
    /// The year, in the first four bytes.
    year: [u8; 8],
    /// The month, the day and the `T`, in the first seven bytes.
    day: [u8; 8],
}

/// The date of a day and a `T`, cached for rows of one day.
#[derive(Drop)]
pub(crate) struct CachedDate {
    /// This stands first, so that no part of it lies in two cache lines.
    text: DateText,
    /// The days from 0001-01-01.
    day: u32,
    ghost is_date: { take 4 text.year ++ take 7 text.day ≡ cached_date day },
}

impl CachedDate {
    /// Returns the date of a day.
    #[inline(always)]
    pub(crate) fn new(day: u32) -> CachedDate
        requires { day < DAYS }
        ensures { result.day ≡ day }
    {
        CachedDate {
            text: date_text(day),
            day,
        }
    }

    /// Sets the day. Its text is made only if it changes.
    #[inline(always)]
    pub(crate) fn turn_to(&mut self, day: u32)
        requires { day < DAYS }
        ensures { self.new.day ≡ day }
    {
        if self.day != day {
            self.set(day);
        }
    }

    /// Sets the day. Here the parts of the text are stored where they are read: a copy of both at
    /// once would wait for the two stores.
    #[inline(never)]
    fn set(&mut self, day: u32)
        requires { day < DAYS }
        ensures { self.new.day ≡ day }
    {
        *self = CachedDate::new(day);
    }

    /// Writes the date into a text with room for 12 bytes.
    #[inline(always)]
    pub(crate) fn put(&self, text: &mut [u8], at: usize)
        requires { at + 12 ≤ length text.old }
        ensures same_length { length text.new ≡ length text.old }
        ensures written { take (at + 11) text.new ≡ take at text.old ++ cached_date self.now.day }
    {
        put_8(text, at, self.text.year);
        put_8(text, at + 4, self.text.day);
    }
}

/// Returns the text of a day counted from 0001-01-01.
#[inline(always)]
fn date_text(day: u32) -> DateText
    requires { day < DAYS }
    ensures { take 4 result.year ++ take 7 result.day ≡ cached_date day }
{
    let date = march_day(day);
    let year = if date.day < DAYS_TO_JANUARY {
        date.year
    } else {
        date.year + 1
    };
    let [y, yy] = digit_pair(year / 100);
    let [yyy, yyyy] = digit_pair(year % 100);
    DateText {
        year: [y, yy, yyy, yyyy, 0, 0, 0, 0],
        day: day_text(date.day),
    }
}
