//! The date and the time of day that clocks show.

ghost use Rattle.std.specs.Prelude.{◌<◌, pos, ◌+ℤ◌, unsigned_abs};
ghost use Rattle.std.specs.Int.{int_div_euclid, int_rem_euclid};
ghost use Rattle.zic_calendar.specs.Civil.{IsOnDay, IsAtSecond};

use zic_calendar::laws::calendar_repeats;
use zic_calendar::{Civil, SECONDS_OF_DAY, civil};

/// The years after which the calendar repeats.
const YEARS: i64 = 400;
/// The days of these years.
const DAYS: i64 = 146_097;

/// Returns the date and the time of day that clocks with a UT offset in seconds, positive east, show
/// at an instant, in seconds from 1970-01-01T00:00:00 UT. The calendar is the Gregorian one in all
/// years, also before it was in use; the year before 1 is 0, and the year before that is -1.
pub fn civil_at(t: i64, offset: i32) -> Civil
    ensures date { IsOnDay (int_div_euclid (t +ℤ offset) (pos 86_400)) result }
    ensures time { IsAtSecond (unsigned_abs (int_rem_euclid (t +ℤ offset) (pos 86_400))) result }
{
    let second = t.rem_euclid(SECONDS_OF_DAY) + i64::from(offset);
    let day = t.div_euclid(SECONDS_OF_DAY) + second.div_euclid(SECONDS_OF_DAY);
    civil_on(day, second.rem_euclid(SECONDS_OF_DAY) as u32)
}

/// Returns the date of a day number, in any year, with the time of day that is `second` seconds after
/// midnight.
fn civil_on(day: i64, second: u32) -> Civil
    requires { second < 86_400 }
    ensures date { IsOnDay day result }
    ensures time { IsAtSecond second result }
{
    calendar_repeats();
    let periods = day.div_euclid(DAYS);
    let in_period = civil(day.rem_euclid(DAYS), second);
    Civil {
        year: in_period.year + YEARS * periods,
        ..in_period
    }
}
