ghost use Rattle.std.specs.Prelude.{◌<◌};
ghost use Rattle.zic_calendar.specs.Calendar.{IsSupportedYear, IsSupportedDay};
ghost use Rattle.zic_calendar.specs.Civil.{IsOnDay, IsAtSecond};

use crate::Civil;
use jiff_core::civil::Date;

/// The seconds of a day, without leap seconds.
pub const SECONDS_OF_DAY: i64 = 86_400;

/// Returns the date of a day number, -719162 (0001-01-01) to 2932896 (9999-12-31), with the time of
/// day that is `second` seconds after midnight, 0 to 86399.
pub fn civil(day: i64, second: u32) -> Civil
    requires day_in { IsSupportedDay day }
    requires second_in { second < 86_400 }
    ensures date { IsOnDay day result }
    ensures time { IsAtSecond second result }
    ensures year { IsSupportedYear result.year }
{
    let date = Date::from_unix_epoch_day(day).unwrap();
    Civil {
        year: date.year as i64,
        month: date.month,
        day: date.day,
        hour: (second / 3600) as u8,
        minute: (second / 60 % 60) as u8,
        second: (second % 60) as u8,
    }
}
