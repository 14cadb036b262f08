ghost use Rattle.std.specs.Prelude.{◌≡◌, ◌≤◌};
ghost use Rattle.zic_calendar.specs.Calendar as calendar;

/// Returns whether the year has a 29 February: every fourth year has one, but of the centuries only
/// every fourth.
pub fn is_leap_year(year: i64) -> bool
    ensures { result ≡ calendar.is_leap_year year }
{
    year % 4 == 0 && (year % 100 != 0 || year % 400 == 0)
}

/// Returns the number of the last day of the month, 1 to 12, in that year: 28 to 31.
pub fn days_in_month(year: i64, month: u8) -> u8
    ensures length { result ≡ calendar.days_in_month year month }
    ensures low { 28 ≤ result }
    ensures high { result ≤ 31 }
{
    match month {
        2 => { if is_leap_year(year) { 29 } else { 28 } }
        4 | 6 | 9 | 11 => 30,
        _ => 31,
    }
}
