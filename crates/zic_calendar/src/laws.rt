//! Laws of the calendar as contracts: no function here does anything. The crates above cite the
//! lemmas in `proofs/` that prove them.
ghost use Rattle.zic_calendar.specs.Laws.{FollowOneAnother, RepeatEvery400Years, RepeatEveryWeek, RiseWithDates, NameOneDate, NameOneCivil, NameOneDay, NameOneWeekday, StayNearMonth, CountFromWeekStart, EndMonth, AgreeWithLibrary};

/// States that years and months begin where those before them end.
pub fn years_and_months_follow()
    ensures { FollowOneAnother }
{}

/// States that the calendar repeats after 400 years, which are 146,097 days and 20,871 weeks.
pub fn calendar_repeats()
    ensures { RepeatEvery400Years }
{}

/// States that weekdays repeat after seven days.
pub fn weekdays_repeat()
    ensures { RepeatEveryWeek }
{}

/// States that a later date has a greater day number.
pub fn day_numbers_rise()
    ensures { RiseWithDates }
{}

/// States that each day number is that of exactly one date.
pub fn each_day_has_one_date()
    ensures { NameOneDate }
{}

/// States that at most one civil time is that second of that day, so `civil` has no other answer.
pub fn each_second_has_one_civil_time()
    ensures { NameOneCivil }
{}

/// States that a day form names exactly one day.
pub fn each_form_names_one_day()
    ensures { NameOneDay }
{}

/// States that there is exactly one first such weekday on or after a day, and one last on or before
/// it.
pub fn each_weekday_is_found_once()
    ensures { NameOneWeekday }
{}

/// States that a day form names a day of its month, or one at most six days outside it.
pub fn forms_stay_near_month()
    ensures { StayNearMonth }
{}

/// States that the first weekday on or after any day of a month can be counted from the start of a
/// week.
pub fn weeks_count_weekdays()
    ensures { CountFromWeekStart }
{}

/// States that the forms that name the last such weekday of a month name one day.
pub fn last_weekdays_agree()
    ensures { EndMonth }
{}

/// States that the calendar is that of the library for dates, in its whole range of years.
pub fn agrees_with_library()
    ensures { AgreeWithLibrary }
{}
