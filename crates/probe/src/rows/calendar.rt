//! Days and civil time.

use super::call::{Call, Refusal};
use crate::answers::Answers;
use zic_calendar::{civil, day_of, days_in_month, is_leap_year, weekday};
use zic_lines::parse_day_form;

/// The first and the last day with a civil time.
const DAYS: (i64, i64) = (-719_162, 2_932_896);

/// Appends the answer to a call.
pub fn answer(call: &Call<'_>, answers: &mut Answers) -> Result<(), Refusal> {
    match call.name {
        "day" => day(call, answers),
        "civil" => civil_time(call, answers),
        "month" => month(call, answers),
        _ => Err(Refusal::Call),
    }
}

/// `day YEAR MONTH ON`: prints the number of a day and its weekday.
fn day(call: &Call<'_>, answers: &mut Answers) -> Result<(), Refusal> {
    let (year, month) = (call.number(0, 1, 9999)?, call.number(1, 1, 12)? as u8);
    let Some(on) = parse_day_form(is_leap_year(year), month, call.word(2)?.as_bytes()) else {
        return Err(Refusal::Call);
    };
    let number = day_of(year, month, on);
    answers.show(&number);
    answers.show(&weekday(number));
    answers.end_line();
    Ok(())
}

/// `civil DAY SECOND`: prints the civil time of a second of a day.
fn civil_time(call: &Call<'_>, answers: &mut Answers) -> Result<(), Refusal> {
    let (day, second) = (call.number(0, DAYS.0, DAYS.1)?, call.number(1, 0, 86_399)?);
    let time = civil(day, second as u32);
    answers.show(&time.year);
    answers.joined(b"-", &time.month);
    answers.joined(b"-", &time.day);
    answers.show(&time.hour);
    answers.joined(b":", &time.minute);
    answers.joined(b":", &time.second);
    answers.end_line();
    Ok(())
}

/// `month YEAR MONTH`: prints the length of a month, and whether the year is a leap year.
fn month(call: &Call<'_>, answers: &mut Answers) -> Result<(), Refusal> {
    let (year, month) = (call.number(0, 1, 9999)?, call.number(1, 1, 12)? as u8);
    answers.show(&days_in_month(year, month));
    answers.show(&is_leap_year(year));
    answers.end_line();
    Ok(())
}
