//! Rules of a source, the moments of a year at which they take effect, and Rule lines.

ghost use Rattle.std.specs.Prelude.{◌≡◌, OnOk, IfOk, IfErr, Some, None};
ghost use Rattle.zic_base.specs.Check.{first_failed};
ghost use Rattle.zic_lines.specs.declared.keyword.Keyword.TheVariants as keywords;
ghost use Rattle.zic_lines.specs.Checks.{rule_checks};
ghost use Rattle.zic_lines.specs.code.Entries.{IsOtherLine};
ghost use Rattle.zic_lines.specs.code.LineParts.{year_checks, SayYears, moment_checks, SayMoment, time_checks, SayTimes, effect_checks, SayEffect, rule_with};
ghost use Rattle.zic_lines.specs.code.Texts.{texts_of, BeginsWith};

use crate::clock::{ClockTime, clock_time};
use crate::day_form::{parse_day_form, parse_month};
use crate::entry::{Entry, FieldFault};
use crate::letter::Letter;
use crate::set_name::SetName;
use crate::time::{Saving, save};
use crate::word::is_dash;
use crate::year::{ends_before, is_one_leap_year, last_year, parse_year};
use std::alloc::{AllocError, Global};
use std::borrow::CowSlice;
use zic_base::{Kind, Place};
use zic_calendar::On;

/// The years of a rule.
#[derive(Clone, Copy)]
struct Years {
    first: u16,
    /// `None` where there is no last year.
    last: Option<u16>,
}

/// Returns the years of FROM and TO, or their first fault.
fn rule_years(from: &[u8], to: &[u8]) -> Result<Years, FieldFault>
    ensures says { IfOk result (SayYears from.now to.now) }
    ensures fault { IfErr result (λ fault. first_failed (year_checks from.now to.now) ≡ Some fault) }
{
    let Some(first) = parse_year(from) else {
        return Err(FieldFault::At(Kind::Year, 2));
    };
    let Some(last) = last_year(first, to) else {
        return Err(FieldFault::At(Kind::Year, 3));
    };
    if ends_before(last, first) {
        return Err(FieldFault::At(Kind::YearOrder, 3));
    }
    Ok(Years { first, last })
}

/// Returns the moment of IN, ON and AT of a rule for these years, or their first fault.
fn rule_moment(years: Years, month: &[u8], day: &[u8], time: &[u8]) -> Result<Moment, FieldFault>
    ensures says { IfOk result (SayMoment years month.now day.now time.now) }
    ensures fault { IfErr result
        (λ fault. first_failed (moment_checks years month.now day.now time.now) ≡ Some fault) }
{
    let Some(month) = parse_month(month) else {
        return Err(FieldFault::At(Kind::Month, 5));
    };
    let Some(on) = parse_day_form(is_one_leap_year(years.first, years.last), month, day) else {
        return Err(FieldFault::At(Kind::Day, 6));
    };
    let Some(at) = clock_time(time) else {
        return Err(FieldFault::At(Kind::Time, 7));
    };
    Ok(Moment { month, on, at })
}

/// When a rule occurs.
#[derive(Clone, Copy)]
struct Times {
    years: Years,
    moment: Moment,
}

/// Returns the years and the moment of FROM, TO, the reserved field, IN, ON and AT, or
/// their first fault.
fn rule_times(
    from: &[u8],
    to: &[u8],
    reserved: &[u8],
    month: &[u8],
    day: &[u8],
    time: &[u8],
) -> Result<Times, FieldFault>
    ensures says { IfOk result
        (SayTimes from.now to.now reserved.now month.now day.now time.now) }
    ensures fault { IfErr result
        (λ fault. first_failed (time_checks from.now to.now reserved.now month.now day.now time.now)
        ≡ Some fault) }
{
    let years = rule_years(from, to)?;
    if !is_dash(reserved) {
        return Err(FieldFault::At(Kind::Reserved, 4));
    }
    let moment = rule_moment(years, month, day, time)?;
    Ok(Times { years, moment })
}

/// What a rule does.
#[derive(Drop)]
struct Effect {
    saving: Saving,
    letter: Letter,
}

/// Returns what SAVE and LETTER say, or their first fault.
fn rule_effect(alloc: Global, saved: &[u8], letter: &[u8]) -> Result<Effect, FieldFault>
    ensures says { IfOk result (SayEffect saved.now letter.now) }
    ensures fault { IfErr result
        (λ fault. first_failed (effect_checks saved.now letter.now) ≡ Some fault) }
{
    let Some(saving) = save(saved) else {
        return Err(FieldFault::At(Kind::Save, 8));
    };
    let Some(letter) = Letter::parse(alloc, letter) else {
        return Err(FieldFault::At(Kind::Letter, 9));
    };
    Ok(Effect { saving, letter })
}

/// Returns the rule of these parts, or out of memory where its name is.
fn rule_of(
    place: Place,
    name: Result<SetName, AllocError>,
    times: Times,
    effect: Effect,
) -> Result<Rule, AllocError>
    ensures name { IfOk result (λ rule. name ≡ Ok rule.name) }
    ensures parts { IfOk result
        (λ rule. rule ≡ rule_with place rule.name times effect) }
{
    Ok(Rule {
        place,
        name: name?,
        first: times.years.first,
        last: times.years.last,
        moment: times.moment,
        saving: effect.saving,
        letter: effect.letter,
    })
}

/// Returns the entry of the fields of a Rule line, or their first fault.
pub(crate) fn rule_line(
    alloc: Global,
    place: Place,
    fields: &[CowSlice<'_, u8>],
) -> Result<Result<Entry, AllocError>, FieldFault>
    requires { BeginsWith keywords.Rule (texts_of fields.now) }
    ensures ok { OnOk result (first_failed (rule_checks (texts_of fields.now)) ≡ None) }
    ensures says { IfOk result (λ made. IfOk made (IsOtherLine place (texts_of fields.now))) }
    ensures fault { IfErr result
        (λ fault. first_failed (rule_checks (texts_of fields.now)) ≡ Some fault) }
{
    let [_, name, from, to, reserved, month, day, time, saved, letter] = fields else {
        return Err(FieldFault::Count);
    };
    let Some(name) = SetName::parse(alloc, name.as_slice()) else {
        return Err(FieldFault::At(Kind::Name, 1));
    };
    let times = rule_times(
        from.as_slice(),
        to.as_slice(),
        reserved.as_slice(),
        month.as_slice(),
        day.as_slice(),
        time.as_slice(),
    )?;
    let effect = rule_effect(alloc, saved.as_slice(), letter.as_slice())?;
    Ok(rule_of(place, name, times, effect).map(Entry::Rule))
}

/// A Rule line: in each year from the first to the last, a day and a time when the saving of its
/// set changes.
#[derive(Debug, Drop)]
pub struct Rule {
    /// The place of the line.
    pub place: Place,
    /// The set to which the rule belongs.
    pub name: SetName,
    /// FROM: the first year, 1 to 9000.
    pub first: u16,
    /// TO: the last year, from the first to 9000; `None` where there is no last year.
    pub last: Option<u16>,
    /// IN, ON and AT: the moment of the change in each year.
    pub moment: Moment,
    /// SAVE: the saving from then on.
    pub saving: Saving,
    /// LETTER/S: the text for which `%s` of a FORMAT stands.
    pub letter: Letter,
}

/// A moment of a year, as a rule names it for each of its years, and an UNTIL for one.
#[derive(Clone, Copy, Debug, PartialEq, Eq)]
pub struct Moment {
    /// IN or MONTH: 1 to 12.
    pub month: u8,
    /// ON or DAY: the form of the day.
    pub on: On,
    /// AT or TIME: seconds after 00:00 of that day, within 300:00:00 either way, and the clock by
    /// which they are meant.
    pub at: ClockTime,
}
