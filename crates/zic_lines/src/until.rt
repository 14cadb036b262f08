//! The UNTIL of a zone's line.

ghost use Rattle.std.specs.Prelude.{◌≡◌, ◌≤◌, IfOk, IfErr, Some, length, slice_index_or};
ghost use Rattle.zic_base.specs.Check.{first_failed};
ghost use Rattle.zic_lines.specs.Checks.{date_checks, until_checks};
ghost use Rattle.zic_lines.specs.Until.{until_of, until_at};
ghost use Rattle.zic_lines.specs.code.Texts.{texts_of};

use crate::clock::clock_time;
use crate::day_form::{parse_day_form, parse_month};
use crate::entry::FieldFault;
use crate::rule_line::Moment;
use crate::year::parse_year;
use std::borrow::CowSlice;
use zic_base::Kind;
use zic_calendar::is_leap_year;

/// The UNTIL of a line: the moment at which the line that follows takes over (zic(8), UNTIL).
#[derive(Clone, Copy, Debug, PartialEq, Eq)]
pub struct Until {
    /// YEAR: 1 to 9000.
    pub year: u16,
    /// MONTH, DAY and TIME. A plain day is one that the month has in that year.
    pub moment: Moment,
}

/// Returns the UNTIL of the fields YEAR MONTH DAY TIME, of which the first has this number, or the first
/// fault.
#[tactic(auto, unfolding(crate::specs::Until::until_at))]
fn until_at(
    first: usize,
    year: &[u8],
    month: &[u8],
    day: &[u8],
    time: &[u8],
) -> Result<Until, FieldFault>
    requires { first ≤ 5 }
    ensures says { IfOk result
        (λ until. until_at year.now month.now day.now time.now ≡ Some until) }
    ensures fault { IfErr result
        (λ fault. first_failed (date_checks first year.now month.now day.now time.now) ≡ Some fault) }
{
    let Some(year) = parse_year(year) else {
        return Err(FieldFault::At(Kind::Until, first));
    };
    let Some(month) = parse_month(month) else {
        return Err(FieldFault::At(Kind::Until, first + 1));
    };
    let Some(on) = parse_day_form(is_leap_year(i64::from(year)), month, day) else {
        return Err(FieldFault::At(Kind::Until, first + 2));
    };
    let Some(at) = clock_time(time) else {
        return Err(FieldFault::At(Kind::Until, first + 3));
    };
    let moment = Moment { month, on, at };
    Ok(Until { year, moment })
}

/// Returns the text of the field at this index, or this one where there is no such field.
pub(crate) fn text_or<'a>(
    fields: &'a [CowSlice<'_, u8>],
    index: usize,
    missing: &'a [u8],
) -> &'a [u8]
    ensures { result.now ≡ slice_index_or (texts_of fields.now) index missing.now }
{
    if index < fields.len() {
        fields[index].as_slice()
    } else {
        missing
    }
}

/// Returns the UNTIL of the fields YEAR [MONTH [DAY [TIME]]], of which the first has this number, and
/// `None` of no field; or the first fault.
pub(crate) fn parse_until(
    first: usize,
    fields: &[CowSlice<'_, u8>],
) -> Result<Option<Until>, FieldFault>
    requires few { length fields.now ≤ 4 }
    requires number { first ≤ 5 }
    ensures says { IfOk result (λ until. until_of (texts_of fields.now) ≡ Some until) }
    ensures fault { IfErr result
        (λ fault. first_failed (until_checks first (texts_of fields.now)) ≡ Some fault) }
{
    if fields.is_empty() {
        return Ok(None);
    }
    let year = text_or(fields, 0, b"");
    let month = text_or(fields, 1, b"Jan");
    let day = text_or(fields, 2, b"1");
    let time = text_or(fields, 3, b"-");
    Ok(Some(until_at(first, year, month, day, time)?))
}
