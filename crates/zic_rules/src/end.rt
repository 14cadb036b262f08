//! The explicit end of a zone, and the years of instants.

ghost use Rattle.std.specs.Prelude.{◌≡◌, ◌≤◌, true, IfSome, pos};
ghost use Rattle.zic_source.specs.Source.{is_set};
ghost use Rattle.zic_source.specs.Sound.{IsSoundSource, IsSoundLine};
ghost use Rattle.zic_states.specs.Until.{set_of};
ghost use Rattle.zic_rules.specs.code.Period.{the_zone};
ghost use Rattle.zic_rules.specs.code.End.{IsStart, IsInYears, IsLastYearFrom, IsEndFrom};
ghost use Rattle.zic_states.specs.End.{IsYearOf};

use crate::zone::Zone;
use zic_calendar::{SECONDS_OF_DAY, civil};
use zic_source::{Rules, SetName, Source, ZoneLine};
use zic_states::{last_named_year, year_second};

/// Returns the last year that a set names, or in which its line starts.
fn last_year(source: &Source, set: &SetName, start: Option<i64>) -> u16
    requires sound { IsSoundSource source.now }
    requires set { is_set set.now source.now.rules ≡ true }
    requires start { IfSome start (IsInYears 9002) }
    ensures last { IsLastYearFrom (set_of source.now.rules set.now) start result }
    ensures range { result ≤ 9001 }
{
    let named = last_named_year(source, set);
    match start {
        Some(start) => named.max(year_of(start)),
        None => named,
    }
}

/// Returns the explicit end of a zone, by the number of its last line and the instant at which that
/// starts; the Zone line has no start.
pub(crate) fn end_of(zone: Zone<'_>, number: usize, line: &ZoneLine, start: Option<i64>) -> i64
    requires sound { IsSoundSource zone.source.now }
    requires line { IsSoundLine zone.source.now.rules line.now }
    requires start { IsStart (the_zone zone) number start }
    requires in_years { IfSome start (IsInYears 9002) }
    ensures { IsEndFrom (the_zone zone.entry) number start line.now result }
{
    match (&line.rules, start) {
        (Rules::Set(set), _) => {
            let year = last_year(zone.source, set, start);
            year_second(year + 3)
        }
        (_, Some(start)) => start + 1,
        (_, None) => 0,
    }
}

/// The day number of 1 January of the year 1.
const FIRST_DAY: i64 = -719_162;

/// Returns the UT year of an instant of the years 0 to 9998.
pub(crate) fn year_of(instant: i64) -> u16
    requires { IsInYears 9999 instant }
    ensures { IsYearOf instant (pos result) }
{
    let day = instant.div_euclid(SECONDS_OF_DAY);
    if day < FIRST_DAY {
        return 0;
    }
    civil(day, 0).year as u16
}
