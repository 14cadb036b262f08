//! The years whose changes are listed.

ghost use Rattle.std.specs.Prelude.{◌≡◌, ◌≤◌, ◌≤ℤ◌, ◌↔◌, IsSome, IfSome};
ghost use Rattle.zic_dump.specs.declared.years.TheConstants.{FIRST_YEAR, LAST_YEAR};
ghost use Rattle.zic_dump.specs.Years.{between, year_instant, IsYears};
ghost use Rattle.zic_dump.specs.code.Listed.{IsListed};

use std::marker::Model;
use zic_calendar::{On, SECONDS_OF_DAY, day_of};
use zic_tzif::Instants;

/// The first year from which changes are listed. Local time at its start is in the years 1 to
/// 9999 by any UT offset of a file, and so it is at the start of the last year.
pub const FIRST_YEAR: u64 = 2;

/// The last year up to which changes are listed.
pub const LAST_YEAR: u64 = 9999;

/// Two years, 2 to 9999, of which the first isn't after the second. Changes are listed from the
/// start of the first, in UT, to that of the second.
#[derive(Clone, Debug, Drop)]
pub struct Years {
    from: u64,
    to: u64,
}

impl Model for Years {
    ghost use Rattle.zic_dump.specs.Years.{Between, IsYears, between};

    ghost Value = { Between };

    ghost view = { λ years. between years.from years.to };

    ghost invariant = { λ years. IsYears (between years.from years.to) };
}

impl Years {
    /// Returns these two years, or `None` where they aren't from 2 to 9999 or the first is after
    /// the second.
    pub fn new(from: u64, to: u64) -> Option<Years>
        ensures just { IsSome result ↔ IsYears (between from to) }
        ensures years { IfSome result (λ years. years ≡ between from to) }
    {
        if FIRST_YEAR <= from && from <= to && to <= LAST_YEAR {
            Some(Years { from, to })
        } else {
            None
        }
    }

    /// Returns the instants from the start of the first year, in UT, up to and including that of the
    /// second, in seconds from 1970-01-01T00:00:00 UT.
    pub fn instants(&self) -> Instants
        ensures first { result.first ≡ year_instant self.now.from }
        ensures last { result.last ≡ year_instant self.now.to }
        ensures order { result.first ≤ℤ result.last }
    {
        Instants {
            first: self.first_instant(),
            last: self.last_instant(),
        }
    }

    /// Returns the instant at which the first year starts in UT, in seconds from
    /// 1970-01-01T00:00:00 UT.
    pub(crate) fn first_instant(&self) -> i64
        ensures start { result ≡ year_instant self.now.from }
        ensures listed { IsListed result }
    {
        year_instant(self.from)
    }

    /// Returns the instant at which the second year starts in UT.
    pub(crate) fn last_instant(&self) -> i64
        ensures start { result ≡ year_instant self.now.to }
        ensures order { year_instant self.now.from ≤ℤ result }
        ensures listed { IsListed result }
    {
        year_instant(self.to)
    }
}

/// Returns the instant at which a year from 2 to 9999 starts in UT.
fn year_instant(year: u64) -> i64
    requires low { FIRST_YEAR ≤ year }
    requires high { year ≤ LAST_YEAR }
    ensures start { result ≡ year_instant year }
    ensures listed { IsListed result }
{
    day_of(year as i64, 1, On::Day(1)) * SECONDS_OF_DAY
}
