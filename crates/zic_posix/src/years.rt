//! The edges of a footer by the kinds of years.

ghost use Rattle.std.specs.Prelude.{◌≡◌, ◌≤◌, ℤ, pos, ◌≤ℤ◌, unsigned_abs, true, IfSome};
ghost use Rattle.std.specs.Int.{int_max, int_min};
ghost use Rattle.std.specs.List.{list_all};
ghost use Rattle.zic_base.specs.declared.constants.TheConstants.{FARTHEST_FILE_OFFSET};
ghost use Rattle.zic_posix.specs.Grammar.{IsEdge, IsOffset, IsDaylight};
ghost use Rattle.zic_posix.specs.Laws.{IsInYear};
ghost use Rattle.zic_posix.specs.code.State.{IsInCycle, IsYearOfCycle};
ghost use Rattle.zic_posix.specs.code.Inside.{is_inside};
ghost use Rattle.zic_posix.specs.code.Years.{IsYearStart, AreEdgeSeconds, IsYearTable, AreEdgesIn, IsPhaseBy, IsNearCycle};

use crate::footer::{Dst, Edge};
use crate::span::Phase;
use crate::state::instant_in;
use crate::year_table::YearTable;
use zic_calendar::{On, SECONDS_OF_DAY, civil, day_of, is_leap_year, weekday};

/// The number of kinds of years: a year begins on one of seven weekdays, and it has a February 29
/// or not.
const KINDS: usize = 14;

/// A year of each kind: the common years that begin on a Sunday, a Monday and so on, and then the
/// leap years.
const YEARS_OF_KINDS: [i64; 14] = [
    1978, 1973, 1974, 1975, 1970, 1971, 1977, 1984, 1996, 1980, 1992, 1976, 1988, 1972,
];

/// The start of a year in UT, in seconds since 1970-01-01, and the number of its kind.
#[derive(Clone, Copy)]
struct YearStart {
    second: i64,
    kind: usize,
}

impl YearStart {
    /// Returns the start of a year.
    fn new(year: i64) -> YearStart
        requires { IsNearCycle year }
        ensures { IsYearStart year result }
    {
        let day = day_of(year, 1, On::Day(1));
        let first = if is_leap_year(year) { 7 } else { 0 };
        YearStart {
            second: SECONDS_OF_DAY * day,
            kind: first + weekday(day) as usize,
        }
    }
}

/// The start and the stop of daylight saving time in a year, in seconds since 1970-01-01.
#[derive(Clone, Copy)]
struct YearEdges {
    start: i64,
    stop: i64,
}

impl YearEdges {
    /// Returns the edge that comes first.
    fn first(&self) -> i64
        ensures { result ≡ int_min self.now.start self.now.stop }
    {
        self.start.min(self.stop)
    }

    /// Returns the edge that comes last.
    fn last(&self) -> i64
        ensures { result ≡ int_max self.now.start self.now.stop }
    {
        self.start.max(self.stop)
    }
}

impl YearTable {
    /// Returns the table of a daylight part, or `None` where an edge may be outside its own year.
    pub(crate) fn new(standard: i32, dst: &Dst) -> Option<YearTable>
        requires standard { IsOffset standard }
        requires dst { IsDaylight standard dst.now }
        ensures { IfSome result (IsYearTable standard dst.now) }
    {
        let starts = edge_seconds(&dst.start, standard);
        let stops = edge_seconds(&dst.stop, dst.offset);
        if are_inside(&starts) && are_inside(&stops) {
            Some(YearTable { starts, stops })
        } else {
            None
        }
    }

    /// Returns the time in force at an instant of the first 400 years from 1970 on.
    pub(crate) fn phase_at(&self, t: i64) -> Phase
        requires { IsInCycle t }
        ensures { IsPhaseBy self.now t result }
    {
        let year = year_of(t);
        let edges = self.edges_in(year);
        if t < edges.first() {
            let before = self.edges_in(year - 1);
            return Phase {
                is_daylight: before.stop <= before.start,
                from: before.last(),
                until: edges.first(),
            };
        }
        if edges.last() <= t {
            let after = self.edges_in(year + 1);
            return Phase {
                is_daylight: edges.stop <= edges.start,
                from: edges.last(),
                until: after.first(),
            };
        }
        Phase {
            is_daylight: edges.start <= t,
            from: edges.first(),
            until: edges.last(),
        }
    }

    /// Returns the edges of a year.
    fn edges_in(&self, year: i64) -> YearEdges
        requires { IsNearCycle year }
        ensures { AreEdgesIn self.now year result }
    {
        let start = YearStart::new(year);
        YearEdges {
            start: start.second + self.starts[start.kind],
            stop: start.second + self.stops[start.kind],
        }
    }
}

/// Returns the year of an instant of the first 400 years from 1970 on.
fn year_of(t: i64) -> i64
    requires { IsInCycle t }
    ensures year { IsInYear result t }
    ensures range { IsYearOfCycle result }
{
    civil(t / SECONDS_OF_DAY, 0).year
}

/// Returns an edge in each kind of year, in seconds from the start of the year, where local time
/// has this UT offset before it.
fn edge_seconds(edge: &Edge, offset: i32) -> [i64; 14]
    requires edge { IsEdge edge.now }
    requires offset { unsigned_abs offset ≤ FARTHEST_FILE_OFFSET }
    ensures { AreEdgeSeconds edge.now offset result }
{
    let mut seconds = [0i64; 14];
    for kind in 0..KINDS {
        let year = YEARS_OF_KINDS[kind];
        seconds[kind] = instant_in(year, edge, offset) - YearStart::new(year).second;
    }
    seconds
}

/// Returns whether an edge is inside its year in years of every kind.
fn are_inside(seconds: &[i64]) -> bool
    ensures { result ≡ list_all is_inside seconds.now }
{
    seconds
        .iter()
        .all(|second| 0 <= *second && *second < 31_536_000)
}
