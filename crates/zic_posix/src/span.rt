//! A footer's state at an instant, and the instants round it at which it is the same.

ghost use Rattle.std.specs.Prelude.{◌≤◌, unsigned_abs, IfSome, ◌↔◌, IsTrue};
ghost use Rattle.zic_base.specs.declared.constants.TheConstants.{FARTHEST_FILE_OFFSET};
ghost use Rattle.zic_base.specs.State.{shown};
ghost use Rattle.zic_posix.specs.Grammar.{IsEdge, IsOffset, IsDaylight};
ghost use Rattle.zic_posix.specs.Instants.{Includes, AreBetween};
ghost use Rattle.zic_posix.specs.Meaning.{HasEdgeAt, Means, MeansThroughout};
ghost use Rattle.zic_posix.specs.code.Span.{IsAround, IsPhase};
ghost use Rattle.zic_posix.specs.code.Years.{IsYearTable, IsTableOf};
ghost use Rattle.zic_posix.specs.code.State.{IsInCycle, IsLatestYear, IsYearOfCycle, instant_in};

use crate::footer::{Dst, Edge, Footer};
use crate::state::{CYCLE, daylight_state, instant_in, latest_year};
use crate::year_table::YearTable;
use zic_base::State;

/// The state that a footer shows at some instants, at all of them the same.
#[derive(Clone, Copy, Debug, PartialEq, Eq)]
pub struct StateSpan<'a> {
    pub state: State<'a>,
    pub instants: Instants,
}

impl Footer {
    /// Returns the state at an instant, in seconds since 1970-01-01 00:00 UT.
    pub fn state(&self, t: i64) -> State<'_>
        ensures { Means self.now t (shown result) }
    {
        self.span_by(None, t).state
    }

    /// Returns the state at an instant, in seconds since 1970-01-01 00:00 UT, and the instants
    /// round it up to the next edges, at which it is the same: from the last edge that isn't after
    /// it to just before the first one after it, or all instants where there is no daylight part.
    pub fn span(&self, t: i64) -> StateSpan<'_>
        ensures requested { Includes result.instants t }
        ensures means { MeansThroughout self.now result.instants (shown result.state) }
        ensures edges { AreBetween (HasEdgeAt self.now) result.instants }
    {
        self.span_by(None, t)
    }

    /// Returns the state at an instant and the instants round it, as `span` has them, with the help
    /// of a table of the years' edges if there is one.
    pub(crate) fn span_by(&self, years: Option<&YearTable>, t: i64) -> StateSpan<'_>
        requires { IfSome years (λ table. IsTableOf self.now table.now) }
        ensures requested { Includes result.instants t }
        ensures means { MeansThroughout self.now result.instants (shown result.state) }
        ensures edges { AreBetween (HasEdgeAt self.now) result.instants }
    {
        let Some(dst) = &self.dst else {
            let instants = Instants {
                first: MIN_INSTANT,
                last: MAX_INSTANT,
            };
            return StateSpan {
                state: self.standard_state(),
                instants,
            };
        };
        let in_cycle = t.rem_euclid(CYCLE);
        let phase = phase_by(self.offset, dst, years, in_cycle);
        let instants = Instants {
            first: t.saturating_sub(in_cycle - phase.from),
            last: t.saturating_add(phase.until - in_cycle - 1),
        };
        let state = if phase.is_daylight {
            daylight_state(dst)
        } else {
            self.standard_state()
        };
        StateSpan { state, instants }
    }
}

/// The time in force at an instant, the edge since which it is, and the edge until which.
#[derive(Clone, Copy)]
pub(crate) struct Phase {
    pub is_daylight: bool,
    pub from: i64,
    pub until: i64,
}

/// Returns the time in force at an instant of the first 400 years from 1970 on, with the help of a
/// table of the years' edges if there is one.
fn phase_by(standard: i32, dst: &Dst, years: Option<&YearTable>, t: i64) -> Phase
    requires standard { IsOffset standard }
    requires dst { IsDaylight standard dst.now }
    requires years { IfSome years (λ table. IsYearTable standard dst.now table.now) }
    requires t { IsInCycle t }
    ensures { IsPhase standard dst.now t result }
{
    match years {
        Some(table) => table.phase_at(t),
        None => phase_at(standard, dst, t),
    }
}

/// Returns the time in force at an instant of the first 400 years from 1970 on.
fn phase_at(standard: i32, dst: &Dst, t: i64) -> Phase
    requires standard { IsOffset standard }
    requires dst { IsDaylight standard dst.now }
    requires t { IsInCycle t }
    ensures { IsPhase standard dst.now t result }
{
    let year = latest_year(t);
    let start = edges_around(t, year, &dst.start, standard);
    let stop = edges_around(t, year, &dst.stop, dst.offset);
    Phase {
        is_daylight: stop.last <= start.last,
        from: start.last.max(stop.last),
        until: start.next.min(stop.next),
    }
}

/// The last instant of an edge that isn't after an instant, and the first one after it.
#[derive(Clone, Copy)]
struct Around {
    last: i64,
    next: i64,
}

/// Returns the instants of an edge round this one, where local time has this UT offset before the
/// edge.
fn edges_around(t: i64, year: i64, edge: &Edge, offset: i32) -> Around
    requires year { IsLatestYear t year }
    requires range { IsYearOfCycle year }
    requires edge { IsEdge edge.now }
    requires offset { unsigned_abs offset ≤ FARTHEST_FILE_OFFSET }
    ensures { IsAround (instant_in edge.now offset) t result }
{
    let latest = instant_in(year, edge, offset);
    if latest <= t {
        return Around {
            last: latest,
            next: instant_in(year + 1, edge, offset),
        };
    }
    let before = instant_in(year - 1, edge, offset);
    if before <= t {
        return Around {
            last: before,
            next: latest,
        };
    }
    Around {
        last: instant_in(year - 2, edge, offset),
        next: before,
    }
}

/// The least instant that an `i64` holds.
pub const MIN_INSTANT: i64 = i64::MIN;

/// The greatest instant that an `i64` holds.
pub const MAX_INSTANT: i64 = i64::MAX;

/// All instants from the first to the last, in seconds since 1970-01-01 00:00 UT. Both belong to
/// them: so the greatest that an `i64` holds can be one, and two comparisons decide whether an
/// instant is.
#[derive(Clone, Copy, Debug, PartialEq, Eq)]
pub struct Instants {
    pub first: i64,
    pub last: i64,
}

impl Instants {
    /// Returns whether an instant is one of these.
    pub fn contains(&self, t: i64) -> bool
        ensures { IsTrue result ↔ Includes self.now t }
    {
        self.first <= t && t <= self.last
    }
}
