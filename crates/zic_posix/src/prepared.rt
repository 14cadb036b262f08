//! A footer that is ready for many instants.

ghost use Rattle.std.specs.Prelude.{◌≡◌, IfSome, option_map};
ghost use Rattle.zic_base.specs.State.{shown};
ghost use Rattle.zic_posix.specs.Instants.{Includes, AreBetween};
ghost use Rattle.zic_posix.specs.Meaning as meaning;
ghost use Rattle.zic_posix.specs.Meaning.{HasEdgeAt, Means, MeansThroughout};
ghost use Rattle.zic_posix.specs.code.Years.{IsTableOf};

use crate::footer::Footer;
use crate::span::StateSpan;
use crate::state::daylight_state;
use crate::year_table::YearTable;
use std::marker::Model;
use zic_base::State;

/// A footer with a table of its edges: it answers as the footer does, and mostly in less time.
///
/// The table is of the 14 kinds of years, by the weekday of January 1 and with a February 29 or
/// not: in each year of a kind an edge comes as many seconds after the start of the year. There is
/// none where an edge may be outside its own year in UT.
#[derive(Debug, Drop)]
pub struct PreparedFooter {
    footer: Footer,
    years: Option<YearTable>,
}

impl Model for PreparedFooter {
    ghost use Rattle.zic_posix.specs.Footer.{TzString};

    ghost Value = { TzString };

    ghost view = { λ p. p.footer };

    ghost use Rattle.std.specs.Prelude.{IfSome};
    ghost use Rattle.zic_posix.specs.code.Years.{IsTableOf};

    ghost invariant = { λ p. IfSome p.years (IsTableOf p.footer) };
}

impl PreparedFooter {
    /// Returns the footer with its table.
    pub fn new(footer: Footer) -> PreparedFooter
        ensures { result ≡ footer }
    {
        let years = year_table(&footer);
        PreparedFooter { footer, years }
    }

    /// Returns the state of standard time.
    pub fn standard_state(&self) -> State<'_>
        ensures { shown result ≡ meaning.standard_state self.now }
    {
        self.footer.standard_state()
    }

    /// Returns the state of daylight saving time, if there is one.
    pub fn daylight_state(&self) -> Option<State<'_>>
        ensures { option_map shown result ≡ option_map meaning.daylight_state self.now.dst }
    {
        self.footer.dst.as_ref().map(daylight_state)
    }

    /// Returns the state at an instant, in seconds since 1970-01-01 00:00 UT.
    pub fn state(&self, t: i64) -> State<'_>
        ensures { Means self.now t (shown result) }
    {
        self.span(t).state
    }

    /// Returns the state at an instant, in seconds since 1970-01-01 00:00 UT, and the instants
    /// round it up to the next edges, as `Footer::span` has them.
    pub fn span(&self, t: i64) -> StateSpan<'_>
        ensures requested { Includes result.instants t }
        ensures means { MeansThroughout self.now result.instants (shown result.state) }
        ensures edges { AreBetween (HasEdgeAt self.now) result.instants }
    {
        self.footer.span_by(self.years.as_ref(), t)
    }
}

/// Returns the table of a footer's edges, or `None` where it has no edge, or one that may be
/// outside its own year.
fn year_table(footer: &Footer) -> Option<YearTable>
    ensures { IfSome result (IsTableOf footer.now) }
{
    match &footer.dst {
        Some(dst) => YearTable::new(footer.offset, dst),
        None => None,
    }
}
