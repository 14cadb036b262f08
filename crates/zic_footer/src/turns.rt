//! Rules that follow each other in turn for ever.

ghost use Rattle.std.specs.Prelude.{◌↔◌, pos, IsTrue};
ghost use Rattle.std.specs.Int.{IsInRange};
ghost use Rattle.zic_footer.specs.code.Turns.{IsYearly, LiesBetween, FollowInTurn, AreMonthsApart};

use zic_source::Moment;
use zic_states::nominal_second;

/// The first year of a cycle of the calendar. It could be any.
const FIRST_YEAR: u16 = 2000;

/// The years after which the calendar comes again.
const YEARS_OF_CYCLE: u16 = 400;

/// Returns whether between any two neighbouring moments of each lies one of the other, in all
/// years.
pub(crate) fn follow_in_turn(a: &Moment, b: &Moment) -> bool
    requires a { IsYearly a.now }
    requires b { IsYearly b.now }
    ensures { IsTrue result ↔ FollowInTurn a.now b.now }
{
    are_months_apart(a.month, b.month) || follow_in_cycle(a, b)
}

/// Returns whether from each of the two months to the next of the other it is three months or
/// more. Moments of such months follow in turn, since a day form and a time lead at most 19 days
/// out of the month.
fn are_months_apart(a: u8, b: u8) -> bool
    ensures { IsTrue result ↔ AreMonthsApart a b }
{
    matches!(a.abs_diff(b), 3..=9)
}

/// Returns the same as `follow_in_turn`, year by year through a cycle of the calendar.
fn follow_in_cycle(a: &Moment, b: &Moment) -> bool
    requires a { IsYearly a.now }
    requires b { IsYearly b.now }
    ensures { IsTrue result ↔ FollowInTurn a.now b.now }
{
    for year in FIRST_YEAR..FIRST_YEAR + YEARS_OF_CYCLE {
        if !lies_between(a, b, year) || !lies_between(b, a, year) {
            return false;
        }
    }
    true
}

/// Returns whether between the moment `a` of a year and that of the next lies a moment `b`, which
/// may be of a neighbouring year.
fn lies_between(a: &Moment, b: &Moment, year: u16) -> bool
    requires a { IsYearly a.now }
    requires b { IsYearly b.now }
    requires year { IsInRange 2 9990 year }
    ensures { IsTrue result ↔ LiesBetween a.now b.now (pos year) }
{
    let from = nominal_second(year, a);
    let to = nominal_second(year + 1, a);
    for other in year - 1..year + 3 {
        let second = nominal_second(other, b);
        if from < second && second < to {
            return true;
        }
    }
    false
}
