//! Laws of occurrences as contracts: no function here does anything. The crates above cite the
//! lemmas in `proofs/` that prove them.
ghost use Rattle.zic_states.specs.OccurrenceLaws.{StaysNearYear, RepeatAfterLast, EachHasOneInstant, InstantsRise, NeverBoth, LastNotAfter};

/// States that an occurrence's instant lies within 21 days outside its year.
pub fn instants_stay_near_year()
    ensures { StaysNearYear }
{}

/// States that after the last year that a set names its occurrences come again after 400 years. From
/// the third year after it on so do their instants and predecessors, and from the fourth on the
/// predecessors' instants.
pub fn instants_repeat_after_last()
    ensures { RepeatAfterLast }
{}

/// States that an occurrence has exactly one instant.
pub fn each_has_one_instant()
    ensures { EachHasOneInstant }
{}

/// States that of two occurrences the one of the later nominal second has the later instant.
pub fn instants_rise()
    ensures { InstantsRise }
{}

/// States that a set in order isn't out of order.
pub fn order_excludes_disorder()
    ensures { NeverBoth }
{}

/// States that each instant has a last occurrence not after it, or comes before all.
pub fn last_not_after_is_found()
    ensures { LastNotAfter }
{}
