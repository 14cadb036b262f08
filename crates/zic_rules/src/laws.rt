//! Laws of what zones show, each the contract of a function. No function here does anything.

ghost use Rattle.zic_rules.specs.Laws.{ShowsWithinLimits, LastIsChange, OneFirstState};

/// States that a zone without a fault shows only offsets within 24 hours, and only abbreviations.
pub fn a_sound_zone_shows_within_limits()
    ensures { ShowsWithinLimits }
{}

/// States that where two rules of both flags go on for ever in turn, the last occurrence before the
/// explicit end is a change.
pub fn the_last_occurrence_is_a_change()
    ensures { LastIsChange }
{}

/// A zone with a timeline has one state before every change.
pub fn a_timeline_has_one_first_state()
    ensures { OneFirstState }
{}
