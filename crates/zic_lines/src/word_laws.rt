//! Laws of words as contracts: no function here does anything.

ghost use Rattle.zic_lines.specs.WordLaws.{RoundToNearest};

/// States that each time has just one nearest second, of two that are as near the even one: that to
/// which times are rounded.
pub fn times_round_to_nearest()
    ensures { RoundToNearest }
{}
