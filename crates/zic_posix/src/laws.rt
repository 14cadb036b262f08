//! Laws of footers, and of the grammar of POSIX TZ strings, each the contract of a function. No
//! function here does anything.

ghost use Rattle.zic_posix.specs.Laws.{MeansOneState, MeaningRepeats, EdgesRise, EdgesStayNearYear, LastEdgesAreNear};
ghost use Rattle.zic_posix.specs.Grammar.{SpellsAtMostOne, SomeTextSpells, SpellsWithinLimits};

/// States that a footer means exactly one state at every instant.
pub fn means_one_state()
    ensures { MeansOneState }
{}

/// States that the meaning of a footer comes again after 400 years, and so do its edges.
pub fn meaning_repeats()
    ensures { MeaningRepeats }
{}

/// States that a footer's starts rise from year to year, and so do its ends.
pub fn edges_rise()
    ensures { EdgesRise }
{}

/// States that a footer's edges lie less than 10 days outside their years.
pub fn edges_stay_near_year()
    ensures { EdgesStayNearYear }
{}

/// States that the last start and the last end that aren't after an instant are of years near the
/// instant's.
pub fn last_edges_are_near()
    ensures { LastEdgesAreNear }
{}

/// A text spells at most one string.
pub fn spells_at_most_one()
    ensures { SpellsAtMostOne }
{}

/// Some text spells each string that keeps the limits, in the version that it needs.
pub fn some_text_spells()
    ensures { SomeTextSpells }
{}

/// A string that a text spells keeps the limits, and a text spells in version 3 what it spells in
/// version 2.
pub fn spells_within_limits()
    ensures { SpellsWithinLimits }
{}
