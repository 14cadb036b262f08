//! Laws of what zones show as contracts: no function here does anything. The crates above cite the
//! lemmas in `proofs/` that prove them.
ghost use Rattle.zic_states.specs.Laws.{OneUntil, UntilsAreRead, OneLine, OneInForce, OneState, SomeState, OneStateAtEachInstant, OneEnd, OneListOfChanges, OneFirstState};

/// States that a line has at most one UNTIL instant, where its set, if it has one, is in order.
pub fn each_line_ends_at_one_instant()
    ensures { OneUntil }
{}

/// States that each UNTIL has an instant, where the sets are in order.
pub fn each_until_is_read()
    ensures { UntilsAreRead }
{}

/// States that at an instant at most one line governs.
pub fn one_line_governs()
    ensures { OneLine }
{}

/// States that at an instant a line keeps at most one saving, daylight flag and letter.
pub fn a_line_has_one_thing_in_force()
    ensures { OneInForce }
{}

/// States that at an instant a zone shows at most one state.
pub fn a_zone_shows_one_state()
    ensures { OneState }
{}

/// States that at each instant a zone shows some state, where its sets are in order and no letter
/// is wanting.
pub fn a_zone_shows_some_state()
    ensures { SomeState }
{}

/// States that at each instant a zone without a fault shows exactly one state.
pub fn a_sound_zone_shows_one_state_at_each_instant()
    ensures { OneStateAtEachInstant }
{}

/// States that a zone has at most one explicit end.
pub fn a_zone_has_one_end()
    ensures { OneEnd }
{}

/// States that at most one list has all changes of a zone.
pub fn one_list_has_all_changes()
    ensures { OneListOfChanges }
{}

/// States that a zone has at most one first state.
pub fn a_zone_has_one_first_state()
    ensures { OneFirstState }
{}
