//! Laws of what zones show from their explicit ends on, as contracts: no function here does
//! anything. The crates above cite the lemmas in `proofs/` that prove them.
ghost use Rattle.zic_states.specs.TailLaws.{LastLineGoverns, FixedTail, ByContinuing, ByOne, ByNone, InForceBefore, RepeatsForEver, AlternatesForEver, StaysSinceChange, OneStateAfterChanges};

/// States that from its start on, and so from one second before the explicit end on, the last line
/// governs.
pub fn the_last_line_governs()
    ensures { LastLineGoverns }
{}

/// States that a last line without a set keeps one and the same thing from its start on.
pub fn a_line_without_a_set_has_one_thing_in_force_for_ever()
    ensures { FixedTail }
{}

/// States that where rules of the last line's set go on for ever, an occurrence of one of them
/// decides from the explicit end on.
pub fn from_the_end_a_continuing_rule_decides()
    ensures { ByContinuing }
{}

/// States that where just one goes on for ever, the zone keeps what it keeps from the explicit end
/// on.
pub fn one_continuing_rule_decides_for_ever()
    ensures { ByOne }
{}

/// States that where none goes on for ever, the zone keeps one thing from the explicit end on.
pub fn without_a_continuing_rule_one_thing_is_in_force()
    ensures { ByNone }
{}

/// States that all that is in force or shown at some instant is so before the explicit end.
pub fn all_is_in_force_before_the_end()
    ensures { InForceBefore }
{}

/// States that the states of a zone come again after 400 years, for ever.
pub fn what_is_shown_repeats_for_ever()
    ensures { RepeatsForEver }
{}

/// States that where rules go on for ever and alternate, each occurrence from the last before the
/// explicit end on follows one of another rule.
pub fn rules_alternate_for_ever()
    ensures { AlternatesForEver }
{}

/// States that the state at an instant before the explicit end is shown since the last change.
pub fn a_state_stays_since_its_change()
    ensures { StaysSinceChange }
{}

/// States that where one thing is in force for ever, one state is shown after all changes.
pub fn one_state_is_shown_after_all_changes()
    ensures { OneStateAfterChanges }
{}
