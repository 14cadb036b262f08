//! Laws of what is due, each the contract of a function. No function here does anything.

ghost use Rattle.zic_local.specs.ScheduleLaws.{NextIsOne, ClocksShowDueTimes};

/// States that a schedule has at most one next instant, or none.
pub fn next_is_one()
    ensures { NextIsOne }
{}

/// States that clocks show the time of day whenever a schedule is due, but where clocks pass over it.
pub fn clocks_show_due_times()
    ensures { ClocksShowDueTimes }
{}
