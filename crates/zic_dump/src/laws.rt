//! Laws of the changes of a file, each the contract of a function. No function here does anything.

ghost use Rattle.zic_dump.specs.Laws.{ChangesComeAgain, OneDump};

use zic_calendar::laws::each_second_has_one_civil_time;
use zic_tzif::laws::files_say_one;

/// States that `dump` has at most one answer for a file, a path and two years.
pub fn a_file_has_one_dump()
    ensures { OneDump }
{
    files_say_one();
    each_second_has_one_civil_time();
}

/// States that local time that doesn't change for 400 years after the last transition never changes
/// again.
pub fn changes_come_again()
    ensures { ChangesComeAgain }
{}
