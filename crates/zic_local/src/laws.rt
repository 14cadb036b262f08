//! Laws of the instants of local times, each the contract of a function. No function here does
//! anything.

ghost use Rattle.zic_local.specs.Laws.{InstantsAreNear, InstantsAreListedOnce, OneAnswerForEachLocalTime, InstantsComeBack, ChoicesMeanOne};

use zic_tzif::laws::files_answer_once;

/// States that a file's UT offsets are within 25:59:59, and that an instant is as near its local
/// time as UT offsets are to 0.
pub fn instants_are_near()
    ensures { InstantsAreNear }
{}

/// States that the instants of a local time are one list, whichever file and local time it is.
pub fn instants_are_listed_once()
    ensures { InstantsAreListedOnce }
{
    files_answer_once();
}

/// States that a file has exactly one answer for each local time, and always an instant or a gap
/// where it leaves local time open nowhere.
pub fn each_local_time_has_one_answer()
    ensures { OneAnswerForEachLocalTime }
{
    files_answer_once();
}

/// States that an instant is among those of the local time that clocks show at it.
pub fn instants_come_back()
    ensures { InstantsComeBack }
{}

/// States that each choice has at most one answer, an instant or a reason why there is none.
pub fn choices_mean_one()
    ensures { ChoicesMeanOne }
{}
