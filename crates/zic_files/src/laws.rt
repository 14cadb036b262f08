//! Laws of the files of trees, each the contract of a function. No function here does anything.

ghost use Rattle.zic_files.specs.Laws.{FilesStay, RepliesHaveFiles};

use zic_tzif::laws::{files_say_one, footers_leave_nothing_open, states_have_numbers};

/// States that the files of replies stay as they are, whatever a tree replies to other names.
pub fn files_stay()
    ensures { FilesStay }
{
    files_say_one();
}

/// States that the replies of a tree to names of zones, each requested once, have
/// files.
pub fn replies_have_files()
    ensures { RepliesHaveFiles }
{
    states_have_numbers();
    footers_leave_nothing_open();
}
