//! Laws of TZif files, each the contract of a function. No function here does anything.

ghost use Rattle.zic_tzif.specs.Laws.{FilesHaveNoFault, FilesSayOne, FaultsAreOne, FilesAnswerOnce, StatesHaveNumbers, FootersLeaveNothingOpen};

/// States that no bytes are both a file and faulty.
pub fn files_have_no_fault()
    ensures { FilesHaveNoFault }
{}

/// States that a file says one thing.
pub fn files_say_one()
    ensures { FilesSayOne }
{}

/// States that faulty bytes have one reason.
pub fn faults_are_one()
    ensures { FaultsAreOne }
{}

/// States that a file answers exactly one thing at every instant.
pub fn files_answer_once()
    ensures { FilesAnswerOnce }
{}

/// States that each state that a content gives at an instant has a number, and that a number has
/// no other state.
pub fn states_have_numbers()
    ensures { StatesHaveNumbers }
{}

/// States that a content whose footer has a text leaves local time open at no instant.
pub fn footers_leave_nothing_open()
    ensures { FootersLeaveNothingOpen }
{}
