//! Laws of differences, each the contract of a function. No function here does anything.

ghost use Rattle.zic_compare.specs.Laws.{FourHundredYearsDecide, NoFileDiffersFromItself};

/// States that a file doesn't differ from itself.
pub fn no_file_differs_from_itself()
    ensures { NoFileDiffersFromItself }
{}

/// States that 400 years after the last transition of two files decide whether they agree for ever or
/// differ again and again.
pub fn four_hundred_years_decide()
    ensures { FourHundredYearsDecide }
{}
