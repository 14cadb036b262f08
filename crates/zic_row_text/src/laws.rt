//! Laws of local time, each the contract of a function. No function here does anything.
ghost use Rattle.zic_row_text.specs.Local.{IsCivilTime};
ghost use Rattle.zic_row_text.specs.ReadBack.{IsoIsReadBack, LocalIsReadBack, UtcIsReadBack};

/// The local time of an instant is the civil time of its day and second, as `zic_calendar` has it.
pub fn local_time_is_civil()
    ensures { IsCivilTime }
{}

/// The text of an instant with an offset of less than 24 hours either way, as rows have it, is read as the
/// same count.
pub fn instants_are_read_back()
    ensures { IsoIsReadBack }
{}

/// The text of an instant in UT, as rows have it, is read as the same count.
pub fn instants_in_ut_are_read_back()
    ensures { UtcIsReadBack }
{}

/// The text of a local time, as rows have it, is read as the same count.
pub fn local_times_are_read_back()
    ensures { LocalIsReadBack }
{}
