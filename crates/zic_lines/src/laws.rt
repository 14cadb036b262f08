//! Laws of lines as contracts: no function here does anything. The crates above cite the lemmas in
//! `proofs/` that prove them.
ghost use Rattle.zic_lines.specs.Laws.{SaysWherePassing, SaysOneThing, FieldsStandInRanges};

/// States that a line says something just where no check fails.
pub fn lines_say_where_checks_pass()
    ensures { SaysWherePassing }
{}

/// States that a line says at most one thing.
pub fn lines_say_one_thing()
    ensures { SaysOneThing }
{}

/// States that each field is the text of what stands in its range.
pub fn fields_stand_in_ranges()
    ensures { FieldsStandInRanges }
{}
