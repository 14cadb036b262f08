//! Laws of lists by name, each the contract of a function. No function here does anything.

ghost use Rattle.zic_io.specs.Laws.{FaultLinesReadBack};

/// States that a CSV reader gives the fields of the line of a fault.
pub fn fault_lines_read_back()
    ensures { FaultLinesReadBack }
{}
