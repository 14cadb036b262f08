//! Laws of converted columns, each the contract of a function. No function here does anything.

ghost use Rattle.zic_convert.specs.Laws.{ColumnsConvertOnce, PlainColumnsConvertAlike};

use zic_columns::laws::{column_records_are_read, records_are_one};
use zic_tzif::laws::files_answer_once;

/// States that by the files of a source a column converts to at most one list of texts, and one fault
/// or none, also by each layout.
pub fn columns_convert_once()
    ensures { ColumnsConvertOnce }
{
    records_are_one();
    files_answer_once();
}

/// States that by a layout of plain rows a column has the rows, and the fault or none, that it has
/// without a layout, and no others, whether its first record is a header or not.
pub fn plain_columns_convert_alike()
    ensures { PlainColumnsConvertAlike }
{
    column_records_are_read();
    records_are_one();
}
