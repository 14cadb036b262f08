//! Laws of the definitions that the contracts of this crate cite. These functions do nothing.

ghost use Rattle.zic_columns.specs.Laws.{ColumnRecordsAreRead, PlainRecordsAreRead, RecordsAreCut, RecordsAreOne};
ghost use Rattle.zic_columns.specs.Laws.{OwnTextsAreOfRecords, PiecesHaveRecords, WholeRecordsAreCut};
ghost use Rattle.zic_columns.specs.Laws.{ColumnIsOwnBytes, FirstRecordIsAlone, OwnBytesAreRecords, OwnBytesAreTrimmed, RecordsAreOfOwnBytes};
ghost use Rattle.zic_columns.specs.Laws.{LinesAreCut, LinesAreTruncated, LinesWithoutQuotesAreCsv};
ghost use Rattle.zic_columns.specs.Laws.{RawFieldsAreOfFields, RawFieldsAreOwnBytes};
ghost use Rattle.zic_columns.specs.Laws.{PlainBytesHaveNoStray, RfcRecordsHaveNoStray, TextsByAreOfRecords};

/// States that a CSV reader gives bytes their records.
pub fn column_records_are_read()
    ensures { ColumnRecordsAreRead }
{}

/// States that a CSV reader gives bytes one list of records.
pub fn records_are_one()
    ensures { RecordsAreOne }
{}

/// States that bytes without a double quote have the fields of each line as records.
pub fn plain_records_are_read()
    ensures { PlainRecordsAreRead }
{}

/// States that wherever a CSV reader stands before a record, the records of the whole are those
/// before and those after.
pub fn records_are_cut()
    ensures { RecordsAreCut }
{}

/// States that each record has its own bytes.
pub fn own_texts_are_of_records()
    ensures { OwnTextsAreOfRecords }
{}

/// States that whatever follows whole records, its records with their own bytes come after theirs.
pub fn whole_records_are_cut()
    ensures { WholeRecordsAreCut }
{}

/// States that the records of pieces with their own bytes have the fields of the records.
pub fn pieces_have_records()
    ensures { PiecesHaveRecords }
{}

/// States that the own bytes of a record are, by themselves, that record alone.
pub fn own_bytes_are_records()
    ensures { OwnBytesAreRecords }
{}

/// States that a record's own bytes neither begin nor end with a line end around the record.
pub fn own_bytes_are_trimmed()
    ensures { OwnBytesAreTrimmed }
{}

/// States that the records of a column are those of their own bytes, each by itself.
pub fn records_are_of_own_bytes()
    ensures { RecordsAreOfOwnBytes }
{}

/// States that a column is the own bytes of its records, in order, with line ends alone before, between
/// and after them.
pub fn column_is_own_bytes()
    ensures { ColumnIsOwnBytes }
{}

/// States that bytes without a double quote have the same records whether each line is one or not.
pub fn lines_without_quotes_are_csv()
    ensures { LinesWithoutQuotesAreCsv }
{}

/// States that a column in which each line is a record can be cut after any line end.
pub fn lines_are_cut()
    ensures { LinesAreCut }
{}

/// States that truncated lines are the first bytes of each line.
pub fn lines_are_truncated()
    ensures { LinesAreTruncated }
{}

/// States that each record has its own bytes, wherever records end.
pub fn texts_by_are_of_records()
    ensures { TextsByAreOfRecords }
{}

/// States that bytes without a double quote have no stray one.
pub fn plain_bytes_have_no_stray()
    ensures { PlainBytesHaveNoStray }
{}

/// States that a record as RFC 4180 has it has no stray double quote.
pub fn rfc_records_have_no_stray()
    ensures { RfcRecordsHaveNoStray }
{}

/// States that the own bytes of the first record, by themselves, are that record alone.
pub fn first_record_is_alone()
    ensures { FirstRecordIsAlone }
{}

/// States that the raw fields of a record's own bytes, with delimiters between them, are these bytes.
pub fn raw_fields_are_own_bytes()
    ensures { RawFieldsAreOwnBytes }
{}

/// States that each record has as many raw fields as fields.
pub fn raw_fields_are_of_fields()
    ensures { RawFieldsAreOfFields }
{}
