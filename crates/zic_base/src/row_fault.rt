//! Faults of rows: their kinds and numbers.

ghost use Rattle.std.specs.Prelude.{◌≡◌};

/// The fault of a row. The number of each kind is fixed.
#[derive(Clone, Copy, Debug, PartialEq, Eq)]
pub enum RowKind {
    /// A record has another number of fields than the layout says.
    RowFields = 35,
    /// No file has the name.
    RowZone = 36,
    /// The field of the instant is none.
    RowInstant = 37,
    /// The instant is before 0001-01-02 or after 9999-12-30, UT.
    RowRange = 38,
    /// A record follows the last that there may be.
    TooManyRows = 39,
    /// The field of the local time is none.
    RowLocal = 40,
    /// Clocks pass over the local time.
    RowSkipped = 41,
    /// Clocks show the local time more than once.
    RowRepeated = 42,
    /// The double quotes of a record are open at its end, or a byte follows those of a field.
    RowQuote = 43,
    /// A record has more bytes than records may have.
    RowTooLong = 44,
    /// The record that is taken for a header names a known zone and has a valid time.
    HeaderIsRow = 45,
}

impl RowKind {
    ghost use Rattle.std.specs.Prelude.{◌≢◌, MatchOption};
    ghost use Rattle.zic_base.specs.RowFault.{row_kind_number, row_kind_word};

    /// Returns the number of the kind, 35 to 45: own choice.
    pub fn number(self) -> u8
        ensures { result ≡ row_kind_number self }
    {
        self as u8
    }

    /// Returns the name of the kind, which is that of its variant.
    pub fn name(self) -> &'static str
        ensures { result.now ≡ row_kind_word self }
    {
        match self {
            RowKind::RowFields => "RowFields",
            RowKind::RowZone => "RowZone",
            RowKind::RowInstant => "RowInstant",
            RowKind::RowRange => "RowRange",
            RowKind::TooManyRows => "TooManyRows",
            RowKind::RowLocal => "RowLocal",
            RowKind::RowSkipped => "RowSkipped",
            RowKind::RowRepeated => "RowRepeated",
            RowKind::RowQuote => "RowQuote",
            RowKind::RowTooLong => "RowTooLong",
            RowKind::HeaderIsRow => "HeaderIsRow",
        }
    }

    /// Returns the kind that has this number, if one has it.
    pub(crate) fn of_number(number: u32) -> Option<RowKind>
        ensures { MatchOption result ((kind : RowKind) → row_kind_number kind ≢ number)
            (λ kind. row_kind_number kind ≡ number) }
    {
        Some(match number {
            35 => RowKind::RowFields,
            36 => RowKind::RowZone,
            37 => RowKind::RowInstant,
            38 => RowKind::RowRange,
            39 => RowKind::TooManyRows,
            40 => RowKind::RowLocal,
            41 => RowKind::RowSkipped,
            42 => RowKind::RowRepeated,
            43 => RowKind::RowQuote,
            44 => RowKind::RowTooLong,
            45 => RowKind::HeaderIsRow,
            _ => return None,
        })
    }
}

/// A row with a fault, by its number from 1, and the fault.
#[derive(Clone, Copy, Debug, PartialEq, Eq)]
pub struct RowFault {
    pub row: u64,
    pub kind: RowKind,
}
