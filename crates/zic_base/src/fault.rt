//! Faults of a source: their kinds and places, and the names that numbers of faults stand for.

ghost use Rattle.std.specs.Prelude.{◌≡◌, ◌↔◌, IsTrue, ℕ, List, MatchOption};
ghost use Rattle.zic_base.specs.FaultName.{IsFaultName};

use crate::row_fault::RowKind;
use std::alloc::{AllocError, AllocFailed};

/// The kind of a fault of a source line, of a zone or of its file. The number of each kind is
/// fixed; 31 is not used.
#[derive(Clone, Copy, Debug, PartialEq, Eq)]
pub enum Kind {
    /// A byte outside a comment is neither white space nor from 0x21 to 0x7E.
    NotAscii = 1,
    /// A quoted part isn't closed in its line.
    Quote = 2,
    /// A line has more than 2,048 bytes without its newline.
    LineTooLong = 3,
    /// The first field is no keyword.
    Keyword = 4,
    /// A line has too few or too many fields.
    FieldCount = 5,
    /// A Zone or Link name, a link's target or the name of a rule set isn't allowed.
    Name = 6,
    /// FROM is no year from 1 to 9000, or TO is neither that nor `only` nor `maximum`.
    Year = 7,
    /// TO is below FROM.
    YearOrder = 8,
    /// The fifth field of a Rule line isn't `-`.
    Reserved = 9,
    /// IN is no month.
    Month = 10,
    /// ON is no day.
    Day = 11,
    /// AT is no time within 300:00:00 either way.
    Time = 12,
    /// SAVE, or an amount in RULES, is no time within 24:00:00 either way.
    Save = 13,
    /// LETTER isn't `-` or at most 16 ASCII letters, digits, `+` and `-`.
    Letter = 14,
    /// STDOFF is no time within 24:00:00 either way.
    Offset = 15,
    /// FORMAT has a `%` or `/` that may not stand there.
    Format = 16,
    /// A field of an UNTIL is wrong.
    Until = 17,
    /// A text ends after a line with an UNTIL; the place is that line's.
    NoContinuation = 18,
    /// A Zone or Link name was there before.
    DuplicateName = 19,
    /// A line passes a limit: 1,000 Rule lines of a set or 10,000 in all, 10,000 Zone and
    /// continuation lines, or 10,000 Zone and Link names.
    TooMany = 20,
    /// No Rule line has the set's name.
    UnknownRules = 21,
    /// A link's chain ends at a name that isn't there.
    UnknownTarget = 22,
    /// A link's chain has no end.
    LinkCycle = 23,
    /// A total UT offset passes 24:00:00 either way.
    OffsetRange = 24,
    /// Two occurrences of a rule set come at one time or in the wrong order.
    RulesOutOfOrder = 25,
    /// An UNTIL isn't after the one before it.
    UntilNotRising = 26,
    /// FORMAT wants a letter where there is none.
    NoLetter = 27,
    /// An abbreviation isn't 3 to 16 ASCII letters, digits, `+` and `-`.
    BadAbbreviation = 28,
    /// No POSIX TZ string goes on as the rules do.
    NoFooter = 29,
    /// The zone stays on daylight saving time for ever.
    PermanentDaylight = 30,
    /// A zone has more than 100,000 transitions.
    TooManyChanges = 32,
    /// A zone has more than 256 local time types.
    TooManyTypes = 33,
    /// A zone has more than 256 bytes of designations.
    TooManyChars = 34,
}

impl Kind {
    ghost use Rattle.std.specs.Prelude.{◌≢◌, MatchOption};
    ghost use Rattle.zic_base.specs.Fault.{kind_number, kind_word};

    /// Returns the number of the kind, 1 to 34; no kind has 31.
    pub fn number(self) -> u8
        ensures { result ≡ kind_number self }
    {
        self as u8
    }

    /// Returns the name of the kind, which is that of its variant.
    pub fn name(self) -> &'static str
        ensures { result.now ≡ kind_word self }
    {
        match self {
            Kind::NotAscii => "NotAscii",
            Kind::Quote => "Quote",
            Kind::LineTooLong => "LineTooLong",
            Kind::Keyword => "Keyword",
            Kind::FieldCount => "FieldCount",
            Kind::Name => "Name",
            Kind::Year => "Year",
            Kind::YearOrder => "YearOrder",
            Kind::Reserved => "Reserved",
            Kind::Month => "Month",
            Kind::Day => "Day",
            Kind::Time => "Time",
            Kind::Save => "Save",
            Kind::Letter => "Letter",
            Kind::Offset => "Offset",
            Kind::Format => "Format",
            Kind::Until => "Until",
            Kind::NoContinuation => "NoContinuation",
            Kind::DuplicateName => "DuplicateName",
            Kind::TooMany => "TooMany",
            Kind::UnknownRules => "UnknownRules",
            Kind::UnknownTarget => "UnknownTarget",
            Kind::LinkCycle => "LinkCycle",
            Kind::OffsetRange => "OffsetRange",
            Kind::RulesOutOfOrder => "RulesOutOfOrder",
            Kind::UntilNotRising => "UntilNotRising",
            Kind::NoLetter => "NoLetter",
            Kind::BadAbbreviation => "BadAbbreviation",
            Kind::NoFooter => "NoFooter",
            Kind::PermanentDaylight => "PermanentDaylight",
            Kind::TooManyChanges => "TooManyChanges",
            Kind::TooManyTypes => "TooManyTypes",
            Kind::TooManyChars => "TooManyChars",
        }
    }

    /// Returns the kind that has this number, if one has it.
    pub(crate) fn of_number(number: u32) -> Option<Kind>
        ensures { MatchOption result ((kind : Kind) → kind_number kind ≢ number)
            (λ kind. kind_number kind ≡ number) }
    {
        Some(match number {
            1 => Kind::NotAscii,
            2 => Kind::Quote,
            3 => Kind::LineTooLong,
            4 => Kind::Keyword,
            5 => Kind::FieldCount,
            6 => Kind::Name,
            7 => Kind::Year,
            8 => Kind::YearOrder,
            9 => Kind::Reserved,
            10 => Kind::Month,
            11 => Kind::Day,
            12 => Kind::Time,
            13 => Kind::Save,
            14 => Kind::Letter,
            15 => Kind::Offset,
            16 => Kind::Format,
            17 => Kind::Until,
            18 => Kind::NoContinuation,
            19 => Kind::DuplicateName,
            20 => Kind::TooMany,
            21 => Kind::UnknownRules,
            22 => Kind::UnknownTarget,
            23 => Kind::LinkCycle,
            24 => Kind::OffsetRange,
            25 => Kind::RulesOutOfOrder,
            26 => Kind::UntilNotRising,
            27 => Kind::NoLetter,
            28 => Kind::BadAbbreviation,
            29 => Kind::NoFooter,
            30 => Kind::PermanentDaylight,
            32 => Kind::TooManyChanges,
            33 => Kind::TooManyTypes,
            34 => Kind::TooManyChars,
            _ => return None,
        })
    }
}

/// A fault and the line where it stands.
#[derive(Clone, Copy, Debug, PartialEq, Eq)]
pub struct Fault {
    pub place: Place,
    pub kind: Kind,
}

/// The reason why a source isn't read, or a zone isn't compiled.
#[derive(Clone, Copy, Debug, PartialEq, Eq)]
pub enum Stop {
    /// The first fault.
    Fault(Fault),
    /// Out of memory.
    Memory,
}

impl Stop {
    ghost use Rattle.zic_base.specs.Fault.{fault_at};

    /// Returns the stop for a fault of this kind at this place.
    pub fn at(place: Place, kind: Kind) -> Stop
        ensures { result ≡ Stop.Fault (fault_at place kind) }
    {
        Stop::Fault(Fault { place, kind })
    }
}

impl From<AllocError> for Stop {
    ghost use Rattle.zic_base.specs.declared.fault.Stop.TheVariants.{Memory};

    ghost from_gives = { λ _ e. e ≡ Memory };

    fn from(_e: AllocError) -> Stop {
        Stop::Memory
    }
}

impl<T: Drop> From<AllocFailed<T>> for Stop {
    ghost use Rattle.zic_base.specs.declared.fault.Stop.TheVariants.{Memory};

    ghost from_gives = { λ _ e. e ≡ Memory };

    fn from(_e: AllocFailed<T>) -> Stop {
        Stop::Memory
    }
}

/// The place of a line: the text's number and the line's number in it, both from 1.
#[derive(Clone, Copy, Debug, PartialEq, Eq)]
pub struct Place {
    pub text: u64,
    pub line: u64,
}

impl Place {
    ghost use Rattle.zic_base.specs.Place.{IsBefore};

    /// Returns whether this place stands before the other: in an earlier text, or in an earlier
    /// line of the same text.
    pub fn is_before(self, other: Place) -> bool
        ensures { IsTrue result ↔ IsBefore self other }
    {
        self.text < other.text || (self.text == other.text && self.line < other.line)
    }
}

/// Returns the name of the fault whose kind has this number, if one has it: 1 to 34 are those of
/// sources, 35 to 44 those of rows.
pub fn name_of_fault(number: u32) -> Option<&'static str>
    ensures { MatchOption result ((name : List ℕ) → IsFaultName number name → ⊥)
        (λ name. IsFaultName number name.now) }
{
    match Kind::of_number(number) {
        Some(kind) => Some(kind.name()),
        None => Some(RowKind::of_number(number)?.name()),
    }
}
