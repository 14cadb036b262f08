//! Reasons why bytes are no TZif file.

ghost use Rattle.std.specs.Prelude.{◌≡◌, ℕ, List, MatchOption};
ghost use Rattle.zic_tzif.specs.Reason.{IsReasonName};

use std::alloc::{AllocError, AllocFailed};

/// The check of a reader that fails first. The number of each is fixed.
#[derive(Clone, Copy, Debug, PartialEq, Eq)]
pub enum Reason {
    /// The bytes end before the file does.
    Short = 1,
    /// They do not begin with `TZif`.
    Magic = 2,
    /// The version is neither 2 nor 3.
    Version = 3,
    /// The second header's first five bytes are not those of the first.
    HeadersDiffer = 4,
    /// There is no type or no designation, or the number of standard or UT indicators is neither 0
    /// nor that of the types.
    Counts = 5,
    /// There are leap seconds.
    LeapSeconds = 6,
    /// The transition times do not rise.
    TimesNotRising = 7,
    /// A transition has a type that is not there.
    TypeIndex = 8,
    /// A type's designation is not there, or not printable ASCII ended by NUL.
    Designation = 9,
    /// A type's flag is neither 0 nor 1, or its offset passes 25:59:59 either way.
    TypeRecord = 10,
    /// An indicator is neither 0 nor 1.
    Indicators = 11,
    /// No newline and TZ string stand where the footer does, or it disagrees with the last
    /// transition.
    Footer = 12,
    /// Bytes follow the footer.
    TrailingBytes = 13,
    /// There are more than 1,048,576 bytes.
    TooLarge = 14,
}

impl Reason {
    ghost use Rattle.std.specs.Prelude.{◌≢◌, MatchOption};
    ghost use Rattle.zic_tzif.specs.Reason.{reason_number, reason_word};

    /// Returns the number of the reason, 1 to 14: own choice.
    pub fn number(self) -> u8
        ensures { result ≡ reason_number self }
    {
        self as u8
    }

    /// Returns the name of the reason, which is that of its variant.
    pub fn name(self) -> &'static str
        ensures { result.now ≡ reason_word self }
    {
        match self {
            Reason::Short => "Short",
            Reason::Magic => "Magic",
            Reason::Version => "Version",
            Reason::HeadersDiffer => "HeadersDiffer",
            Reason::Counts => "Counts",
            Reason::LeapSeconds => "LeapSeconds",
            Reason::TimesNotRising => "TimesNotRising",
            Reason::TypeIndex => "TypeIndex",
            Reason::Designation => "Designation",
            Reason::TypeRecord => "TypeRecord",
            Reason::Indicators => "Indicators",
            Reason::Footer => "Footer",
            Reason::TrailingBytes => "TrailingBytes",
            Reason::TooLarge => "TooLarge",
        }
    }

    /// Returns the reason that has this number, if one has it.
    pub(crate) fn of_number(number: u32) -> Option<Reason>
        ensures { MatchOption result ((reason : Reason) → reason_number reason ≢ number)
            (λ reason. reason_number reason ≡ number) }
    {
        Some(match number {
            1 => Reason::Short,
            2 => Reason::Magic,
            3 => Reason::Version,
            4 => Reason::HeadersDiffer,
            5 => Reason::Counts,
            6 => Reason::LeapSeconds,
            7 => Reason::TimesNotRising,
            8 => Reason::TypeIndex,
            9 => Reason::Designation,
            10 => Reason::TypeRecord,
            11 => Reason::Indicators,
            12 => Reason::Footer,
            13 => Reason::TrailingBytes,
            14 => Reason::TooLarge,
            _ => return None,
        })
    }
}

/// Returns the name of the reason that has this number, if one has it.
pub fn name_of_reason(number: u32) -> Option<&'static str>
    ensures { MatchOption result ((name : List ℕ) → IsReasonName number name → ⊥)
        (λ name. IsReasonName number name.now) }
{
    Some(Reason::of_number(number)?.name())
}

/// The reason why a file isn't read.
#[derive(Clone, Copy, Debug, PartialEq, Eq)]
pub enum ReadStop {
    /// The first check that fails.
    Bad(Reason),
    /// A growth of memory was refused.
    Memory,
}

impl From<Reason> for ReadStop {
    ghost use Rattle.zic_tzif.specs.declared.reason.ReadStop.TheVariants.{Bad};

    ghost from_gives = { λ r e. e ≡ Bad r };

    fn from(reason: Reason) -> ReadStop {
        ReadStop::Bad(reason)
    }
}

impl From<AllocError> for ReadStop {
    ghost use Rattle.zic_tzif.specs.declared.reason.ReadStop.TheVariants.{Memory};

    ghost from_gives = { λ _ e. e ≡ Memory };

    fn from(_e: AllocError) -> ReadStop {
        ReadStop::Memory
    }
}

impl<T: Drop> From<AllocFailed<T>> for ReadStop {
    ghost use Rattle.zic_tzif.specs.declared.reason.ReadStop.TheVariants.{Memory};

    ghost from_gives = { λ _ e. e ≡ Memory };

    fn from(_e: AllocFailed<T>) -> ReadStop {
        ReadStop::Memory
    }
}
