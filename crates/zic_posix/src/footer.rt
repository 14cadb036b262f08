//! A footer, what it says, and the limits of POSIX TZ strings.

ghost use Rattle.std.specs.Prelude.{◌≡◌};
ghost use Rattle.zic_posix.specs.Footer.{is_of_day, version_of};

use std::marker::Model;
use zic_base::{LONGEST_ABBREVIATION, ShortText};

/// The abbreviation of local time in a footer, without the `<` and `>` of its text. Clauses see
/// its bytes.
pub type Abbr = ShortText<LONGEST_ABBREVIATION>;

/// The day of a year on which daylight saving time starts or stops.
#[derive(Clone, Copy, Debug, PartialEq, Eq)]
pub enum DayRule {
    /// From 1 to 365; February 29 is never counted.
    J(u16),
    /// From 0 to 365; February 29 is counted.
    N(u16),
    /// A weekday of a month: the `week`th, 5 for the last; Sunday is 0.
    M { month: u8, week: u8, weekday: u8 },
}

/// A start or stop of daylight saving time in each year.
#[derive(Clone, Copy, Debug, PartialEq, Eq)]
pub struct Edge {
    pub day: DayRule,
    /// Seconds after the day's midnight: a start's in standard time, a stop's in daylight saving
    /// time.
    pub time: i32,
}

impl Edge {
    /// Returns whether the time is from 00:00:00 to 24:00:00.
    fn is_of_day(&self) -> bool
        ensures { result ≡ is_of_day self.now }
    {
        0 <= self.time && self.time <= 86_400
    }
}

/// Daylight saving time in a footer.
#[derive(Debug, Drop)]
pub struct Dst {
    pub name: Abbr,
    /// The UT offset in seconds, positive east.
    pub offset: i32,
    pub start: Edge,
    pub stop: Edge,
}

/// A POSIX TZ string, of TZif version 2 or 3: some text of version 3 spells it.
///
/// Code that makes one, or writes to a field, has to show that. Clauses see the string without
/// where its names lie in memory.
#[derive(Debug, Drop)]
pub struct Footer {
    /// The abbreviation of standard time.
    pub std: Abbr,
    /// The UT offset of standard time in seconds, positive east.
    pub offset: i32,
    /// Daylight saving time, if there is one.
    pub dst: Option<Dst>,
}

impl Model for Footer {
    ghost use Rattle.zic_posix.specs.Footer.{TzString};

    ghost Value = { TzString };

    ghost use Rattle.zic_posix.specs.Grammar.{IsTzString};

    ghost view = { λ f. record { std = f.std; offset = f.offset; dst = f.dst } };

    ghost invariant = { λ f. IsTzString (record { std = f.std; offset = f.offset; dst = f.dst }) };
}

impl Footer {
    /// Returns the version of TZif of a file with this string: 2 without a daylight part or with
    /// both its times in 0 to 24:00:00, else 3.
    pub fn version(&self) -> u8
        ensures { result ≡ version_of self.now }
    {
        match &self.dst {
            Some(dst) if !(dst.start.is_of_day() && dst.stop.is_of_day()) => 3,
            _ => 2,
        }
    }
}

/// The fewest bytes of a name: POSIX TZ.
pub const SHORTEST_NAME: usize = 3;

/// The most hours of an offset, and of a time of version 2: POSIX TZ.
pub const MAX_HOURS: u8 = 24;

/// The most hours of a time of version 3: RFC 9636, 3.3.1.
pub const MAX_WIDE_HOURS: u8 = 167;

/// The most minutes of an hour, and seconds of a minute.
pub const MAX_MINUTES_OR_SECONDS: u8 = 59;

/// The greatest number of a day of a year: POSIX TZ.
pub const LAST_DAY: u16 = 365;

/// The time of an edge that names none, in seconds: POSIX TZ.
pub const USUAL_TIME: i32 = 7200;

/// The seconds that daylight saving time is ahead of standard time where a string doesn't say it:
/// POSIX TZ.
pub const USUAL_SAVING: i32 = 3600;
