//! Local times, what a file answers for one, and why no instant is meant by it.

ghost use Rattle.std.specs.Prelude.{◌≡◌, ◌↔◌, IsSome, IfSome, ◌≤◌, ◌+ℤ◌, unsigned_abs};
ghost use Rattle.zic_local.specs.LocalTime.{IsInRange};
ghost use Rattle.zic_base.specs.declared.constants.TheConstants.{FARTHEST_FILE_OFFSET};
ghost use Rattle.zic_local.specs.code.Walk.{MOST_INSTANTS, found_count, with_instant, with_gap};

use std::marker::Model;
use zic_base::FARTHEST_FILE_OFFSET;

/// A local time in seconds since 1970-01-01 00:00 on the clocks of the place, of which each instant
/// within 25:59:59 is in 64 bits. Clauses see the seconds.
#[derive(Debug, Drop)]
pub struct LocalTime {
    seconds: i64,
}

impl Model for LocalTime {
    ghost use Rattle.std.specs.Prelude.{ℤ};
    ghost use Rattle.zic_local.specs.LocalTime.{IsInRange};

    ghost Value = { ℤ };

    ghost view = { λ l. l.seconds };

    ghost invariant = { λ l. IsInRange l.seconds };
}

impl LocalTime {
    /// Returns the local time with this number of seconds, or `None` within 93,599 seconds of either
    /// end of 64 bits.
    pub fn new(seconds: i64) -> Option<LocalTime>
        ensures just { IsSome result ↔ IsInRange seconds }
        ensures some { IfSome result (λ local. local ≡ seconds) }
    {
        let farthest = i64::from(FARTHEST_FILE_OFFSET);
        if seconds < i64::MIN + farthest || seconds > i64::MAX - farthest {
            return None;
        }
        Some(LocalTime { seconds })
    }

    /// Returns the seconds.
    pub fn seconds(&self) -> i64
        ensures value { result ≡ self.now }
        ensures range { IsInRange result }
    {
        self.seconds
    }
}

/// Why no instant is meant.
#[derive(Clone, Copy, Debug, PartialEq, Eq)]
pub enum Unresolved {
    /// The local time is in a gap, which the choice refuses.
    Gap,
    /// The local time is in a fold, which the choice refuses.
    Fold,
    /// The file leaves local time open where the local time would be.
    Unspecified,
}

/// Returns the instant at which clocks with a UT offset show a local time.
pub(crate) fn read_by(local: i64, offset: i32) -> i64
    requires range { IsInRange local }
    requires near { unsigned_abs offset ≤ FARTHEST_FILE_OFFSET }
    ensures { result +ℤ offset ≡ local }
{
    local - offset as i64
}

/// A change of the UT offset at which clocks go forward.
#[derive(Clone, Copy, Debug, PartialEq, Eq)]
pub struct Gap {
    /// The change's instant, in seconds since 1970-01-01 00:00 UT.
    pub change: i64,
    /// The UT offset before it, in seconds, positive east.
    pub before: i32,
    /// The UT offset from it on.
    pub after: i32,
}

/// Several instants at which clocks show the same.
#[derive(Clone, Copy, Debug, PartialEq, Eq)]
pub struct Fold {
    /// In seconds since 1970-01-01 00:00 UT.
    pub first: i64,
    pub last: i64,
    /// How many instants there are, 2 or more.
    pub count: u32,
}

/// The instants of a local time.
#[derive(Clone, Copy, Debug, PartialEq, Eq)]
pub enum LocalInstants {
    /// None, since clocks pass over it at a change, the first of these.
    Gap(Gap),
    /// One, in seconds since 1970-01-01 00:00 UT.
    One(i64),
    /// Several.
    Fold(Fold),
    /// None, since the file leaves local time open where it would be.
    Unspecified,
}

impl LocalInstants {
    /// Returns these and an instant after them, if there is one.
    pub(crate) fn with_instant(self, instant: Option<i64>) -> LocalInstants
        requires { found_count self ≤ MOST_INSTANTS }
        ensures { result ≡ with_instant self instant }
    {
        let Some(t) = instant else {
            return self;
        };
        match self {
            LocalInstants::One(first) => LocalInstants::Fold(Fold {
                first,
                last: t,
                count: 2,
            }),
            LocalInstants::Fold(fold) => LocalInstants::Fold(Fold {
                first: fold.first,
                last: t,
                count: fold.count + 1,
            }),
            _ => LocalInstants::One(t),
        }
    }

    /// Returns these, or the gap, if there is one and no instant was found yet.
    pub(crate) fn with_gap(self, gap: Option<Gap>) -> LocalInstants
        ensures { result ≡ with_gap self gap }
    {
        match (self, gap) {
            (LocalInstants::Unspecified, Some(gap)) => LocalInstants::Gap(gap),
            _ => self,
        }
    }
}
