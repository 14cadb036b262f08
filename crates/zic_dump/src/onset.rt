//! The instants from which local times apply.

ghost use Rattle.std.specs.Prelude.{◌<ℤ◌, ◌≤ℤ◌, IfSome};

use crate::stop::CalendarStop;
use crate::walk::next_change;
use zic_base::State;
use zic_calendar::SECONDS_OF_DAY;
use zic_tzif::{Answer, Zone};

/// The two kinds of observances.
#[derive(Clone, Copy, PartialEq, Eq)]
pub(crate) enum Kind {
    Standard,
    Daylight,
}

impl Kind {
    /// Returns the other one.
    pub(crate) fn other(self) -> Kind {
        match self {
            Kind::Standard => Kind::Daylight,
            Kind::Daylight => Kind::Standard,
        }
    }

    /// Returns the name of its component.
    pub(crate) fn name(self) -> &'static str {
        match self {
            Kind::Standard => "STANDARD",
            Kind::Daylight => "DAYLIGHT",
        }
    }
}

/// An instant from which a local time applies, mostly a change.
#[derive(Clone, Copy)]
pub(crate) struct Onset<'a> {
    instant: i64,
    /// The UT offset a second before, in seconds, positive east.
    pub before: i32,
    pub state: State<'a>,
}

impl Onset<'_> {
    /// Returns which kind of observance it begins.
    pub(crate) fn kind(&self) -> Kind {
        if self.state.daylight {
            Kind::Daylight
        } else {
            Kind::Standard
        }
    }

    /// Returns the seconds from 1970-01-01T00:00:00 that clocks with the UT offset before it show.
    pub(crate) fn local(&self) -> i64 {
        self.instant.saturating_add(i64::from(self.before))
    }

    /// Returns the day that these clocks show, in days from 1970-01-01.
    pub(crate) fn day(&self) -> i64 {
        self.local().div_euclid(SECONDS_OF_DAY)
    }

    /// Returns the time of day that these clocks show, in seconds from midnight.
    pub(crate) fn second_of_day(&self) -> i64 {
        self.local().rem_euclid(SECONDS_OF_DAY)
    }

    /// Returns whether another has the same offset before it and the same local time.
    pub(crate) fn is_like(&self, other: &Onset<'_>) -> bool {
        self.before == other.before && self.state == other.state
    }

    /// Returns whether one of some is like it.
    pub(crate) fn is_among(&self, onsets: &[Onset<'_>]) -> bool {
        for onset in onsets {
            if self.is_like(onset) {
                return true;
            }
        }
        false
    }
}

/// Returns the onset at an instant, or `Open` where the file leaves local time open.
pub(crate) fn onset_at(zone: &Zone, instant: i64) -> Result<Onset<'_>, CalendarStop> {
    match (zone.at(instant.saturating_sub(1)), zone.at(instant)) {
        (Answer::Known(before), Answer::Known(state)) => Ok(Onset {
            instant,
            before: before.offset,
            state,
        }),
        _ => Err(CalendarStop::Open),
    }
}

/// Adds the onsets at the changes after one instant and up to another, in order.
pub(crate) fn push_onsets<'a>(
    onsets: &mut Vec<Onset<'a>>,
    zone: &'a Zone,
    first: i64,
    last: i64,
) -> Result<(), CalendarStop> {
    let mut from = first;
    while let Some(change) = change_within(zone, from, last) {
        onsets.push(onset_at(zone, change)?)?;
        from = change;
    }
    Ok(())
}

/// Returns the first change after one instant, if it isn't after another.
fn change_within(zone: &Zone, first: i64, last: i64) -> Option<i64>
    ensures after { IfSome result (λ change. first <ℤ change) }
    ensures within { IfSome result (λ change. change ≤ℤ last) }
{
    match next_change(zone, first) {
        Some(change) if change <= last => Some(change),
        _ => None,
    }
}
