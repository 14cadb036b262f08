//! What is listed of two lists of files, as C passes it.

ghost use Rattle.std.specs.Prelude.{◌≡◌, Bool, MatchOption};
ghost use Rattle.pzic_files.specs.DiffOptions.{HasNoListing, IsComparedBy, IsListedBy, ignore_number};

use zic_compare::{Comparison, Grouping, Listed, Style, Survey};
use zic_layouts::Compared;
use zic_tzif::Instants;

/// What is listed of the names of two lists of files, by numbers.
#[repr(C)]
#[derive(Clone, Copy, Drop)]
pub struct DiffOptions {
    /// The first instant that is looked at.
    pub first: i64,
    /// The last of spans.
    pub last: i64,
    /// The instant up to which an end of differences is past, in summaries.
    pub present: i64,
    /// The number of what is listed.
    pub listed: u32,
    /// Whether daylight flags are left out of the comparison: 0 or 1.
    pub ignore_daylight: u32,
    /// Whether abbreviations are: 0 or 1.
    pub ignore_abbreviation: u32,
}

/// Returns whether a part of answers is compared, if this number says it.
fn is_compared(ignore: u32) -> Option<bool>
    ensures { MatchOption result ((compared : Bool) → ignore ≡ ignore_number compared → ⊥)
        (λ compared. ignore ≡ ignore_number compared) }
{
    match ignore {
        0 => Some(true),
        1 => Some(false),
        _ => None,
    }
}

/// Returns what is compared, if the numbers say it.
fn compared_of(given: &DiffOptions) -> Option<Compared>
    ensures { MatchOption result ((compared : Compared) → IsComparedBy given.now compared → ⊥)
        (IsComparedBy given.now) }
{
    let daylight = is_compared(given.ignore_daylight)?;
    let abbreviation = is_compared(given.ignore_abbreviation)?;
    Some(Compared {
        daylight,
        abbreviation,
    })
}

/// Returns what is listed by the options, if anything is.
pub(crate) fn listed_of(given: &DiffOptions) -> Option<Listed>
    ensures { MatchOption result (HasNoListing given.now) (IsListedBy given.now) }
{
    let compared = compared_of(given)?;
    let bounds = Instants {
        first: given.first,
        last: given.last,
    };
    match given.listed {
        0 if given.first <= given.last => Some(Listed::Spans(Comparison {
            compared,
            style: Style::Count,
            grouping: Grouping::Apart,
            bounds,
        })),
        1 => Some(Listed::Summaries(Survey {
            compared,
            style: Style::Count,
            grouping: Grouping::Apart,
            since: given.first,
            present: given.present,
        })),
        _ => None,
    }
}
