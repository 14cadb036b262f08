//! What causes the fault of a zone.

ghost use Rattle.std.specs.Prelude.{◌<◌, length};
ghost use Rattle.zic_source.specs.Sound.{IsSoundLine};

use crate::ends::{tail_cause, until_cause};
use crate::names::name_cause;
use crate::offsets::offset_cause;
use crate::order::order_cause;
use crate::zone::{line_of, zone_at};
use std::alloc::{AllocError, Global};
use zic_lines::{Kind, Place, Stop, ZoneLine};
use zic_source::{Source, read_source};
use zic_states::ListedSource;

/// What causes the fault of a zone.
#[derive(Debug, Drop)]
pub struct Cause {
    /// The places of the lines that cause it: Zone and continuation lines, and then rules.
    pub places: Vec<Place>,
    /// The year, where rules are out of order.
    pub year: Option<u16>,
    /// The abbreviation that no file may have, where there is one.
    pub abbreviation: Option<Vec<u8>>,
}

impl Cause {
    /// Returns the cause that these lines are.
    pub(crate) fn at(alloc: Global, places: &[Place]) -> Result<Option<Cause>, AllocError> {
        Ok(Some(Cause {
            places: Vec::from_slice(alloc, places)?,
            year: None,
            abbreviation: None,
        }))
    }
}

/// Returns what causes a fault of this kind of the zone whose Zone line stands at `zone`, in the
/// source that the texts are; `None` where the texts are no source, no zone is there, or a fault of
/// this kind has no lines but that.
///
/// # Errors
///
/// Memory ran out.
pub fn cause_of(
    alloc: Global,
    texts: &[Vec<u8>],
    kind: Kind,
    zone: Place,
) -> Result<Option<Cause>, AllocError> {
    match read_source(alloc, texts) {
        Ok(source) => {
            let cause = cause_in(alloc, &source, kind, zone);
            drop(source);
            cause
        }
        Err(Stop::Fault(_)) => Ok(None),
        Err(Stop::Memory) => Err(AllocError),
    }
}

/// Returns the same in a source that was read.
fn cause_in(
    alloc: Global,
    source: &Source,
    kind: Kind,
    zone: Place,
) -> Result<Option<Cause>, AllocError> {
    let Some(number) = zone_at(source, zone) else {
        return Ok(None);
    };
    let listed = ListedSource::new(alloc, source);
    let cause = cause_in_zone(alloc, &listed, kind, number);
    drop(listed);
    cause
}

/// Returns the same for the first line of the zone of this number that has one.
fn cause_in_zone(
    alloc: Global,
    listed: &ListedSource<'_>,
    kind: Kind,
    zone: usize,
) -> Result<Option<Cause>, AllocError>
    requires { zone < length listed.now.zones }
{
    for number in 0..listed.source().lines(zone) {
        let cause = match kind {
            Kind::UntilNotRising => until_cause(alloc, listed, zone, number)?,
            _ => match line_of(listed.source(), zone, number) {
                Some(line) => cause_on(alloc, listed, kind, line)?,
                None => None,
            },
        };
        if cause.is_some() {
            return Ok(cause);
        }
    }
    Ok(None)
}

/// Returns what causes a fault of this kind on a line.
fn cause_on(
    alloc: Global,
    listed: &ListedSource<'_>,
    kind: Kind,
    line: &ZoneLine,
) -> Result<Option<Cause>, AllocError>
    requires { IsSoundLine listed.now.rules line.now }
{
    match kind {
        Kind::OffsetRange => offset_cause(alloc, listed.source(), line),
        Kind::RulesOutOfOrder => order_cause(alloc, listed.source(), line),
        Kind::NoLetter | Kind::BadAbbreviation => name_cause(alloc, listed.source(), kind, line),
        Kind::NoFooter | Kind::PermanentDaylight => tail_cause(alloc, listed, kind, line),
        _ => Ok(None),
    }
}
