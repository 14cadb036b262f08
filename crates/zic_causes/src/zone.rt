//! Zones of a source, by the places of their lines.

ghost use Rattle.std.specs.Prelude.{◌<◌, length, IfSome};
ghost use Rattle.zic_source.specs.Sound.{IsSoundLine};

use zic_lines::{Place, ZoneLine};
use zic_source::Source;

/// Returns the number of the zone whose Zone line stands at this place.
pub(crate) fn zone_at(source: &Source, place: Place) -> Option<usize>
    ensures { IfSome result (λ zone. zone < length source.now.zones) }
{
    for zone in 0..source.zones() {
        if let Some(line) = line_of(source, zone, 0) {
            if line.place == place {
                return Some(zone);
            }
        }
    }
    None
}

/// Returns a line of a zone by its number from 0, if there is one.
pub(crate) fn line_of(source: &Source, zone: usize, number: usize) -> Option<&ZoneLine>
    requires { zone < length source.now.zones }
    ensures { IfSome result (λ line. IsSoundLine source.now.rules line.now) }
{
    if number >= source.lines(zone) {
        return None;
    }
    Some(source.line(zone, number))
}
