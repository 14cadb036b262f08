//! The names of the files, in order, each with the number of its zone.

ghost use Rattle.std.specs.Prelude.{◌≡◌, ◌<◌, ◌+◌, ◌≤◌, true, false, length, slice_get, IfOk, IfErr, IfSome};
ghost use Rattle.zic_source.specs.Links.{EndsAt};
ghost use Rattle.zic_source.specs.Source.{zone_at};
ghost use Rattle.zic_compile.specs.code.Entries.{AreEntriesOf, IsEntryOfZone, IsEntryOfLink, IsZoneNext, IsLinkNext};

use std::alloc::{AllocError, Global};
use zic_files::Entry;
use zic_source::Source;

/// Returns the entries of all Zone and Link lines, in the order of the texts and their lines.
pub(crate) fn entries_of(alloc: Global, source: &Source) -> Result<Vec<Entry>, AllocError>
    ensures ok { IfOk result (λ entries. AreEntriesOf source.now entries.items) }
    ensures memory { IfErr result (λ _. 0 < length source.now.zones) }
{
    let mut entries = Vec::new(alloc);
    let mut zone = 0;
    let mut link = 0;
    for _ in 0..source.zones() + source.links() {
        if is_zone_next(source, zone, link) {
            entries.push(zone_entry(source, zone)?)?;
            zone += 1;
        } else {
            entries.push(link_entry(source, link)?)?;
            link += 1;
        }
    }
    Ok(entries)
}

/// Returns whether the Zone line of this number comes before the Link line of that number, where
/// one of them is there.
fn is_zone_next(source: &Source, zone: usize, link: usize) -> bool
    requires zone { zone ≤ length source.now.zones }
    requires link { link ≤ length source.now.links }
    requires some { zone + link < length source.now.zones + length source.now.links }
    ensures zone { result ≡ true → IsZoneNext source.now zone link }
    ensures link { result ≡ false → IsLinkNext source.now zone link }
{
    if zone == source.zones() {
        return false;
    }
    if link == source.links() {
        return true;
    }
    source
        .line(zone, 0)
        .place
        .is_before(source.link(link).place)
}

/// Returns the entry of a Zone line.
fn zone_entry(source: &Source, zone: usize) -> Result<Entry, AllocError>
    requires { zone < length source.now.zones }
    ensures { IfOk result (IsEntryOfZone source.now zone) }
{
    let name = source.zone_name(zone).clone()?;
    Ok(Entry { name, zone })
}

/// Returns the entry of a Link line: its zone is the one at the end of its chain.
fn link_entry(source: &Source, link: usize) -> Result<Entry, AllocError>
    requires { link < length source.now.links }
    ensures { IfOk result (IsEntryOfLink source.now link) }
{
    let name = source.link(link).name.clone()?;
    let zone = source.link_zone(link);
    Ok(Entry { name, zone })
}
