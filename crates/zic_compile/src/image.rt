//! The file of a zone, and the zone that a reader makes of it.

ghost use Rattle.std.specs.Prelude.{◌≡◌, ◌<◌, length, IfOk};
ghost use Rattle.zic_base.specs.Fault.{fault_of};
ghost use Rattle.zic_base.specs.Memory.{IfRefusal, OnOutOfMemory};
ghost use Rattle.zic_footer.specs.Making.{IsMade, GoesOn};
ghost use Rattle.zic_posix.specs.Footer.{TzString};
ghost use Rattle.zic_rules.specs.Timeline.{zone_of};
ghost use Rattle.zic_source.specs.Sound.{IsSoundSource};
ghost use Rattle.zic_states.specs.Fault.{IsSound};
ghost use Rattle.zic_table.specs.ContentOf.{IsFaultOfTable};
ghost use Rattle.zic_tzif.specs.Reading.{IsFile, IsSomeFile};
ghost use Rattle.zic_tzif.specs.Writing.{written};
ghost use Rattle.zic_compile.specs.Image.{IsImageOf, ReadsAs, IsFaultOfImage, IsFaultOfZone, ImageNeedsMemory};

use std::alloc::{AllocError, Global};
use zic_base::{Place, Stop};
use zic_files::Image;
use zic_footer::{Footer, make};
use zic_rules::{Timeline, timeline};
use zic_states::ListedSource;
use zic_table::table;
use zic_tzif::{ReadStop, Table, Zone, read, write};

/// Compiles the file of a zone, by the zone's number from 0 in the order of texts and lines: its
/// first state, all its changes before the explicit end and its footer, which, read by RFC 9636,
/// give at every instant what the zone's lines define.
///
/// Returns the fault of the zone's states, else of its footer, else of its table, at the place of
/// its Zone line, and `Memory` only for a zone in none of whose lines an offset is out of range. A
/// zone of one line without a set whose states or footer have a fault takes no memory.
pub fn image_of(alloc: Global, source: &ListedSource<'_>, zone: usize) -> Result<Image, Stop>
    requires { zone < length source.now.zones }
    ensures ok { IfOk result (IsImageOf (zone_of source.now zone)) }
    ensures reads { IfOk result (ReadsAs (zone_of source.now zone)) }
    ensures err { IfRefusal fault_of result (IsFaultOfZone (zone_of source.now zone)) }
    ensures memory { OnOutOfMemory fault_of result (ImageNeedsMemory (zone_of source.now zone)) }
{
    let lines = source.source();
    // `zones` also states that the source is sound.
    prove!(zone < lines.zones());
    let place = lines.line(zone, 0).place;
    let states = timeline(alloc, source, zone)?;
    let image = image_of_states(alloc, place, &states);
    drop(states);
    image
}

/// Compiles the file of a zone that shows these states, and whose Zone line stands at `place`.
fn image_of_states(alloc: Global, place: Place, states: &Timeline<'_>) -> Result<Image, Stop>
    requires source { IsSoundSource states.now.source }
    requires zone { states.now.number < length states.now.source.zones }
    requires sound { IsSound states.now }
    ensures ok { IfOk result (IsImageOf states.now) }
    ensures reads { IfOk result (ReadsAs states.now) }
    ensures err { IfRefusal fault_of result (IsFaultOfImage states.now place) }
    ensures memory { OnOutOfMemory fault_of result
        ((footer : TzString) × IsMade states.now footer) }
{
    let footer = make(alloc, place, states)?;
    let image = image_with(alloc, place, states, &footer);
    drop(footer);
    image
}

/// Compiles the same with the footer that was made for the zone.
fn image_with(
    alloc: Global,
    place: Place,
    states: &Timeline<'_>,
    footer: &Footer,
) -> Result<Image, Stop>
    requires source { IsSoundSource states.now.source }
    requires zone { states.now.number < length states.now.source.zones }
    requires sound { IsSound states.now }
    requires made { IsMade states.now footer.now }
    requires goes_on { GoesOn states.now footer.now }
    ensures ok { IfOk result (IsImageOf states.now) }
    ensures reads { IfOk result (ReadsAs states.now) }
    ensures err { IfRefusal fault_of result (IsFaultOfTable states.now place) }
{
    let table = table(alloc, place, states, footer)?;
    Ok(file_of(alloc, &table)?)
}

/// Returns the file of a table, and the zone that a reader makes of it.
fn file_of(alloc: Global, table: &Table) -> Result<Image, AllocError>
    ensures is { IfOk result
        (λ image. image ≡ record { octets = written table.now; content = table.now }) }
    ensures read { IfOk result (λ _. IsFile (written table.now) table.now) }
{
    let octets = write(alloc, table)?;
    let zone = read_back(alloc, &octets)?;
    Ok(Image::new(octets, zone))
}

/// Reads bytes that are a file.
fn read_back(alloc: Global, octets: &[u8]) -> Result<Zone, AllocError>
    requires { IsSomeFile octets.now }
    ensures { IfOk result (IsFile octets.now) }
{
    match read(alloc, octets) {
        Ok(zone) => Ok(zone),
        Err(ReadStop::Memory) => Err(AllocError),
        Err(ReadStop::Bad(_)) => unreachable!(),
    }
}
