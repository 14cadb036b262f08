//! Compiles a source on the calling thread, and the images of its zones.

ghost use Rattle.std.specs.Prelude.{◌<◌, length, IfOk, IfErr, ◌≤◌};
ghost use Rattle.zic_base.specs.Fault.{fault_of};
ghost use Rattle.zic_base.specs.Memory.{IfRefusal, OnOutOfMemory};
ghost use Rattle.zic_compile.specs.Files.{AreImagesOf, AreFilesOf, IsFaultOfFiles, CompileNeedsMemory};
ghost use Rattle.zic_compile.specs.code.Zones.{AreImagesWithin, IsFaultWithin, NeedsMemoryWithin};

use crate::entry::entries_of;
use crate::image::image_of;
use std::alloc::{AllocError, Global};
use zic_files::{Files, Image};
use zic_source::{Source, Stop};
use zic_states::ListedSource;

/// Returns the files of all Zone and Link lines, in the order of the texts and their lines: a
/// zone's with its image, a link's with that of the zone at the end of its chain. Each, read by
/// RFC 9636, gives at every instant what the lines of its zone define.
///
/// # Errors
///
/// The fault of the first zone in that order that has one. Memory runs out only at a zone before
/// which each zone has an image, in none of whose lines an offset is out of range, and which has
/// more than one line or a set, or no fault of its states and its footer.
pub fn compile(alloc: Global, source: &Source) -> Result<Files, Stop>
    ensures ok { IfOk result (AreFilesOf source.now) }
    ensures err { IfRefusal fault_of result (IsFaultOfFiles source.now) }
    ensures memory { OnOutOfMemory fault_of result (CompileNeedsMemory source.now) }
{
    let images = images_of(alloc, source, 0, source.zones())?;
    let files = files_of(alloc, source, images)?;
    Ok(files)
}

/// Returns the files of a source, by the images of all zones.
pub(crate) fn files_of(
    alloc: Global,
    source: &Source,
    images: Vec<Image>,
) -> Result<Files, AllocError>
    requires { AreImagesOf source.now images.items }
    ensures ok { IfOk result (AreFilesOf source.now) }
    ensures memory { IfErr result (λ _. 0 < length source.now.zones) }
{
    // `zones` also states that the source is sound.
    prove!(images.len() == source.zones());
    let entries = entries_of(alloc, source)?;
    let files = Files::new(alloc, images, entries)?;
    Ok(files)
}

/// Returns the images of the zones from one number on up to another, in order, or the fault of the
/// first that has one.
pub(crate) fn images_of(
    alloc: Global,
    source: &Source,
    first: usize,
    end: usize,
) -> Result<Vec<Image>, Stop>
    requires order { first ≤ end }
    requires zones { end ≤ length source.now.zones }
    ensures ok { IfOk result (λ images. AreImagesWithin source.now first end images.items) }
    ensures err { IfRefusal fault_of result (IsFaultWithin source.now first end) }
    ensures memory { OnOutOfMemory fault_of result (NeedsMemoryWithin source.now first end) }
{
    let listed = ListedSource::new(alloc, source);
    images_within(alloc, &listed, first, end)
}

/// Returns the images of the zones from one number on up to another, in order, or the fault of the
/// first that has one, by the occurrences that they share.
pub(crate) fn images_within(
    alloc: Global,
    source: &ListedSource<'_>,
    first: usize,
    end: usize,
) -> Result<Vec<Image>, Stop>
    requires order { first ≤ end }
    requires zones { end ≤ length source.now.zones }
    ensures ok { IfOk result (λ images. AreImagesWithin source.now first end images.items) }
    ensures err { IfRefusal fault_of result (IsFaultWithin source.now first end) }
    ensures memory { OnOutOfMemory fault_of result (NeedsMemoryWithin source.now first end) }
{
    let mut images = Vec::new(alloc);
    for zone in first..end {
        let image = image_of(alloc, source, zone)?;
        images.push(image)?;
    }
    Ok(images)
}
