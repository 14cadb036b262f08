//! Builds the files of texts.

ghost use Rattle.std.specs.Prelude.{◌≡◌, IfOk, IfErr};
ghost use Rattle.zic_source.specs.Texts.{texts_of};
ghost use Rattle.zic_compile.specs.Files.{AreFilesOf, AreImagesOf};
ghost use Rattle.zic_compile.specs.Build.{AreFilesOfTexts, IsStopOfBuild};
ghost use Rattle.zic_compile.specs.code.Stop.{IsStopOfImages, end_of};

use crate::compiler::files_of;
use crate::pieces::{ZonePieces, joined};
use std::alloc::Global;
use std::sync::Wait;
use std::thread::Threads;
use zic_base::RunStop;
use zic_files::{Files, Image};
use zic_layouts::Plan;
use zic_pieces::{Gate, TaskStop, run_task};
use zic_source::{Fault, Source, read_source};
use zic_states::ListedSource;

/// Returns the files of all Zone and Link lines of the texts, in the order of the texts and their
/// lines: a zone's with its image, a link's with that of the zone at the end of its chain. Each,
/// read by RFC 9636, gives at every instant what the lines of its zone define.
///
/// The plan's workers compile pieces of as many zones as the plan says, and pass the gate before
/// each. Neither changes the answer.
///
/// # Errors
///
/// `Source` with the first fault of the texts, or else with that of the first zone that has one,
/// and `Memory` where memory runs out. No other is answered.
pub fn build<R: Threads + Wait + Sync, G: Gate + Sync>(
    rt: &R,
    alloc: Global,
    texts: &[Vec<u8>],
    plan: &Plan,
    gate: &G,
) -> Result<Files, RunStop>
    ensures ok { IfOk result (AreFilesOfTexts (texts_of texts.now)) }
    ensures err { IfErr result (IsStopOfBuild (texts_of texts.now)) }
{
    let source = read_source(alloc, texts)?;
    let files = files_by(rt, alloc, &source, plan, gate);
    drop(source);
    files
}

/// Returns the files of a source, by the images that the plan's workers make.
fn files_by<R: Threads + Wait + Sync, G: Gate + Sync>(
    rt: &R,
    alloc: Global,
    source: &Source,
    plan: &Plan,
    gate: &G,
) -> Result<Files, RunStop>
    ensures ok { IfOk result (AreFilesOf source.now) }
    ensures err { IfErr result (IsStopOfImages source.now) }
{
    let listed = ListedSource::new(alloc, source);
    let images = images_by(rt, alloc, &listed, plan, gate);
    drop(listed);
    let files = files_of(alloc, source, images?)?;
    Ok(files)
}

/// Returns the images of all zones, in order, made by the plan's workers.
fn images_by<R: Threads + Wait + Sync, G: Gate + Sync>(
    rt: &R,
    alloc: Global,
    source: &ListedSource<'_>,
    plan: &Plan,
    gate: &G,
) -> Result<Vec<Image>, RunStop>
    ensures ok { IfOk result (λ images. AreImagesOf source.now images.items) }
    ensures err { IfErr result (IsStopOfImages source.now) }
{
    let pieces = ZonePieces::new(source, plan.zone_piece() as usize);
    match run_task(rt, alloc, &pieces, plan.workers(), gate) {
        Ok(values) => Ok(joined(alloc, values)?),
        Err(stop) => Err(end_of(stop)),
    }
}

/// Returns how a run ends where the task of its zones ends so.
fn end_of(stop: TaskStop<Fault>) -> RunStop
    ensures { result ≡ end_of stop }
{
    match stop {
        TaskStop::Fault(_, fault) => RunStop::Source(fault),
        TaskStop::Memory(_) => RunStop::Memory,
        TaskStop::NoThread => RunStop::NoThread,
    }
}
