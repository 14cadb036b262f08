//! `convert` by texts: compiles them, and converts a column by their files.

ghost use Rattle.std.specs.Prelude.{◌≤◌, ◌+◌, ◌≡◌, IfOk, IfErr, IsErrOf};
ghost use Rattle.zic_bulk.specs.Converting.{ConvertsAgainst, ConvertsBySource, against};
ghost use Rattle.zic_bulk.specs.Converting.{IsFailureOfConvertAgainst, IsFailureOfConvertSource, IsFailureOfKeyed};
ghost use Rattle.zic_compile.specs.Build.{AreFilesOfTexts};
ghost use Rattle.zic_files.specs.Sound.{AreSoundFiles};
ghost use Rattle.zic_convert.specs.Run.{run_of};
ghost use Rattle.zic_counted.specs.Counts.{HasFailedSince};
ghost use Rattle.zic_source.specs.Texts.{texts_of};

use crate::compiler::files_of;
use std::io::{Read, Write};
use std::sync::Wait;
use std::thread::Threads;
use zic_convert::Conversion;
use zic_counted::Counted;
use zic_files::Files;
use zic_io::Failure;
use zic_layouts::RowLog;
use zic_pieces::Gate;
use zic_zones::{SourceZones, TwoReleases, Zones};

/// The texts of a source, and the key that seeds the hash of names, so that names can't be chosen to
/// collide. Rows don't depend on the key.
#[derive(Clone, Copy, Drop)]
pub struct KeyedTexts<'a> {
    pub texts: &'a [Vec<u8>],
    pub key: u64,
}

/// Returns the files of texts.
///
/// # Errors
///
/// Why the texts have none, or memory ran out.
fn keyed_files<T: Threads + Wait + Sync, G: Gate + Sync>(
    conversion: &Conversion<'_, T, G>,
    source: KeyedTexts<'_>,
) -> Result<Files, Failure>
    ensures ok { IfOk result (AreFilesOfTexts (texts_of source.entry.texts.now)) }
    ensures sound { IfOk result AreSoundFiles }
    ensures err { IfErr result (IsFailureOfKeyed (texts_of source.entry.texts.now)) }
{
    let files = files_of(
        conversion.rt,
        conversion.alloc,
        conversion.plan,
        source.texts,
    )?;
    let files = files.with_key(conversion.alloc, source.key)?;
    // The files of a source are sound.
    prove!(files.len() <= usize::MAX);
    Ok(files)
}

/// Compiles the texts, and converts a column by a layout and their files. Returns the number of rows,
/// without the header. The key seeds the hash of names, so that names can't be chosen to collide; rows
/// don't depend on it.
///
/// # Errors
///
/// Why the texts have no files, in which case nothing is read of the column, or as
/// [`crate::column_command::convert`] by these files.
pub fn convert_source<T: Threads + Wait + Sync, G: Gate + Sync, R: Read, W: Write, L: RowLog>(
    conversion: &Conversion<'_, T, G>,
    texts: &[Vec<u8>],
    key: u64,
    reader: &mut Counted<R>,
    writer: &mut Counted<W>,
    log: &mut L,
) -> Result<u64, Failure>
    ensures ok { IfOk result (λ rows. ConvertsBySource (texts_of texts.now)
        conversion.now.layout.now conversion.now.plan.now.max_rows conversion.now.max_faults rows
        (run_of R.remaining W.contents L.noted reader.old reader.new writer.old writer.new
        log.old log.new)) }
    ensures within { IfOk result
        (λ _. reader.new.taken ≤ reader.old.taken + conversion.now.plan.now.max_bytes) }
    ensures unfailed { IfOk result (λ _. HasFailedSince reader.new reader.old.failures → ⊥) }
    ensures flushed { IfOk result (λ _. writer.new.failures ≡ writer.old.failures) }
    ensures err { IfErr result (IsFailureOfConvertSource (texts_of texts.now)
        conversion.now.plan.now conversion.now.max_faults conversion.now.layout.now
        (run_of R.remaining W.contents L.noted reader.old reader.new writer.old writer.new
        log.old log.new)) }
    ensures log { IsErrOf result Failure.CannotWriteList → L.failed log.new }
{
    let files = keyed_files(conversion, KeyedTexts { texts, key })?;
    let mut zones = SourceZones::new(conversion.alloc, &files)?;
    crate::column_command::convert(conversion, &mut zones, reader, writer, log)
}

/// Compiles the texts, and converts a column by a layout and their files, and compares each row with what
/// another release answers. Only the rows are written whose answers differ.
/// Returns the number of all rows, written or not, without the header.
///
/// # Errors
///
/// As [`convert_source`]. A fault of a row is one by the files of the texts.
pub fn convert_source_against<
    T: Threads + Wait + Sync,
    G: Gate + Sync,
    O: Zones + Drop,
    R: Read,
    W: Write,
    L: RowLog,
>(
    conversion: &Conversion<'_, T, G>,
    source: KeyedTexts<'_>,
    old: O,
    reader: &mut Counted<R>,
    writer: &mut Counted<W>,
    log: &mut L,
) -> Result<u64, Failure>
    ensures ok { IfOk result (λ rows. ConvertsAgainst (texts_of source.entry.texts.now)
        conversion.now.layout.now conversion.now.plan.now.max_rows conversion.now.max_faults rows
        (run_of R.remaining W.contents L.noted reader.old reader.new writer.old writer.new
        log.old log.new)
        (λ files then. against files O.grown O.broken O.requests O.may_be old then)) }
    ensures within { IfOk result
        (λ _. reader.new.taken ≤ reader.old.taken + conversion.now.plan.now.max_bytes) }
    ensures unfailed { IfOk result (λ _. HasFailedSince reader.new reader.old.failures → ⊥) }
    ensures flushed { IfOk result (λ _. writer.new.failures ≡ writer.old.failures) }
    ensures err { IfErr result (IsFailureOfConvertAgainst (texts_of source.entry.texts.now)
        conversion.now.plan.now conversion.now.max_faults conversion.now.layout.now
        (run_of R.remaining W.contents L.noted reader.old reader.new writer.old writer.new
        log.old log.new)
        (λ files then. against files O.grown O.broken O.requests O.may_be old then)) }
    ensures log { IsErrOf result Failure.CannotWriteList → L.failed log.new }
{
    let files = keyed_files(conversion, source)?;
    let zones = SourceZones::new(conversion.alloc, &files)?;
    let mut both = TwoReleases { zones, old };
    crate::column_command::convert(conversion, &mut both, reader, writer, log)
}
