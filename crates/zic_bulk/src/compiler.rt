//! Compiles texts.

ghost use Rattle.std.specs.Prelude.{IfOk, IfErr};
ghost use Rattle.zic_source.specs.Grammar.{IsSource};
ghost use Rattle.zic_source.specs.Texts.{texts_of};
ghost use Rattle.zic_compile.specs.Build.{AreFilesOfTexts};
ghost use Rattle.zic_bulk.specs.Failing.{IsFailureOfTexts};

use std::alloc::Global;
use std::sync::Wait;
use std::thread::Threads;
use zic_base::RunStop;
use zic_compile::build;
use zic_files::Files;
use zic_io::{Failure, run_failure};
use zic_layouts::Plan;
use zic_pieces::Open;
use zic_source::{Source, read_source};

/// Returns the files of texts, by the plan's workers, in the order of the texts and their lines.
///
/// # Errors
///
/// Why the texts have no files.
pub fn files_of<T: Threads + Wait + Sync>(
    rt: &T,
    alloc: Global,
    plan: &Plan,
    texts: &[Vec<u8>],
) -> Result<Files, Failure>
    ensures ok { IfOk result (AreFilesOfTexts (texts_of texts.now)) }
    ensures err { IfErr result (IsFailureOfTexts (texts_of texts.now)) }
{
    match build(rt, alloc, texts, plan, &Open) {
        Ok(files) => Ok(files),
        Err(stop) => Err(run_failure(stop, texts.len())),
    }
}

/// Returns the lines of texts.
pub(crate) fn source_of(alloc: Global, texts: &[Vec<u8>]) -> Result<Source, Failure>
    ensures ok { IfOk result (IsSource (texts_of texts.now)) }
    ensures err { IfErr result (IsFailureOfTexts (texts_of texts.now)) }
{
    match read_source(alloc, texts) {
        Ok(source) => Ok(source),
        Err(stop) => Err(run_failure(RunStop::from(stop), texts.len())),
    }
}
