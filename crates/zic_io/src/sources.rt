//! The words for sources and files, and what is read by them.

ghost use Rattle.std.specs.Prelude.{◌≡◌, ◌≢◌, ◌≤◌, length, map, string_bytes, All, IfOk, IfErr, IfSome};
ghost use Rattle.zic_source.specs.Texts.{texts_of};
ghost use Rattle.zic_io.specs.Failing.{IsFailureOfPath, IsFailureOfSources};
ghost use Rattle.zic_io.specs.code.Word.{IsFailureOfWord};
ghost use Rattle.zic_io.specs.Sources.{known_of, AreTextsOf};
ghost use Rattle.zic_io.specs.declared.input.TheConstants.{MAX_SOURCE};
ghost use Rattle.zic_base.specs.declared.constants.TheConstants.{STANDARD_INPUT};

use crate::failure::{Failure, cannot_read};
use crate::input::{read_file_bytes, read_source_text};
use std::alloc::{AllocError, Global};
use std::fs::{File, Files as FileSystem};
use std::io::Read;
use zic_base::STANDARD_INPUT;
use zic_counted::Counted;

/// Returns the texts that the words name, which are read from left to right: `-` is standard
/// input, and any other word a path. Standard input is read only where a word is `-`. Each file is
/// closed before the next is opened, and before the call returns.
///
/// # Errors
///
/// The first word whose text can't be read: a file can't be opened, a read fails, or there are
/// more than 67,108,864 bytes. Or memory ran out.
pub fn read_sources<F: FileSystem, I: Read>(
    alloc: Global,
    system: &F,
    input: &mut Counted<I>,
    words: &[String],
) -> Result<Vec<Vec<u8>>, Failure>
    ensures ok { IfOk result (λ texts. AreTextsOf (map string_bytes words.now)
        (I.remaining input.old.inner) (texts_of texts.items)) }
    ensures err { IfErr result (IsFailureOfSources (map string_bytes words.now)
        (I.remaining input.old.inner) input.old input.new) }
    ensures unrequested { All (λ w. w ≢ STANDARD_INPUT.now) (map string_bytes words.now)
        → input.new ≡ input.old }
{
    let mut texts = Vec::new(alloc);
    for word in words {
        texts.push(source_text(alloc, system, input, word.as_str())?)?;
    }
    Ok(texts)
}

/// Returns the text that a word names.
fn source_text<F: FileSystem, I: Read>(
    alloc: Global,
    system: &F,
    input: &mut Counted<I>,
    source: &str,
) -> Result<Vec<u8>, Failure>
    ensures whole { IfOk result (λ text.
        IfSome (known_of source.now (I.remaining input.old.inner)) (λ all. text.items ≡ all)) }
    ensures size { IfOk result (λ text. length text.items ≤ MAX_SOURCE) }
    ensures err { IfErr result (IsFailureOfWord source.now input.old input.new) }
    ensures unrequested { source.now ≢ STANDARD_INPUT.now → input.new ≡ input.old }
{
    if source == STANDARD_INPUT {
        return read_source_text(alloc, source, input);
    }
    text_at(alloc, system, source)
}

/// Returns the text of the source at a path.
fn text_at<F: FileSystem>(alloc: Global, system: &F, path: &str) -> Result<Vec<u8>, Failure>
    ensures size { IfOk result (λ text. length text.items ≤ MAX_SOURCE) }
    ensures err { IfErr result (IsFailureOfPath path.now) }
{
    let file = open(alloc, system, path)?;
    read_source_text(alloc, path, &mut Counted::new(file))
}

/// Opens the file at a path for reading.
fn open<F: FileSystem>(alloc: Global, system: &F, path: &str) -> Result<F::File, Failure>
    ensures { IfErr result (IsFailureOfPath path.now) }
{
    match File::open(system, path) {
        Ok(file) => Ok(file),
        Err(_) => Err(cannot_read(alloc, path)),
    }
}

/// Returns the bytes of the file at a path, or as many as show that it is too large to be a TZif
/// file.
///
/// # Errors
///
/// The file can't be opened, a read fails, or memory ran out.
pub fn read_file<F: FileSystem>(alloc: Global, system: &F, path: &str) -> Result<Vec<u8>, Failure>
    ensures { IfErr result (IsFailureOfPath path.now) }
{
    let file = open(alloc, system, path)?;
    read_file_bytes(alloc, path, &mut Counted::new(file))
}

/// Returns the path of a name in a folder.
pub(crate) fn path_in(alloc: Global, folder: &str, name: &str) -> Result<String, AllocError> {
    format!(in alloc; "{folder}/{name}")
}
