//! The texts of sources, and which of them are those of the release that others are compared with.

ghost use Rattle.std.specs.Prelude.{◌≡◌};
ghost use Rattle.zic_host.specs.Sources.{fault_in, new_texts, old_texts};

use std::fs::Files;
use std::io::Input;
use zic_counted::Counted;
use zic_io::{Failure, read_sources};

/// Reads the texts of the sources that the words name, in place of those that were read before.
///
/// # Errors
///
/// `CannotRead` with the first word whose text can't be read, or `Memory`. No text is replaced then.
pub fn read_texts<R: Files + Input + AllocGlobal>(
    rt: &R,
    words: &[String],
    texts: &mut Vec<Vec<u8>>,
) -> Result<(), Failure> {
    let mut input = Counted::new(rt.reader());
    *texts = read_sources(rt.alloc(), rt, &mut input, words)?;
    Ok(())
}

/// The texts of two releases that are compared.
#[derive(Clone, Copy)]
pub struct OldAndNew<'a> {
    /// The texts of OLD.
    pub old: &'a [Vec<u8>],
    /// The texts of the other release.
    pub new: &'a [Vec<u8>],
}

/// Returns the texts of OLD, which are this many and were read first, and those of the release that is
/// compared with it.
pub fn old_and_new(texts: &[Vec<u8>], count: usize) -> OldAndNew<'_>
    ensures old { result.old.now ≡ old_texts count texts.now }
    ensures new { result.new.now ≡ new_texts count texts.now }
{
    let (old, new) = texts.split_at(count.min(texts.len()));
    OldAndNew { old, new }
}

/// Gives a fault at a line the number of its text among all texts, of which this many stand before those of
/// its release. Any other failure stays as it is.
pub fn fault_in(before: u64, failure: Failure) -> Failure
    ensures { result ≡ fault_in before failure }
{
    match failure {
        Failure::Line { line, kind } => Failure::TextLine {
            text: before.saturating_add(1),
            line,
            kind,
        },
        Failure::TextLine { text, line, kind } => Failure::TextLine {
            text: before.saturating_add(text),
            line,
            kind,
        },
        other => other,
    }
}
