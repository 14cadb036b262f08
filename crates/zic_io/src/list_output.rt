//! The output of a list, as far as it can be written.

ghost use Rattle.std.specs.Prelude.{◌≡◌, ◌++◌, List, Option, is_some, ℕ, false, not, option_map};
ghost use Rattle.zic_counted.specs.Counts.{Counts};
ghost use Rattle.zic_io.specs.Faults.{HasFailed, HasText, unwritten};
ghost use Rattle.zic_io.specs.code.FaultList.{IsFileOf};

use std::io::Write;
use zic_counted::{Counted, flush, write_all};

/// A file that texts go into one after another, if there is one, until a write or a flush fails.
#[derive(Drop)]
pub(crate) struct ListOutput<W: Write> {
    pub(crate) file: Option<Counted<W>>,
    /// Whether a write or a flush failed. Nothing is written after that.
    pub(crate) has_failed: bool,
}

impl<W: Write> ListOutput<W> {
    /// Returns the output into a file, if there is one.
    pub(crate) fn new(file: Option<W>) -> ListOutput<W>
        ensures file { result.file ≡ option_map unwritten file }
        ensures unfailed { result.has_failed ≡ false }
    {
        let file = match file {
            Some(file) => Some(Counted::new(file)),
            None => None,
        };
        ListOutput {
            file,
            has_failed: false,
        }
    }

    /// Adds a text.
    pub(crate) fn push(&mut self, text: &[u8])
        ensures grows { (start : Option (List ℕ)) (before : List ℕ) → IsFileOf W.contents start before self.old
            → IsFileOf W.contents start (before ++ text.now) self.new }
        ensures file { is_some self.new.file ≡ is_some self.old.file }
    {
        if self.has_failed {
            return;
        }
        if let Some(file) = &mut self.file {
            self.has_failed = write_all(file, text).is_err();
        }
    }

    /// Flushes the file. Returns whether all was written, or there is no file.
    pub(crate) fn finish(&mut self) -> bool
        ensures keeps { (start : Option (List ℕ)) (text : List ℕ) → IsFileOf W.contents start text self.old
            → IsFileOf W.contents start text self.new }
        ensures says { result ≡ not self.new.has_failed }
        ensures file { is_some self.new.file ≡ is_some self.old.file }
    {
        if let Some(file) = &mut self.file {
            self.has_failed = self.has_failed || flush(file).is_err();
        }
        !self.has_failed
    }

    /// Returns the file, if there is one.
    pub(crate) fn into_file(self) -> Option<W>
        ensures { result ≡ option_map (λ (file : Counts W). file.inner) self.file }
    {
        match self.file {
            Some(file) => Some(file.into_inner()),
            None => None,
        }
    }
}
