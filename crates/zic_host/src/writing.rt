//! Why the system refuses what is written.

use std::cell::Cell;
use std::io::{self, ErrorKind, Printer, Write};
use zic_counted::{Counted, flush, write_all};
use zic_io::Failure;

/// Why the system refused what was to be written, as far as that was noted.
#[derive(Drop)]
pub struct WriteReason {
    kind: Cell<Option<ErrorKind>>,
}

impl WriteReason {
    /// Returns the note where nothing was refused until now.
    pub fn none() -> WriteReason {
        WriteReason {
            kind: Cell::new(None),
        }
    }

    /// Takes note of a reason, in place of the one that was noted before, or of none.
    pub fn set(&self, kind: Option<ErrorKind>) {
        let _ = self.kind.replace(kind);
    }

    /// Returns the reason that was noted, if one was, and removes it from the note.
    pub fn take(&self) -> Option<ErrorKind> {
        self.kind.replace(None)
    }
}

/// A writer that passes each write and flush on with its answer, and takes note of why one is refused.
#[derive(Drop)]
pub struct Noting<'a, W> {
    inner: W,
    reason: &'a WriteReason,
}

impl<'a, W> Noting<'a, W> {
    /// Returns the writer that takes note there.
    pub fn new(inner: W, reason: &'a WriteReason) -> Noting<'a, W> {
        Noting { inner, reason }
    }

    /// Takes note of an error of the writer.
    pub fn note(&self, e: &io::Error) {
        self.reason.set(Some(e.kind()));
    }

    /// Returns the writer itself.
    pub fn get_mut(&mut self) -> &mut W {
        &mut self.inner
    }
}

impl<W: Write> Write for Noting<'_, W> {
    fn write(&mut self, buf: &[u8]) -> io::Result<usize> {
        let answer = self.inner.write(buf);
        if let Err(e) = &answer {
            self.note(e);
        }
        answer
    }

    fn flush(&mut self) -> io::Result<()> {
        let answer = self.inner.flush();
        if let Err(e) = &answer {
            self.note(e);
        }
        answer
    }
}

/// Returns standard output, of which it is noted there why the system refuses it.
pub fn output<'a, R: Print>(rt: &'a R, reason: &'a WriteReason) -> Noting<'a, Printer<'a, R>> {
    Noting::new(io::writer(rt), reason)
}

/// Writes a text to standard output, and takes note of why that is refused.
///
/// # Errors
///
/// `CannotWriteOutput`.
pub fn tell<R: Print>(rt: &R, reason: &WriteReason, text: &[u8]) -> Result<(), Failure> {
    let mut output = Counted::new(output(rt, reason));
    write_all(&mut output, text)?;
    flush(&mut output)?;
    Ok(())
}
