//! The first bytes of a column.

use std::io::{self, Read};

/// The bytes with which a file begins that gzip made.
const GZIP: [u8; 2] = [0x1f, 0x8b];

/// A reader that passes on what another gives, and takes note of whether that begins as a file that gzip made.
#[derive(Drop)]
pub(crate) struct FirstBytes<'a, R> {
    inner: R,
    /// How many of the first bytes are those of gzip, or more than these where one isn't.
    seen: usize,
    is_gzip: &'a mut bool,
}

impl<'a, R: Read> FirstBytes<'a, R> {
    /// Returns the reader of a column of which nothing was read.
    pub(crate) fn of(inner: R, is_gzip: &'a mut bool) -> FirstBytes<'a, R> {
        FirstBytes {
            inner,
            seen: 0,
            is_gzip,
        }
    }

    /// Takes note of bytes that were read.
    fn note(&mut self, bytes: &[u8]) {
        for byte in bytes {
            match GZIP.get(self.seen) {
                Some(first) if *first == *byte => self.seen = self.seen.saturating_add(1),
                Some(_) => self.seen = usize::MAX,
                None => break,
            }
        }
        *self.is_gzip = self.seen == GZIP.len();
    }
}

impl<R: Read> Read for FirstBytes<'_, R> {
    fn read(&mut self, buf: &mut [u8]) -> io::Result<usize> {
        let count = self.inner.read(buf)?;
        self.note(&buf[..count]);
        Ok(count)
    }
}
