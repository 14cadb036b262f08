//! A reader with a limit.

ghost use Rattle.std.specs.Prelude.{◌≡◌, [], None, IsTrue, false};
ghost use Rattle.std.specs.Io.{ReadsAtMost};
ghost use Rattle.std.specs.Io.KnownBytes.{ReadConsumes};
ghost use Rattle.std.specs.Option.{ForSome};

use std::io::{self, ErrorKind, Read};

/// A reader that gives a limited number of bytes. The read that would give one more fails, and so
/// does each after it. Once the reader below it ended, it is not read again: a terminal would ask
/// for more.
///
/// Every error is one at which no caller tries again, also where the reader below was interrupted.
#[derive(Drop)]
pub(crate) struct Bounded<R: Read> {
    pub(crate) inner: R,
    /// The number of bytes that it may still give.
    pub(crate) left: u64,
    /// The byte beyond the limit, once it was read.
    pub(crate) past: Option<u8>,
    /// Whether the reader below gave no byte where there was room.
    pub(crate) ended: bool,
    ghost at_end: { IsTrue ended → ForSome (R.remaining inner) (λ bytes. bytes ≡ []) },
}

impl<R: Read> Bounded<R> {
    ghost use Rattle.zic_columns.specs.code.Bounded.{GivesWithin, ReadsNone, bytes_left};

    /// Makes a reader of at most `most` bytes.
    pub(crate) fn new(inner: R, most: u64) -> Bounded<R>
        ensures inner { result.inner ≡ inner }
        ensures none { result.past ≡ None }
        ensures left { result.left ≡ most }
    {
        Bounded {
            inner,
            left: most,
            past: None,
            ended: false,
        }
    }

    /// Reads on where no more bytes may be given, and keeps the byte that comes.
    fn read_past(&mut self) -> io::Result<usize>
        requires none { self.old.past ≡ None }
        requires goes_on { self.old.ended ≡ false }
        ensures bytes { ReadsNone
            (bytes_left R.remaining self.old) (bytes_left R.remaining self.new) result }
        ensures limit { GivesWithin R.remaining self.old self.new }
    {
        let mut one = [0u8];
        match self.inner.read(&mut one) {
            Ok(0) => {
                self.ended = true;
                return Ok(0);
            }
            Ok(_) => self.past = Some(one[0]),
            Err(_) => {}
        }
        Err(io::Error::from(ErrorKind::Other))
    }
}

impl<R: Read> Read for Bounded<R> {
    ghost use Rattle.zic_columns.specs.code.Bounded.{GivesWithin, bytes_left};

    ghost remaining = { bytes_left R.remaining };

    fn read(&mut self, buf: &mut [u8]) -> io::Result<usize>
        ensures bound { ReadsAtMost result buf.new }
        ensures bytes { ReadConsumes (bytes_left R.remaining self.old)
            (bytes_left R.remaining self.new) result buf.new }
        ensures limit { GivesWithin R.remaining self.old self.new }
    {
        if self.past.is_some() {
            return Err(io::Error::from(ErrorKind::Other));
        }
        if self.ended || buf.is_empty() {
            return Ok(0);
        }
        if self.left == 0 {
            return self.read_past();
        }
        let most = self.left.min(buf.len() as u64) as usize;
        match self.inner.read(&mut buf[..most]) {
            Ok(n) => {
                self.left -= n as u64;
                self.ended = n == 0;
                Ok(n)
            }
            Err(_) => Err(io::Error::from(ErrorKind::Other)),
        }
    }
}
