//! A reader or writer that counts.

ghost use Rattle.std.specs.Prelude.{◌≡◌, ◌<◌, ◌↔◌, length, IsTrue, IfOk, OnErr};
ghost use Rattle.std.specs.Io.{ReadsAtMost, WritesAtMost};
ghost use Rattle.std.specs.Io.KnownBytes.{Keeps, ReadConsumes, WriteAppends};
ghost use Rattle.zic_counted.specs.Counts.{CountsNothing, CountsFailure, CountsTaken, HasFailedSince};

use std::io::{self, Read, Write};
use std::marker::Model;

/// A reader or writer that passes each read, write and flush on with its answer, and counts the
/// failures and the bytes that reads gave. Both counts stay at the greatest `u64` once they reach
/// it.
///
/// It distinguishes a failure of the reader or writer from one of memory: `read_to_end`, say, answers an
/// error for both. Take `failures` before such a call, and ask [`Counted::has_failed_since`] after
/// it. An error with no failure came from no read, write or flush. An error at which callers try
/// again, as [`io::ErrorKind::Interrupted`], is a failure too.
#[derive(Debug, Drop)]
pub struct Counted<T> {
    inner: T,
    failures: u64,
    taken: u64,
}

impl<T> Model for Counted<T> {
    ghost use Rattle.zic_counted.specs.Counts.{Counts};

    ghost Value = { Counts T };

    ghost view = { λ c. record { inner = c.inner; failures = c.failures; taken = c.taken } };
}

impl<T> Counted<T> {
    /// Returns a reader or writer that has counted nothing.
    pub fn new(inner: T) -> Counted<T>
        ensures { result ≡ record { inner = inner; failures = 0; taken = 0 } }
    {
        Counted {
            inner,
            failures: 0,
            taken: 0,
        }
    }

    /// Returns the number of reads, writes and flushes that failed: of errors, and of writes that
    /// took no byte of some.
    pub fn failures(&self) -> u64
        ensures { result ≡ self.now.failures }
    {
        self.failures
    }

    /// Returns the number of bytes that reads gave.
    pub fn taken(&self) -> u64
        ensures { result ≡ self.now.taken }
    {
        self.taken
    }

    /// Returns whether there are more failures than `before`, which [`Counted::failures`] gave, or
    /// as many as can be counted.
    pub fn has_failed_since(&self, before: u64) -> bool
        ensures { IsTrue result ↔ HasFailedSince self.now before }
    {
        before < self.failures || self.failures == u64::MAX
    }

    /// Returns the reader or writer itself.
    pub fn into_inner(self) -> T
        ensures { result ≡ self.inner }
    {
        self.inner
    }

    /// Counts a failure.
    fn count_failure(&mut self)
        ensures failure { CountsFailure self.old self.new }
        ensures inner { self.new.inner ≡ self.old.inner }
    {
        self.failures = self.failures.saturating_add(1);
    }
}

impl<T: Read> Read for Counted<T> {
    ghost remaining = { λ c. T.remaining c.inner };

    /// Reads from the inner reader.
    fn read(&mut self, buf: &mut [u8]) -> io::Result<usize>
        ensures bound { ReadsAtMost result buf.new }
        ensures bytes { ReadConsumes (T.remaining self.old.inner)
            (T.remaining self.new.inner) result buf.new }
        ensures taken { IfOk result (CountsTaken self.old self.new) }
        ensures failure { OnErr result (CountsFailure self.old self.new) }
    {
        let result = self.inner.read(buf);
        match &result {
            Ok(n) => self.taken = self.taken.saturating_add(*n as u64),
            Err(_) => self.count_failure(),
        }
        result
    }
}

impl<T: Write> Write for Counted<T> {
    ghost contents = { λ c. T.contents c.inner };

    /// Writes to the inner writer.
    fn write(&mut self, buf: &[u8]) -> io::Result<usize>
        ensures bound { WritesAtMost result buf.now }
        ensures bytes { WriteAppends (T.contents self.old.inner)
            (T.contents self.new.inner) result buf.now }
        ensures some { IfOk result (λ n. 0 < n → CountsNothing self.old self.new) }
        ensures none { IfOk result (λ n. n ≡ 0 → 0 < length buf.now
            → CountsFailure self.old self.new) }
        ensures empty { IfOk result (λ _. length buf.now ≡ 0 → CountsNothing self.old self.new) }
        ensures failure { OnErr result (CountsFailure self.old self.new) }
    {
        let result = self.inner.write(buf);
        match &result {
            Ok(0) if !buf.is_empty() => self.count_failure(),
            Ok(_) => (),
            Err(_) => self.count_failure(),
        }
        result
    }

    /// Flushes the inner writer.
    fn flush(&mut self) -> io::Result<()>
        ensures bytes { Keeps (T.contents self.old.inner) (T.contents self.new.inner) }
        ensures flushed { IfOk result (λ _. CountsNothing self.old self.new) }
        ensures failure { OnErr result (CountsFailure self.old self.new) }
    {
        let result = self.inner.flush();
        if result.is_err() {
            self.count_failure();
        }
        result
    }
}
