//! How far the writing of rows is.

ghost use Rattle.std.specs.Prelude.{◌≡◌};

use std::io::{self, Write};
use std::marker::Model;
use std::time::{Clock, Duration, Instant};

/// The time in milliseconds after which the line on a terminal is written anew.
const PERIOD: u64 = 500;

/// Where the line about rows is written, and how often.
#[derive(Drop)]
pub enum ProgressLine<E> {
    /// Nowhere.
    Never,
    /// Once, by [`Progress::finish`].
    Once(E),
    /// On a terminal, where it is written anew about twice a second.
    Anew(E),
}

/// Where in a row the next byte stands.
#[derive(Clone, Copy, PartialEq, Eq)]
enum RowPlace {
    /// At the start of a field.
    Start,
    /// In a field that begins with no double quote, or after its closing one.
    Plain,
    /// In double quotes.
    Quoted,
}

/// Counts the ends of rows in bytes that come one after the other.
#[derive(Clone, Copy)]
struct RowEnds {
    /// The byte between fields, where fields in double quotes may have line feeds.
    delimiter: Option<u8>,
    /// Where the next byte stands.
    place: RowPlace,
}

impl RowEnds {
    /// Returns the number of rows that end in the bytes that come next.
    fn count(&mut self, bytes: &[u8]) -> u64 {
        let Some(delimiter) = self.delimiter else {
            return line_feeds(bytes);
        };
        let mut place = self.place;
        if place != RowPlace::Quoted && !bytes.contains(&b'"') {
            self.place = match bytes.last() {
                None => place,
                Some(byte) if *byte == b'\n' || *byte == delimiter => RowPlace::Start,
                Some(_) => RowPlace::Plain,
            };
            return line_feeds(bytes);
        }
        let mut ends: u64 = 0;
        for byte in bytes {
            ends = ends.saturating_add((*byte == b'\n' && place != RowPlace::Quoted) as u64);
            place = place_after(place, *byte, delimiter);
        }
        self.place = place;
        ends
    }

    /// Returns the number of rows that end at a flush: 1 after a row whose double quotes are open, and else 0.
    fn count_at_flush(&mut self) -> u64 {
        let is_open = self.place == RowPlace::Quoted;
        self.place = RowPlace::Start;
        is_open as u64
    }
}

/// A writer of rows that passes each write and flush on with its answer, and writes a line about the rows on
/// another writer, if at all.
///
/// The line has the number of rows that were written, and that of rows a second since the writer
/// was made: `1048576 rows, 524288 rows a second`. Where only some rows of a column are written, the
/// last line has both numbers, `3 of 1048576 rows, 524288 rows a second`. What cannot be written of it
/// is left out, and is no failure of the rows. A row ends with a line feed outside its quoted fields, and
/// at a flush, since rows are flushed whole. A header before the rows is no row.
#[derive(Drop)]
pub struct Progress<'a, W, C, E> {
    inner: W,
    clock: &'a C,
    line: ProgressLine<E>,
    start: Option<Instant>,
    /// The time since the start at which the line is written anew.
    next: Duration,
    /// The number of headers before the rows, 0 or 1.
    header: u64,
    ends: RowEnds,
    /// The number of rows and headers that were written, or none where no write and no flush was
    /// requested.
    rows: Option<u64>,
}

impl<'a, W, C, E> Model for Progress<'a, W, C, E> {
    ghost Value = { W };

    ghost view = { λ progress. progress.inner };
}

impl<'a, W, C: Clock, E: Write> Progress<'a, W, C, E> {
    /// Returns a writer that has passed on no rows. `has_header` says that a header comes before them, and
    /// `delimiter` which byte stands between fields, where fields in double quotes may have line feeds.
    pub fn new(
        inner: W,
        clock: &'a C,
        line: ProgressLine<E>,
        has_header: bool,
        delimiter: Option<u8>,
    ) -> Progress<'a, W, C, E>
        ensures { result ≡ inner }
    {
        Progress {
            inner,
            clock,
            line,
            header: has_header as u64,
            start: Instant::now(clock).ok(),
            next: Duration::from_millis(PERIOD),
            ends: RowEnds {
                delimiter,
                place: RowPlace::Start,
            },
            rows: None,
        }
    }

    /// Reports the rows for the last time, and ends the line. Where only some of the rows of a column
    /// are written, `all` is the number of those that were made. Where no write and no flush was
    /// requested, it reports nothing.
    pub fn finish(&mut self, all: Option<u64>)
        ensures { self.new ≡ self.old }
    {
        if let Some(rows) = self.rows {
            self.tell(rows, all, self.elapsed());
            if let ProgressLine::Once(out) | ProgressLine::Anew(out) = &mut self.line {
                let _ = out.write_all(b"\n");
            }
        }
    }

    /// Counts the rows that end in bytes that were written.
    fn count_written(&mut self, bytes: &[u8])
        ensures { self.new ≡ self.old }
    {
        if !matches!(self.line, ProgressLine::Never) {
            let ends = self.ends.count(bytes);
            self.count_ends(ends);
        }
    }

    /// Counts the row that ends at a flush, if one does.
    fn count_flushed(&mut self)
        ensures { self.new ≡ self.old }
    {
        if !matches!(self.line, ProgressLine::Never) {
            let ends = self.ends.count_at_flush();
            self.count_ends(ends);
        }
    }

    /// Counts rows that ended, and reports all of them on a terminal where it is time to.
    fn count_ends(&mut self, ends: u64)
        ensures { self.new ≡ self.old }
    {
        let rows = self.rows.unwrap_or(0).saturating_add(ends);
        self.rows = Some(rows);
        if matches!(self.line, ProgressLine::Anew(_)) {
            let elapsed = self.elapsed();
            if self.next <= elapsed {
                self.next = elapsed.saturating_add(Duration::from_millis(PERIOD));
                self.tell(rows, None, elapsed);
            }
        }
    }

    /// Returns the time since the start, or zero where the clock fails.
    fn elapsed(&self) -> Duration {
        match self.start {
            Some(start) => start.elapsed(self.clock).unwrap_or(Duration::ZERO),
            None => Duration::ZERO,
        }
    }

    /// Writes the line, on a terminal in place of the one that it has.
    fn tell(&mut self, rows: u64, all: Option<u64>, elapsed: Duration)
        ensures { self.new ≡ self.old }
    {
        let rows = rows.saturating_sub(self.header);
        let made = all.unwrap_or(rows);
        let rate = made as u128 * 1000 / elapsed.as_millis().max(1);
        let (start, end) = match &self.line {
            ProgressLine::Anew(_) => ("\r", "\x1b[K"),
            ProgressLine::Once(_) | ProgressLine::Never => ("", ""),
        };
        if let ProgressLine::Once(out) | ProgressLine::Anew(out) = &mut self.line {
            let _ = match all {
                None => write!(out, "{start}{rows} rows, {rate} rows a second{end}"),
                Some(all) => write!(
                    out,
                    "{start}{rows} of {all} rows, {rate} rows a second{end}"
                ),
            };
        }
    }
}

/// Returns the number of line feeds.
fn line_feeds(bytes: &[u8]) -> u64 {
    bytes.iter().filter(|byte| **byte == b'\n').count() as u64
}

/// Returns where the byte after this one stands. A double quote in quotes closes them; a second one
/// directly after it opens them again.
fn place_after(place: RowPlace, byte: u8, delimiter: u8) -> RowPlace {
    match place {
        RowPlace::Quoted if byte == b'"' => RowPlace::Start,
        RowPlace::Quoted => RowPlace::Quoted,
        RowPlace::Start if byte == b'"' => RowPlace::Quoted,
        _ if byte == b'\n' || byte == delimiter => RowPlace::Start,
        _ => RowPlace::Plain,
    }
}

impl<W: Write, C: Clock, E: Write> Write for Progress<'_, W, C, E> {
    ghost contents = { W.contents };

    fn write(&mut self, buf: &[u8]) -> io::Result<usize> {
        let result = self.inner.write(buf);
        if let Ok(n) = &result {
            self.count_written(&buf[..*n]);
        }
        result
    }

    fn flush(&mut self) -> io::Result<()> {
        let result = self.inner.flush();
        self.count_flushed();
        result
    }
}
