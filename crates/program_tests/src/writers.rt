//! What writers do: flushes, of which no clause says that one is passed on once, with its answer, and
//! progress reports.

use crate::samples::{expect, expect_text};
use std::cell::Cell;
use std::io::{self, ErrorKind, Write};
use std::time::{Clock, Duration};
use zic_counted::{Counted, flush};
use zic_io::{Progress, ProgressLine};

/// The answers to three flushes.
static ANSWERS: [Result<(), ErrorKind>; 3] = [
    Ok(()),
    Err(ErrorKind::Other),
    Err(ErrorKind::Interrupted),
];

/// Answers each flush with the next of [`ANSWERS`], and then with success.
#[derive(Drop)]
struct Scripted {
    flushes: usize,
}

impl Write for Scripted {
    fn write(&mut self, buf: &[u8]) -> io::Result<usize> {
        Ok(buf.len())
    }

    fn flush(&mut self) -> io::Result<()> {
        let answer = ANSWERS.get(self.flushes);
        self.flushes = self.flushes.saturating_add(1);
        match answer {
            Some(Err(kind)) => Err(io::Error::from(*kind)),
            _ => Ok(()),
        }
    }
}

/// Flushes, and returns the kind of the error.
fn kind_of(writer: &mut Counted<Scripted>) -> Result<(), ErrorKind> {
    match writer.flush() {
        Ok(()) => Ok(()),
        Err(e) => Err(e.kind()),
    }
}

#[test]
fn flushes_are_passed_on(rt: HostRuntime) {
    let mut writer = Counted::new(Scripted { flushes: 0 });
    for answer in &ANSWERS {
        let is_passed = kind_of(&mut writer) == *answer;
        expect(&rt, is_passed, "the answer to a flush");
    }
    expect(&rt, writer.failures() == 2, "the failures");
    expect(&rt, writer.into_inner().flushes == 3, "the flushes");
    let mut writer = Counted::new(Scripted { flushes: 0 });
    expect(&rt, flush(&mut writer).is_ok(), "the first flush");
    expect(&rt, flush(&mut writer).is_err(), "the second flush");
    expect(&rt, writer.into_inner().flushes == 2, "both flushes");
}

/// A writer that takes at most this many bytes at a time, and this many in all.
#[derive(Drop)]
struct Sink {
    step: usize,
    most: usize,
    held: usize,
}

impl Write for Sink {
    fn write(&mut self, buf: &[u8]) -> io::Result<usize> {
        let room = self.most.saturating_sub(self.held).min(self.step);
        let n = room.min(buf.len());
        if n == 0 {
            return Err(io::Error::from(ErrorKind::Other));
        }
        self.held = self.held.saturating_add(n);
        Ok(n)
    }

    fn flush(&mut self) -> io::Result<()> {
        Ok(())
    }
}

/// A clock that advances by a quarter of a second with each reading.
#[derive(Drop)]
struct Quarters(Cell<u64>);

impl Clock for Quarters {
    fn monotonic(&self) -> io::Result<Duration> {
        let now = self.0.get();
        self.0.set(now.saturating_add(250));
        Ok(Duration::from_millis(now))
    }

    fn since_1970(&self) -> io::Result<Duration> {
        self.monotonic()
    }
}

/// Writes rows, each at once, and flushes them, if there are any. Returns whether all are taken.
fn write_each<W: Write>(writer: &mut W, rows: &[&[u8]]) -> bool {
    for row in rows {
        if writer.write_all(*row).is_err() {
            return false;
        }
    }
    rows.is_empty() || writer.flush().is_ok()
}

/// As [`write_each`], with a line that tells of the rows.
fn are_taken<W: Write + Drop>(
    writer: W,
    line: ProgressLine<&mut Vec<u8>>,
    has_header: bool,
    rows: &[&[u8]],
) -> bool {
    let clock = Quarters(Cell::new(1000));
    let mut progress = Progress::new(writer, &clock, line, has_header, Some(b','));
    let taken = write_each(&mut progress, rows);
    progress.finish(None);
    taken
}

/// Where the line is written.
#[derive(Clone, Copy)]
enum Line {
    Nowhere,
    Once,
    OnTerminal,
}

const FOUR: &[u8] = b"a,1\nb,2\nc,3\nd,4\n";

/// Where a line is written, whether it is of rows below a header, the most bytes that the writer takes at a
/// time and in all, and the rows, the number of bytes that it takes, if it takes all, and what is reported.
type OneLine = (
    (Line, bool),
    ((usize, usize), &'static [&'static [u8]]),
    Option<usize>,
    &'static [u8],
);

static LINES: [OneLine; 9] = [
    // twice a second, and at the end
    (
        (Line::OnTerminal, false),
        ((100, 100), &[FOUR, FOUR, FOUR, FOUR, FOUR]),
        Some(80),
        b"\r8 rows, 16 rows a second\x1b[K\r16 rows, 16 rows a second\x1b[K\r20 rows, 13 rows a second\x1b[K\r20 rows, 11 rows a second\x1b[K\n",
    ),
    (
        (Line::Once, false),
        ((100, 100), &[FOUR, FOUR, FOUR, FOUR, FOUR]),
        Some(80),
        b"20 rows, 80 rows a second\n",
    ),
    // a header is no row
    (
        (Line::Once, true),
        ((100, 100), &[b"zone,instant\na,1\nb,2\n"]),
        Some(21),
        b"2 rows, 8 rows a second\n",
    ),
    (
        (Line::Nowhere, false),
        ((100, 100), &[b"a,1\n"]),
        Some(4),
        b"",
    ),
    // nothing before the first row is written
    ((Line::OnTerminal, false), ((100, 0), &[]), Some(0), b""),
    ((Line::Once, false), ((100, 0), &[b"a,1\n"]), None, b""),
    // rows count once the writer took them
    (
        (Line::Once, false),
        ((3, 100), &[b"a,1\nb,2\nc,3\n"]),
        Some(12),
        b"3 rows, 12 rows a second\n",
    ),
    // a line feed in double quotes ends no row; a quote within a field opens none
    (
        (Line::Once, false),
        ((100, 100), &[b"\"a\"\"\n", b"b\",1\nc\",2\nd,\"\n\"\n"]),
        Some(21),
        b"3 rows, 12 rows a second\n",
    ),
    // a flush ends a row whose double quotes are open
    (
        (Line::Once, false),
        ((100, 100), &[b"a,1\nb,\"2\n"]),
        Some(9),
        b"2 rows, 8 rows a second\n",
    ),
];

#[test]
fn progress_has_the_rows_that_the_writer_took(rt: HostRuntime) {
    for ((line, has_header), ((step, most), rows), bytes, want) in &LINES {
        let mut reported: Vec<u8> = Vec::new(rt.alloc());
        let mut sink = Sink {
            step: *step,
            most: *most,
            held: 0,
        };
        let taken = match line {
            Line::Nowhere => are_taken(&mut sink, ProgressLine::Never, *has_header, *rows),
            Line::Once => are_taken(
                &mut sink,
                ProgressLine::Once(&mut reported),
                *has_header,
                *rows,
            ),
            Line::OnTerminal => are_taken(
                &mut sink,
                ProgressLine::Anew(&mut reported),
                *has_header,
                *rows,
            ),
        };
        let held = sink.held;
        let is_right = if taken {
            *bytes == Some(held)
        } else {
            bytes.is_none()
        };
        expect(&rt, is_right, "the bytes that are taken");
        expect_text(&rt, &reported, *want, "what is reported");
    }
}
