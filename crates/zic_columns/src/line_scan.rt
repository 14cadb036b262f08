//! Whole lines among the buffered bytes, where each line is a record.

ghost use Rattle.std.specs.Prelude.{◌≡◌, ◌≤◌, All, drop, false, length, take};
ghost use Rattle.zic_columns.specs.Column.{HasNoLineEnd, ends_line};
ghost use Rattle.zic_columns.specs.Quotes.{is_open};
ghost use Rattle.zic_columns.specs.code.LineScan.{AreClosedLines, IsFirstLine, IsLineScan};

use crate::csv_scan::lines_before_quote;
use crate::fields::Separator;
use crate::machine::{Place, place_after};
use memchr::memchr2;
use zic_layouts::Delimiter;

/// The number of bytes of an open line at the start of some bytes, without its line end and with it.
#[derive(Clone, Copy, Drop)]
pub(crate) struct OpenLine {
    pub(crate) own: usize,
    pub(crate) len: usize,
}

/// The first line of some bytes.
#[derive(Clone, Copy, Drop)]
pub(crate) enum FirstLine {
    /// It has this number of bytes with its line end, and is not open.
    Closed(usize),
    Open(OpenLine),
    /// It has no line end.
    Unended,
}

/// The number of bytes that are whole lines, none of which is open, and the open line after them, if
/// there is one.
#[derive(Clone, Copy, Drop)]
pub(crate) struct LineScan {
    pub(crate) whole: usize,
    pub(crate) opened: Option<OpenLine>,
}

/// Returns whether the double quotes of a line are open at its end.
pub(crate) fn is_open(line: &[u8], delimiter: Separator) -> bool
    requires { HasNoLineEnd line.now }
    ensures { result ≡ is_open delimiter.byte line.now }
{
    let mut place_now = Place::Start;
    for byte in line {
        match place_after(place_now, *byte, delimiter) {
            Some(next) => place_now = next,
            None => unreachable!(),
        }
    }
    matches!(place_now, Place::Quoted)
}

/// Returns whether the double quotes of a line are open at its end. Returns false for bytes with a line
/// end.
pub fn is_open_line(line: &[u8], delimiter: &Delimiter) -> bool
    ensures { HasNoLineEnd line.now → result ≡ is_open delimiter.now line.now }
{
    match memchr2(b'\r', b'\n', line) {
        None => is_open(line, Separator::of(delimiter)),
        Some(_) => false,
    }
}

/// Finds the end of the first line.
fn first_line(bytes: &[u8], delimiter: Separator) -> FirstLine
    ensures { IsFirstLine delimiter.byte bytes.now result }
{
    match memchr2(b'\r', b'\n', bytes) {
        None => FirstLine::Unended,
        Some(own) if is_open(&bytes[..own], delimiter) => FirstLine::Open(OpenLine {
            own,
            len: own + 1,
        }),
        Some(own) => FirstLine::Closed(own + 1),
    }
}

/// Finds whole lines from an index on at which a line begins, up to the first open one.
///
/// Lines without a double quote are passed over together.
pub(crate) fn scan_lines_from(bytes: &[u8], start: usize, delimiter: Separator) -> LineScan
    requires within { start ≤ length bytes.now }
    requires closed { AreClosedLines delimiter.byte (take start bytes.now) }
    ensures { IsLineScan delimiter.byte bytes.now result }
{
    let mut whole = start;
    while whole < bytes.len() {
        whole += lines_before_quote(&bytes[whole..]);
        match first_line(&bytes[whole..], delimiter) {
            FirstLine::Closed(len) => whole += len,
            FirstLine::Open(line) => {
                return LineScan {
                    whole,
                    opened: Some(line),
                };
            }
            FirstLine::Unended => return LineScan {
                whole,
                opened: None,
            },
        }
    }
    LineScan {
        whole,
        opened: None,
    }
}

/// Scans on where more bytes came after the first `before`, which were scanned.
///
/// A line that had no end is scanned once its end came.
pub(crate) fn scan_lines_on(
    bytes: &[u8],
    before: usize,
    scan: LineScan,
    delimiter: Separator,
) -> LineScan
    requires within { before ≤ length bytes.now }
    requires scanned { IsLineScan delimiter.byte (take before bytes.now) scan }
    ensures { IsLineScan delimiter.byte bytes.now result }
{
    if scan.opened.is_some() {
        return scan;
    }
    match memchr2(b'\r', b'\n', &bytes[before..]) {
        None => scan,
        Some(_) => scan_lines_from(bytes, scan.whole, delimiter),
    }
}

/// Returns the scan of the bytes after the first `count`.
pub(crate) fn scan_lines_rest(
    bytes: &[u8],
    count: usize,
    scan: LineScan,
    delimiter: Separator,
) -> LineScan
    requires within { count ≤ length bytes.now }
    requires scanned { IsLineScan delimiter.byte bytes.now scan }
    ensures { IsLineScan delimiter.byte (drop count bytes.now) result }
{
    if count == scan.whole {
        return LineScan {
            whole: 0,
            opened: scan.opened,
        };
    }
    scan_lines_from(&bytes[count..], 0, delimiter)
}
