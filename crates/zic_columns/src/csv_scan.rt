//! Whole records among the buffered bytes.

ghost use Rattle.std.specs.Prelude.{◌≤◌, length, take, drop};
ghost use Rattle.zic_columns.specs.Column.{AreWholeRecords};
ghost use Rattle.zic_columns.specs.code.Cut.{AreCutAfterLines};
ghost use Rattle.zic_columns.specs.code.Buffered.{BeginWithLines, IsScanned};

use crate::fields::Separator;
use crate::machine::{Place, record_end};
use crate::quote::first_quote;
use crate::walk::whole_record_end;
use memchr::memrchr2;

/// The number of bytes that are whole records, and the state of a CSV reader in the record of the
/// others, if there are any.
#[derive(Clone, Copy, Drop)]
pub(crate) struct CsvScan {
    pub(crate) whole: usize,
    pub(crate) begun: Option<Place>,
}

/// Divides bytes after the last line end.
pub(crate) fn split_lines(bytes: &[u8]) -> (&[u8], &[u8])
    ensures { AreCutAfterLines bytes.now result.0.now result.1.now }
{
    match memrchr2(b'\r', b'\n', bytes) {
        Some(last) => bytes.split_at(last + 1),
        None => (&[], bytes),
    }
}

/// Returns the number of bytes in whole lines before that of the first double quote.
pub(crate) fn lines_before_quote(bytes: &[u8]) -> usize
    ensures { BeginWithLines bytes.now result }
{
    if bytes.len() > 0 && bytes[0] == b'"' {
        return 0;
    }
    match first_quote(bytes) {
        Some(at) => split_lines(&bytes[..at]).0.len(),
        None => split_lines(bytes).0.len(),
    }
}

/// Finds whole records from an index on at which a CSV reader stands before a record.
///
/// Lines are passed over together. From the line of a double quote on, the bytes are read one by
/// one up to the end of its record.
pub(crate) fn scan_from(bytes: &[u8], start: usize, delimiter: Separator) -> CsvScan
    requires within { start ≤ length bytes.now }
    requires whole { AreWholeRecords delimiter.byte (take start bytes.now) }
    ensures { IsScanned delimiter.byte bytes.now result }
{
    let mut whole = start;
    while whole < bytes.len() {
        whole += lines_before_quote(&bytes[whole..]);
        if whole == bytes.len() {
            break;
        }
        match whole_record_end(&bytes[whole..], delimiter) {
            Ok(len) => whole += len,
            Err(place) => {
                return CsvScan {
                    whole,
                    begun: Some(place),
                };
            }
        }
    }
    CsvScan { whole, begun: None }
}

/// Scans on where more bytes came after the first `before`, which were scanned.
pub(crate) fn scan_on(bytes: &[u8], before: usize, scan: CsvScan, delimiter: Separator) -> CsvScan
    requires within { before ≤ length bytes.now }
    requires scanned { IsScanned delimiter.byte (take before bytes.now) scan }
    ensures { IsScanned delimiter.byte bytes.now result }
{
    let Some(place) = scan.begun else {
        return scan_from(bytes, before, delimiter);
    };
    match record_end(place, &bytes[before..], delimiter) {
        Ok(len) => scan_from(bytes, before + len, delimiter),
        Err(place) => CsvScan {
            whole: scan.whole,
            begun: Some(place),
        },
    }
}

/// Returns the scan of the bytes after the first `count`.
pub(crate) fn scan_rest(bytes: &[u8], count: usize, scan: CsvScan, delimiter: Separator) -> CsvScan
    requires within { count ≤ length bytes.now }
    requires scanned { IsScanned delimiter.byte bytes.now scan }
    ensures { IsScanned delimiter.byte (drop count bytes.now) result }
{
    if count == scan.whole {
        return CsvScan {
            whole: 0,
            begun: scan.begun,
        };
    }
    scan_from(&bytes[count..], 0, delimiter)
}
