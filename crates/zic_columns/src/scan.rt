//! What was scanned of the buffered bytes, by where a record ends.

ghost use Rattle.std.specs.Prelude.{◌≡◌, ◌≤◌, ℕ, [], drop, length, take};
ghost use Rattle.zic_columns.specs.code.Buffered.{IsScannedBy, mode_of, open_of_scan, whole_of_scan};

use crate::csv_scan::{CsvScan, scan_on, scan_rest};
use crate::fields::Separator;
use crate::line_scan::{LineScan, OpenLine, scan_lines_on, scan_lines_rest};
use zic_layouts::Records;

/// The whole records among the buffered bytes.
#[derive(Clone, Copy, Drop)]
pub(crate) enum Scan {
    Csv(CsvScan),
    Lines(LineScan),
}

impl Scan {
    /// Returns the scan of no bytes.
    pub(crate) fn new(records: Records) -> Scan
        ensures mode { mode_of result ≡ records }
        ensures scanned { (delimiter : ℕ) → IsScannedBy delimiter [] result }
    {
        match records {
            Records::Csv => Scan::Csv(CsvScan {
                whole: 0,
                begun: None,
            }),
            Records::Lines => Scan::Lines(LineScan {
                whole: 0,
                opened: None,
            }),
        }
    }

    /// Returns where a record ends.
    pub(crate) fn records(self) -> Records
        ensures { result ≡ mode_of self }
    {
        match self {
            Scan::Csv(_) => Records::Csv,
            Scan::Lines(_) => Records::Lines,
        }
    }

    /// Returns the number of bytes in whole records.
    pub(crate) fn whole(self) -> usize
        ensures { result ≡ whole_of_scan self }
    {
        match self {
            Scan::Csv(scan) => scan.whole,
            Scan::Lines(scan) => scan.whole,
        }
    }

    /// Returns the open line after them, if there is one.
    pub(crate) fn opened(self) -> Option<OpenLine>
        ensures { result ≡ open_of_scan self }
    {
        match self {
            Scan::Csv(_) => None,
            Scan::Lines(scan) => scan.opened,
        }
    }

    /// Scans on where more bytes came after the first `before`, which were scanned.
    pub(crate) fn on(self, bytes: &[u8], before: usize, delimiter: Separator) -> Scan
        requires within { before ≤ length bytes.now }
        requires scanned { IsScannedBy delimiter.byte (take before bytes.now) self }
        ensures mode { mode_of result ≡ mode_of self }
        ensures scanned { IsScannedBy delimiter.byte bytes.now result }
    {
        match self {
            Scan::Csv(scan) => Scan::Csv(scan_on(bytes, before, scan, delimiter)),
            Scan::Lines(scan) => Scan::Lines(scan_lines_on(bytes, before, scan, delimiter)),
        }
    }

    /// Returns the scan of the bytes after the first `count`.
    pub(crate) fn rest(self, bytes: &[u8], count: usize, delimiter: Separator) -> Scan
        requires within { count ≤ length bytes.now }
        requires scanned { IsScannedBy delimiter.byte bytes.now self }
        ensures mode { mode_of result ≡ mode_of self }
        ensures scanned { IsScannedBy delimiter.byte (drop count bytes.now) result }
    {
        match self {
            Scan::Csv(scan) => Scan::Csv(scan_rest(bytes, count, scan, delimiter)),
            Scan::Lines(scan) => Scan::Lines(scan_lines_rest(bytes, count, scan, delimiter)),
        }
    }
}
