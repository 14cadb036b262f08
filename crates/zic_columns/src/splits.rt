//! The records of a piece, some at a time.

ghost use Rattle.std.specs.Prelude.{◌≡◌, ◌++◌, ◌+◌, ◌<◌, ◌≤◌, [], All, drop, length, map, take};
ghost use Rattle.zic_columns.specs.Own.{csv_records};
ghost use Rattle.zic_columns.specs.Record.{IsPairOf, IsSplit, pair_record, record_at};
ghost use Rattle.zic_columns.specs.code.Ends.{ShowsEnds};

use crate::cursor::Cursor;
use crate::fields::{Pair, Record, Separator, Wanted};
use crate::pairs::split_pairs;
use crate::plain::are_zone_and_time;
use std::marker::Model;
use zic_layouts::Delimiter;

/// The most records that are split together.
pub const BATCH: usize = 64;

/// Divides a piece into records, some at a time. Clauses see the delimiter, the bytes of the piece, the
/// fields that rows need, and the records to come.
#[derive(Drop)]
pub struct Splitter<'a> {
    bytes: &'a [u8],
    fields: Wanted,
    separator: Separator,
    /// The number of bytes that were split.
    at: usize,
}

impl<'a> Model for Splitter<'a> {
    ghost use Rattle.std.specs.Prelude.{◌≤◌, drop, length};
    ghost use Rattle.zic_columns.specs.Own.{csv_records};
    ghost use Rattle.zic_columns.specs.Record.{Splitting};

    ghost Value = { Splitting };

    ghost view = { λ splitter. record {
      delimiter = splitter.separator.byte;
      piece = splitter.bytes.now;
      wanted = splitter.fields;
      left = csv_records splitter.separator.byte (drop splitter.at splitter.bytes.now);
    } };

    ghost invariant = { λ splitter. splitter.at ≤ length splitter.bytes.now };
}

impl<'a> Splitter<'a> {
    /// Begins to split a piece, in which this delimiter stands between fields.
    pub fn new(piece: &'a [u8], wanted: Wanted, delimiter: &Delimiter) -> Splitter<'a>
        ensures delimiter { result.delimiter ≡ delimiter.now }
        ensures piece { result.piece ≡ piece.now }
        ensures wanted { result.wanted ≡ wanted }
        ensures left { result.left ≡ csv_records delimiter.now piece.now }
        ensures few { length result.left ≤ length piece.now + 1 }
    {
        Splitter {
            bytes: piece,
            fields: wanted,
            separator: Separator::of(delimiter),
            at: 0,
        }
    }

    /// Splits the next records, at most `BATCH`, and returns their number. Fewer than `BATCH` come
    /// only where no record is left.
    pub fn fill(&mut self, records: &mut [Record; BATCH]) -> usize
        ensures delimiter { self.new.delimiter ≡ self.old.delimiter }
        ensures piece { self.new.piece ≡ self.old.piece }
        ensures wanted { self.new.wanted ≡ self.old.wanted }
        ensures few { result ≤ BATCH }
        ensures long { length records.new ≡ BATCH }
        ensures split { self.old.left
            ≡ map (record_at self.old.delimiter self.old.piece) (take result records.new) ++ self.new.left }
        ensures each { All (IsSplit self.old.delimiter self.old.piece self.old.wanted) (take result records.new) }
        ensures end { result < BATCH → self.new.left ≡ [] }
    {
        let mut cursor = Cursor::new(self.at);
        let count = Splitter::split_on(
            self.bytes,
            self.fields,
            self.separator,
            &mut cursor,
            records,
        );
        self.at = cursor.at;
        count
    }

    /// Splits the next records as long as each is a plain pair, at most `BATCH`, and returns their number.
    /// Fewer don't mean that no record is left: the next isn't a plain pair, has a space or a control
    /// character, or isn't shown by the next 64 bytes; or rows need other fields than the first two.
    pub fn fill_pairs(&mut self, pairs: &mut [Pair; BATCH]) -> usize
        ensures delimiter { self.new.delimiter ≡ self.old.delimiter }
        ensures piece { self.new.piece ≡ self.old.piece }
        ensures wanted { self.new.wanted ≡ self.old.wanted }
        ensures few { result ≤ BATCH }
        ensures long { length pairs.new ≡ BATCH }
        ensures split { self.old.left ≡ map (record_at self.old.delimiter self.old.piece)
            (map pair_record (take result pairs.new)) ++ self.new.left }
        ensures each { All (IsSplit self.old.delimiter self.old.piece self.old.wanted)
            (map pair_record (take result pairs.new)) }
        ensures bare { All (IsPairOf self.old.delimiter self.old.piece) (take result pairs.new) }
    {
        if !are_zone_and_time(self.fields) {
            return 0;
        }
        let split = split_pairs(self.bytes, self.at, self.separator, pairs);
        self.at = split.at;
        split.count
    }

    /// Splits the next records of a piece, at most `BATCH`, and returns their number.
    fn split_on(
        piece: &[u8],
        wanted: Wanted,
        delimiter: Separator,
        cursor: &mut Cursor,
        records: &mut [Record; BATCH],
    ) -> usize
        requires { ShowsEnds delimiter.byte piece.now cursor.old.at cursor.old.ends }
        ensures shows { ShowsEnds delimiter.byte piece.now cursor.new.at cursor.new.ends }
        ensures few { result ≤ BATCH }
        ensures long { length records.new ≡ BATCH }
        ensures split { csv_records delimiter.byte (drop cursor.old.at piece.now) ≡ map (record_at delimiter.byte piece.now)
            (take result records.new) ++ csv_records delimiter.byte (drop cursor.new.at piece.now) }
        ensures each { All (IsSplit delimiter.byte piece.now wanted) (take result records.new) }
        ensures end { result < BATCH → csv_records delimiter.byte (drop cursor.new.at piece.now) ≡ [] }
    {
        let mut count = 0;
        while count < BATCH {
            // Stored field by field: a copy of a record that was just made would wait for its stores.
            if let Some(plain) = cursor.next_pair(piece, wanted, delimiter) {
                records[count] = plain.record();
            } else if let Some(given) = cursor.next_record(piece, wanted, delimiter) {
                records[count] = given;
            } else {
                return count;
            }
            count += 1;
        }
        count
    }
}
