//! How far a piece was split.

ghost use Rattle.std.specs.Prelude.{◌≡◌, ◌≤◌, ℕ, List, None, Some, IfSome, IsTrue, drop, length};
ghost use Rattle.zic_columns.specs.code.Ends.{ShowsEnds};
ghost use Rattle.zic_columns.specs.code.Line.{IsAfterLineEnds};
ghost use Rattle.zic_columns.specs.code.Plain.{IsNextAt, record_of};

use crate::ends::FieldEnds;
use crate::fields::{Record, Separator, Wanted};
use crate::lines::{after_line_ends, ends_line};
use crate::plain::{PlainRecord, are_zone_and_time, split_pair, split_plain, split_quoted_pair};
use crate::walk::{split_record, split_rest};

/// The number of bytes of a piece that were split, and what is known of the field ends after them.
#[derive(Clone, Copy, Drop)]
pub(crate) struct Cursor {
    pub(crate) at: usize,
    ends: FieldEnds,
}

impl Cursor {
    /// Begins at an index.
    pub(crate) fn new(at: usize) -> Cursor
        ensures at { result.at ≡ at }
        ensures shows { (delimiter : ℕ) (piece : List ℕ) → at ≤ length piece
            → ShowsEnds delimiter piece result.at result.ends }
    {
        Cursor {
            at,
            ends: FieldEnds::unknown(at),
        }
    }

    /// Passes over line ends.
    #[inline(always)]
    pub(crate) fn pass_line_ends(&mut self, piece: &[u8])
        requires { self.old.at ≤ length piece.now }
        ensures shows { (delimiter : ℕ) → ShowsEnds delimiter piece.now self.old.at self.old.ends
            → ShowsEnds delimiter piece.now self.new.at self.new.ends }
        ensures after { IsAfterLineEnds (drop self.old.at piece.now) (drop self.new.at piece.now) }
    {
        if self.at < piece.len() && !ends_line(piece[self.at]) {
            return;
        }
        let rest = after_line_ends(&piece[self.at..]);
        *self = Cursor::new(piece.len() - rest.len());
    }

    /// Splits the next record if it begins here and is just a zone and a time, bare or between double
    /// quotes. `None` leaves the cursor where it is, for [`Cursor::next_record`].
    #[inline(always)]
    pub(crate) fn next_pair(
        &mut self,
        piece: &[u8],
        wanted: Wanted,
        delimiter: Separator,
    ) -> Option<PlainRecord>
        requires { ShowsEnds delimiter.byte piece.now self.old.at self.old.ends }
        ensures shows { ShowsEnds delimiter.byte piece.now self.new.at self.new.ends }
        ensures next { IfSome result (λ plain. IsNextAt delimiter.byte piece.now wanted self.old.at
            (Some (record_of plain.start plain.end plain.fields)) self.new.at) }
        ensures none { result ≡ None → self.new ≡ self.old }
    {
        if !are_zone_and_time(wanted) {
            return None;
        }
        if self.at < piece.len() && piece[self.at] == b'"' {
            let plain = split_quoted_pair(piece, self.at, wanted, delimiter)?;
            *self = Cursor::new(plain.end + 1);
            return Some(plain);
        }
        let pair = split_pair(piece, self.at, delimiter, &mut self.ends)?;
        self.at = pair.end + 1;
        Some(PlainRecord::of(pair))
    }

    /// Splits the next record, if there is one.
    #[inline(always)]
    pub(crate) fn next_record(
        &mut self,
        piece: &[u8],
        wanted: Wanted,
        delimiter: Separator,
    ) -> Option<Record>
        requires { ShowsEnds delimiter.byte piece.now self.old.at self.old.ends }
        ensures shows { ShowsEnds delimiter.byte piece.now self.new.at self.new.ends }
        ensures next { IsNextAt delimiter.byte piece.now wanted self.old.at result self.new.at }
    {
        self.pass_line_ends(piece);
        if self.at == piece.len() {
            return None;
        }
        if piece[self.at] == b'"' {
            let given = split_record(piece, self.at, wanted, delimiter);
            *self = Cursor::new(given.own.end);
            return Some(given);
        }
        match split_plain(piece, self.at, wanted, delimiter, &mut self.ends) {
            Ok(given) => {
                self.at = given.own.end + 1;
                Some(given)
            }
            Err(begun) => {
                let given = split_rest(piece, begun, wanted, delimiter);
                *self = Cursor::new(given.own.end);
                Some(given)
            }
        }
    }
}
