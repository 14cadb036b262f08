//! A column that is read in rounds.

ghost use Rattle.std.specs.Prelude.{◌≡◌, ◌↔◌, ◌⊎◌, ◌+◌, ◌<◌, ◌≤◌, ◌++◌, [], List, ℕ, true, None, Some, length, max, take, drop, IfErr, IfOk, IfSome, OnOk};
ghost use Rattle.std.specs.Io.KnownBytes.{IsAtEnd, Keeps};
ghost use Rattle.csv.specs.Reading.{strip_bom};
ghost use Rattle.zic_columns.specs.Lines.{texts_by};
ghost use Rattle.zic_columns.specs.Own.{first_text};
ghost use Rattle.zic_columns.specs.Round.{ArePiecesOf, GrowsFor, HasNoRecord, IsNextTooLong, PassesRecord, StaysWithin, Takes, TakesOf, buffer_for, may_have, may_take, taken_records, unread};
ghost use Rattle.zic_columns.specs.declared.buffer.TheConstants.{FIRST_ROOM};
ghost use Rattle.zic_columns.specs.declared.pieces.TheConstants.{MAX_ROUND_PIECES};
ghost use Rattle.zic_columns.specs.code.Range.{AreWithin, pieces_at};
ghost use Rattle.zic_columns.specs.code.Mark.{ShowsMark};
ghost use Rattle.zic_columns.specs.code.Buffered.{CanBeCut, IsBuffered, UnendedBy, to_come};

use crate::buffer::Window;
use crate::fields::{Separator, may_have};
use crate::limit::Bounded;
use crate::line_scan::{OpenLine, is_open};
use crate::lines::{first_own_bytes, line_end_at, lines_after};
use crate::mark::{shows_mark, without_mark};
use crate::pieces::{PieceRange, cut_pieces, first_record, split_records};
use crate::rounds::Round;
use crate::scan::Scan;
use std::alloc::{AllocError, Global};
use std::io::{self, Read};
use std::marker::Model;
use zic_layouts::{Delimiter, LineEnd, Notes, Records};

/// The number of bytes that show whether a column begins with a byte order mark, whatever they are.
const MARK_LEN: usize = 3;

/// The error of a column that cannot be read on: the reader failed or gave too many bytes, or
/// memory was refused.
#[derive(Debug, Drop)]
pub struct Unread;

impl From<AllocError> for Unread {
    fn from(_e: AllocError) -> Unread {
        Unread
    }
}

impl From<io::Error> for Unread {
    fn from(_e: io::Error) -> Unread {
        Unread
    }
}

/// Why no record was passed over.
#[derive(Debug, Drop)]
pub enum PassStop {
    /// The column cannot be read on.
    Unread,
    /// The record has more bytes of its own than it may have.
    TooLong,
}

impl From<Unread> for PassStop {
    ghost use Rattle.std.specs.Prelude.{◌≡◌};
    ghost use Rattle.zic_columns.specs.declared.columns.PassStop.TheVariants as stops;

    ghost from_gives = { λ _ e. e ≡ stops.Unread };

    fn from(_e: Unread) -> PassStop {
        PassStop::Unread
    }
}

impl From<AllocError> for PassStop {
    ghost use Rattle.std.specs.Prelude.{◌≡◌};
    ghost use Rattle.zic_columns.specs.declared.columns.PassStop.TheVariants as stops;

    ghost from_gives = { λ _ e. e ≡ stops.Unread };

    fn from(_e: AllocError) -> PassStop {
        PassStop::Unread
    }
}

/// A line that is open at its end, taken by itself.
#[derive(Debug, Drop)]
pub struct TakenLine {
    /// Its own bytes.
    pub own: Vec<u8>,
    /// How it ends. Clauses don't see this.
    pub line_end: LineEnd,
    /// The number of line feeds before it in the column, where they are counted.
    pub lines_before: Option<u64>,
}

/// What was taken of a column.
#[derive(Debug, Drop)]
pub enum Taken {
    /// A round.
    Round,
    /// A line that is open, by itself. Only a column in which each line is a record has such lines.
    OpenLine(TakenLine),
    /// Nothing: the next record has more bytes of its own than it may have.
    TooLong,
    /// Nothing: the column has no more records.
    End,
}

/// What is buffered first.
#[derive(Clone, Copy, Drop)]
enum Buffered {
    /// Records, in this number of bytes.
    Records(usize),
    /// An open line.
    Line(OpenLine),
    /// Bytes of a record that has more than it may have.
    TooLong,
}

/// A column that is read in rounds. Clauses see it as where its records end, its delimiter, the round that was taken
/// last, the buffered bytes that no round had, the length of their buffer, and the reader that gives the
/// others, with the number of bytes that it may still give.
///
/// A round is what one read gave, together with what was buffered: all whole records of these bytes.
/// Where they have no whole record, they are read on.
#[derive(Drop)]
pub struct Column<R: Read> {
    reader: Bounded<R>,
    window: Window,
    delimiter: Separator,
    /// The whole records among the buffered bytes.
    scan: Scan,
    /// The places of the round's pieces in the bytes that were taken last.
    ranges: Vec<PieceRange>,
    /// The number of line feeds before the buffered bytes, where they are counted.
    lines: Option<u64>,
}

impl<R: Read> Model for Column<R> {
    ghost use Rattle.std.specs.Prelude.{length, vec_len};
    ghost use Rattle.zic_columns.specs.Round.{ColumnOf};

    ghost Value = { ColumnOf R };

    ghost use Rattle.zic_columns.specs.code.Window.{held_bytes, taken_bytes};
    ghost use Rattle.zic_columns.specs.code.Range.{AreWithin, pieces_at};
    ghost use Rattle.zic_columns.specs.code.Buffered.{IsScannedBy, mode_of};

    ghost view = { λ column. record {
      by = mode_of column.scan;
      delimiter = column.delimiter.byte;
      round = pieces_at (taken_bytes column.window) column.ranges.items;
      held = held_bytes column.window;
      buffer = vec_len column.window.bytes;
      past = column.reader.past;
      left = column.reader.left;
      reader = column.reader.inner;
    } };

    ghost invariant = { λ column.
        AreWithin column.ranges.items (length (taken_bytes column.window))
        × IsScannedBy column.delimiter.byte (held_bytes column.window) column.scan };
}

impl<R: Read + Drop> Column<R> {
    /// Begins the column of a reader, of at most `most` bytes, with this delimiter between fields, whose
    /// records end as `records` says.
    /// Reads once, and again only while the buffered bytes are a proper beginning of a byte order mark.
    /// Its line feeds are counted where details are noted.
    ///
    /// At most `most` bytes are taken of the reader, now and later, and one beyond, which shows that
    /// there are more.
    ///
    /// # Errors
    ///
    /// Fails where the reader fails or gives more bytes, or memory is refused.
    pub fn new(
        alloc: Global,
        reader: R,
        most: u64,
        records: Records,
        delimiter: &Delimiter,
        notes: Notes,
    ) -> Result<Column<R>, Unread>
        ensures by { IfOk result (λ column. column.by ≡ records) }
        ensures delimiter { IfOk result (λ column. column.delimiter ≡ delimiter.now) }
        ensures bytes { IfOk result (λ column. IfSome (R.remaining reader)
            (λ bytes. unread R.remaining column ≡ Some (strip_bom bytes))) }
        ensures limit { IfOk result (λ column. TakesOf (R.remaining reader)
            (R.remaining column.reader) (most + 1) (may_take column.past column.left)) }
        ensures held { IfOk result (λ column. length column.held ≤ column.buffer) }
        ensures buffer { IfOk result (λ column. column.buffer ≤ FIRST_ROOM) }
    {
        let mut column = Column {
            reader: Bounded::new(reader, most),
            window: Window::new(alloc),
            delimiter: Separator::of(delimiter),
            scan: Scan::new(records),
            ranges: Vec::new(alloc),
            lines: match notes {
                Notes::Faults => None,
                Notes::Details => Some(0),
            },
        };
        column.read_mark()?;
        let held = column.window.held();
        let mark = held.len() - without_mark(held).len();
        column.pass(mark, Vec::new(alloc));
        Ok(column)
    }
}

impl<R: Read> Column<R> {
    /// Takes the next round, in pieces of `size` records each, the last of which may have fewer, or an
    /// open line, with an empty round. At the end of the column takes nothing, nor where more than
    /// `longest` bytes are buffered of a record that goes on, where there is such a number.
    ///
    /// A round has all buffered whole records up to the first open line, also those that are longer.
    /// Reads only while neither a whole record nor an open line is buffered, and no more than `longest`
    /// bytes. A read asks for up to `wanted` bytes: at first for 64 KiB, and for more where reads give
    /// all that was requested, or a record is longer.
    ///
    /// Where there is a number `longest`, the buffer grows no longer than 64 KiB, than `wanted`, or than an
    /// eighth more than `longest`, whichever is the most.
    ///
    /// # Errors
    ///
    /// Fails where the reader fails or gives more bytes than the column may have, or memory is
    /// refused.
    pub fn next_round(
        &mut self,
        alloc: Global,
        wanted: usize,
        size: usize,
        longest: Option<u64>,
    ) -> Result<Taken, Unread>
        requires { 0 < size }
        ensures by { self.new.by ≡ self.old.by }
        ensures delimiter { self.new.delimiter ≡ self.old.delimiter }
        ensures takes { IfOk result (λ taken. Takes self.old.by self.old.delimiter (unread R.remaining self.old)
            (unread R.remaining self.new) (taken_records self.old.delimiter taken self.new.round)) }
        ensures some { IfOk result (λ taken. taken ≡ Taken.Round ↔ (0 < length self.new.round)) }
        ensures end { IfOk result
            (λ taken. taken ≡ Taken.End → HasNoRecord self.old.by self.old.delimiter (unread R.remaining self.new)) }
        ensures long { IfOk result (λ taken. taken ≡ Taken.TooLong
            → IsNextTooLong longest self.old.by self.old.delimiter (unread R.remaining self.new)) }
        ensures few { IfOk result (λ _. length self.new.round ≤ MAX_ROUND_PIECES) }
        ensures cut { IfOk result (λ _. ArePiecesOf self.old.delimiter size self.new.round) }
        ensures limit { StaysWithin R.remaining self.old self.new }
        ensures held { OnOk result (length self.new.held ≤ self.new.buffer) }
        ensures buffer { GrowsFor wanted longest self.old self.new }
    {
        match self.gather(alloc, wanted, longest)? {
            Buffered::Records(count) => self.take_round(alloc, count, size),
            Buffered::Line(line) => {
                let held = self.window.held();
                let own = Vec::from_slice(alloc, &held[..line.own])?;
                let taken = TakenLine {
                    own,
                    line_end: line_end_at(held, line.own),
                    lines_before: self.lines,
                };
                self.pass(line.len, Vec::new(alloc));
                Ok(Taken::OpenLine(taken))
            }
            Buffered::TooLong => {
                self.pass(0, Vec::new(alloc));
                Ok(Taken::TooLong)
            }
        }
    }

    /// Passes over the first record that no round had, if there is one, and leaves an empty round.
    /// Returns the record's own bytes, or no bytes where there is no record.
    ///
    /// Reads as [`Column::next_round`] does.
    ///
    /// # Errors
    ///
    /// `TooLong` where the record has more than `longest` bytes of its own, where there is such a number:
    /// also where it isn't read to its end. `Unread` where the reader fails or gives more bytes than the
    /// column may have, or memory is refused.
    pub fn pass_record(
        &mut self,
        alloc: Global,
        wanted: usize,
        longest: Option<u64>,
    ) -> Result<Vec<u8>, PassStop>
        ensures by { self.new.by ≡ self.old.by }
        ensures delimiter { self.new.delimiter ≡ self.old.delimiter }
        ensures passes { IfOk result (λ _. PassesRecord R.remaining self.old self.new) }
        ensures own { IfOk result (λ own. IfSome (unread R.remaining self.old)
            (λ bytes. own.items ≡ first_text (texts_by self.old.by self.old.delimiter bytes))) }
        ensures none { IfOk result (λ _. self.new.round ≡ []) }
        ensures short { IfOk result (λ own. may_have longest (length own.items) ≡ true) }
        ensures long { IfErr result (λ why. why ≡ PassStop.TooLong
            → IsNextTooLong longest self.old.by self.old.delimiter (unread R.remaining self.old)) }
        ensures limit { StaysWithin R.remaining self.old self.new }
        ensures held { OnOk result (length self.new.held ≤ self.new.buffer) }
        ensures buffer { GrowsFor wanted longest self.old self.new }
    {
        let own = self.pass_next(alloc, wanted, longest)?;
        if may_have(longest, own.len()) {
            return Ok(own);
        }
        Err(PassStop::TooLong)
    }

    /// Returns the round that was taken last.
    pub fn round(&self) -> Round<'_>
        ensures { result ≡ self.now.round }
    {
        Round {
            bytes: self.window.taken(),
            ranges: &self.ranges,
        }
    }

    /// Reads until the buffered bytes show whether the column begins with a byte order mark.
    fn read_mark(&mut self) -> Result<(), Unread>
        ensures by { self.new.by ≡ self.old.by }
        ensures delimiter { self.new.delimiter ≡ self.old.delimiter }
        ensures keeps { IfOk result
            (λ _. Keeps (unread R.remaining self.old) (unread R.remaining self.new)) }
        ensures shows { IfOk result
            (λ _. ShowsMark self.new.held ⊎ IsAtEnd (to_come R.remaining self.new)) }
        ensures limit { StaysWithin R.remaining self.old self.new }
        ensures buffer { self.new.buffer ≤ max self.old.buffer FIRST_ROOM }
    {
        for _ in 0..MARK_LEN {
            if shows_mark(self.window.held()) {
                return Ok(());
            }
            if self.read_on(MARK_LEN)? == 0 {
                return Ok(());
            }
        }
        Ok(())
    }

    /// Takes a round of the first `count` buffered bytes, or nothing where they have no record.
    fn take_round(&mut self, alloc: Global, count: usize, size: usize) -> Result<Taken, Unread>
        requires some { 0 < size }
        requires cut { CanBeCut self.old.by self.old.delimiter self.old.held (to_come R.remaining self.old) count }
        ensures by { self.new.by ≡ self.old.by }
        ensures delimiter { self.new.delimiter ≡ self.old.delimiter }
        ensures takes { IfOk result (λ taken. Takes self.old.by self.old.delimiter (unread R.remaining self.old)
            (unread R.remaining self.new) (taken_records self.old.delimiter taken self.new.round)) }
        ensures some { IfOk result (λ taken. taken ≡ Taken.Round ↔ (0 < length self.new.round)) }
        ensures end { IfOk result
            (λ taken. taken ≡ Taken.End → HasNoRecord self.old.by self.old.delimiter (unread R.remaining self.new)) }
        ensures short { IfOk result (λ taken. taken ≡ Taken.TooLong → ⊥) }
        ensures few { IfOk result (λ _. length self.new.round ≤ MAX_ROUND_PIECES) }
        ensures cut { IfOk result (λ _. ArePiecesOf self.old.delimiter size self.new.round) }
        ensures limit { StaysWithin R.remaining self.old self.new }
        ensures held { OnOk result (length self.new.held ≤ self.new.buffer) }
        ensures buffer { self.new.buffer ≡ self.old.buffer }
    {
        let cut = cut_pieces(
            alloc,
            &self.window.held()[..count],
            size,
            self.lines,
            self.delimiter,
        )?;
        let none = cut.ranges.is_empty();
        self.pass(cut.len, cut.ranges);
        if none {
            return Ok(Taken::End);
        }
        Ok(Taken::Round)
    }

    /// Passes over the first record that no round had, however many bytes it has, as
    /// [`Column::pass_record`] does. `TooLong` where more than `longest` bytes are buffered of a record
    /// that goes on.
    fn pass_next(
        &mut self,
        alloc: Global,
        wanted: usize,
        longest: Option<u64>,
    ) -> Result<Vec<u8>, PassStop>
        ensures by { self.new.by ≡ self.old.by }
        ensures delimiter { self.new.delimiter ≡ self.old.delimiter }
        ensures passes { IfOk result (λ _. PassesRecord R.remaining self.old self.new) }
        ensures own { IfOk result (λ own. IfSome (unread R.remaining self.old)
            (λ bytes. own.items ≡ first_text (texts_by self.old.by self.old.delimiter bytes))) }
        ensures none { IfOk result (λ _. self.new.round ≡ []) }
        ensures long { IfErr result (λ why. why ≡ PassStop.TooLong
            → IsNextTooLong longest self.old.by self.old.delimiter (unread R.remaining self.old)) }
        ensures limit { StaysWithin R.remaining self.old self.new }
        ensures held { OnOk result (length self.new.held ≤ self.new.buffer) }
        ensures buffer { GrowsFor wanted longest self.old self.new }
    {
        match self.gather(alloc, wanted, longest)? {
            Buffered::Records(count) => Ok(self.pass_first(alloc, count)?),
            Buffered::Line(line) => {
                let own = Vec::from_slice(alloc, &self.window.held()[..line.own])?;
                self.pass(line.len, Vec::new(alloc));
                Ok(own)
            }
            Buffered::TooLong => Err(PassStop::TooLong),
        }
    }

    /// Passes over the first record of the first `count` buffered bytes, if they have one. Returns the
    /// record's own bytes, or no bytes.
    fn pass_first(&mut self, alloc: Global, count: usize) -> Result<Vec<u8>, Unread>
        requires { CanBeCut self.old.by self.old.delimiter self.old.held (to_come R.remaining self.old) count }
        ensures by { self.new.by ≡ self.old.by }
        ensures delimiter { self.new.delimiter ≡ self.old.delimiter }
        ensures passes { IfOk result (λ _. PassesRecord R.remaining self.old self.new) }
        ensures own { IfOk result (λ own. IfSome (unread R.remaining self.old)
            (λ bytes. own.items ≡ first_text (texts_by self.old.by self.old.delimiter bytes))) }
        ensures none { IfOk result (λ _. self.new.round ≡ []) }
        ensures limit { StaysWithin R.remaining self.old self.new }
        ensures held { OnOk result (length self.new.held ≤ self.new.buffer) }
        ensures buffer { self.new.buffer ≡ self.old.buffer }
    {
        let (record, _) = split_records(&self.window.held()[..count], 1, self.delimiter);
        let own = first_own_bytes(alloc, record, self.delimiter)?;
        let len = record.len();
        self.pass(len, Vec::new(alloc));
        Ok(own)
    }

    /// Reads on until whole records or an open line are buffered, or more bytes than a record may have,
    /// or the column ends. Returns what is buffered first.
    fn gather(
        &mut self,
        alloc: Global,
        wanted: usize,
        longest: Option<u64>,
    ) -> Result<Buffered, Unread>
        ensures by { self.new.by ≡ self.old.by }
        ensures delimiter { self.new.delimiter ≡ self.old.delimiter }
        ensures takes { IfOk result (λ _. Takes self.old.by self.old.delimiter
            (unread R.remaining self.old) (unread R.remaining self.new) []) }
        ensures buffered { IfOk result
            (IsBuffered longest self.new.by self.new.delimiter self.new.held (to_come R.remaining self.new)) }
        ensures limit { StaysWithin R.remaining self.old self.new }
        ensures buffer { GrowsFor wanted longest self.old self.new }
    {
        for _ in 0..u64::MAX {
            if let Some(buffered) = self.buffered(alloc, longest) {
                return Ok(buffered);
            }
            if self.read_on(wanted)? == 0 {
                return Ok(self.last_buffered(longest));
            }
        }
        Err(Unread)
    }

    /// Returns the buffered whole records, or the open line, or that there are more bytes than a record
    /// may have, or `None` where there are no more: then drops the buffered lines, which are without a
    /// byte.
    fn buffered(&mut self, alloc: Global, longest: Option<u64>) -> Option<Buffered>
        ensures by { self.new.by ≡ self.old.by }
        ensures delimiter { self.new.delimiter ≡ self.old.delimiter }
        ensures takes { Takes self.old.by self.old.delimiter
            (unread R.remaining self.old) (unread R.remaining self.new) [] }
        ensures buffered { IfSome result
            (IsBuffered longest self.new.by self.new.delimiter self.new.held (to_come R.remaining self.new)) }
        ensures none { result ≡ None → UnendedBy self.new.by self.new.delimiter self.new.held }
        ensures short { result ≡ None → may_have longest (length self.new.held) ≡ true }
        ensures limit { StaysWithin R.remaining self.old self.new }
        ensures buffer { self.new.buffer ≡ self.old.buffer }
    {
        let whole = self.scan.whole();
        if first_record(&self.window.held()[..whole], self.delimiter).is_some() {
            return Some(Buffered::Records(whole));
        }
        let opened = self.scan.opened();
        self.pass(whole, Vec::new(alloc));
        if let Some(line) = opened {
            return Some(Buffered::Line(line));
        }
        if may_have(longest, self.window.held().len()) {
            return None;
        }
        Some(Buffered::TooLong)
    }

    /// Returns what is buffered at the end of the column, where no line has its end.
    fn last_buffered(&self, longest: Option<u64>) -> Buffered
        requires end { IsAtEnd (to_come R.remaining self.now) }
        requires unended { UnendedBy self.now.by self.now.delimiter self.now.held }
        ensures { IsBuffered longest self.now.by self.now.delimiter self.now.held (to_come R.remaining self.now) result }
    {
        let held = self.window.held();
        let len = held.len();
        match self.scan.records() {
            Records::Csv => Buffered::Records(len),
            Records::Lines if is_open(held, self.delimiter) => Buffered::Line(OpenLine {
                own: len,
                len,
            }),
            Records::Lines => Buffered::Records(len),
        }
    }

    /// Drops the round and reads once. Returns the number of bytes that came, 0 at the end of the
    /// column.
    fn read_on(&mut self, wanted: usize) -> Result<usize, Unread>
        ensures keeps { IfOk result
            (λ _. Keeps (unread R.remaining self.old) (unread R.remaining self.new)) }
        ensures by { self.new.by ≡ self.old.by }
        ensures delimiter { self.new.delimiter ≡ self.old.delimiter }
        ensures grows { IfOk result (λ n. (more : List ℕ) × (length more ≡ n)
            × (self.new.held ≡ self.old.held ++ more)) }
        ensures end { IfOk result (λ n. n ≡ 0 → IsAtEnd (to_come R.remaining self.new)) }
        ensures limit { StaysWithin R.remaining self.old self.new }
        ensures buffer { self.new.buffer
            ≤ max self.old.buffer (buffer_for wanted (length self.old.held)) }
    {
        self.ranges.clear();
        self.window.make_room(wanted)?;
        let before = self.window.held().len();
        let count = self.window.read_from(&mut self.reader)?;
        self.scan = self.scan.on(self.window.held(), before, self.delimiter);
        Ok(count)
    }

    /// Passes over the first `count` bytes, in which these pieces stand.
    fn pass(&mut self, count: usize, ranges: Vec<PieceRange>)
        requires within { count ≤ length self.old.held }
        requires ranges { AreWithin ranges.items count }
        ensures passed { self.new ≡ record {
          by = self.old.by;
          delimiter = self.old.delimiter;
          round = pieces_at (take count self.old.held) ranges.items;
          held = drop count self.old.held;
          buffer = self.old.buffer;
          past = self.old.past;
          left = self.old.left;
          reader = self.old.reader;
        } }
        ensures held { length self.new.held ≤ self.new.buffer }
    {
        let scan = self.scan.rest(self.window.held(), count, self.delimiter);
        self.lines = lines_after(self.lines, &self.window.held()[..count]);
        self.window.take(count);
        self.scan = scan;
        self.ranges = ranges;
    }
}
