//! Plain pairs of a piece, column by column: a zone's name and an instant in decimals.

ghost use Rattle.std.specs.Prelude.{◌≡◌, ◌+◌, ◌<◌, ◌≤◌, ◌^◌, ℕ, IfSome, IsTrue, false, slice_index_or};
ghost use Rattle.zic_columns.specs.declared.splits.TheConstants.{BATCH};
ghost use Rattle.zic_zones.specs.declared.slot.TheConstants.{UNKNOWN};
ghost use Rattle.zic_piece_rows.specs.code.Answer.{IfTime, IsFound, IsOfPiece, IsReadTime};
ghost use Rattle.zic_columns.specs.Record.{pair_record};
ghost use Rattle.zic_piece_rows.specs.code.Pairs.{AreAlike, ArePairColumns, ArePairs, AreSameStates};
ghost use Rattle.zic_piece_rows.specs.code.Pairs.{HaveFile, HaveNumber, HaveSame, HaveState, HaveTime, IfFile};
ghost use Rattle.zic_piece_rows.specs.code.Pairs.{IfState, IfStateAt, IsNumber, IsOfPairs, IsPlainPair, pair_in};

use crate::answer::TableAnswer;
use crate::answers::{Found, unknown};
use crate::piece::Piece;
use crate::time::{NO_TIME, ZERO_TIME, no_time, read_plain};
use zic_columns::{BATCH, Pair, Record, Span, may_have};
use zic_layouts::{Layout, LineEnd, RowFields, RowStart, TimeFrom, Unit, ZoneFrom};
use zic_row_text::RowTime;
use zic_zones::{RowStates, UNKNOWN};

/// How many states of a release are kept with those of another that are the same: the first ones.
const KEPT: usize = 256;

/// The number of no file.
pub(crate) const NO_FILE: usize = usize::MAX;

/// Columns of pairs: where they stand, and the times in their fields.
#[derive(Drop)]
pub(crate) struct Pairs {
    pub(crate) places: [Pair; BATCH],
    pub(crate) times: [RowTime; BATCH],
}

/// What a release shows of pairs: the numbers of the files of their zones, the states that it shows, by
/// number, and the number of the state of each pair: [`UNKNOWN`] where the tables don't have it, or its
/// row may have a fault.
#[derive(Drop)]
pub(crate) struct PairStates<'s> {
    pub(crate) files: [usize; BATCH],
    pub(crate) states: RowStates<'s>,
    pub(crate) numbers: [u16; BATCH],
}

impl<'s> PairStates<'s> {
    /// Returns columns before the first pairs.
    #[inline(always)]
    fn new(piece: &Piece<'_, 's>) -> PairStates<'s> {
        PairStates {
            files: [0; BATCH],
            states: piece.zones.states(),
            numbers: [0; BATCH],
        }
    }

    /// Finds the states that a piece's zones show of the first `count` pairs.
    fn find(&mut self, piece: &Piece<'_, 's>, pairs: &Pairs, count: usize)
        requires pairs { ArePairs piece.now count pairs.now.places }
        requires times { HaveTime piece.now count pairs.now.places pairs.now.times }
        ensures { HaveState piece.now count pairs.now self.new }
    {
        find_files(piece, &pairs.places, count, &mut self.files);
        self.find_by_files(piece, pairs, count);
    }

    /// Finds the same, where the files are known.
    fn find_by_files(&mut self, piece: &Piece<'_, 's>, pairs: &Pairs, count: usize)
        requires pairs { ArePairs piece.now count pairs.now.places }
        requires files { HaveFile piece.now count pairs.now.places self.old.files }
        requires times { HaveTime piece.now count pairs.now.places pairs.now.times }
        ensures { HaveState piece.now count pairs.now self.new }
    {
        self.states = piece.zones.states();
        find_states(
            piece,
            &self.states,
            pairs,
            &self.files,
            count,
            &mut self.numbers,
        );
    }

    /// Finds the states that the zones of another release show of the same pairs. `firsts` is what the
    /// first release shows of them.
    fn find_other(
        &mut self,
        other: &Piece<'_, 's>,
        pairs: &Pairs,
        firsts: &PairStates<'_>,
        count: usize,
    )
        requires pairs { ArePairs other.now count pairs.now.places }
        requires times { HaveTime other.now count pairs.now.places pairs.now.times }
        ensures { HaveState other.now count pairs.now self.new }
    {
        find_other_files(other, &pairs.places, &firsts.files, count, &mut self.files);
        self.find_by_files(other, pairs, count);
    }
}

/// Pairs, what a release shows of them, and what another does, if there is one, and of each whether both
/// show the same state.
#[derive(Drop)]
pub(crate) struct PairBatch<'s> {
    pub(crate) pairs: Pairs,
    pub(crate) shown: PairStates<'s>,
    pub(crate) others: PairStates<'s>,
    pub(crate) same: [bool; BATCH],
}

impl<'s> PairBatch<'s> {
    /// Returns a batch before its first pairs. All bytes of its columns are zero, as in
    /// [`Batch::new`](crate::batch::Batch::new).
    pub(crate) fn new(piece: &Piece<'_, 's>) -> PairBatch<'s> {
        let pair = Pair {
            start: 0,
            stop: 0,
            end: 0,
        };
        PairBatch {
            pairs: Pairs {
                places: [pair; BATCH],
                times: [ZERO_TIME; BATCH],
            },
            shown: PairStates::new(piece),
            others: PairStates::new(piece),
            same: [false; BATCH],
        }
    }

    /// Finds the states of the first `count` pairs, the first of which is the row of this number. They
    /// stay unknown where a row would have a greater number than it may have. `other` is the piece with
    /// the zones of another release.
    pub(crate) fn fill(
        &mut self,
        piece: &Piece<'_, 's>,
        other: &Option<Piece<'_, 's>>,
        number: u64,
        count: usize,
    )
        requires pairs { ArePairs piece.now count self.old.pairs.places }
        requires other { IfSome other.now (IsOfPiece piece.now) }
        requires fits { number + count < 2 ^ 64 }
        ensures places { self.new.pairs.places ≡ self.old.pairs.places }
        ensures columns { ArePairColumns piece.now other.now number count self.new }
    {
        if piece.most < number + count as u64 {
            self.shown.numbers = no_states();
            self.others.numbers = no_states();
            self.same = none_same();
            return;
        }
        read_times(piece, &self.pairs.places, count, &mut self.pairs.times);
        self.shown.find(piece, &self.pairs, count);
        let Some(other) = other else { return };
        self.others
            .find_other(other, &self.pairs, &self.shown, count);
        find_same(&self.shown, &self.others, count, &mut self.same);
    }

    /// Returns what the tables have of the pair at a place, which is this record.
    #[inline(always)]
    pub(crate) fn found<'a>(
        &'a self,
        piece: &Piece<'_, '_>,
        given: &'a Record,
        place: usize,
    ) -> Found<'a, 's>
        requires layout { IsOfPairs piece.now.layout.now }
        requires within { place < BATCH }
        requires pair { IsPlainPair piece.now (pair_in self.now.pairs.places place) }
        requires state { IfStateAt piece.now self.now.pairs self.now.shown place }
        requires given { given.now ≡ pair_record (pair_in self.now.pairs.places place) }
        ensures given { result.given.now ≡ given.now }
        ensures read { IfTime result.time (IsReadTime piece.now result.given.now) }
        ensures found { IsFound piece.now result.given.now result.time result.states.now.states
            result.known }
    {
        let states = &self.shown.states;
        let state = self.shown.numbers[place];
        if state == UNKNOWN {
            let pair = self.pairs.places[place];
            let file = piece
                .zones
                .find_at(piece.bytes, pair.start, pair.stop, NO_FILE);
            return Found {
                states,
                given,
                time: no_time(piece.layout.unit),
                known: unknown(file),
            };
        }
        let time = self.pairs.times[place];
        Found {
            states,
            given,
            time,
            known: TableAnswer {
                file: Some(self.shown.files[place]),
                time,
                state,
            },
        }
    }
}

/// Returns a column of states that aren't known.
#[inline(always)]
fn no_states() -> [u16; BATCH]
    ensures { (i : ℕ) → i < BATCH → slice_index_or result i 0 ≡ UNKNOWN }
{
    [UNKNOWN; BATCH]
}

/// Returns a column of pairs of which the two releases show different states.
#[inline(always)]
fn none_same() -> [bool; BATCH]
    ensures { (i : ℕ) → i < BATCH → slice_index_or result i false ≡ false }
{
    [false; BATCH]
}

/// Finds of which pairs both releases show the same state. Two states that were found to be the same are
/// kept by the number of the first, so that they are compared once.
#[inline(never)]
fn find_same(
    shown: &PairStates<'_>,
    others: &PairStates<'_>,
    count: usize,
    same: &mut [bool; BATCH],
)
    requires few { count ≤ BATCH }
    requires numbers { (i : ℕ) → i < count → IsNumber shown.now i }
    requires others { (i : ℕ) → i < count → IsNumber others.now i }
    ensures { HaveSame shown.now others.now count same.new }
{
    let mut alike = [UNKNOWN; KEPT];
    for i in 0..count {
        same[i] = find_alike(shown, others, i, &mut alike);
    }
}

/// Returns whether the pair at a place has the same state by both releases, as [`is_same`] does. `alike`
/// has the numbers by the other release of states that are the same by both.
#[inline(always)]
fn find_alike(
    shown: &PairStates<'_>,
    others: &PairStates<'_>,
    place: usize,
    alike: &mut [u16; KEPT],
) -> bool
    requires within { place < BATCH }
    requires number { IsNumber shown.now place }
    requires other { IsNumber others.now place }
    requires alike { AreAlike shown.now others.now alike.old }
    ensures same { IsTrue result → AreSameStates shown.now others.now place }
    ensures alike { AreAlike shown.now others.now alike.new }
{
    let number = shown.numbers[place];
    let other = others.numbers[place];
    let first = number as usize;
    if number == UNKNOWN || other == UNKNOWN || KEPT <= first {
        return is_same(shown, others, place);
    }
    if alike[first] == other {
        return true;
    }
    if !is_same(shown, others, place) {
        return false;
    }
    alike[first] = other;
    true
}

/// Returns whether the pair at a place has the same state by both releases, which both know.
fn is_same(shown: &PairStates<'_>, others: &PairStates<'_>, place: usize) -> bool
    requires within { place < BATCH }
    requires number { IsNumber shown.now place }
    requires other { IsNumber others.now place }
    ensures { IsTrue result → AreSameStates shown.now others.now place }
{
    let number = shown.numbers[place];
    let other = others.numbers[place];
    if number == UNKNOWN || other == UNKNOWN {
        return false;
    }
    let text = shown.states.text(number);
    text.is_same(others.states.text(other))
}

/// Returns whether the rows of a layout are those of pairs.
pub(crate) fn is_of_pairs(layout: &Layout) -> bool
    ensures { IsTrue result → IsOfPairs layout.now }
{
    let (ZoneFrom::Field(index), TimeFrom::Count, RowFields::Usual(_)) = (
        &layout.zone,
        layout.from,
        &layout.fields,
    ) else {
        return false;
    };
    let (RowStart::Fields | RowStart::Record, LineEnd::Lf) = (layout.start, layout.line_end) else {
        return false;
    };
    *index == 0 && layout.time == 1 && layout.count.admits(2)
}

/// Finds the files of the zones of pairs.
#[inline(never)]
fn find_files(
    piece: &Piece<'_, '_>,
    pairs: &[Pair; BATCH],
    count: usize,
    files: &mut [usize; BATCH],
)
    requires { ArePairs piece.now count pairs.now }
    ensures { HaveFile piece.now count pairs.now files.new }
{
    let mut likely = NO_FILE;
    for i in 0..count {
        let file = find_file(piece, pairs[i], likely);
        files[i] = file;
        likely = file;
    }
}

/// Finds the files of the zones of pairs by another release. Where both releases have the same names, a
/// number is as far from the first release's as it was for the pair before, so that one is tried first.
#[inline(never)]
fn find_other_files(
    other: &Piece<'_, '_>,
    pairs: &[Pair; BATCH],
    firsts: &[usize; BATCH],
    count: usize,
    files: &mut [usize; BATCH],
)
    requires { ArePairs other.now count pairs.now }
    ensures { HaveFile other.now count pairs.now files.new }
{
    let mut apart: usize = 0;
    for i in 0..count {
        let number = find_file(other, pairs[i], firsts[i].wrapping_add(apart));
        files[i] = number;
        apart = number.wrapping_sub(firsts[i]);
    }
}

/// Returns the number of the file of a pair's zone, or [`NO_FILE`]. A likely number is tried first.
#[inline(always)]
fn find_file(piece: &Piece<'_, '_>, pair: Pair, likely: usize) -> usize
    requires layout { IsOfPairs piece.now.layout.now }
    requires pair { IsPlainPair piece.now pair }
    ensures { IfFile piece.now pair result }
{
    piece
        .zones
        .find_at(piece.bytes, pair.start, pair.stop, likely)
        .unwrap_or(NO_FILE)
}

/// Reads the times of pairs.
#[inline(never)]
fn read_times(
    piece: &Piece<'_, '_>,
    pairs: &[Pair; BATCH],
    count: usize,
    times: &mut [RowTime; BATCH],
)
    requires { ArePairs piece.now count pairs.now }
    ensures { HaveTime piece.now count pairs.now times.new }
{
    match piece.layout.unit {
        Unit::Second => read_times_in(piece, Unit::Second, pairs, count, times),
        unit => read_times_in(piece, unit, pairs, count, times),
    }
}

/// Reads the times of pairs, by the unit of the layout.
#[inline(always)]
fn read_times_in(
    piece: &Piece<'_, '_>,
    unit: Unit,
    pairs: &[Pair; BATCH],
    count: usize,
    times: &mut [RowTime; BATCH],
)
    requires unit { unit ≡ piece.now.layout.now.unit }
    requires pairs { ArePairs piece.now count pairs.now }
    ensures { HaveTime piece.now count pairs.now times.new }
{
    for i in 0..count {
        times[i] = read_time(piece, unit, pairs[i]);
    }
}

/// Reads the time of a pair, by the unit of the layout.
#[inline(always)]
fn read_time(piece: &Piece<'_, '_>, unit: Unit, pair: Pair) -> RowTime
    requires unit { unit ≡ piece.now.layout.now.unit }
    requires layout { IsOfPairs piece.now.layout.now }
    requires pair { IsPlainPair piece.now pair }
    ensures { IfTime result (IsReadTime piece.now (pair_record pair)) }
{
    let span = Span {
        start: pair.stop + 1,
        end: pair.end,
    };
    read_plain(piece, unit, span)
}

/// Finds the states of pairs.
#[inline(never)]
fn find_states(
    piece: &Piece<'_, '_>,
    states: &RowStates<'_>,
    pairs: &Pairs,
    files: &[usize; BATCH],
    count: usize,
    numbers: &mut [u16; BATCH],
)
    requires files { states.now.files ≡ piece.now.zones.now }
    requires pairs { ArePairs piece.now count pairs.now.places }
    requires found { HaveFile piece.now count pairs.now.places files.now }
    requires times { HaveTime piece.now count pairs.now.places pairs.now.times }
    ensures { HaveNumber piece.now count pairs.now files.now states.now.states numbers.new }
{
    for i in 0..count {
        numbers[i] = find_state(piece, states, pairs.places[i], files[i], pairs.times[i]);
    }
}

/// Returns the number of the state that a file shows at the time of a pair, or [`UNKNOWN`].
#[inline(always)]
fn find_state(
    piece: &Piece<'_, '_>,
    states: &RowStates<'_>,
    pair: Pair,
    file: usize,
    time: RowTime,
) -> u16
    requires files { states.now.files ≡ piece.now.zones.now }
    requires layout { IsOfPairs piece.now.layout.now }
    requires pair { IsPlainPair piece.now pair }
    requires file { IfFile piece.now pair file }
    requires time { IfTime time (IsReadTime piece.now (pair_record pair)) }
    ensures { IfState piece.now pair file time states.now.states result }
{
    if file == NO_FILE || time.second == NO_TIME {
        return UNKNOWN;
    }
    if !may_have(piece.layout.max_record, pair.end - pair.start) {
        return UNKNOWN;
    }
    states.number(file, time.second)
}
