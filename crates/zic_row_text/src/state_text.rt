//! The text of a state at the end of a row.

ghost use Rattle.std.specs.Prelude.{◌≡◌, ◌+◌, ◌*◌, ◌<◌, ◌≤◌, ◌+ℤ◌, ◌++◌, ◌↔◌, IsTrue, length, pos, set, take};
ghost use Rattle.zic_base.specs.State.{shown};
ghost use Rattle.zic_row_text.specs.declared.count.TheConstants.{DAY, DAYS, DAYS_TO_1970};
ghost use Rattle.zic_row_text.specs.Instant.{IsRowInstant, IsRowOffset};
ghost use Rattle.zic_base.specs.Digits.{offset_text};
ghost use Rattle.zic_row_text.specs.Row.{iso_offset_text, iso_state_text, state_text, styled_text, IsRowState};
ghost use Rattle.zic_row_text.specs.code.Iso.{iso_width};
ghost use Rattle.zic_row_text.specs.code.Cached.{before_name, state_in, IsTextOf};

use crate::count::{DAY, DAYS, DAYS_TO_1970};
use crate::store::{put_32, put_part};
use std::marker::Model;
use zic_base::{State, offset_text};
use zic_layouts::Style;

/// The room of a text in bytes: a writer copies all of it, since that is quicker.
pub(crate) const STATE_ROOM: usize = 32;

/// The text of a state at the end of a row, made once for many rows: the UT offset, the daylight
/// flag and the abbreviation after a delimiter each, and a newline. Clauses see the state.
#[derive(Drop)]
pub struct StateText {
    offset: i32,
    /// The seconds from 0001-01-01T00:00:00 of local time to 1970-01-01T00:00:00 UT.
    shift: i64,
    daylight: bool,
    /// The text with commas.
    octets: [u8; STATE_ROOM],
    /// The length of the text in bytes.
    len: usize,
    ghost is_shift: { shift ≡ offset +ℤ pos (DAYS_TO_1970 * DAY) },
    ghost is_text: { IsTextOf (state_in offset daylight octets len) octets len },
}

impl Model for StateText {
    ghost use Rattle.zic_base.specs.State.{Shown};
    ghost use Rattle.zic_row_text.specs.code.Cached.{state_in};

    ghost Value = { Shown };

    ghost view = { λ t. state_in t.offset t.daylight t.octets t.len };
}

impl StateText {
    /// Returns the text of a state whose offset is within 24:00:00 and whose abbreviation has at
    /// most 16 bytes.
    pub fn new(state: State<'_>) -> StateText
        requires { IsRowState (shown state) }
        ensures { result ≡ shown state.entry }
    {
        let mut octets = [0; STATE_ROOM];
        let len = write_text(&mut octets, &state);
        StateText {
            offset: state.offset,
            shift: shift_of(state.offset),
            daylight: state.daylight,
            octets,
            len,
        }
    }

    /// Returns whether this is the text of a state.
    pub fn is_of(&self, state: &State<'_>) -> bool
        ensures { IsTrue result ↔ (self.now ≡ shown state.now) }
    {
        let is_time_same = self.offset == state.offset && self.daylight == state.daylight;
        is_time_same && *self.name() == *state.name
    }

    /// Returns whether this is the text of the same state as another.
    #[inline(always)]
    pub fn is_same(&self, other: &StateText) -> bool
        ensures { IsTrue result ↔ (self.now ≡ other.now) }
    {
        let is_time_same = self.offset == other.offset && self.daylight == other.daylight;
        is_time_same && *self.name() == *other.name()
    }

    /// Returns the abbreviation.
    pub fn name(&self) -> &[u8]
        ensures { result.now ≡ self.now.name }
    {
        &self.octets[13..self.len - 1]
    }

    /// Returns the text of the UT offset, as `-04:00:00`.
    pub fn offset_text(&self) -> &[u8]
        ensures { result.now ≡ offset_text self.now.offset }
    {
        &self.octets[1..10]
    }

    /// Returns the text of the UT offset after a local time, as `-04:00`, with its seconds where it has
    /// some.
    pub fn iso_offset_text(&self) -> &[u8]
        ensures { result.now ≡ iso_offset_text self.now.offset }
    {
        &self.octets[1..1 + iso_width(self.offset)]
    }

    /// Returns the daylight flag.
    pub fn daylight(&self) -> bool
        ensures { result ≡ self.now.daylight }
    {
        self.daylight
    }

    /// Returns the UT offset in seconds, positive east.
    #[inline(always)]
    pub fn offset(&self) -> i32
        ensures value { result ≡ self.now.offset }
        ensures may { IsRowOffset result }
    {
        self.offset
    }

    /// Returns the second of local time at an instant, from 0001-01-01T00:00:00.
    #[inline(always)]
    pub(crate) fn local_seconds(&self, instant: i64) -> u64
        requires { IsRowInstant instant }
        ensures value { pos result ≡ instant +ℤ self.now.offset +ℤ pos (DAYS_TO_1970 * DAY) }
        ensures fits { result < DAYS * DAY }
    {
        (instant + self.shift) as u64
    }

    /// Writes the text of the state in a row of a style into another text with room for 32 bytes,
    /// and returns where it ends.
    #[inline(always)]
    pub(crate) fn put_styled(
        &self,
        text: &mut [u8],
        at: usize,
        style: Style,
        delimiter: u8,
    ) -> usize
        requires { at + STATE_ROOM ≤ length text.old }
        ensures end { result ≤ at + STATE_ROOM }
        ensures same_length { length text.new ≡ length text.old }
        ensures written { take result text.new
            ≡ take at text.old ++ styled_text delimiter style self.now }
    {
        match style {
            Style::Fields => self.put(text, at, delimiter),
            Style::Iso => self.put_iso(text, at, delimiter),
        }
    }

    /// Writes the text without the delimiter before the offset, and without its seconds where it has
    /// none. Returns where it ends.
    fn put_iso(&self, text: &mut [u8], at: usize, delimiter: u8) -> usize
        requires { at + STATE_ROOM ≤ length text.old }
        ensures end { result ≤ at + STATE_ROOM }
        ensures same_length { length text.new ≡ length text.old }
        ensures written { take result text.new ≡ take at text.old ++ iso_state_text delimiter self.now }
    {
        let width = iso_width(self.offset());
        let flag = put_part(text, at, &self.octets[1..1 + width]);
        let end = put_part(text, flag, &self.octets[10..self.len]);
        text[flag] = delimiter;
        text[flag + 2] = delimiter;
        end
    }

    /// Writes the text into another with room for 32 bytes, and returns where it ends.
    #[inline(always)]
    pub(crate) fn put(&self, text: &mut [u8], at: usize, delimiter: u8) -> usize
        requires { at + STATE_ROOM ≤ length text.old }
        ensures end { result ≤ at + STATE_ROOM }
        ensures same_length { length text.new ≡ length text.old }
        ensures written { take result text.new ≡ take at text.old ++ state_text delimiter self.now }
    {
        put_32(text, at, &self.octets, self.len);
        if delimiter != b',' {
            delimit(text, at, delimiter);
        }
        at + self.len
    }
}

/// Returns the seconds from 0001-01-01T00:00:00 of local time with this UT offset to 1970-01-01T00:00:00
/// UT.
fn shift_of(offset: i32) -> i64
    requires { IsRowOffset offset }
    ensures { result ≡ offset +ℤ pos (DAYS_TO_1970 * DAY) }
{
    offset as i64 + DAYS_TO_1970 as i64 * DAY as i64
}

/// Writes a delimiter over the commas of a text in fields that begins here.
#[inline(always)]
fn delimit(text: &mut [u8], at: usize, delimiter: u8)
    requires { at + 12 < length text.old }
    ensures { text.new ≡ set (set (set text.old at delimiter) (at + 10) delimiter) (at + 12) delimiter }
{
    text[at] = delimiter;
    text[at + 10] = delimiter;
    text[at + 12] = delimiter;
}

/// Returns how many bytes of the text of an offset stand after a local time: not its seconds, where
/// it has none.
#[inline(always)]
fn iso_width(offset: i32) -> usize
    ensures value { result ≡ iso_width offset }
    ensures few { result ≤ 9 }
{
    if offset.unsigned_abs() % 60 == 0 {
        6
    } else {
        9
    }
}

/// Writes the text of a state with commas, and returns its length.
fn write_text(octets: &mut [u8; STATE_ROOM], state: &State<'_>) -> usize
    requires { IsRowState (shown state.now) }
    ensures text { take result octets.new ≡ state_text 44 (shown state.now) }
    ensures fits { result ≤ 32 }
{
    let name = state.name;
    let end = 13 + name.len();
    octets[..13].copy_from_slice(&before_name(state.offset, state.daylight));
    octets[13..end].copy_from_slice(name);
    octets[end] = b'\n';
    end + 1
}

/// Returns the part of a state's text before the abbreviation.
fn before_name(offset: i32, daylight: bool) -> [u8; 13]
    requires { IsRowOffset offset }
    ensures { result ≡ before_name offset daylight }
{
    let [sign, h, hh, _, m, mm, _, s, ss] = offset_text(offset);
    let flag = if daylight { b'1' } else { b'0' };
    [
        b',', sign, h, hh, b':', m, mm, b':', s, ss, b',', flag, b',',
    ]
}
