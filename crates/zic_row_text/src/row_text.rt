//! The text of rows.

ghost use Rattle.std.specs.Prelude.{◌≡◌, ◌+◌, ◌<◌, ◌≤◌, ◌++◌, ◌∷◌, [], drop, length, slice_range, take, IfOk, OnOk};
ghost use Rattle.zic_row_text.specs.Instant.{IsRowInstant};
ghost use Rattle.zic_row_text.specs.Count.{fraction_text, timed_rest_text, units_of_second};
ghost use Rattle.zic_row_text.specs.Local.{IsLocalSecond, local_time};
ghost use Rattle.zic_row_text.specs.Row.{civil_text, state_text};

use crate::count::DAYS_TO_1970;
use crate::date::CachedDate;
use crate::date_time::{day_second, seconds_from_year_1};
use crate::row_time::RowTime;
use crate::state_text::{STATE_ROOM, StateText};
use crate::store::{put_64, put_byte};
use crate::timed_rest::{LOCAL_ROOM, RowRest, TIMED_ROOM, put_rest, put_time};
use std::alloc::{AllocError, Global};
use std::marker::Model;

/// The room that the start of a row has, in bytes: where it is no longer, it is written at once.
const START_ROOM: usize = 64;

/// The text of rows, with room after it, so that stores of a fixed size need no test. Clauses see the
/// text.
#[derive(Drop)]
pub struct RowText {
    /// The text and the room after it.
    bytes: Vec<u8>,
    /// The length of the text in bytes.
    len: usize,
    /// The date of the last row.
    date: CachedDate,
}

impl Model for RowText {
    ghost use Rattle.std.specs.Prelude.{ℕ, ◌≤◌, List, length, take};

    ghost Value = { List ℕ };

    ghost view = { λ t. take t.len t.bytes.items };

    ghost invariant = { λ t. t.len ≤ length t.bytes.items };
}

impl RowText {
    /// Returns an empty text.
    pub fn new(alloc: Global) -> RowText
        ensures { result ≡ [] }
    {
        RowText {
            bytes: Vec::new(alloc),
            len: 0,
            date: CachedDate::new(DAYS_TO_1970),
        }
    }

    /// Returns an empty text with room for `room` bytes.
    pub fn with_capacity(alloc: Global, room: usize) -> Result<RowText, AllocError>
        ensures { IfOk result (λ t. t ≡ []) }
    {
        let mut text = RowText::new(alloc);
        text.bytes.resize(room, 0)?;
        Ok(text)
    }

    /// Returns the text.
    pub fn bytes(&self) -> &[u8]
        ensures { result.now ≡ self.now }
    {
        &self.bytes[..self.len]
    }

    /// Returns the length of the text in bytes.
    pub fn len(&self) -> usize
        ensures { result ≡ length self.now }
    {
        self.bytes().len()
    }

    /// Returns the text alone.
    pub fn into_bytes(self) -> Vec<u8>
        ensures { result.items ≡ self }
    {
        let mut bytes = self.bytes;
        bytes.truncate(self.len);
        bytes
    }

    /// Removes the text, and keeps its room.
    pub fn clear(&mut self)
        ensures { self.new ≡ [] }
    {
        self.len = 0;
    }

    /// Shortens the text to its first `len` bytes. A text that is no longer stays.
    pub fn truncate(&mut self, len: usize)
        ensures { self.new ≡ take len self.old }
    {
        self.len = self.len.min(len);
    }

    /// Removes the byte at an index, and moves those after it forward.
    pub fn remove(&mut self, at: usize)
        requires { at < length self.old }
        ensures { self.new ≡ take at self.old ++ drop (at + 1) self.old }
    {
        self.bytes.copy_within(at + 1..self.len, at);
        self.len -= 1;
    }

    /// Appends some bytes. Where memory runs out, the text stays.
    pub fn push(&mut self, bytes: &[u8]) -> Result<(), AllocError>
        ensures { OnOk result (self.new ≡ self.old ++ bytes.now) }
    {
        make_room(&mut self.bytes, self.len, bytes.len())?;
        let end = self.len + bytes.len();
        self.bytes[self.len..end].copy_from_slice(bytes);
        self.len = end;
        Ok(())
    }

    /// Appends a part of some bytes, `start..end`, and a delimiter. Where memory runs out, a part may be
    /// there.
    #[inline(always)]
    pub fn push_field(
        &mut self,
        bytes: &[u8],
        start: usize,
        end: usize,
        delimiter: u8,
    ) -> Result<(), AllocError>
        requires order { start ≤ end }
        requires within { end ≤ length bytes.now }
        ensures { OnOk result
            (self.new ≡ self.old ++ (slice_range bytes.now start end ++ delimiter ∷ [])) }
    {
        let len = end - start;
        let room = self.bytes.len() - self.len;
        if len > START_ROOM || bytes.len() - start < START_ROOM || room < 2 * START_ROOM {
            self.push(&bytes[start..end])?;
            return self.push(&[delimiter]);
        }
        let text: &mut [u8] = &mut self.bytes;
        put_64(text, self.len, bytes, start, len);
        put_byte(text, self.len + len, delimiter);
        self.len += len + 1;
        Ok(())
    }

    /// Appends a part of some bytes, `start..end`, and what follows it in a row: the local time and
    /// the state at a time that a row may have, in a style and with a delimiter. Where memory runs out,
    /// a part may be there.
    #[inline(always)]
    pub fn push_row(
        &mut self,
        bytes: &[u8],
        start: usize,
        end: usize,
        rest: &RowRest<'_>,
    ) -> Result<(), AllocError>
        requires order { start ≤ end }
        requires within { end ≤ length bytes.now }
        requires second { IsRowInstant rest.now.time.second }
        requires fraction { rest.now.time.fraction < units_of_second rest.now.time.unit }
        ensures { OnOk result (self.new ≡ self.old ++ (slice_range bytes.now start end
            ++ timed_rest_text rest.now.delimiter rest.now.style rest.now.time.unit
            rest.now.time.second rest.now.time.fraction rest.now.state.now)) }
    {
        let len = end - start;
        let room = self.bytes.len() - self.len;
        if len > START_ROOM || bytes.len() - start < START_ROOM || room < START_ROOM + TIMED_ROOM {
            let rest = *rest;
            return self.push_parts(&bytes[start..end], &rest);
        }
        let local = day_second(rest.state.local_seconds(rest.time.second));
        self.date.turn_to(local.day);
        let text: &mut [u8] = &mut self.bytes;
        put_64(text, self.len, bytes, start, len);
        self.len = put_rest(text, self.len + len, &self.date, local.second, rest);
        Ok(())
    }

    /// Appends a delimiter and a local time, which counts from 1970-01-01T00:00:00 on the clocks of a
    /// place. Where memory runs out, the text stays.
    #[inline(always)]
    pub fn push_local_time(&mut self, local: RowTime, delimiter: u8) -> Result<(), AllocError>
        requires second { IsLocalSecond local.second }
        requires fraction { local.fraction < units_of_second local.unit }
        ensures { OnOk result (self.new ≡ self.old ++ delimiter
            ∷ (civil_text (local_time local.second) ++ fraction_text local.unit local.fraction)) }
    {
        make_room(&mut self.bytes, self.len, 1 + LOCAL_ROOM)?;
        let moment = day_second(seconds_from_year_1(local.second));
        self.date.turn_to(moment.day);
        let text: &mut [u8] = &mut self.bytes;
        put_byte(text, self.len, delimiter);
        self.len = put_time(
            text,
            self.len + 1,
            &self.date,
            moment.second,
            local.unit,
            local.fraction,
        );
        Ok(())
    }

    /// Appends the text of a state: the UT offset, the daylight flag and the abbreviation after a
    /// delimiter each, and a newline. Where memory runs out, the text stays.
    #[inline(always)]
    pub fn push_state(&mut self, state: &StateText, delimiter: u8) -> Result<(), AllocError>
        ensures { OnOk result (self.new ≡ self.old ++ state_text delimiter state.now) }
    {
        make_room(&mut self.bytes, self.len, STATE_ROOM)?;
        self.len = state.put(&mut self.bytes, self.len, delimiter);
        Ok(())
    }

    /// Appends the start of a row of any length, and what follows it.
    #[inline(never)]
    fn push_parts(&mut self, start: &[u8], rest: &RowRest<'_>) -> Result<(), AllocError>
        requires second { IsRowInstant rest.now.time.second }
        requires fraction { rest.now.time.fraction < units_of_second rest.now.time.unit }
        ensures { OnOk result (self.new ≡ self.old ++ (start.now
            ++ timed_rest_text rest.now.delimiter rest.now.style rest.now.time.unit
            rest.now.time.second rest.now.time.fraction rest.now.state.now)) }
    {
        self.push(start)?;
        self.push_rest(rest)
    }

    /// Appends what follows the start of a row, as [`push_row`](RowText::push_row) does. It makes room
    /// for rows to come. Where memory runs out, the text stays.
    pub fn push_rest(&mut self, rest: &RowRest<'_>) -> Result<(), AllocError>
        requires second { IsRowInstant rest.now.time.second }
        requires fraction { rest.now.time.fraction < units_of_second rest.now.time.unit }
        ensures { OnOk result (self.new ≡ self.old ++ timed_rest_text rest.now.delimiter
            rest.now.style rest.now.time.unit rest.now.time.second rest.now.time.fraction
            rest.now.state.now) }
    {
        make_room(&mut self.bytes, self.len, START_ROOM + TIMED_ROOM)?;
        let local = day_second(rest.state.local_seconds(rest.time.second));
        self.date.turn_to(local.day);
        self.len = put_rest(&mut self.bytes, self.len, &self.date, local.second, rest);
        Ok(())
    }
}

/// Makes room after the text of this length, by zeros.
#[inline(never)]
fn make_room(bytes: &mut Vec<u8>, len: usize, room: usize) -> Result<(), AllocError>
    requires { len ≤ length bytes.old.items }
    ensures within { len ≤ length bytes.new.items }
    ensures text { take len bytes.new.items ≡ take len bytes.old.items }
    ensures room { OnOk result (len + room ≤ length bytes.new.items) }
{
    let Some(least) = len.checked_add(room) else {
        return Err(AllocError);
    };
    if bytes.len() < least {
        let doubled = bytes.len().saturating_mul(2);
        bytes.resize(least.max(doubled), 0)?;
    }
    Ok(())
}
