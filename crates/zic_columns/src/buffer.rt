//! The buffered bytes of a column.

ghost use Rattle.std.specs.Prelude.{◌≡◌, ◌+◌, ◌*◌, ◌/◌, ◌^◌, ◌<◌, ◌≤◌, ℕ, List, [], ◌++◌, length, max, min, take, drop, vec_len, IfOk, OnOk, OnErr};
ghost use Rattle.std.specs.Io.KnownBytes.{Consumes, IsAtEnd, Keeps};
ghost use Rattle.zic_columns.specs.code.Bounded.{GivesWithin, bytes_left};
ghost use Rattle.zic_columns.specs.declared.buffer.TheConstants.{FIRST_ROOM};

use crate::limit::Bounded;
use std::alloc::{AllocError, Global};
use std::io::{self, Read};

/// The number of bytes that a column's buffer has room for at first.
pub const FIRST_ROOM: usize = 64 * 1024;

/// Returns the new length of a full buffer: four times its length, up to `wanted`, and beyond that an
/// eighth more. It is at least `FIRST_ROOM`.
fn longer_len(len: usize, wanted: usize) -> usize
    requires { len < 2 ^ 63 }
    ensures more { len < result }
    ensures grown { min (4 * len) wanted ≤ result }
    ensures most { len < wanted → result ≤ max FIRST_ROOM wanted }
    ensures eighth { wanted ≤ len → result ≤ max FIRST_ROOM (len + len / 8) }
{
    let longer = if len < wanted {
        len.saturating_mul(4).min(wanted)
    } else {
        len + len / 8
    };
    longer.max(FIRST_ROOM)
}

/// Bytes from a reader: those that were taken last, and those that are yet to be taken.
#[derive(Drop)]
pub(crate) struct Window {
    bytes: Vec<u8>,
    /// The start of the bytes that were taken last.
    last: usize,
    /// The start of the bytes that are yet to be taken.
    start: usize,
    /// Their end.
    end: usize,
    ghost taken: { last ≤ start },
    ghost ordered: { start ≤ end },
    ghost within: { end ≤ vec_len bytes },
}

impl Window {
    ghost use Rattle.zic_columns.specs.code.Window.{held_bytes, taken_bytes, room};

    /// Makes a window without a byte.
    pub(crate) fn new(alloc: Global) -> Window
        ensures held { held_bytes result ≡ [] }
        ensures len { vec_len result.bytes ≡ 0 }
    {
        Window {
            bytes: Vec::new(alloc),
            last: 0,
            start: 0,
            end: 0,
        }
    }

    /// Returns the bytes that are yet to be taken.
    pub(crate) fn held(&self) -> &[u8]
        ensures { result.now ≡ held_bytes self.now }
    {
        &self.bytes[self.start..self.end]
    }

    /// Returns the bytes that were taken last.
    pub(crate) fn taken(&self) -> &[u8]
        ensures { result.now ≡ taken_bytes self.now }
    {
        &self.bytes[self.last..self.start]
    }

    /// Takes the first `count` bytes.
    pub(crate) fn take(&mut self, count: usize)
        requires { count ≤ length (held_bytes self.old) }
        ensures taken { taken_bytes self.new ≡ take count (held_bytes self.old) }
        ensures held { held_bytes self.new ≡ drop count (held_bytes self.old) }
        ensures len { vec_len self.new.bytes ≡ vec_len self.old.bytes }
    {
        self.last = self.start;
        self.start += count;
    }

    /// Moves the bytes that are yet to be taken to the front, over those that were taken.
    fn move_to_front(&mut self)
        ensures held { held_bytes self.new ≡ held_bytes self.old }
        ensures front { self.new.start ≡ 0 }
        ensures len { vec_len self.new.bytes ≡ vec_len self.old.bytes }
    {
        let (start, end) = (self.start, self.end);
        if start == 0 {
            return;
        }
        self.bytes.copy_within(start..end, 0);
        self.last = 0;
        self.start = 0;
        self.end = end - start;
    }

    /// Makes room for a read: moves the buffered bytes to the front, and leaves the rest of the buffer
    /// as room. A buffer that the last read filled grows four times as long, but not above `wanted`
    /// bytes. Beyond that it grows only if the buffered bytes fill it, by an eighth.
    ///
    /// The bytes that were taken may be overwritten.
    ///
    /// # Errors
    ///
    /// Fails where memory is refused.
    pub(crate) fn make_room(&mut self, wanted: usize) -> Result<(), AllocError>
        ensures held { held_bytes self.new ≡ held_bytes self.old }
        ensures all { room self.new + length (held_bytes self.new) ≡ vec_len self.new.bytes }
        ensures some { OnOk result (0 < room self.new) }
        ensures grown { OnOk result (room self.old ≡ 0
            → min (4 * vec_len self.old.bytes) wanted ≤ vec_len self.new.bytes) }
        ensures most { vec_len self.new.bytes ≤ max (vec_len self.old.bytes)
            (max FIRST_ROOM (max wanted (length (held_bytes self.old) + length (held_bytes self.old) / 8))) }
    {
        let len = self.bytes.len();
        let is_full = self.end == len;
        self.move_to_front();
        if self.end == len || is_full && len < wanted {
            return self.bytes.resize(longer_len(len, wanted), 0);
        }
        Ok(())
    }

    /// Reads once, into the room that there is. Returns the number of bytes that came, 0 at the
    /// end of the reader.
    ///
    /// # Errors
    ///
    /// Fails where the reader fails.
    pub(crate) fn read_from<R: Read>(&mut self, reader: &mut Bounded<R>) -> io::Result<usize>
        ensures ok { IfOk result (λ n. (more : List ℕ) × (length more ≡ n)
            × (held_bytes self.new ≡ held_bytes self.old ++ more)
            × Consumes (bytes_left R.remaining reader.old)
            (bytes_left R.remaining reader.new) more) }
        ensures end { IfOk result
            (λ n. n ≡ 0 → 0 < room self.old → IsAtEnd (bytes_left R.remaining reader.new)) }
        ensures err { OnErr result ((held_bytes self.new ≡ held_bytes self.old)
            × Keeps (bytes_left R.remaining reader.old) (bytes_left R.remaining reader.new)) }
        ensures limit { GivesWithin R.remaining reader.old reader.new }
        ensures len { vec_len self.new.bytes ≡ vec_len self.old.bytes }
    {
        let end = self.end;
        let count = reader.read(&mut self.bytes[end..])?;
        self.end = end + count;
        Ok(count)
    }
}
