//! Lines that are truncated.

ghost use Rattle.std.specs.Prelude.{◌≡◌, ◌≤◌, ◌∷◌, ◌++◌, List, ℕ, None, Some, IfSome, length, option_map, take};
ghost use Rattle.std.specs.Io.{ReadsAtMost};
ghost use Rattle.std.specs.Io.KnownBytes.{ReadConsumes};
ghost use Rattle.zic_columns.specs.Truncated.{truncated, truncated_from, truncated_known};

use crate::lines::ends_line;
use std::io::{self, ErrorKind, Read};

/// Returns how many more bytes of its line may stay after a byte, where `room` may stay with it, or
/// `None` where it doesn't stay itself. After a line end a line begins, of which `most` may stay.
fn room_after(byte: u8, most: u64, room: u64) -> Option<u64>
    ensures none { result ≡ None → (rest : List ℕ)
        → truncated_from most room (byte ∷ rest) ≡ truncated_from most room rest }
    ensures some { IfSome result (λ next. (rest : List ℕ)
        → truncated_from most room (byte ∷ rest) ≡ byte ∷ truncated_from most next rest) }
{
    if ends_line(byte) {
        return Some(most);
    }
    if room == 0 {
        return None;
    }
    Some(room - 1)
}

/// What is left of some bytes: the first `len`, and the number of bytes that may stay of the line that
/// goes on after them.
#[derive(Clone, Copy, Drop)]
struct Left {
    len: usize,
    room: u64,
}

/// Moves the bytes that stay to the front. Of each line the first `most` stay, of the first line `room`.
fn truncate(bytes: &mut [u8], most: u64, room: u64) -> Left
    ensures len { result.len ≤ length bytes.old }
    ensures stay { (rest : List ℕ) → truncated_from most room (bytes.old ++ rest)
        ≡ take result.len bytes.new ++ truncated_from most result.room rest }
{
    let mut len = 0;
    let mut room = room;
    for i in 0..bytes.len() {
        let byte = bytes[i];
        if let Some(next) = room_after(byte, most, room) {
            bytes[len] = byte;
            len += 1;
            room = next;
        }
    }
    Left { len, room }
}

/// A reader that gives the bytes of another, but of each line only the first `most`, where there is such
/// a number. Line ends stay.
///
/// It fails once the reads of which no byte stayed gave more than some number of bytes.
#[derive(Drop)]
pub struct Truncated<R: Read> {
    inner: R,
    most: Option<u64>,
    /// The number of bytes that may stay of the line that goes on.
    room: u64,
    /// How many more bytes may come in reads of which no byte stays.
    patience: u64,
}

impl<R: Read> Truncated<R> {
    /// Returns a reader of the bytes of `inner`, of each line the first `most`. Once reads gave more than
    /// `patience` bytes of which none stayed, it fails.
    pub fn new(inner: R, most: Option<u64>, patience: u64) -> Truncated<R>
        ensures { truncated_known result.most result.room (R.remaining result.inner)
            ≡ option_map (truncated most) (R.remaining inner) }
    {
        let room = match most {
            Some(most) => most,
            None => 0,
        };
        Truncated {
            inner,
            most,
            room,
            patience,
        }
    }

    /// Reads until some bytes stay, or the reader below ends.
    fn read_lines(&mut self, buf: &mut [u8], most: u64) -> io::Result<usize>
        requires { self.old.most ≡ Some most }
        ensures bound { ReadsAtMost result buf.new }
        ensures bytes { ReadConsumes
            (truncated_known self.old.most self.old.room (R.remaining self.old.inner))
            (truncated_known self.new.most self.new.room (R.remaining self.new.inner))
            result buf.new }
    {
        for _ in 0..u64::MAX {
            let count = self.inner.read(buf)?;
            let left = truncate(&mut buf[..count], most, self.room);
            self.room = left.room;
            if 0 < left.len || count == 0 {
                return Ok(left.len);
            }
            if self.patience < count as u64 {
                break;
            }
            self.patience -= count as u64;
        }
        Err(io::Error::from(ErrorKind::Other))
    }
}

impl<R: Read> Read for Truncated<R> {
    ghost use Rattle.zic_columns.specs.Truncated.{truncated_known};

    ghost remaining = { λ r. truncated_known r.most r.room (R.remaining r.inner) };

    fn read(&mut self, buf: &mut [u8]) -> io::Result<usize> {
        match self.most {
            Some(most) => self.read_lines(buf, most),
            None => self.inner.read(buf),
        }
    }
}
