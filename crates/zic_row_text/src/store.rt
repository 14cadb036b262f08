//! Stores of a fixed size into a text with room after its end: each is written over the tail of the
//! one before, since that is quicker than to copy as many bytes as are wanted.

ghost use Rattle.std.specs.Prelude.{◌≡◌, ◌+◌, ◌<◌, ◌≤◌, ◌++◌, ◌∷◌, [], length, slice_range, take};

use std::simd::prelude::*;

/// Writes 64 bytes, of which the first `len` count.
#[inline(always)]
pub(crate) fn put_64(text: &mut [u8], at: usize, source: &[u8], from: usize, len: usize)
    requires room { at + 64 ≤ length text.old }
    requires ahead { from + 64 ≤ length source.now }
    requires short { len ≤ 64 }
    ensures same_length { length text.new ≡ length text.old }
    ensures written { take (at + len) text.new
        ≡ take at text.old ++ slice_range source.now from (from + len) }
{
    u8x64::from_slice(&source[from..]).copy_to_slice(&mut text[at..]);
}

/// Writes 32 bytes, of which the first `len` count.
#[inline(always)]
pub(crate) fn put_32(text: &mut [u8], at: usize, part: &[u8; 32], len: usize)
    requires room { at + 32 ≤ length text.old }
    requires short { len ≤ 32 }
    ensures same_length { length text.new ≡ length text.old }
    ensures written { take (at + len) text.new ≡ take at text.old ++ take len part.now }
{
    u8x32::from_slice(part).copy_to_slice(&mut text[at..]);
}

/// Writes 16 bytes, of which the first `len` count.
#[inline(always)]
pub(crate) fn put_16(text: &mut [u8], at: usize, part: u8x16, len: usize)
    requires room { at + 16 ≤ length text.old }
    requires whole { length part ≡ 16 }
    requires short { len ≤ 16 }
    ensures same_length { length text.new ≡ length text.old }
    ensures written { take (at + len) text.new ≡ take at text.old ++ take len part }
{
    part.copy_to_slice(&mut text[at..]);
}

/// Writes some bytes, and returns where they end.
#[inline(always)]
pub(crate) fn put_part(text: &mut [u8], at: usize, part: &[u8]) -> usize
    requires { at + length part.now ≤ length text.old }
    ensures end { result ≡ at + length part.now }
    ensures same_length { length text.new ≡ length text.old }
    ensures written { take result text.new ≡ take at text.old ++ part.now }
{
    let end = at + part.len();
    text[at..end].copy_from_slice(part);
    end
}

/// Writes a byte.
#[inline(always)]
pub(crate) fn put_byte(text: &mut [u8], at: usize, byte: u8)
    requires { at < length text.old }
    ensures same_length { length text.new ≡ length text.old }
    ensures written { take (at + 1) text.new ≡ take at text.old ++ byte ∷ [] }
{
    text[at] = byte;
}

/// Writes 8 bytes.
#[inline(always)]
pub(crate) fn put_8(text: &mut [u8], at: usize, part: [u8; 8])
    requires { at + 8 ≤ length text.old }
    ensures same_length { length text.new ≡ length text.old }
    ensures written { take (at + 8) text.new ≡ take at text.old ++ part }
{
    u8x8::from_array(part).copy_to_slice(&mut text[at..]);
}
