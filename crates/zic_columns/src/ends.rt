//! The delimiters and line ends of a piece, found 64 bytes at a time.

ghost use Rattle.std.specs.Prelude.{◌≡◌, ◌+◌, ◌<◌, ◌≤◌, ℕ, List, length, IfSome, map};
ghost use Rattle.std.specs.Simd.Lanes.{chunk, mask_l};
ghost use Rattle.zic_columns.specs.code.Block.{ends_field};
ghost use Rattle.zic_columns.specs.code.Ends.{ShowsEnds};
ghost use Rattle.zic_columns.specs.code.Walk.{IsFieldEnd};

use crate::fields::Separator;
use std::simd::prelude::*;

/// The number of bytes that are looked at together.
const BLOCK: usize = 64;

/// The delimiters and line ends that come next in a piece, as far as they are known.
#[derive(Clone, Copy, Drop)]
pub(crate) struct FieldEnds {
    /// Bit k is set if byte k of the last block is one that wasn't passed yet.
    mask: u64,
    /// The index of that block.
    block: usize,
    /// The index after it.
    seen: usize,
}

/// Returns a mask of the delimiters and line ends among the 64 bytes from an index on.
#[inline(always)]
fn field_ends_in(bytes: &[u8], at: usize, delimiter: Separator) -> u64
    requires { at + BLOCK ≤ length bytes.now }
    ensures { result ≡ mask_l (map (ends_field delimiter.byte) (chunk at BLOCK bytes.now)) }
{
    let block = u8x64::from_slice(&bytes[at..]);
    (block.simd_eq(u8x64::splat(delimiter.byte))
        | block.simd_eq(u8x64::splat(b'\r'))
        | block.simd_eq(u8x64::splat(b'\n'))).to_bitmask()
}

impl FieldEnds {
    /// Returns the field ends from an index on, none of which is known yet.
    pub(crate) fn unknown(at: usize) -> FieldEnds
        ensures { (delimiter : ℕ) (bytes : List ℕ) → at ≤ length bytes → ShowsEnds delimiter bytes at result }
    {
        FieldEnds {
            mask: 0,
            block: at,
            seen: at,
        }
    }

    /// Returns the field ends of the next block, if none is known before it and it has any.
    #[inline(always)]
    pub(crate) fn next_block(
        self,
        bytes: &[u8],
        at: usize,
        delimiter: Separator,
    ) -> Option<FieldEnds>
        requires { ShowsEnds delimiter.byte bytes.now at self }
        ensures shows { IfSome result (ShowsEnds delimiter.byte bytes.now at) }
        ensures seen { IfSome result (λ ends. self.seen < ends.seen) }
    {
        if self.mask != 0 {
            return None;
        }
        if bytes.len() - self.seen < BLOCK {
            return None;
        }
        let mask = field_ends_in(bytes, self.seen, delimiter);
        if mask == 0 {
            return None;
        }
        let seen = self.seen + BLOCK;
        Some(FieldEnds {
            mask,
            block: self.seen,
            seen,
        })
    }

    /// Returns these field ends if one of them is known, or else those of the next block, if it has
    /// any.
    #[inline(always)]
    fn known(self, bytes: &[u8], at: usize, delimiter: Separator) -> Option<FieldEnds>
        requires { ShowsEnds delimiter.byte bytes.now at self }
        ensures { IfSome result (ShowsEnds delimiter.byte bytes.now at) }
    {
        if self.mask != 0 {
            return Some(self);
        }
        self.next_block(bytes, at, delimiter)
    }

    /// Returns the index of the first delimiter or line end from an index on, if it is known, and passes
    /// over it.
    #[inline(always)]
    pub(crate) fn known_end(
        &mut self,
        bytes: &[u8],
        at: usize,
        delimiter: Separator,
    ) -> Option<usize>
        requires { ShowsEnds delimiter.byte bytes.now at self.old }
        ensures end { IfSome result (IsFieldEnd delimiter.byte bytes.now at) }
        ensures within { IfSome result (λ stop. stop < length bytes.now) }
        ensures shows { IfSome result (λ stop. ShowsEnds delimiter.byte bytes.now (stop + 1) self.new) }
        ensures seen { self.new.seen ≡ self.old.seen }
    {
        let ends = *self;
        if ends.mask == 0 {
            return None;
        }
        *self = FieldEnds {
            mask: ends.mask & (ends.mask - 1),
            block: ends.block,
            seen: ends.seen,
        };
        Some(ends.block + ends.mask.trailing_zeros() as usize)
    }

    /// Returns the index of the first delimiter or line end from an index on, and passes over it. Returns
    /// `None` where the next block doesn't show it.
    #[inline(always)]
    pub(crate) fn next_end(
        &mut self,
        bytes: &[u8],
        at: usize,
        delimiter: Separator,
    ) -> Option<usize>
        requires { ShowsEnds delimiter.byte bytes.now at self.old }
        ensures end { IfSome result (IsFieldEnd delimiter.byte bytes.now at) }
        ensures within { IfSome result (λ stop. stop < length bytes.now) }
        ensures shows { IfSome result (λ stop. ShowsEnds delimiter.byte bytes.now (stop + 1) self.new) }
    {
        *self = self.known(bytes, at, delimiter)?;
        self.known_end(bytes, at, delimiter)
    }
}
