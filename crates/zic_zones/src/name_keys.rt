//! Numbers of files by the keys of their names: 32 bytes, compared as a vector.

ghost use Rattle.std.specs.Prelude.{◌≡◌, ◌+◌, ◌-◌, ◌<◌, ◌≤◌, ◌++◌, ◌∷◌, [], ℕ, List, length, replicate, slice_get, slice_range, take, Some, IfSome, IsTrue, OnOk, OnErr};
ghost use Rattle.zic_zones.specs.code.NameKeys.{AreNamesOf, IsShortName, held_by, padded};

use std::alloc::{AllocError, Global};
use std::marker::Model;
use std::simd::prelude::*;
use zic_files::Files;

/// The bytes that a key has room for. The key of a longer name has no more of it, so only names of
/// fewer bytes are found.
const ROOM: usize = 32;

/// The number of places, one after another, that a name may have.
const TRIES: usize = 4;

/// The number of bits that number the first places. A few in a hundred names of the tz database then
/// share one.
const LEAST_BITS: u32 = 13;

/// Marks a vacant place.
const VACANT: u32 = u32::MAX;

/// The masks of all lengths: that of a length keeps as many bytes and clears the rest.
static MASKS: [u8; 64] = [
    255, 255, 255, 255, 255, 255, 255, 255, 255, 255, 255, 255, 255, 255, 255, 255, 255, 255, 255,
    255, 255, 255, 255, 255, 255, 255, 255, 255, 255, 255, 255, 255, 0, 0, 0, 0, 0, 0, 0, 0, 0, 0,
    0, 0, 0, 0, 0, 0, 0, 0, 0, 0, 0, 0, 0, 0, 0, 0, 0, 0, 0, 0, 0, 0,
];

/// The first 32 bytes of a name, with zeros after those of a shorter one, and how many they are.
#[derive(Clone, Copy, Drop)]
struct NameKey {
    bytes: [u8; 32],
    len: usize,
}

impl NameKey {
    /// Returns the key of a name.
    fn of(name: &[u8]) -> NameKey
        ensures { held_by result ≡ take 32 name.now }
    {
        let len = name.len().min(ROOM);
        let mut bytes = [0; 32];
        bytes[..len].copy_from_slice(&name[..len]);
        NameKey { bytes, len }
    }
}

/// The keys of the names of files, and a table of places by hash, which need not find each of them.
/// Clauses see the first 32 bytes of each name, by the number of the file.
#[derive(Drop)]
pub(crate) struct NameKeys {
    /// The keys, by the number of the file.
    keys: Vec<NameKey>,
    /// The numbers of files, each at one of the places of its name, and [`VACANT`] elsewhere.
    places: Vec<u32>,
    /// How many lower bits of a hash are no part of the number of a place.
    shift: u32,
}

impl Model for NameKeys {
    ghost use Rattle.std.specs.Prelude.{List, ℕ, map};
    ghost use Rattle.zic_zones.specs.code.NameKeys.{held_by};

    ghost Value = { List (List ℕ) };

    ghost view = { λ n. map held_by n.keys.items };
}

impl NameKeys {
    /// Returns the names of no file.
    pub(crate) fn new(alloc: Global) -> NameKeys
        ensures { result ≡ [] }
    {
        NameKeys {
            keys: Vec::new(alloc),
            places: Vec::new(alloc),
            shift: u64::BITS - LEAST_BITS,
        }
    }

    /// Adds the name of the next file. The names stay as they are where memory is refused.
    fn add(&mut self, alloc: Global, name: &[u8]) -> Result<(), AllocError>
        ensures ok { OnOk result (self.new ≡ self.old ++ take 32 name.now ∷ []) }
        ensures err { OnErr result (self.new ≡ self.old) }
    {
        // At most a quarter of the places are taken.
        if self.places.len() / 4 <= self.keys.len() {
            self.grow(alloc)?;
        }
        let number = self.keys.len();
        let key = NameKey::of(name);
        self.keys.push(key)?;
        settle(&mut self.places, self.shift, &key, number);
        Ok(())
    }

    /// Adds the names of the files after those that are here.
    pub(crate) fn extend(&mut self, alloc: Global, files: &Files) -> Result<(), AllocError>
        requires { AreNamesOf files.now self.old }
        ensures { AreNamesOf files.now self.new }
    {
        for file in self.keys.len()..files.len() {
            self.add(alloc, files.name(file))?;
        }
        Ok(())
    }

    /// Makes the first places, or twice as many, and gives each name one of them.
    fn grow(&mut self, alloc: Global) -> Result<(), AllocError>
        ensures { self.new ≡ self.old }
    {
        let shift = if self.places.is_empty() {
            self.shift
        } else {
            self.shift.saturating_sub(1)
        };
        let last = u64::MAX.wrapping_shr(shift) as usize;
        let mut places = vec![in alloc; VACANT; last.saturating_add(TRIES)]?;
        for (number, key) in self.keys.iter().enumerate() {
            settle(&mut places, shift, key, number);
        }
        self.places = places;
        self.shift = shift;
        Ok(())
    }

    /// Returns `true` only where the name of a file has this key and this length.
    #[inline(always)]
    fn is_name(&self, number: usize, key: u8x32, len: usize) -> bool
        requires { length key ≡ 32 }
        ensures { (name : List ℕ) → length name ≡ len → len < 32 → key ≡ padded name → IsTrue result
            → IsShortName self.now name number }
    {
        let Some(found) = self.keys.get(number) else {
            return false;
        };
        found.len == len && is_same(&found.bytes, key)
    }

    /// Returns the number of the file that a part of some bytes names, if a key finds it. The likely one is
    /// tried first. `None` doesn't mean that no file has the name.
    #[inline(always)]
    pub(crate) fn quick(
        &self,
        bytes: &[u8],
        start: usize,
        end: usize,
        likely: usize,
    ) -> Option<usize>
        requires order { start ≤ end }
        requires within { end ≤ length bytes.now }
        ensures { IfSome result (IsShortName self.now (slice_range bytes.now start end)) }
    {
        let len = end - start;
        if len >= ROOM || bytes.len() - start < ROOM {
            return None;
        }
        let key = key_at(bytes, start, len);
        if self.is_name(likely, key, len) {
            return Some(likely);
        }
        let first = place_of(key, self.shift);
        for place in first..first.wrapping_add(TRIES) {
            let number = *self.places.get(place)? as usize;
            if self.is_name(number, key, len) {
                return Some(number);
            }
        }
        None
    }
}

/// Writes the number of a file at the first place of its name that is vacant. A name whose places are
/// taken, or that a key has no room for, gets none.
fn settle(places: &mut [u32], shift: u32, key: &NameKey, number: usize) {
    let Ok(number) = u32::try_from(number) else {
        return;
    };
    if key.len == ROOM {
        return;
    }
    let first = place_of(u8x32::from_slice(&key.bytes), shift);
    for place in first..first.wrapping_add(TRIES) {
        let Some(held) = places.get_mut(place) else {
            return;
        };
        if *held == VACANT {
            *held = number;
            return;
        }
    }
}

/// Returns the first place of a name by its key: the upper bits of a hash of all bytes.
#[inline(always)]
fn place_of(key: u8x32, shift: u32) -> usize {
    let halves = key.extract::<0, 16>() ^ key.extract::<16, 16>();
    let words = u64x2::from_le_bytes(halves).to_array();
    let hash = words[0]
        .wrapping_mul(0x9e37_79b9_7f4a_7c15)
        .wrapping_add(words[1].wrapping_mul(0xc2b2_ae3d_27d4_eb4f));
    hash.wrapping_shr(shift) as usize
}

/// Returns the bytes of a key of a name that starts at an index of some bytes, where 32 follow.
#[inline(always)]
fn key_at(bytes: &[u8], start: usize, len: usize) -> u8x32
    requires room { start + 32 ≤ length bytes.now }
    requires short { len ≤ 32 }
    ensures { result ≡ padded (slice_range bytes.now start (start + len)) }
{
    u8x32::from_slice(&bytes[start..]) & mask_of(len)
}

/// Returns the mask of a length.
#[inline(always)]
fn mask_of(len: usize) -> u8x32
    requires { len ≤ 32 }
    ensures { result ≡ replicate len 255 ++ replicate (32 - len) 0 }
{
    u8x32::from_slice(&MASKS[32 - len..])
}

/// Returns `true` only where two keys have the same bytes.
#[inline(always)]
fn is_same(a: &[u8; 32], b: u8x32) -> bool
    requires { length b ≡ 32 }
    ensures { IsTrue result → a.now ≡ b }
{
    u8x32::from_slice(a).simd_eq(b).all()
}
