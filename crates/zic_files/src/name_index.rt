//! An index of files by name.

ghost use Rattle.std.specs.Prelude.{◌≡◌, ◌≢◌, ◌+◌, ◌<◌, ◌≤◌, ◌^◌, [], length, slice_get, slice_index, All, IfSome, IfNone, IfOk, IfErr, OnOk, OnErr, IsSomeAnd};
ghost use Rattle.zic_files.specs.code.NameIndex.{bucket_of, hash_of, AreNumbersUpTo, AreNumbersOf};

use crate::names::Entry;
use std::alloc::{AllocError, Global};

/// The number of the first buckets, a power of two: some seven for each name of the tz database, so
/// that few names share one.
const BUCKETS: usize = 4096;

/// Makes another key of 0, by which only the last byte of a name would count.
const KEY_OF_ZERO: u64 = 0x1e35_a7bd;

/// The numbers of files by their names: of each bucket of names the last file, and of each file the
/// one before it in its bucket. Both are a number from 1, or 0 where there is none. There are at least
/// as many buckets as names.
///
/// Which names share a bucket depends on a key, so that whoever chooses names without knowing it can't
/// have many of them in one. What is found doesn't depend on it.
#[derive(Debug, Drop)]
pub(crate) struct NameIndex {
    key: u64,
    last: Vec<u32>,
    before: Vec<u32>,
}

impl NameIndex {
    /// Returns the index of no file, by this key.
    pub(crate) fn new(alloc: Global, key: u64) -> NameIndex
        ensures { AreNumbersOf [] result }
    {
        NameIndex {
            key: key ^ KEY_OF_ZERO,
            last: Vec::new(alloc),
            before: Vec::new(alloc),
        }
    }

    /// Returns the index of the files of these entries, by this key.
    pub(crate) fn of(alloc: Global, key: u64, entries: &[Entry]) -> Result<NameIndex, AllocError>
        ensures ok { IfOk result (AreNumbersOf entries.now) }
        ensures memory { IfErr result (λ _. 0 < length entries.now) }
    {
        let mut index = NameIndex::new(alloc, key);
        for number in 0..entries.len() {
            index.add(alloc, entries, number)?;
        }
        Ok(index)
    }

    /// Returns the number of the file of this name.
    pub(crate) fn number(&self, entries: &[Entry], name: &[u8]) -> Option<usize>
        requires { AreNumbersOf entries.now self.now }
        ensures found { IfSome result
            (λ i. IsSomeAnd (slice_get entries.now i) (λ entry. entry.name ≡ name.now)) }
        ensures missing { IfNone result (All (λ entry. entry.name ≢ name.now) entries.now) }
    {
        let mut rest = self.last_in(bucket_of(self.key, name, self.last.len()));
        while rest > 0 {
            let number = rest - 1;
            if entries[number].name.octets() == name {
                return Some(number);
            }
            rest = self.before[number] as usize;
        }
        None
    }

    /// Returns the last file of a bucket, as a number from 1, or 0 where there is none.
    fn last_in(&self, bucket: usize) -> usize
        ensures { result ≡ slice_index self.now.last.items bucket }
    {
        match self.last.get(bucket) {
            Some(last) => *last as usize,
            None => 0,
        }
    }

    /// Adds the file of this number, after all before it. Where there are as many files as buckets, it
    /// makes twice as many buckets.
    pub(crate) fn add(
        &mut self,
        alloc: Global,
        entries: &[Entry],
        number: usize,
    ) -> Result<(), AllocError>
        requires within { number < length entries.now }
        requires numbers { AreNumbersUpTo entries.now number self.old }
        ensures ok { OnOk result (AreNumbersUpTo entries.now (number + 1) self.new) }
        ensures err { OnErr result (AreNumbersUpTo entries.now number self.new) }
    {
        if number >= u32::MAX as usize {
            return Err(AllocError);
        }
        if self.last.len() <= number {
            *self = NameIndex::with_more_buckets(alloc, self.key, entries, number)?;
        }
        self.link(entries, number)
    }

    /// Makes the index of the first files by this key, with twice as many buckets.
    fn with_more_buckets(
        alloc: Global,
        key: u64,
        entries: &[Entry],
        count: usize,
    ) -> Result<NameIndex, AllocError>
        requires within { count ≤ length entries.now }
        requires few { count < 2 ^ 32 }
        ensures numbers { IfOk result (AreNumbersUpTo entries.now count) }
        ensures buckets { IfOk result (λ index. 0 < length index.last.items) }
    {
        let mut index = NameIndex {
            key,
            last: vec![in alloc; 0; BUCKETS.max(2 * count)]?,
            before: Vec::with_capacity(alloc, count)?,
        };
        for number in 0..count {
            index.link(entries, number)?;
        }
        Ok(index)
    }

    /// Adds the file of this number to its bucket.
    fn link(&mut self, entries: &[Entry], number: usize) -> Result<(), AllocError>
        requires within { number < length entries.now }
        requires few { number + 1 < 2 ^ 32 }
        requires some { 0 < length self.old.last.items }
        requires numbers { AreNumbersUpTo entries.now number self.old }
        ensures ok { OnOk result (AreNumbersUpTo entries.now (number + 1) self.new) }
        ensures err { OnErr result (AreNumbersUpTo entries.now number self.new) }
        ensures buckets { length self.new.last.items ≡ length self.old.last.items }
    {
        let bucket = bucket_of(self.key, entries[number].name.octets(), self.last.len());
        self.before.push(self.last[bucket])?;
        self.last[bucket] = (number + 1) as u32;
        Ok(())
    }
}

/// Returns the bucket of a name, of this many buckets: the lower bits of its hash, where they are a
/// power of two.
fn bucket_of(key: u64, name: &[u8], buckets: usize) -> usize
    ensures value { result ≡ bucket_of key buckets name.now }
    ensures within { 0 < buckets → result < buckets }
{
    hash_of(key, name) as usize & buckets.saturating_sub(1)
}

/// Returns a hash of all bytes of a name, below 2^33: the value of a polynomial that they are the
/// coefficients of at the lower 30 bits of the key, modulo the prime 2^31 - 1.
fn hash_of(key: u64, name: &[u8]) -> u64
    ensures value { result ≡ hash_of key name.now }
{
    let point = key % (1 << 30);
    let mut hash = 1u64;
    for byte in name {
        let next = hash * point + u64::from(*byte);
        // 2^31 is 1 more than the prime.
        hash = next % (1 << 31) + next / (1 << 31);
    }
    hash
}
