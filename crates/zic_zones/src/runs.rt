//! Runs of numbers, one after another, each stored once.

ghost use Rattle.std.specs.Prelude.{◌≡◌, ◌+◌, ◌++◌, ◌⊎◌, [], IfOk, IfSome, IsTrue, length, slice_range, Some, slice_get};

use crate::numbered::{Numbered, mixed};
use std::alloc::{AllocError, Global};
use std::marker::Model;

/// The number of bits that number the places of runs.
const RUN_BITS: u32 = 12;

/// Runs of numbers, one after another. Clauses see the numbers.
#[derive(Drop)]
pub(crate) struct Runs {
    numbers: Vec<u16>,
    /// Where the runs begin.
    starts: Numbered<u32>,
}

impl Model for Runs {
    ghost use Rattle.std.specs.Prelude.{List, ℕ};

    ghost Value = { List ℕ };

    ghost view = { λ r. r.numbers.items };
}

impl Runs {
    /// Returns no runs.
    pub(crate) fn new(alloc: Global) -> Runs
        ensures { result ≡ [] }
    {
        Runs {
            numbers: Vec::new(alloc),
            starts: Numbered::new(alloc, RUN_BITS),
        }
    }

    /// Returns the number at an index, if there is one.
    #[inline(always)]
    pub(crate) fn number(&self, index: usize) -> Option<u16>
        ensures { IfSome result (λ number. slice_get self.now index ≡ Some number) }
    {
        Some(*self.numbers.get(index)?)
    }

    /// Returns where a run begins, which is added if it isn't here, or `None` where it would begin too
    /// far on.
    pub(crate) fn add(&mut self, run: &[u16]) -> Result<Option<u32>, AllocError>
        ensures stays { (self.new ≡ self.old) ⊎ (self.new ≡ self.old ++ run.now) }
        ensures start { IfOk result (λ found. IfSome found
            (λ start. slice_range self.new start (start + length run.now) ≡ run.now)) }
    {
        match self
            .starts
            .find(hash_of(run), |start| self.has(*start as usize, run))
        {
            Ok(number) => Ok(Some(*self.starts.value(number))),
            Err(place) => self.push(run, place),
        }
    }

    /// Returns whether a run begins there.
    fn has(&self, start: usize, run: &[u16]) -> bool
        ensures { IsTrue result
            → slice_range self.now start (start + length run.now) ≡ run.now }
    {
        let end = start.saturating_add(run.len());
        end <= self.numbers.len() && &self.numbers[start..end] == run
    }

    /// Adds a run, whose start has this place among the starts, and returns the start.
    fn push(&mut self, run: &[u16], place: usize) -> Result<Option<u32>, AllocError>
        ensures stays { (self.new ≡ self.old) ⊎ (self.new ≡ self.old ++ run.now) }
        ensures start { IfOk result (λ found. IfSome found
            (λ start. slice_range self.new start (start + length run.now) ≡ run.now)) }
    {
        let Ok(start) = u32::try_from(self.numbers.len()) else {
            return Ok(None);
        };
        self.starts.push(start, place)?;
        self.numbers.extend_from_slice(run)?;
        Ok(Some(start))
    }
}

/// Returns the hash of a run.
fn hash_of(run: &[u16]) -> u64 {
    let mut hash = 0;
    for number in run {
        hash = mixed(hash, u64::from(*number));
    }
    hash
}
