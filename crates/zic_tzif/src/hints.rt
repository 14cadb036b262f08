//! Where to begin a search among times that rise.

ghost use Rattle.std.specs.Prelude.{◌<◌};

use std::alloc::{AllocError, Global};

/// The most slots are 2 to the power of this.
const MAX_SLOT_BITS: u32 = 10;

/// How many times come before each slot, where a slot is one of up to 1,024 equal parts of the time
/// from the first of them to the last. They only say where a search begins: what it finds there
/// is compared with the times.
#[derive(Debug, Drop)]
pub struct Hints {
    first: i64,
    /// A slot has 2 to the power of this many seconds.
    shift: u32,
    counts: Vec<u16>,
    ghost shift_fits: { shift < 64 },
}

impl Hints {
    /// Returns the hints of these times: twice to eight times as many slots as times, and at most
    /// 1,024.
    pub fn new(alloc: Global, times: &[i64]) -> Result<Hints, AllocError> {
        let first = times.first().copied().unwrap_or(0);
        let last = times.last().copied().unwrap_or(0);
        let slot_bits = ((times.len() + 1).ilog2() + 2).min(MAX_SLOT_BITS);
        let reach = first.abs_diff(last).max(1);
        let shift = (reach.ilog2() + 1).saturating_sub(slot_bits).min(63);
        let counts = vec![in alloc; 0u16; 1usize << slot_bits]?;
        let mut hints = Hints {
            first,
            shift,
            counts,
        };
        hints.count(times);
        hints.pass_on();
        Ok(hints)
    }

    /// Returns about how many times aren't after an instant: mostly their number or one less.
    pub fn count_near(&self, t: i64) -> usize {
        if t < self.first {
            return 0;
        }
        match self.counts.get(self.slot_of(t)) {
            Some(count) => *count as usize,
            None => usize::MAX,
        }
    }

    /// Writes to each slot with a time how many times there are up to its end.
    fn count(&mut self, times: &[i64]) {
        let mut passed = 0u16;
        for time in times {
            passed = passed.saturating_add(1);
            let slot = self.slot_of(*time);
            if let Some(count) = self.counts.get_mut(slot) {
                *count = passed;
            }
        }
    }

    /// Writes to each slot the greatest number of the slots before it.
    fn pass_on(&mut self) {
        let mut before = 0u16;
        for count in self.counts.iter_mut() {
            let own = *count;
            *count = before;
            before = before.max(own);
        }
    }

    /// Returns the number of the slot of an instant that isn't before the first time.
    fn slot_of(&self, t: i64) -> usize {
        (t.abs_diff(self.first) >> self.shift) as usize
    }
}
