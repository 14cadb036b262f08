//! A search among times that rise, and the gap between two of them in which an instant lies.

ghost use Rattle.std.specs.Prelude.{◌≡◌, ◌+◌, ◌*◌, ◌<◌, ◌≤◌, ◌^◌, ◌<ℤ◌, length, AllPairs, IfOk, IsTrue, Contains};
ghost use Rattle.zic_tzif.specs.code.Window.{IsWindow, IsSplit, AreLevels};
ghost use Rattle.zic_posix.specs.Instants.{Includes, AreBetween};

use crate::hints::Hints;
use std::alloc::{AllocError, Global};
use zic_posix::{Instants, MAX_INSTANT, MIN_INSTANT};

/// The most halvings, at the end of a search, that the compiler may write out one by one: those of
/// the zones in use.
const SHORT: u32 = 7;

/// Times, and what a search among them needs where they rise.
#[derive(Debug, Drop)]
pub struct Times {
    pub times: Vec<i64>,
    hints: Hints,
    /// The number of halvings.
    levels: u32,
    ghost levels_are: { AreLevels levels (length times.items) },
}

impl Times {
    /// Returns these times, ready to be searched.
    pub fn new(alloc: Global, times: Vec<i64>) -> Result<Times, AllocError>
        ensures { IfOk result (λ made. made.times ≡ times) }
    {
        let levels = (times.len() + 1).ilog2();
        let hints = Hints::new(alloc, &times)?;
        Ok(Times {
            times,
            hints,
            levels,
        })
    }

    /// Counts the times that aren't after an instant. The times rise.
    pub fn count_not_after(&self, t: i64) -> usize
        requires { AllPairs (λ a b. a <ℤ b) self.now.times.items }
        ensures { IsSplit self.now.times.items t result }
    {
        let times = self.times.as_slice();
        let near = self.hints.count_near(t).min(times.len());
        let count = if near < times.len() && times[near] <= t {
            near + 1
        } else {
            near
        };
        if pass_at(times, count, t) {
            return count;
        }
        self.search(t)
    }

    /// Counts the times that aren't after an instant, without a hint. The times rise.
    fn search(&self, t: i64) -> usize
        requires { AllPairs (λ a b. a <ℤ b) self.now.times.items }
        ensures { IsSplit self.now.times.items t result }
    {
        let times = self.times.as_slice();
        let mut base = first_window(times, self.levels, t);
        let mut level = self.levels;
        while level > SHORT {
            level -= 1;
            base = halve(times, base, level, t);
        }
        narrow(times, base, level, t)
    }
}

/// Returns whether the times pass `t` at a place: the one before it isn't after `t`, and the one at
/// it is.
fn pass_at(times: &[i64], place: usize, t: i64) -> bool
    requires rising { AllPairs (λ a b. a <ℤ b) times.now }
    requires inside { place ≤ length times.now }
    ensures { IsTrue result → IsSplit times.now t place }
{
    if place > 0 && t < times[place - 1] {
        return false;
    }
    place == times.len() || t < times[place]
}

/// Returns the window of this many levels, at the front or at the end, in which the times pass
/// `t`.
fn first_window(times: &[i64], levels: u32, t: i64) -> usize
    requires rising { AllPairs (λ a b. a <ℤ b) times.now }
    requires levels { AreLevels levels (length times.now) }
    ensures { IsWindow times.now t result levels }
{
    let window = 1usize << levels;
    let count = times.len();
    if count < window {
        return 0;
    }
    if times[window - 1] <= t {
        count + 1 - window
    } else {
        0
    }
}

/// Returns the half of a window in which the times pass `t`.
fn halve(times: &[i64], base: usize, level: u32, t: i64) -> usize
    requires rising { AllPairs (λ a b. a <ℤ b) times.now }
    requires window { IsWindow times.now t base (level + 1) }
    requires level { level < 63 }
    ensures { IsWindow times.now t result level }
{
    let half = 1usize << level;
    // A shift: the compiler makes a branch of a choice, and the processor would guess it wrong
    // every other time.
    base + (usize::from(times[base + half - 1] <= t) << level)
}

/// Returns the place in a short window at which the times pass `t`.
fn narrow(times: &[i64], base: usize, level: u32, t: i64) -> usize
    requires rising { AllPairs (λ a b. a <ℤ b) times.now }
    requires window { IsWindow times.now t base level }
    requires short { level ≤ 7 }
    ensures { IsSplit times.now t result }
{
    let mut base = base;
    let mut rest = SHORT;
    while rest > 0 {
        rest -= 1;
        if rest < level {
            base = halve(times, base, rest, t);
        }
    }
    base
}

/// The number of times before a gap or at its first instant, and the gap's instants.
#[derive(Clone, Copy)]
pub struct Gap {
    pub count: usize,
    pub instants: Instants,
}

impl Times {
    /// Returns the gap in which an instant lies. The times rise.
    pub fn gap_at(&self, t: i64) -> Gap
        requires { AllPairs (λ a b. a <ℤ b) self.now.times.items }
        ensures count { IsSplit self.now.times.items t result.count }
        ensures requested { Includes result.instants t }
        ensures between { AreBetween (Contains self.now.times.items) result.instants }
    {
        let times = self.times.as_slice();
        let count = self.count_not_after(t);
        let first = if count == 0 {
            MIN_INSTANT
        } else {
            times[count - 1]
        };
        let last = if count == times.len() {
            MAX_INSTANT
        } else {
            times[count] - 1
        };
        Gap {
            count,
            instants: Instants { first, last },
        }
    }
}
