//! Transitions: their times, and the numbers of the types that begin at them.

ghost use Rattle.std.specs.Prelude.{◌≡◌, ◌*◌, ◌-◌, ◌≤◌, nat_lt, length, map, slice_get, IfOk};
ghost use Rattle.std.specs.List.{list_all};
ghost use Rattle.zic_tzif.specs.Block.{pieces, time_in, do_rise, changes_at};

use crate::content::Change;
use byteorder::{BigEndian, ByteOrder};
use std::alloc::{AllocError, Global};

/// The length of a time in bytes.
pub const TIME_LENGTH: usize = 8;

/// Returns the time in eight bytes.
fn time_in(octets: &[u8]) -> i64
    requires { 8 ≤ length octets.now }
    ensures { result ≡ time_in octets.now }
{
    BigEndian::read_i64(octets)
}

/// Returns whether each of `count` times comes before the next.
pub fn do_rise(count: u32, times: &[u8]) -> bool
    requires { count * 8 ≤ length times.now }
    ensures { result ≡ do_rise (map time_in (pieces 8 count times.now)) }
{
    if count == 0 {
        return true;
    }
    let (first, mut rest) = times.split_at(TIME_LENGTH);
    let mut last = time_in(first);
    for _ in 1..count {
        let (octets, after) = rest.split_at(TIME_LENGTH);
        let time = time_in(octets);
        if time <= last {
            return false;
        }
        last = time;
        rest = after;
    }
    true
}

/// Returns whether each of the numbers is that of a type.
pub fn have_types(numbers: &[u8], types: u32) -> bool
    ensures { result ≡ list_all (λ number. nat_lt number types) numbers.now }
{
    numbers.iter().all(|number| u32::from(*number) < types)
}

/// Returns the last transition, if there is one.
pub fn last_change(times: &[u8], numbers: &[u8]) -> Option<Change>
    requires { length numbers.now * 8 ≤ length times.now }
    ensures { result
        ≡ slice_get
        (changes_at (map time_in (pieces 8 (length numbers.now) times.now)) numbers.now)
        (length numbers.now - 1) }
{
    let number = *numbers.last()?;
    let place = (numbers.len() - 1) * TIME_LENGTH;
    let instant = time_in(&times[place..place + TIME_LENGTH]);
    Some(Change { instant, number })
}

/// Returns `count` times.
pub fn times(alloc: Global, count: usize, octets: &[u8]) -> Result<Vec<i64>, AllocError>
    requires { count * 8 ≤ length octets.now }
    ensures { IfOk result (λ v. v.items ≡ map time_in (pieces 8 count octets.now)) }
{
    let mut times = Vec::with_capacity(alloc, count)?;
    let mut rest = octets;
    for _ in 0..count {
        let (time, after) = rest.split_at(TIME_LENGTH);
        times.push(time_in(time))?;
        rest = after;
    }
    Ok(times)
}
