//! Random numbers.

use std::random::RandomSource;

/// Returns a random number, which no other run has and nobody knows before, or 0 where the system gives
/// none.
pub fn random_number<R: RandomSource>(rt: &R) -> u64 {
    let mut bytes = [0; 8];
    let _ = rt.fill_bytes(&mut bytes);
    u64::from_le_bytes(bytes)
}
