//! Tests of what can't be asked of the programs: workers that wait for each other, claims where memory is
//! refused, how often columns are read, what saves time, flushes, progress by a clock, and the plans that
//! words request. They are a separate crate, because a crate with tests is proved twice.
#![tactic(auto)]

#[cfg(test)]
mod claims;
#[cfg(test)]
mod command_line;
#[cfg(test)]
mod pieces;
#[cfg(test)]
mod quick;
#[cfg(test)]
mod reads;
#[cfg(test)]
mod samples;
#[cfg(test)]
mod workers;
#[cfg(test)]
mod writers;
