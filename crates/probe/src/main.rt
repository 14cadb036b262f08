//! Runs the tool that the first word names, for the scripts of tests/ and bench/. The words after it
//! are arguments of the tool.
#![tactic(auto)]

mod answers;
mod by_jiff;
mod changes;
mod counts;
mod input;
mod rows;

use by_jiff::Query;
use input::word;
use std::io::{self, ErrorKind};
use std::process::ExitCode;

fn main(rt: HostRuntime) -> io::Result<ExitCode> {
    match word(&rt, 1)? {
        Some(name) => run(&rt, name.as_str()),
        None => Err(io::Error::from(ErrorKind::InvalidInput)),
    }
}

/// Runs the tool with this name.
fn run(rt: &HostRuntime, name: &str) -> io::Result<ExitCode> {
    match name {
        "counts" => counts::run(rt),
        "changes" => changes::run(rt),
        "jiff" => by_jiff::run(rt, Query::Instants),
        "jiff_local" => by_jiff::run(rt, Query::LocalTimes),
        "rows" => rows::run(rt),
        _ => Err(io::Error::from(ErrorKind::InvalidInput)),
    }
}
