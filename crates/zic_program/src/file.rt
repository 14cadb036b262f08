//! The commands that print what sources or a file say.

use crate::zone_file::path_of;
use std::fs::Files;
use std::io::Input;
use std::rt::Env;
use std::sync::Wait;
use std::thread::Threads;
use zic_counted::Counted;
use zic_dump::Years;
use zic_host::{WriteReason, output, read_texts};
use zic_io::{Failure, read_file};
use zic_layouts::Plan;
use zic_local::{LocalTime, Schedule};

/// Compiles sources, and lists their files.
pub(crate) fn check<R: Files + Input + Print + AllocGlobal + Threads + Wait + Sync>(
    rt: &R,
    sources: &[String],
    plan: &Plan,
    texts: &mut Vec<Vec<u8>>,
    reason: &WriteReason,
) -> Result<(), Failure> {
    read_texts(rt, sources, texts)?;
    let mut output = Counted::new(output(rt, reason));
    zic_bulk::check(rt, rt.alloc(), plan, texts, &mut output)
}

/// Prints what a file says about an instant.
pub(crate) fn show<R: Env + Files + Print + AllocGlobal>(
    rt: &R,
    file: &str,
    instant: i64,
    reason: &WriteReason,
) -> Result<(), Failure> {
    let bytes = bytes_of(rt, file)?;
    let mut output = Counted::new(output(rt, reason));
    zic_bulk::show(rt.alloc(), &bytes, instant, &mut output)
}

/// Prints what a file says about a local time.
pub(crate) fn show_local<R: Env + Files + Print + AllocGlobal>(
    rt: &R,
    file: &str,
    local: &LocalTime,
    reason: &WriteReason,
) -> Result<(), Failure> {
    let bytes = bytes_of(rt, file)?;
    let mut output = Counted::new(output(rt, reason));
    zic_bulk::show_local(rt.alloc(), &bytes, local, &mut output)
}

/// Prints when a schedule is next due by what a file says.
pub(crate) fn show_next<R: Env + Files + Print + AllocGlobal>(
    rt: &R,
    file: &str,
    schedule: &Schedule,
    after: i64,
    reason: &WriteReason,
) -> Result<(), Failure> {
    let bytes = bytes_of(rt, file)?;
    let mut output = Counted::new(output(rt, reason));
    zic_bulk::show_next(rt.alloc(), &bytes, schedule, after, &mut output)
}

/// Lists the changes of a file.
pub(crate) fn dump<R: Env + Files + Print + AllocGlobal>(
    rt: &R,
    file: &str,
    years: &Years,
    reason: &WriteReason,
) -> Result<(), Failure> {
    let bytes = bytes_of(rt, file)?;
    let mut output = Counted::new(output(rt, reason));
    zic_bulk::dump(rt.alloc(), file, &bytes, years, &mut output)
}

/// Returns the bytes of the file that a word names.
fn bytes_of<R: Env + Files + AllocGlobal>(rt: &R, file: &str) -> Result<Vec<u8>, Failure> {
    let path = path_of(rt, file)?;
    read_file(rt.alloc(), rt, path.as_str())
}
