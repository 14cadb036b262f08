//! Prints what the kit's `jiff` answers by a TZif file, for `tests/outside`. The only word names the file. For
//! each number of seconds on standard input, one on a line, it prints a line: of an instant `OFFSET FLAG
//! ABBREVIATION`, and of a local time the instants that it means alone, by `earlier`, by `later` and by
//! `compatible`, or `-` for none. For a file that `jiff` refuses it prints `refused`.

use crate::answers::Answers;
use crate::input::word;
use jiff::Timestamp;
use jiff::tz::{TimeZone, Tzif};
use std::fs;
use std::io::{self, ErrorKind};
use std::process::ExitCode;
use std::rt::{Env, Files};

/// What numbers are: instants, or local times.
#[derive(Clone, Copy)]
pub enum Query {
    Instants,
    LocalTimes,
}

/// Prints what the file answers for all numbers.
pub fn run<R: Env + Files + Input + Print + AllocGlobal>(
    rt: &R,
    query: Query,
) -> io::Result<ExitCode> {
    let octets = read_file(rt)?;
    let numbers = io::read_to_string(rt.alloc(), rt.reader())?;
    let mut answers = Answers::new(rt.alloc());
    match Tzif::parse(rt.alloc(), None, &octets) {
        Err(_) => answers.push(b"refused\n"),
        Ok(file) => {
            let zone = TimeZone::tzif(&file);
            push_answers(&zone, query, numbers.as_str(), &mut answers)?;
        }
    }
    answers.print(rt)
}

/// Returns the bytes of the file that the word after the tool names.
fn read_file<R: Env + Files + AllocGlobal>(rt: &R) -> io::Result<Vec<u8>> {
    match word(rt, 2)? {
        Some(name) => fs::read(rt, name.as_str()),
        None => Err(io::Error::from(ErrorKind::InvalidInput)),
    }
}

/// Appends a line for each number.
fn push_answers(
    zone: &TimeZone<'_>,
    query: Query,
    numbers: &str,
    answers: &mut Answers,
) -> io::Result<()> {
    for line in numbers.lines() {
        let Some(second) = instant_of(line) else {
            return Err(io::Error::from(ErrorKind::InvalidInput));
        };
        match query {
            Query::Instants => push_info(zone, second, answers),
            Query::LocalTimes => push_meant(zone, second, answers),
        }
    }
    Ok(())
}

fn push_info(zone: &TimeZone<'_>, instant: Timestamp, answers: &mut Answers) {
    let info = zone.to_offset_info(instant);
    answers.show(&info.offset().seconds());
    answers.flag(info.dst().is_dst());
    answers.show(&info.abbreviation());
    answers.end_line();
}

/// Appends the instants that a local time means, which is given as if it were in UT.
fn push_meant(zone: &TimeZone<'_>, local: Timestamp, answers: &mut Answers) {
    let time = zone.to_ambiguous_timestamp(TimeZone::UTC.to_datetime(local));
    push_second(answers, time.unambiguous().ok());
    push_second(answers, time.earlier().ok());
    push_second(answers, time.later().ok());
    push_second(answers, time.compatible().ok());
    answers.end_line();
}

fn push_second(answers: &mut Answers, instant: Option<Timestamp>) {
    match instant {
        Some(instant) => answers.show(&instant.as_second()),
        None => answers.word("-"),
    }
}

fn instant_of(line: &str) -> Option<Timestamp> {
    Timestamp::from_second(line.parse::<i64>().ok()?).ok()
}
