//! The text that tools print, made of lines of words.

use std::alloc::Global;
use std::fmt::{Debug, Display};
use std::io::{self, Write};
use std::process::ExitCode;
use zic_base::{Place, State, Stop};

/// Text that grows. What finds no memory is left out, and the text is not printed then.
#[derive(Drop)]
pub struct Answers {
    text: Vec<u8>,
    is_whole: bool,
}

impl Answers {
    /// Returns an empty text.
    pub fn new(alloc: Global) -> Answers {
        Answers {
            text: Vec::new(alloc),
            is_whole: true,
        }
    }

    /// Appends bytes.
    pub fn push(&mut self, octets: &[u8]) {
        if self.text.extend_from_slice(octets).is_err() {
            self.is_whole = false;
        }
    }

    /// Ends the line.
    pub fn end_line(&mut self) {
        self.push(b"\n");
    }

    /// Separates the next word from the one before it in the line.
    fn separate(&mut self) {
        match self.text.last() {
            None | Some(b'\n') => {}
            Some(_) => self.push(b" "),
        }
    }

    /// Appends a word, after a blank if another one is before it in the line.
    pub fn word(&mut self, word: &str) {
        self.octets(word.as_bytes());
    }

    /// Appends bytes as a word.
    pub fn octets(&mut self, octets: &[u8]) {
        self.separate();
        self.push(octets);
    }

    /// Appends bytes as a word in brackets.
    pub fn bracketed(&mut self, octets: &[u8]) {
        self.octets(b"[");
        self.push(octets);
        self.push(b"]");
    }

    /// Appends a value as a word.
    pub fn show<T: Display>(&mut self, value: &T) {
        self.separate();
        self.joined(b"", value);
    }

    /// Appends a value to the last word, after these bytes.
    pub fn joined<T: Display>(&mut self, octets: &[u8], value: &T) {
        self.push(octets);
        if write!(self.text, "{value}").is_err() {
            self.is_whole = false;
        }
    }

    /// Appends a value as a word, as `Debug` prints it.
    pub fn debug<T: Debug>(&mut self, value: &T) {
        self.separate();
        if write!(self.text, "{value:?}").is_err() {
            self.is_whole = false;
        }
    }

    /// Appends a line of one value, as `Debug` prints it.
    pub fn debug_line<T: Debug>(&mut self, value: &T) {
        self.debug(value);
        self.end_line();
    }

    /// Appends a state as `OFFSET FLAG ABBREVIATION`.
    pub fn state(&mut self, state: State<'_>) {
        self.show(&state.offset);
        self.flag(state.daylight);
        self.octets(state.name);
    }

    /// Appends a flag as `1` or `0`.
    pub fn flag(&mut self, is_set: bool) {
        self.word(if is_set { "1" } else { "0" });
    }

    /// Appends a place as `TEXT:LINE`.
    pub fn place(&mut self, place: Place) {
        self.show(&place.text);
        self.joined(b":", &place.line);
    }

    /// Prints the text, or why there is no answer.
    pub fn print_answered(
        &self,
        rt: &impl Print,
        answered: Result<(), Stop>,
    ) -> io::Result<ExitCode> {
        match answered {
            Ok(()) => self.print(rt),
            Err(stop) => print_stop(rt, stop),
        }
    }

    /// Prints the text, or that there was too little memory for it.
    pub fn print(&self, rt: &impl Print) -> io::Result<ExitCode> {
        if !self.is_whole {
            return print_stop(rt, Stop::Memory);
        }
        io::writer(rt).write_all(&self.text)?;
        Ok(ExitCode::SUCCESS)
    }
}

/// Prints the reason why there is no answer, and returns the exit status.
pub fn print_stop(rt: &impl Print, stop: Stop) -> io::Result<ExitCode> {
    match stop {
        Stop::Fault(fault) => {
            let (line, kind) = (fault.place.line, fault.kind);
            println!(rt; "line {line}: {kind:?}")?;
            Ok(ExitCode::from(1))
        }
        Stop::Memory => {
            println!(rt; "out of memory")?;
            Ok(ExitCode::from(4))
        }
    }
}
