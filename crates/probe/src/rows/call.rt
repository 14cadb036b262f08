//! A call and its arguments.

ghost use Rattle.std.specs.Prelude.{◌≤ℤ◌, IfOk};

use std::alloc::{AllocError, Global};
use zic_base::Stop;

/// Why a call has no whole answer.
#[derive(Clone, Copy)]
pub enum Refusal {
    /// A source or a zone has a fault, or a growth of memory was refused.
    Stop(Stop),
    /// The call isn't known, or an argument is missing or wrong.
    Call,
}

impl From<Stop> for Refusal {
    fn from(stop: Stop) -> Refusal {
        Refusal::Stop(stop)
    }
}

impl From<AllocError> for Refusal {
    fn from(_e: AllocError) -> Refusal {
        Refusal::Stop(Stop::Memory)
    }
}

/// A call: its module, its name there, and its arguments, which are words and texts.
#[derive(Drop)]
pub struct Call<'a> {
    pub module: &'a str,
    pub name: &'a str,
    pub words: Vec<&'a str>,
    pub texts: Vec<Vec<u8>>,
}

impl<'a> Call<'a> {
    /// Returns the call that a line spells.
    pub fn parse(alloc: Global, line: &'a str) -> Result<Call<'a>, Refusal> {
        let mut parts = line.split(' ');
        let (Some(module), Some(name)) = (parts.next(), parts.next()) else {
            return Err(Refusal::Call);
        };
        let mut call = Call {
            module,
            name,
            words: Vec::new(alloc),
            texts: Vec::new(alloc),
        };
        for part in parts {
            call.push(alloc, part)?;
        }
        Ok(call)
    }

    /// Adds an argument.
    fn push(&mut self, alloc: Global, part: &'a str) -> Result<(), Refusal> {
        match part.strip_prefix(':') {
            Some(digits) => push_text(alloc, digits, &mut self.texts),
            None => push_word(part, &mut self.words),
        }
    }

    /// Returns the number of words that are arguments.
    pub fn len(&self) -> usize {
        self.words.len()
    }

    /// Returns the word of this number from 0.
    pub fn word(&self, number: usize) -> Result<&'a str, Refusal> {
        match self.words.get(number) {
            Some(word) => Ok(*word),
            None => Err(Refusal::Call),
        }
    }

    /// Returns the number from `least` to `most` that the word of this number from 0 spells.
    pub fn number(&self, number: usize, least: i64, most: i64) -> Result<i64, Refusal>
        ensures least { IfOk result (λ n. least ≤ℤ n) }
        ensures most { IfOk result (λ n. n ≤ℤ most) }
    {
        match self.word(number)?.parse::<i64>() {
            Ok(found) if least <= found && found <= most => Ok(found),
            _ => Err(Refusal::Call),
        }
    }

    /// Returns the instant that the word of this number from 0 spells.
    pub fn instant(&self, number: usize) -> Result<i64, Refusal> {
        self.number(number, i64::MIN, i64::MAX)
    }

    /// Returns the first text.
    pub fn text(&self) -> Result<&[u8], Refusal> {
        match self.texts.first() {
            Some(text) => Ok(text.as_slice()),
            None => Err(Refusal::Call),
        }
    }
}

/// Appends a word.
fn push_word<'a>(word: &'a str, words: &mut Vec<&'a str>) -> Result<(), Refusal> {
    match words.push(word) {
        Ok(()) => Ok(()),
        Err(_) => Err(Refusal::Stop(Stop::Memory)),
    }
}

/// Appends the bytes that hexadecimal digits spell.
fn push_text(alloc: Global, digits: &str, texts: &mut Vec<Vec<u8>>) -> Result<(), Refusal> {
    let Ok(text) = hex::decode(alloc, digits.as_bytes()) else {
        return Err(Refusal::Call);
    };
    match texts.push(text) {
        Ok(()) => Ok(()),
        Err(_) => Err(Refusal::Stop(Stop::Memory)),
    }
}
