//! What tools read: words, a number of times from a word, and source text from standard input.

use std::io::Read;
use std::rt::Env;
use std::{env, io};

/// Returns the word of this number. The tool is the first.
pub fn word<R: Env + AllocGlobal>(rt: &R, number: usize) -> io::Result<Option<String>> {
    Ok(env::args(rt)?.nth(number))
}

/// Returns the number of times that the word after the tool spells, if it does.
pub fn read_times<R: Env + AllocGlobal>(rt: &R) -> io::Result<Option<u32>> {
    match word(rt, 2)? {
        Some(word) => Ok(number_of(word.as_str())),
        None => Ok(None),
    }
}

fn number_of(word: &str) -> Option<u32> {
    word.parse::<u32>().ok()
}

/// Returns the text of standard input.
pub fn read_text<R: Input + AllocGlobal>(rt: &R) -> io::Result<Vec<u8>> {
    let mut text = Vec::new(rt.alloc());
    rt.reader().read_to_end(&mut text)?;
    Ok(text)
}
