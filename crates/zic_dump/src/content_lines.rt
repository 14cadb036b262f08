//! Content lines of iCalendar (RFC 5545, 3.1).

ghost use Rattle.std.specs.Prelude.{string_bytes};
ghost use Rattle.zic_dump.specs.ContentLines.{HasShortLines};

use std::alloc::{AllocError, Global};
use std::marker::Model;

/// The most octets of a line, without its end.
const LONGEST: usize = 75;

/// A text in content lines: each ends in CRLF, and what would have more than 75 octets goes on in the
/// next line, after a space.
#[derive(Drop)]
pub(crate) struct ContentLines {
    text: String,
    /// The octets of the last line.
    used: usize,
}

impl Model for ContentLines {
    ghost use Rattle.std.specs.Prelude.{ℕ, List, string_bytes};
    ghost use Rattle.zic_dump.specs.ContentLines.{AreLines};

    ghost Value = { List ℕ };

    ghost view = { λ lines. string_bytes lines.text };

    ghost invariant = { λ lines. AreLines (string_bytes lines.text) lines.used };
}

impl ContentLines {
    /// Returns no lines.
    pub(crate) fn new(alloc: Global) -> ContentLines {
        ContentLines {
            text: String::new(alloc),
            used: 0,
        }
    }

    /// Returns the text.
    pub(crate) fn into_text(self) -> String
        ensures { HasShortLines (string_bytes result) }
    {
        self.text
    }

    /// Adds a character.
    pub(crate) fn push(&mut self, letter: char) -> Result<(), AllocError> {
        let used = self.used + letter.len_utf8();
        if used > LONGEST {
            return self.push_folded(letter);
        }
        self.used = used;
        self.text.push(letter)
    }

    /// Adds a character in a next line, with which the last one goes on.
    fn push_folded(&mut self, letter: char) -> Result<(), AllocError> {
        self.text.push_str("\r\n ")?;
        self.used = 1 + letter.len_utf8();
        self.text.push(letter)
    }

    /// Adds a text.
    pub(crate) fn push_str(&mut self, text: &str) -> Result<(), AllocError> {
        for letter in text.chars() {
            self.push(letter)?;
        }
        Ok(())
    }

    /// Adds a text as a value has it: backslashes, semicolons and commas follow a backslash (RFC 5545,
    /// 3.3.11).
    pub(crate) fn push_value(&mut self, text: &str) -> Result<(), AllocError> {
        for letter in text.chars() {
            self.push_escaped(letter)?;
        }
        Ok(())
    }

    /// Adds a text in ASCII as a value has it.
    pub(crate) fn push_bytes(&mut self, text: &[u8]) -> Result<(), AllocError> {
        for byte in text {
            self.push_escaped(char::from(*byte))?;
        }
        Ok(())
    }

    /// Adds a character of a value.
    fn push_escaped(&mut self, letter: char) -> Result<(), AllocError> {
        if matches!(letter, '\\' | ';' | ',') {
            self.push('\\')?;
        }
        self.push(letter)
    }

    /// Adds a text and the end of a line.
    pub(crate) fn push_line(&mut self, text: &str) -> Result<(), AllocError> {
        self.push_str(text)?;
        self.end()
    }

    /// Adds the end of a line.
    pub(crate) fn end(&mut self) -> Result<(), AllocError> {
        self.text.push_str("\r\n")?;
        self.used = 0;
        Ok(())
    }

    /// Adds the last two digits of a number.
    pub(crate) fn push_two_digits(&mut self, number: u32) -> Result<(), AllocError> {
        self.push(digit(number / 10))?;
        self.push(digit(number))
    }

    /// Adds a number below 1000 either way, in decimal digits.
    pub(crate) fn push_number(&mut self, number: i64) -> Result<(), AllocError> {
        if number < 0 {
            self.push('-')?;
        }
        let size = number.unsigned_abs();
        if size >= 100 {
            self.push(digit((size / 100 % 10) as u32))?;
        }
        if size >= 10 {
            self.push(digit((size / 10 % 10) as u32))?;
        }
        self.push(digit((size % 10) as u32))
    }
}

/// Returns the last decimal digit of a number.
fn digit(number: u32) -> char {
    char::from(b'0' + (number % 10) as u8)
}
