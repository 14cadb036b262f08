//! A line as it stands, with a part of it underlined, and words without control characters.

ghost use Rattle.std.specs.Prelude.{All, IfOk, IsTrue, OnOk, string_bytes};
ghost use Rattle.zic_explain.specs.Shown.{IsHarmless, IsShown, StaysShown};

use std::alloc::{AllocError, Global};

/// The greatest number of bytes that are shown of a line or a record.
const WIDTH: usize = 200;

/// The number of bytes that are shown before an underlined part that doesn't fit otherwise.
const BEFORE: usize = 40;

/// A part of a line or a record, from a byte up to another.
#[derive(Clone, Copy, Debug)]
pub struct Span {
    /// The index of its first byte.
    pub start: usize,
    /// The index after its last byte.
    pub end: usize,
}

/// Returns a word as it is shown to people. One that has control characters is shown in ASCII, with
/// each other byte as `\x1b`, so that a terminal takes none for a command.
///
/// # Errors
///
/// Memory ran out.
pub fn shown_word(alloc: Global, word: &str) -> Result<String, AllocError>
    ensures { IfOk result (λ shown. All IsHarmless (string_bytes shown)) }
{
    if is_harmless(word) {
        return String::from_str(alloc, word);
    }
    let mut shown = String::new(alloc);
    push_bytes(&mut shown, word.as_bytes())?;
    Ok(shown)
}

/// Returns whether a word has no control characters: those of ASCII, and those that are encoded in two
/// bytes of which the first is 0xc2.
fn is_harmless(word: &str) -> bool
    ensures { IsTrue result → All IsHarmless word.now }
{
    word.as_bytes().iter().all(
        |byte| matches!(*byte, b'\t' | b' '..=b'~' | 0x80..=0xc1 | 0xc3..=0xff),
    )
}

/// Adds a line, cut where it is long, and a line with `^` below the part of it. Bytes that a
/// terminal could take for a command, or that aren't ASCII, are shown as `\x1b`. The contract says
/// that all is shown; where the line is cut and the marks are is tested.
///
/// # Errors
///
/// Memory ran out.
pub fn push_shown(text: &mut String, line: &[u8], part: Span) -> Result<(), AllocError>
    ensures { OnOk result (StaysShown (string_bytes text.old) (string_bytes text.new)) }
{
    let start = if part.end <= WIDTH {
        0
    } else {
        part.start.saturating_sub(BEFORE)
    };
    let rest = line.trim_ascii_end().get(start..).unwrap_or(&[]);
    let window = rest.get(..WIDTH).unwrap_or(rest);
    let cut: &[u8] = if start > 0 { b"..." } else { b"" };
    let cut_after: &[u8] = if window.len() < rest.len() {
        b"..."
    } else {
        b""
    };
    push_bytes(text, b"  ")?;
    push_bytes(text, cut)?;
    push_bytes(text, window)?;
    push_bytes(text, cut_after)?;
    push_line_end(text)?;
    push_repeated(text, b' ', cut.len().saturating_add(2))?;
    push_underline(text, window, start, part)?;
    push_line_end(text)
}

/// Ends a line.
///
/// # Errors
///
/// Memory ran out.
pub fn push_line_end(text: &mut String) -> Result<(), AllocError>
    ensures { OnOk result (StaysShown (string_bytes text.old) (string_bytes text.new)) }
{
    push_ascii(text, b'\n')
}

/// Adds what stands below the bytes of a line from `start` on, up to the end of the part. A part of no
/// bytes has one mark.
fn push_underline(
    text: &mut String,
    window: &[u8],
    start: usize,
    part: Span,
) -> Result<(), AllocError>
    ensures { OnOk result (StaysShown (string_bytes text.old) (string_bytes text.new)) }
{
    let end = part.end.max(part.start.saturating_add(1));
    let mut at = start;
    for byte in window {
        if at >= end {
            return Ok(());
        }
        let mark = match *byte {
            b'\t' => b'\t',
            _ if at >= part.start => b'^',
            _ => b' ',
        };
        push_repeated(text, mark, width(*byte))?;
        at = at.saturating_add(1);
    }
    push_repeated(text, b'^', (at <= part.start) as usize)
}

/// Adds what is shown of a byte some times.
fn push_repeated(text: &mut String, byte: u8, count: usize) -> Result<(), AllocError>
    ensures { OnOk result (StaysShown (string_bytes text.old) (string_bytes text.new)) }
{
    for _ in 0..count {
        push_byte(text, byte)?;
    }
    Ok(())
}

/// Returns the number of characters that are shown of a byte.
fn width(byte: u8) -> usize {
    match byte {
        b'\t' | b' '..=b'~' => 1,
        _ => 4,
    }
}

/// Adds bytes as they are shown: those that a terminal could take for a command, or that aren't ASCII,
/// as `\x1b`.
///
/// # Errors
///
/// Memory ran out.
pub fn push_bytes(text: &mut String, bytes: &[u8]) -> Result<(), AllocError>
    ensures { OnOk result (StaysShown (string_bytes text.old) (string_bytes text.new)) }
{
    for byte in bytes {
        push_byte(text, *byte)?;
    }
    Ok(())
}

/// Adds what is shown of a byte.
fn push_byte(text: &mut String, byte: u8) -> Result<(), AllocError>
    ensures { OnOk result (StaysShown (string_bytes text.old) (string_bytes text.new)) }
{
    if byte == b'\t' || matches!(byte, b' '..=b'~') {
        return push_ascii(text, byte);
    }
    push_ascii(text, b'\\')?;
    push_ascii(text, b'x')?;
    push_ascii(text, digit(byte / 16))?;
    push_ascii(text, digit(byte % 16))
}

/// Adds a byte that is shown.
fn push_ascii(text: &mut String, byte: u8) -> Result<(), AllocError>
    requires { IsShown byte }
    ensures { OnOk result (StaysShown (string_bytes text.old) (string_bytes text.new)) }
{
    text.push(char::from(byte))
}

/// Returns a hexadecimal digit.
fn digit(value: u8) -> u8
    ensures { IsShown result }
{
    match value {
        0..=9 => b'0' + value,
        10..=15 => b'a' + (value - 10),
        _ => b'?',
    }
}
