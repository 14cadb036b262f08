//! Names, numbers and single bytes at the start of a text. Each function returns what it reads and
//! the text after it.

ghost use Rattle.std.specs.Prelude.{◌≡◌, ◌≤◌, IsTrue, All, length, IfSome};
ghost use Rattle.std.specs.List.{prefix_len};
ghost use Rattle.zic_base.specs.Byte.{is_abbreviation_byte};
ghost use Rattle.zic_base.specs.Number.{decimal_value};
ghost use Rattle.std.specs.Char.{is_ascii_digit};
ghost use Rattle.zic_posix.specs.Grammar.{is_letter};
ghost use Rattle.zic_posix.specs.code.Reading.{Reads, after, plain_name_at, quoted_name_at, name_at, number_at};

use crate::footer::SHORTEST_NAME;
use zic_base::is_abbreviation_byte;

/// Returns the text after this byte.
#[tactic(auto, unfolding(crate::specs::code::Reading::after))]
pub(crate) fn after(byte: u8, text: &[u8]) -> Option<&[u8]>
    ensures { Reads (λ x. x.now) result (after byte text.now) }
{
    match text {
        [first, rest @ ..] if *first == byte => Some(rest),
        _ => None,
    }
}

/// Reads a name, without `<` and `>`.
#[tactic(auto, unfolding(crate::specs::code::Reading::name_at))]
pub(crate) fn name_at(text: &[u8]) -> Option<(&[u8], &[u8])>
    ensures { Reads (λ x. (x.0.now, x.1.now)) result (name_at text.now) }
{
    match text {
        [] => None,
        [b'<', quoted @ ..] => quoted_name_at(quoted),
        _ => plain_name_at(text),
    }
}

#[tactic(auto, unfolding(crate::specs::code::Reading::plain_name_at))]
fn plain_name_at(text: &[u8]) -> Option<(&[u8], &[u8])>
    ensures { Reads (λ x. (x.0.now, x.1.now)) result (plain_name_at text.now) }
{
    let length = letters(text);
    if length < SHORTEST_NAME {
        return None;
    }
    Some(text.split_at(length))
}

/// Reads a name between `<` and `>`, whose `<` has been read.
#[tactic(auto, unfolding(crate::specs::code::Reading::quoted_name_at))]
fn quoted_name_at(text: &[u8]) -> Option<(&[u8], &[u8])>
    ensures { Reads (λ x. (x.0.now, x.1.now)) result (quoted_name_at text.now) }
{
    let length = abbreviation_bytes(text);
    if length < SHORTEST_NAME {
        return None;
    }
    let (name, rest) = text.split_at(length);
    let rest = after(b'>', rest)?;
    Some((name, rest))
}

/// Reads a number from `least` to `most`, of all the digits that stand there but no more than
/// `longest`.
#[tactic(auto, unfolding(crate::specs::code::Reading::number_at))]
pub(crate) fn number_at(longest: usize, least: u16, most: u16, text: &[u8]) -> Option<(u16, &[u8])>
    requires { longest ≤ 3 }
    ensures number { Reads (λ x. (x.0, x.1.now)) result (number_at longest least most text.now) }
    ensures limit { IfSome result (λ x. x.0 ≤ most) }
{
    let length = digits(text).min(longest);
    let (digits, rest) = text.split_at(length);
    let number = decimal(digits);
    (0 < length && least <= number && number <= most).then_some((number, rest))
}

/// Returns the number that at most three digits stand for.
fn decimal(digits: &[u8]) -> u16
    requires short { length digits.now ≤ 3 }
    requires digits { All (λ b. IsTrue (is_ascii_digit b)) digits.now }
    ensures { result ≡ decimal_value digits.now }
{
    let mut number = 0;
    for digit in digits {
        number = 10 * number + u16::from(digit - b'0');
    }
    number
}

/// Counts the letters at the start.
fn letters(text: &[u8]) -> usize
    ensures count { result ≡ prefix_len is_letter text.now }
    ensures within { result ≤ length text.now }
{
    text.iter().take_while(|b| b.is_ascii_alphabetic()).count()
}

/// Counts the letters, digits, `+` and `-` at the start.
fn abbreviation_bytes(text: &[u8]) -> usize
    ensures count { result ≡ prefix_len is_abbreviation_byte text.now }
    ensures within { result ≤ length text.now }
{
    text.iter()
        .take_while(|b| is_abbreviation_byte(**b))
        .count()
}

/// Counts the digits at the start.
fn digits(text: &[u8]) -> usize
    ensures count { result ≡ prefix_len is_ascii_digit text.now }
    ensures within { result ≤ length text.now }
{
    text.iter().take_while(|b| b.is_ascii_digit()).count()
}
