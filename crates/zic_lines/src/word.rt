//! Words, in full or cut, the field `-`, and parts of bytes.

ghost use Rattle.std.specs.Prelude.{◌≡◌, ◌<◌, ◌∷◌, IfSome, length, map, nat_eq, ◌==◌, option_map};
ghost use Rattle.std.specs.List.{starts_with, slice_split};
ghost use Rattle.std.specs.Str.{str_to_ascii_lowercase};
ghost use Rattle.zic_lines.specs.Word.{begins_word, only_word};
ghost use Rattle.zic_lines.specs.Parts.{split_at_most_once};
ghost use Rattle.zic_lines.specs.code.Parts.{other_parts};
ghost use Rattle.zic_lines.specs.Dash.{is_dash};

/// Returns whether a text in lower case begins with this front, which may have any ASCII case.
// Out of line, so that a loop over words is short enough to be unrolled: it mostly compares first
// letters.
#[inline(never)]
fn begins(text: &[u8], front: &[u8]) -> bool
    ensures { result ≡ starts_with nat_eq text.now (str_to_ascii_lowercase front.now) }
{
    if text.len() < front.len() {
        return false;
    }
    for (index, byte) in front.iter().enumerate() {
        if byte.to_ascii_lowercase() != text[index] {
            return false;
        }
    }
    true
}

/// Returns whether the field is a word in lower case or a nonempty prefix of it, in any ASCII case.
pub(crate) fn begins_word(word: &[u8], field: &[u8]) -> bool
    ensures { result ≡ begins_word word.now field.now }
{
    !field.is_empty() && begins(word, field)
}

/// Returns whether a word in lower case begins with this letter and goes on with this front, which
/// may have any ASCII case.
fn begins_with_letter(word: &[u8], letter: u8, front: &[u8]) -> bool
    ensures { result ≡ starts_with nat_eq word.now (letter ∷ str_to_ascii_lowercase front.now) }
{
    match word {
        [first, rest @ ..] => *first == letter && begins(rest, front),
        [] => false,
    }
}

/// Returns the place, from 0, of the only one of some words in lower case that begins with the
/// field, which may have any ASCII case; `None` where no word or more than one does.
pub(crate) fn only_word(words: &[&[u8]], field: &[u8]) -> Option<u8>
    requires { length words.now < 256 }
    ensures value { result ≡ only_word (map (λ word. word.now) words.now) field.now }
    ensures within { IfSome result (λ place. place < length words.now) }
{
    let [first, rest @ ..] = field else {
        return None;
    };
    // Most words differ in their first letter.
    let letter = first.to_ascii_lowercase();
    let mut found = None;
    for (place, word) in words.iter().enumerate() {
        if begins_with_letter(word, letter, rest) {
            if found.is_some() {
                return None;
            }
            found = Some(place as u8);
        }
    }
    found
}

/// Returns the part before the first separator, and the rest after it where there is one.
pub(crate) fn split_once(bytes: &[u8], separator: u8) -> (&[u8], Option<&[u8]>)
    ensures parts { slice_split (λ byte. byte == separator) bytes.now
        ≡ result.0.now ∷ other_parts (λ byte. byte == separator) result.1 }
    ensures shorter { IfSome result.1 (λ rest. length rest.now < length bytes.now) }
{
    for (index, byte) in bytes.iter().enumerate() {
        if *byte == separator {
            return (&bytes[..index], Some(&bytes[index + 1..]));
        }
    }
    (bytes, None)
}

/// Returns the part before the separator and the part after it; `None` where it stands more than
/// once.
#[tactic(auto, unfolding(crate::specs::Parts::split_at_most_once))]
pub fn split_at_most_once(bytes: &[u8], separator: u8) -> Option<(&[u8], Option<&[u8]>)>
    ensures { option_map (λ parts. (parts.0.now, option_map (λ part. part.now) parts.1)) result
        ≡ split_at_most_once bytes.now separator }
{
    let (part, rest) = split_once(bytes, separator);
    let Some(rest) = rest else {
        return Some((part, None));
    };
    match split_once(rest, separator) {
        (other, None) => Some((part, Some(other))),
        (_, Some(_)) => None,
    }
}

/// Returns whether the field is `-`. A field without text, as `""`, is read as `-` before it comes
/// here.
pub fn is_dash(field: &[u8]) -> bool
    ensures { result ≡ is_dash field.now }
{
    match field {
        [byte] => *byte == b'-',
        _ => false,
    }
}
