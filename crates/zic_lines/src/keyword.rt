//! The keyword that a line begins with.

ghost use Rattle.std.specs.Prelude.{◌≡◌};
ghost use Rattle.zic_lines.specs.Keyword.{keyword_of};

use crate::word::only_word;

/// The keyword of a line.
#[derive(Clone, Copy, Debug, PartialEq, Eq)]
pub enum Keyword {
    Rule,
    Zone,
    Link,
}

const KEYWORDS: [&[u8]; 3] = [b"rule", b"zone", b"link"];

/// Returns the keyword that the field is, in full or cut, in any ASCII case.
#[tactic(auto, unfolding(crate::specs::Keyword::keyword_of))]
pub fn parse_keyword(field: &[u8]) -> Option<Keyword>
    ensures { result ≡ keyword_of field.now }
{
    match only_word(&KEYWORDS, field)? {
        0 => Some(Keyword::Rule),
        1 => Some(Keyword::Zone),
        _ => Some(Keyword::Link),
    }
}
