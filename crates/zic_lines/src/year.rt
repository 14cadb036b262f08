//! Years of Rule lines and of an UNTIL.

ghost use Rattle.std.specs.Prelude.{◌≡◌, ◌⊎◌, IfSome};
ghost use Rattle.zic_lines.specs.Year as spec;
ghost use Rattle.zic_lines.specs.Year.{year_of, last_year_of, is_only, is_maximum, IsYear};

use crate::time::{MAX_DIGITS, number};
use crate::word::begins_word;
use zic_calendar::is_leap_year;

/// The least year that a line may name.
pub const FIRST_YEAR: u16 = 1;

/// The greatest year that a line may name.
pub const LAST_YEAR: u16 = 9000;

/// Returns the year that one to nine digits name, 1 to 9000.
#[tactic(auto, unfolding(crate::specs::Year::year_of))]
pub fn parse_year(field: &[u8]) -> Option<u16>
    ensures value { result ≡ year_of field.now }
    ensures within { IfSome result IsYear }
{
    let n = number(MAX_DIGITS, field)?;
    if u32::from(FIRST_YEAR) <= n && n <= u32::from(LAST_YEAR) {
        Some(n as u16)
    } else {
        None
    }
}

fn is_only(field: &[u8]) -> bool
    ensures { result ≡ is_only field.now }
{
    begins_word(b"only", field)
}

fn is_maximum(field: &[u8]) -> bool
    ensures { result ≡ is_maximum field.now }
{
    field.len() >= 2 && begins_word(b"maximum", field)
}

/// Returns the last year that a TO field names, where FROM is `first`: `Some(None)` for `maximum`,
/// and `None` where it names none (zic(8), TO).
#[tactic(auto, unfolding(crate::specs::Year::last_year_of))]
pub fn last_year(first: u16, field: &[u8]) -> Option<Option<u16>>
    ensures value { result ≡ last_year_of first field.now }
    ensures within { IfSome result (λ last. IfSome last (λ year. (year ≡ first) ⊎ IsYear year)) }
{
    if is_only(field) {
        return Some(Some(first));
    }
    if is_maximum(field) {
        return Some(None);
    }
    Some(Some(parse_year(field)?))
}

/// Returns whether the last year lies before the first.
pub fn ends_before(last: Option<u16>, first: u16) -> bool
    ensures { result ≡ spec.ends_before last first }
{
    match last {
        None => false,
        Some(last) => last < first,
    }
}

/// Returns whether a rule holds in one year only, a leap year.
pub fn is_one_leap_year(first: u16, last: Option<u16>) -> bool
    ensures { result ≡ spec.is_one_leap_year first last }
{
    match last {
        None => false,
        Some(last) => first == last && is_leap_year(i64::from(first)),
    }
}
