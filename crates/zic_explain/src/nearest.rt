//! The nearest of names.

ghost use Rattle.std.specs.Prelude.{◌<◌, length, map, IfOk};
ghost use Rattle.zic_explain.specs.Nearest.{IsNearest, IsNearName};

use std::alloc::{AllocError, Global};
use strsim::levenshtein;

/// Returns the name of these that takes the fewest insertions, deletions and replacements of characters
/// from this name, unless that is a third of its bytes or more.
///
/// # Errors
///
/// Memory ran out.
pub fn near_name<'a>(
    alloc: Global,
    names: &[&'a str],
    name: &str,
) -> Result<Option<&'a str>, AllocError>
    ensures { IfOk result (IsNearName (map (λ one. one.now) names.now) name.now) }
{
    if names.is_empty() {
        return Ok(None);
    }
    let nearest = nearest_name(alloc, names, name)?;
    let edits = levenshtein(alloc, name, nearest)?;
    if edits.saturating_mul(3) < nearest.len() {
        Ok(Some(nearest))
    } else {
        Ok(None)
    }
}

/// Returns the name of these that takes the fewest edits from this name.
#[tactic(auto, using(crate::proofs::NearestNames::first_name))]
fn nearest_name<'a>(alloc: Global, names: &[&'a str], name: &str) -> Result<&'a str, AllocError>
    requires { 0 < length names.now }
    ensures { IfOk result
        (λ nearest. IsNearest (map (λ one. one.now) names.now) name.now nearest.now) }
{
    let mut nearest = names[0];
    let mut least = levenshtein(alloc, name, nearest)?;
    for other in names {
        let edits = levenshtein(alloc, name, other)?;
        if edits < least {
            least = edits;
            nearest = *other;
        }
    }
    Ok(nearest)
}
