//! The limits of files that rows can be made of.

ghost use Rattle.std.specs.Bool.{Decides, MatchBool};
ghost use Rattle.std.specs.Prelude.{◌≡◌, MatchResult};
ghost use Rattle.zic_base.specs.State.{shown};
ghost use Rattle.zic_lines.specs.Limits.{is_abbreviation, IsWithinLimits};
ghost use Rattle.zic_files.specs.Fit.{AreWithinLimits, HasStateOutside, IsFit};
ghost use Rattle.zic_files.specs.code.Unfit.{IsUnfitContent};

use crate::image::Unfit;
use zic_base::{LONGEST_ABBREVIATION, SHORTEST_ABBREVIATION, State, are_abbreviation_bytes};
use zic_lines::GREATEST_OFFSET;
use zic_tzif::Zone;

/// Returns whether a name is an abbreviation: 3 to 16 ASCII letters, digits, `+` and `-`.
fn is_abbreviation(name: &[u8]) -> bool
    ensures { result ≡ is_abbreviation name.now }
{
    name.len() >= SHORTEST_ABBREVIATION
        && name.len() <= LONGEST_ABBREVIATION
        && are_abbreviation_bytes(name)
}

/// Returns whether a state is within the limits of rows.
fn is_within_limits(state: &State<'_>) -> bool
    ensures { Decides result (IsWithinLimits (shown state.now)) }
{
    state.offset.unsigned_abs() <= GREATEST_OFFSET && is_abbreviation(state.name)
}

/// Returns whether each state of a zone is within the limits of rows.
fn are_within_limits(zone: &Zone) -> bool
    ensures { MatchBool result (AreWithinLimits zone.now) (HasStateOutside zone.now) }
{
    for number in 0..zone.state_count() {
        if !is_within_limits(&zone.state(number)) {
            return false;
        }
    }
    true
}

/// Checks that rows can be made of a zone.
///
/// # Errors
///
/// `NoFooter` or `OutsideLimits`.
pub(crate) fn check_fit(zone: &Zone) -> Result<(), Unfit>
    ensures { MatchResult result (λ _. IsFit zone.now) (IsUnfitContent zone.now) }
{
    if zone.footer_text().is_empty() {
        return Err(Unfit::NoFooter);
    }
    if !are_within_limits(zone) {
        return Err(Unfit::OutsideLimits);
    }
    Ok(())
}
