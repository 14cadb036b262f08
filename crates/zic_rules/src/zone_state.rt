//! States of a zone that keep their abbreviations.

ghost use Rattle.std.specs.Prelude.{◌≡◌, true, IfOk, IfErr};
ghost use Rattle.zic_source.specs.Sound.{IsSoundLine};
ghost use Rattle.zic_lines.specs.Limits.{is_abbreviation};
ghost use Rattle.zic_states.specs.InForce.{IsRuleOf};
ghost use Rattle.zic_base.specs.State.{shown};
ghost use Rattle.zic_rules.specs.code.Shown.{shown_by, IsShownBy, IsInRangeOn, IsRefusedBy};

use zic_base::{Kind, State};
use zic_source::{Source, ZoneLine};
use zic_states::format::abbreviation;
use zic_states::{Abbreviation, observance_by};

/// The state that a zone shows at an instant.
#[derive(Clone, Copy, PartialEq, Eq)]
pub(crate) struct ZoneState {
    /// Total UT offset in seconds, positive east.
    pub(crate) offset: i32,
    /// Whether this is daylight saving time.
    pub(crate) daylight: bool,
    pub(crate) name: Abbreviation,
}

/// Returns the state, with its abbreviation borrowed.
pub(crate) fn state_of(state: &ZoneState) -> State<'_>
    ensures { shown result ≡ shown_by state.now }
{
    State {
        offset: state.offset,
        daylight: state.daylight,
        name: state.name.octets(),
    }
}

/// Returns what a line shows by this rule, or before all occurrences of its set.
pub(crate) fn state_by(
    source: &Source,
    line: &ZoneLine,
    rule: Option<u16>,
) -> Result<ZoneState, Kind>
    requires line { IsSoundLine source.now.rules line.now }
    requires rule { IsRuleOf source.now.rules line.now.rules rule }
    requires offset { IsInRangeOn source.now.rules line.now }
    ensures ok { IfOk result (λ s. IsShownBy source.now.rules line.now rule (shown_by s)) }
    ensures within { IfOk result (λ s. is_abbreviation s.name ≡ true) }
    ensures err { IfErr result (IsRefusedBy source.now.rules line.now rule) }
{
    let in_force = observance_by(source, line, rule);
    let offset = line.offset + in_force.saving;
    let name = abbreviation(&line.format, offset, in_force.daylight, in_force.letter)?;
    Ok(ZoneState {
        offset,
        daylight: in_force.daylight,
        name,
    })
}
