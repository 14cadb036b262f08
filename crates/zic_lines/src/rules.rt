//! The RULES of a zone's line.

ghost use Rattle.std.specs.Prelude.{◌≡◌, OnOk, IfOk, IfErr, is_some, Some, None, true};
ghost use Rattle.zic_lines.specs.declared.entry.FieldFault.TheVariants.{At};
ghost use Rattle.zic_lines.specs.RulesField.{begins_amount, rules_of, rules_kind};

use crate::entry::FieldFault;
use crate::set_name::SetName;
use crate::time::{Saving, save};
use crate::word::is_dash;
use std::alloc::{AllocError, Global};
use zic_base::Kind;

/// The RULES of a Zone or continuation line (zic(8), RULES).
#[derive(Debug, Drop)]
pub enum Rules {
    /// `-`: standard time.
    Standard,
    /// This saving at every instant.
    Amount(Saving),
    /// The rules of this set.
    Set(SetName),
}

/// Returns whether the field begins as an amount does: with a digit, `-` or `+`.
fn begins_amount(field: &[u8]) -> bool
    ensures { result ≡ begins_amount field.now }
{
    match field.first() {
        None => false,
        Some(byte) => byte.is_ascii_digit() || *byte == b'-' || *byte == b'+',
    }
}

/// Returns the RULES that the field of this number is, or its fault.
#[tactic(auto, unfolding(crate::specs::RulesField::rules_of))]
pub(crate) fn parse_rules(
    alloc: Global,
    number: usize,
    field: &[u8],
) -> Result<Result<Rules, AllocError>, FieldFault>
    ensures ok { OnOk result (is_some (rules_of field.now) ≡ true) }
    ensures says { IfOk result (λ made. IfOk made (λ rules. rules_of field.now ≡ Some rules)) }
    ensures wrong { IfErr result (λ _. rules_of field.now ≡ None) }
    ensures fault { IfErr result (λ fault. fault ≡ At (rules_kind field.now) number) }
{
    if is_dash(field) {
        return Ok(Ok(Rules::Standard));
    }
    if begins_amount(field) {
        let saving = save(field).ok_or(FieldFault::At(Kind::Save, number))?;
        return Ok(Ok(Rules::Amount(saving)));
    }
    let name = SetName::parse(alloc, field).ok_or(FieldFault::At(Kind::Name, number))?;
    Ok(name.map(Rules::Set))
}
