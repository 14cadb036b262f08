//! Total offsets beyond 24 hours.

use crate::cause::Cause;
use std::alloc::{AllocError, Global};
use zic_lines::{GREATEST_OFFSET, Rule, Rules, SetName, ZoneLine};
use zic_source::Source;

/// Returns a line whose standard offset passes 24 hours together with a saving of its RULES, and
/// the rule that has the saving.
pub(crate) fn offset_cause(
    alloc: Global,
    source: &Source,
    line: &ZoneLine,
) -> Result<Option<Cause>, AllocError> {
    match &line.rules {
        Rules::Amount(saving) if passes(line.offset, saving.seconds) => {
            Cause::at(alloc, &[line.place])
        }
        Rules::Set(set) => match rule_past(source, set, line.offset) {
            Some(rule) => Cause::at(alloc, &[line.place, rule.place]),
            None => Ok(None),
        },
        Rules::Standard | Rules::Amount(_) => Ok(None),
    }
}

/// Returns the first rule of a set whose saving passes 24 hours together with a standard offset.
fn rule_past<'a>(source: &'a Source, set: &SetName, offset: i32) -> Option<&'a Rule> {
    for number in source.set_rules(set) {
        let rule = source.rule(*number);
        if passes(offset, rule.saving.seconds) {
            return Some(rule);
        }
    }
    None
}

/// Returns whether an offset and a saving together pass 24 hours either way.
fn passes(offset: i32, saving: i32) -> bool {
    offset.saturating_add(saving).unsigned_abs() > GREATEST_OFFSET
}
