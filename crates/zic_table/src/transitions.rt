//! The transitions of a zone.

ghost use Rattle.std.specs.Prelude.{◌≡◌, IfOk};
ghost use Rattle.zic_base.specs.Fault.{kind_of};
ghost use Rattle.zic_base.specs.Memory.{IfRefusal};
ghost use Rattle.zic_base.specs.State.{shown};
ghost use Rattle.zic_states.specs.Change.{IsFirstState};
ghost use Rattle.zic_rules.specs.Timeline.{IsWholeZone};
ghost use Rattle.zic_table.specs.code.Transitions.{AreTransitions, HasManyTypes};

use crate::numbering::Numbering;
use std::alloc::Global;
use zic_base::{Kind, State, ZoneStop};
use zic_rules::Timeline;
use zic_tzif::Change;

/// Transitions, and the states that the numbers of their types stand for.
#[derive(Drop)]
pub(crate) struct Numbered<'a> {
    pub(crate) changes: Vec<Change>,
    pub(crate) numbering: Numbering<'a>,
}

/// Returns the transitions of a zone with this first state, or `TooManyTypes` where they have more
/// types than a table.
pub(crate) fn transitions<'a>(
    alloc: Global,
    t: &'a Timeline<'_>,
    first: State<'a>,
) -> Result<Numbered<'a>, ZoneStop>
    requires whole { IsWholeZone t.now }
    requires first { IsFirstState t.now (shown first) }
    ensures ok { IfOk result (λ made. AreTransitions t.now made.numbering made.changes.items) }
    ensures err { IfRefusal kind_of result
        (λ kind. (kind ≡ Kind.TooManyTypes) × HasManyTypes t.now) }
{
    let mut numbering = Numbering::new(alloc, first)?;
    let count = t.len();
    let mut changes = Vec::with_capacity(alloc, count)?;
    for i in 0..count {
        let (instant, state) = t.change(i);
        let Some(number) = numbering.number(state)? else {
            return Err(ZoneStop::Fault(Kind::TooManyTypes));
        };
        changes.push(Change { instant, number })?;
    }
    Ok(Numbered { changes, numbering })
}
