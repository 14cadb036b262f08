//! States, numbered by first use.

ghost use Rattle.std.specs.Prelude.{◌≡◌, ◌<◌, ◌≤◌, [], ◌∷◌, length, map, IfOk};
ghost use Rattle.std.specs.Option.{MatchOption};
ghost use Rattle.zic_base.specs.State.{shown};
ghost use Rattle.zic_table.specs.ContentOf.{same_state};
ghost use Rattle.zic_table.specs.code.Firsts.{with_new, IsNumbered};

use std::alloc::{AllocError, Global};
use std::collections::HashMap;
use std::marker::Model;
use zic_base::State;
use zic_tzif::MAX_TYPES;

/// Different states, each with a number from 0 in the order in which they came. There are at most
/// as many as a table has local time types. Clauses see the states.
#[derive(Drop)]
pub(crate) struct Numbering<'a> {
    states: Vec<State<'a>>,
    numbers: HashMap<State<'a>, u8>,
}

impl<'a> Model for Numbering<'a> {
    ghost use Rattle.std.specs.Prelude.{List, map};
    ghost use Rattle.zic_base.specs.State.{Shown, shown};
    ghost use Rattle.zic_table.specs.code.Numbering.{AreNumbers};

    ghost Value = { List Shown };

    ghost view = { λ n. map shown n.states.items };

    ghost invariant = { λ n. AreNumbers (map shown n.states.items) n.numbers };
}

impl<'a> Numbering<'a> {
    /// Returns the numbering of one state.
    pub(crate) fn new(alloc: Global, first: State<'a>) -> Result<Self, AllocError>
        ensures { IfOk result (λ numbering. numbering ≡ shown first.entry ∷ []) }
    {
        let mut numbering = Numbering {
            states: Vec::new(alloc),
            numbers: HashMap::new(alloc),
        };
        numbering.number(first)?;
        Ok(numbering)
    }

    /// Returns the number of a state, which is the next one if the state didn't come before, or
    /// `None` where that would be one too many.
    pub(crate) fn number(&mut self, state: State<'a>) -> Result<Option<u8>, AllocError>
        ensures { IfOk result (λ found. MatchOption found
            (MAX_TYPES < length (with_new same_state self.old (shown state.entry)))
            (IsNumbered self.old self.new (shown state.entry))) }
    {
        if let Some(number) = self.numbers.get(&state) {
            return Ok(Some(*number));
        }
        let count = self.states.len();
        let is_full = count >= MAX_TYPES;
        if is_full {
            return Ok(None);
        }
        let number = count as u8;
        self.states.reserve(1)?;
        self.numbers.insert(state, number)?;
        self.states.push(state)?;
        Ok(Some(number))
    }

    /// Returns the states, in the order of their numbers.
    pub(crate) fn states(&self) -> &[State<'a>]
        ensures states { map shown result.now ≡ self.now }
        ensures fit { length self.now ≤ MAX_TYPES }
    {
        &self.states
    }
}
