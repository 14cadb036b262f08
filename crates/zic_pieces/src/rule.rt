//! The rule of the two shared words, and the steps on them.

use crate::pass::Known;
use atomic_table::{Join, Play, Split, TableRule};

/// The word from which numbers are drawn.
pub(crate) const NEXT: usize = 0;

/// The word that holds the least number reported.
pub(crate) const FAULT: usize = 1;

/// The words and the passes show a state of the core. The key is the number of pieces.
pub struct Core;

impl TableRule<(), Known, u64> for Core {
    ghost use Rattle.zic_pieces.specs.Core.{first as first_pass};
    ghost use Rattle.zic_pieces.specs.code.Rule.{Shows};

    ghost holds = { Shows };

    ghost first = { first_pass };
}

pub(crate) struct Draw;

impl Play<(), Known> for Draw {
    ghost use Rattle.zic_pieces.specs.code.Rule.{Drawn};

    ghost then = { Drawn };
}

pub(crate) struct Report;

impl Play<(), Known> for Report {
    ghost use Rattle.zic_pieces.specs.code.Rule.{Notified};

    ghost then = { Notified };
}

pub(crate) struct Glance;

impl Play<(), Known> for Glance {
    ghost use Rattle.zic_pieces.specs.code.Rule.{Looked};

    ghost then = { Looked };
}

pub(crate) struct Learn;

impl Play<(), Known> for Learn {
    ghost use Rattle.zic_pieces.specs.code.Rule.{Learned};

    ghost then = { Learned };
}

pub(crate) struct Part;

impl Split<Known> for Part {
    ghost use Rattle.zic_pieces.specs.Core.{left as old_pass, right as new_pass};

    ghost left = { old_pass };

    ghost right = { new_pass };
}

impl Join<Known> for Part {
    ghost use Rattle.zic_pieces.specs.Core.{both as one_pass, spent as no_pass};

    ghost both = { one_pass };

    ghost spent = { no_pass };
}
