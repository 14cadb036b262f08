//! Ends of the chains of links.

ghost use Rattle.std.specs.Prelude.{◌≡◌, ◌<◌, ℕ, Contains, length, [], IfOk, OnOk};
ghost use Rattle.zic_source.specs.code.Lines.{source_lines};
ghost use Rattle.zic_source.specs.code.Owners.{IndexesNames};
ghost use Rattle.zic_source.specs.code.Chains.{ChainEnds, IsFound, HasEnd, AreRight, DifferOn};

use crate::entries::Entries;
use crate::owners::{Owner, Owners};
use std::alloc::{AllocError, Global};

/// The end of a link's chain.
#[derive(Clone, Copy)]
pub(crate) enum End {
    /// The zone of this number.
    Zone(usize),
    /// A name that isn't there.
    Nowhere,
    /// The chain has no end.
    Never,
}

/// Follows the chain from this link until an end is known, and returns that. Puts the links on the
/// way on the path and marks them as without an end, which is right of a chain that comes back to
/// one of them.
fn follow(
    lines: &Entries,
    names: &Owners,
    ends: &mut [Option<End>],
    path: &mut Vec<usize>,
    start: usize,
) -> Result<End, AllocError>
    requires names { IndexesNames names.now (source_lines lines.now) }
    requires long { length ends.old ≡ length lines.now.links.items }
    requires start { start < length lines.now.links.items }
    requires right { AreRight (source_lines lines.now) ends.old }
    requires empty { path.old.items ≡ [] }
    ensures within { OnOk result
        ((i : ℕ) → Contains path.new.items i → i < length lines.now.links.items) }
    ensures right { IfOk result
        (λ end. (i : ℕ) → Contains path.new.items i → ChainEnds (source_lines lines.now) i end) }
    ensures others { OnOk result (DifferOn path.new.items ends.old ends.new) }
    ensures found { OnOk result (HasEnd ends.new start) }
{
    let mut link = start;
    loop {
        if let Some(end) = ends[link] {
            return Ok(end);
        }
        ends[link] = Some(End::Never);
        path.push(link)?;
        match names.get(&lines.links[link].target) {
            None => return Ok(End::Nowhere),
            Some(Owner::Zone(zone)) => return Ok(End::Zone(zone)),
            Some(Owner::Link(next)) => link = next,
        }
    }
}

/// Writes this end to the links on the path, whatever they had.
fn give(ends: &mut [Option<End>], path: &[usize], end: End)
    requires { (i : ℕ) → Contains path.now i → i < length ends.old }
    ensures given { (i : ℕ) → Contains path.now i → IsFound ends.new i end }
    ensures others { DifferOn path.now ends.old ends.new }
{
    for link in path {
        ends[*link] = Some(end);
    }
}

/// Finds the end of this link's chain, which is that of all links on the way.
fn settle(
    alloc: Global,
    lines: &Entries,
    names: &Owners,
    ends: &mut [Option<End>],
    link: usize,
) -> Result<(), AllocError>
    requires names { IndexesNames names.now (source_lines lines.now) }
    requires long { length ends.old ≡ length lines.now.links.items }
    requires link { link < length lines.now.links.items }
    requires right { AreRight (source_lines lines.now) ends.old }
    ensures right { OnOk result (AreRight (source_lines lines.now) ends.new) }
    ensures found { OnOk result (HasEnd ends.new link) }
    ensures unchanged { OnOk result ((i : ℕ) → HasEnd ends.old i → HasEnd ends.new i) }
{
    let mut path = Vec::new(alloc);
    let end = follow(lines, names, ends, &mut path, link)?;
    give(ends, &path, end);
    Ok(())
}

/// Returns the end of each link's chain, in time linear in the number of links.
pub(crate) fn chain_ends(
    alloc: Global,
    lines: &Entries,
    names: &Owners,
) -> Result<Vec<Option<End>>, AllocError>
    requires { IndexesNames names.now (source_lines lines.now) }
    ensures long { IfOk result (λ ends. length ends.items ≡ length lines.now.links.items) }
    ensures found { IfOk result (λ ends. (i : ℕ) → i < length ends.items → HasEnd ends.items i) }
    ensures right { IfOk result (λ ends. AreRight (source_lines lines.now) ends.items) }
{
    let mut ends = vec![in alloc; None; lines.links.len()]?;
    for link in 0..lines.links.len() {
        settle(alloc, lines, names, &mut ends, link)?;
    }
    Ok(ends)
}
