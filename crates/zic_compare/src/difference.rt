//! The spans at which each of two files gives one answer, and the two differ, found span by span.

ghost use Rattle.std.specs.Prelude.{◌≡◌, ◌≤ℤ◌, ◌↔◌, IsTrue, IfOk, OnOk, ℤ};
ghost use Rattle.zic_compare.specs.Answers.{pair};
ghost use Rattle.zic_compare.specs.Differences.{AreDifferences, HasAnswersAt};
ghost use Rattle.zic_compare.specs.code.Run.{Closes, HasAnswersOf, up_to};
ghost use Rattle.zic_posix.specs.Instants.{Includes};

use crate::sides::{are_same, seen};
use std::alloc::{AllocError, Global};
use zic_layouts::Compared;
use zic_tzif::{Answer, Instants, Zone};

/// Instants, and what two files answer at each of them, as far as it is compared.
#[derive(Clone, Copy, Debug)]
pub struct Difference<'a> {
    pub instants: Instants,
    /// What the old file answers.
    pub old: Answer<'a>,
    /// What the new file answers.
    pub new: Answer<'a>,
}

/// Returns the longest spans within the bounds at which each of two files gives one answer, and the
/// two differ, in order. What isn't compared is blank in the answers of a span: the daylight flag is 0, the abbreviation empty.
pub fn differences<'a>(
    alloc: Global,
    old: &'a Zone,
    new: &'a Zone,
    compared: Compared,
    bounds: Instants,
) -> Result<Vec<Difference<'a>>, AllocError>
    requires { bounds.first ≤ℤ bounds.last }
    ensures { IfOk result
        (λ found. AreDifferences (pair old.now new.now compared) bounds found.items) }
{
    let mut found = Vec::new(alloc);
    let mut run = span(old, new, compared, bounds.first);
    while run.instants.last < bounds.last {
        let next = span(old, new, compared, run.instants.last + 1);
        if have_same_answers(&run, &next) {
            run = up_to(run, next.instants.last);
        } else {
            close(&mut found, run)?;
            run = next;
        }
    }
    close(&mut found, up_to(run, bounds.last))?;
    Ok(found)
}

/// Returns what two files answer at an instant and on from there, as long as neither changes.
fn span<'a>(old: &'a Zone, new: &'a Zone, compared: Compared, at: i64) -> Difference<'a>
    ensures first { result.instants.first ≡ at }
    ensures last { at ≤ℤ result.instants.last }
    ensures throughout { (t : ℤ) → Includes result.instants t
        → HasAnswersAt (pair old.now new.now compared) result t }
{
    let one = old.span(at);
    let other = new.span(at);
    Difference {
        instants: Instants {
            first: at,
            last: one.instants.last.min(other.instants.last),
        },
        old: seen(compared, one.answer),
        new: seen(compared, other.answer),
    }
}

/// Returns the span with its last instant at another.
fn up_to<'a>(span: Difference<'a>, last: i64) -> Difference<'a>
    ensures { result ≡ up_to span.entry last }
{
    Difference {
        instants: Instants {
            first: span.instants.first,
            last,
        },
        old: span.old,
        new: span.new,
    }
}

/// Returns whether two spans have the same two answers.
fn have_same_answers(one: &Difference<'_>, other: &Difference<'_>) -> bool
    ensures { IsTrue result ↔ HasAnswersOf one.now other.now }
{
    are_same(&one.old, &other.old) && are_same(&one.new, &other.new)
}

/// Adds a span whose two answers differ.
fn close<'a>(found: &mut Vec<Difference<'a>>, span: Difference<'a>) -> Result<(), AllocError>
    ensures { OnOk result (Closes span.entry found.old.items found.new.items) }
{
    if !are_same(&span.old, &span.new) {
        found.push(span)?;
    }
    Ok(())
}
