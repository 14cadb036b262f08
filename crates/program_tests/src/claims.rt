//! Claims, by an example worked by hand. If a growth of memory is refused, as
//! `tests/faults/refusals.sh` does, the claims are made again.

ghost use Rattle.std.specs.Prelude.{◌≡◌, ◌+◌, ◌<◌, ◌≤◌};
ghost use Rattle.zic_pieces.specs.Passes.{IsOf};

use crate::samples::expect;
use std::alloc::Global;
use std::process::Abort;
use zic_pieces::{Claim, Claims, Pass, Settled, Split};

/// Returns claims on this number of pieces, and their first pass. Tries twice, since one growth may be
/// refused in a test.
fn new_claims(rt: &impl Abort, alloc: Global, pieces: u64) -> (Claims, Pass)
    requires { pieces ≤ 4294967296 }
    ensures pieces { result.0.pieces ≡ pieces }
    ensures pass { IsOf result.0 result.1 }
    ensures parts { result.1.known.parts ≡ 1024 }
{
    if let Ok(made) = Claims::new(alloc, pieces) {
        return made;
    }
    match Claims::new(alloc, pieces) {
        Ok(made) => made,
        Err(_) => panic!(rt; "no memory"),
    }
}

/// Cuts a pass that has room in two.
fn cut(rt: &impl Abort, claims: &Claims, pass: Pass) -> (Pass, Pass)
    requires { IsOf claims.now pass }
    ensures first { IsOf claims.now result.0 }
    ensures second { IsOf claims.now result.1 }
    ensures parts { result.0.known.parts + result.1.known.parts ≡ pass.known.parts }
{
    match claims.split(pass) {
        Split::Two(first, second) => (first, second),
        Split::Full(_) => panic!(rt; "a pass has room"),
    }
}

/// Ends the test where a pass claims otherwise.
fn expect_claim(rt: &impl Abort, claims: &Claims, pass: &mut Pass, want: Claim, what: &str)
    requires { IsOf claims.now pass.old }
    ensures pass { IsOf claims.now pass.new }
    ensures parts { pass.new.known.parts ≡ pass.old.known.parts }
{
    expect(rt, claims.claim(pass) == want, what);
}

/// Ends the test where a pass sees another report than that of the first piece.
fn expect_report(rt: &impl Abort, claims: &Claims, pass: &mut Pass, what: &str)
    requires { IsOf claims.now pass.old }
    ensures pass { IsOf claims.now pass.new }
    ensures parts { pass.new.known.parts ≡ pass.old.known.parts }
{
    expect(rt, claims.glance(pass) == 0, what);
}

/// Claims a piece by each of two passes. The first reports its piece.
fn two_claim_and_one_reports(rt: &impl Abort, claims: &Claims, p: &mut Pass, q: &mut Pass)
    requires first { IsOf claims.now p.old }
    requires second { IsOf claims.now q.old }
    requires piece { 0 < claims.now.pieces }
    ensures first { IsOf claims.now p.new }
    ensures second { IsOf claims.now q.new }
    ensures parts { (p.new.known.parts ≡ p.old.known.parts) × (q.new.known.parts ≡ q.old.known.parts) }
{
    expect_claim(rt, claims, p, Claim::Do(0), "the first piece");
    expect_claim(rt, claims, q, Claim::Do(1), "the second piece");
    claims.report(p, 0);
}

/// Claims three pieces by three passes, of which one reports the first piece and the others see it.
fn three_passes_share_three_pieces(rt: &impl Abort, alloc: Global) {
    let (claims, first) = new_claims(rt, alloc, 3);
    let (first, mut q) = cut(rt, &claims, first);
    let (mut p, mut last) = cut(rt, &claims, first);
    two_claim_and_one_reports(rt, &claims, &mut p, &mut q);
    expect_claim(rt, &claims, &mut q, Claim::Skip(2), "the third piece");
    expect_report(rt, &claims, &mut q, "what the second pass sees");
    expect_report(rt, &claims, &mut last, "what the third pass sees");
    expect_claim(rt, &claims, &mut p, Claim::End, "the end");
    expect_claim(rt, &claims, &mut p, Claim::End, "the end again");
    expect_claim(rt, &claims, &mut last, Claim::End, "the end for all");
    let given = p.given() == 1 && q.given() == 1 && last.given() == 0;
    expect(rt, p.ended() && given, "what was given");
    let two = claims.join(p, q);
    let all = claims.join(last, two);
    expect(rt, all.room() == 1023, "the room of all");
    let want = Settled {
        least: 0,
        given: 2,
        ended: true,
    };
    expect(rt, claims.settle(all) == want, "the work of all");
}

#[test]
fn a_pass_sees_the_report_of_another(rt: HostRuntime) {
    three_passes_share_three_pieces(&rt, rt.alloc());
}
