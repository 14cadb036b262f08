//! How work is cut and shared.

ghost use Rattle.std.specs.Prelude.{◌≡◌, ◌↔◌, IsTrue, IsSome, IfSome};
ghost use Rattle.std.specs.Int.{IsInRange};
ghost use Rattle.zic_layouts.specs.Plan.{IsPlan, limits};

use std::marker::Model;

/// The greatest number of workers.
pub const MAX_WORKERS: u64 = 64;

/// The greatest number of zones, or of rows, in a piece.
pub const MAX_OF_PIECE: u64 = 65_536;

/// The greatest limit on the rows of a column.
pub const MAX_ROWS: u64 = 100_000_000;

/// The greatest limit on the bytes of a column.
pub const MAX_BYTES: u64 = 4_294_967_296;

/// The number of workers, the numbers of zones and of rows in a piece of work, and the numbers of
/// rows and bytes that a column may have.
///
/// No answer depends on the workers or the pieces.
#[derive(Clone, Debug, Drop)]
pub struct Plan {
    workers: u64,
    zone_piece: u64,
    row_piece: u64,
    max_rows: u64,
    max_bytes: u64,
}

impl Model for Plan {
    ghost use Rattle.zic_layouts.specs.Plan.{Limits, IsPlan, limits};

    ghost Value = { Limits };

    ghost view = { λ p. limits p.workers p.zone_piece p.row_piece p.max_rows p.max_bytes };

    ghost invariant = { λ p.
        IsPlan (limits p.workers p.zone_piece p.row_piece p.max_rows p.max_bytes) };
}

impl Plan {
    /// Returns the plan of these numbers, or `None` where one is above its limit, or where there
    /// would be no worker or an empty piece.
    pub fn new(
        workers: u64,
        zone_piece: u64,
        row_piece: u64,
        max_rows: u64,
        max_bytes: u64,
    ) -> Option<Plan>
        ensures just { IsSome result
            ↔ IsPlan (limits workers zone_piece row_piece max_rows max_bytes) }
        ensures plan { IfSome result
            (λ plan. plan ≡ limits workers zone_piece row_piece max_rows max_bytes) }
    {
        let shared = is_count(workers, MAX_WORKERS);
        let cut = is_count(zone_piece, MAX_OF_PIECE) && is_count(row_piece, MAX_OF_PIECE);
        if shared && cut && max_rows <= MAX_ROWS && max_bytes <= MAX_BYTES {
            Some(Plan {
                workers,
                zone_piece,
                row_piece,
                max_rows,
                max_bytes,
            })
        } else {
            None
        }
    }

    /// Returns the number of workers, 1 to 64.
    pub fn workers(&self) -> u64
        ensures workers { result ≡ self.now.workers }
        ensures plan { IsPlan self.now }
    {
        self.workers
    }

    /// Returns the number of zones in a piece, 1 to 65,536.
    pub fn zone_piece(&self) -> u64
        ensures size { result ≡ self.now.zone_piece }
        ensures plan { IsPlan self.now }
    {
        self.zone_piece
    }

    /// Returns the number of rows in a piece, 1 to 65,536.
    pub fn row_piece(&self) -> u64
        ensures size { result ≡ self.now.row_piece }
        ensures plan { IsPlan self.now }
    {
        self.row_piece
    }

    /// Returns the number of rows that a column may have, at most 100,000,000.
    pub fn max_rows(&self) -> u64
        ensures rows { result ≡ self.now.max_rows }
        ensures plan { IsPlan self.now }
    {
        self.max_rows
    }

    /// Returns the number of bytes that a column may have, at most 4,294,967,296.
    pub fn max_bytes(&self) -> u64
        ensures bytes { result ≡ self.now.max_bytes }
        ensures plan { IsPlan self.now }
    {
        self.max_bytes
    }
}

/// Returns whether the number is at least one, and no more than the limit.
fn is_count(number: u64, most: u64) -> bool
    ensures { IsTrue result ↔ IsInRange 1 most number }
{
    1 <= number && number <= most
}
