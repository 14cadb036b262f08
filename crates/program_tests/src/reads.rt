//! When columns are read, and how often. Which records they have is in tests/program/records.txt and
//! tests/outside/columns.sh.

use crate::samples::{Device, expect, must};
use std::alloc::Global;
use std::io::ErrorKind;
use std::process::Abort;
use zic_columns::{Column, Taken, Unread};
use zic_layouts::{Delimiter, Notes, Records};

/// The greatest numbers of bytes that a read gives.
const STEPS: [usize; 6] = [1, 2, 3, 5, 8, 1000];

/// The records of a piece.
const PIECE: usize = 1_024;

/// Begins a column of at most `most` bytes.
fn begun<'a, 'b>(
    alloc: Global,
    device: &'a mut Device<'b>,
    most: u64,
) -> Result<Column<&'a mut Device<'b>>, Unread> {
    Column::new(
        alloc,
        device,
        most,
        Records::Csv,
        &Delimiter::comma(),
        Notes::Faults,
    )
}

/// Takes a round for which `wanted` bytes are wanted. Returns whether there was one, or `None` where
/// the column can't be read.
fn takes_round(alloc: Global, column: &mut Column<&mut Device<'_>>, wanted: usize) -> Option<bool> {
    let taken = column.next_round(alloc, wanted, PIECE, None);
    let is_round = match &taken {
        Ok(Taken::Round) => Some(true),
        Ok(Taken::End) => Some(false),
        _ => None,
    };
    drop(taken);
    is_round
}

/// Returns the number of rounds that are left of a column, or `None` where it can't be read.
fn count_rounds(alloc: Global, column: &mut Column<&mut Device<'_>>, wanted: usize) -> Option<u32> {
    for rounds in 0..1_000_000 {
        if !takes_round(alloc, column, wanted)? {
            return Some(rounds);
        }
    }
    None
}

/// Returns the number of rounds of a whole column, or `None` where it can't be read.
fn rounds_of(alloc: Global, device: &mut Device<'_>, most: u64, wanted: usize) -> Option<u32> {
    let mut column = begun(alloc, device, most).ok()?;
    let rounds = count_rounds(alloc, &mut column, wanted);
    drop(column);
    rounds
}

/// Returns a column of equal rows, of this many bytes and 3 more each.
fn rows_of(rt: &impl Abort, alloc: Global, count: u32, len: usize) -> Vec<u8> {
    let mut column = Vec::new(alloc);
    for _ in 0..count {
        must(rt, column.resize(column.len().saturating_add(len), b'a'));
        must(rt, column.extend_from_slice(b",0\n"));
    }
    column
}

/// The rows of a column and their bytes but for 3, the length of its reads, the bytes that are wanted,
/// and the rounds: what one read gave is a round, and a slow reader isn't waited for. The first read
/// asks for 65,536 bytes, and each other one for as many, or for four times as many as the last where
/// that gave all and more are wanted.
static ROUNDS: [((u32, usize), usize, usize, u32); 11] = [
    ((3, 1), 4, 1_000_000, 3),
    ((3, 1), 8, 1_000_000, 2),
    ((3, 1), 12, 1_000_000, 1),
    ((3, 1), 3, 1_000_000, 3),
    ((2_048, 61), 65_536, 131_072, 2),
    ((2_048, 61), 131_072, 65_536, 2),
    ((2_048, 61), 32_768, 131_072, 4),
    ((2_048, 61), 16_384, 65_536, 8),
    ((1_024, 1_021), 1_048_576, 1_048_576, 3),
    ((1_024, 1_021), 1_048_576, 262_144, 5),
    ((1_024, 1_021), 1_048_576, 65_536, 16),
];

#[test]
fn a_round_is_what_one_read_gave(rt: HostRuntime) {
    for ((count, len), step, wanted, want) in &ROUNDS {
        let column = rows_of(&rt, rt.alloc(), *count, *len);
        let mut device = Device::new(&column, *step, Ok(()));
        let rounds = rounds_of(rt.alloc(), &mut device, column.len() as u64, *wanted);
        expect(&rt, rounds == Some(*want), "the number of rounds");
    }
}

/// Columns, with a byte order mark and without, that end with a line end or not.
static COLUMNS: [&[u8]; 9] = [
    b"",
    b"\n",
    b"\xEF\xBB",
    b"\xEF\xBB\xBF",
    b"a,0\nb,1\nc,2",
    b"a,0\nb,1\n",
    b"\xEF\xBB\xBFa,0\n",
    b"\"a\",0\nb,1\n",
    b"\xEF\xBB\xBFa,0\r\n\nb,\"1\"\r\n",
];

/// Ends the test where a column isn't read to its end, in as few reads as give it and its end.
fn expect_whole(rt: &impl Abort, alloc: Global, column: &[u8], most: usize) {
    for step in STEPS {
        let mut device = Device::new(column, step, Ok(()));
        let rounds = rounds_of(alloc, &mut device, most as u64, 2);
        let reads = column.len().div_ceil(step.max(1)).saturating_add(1);
        expect(rt, rounds.is_some(), "a column that is read");
        expect(rt, device.reads() == reads, "the number of reads");
    }
}

#[test]
fn columns_are_read_once(rt: HostRuntime) {
    for column in &COLUMNS {
        expect_whole(&rt, rt.alloc(), *column, column.len());
        expect_whole(&rt, rt.alloc(), *column, 100);
    }
}

/// Ends the test where a column is read of which fewer bytes may be taken, or if it is read further than
/// one byte beyond these.
fn expect_too_long(rt: &impl Abort, alloc: Global, column: &[u8], step: usize) {
    for most in 0..column.len() {
        let mut device = Device::new(column, step, Ok(()));
        let rounds = rounds_of(alloc, &mut device, most as u64, 2);
        expect(rt, rounds.is_none(), "a column that is too long");
        let few = step > 1 || device.reads() == most + 1;
        expect(rt, few, "the reads of a column that is too long");
    }
}

#[test]
fn columns_are_read_up_to_their_limit(rt: HostRuntime) {
    for column in &COLUMNS {
        for step in [1, 5] {
            expect_too_long(&rt, rt.alloc(), *column, step);
        }
    }
}

/// Ends the test where a column is read whose reader fails after some of it.
fn expect_unread(rt: &impl Abort, alloc: Global, column: &[u8], kind: ErrorKind) {
    for len in 0..=column.len() {
        let mut device = Device::new(&column[..len], 2, Err(kind));
        let rounds = rounds_of(alloc, &mut device, 100, 2);
        expect(rt, rounds.is_none(), "a failed read");
    }
}

#[test]
fn a_failed_read_is_reported(rt: HostRuntime) {
    for column in &COLUMNS {
        expect_unread(&rt, rt.alloc(), *column, ErrorKind::Interrupted);
        expect_unread(&rt, rt.alloc(), *column, ErrorKind::Other);
    }
}

/// Columns, the lengths of their reads, and the number of reads that show whether there is a mark.
static FIRST_READS: [(&[u8], usize, usize); 9] = [
    (b"0\n", 2, 1),
    (b"a,0\nb,1\n", 1, 1),
    (b"\xEF,0\n", 1, 2),
    (b"\xEF\xBB,0\n", 1, 3),
    (b"\xEF\xBB,0\n", 2, 2),
    (b"\xEF\xBB\xBFa,0\n", 1, 3),
    (b"\xEF\xBB\xBFa,0\n", 2, 2),
    (b"\xEF\xBB\xBFa,0\n", 3, 1),
    (b"\xEF\xBB\xBF", 3, 1),
];

#[test]
fn first_reads_show_a_mark(rt: HostRuntime) {
    for (column, step, want) in &FIRST_READS {
        let mut device = Device::new(*column, *step, Ok(()));
        let is_begun = begun(rt.alloc(), &mut device, 100).is_ok();
        expect(&rt, is_begun && device.reads() == *want, "the first reads");
    }
}
