//! Sources, files and readers of the tests, and the calls and checks that many tests make, each in
//! a function of its own: the check of a test takes in each way in which a call of it can end, with
//! all that is dropped there, and the text of each message.

ghost use Rattle.std.specs.Prelude.{◌≡◌, true};

use std::alloc::Global;
use std::io::{self, ErrorKind, Read};
use std::process::Abort;
use std::sync::atomic::{AtomicU64, Ordering};
use std::thread;
use zic_pieces::Gate;

/// Returns what was made.
pub fn must<T, E: Drop>(rt: &impl Abort, made: Result<T, E>) -> T {
    match made {
        Ok(value) => value,
        Err(_) => panic!(rt; "it was not made"),
    }
}

/// Ends the test where something is not so.
pub fn expect(rt: &impl Abort, is_so: bool, what: &str)
    ensures { is_so ≡ true }
{
    assert!(rt; is_so, "{what}");
}

/// Ends the test where a text is not as it should be.
pub fn expect_text(rt: &impl Abort, got: &[u8], want: &[u8], what: &str) {
    assert!(rt; got == want, "{what}: {got:?}");
}

/// Returns a copy of a text.
pub fn copy_of(rt: &impl Abort, alloc: Global, text: &str) -> Vec<u8> {
    must(rt, Vec::from_slice(alloc, text.as_bytes()))
}

/// Returns the words of a text.
pub fn words_of(rt: &impl Abort, alloc: Global, text: &str) -> Vec<String> {
    let mut words = Vec::new(alloc);
    for word in text.split_whitespace() {
        must(rt, words.push(must(rt, String::from_str(alloc, word))));
    }
    words
}

/// A reader that gives at most `step` bytes of a text at a time. At its end it may fail once. Then it
/// ends, and fails where it is read again: a terminal would ask for more.
#[derive(Drop)]
pub struct Device<'a> {
    rest: &'a [u8],
    step: usize,
    end: Result<(), ErrorKind>,
    reads: usize,
}

impl<'a> Device<'a> {
    /// Makes a reader of a text.
    pub fn new(rest: &'a [u8], step: usize, end: Result<(), ErrorKind>) -> Device<'a> {
        Device {
            rest,
            step,
            end,
            reads: 0,
        }
    }

    /// Returns the number of reads.
    pub fn reads(&self) -> usize {
        self.reads
    }
}

impl Read for Device<'_> {
    fn read(&mut self, buf: &mut [u8]) -> io::Result<usize> {
        self.reads = self.reads.saturating_add(1);
        if self.rest.is_empty() {
            let Err(kind) = self.end else {
                self.end = Err(ErrorKind::Other);
                return Ok(0);
            };
            self.end = Ok(());
            return Err(io::Error::from(kind));
        }
        let n = self.step.min(self.rest.len()).min(buf.len());
        let (given, rest) = self.rest.split_at(n);
        buf[..n].copy_from_slice(given);
        self.rest = rest;
        Ok(n)
    }
}

/// How long a piece waits for another, in turns.
const MAX_TURNS: u64 = 1_000_000;

/// Waits until the flag is set. Returns `false` if that takes too long.
pub fn wait_for(flag: &AtomicU64) -> bool {
    for _ in 0..MAX_TURNS {
        if flag.load(Ordering::SeqCst) == 1 {
            return true;
        }
        thread::yield_now();
    }
    false
}

/// Holds piece 0 until piece 1 has entered.
#[derive(Drop)]
pub struct Hold {
    one_entered: AtomicU64,
    late: AtomicU64,
}

impl Hold {
    /// Makes a gate that no piece has entered.
    pub fn new() -> Hold {
        Hold {
            one_entered: AtomicU64::new(0),
            late: AtomicU64::new(0),
        }
    }

    /// Returns whether piece 0 waited too long.
    pub fn is_late(&self) -> bool {
        self.late.load(Ordering::SeqCst) != 0
    }
}

impl Gate for Hold {
    fn enter(&self, i: u64) {
        if i == 1 {
            self.one_entered.store(1, Ordering::SeqCst);
        } else if !wait_for(&self.one_entered) {
            self.late.store(1, Ordering::SeqCst);
        }
    }
}

/// Counts how often pieces enter: each of the pieces 0 to 3 in a digit of its own to the base 1,000, and
/// the others.
#[derive(Drop)]
pub struct Counter {
    first: AtomicU64,
    others: AtomicU64,
}

/// The values of the digits.
const DIGITS: [u64; 4] = [1, 1_000, 1_000_000, 1_000_000_000];

impl Counter {
    /// Makes a gate that no piece has entered.
    pub fn new() -> Counter {
        Counter {
            first: AtomicU64::new(0),
            others: AtomicU64::new(0),
        }
    }

    /// Returns the digits of the first pieces.
    pub fn first(&self) -> u64 {
        self.first.load(Ordering::SeqCst)
    }

    /// Returns how often other pieces entered.
    pub fn others(&self) -> u64 {
        self.others.load(Ordering::SeqCst)
    }
}

impl Gate for Counter {
    fn enter(&self, i: u64) {
        if i < 4 {
            self.first.fetch_add(DIGITS[i as usize], Ordering::SeqCst);
        } else {
            self.others.fetch_add(1, Ordering::SeqCst);
        }
    }
}
