//! Columns of instants, and the rows that were made.

ghost use Rattle.std.specs.Prelude.{◌≡◌, ◌<◌, length, All};
ghost use Rattle.std.specs.List.{AllZip};
ghost use Rattle.zic_posix.specs.Instants.{Includes};
ghost use Rattle.zic_tzif.specs.Content.{Content};
ghost use Rattle.pzic_zones.specs.Column.{IsOffsetAt, AreFlagsAt};
ghost use Rattle.pzic_zones.specs.code.Cached.{IsCached};

use zic_tzif::{Answer, Instants, Zone};

/// The flag of daylight saving time.
const DAYLIGHT: u8 = 1;
/// The flag of local time that is left open.
const OPEN: u8 = 2;

/// Columns with fewer instants keep one answer alone.
const FEW: usize = 4096;
/// The number of answers that are cached for a longer column.
const SLOTS: usize = 1024;
/// The time of a slot has 2 to the power of this many seconds, 48 days.
const SLOT_BITS: u32 = 22;
/// The time of all slots, in seconds: 136 years. A slot also stands for the times as long before and
/// after.
const ROUND: i64 = 4_294_967_296;

/// What a zone says at some instants, in two numbers.
#[derive(Clone, Copy)]
struct Cached {
    instants: Instants,
    offset: i32,
    flags: u8,
}

/// What is cached before the first answer: of no instant.
const NOTHING: Cached = Cached {
    instants: Instants { first: 0, last: -1 },
    offset: 0,
    flags: 0,
};

/// Returns what a zone says at an instant, and the instants round it at which it says that.
#[inline(never)]
fn cached_round(zone: &Zone, t: i64) -> Cached
    ensures requested { Includes result.instants t }
    ensures cached { IsCached zone.now result }
{
    let span = zone.span(t);
    let instants = span.instants;
    match span.answer {
        Answer::Known(state) => Cached {
            instants,
            offset: state.offset,
            flags: if state.daylight { DAYLIGHT } else { 0 },
        },
        Answer::Unspecified => Cached {
            instants,
            offset: 0,
            flags: OPEN,
        },
    }
}

/// Looks up what a zone says at an instant, and caches it in a slot.
fn renew(zone: &Zone, cached: &mut [Cached], slot: usize, t: i64) -> Cached
    requires slot { slot < length cached.old }
    requires all { All (IsCached zone.now) cached.old }
    ensures all { All (IsCached zone.now) cached.new }
    ensures requested { Includes result.instants t }
    ensures cached { IsCached zone.now result }
{
    let made = cached_round(zone, t);
    cached[slot] = made;
    made
}

/// Returns what a zone says at an instant. It is looked up only where the slot of the instant's
/// time doesn't have it.
fn look_up(zone: &Zone, cached: &mut [Cached], t: i64) -> Cached
    requires { All (IsCached zone.now) cached.old }
    ensures all { All (IsCached zone.now) cached.new }
    ensures requested { Includes result.instants t }
    ensures cached { IsCached zone.now result }
{
    let slot = (t.rem_euclid(ROUND) >> SLOT_BITS) as usize;
    if slot >= cached.len() {
        return cached_round(zone, t);
    }
    if cached[slot].instants.contains(t) {
        return cached[slot];
    }
    renew(zone, cached, slot, t)
}

/// Returns what a zone says at an instant, where `last` is what it said at the one before.
#[inline(always)]
fn next(zone: &Zone, cached: &mut [Cached], last: Cached, t: i64) -> Cached
    requires all { All (IsCached zone.now) cached.old }
    requires last { IsCached zone.now last }
    ensures all { All (IsCached zone.now) cached.new }
    ensures requested { Includes result.instants t }
    ensures cached { IsCached zone.now result }
{
    if last.instants.contains(t) {
        last
    } else {
        look_up(zone, cached, t)
    }
}

/// Writes what a zone says at each instant, with room for cached answers.
#[inline(always)]
fn write_with(
    zone: &Zone,
    cached: &mut [Cached],
    instants: &[i64],
    offsets: &mut [i32],
    flags: &mut [u8],
)
    requires cached { All (IsCached zone.now) cached.old }
    requires offsets { length offsets.old ≡ length instants.now }
    requires flags { length flags.old ≡ length instants.now }
    ensures offsets { AllZip (IsOffsetAt zone.now) instants.now offsets.new }
    ensures flags { AllZip (AreFlagsAt zone.now) instants.now flags.new }
{
    let mut last = NOTHING;
    for i in 0..instants.len() {
        last = next(zone, cached, last, instants[i]);
        offsets[i] = last.offset;
        flags[i] = last.flags;
    }
}

/// Returns room for the answers of any zone. It holds no answer yet.
fn nothing_cached() -> [Cached; SLOTS]
    ensures { (content : Content) → All (IsCached content) result }
{
    [NOTHING; SLOTS]
}

/// Writes what a zone says at each of many instants.
#[inline(never)]
fn write_many(zone: &Zone, instants: &[i64], offsets: &mut [i32], flags: &mut [u8])
    requires offsets { length offsets.old ≡ length instants.now }
    requires flags { length flags.old ≡ length instants.now }
    ensures offsets { AllZip (IsOffsetAt zone.now) instants.now offsets.new }
    ensures flags { AllZip (AreFlagsAt zone.now) instants.now flags.new }
{
    let mut cached = nothing_cached();
    write_with(zone, &mut cached, instants, offsets, flags);
}

/// Writes what a zone says at each instant: the offset in seconds, positive east, and the flags.
pub(crate) fn write(zone: &Zone, instants: &[i64], offsets: &mut [i32], flags: &mut [u8])
    requires offsets { length offsets.old ≡ length instants.now }
    requires flags { length flags.old ≡ length instants.now }
    ensures offsets { AllZip (IsOffsetAt zone.now) instants.now offsets.new }
    ensures flags { AllZip (AreFlagsAt zone.now) instants.now flags.new }
{
    if instants.len() < FEW {
        write_with(zone, &mut [], instants, offsets, flags);
    } else {
        write_many(zone, instants, offsets, flags);
    }
}

/// A row that has a fault.
#[repr(C)]
#[derive(Clone, Copy, Drop)]
pub struct RowFault {
    /// The number of the row, from 1.
    pub row: u64,
    /// The number of the kind.
    pub kind: u32,
}

/// Rows: their text, how many there are, and their faults, of which the last may be that of the row
/// after them.
#[derive(Drop)]
pub struct Made {
    pub text: Vec<u8>,
    pub count: u64,
    pub faults: Vec<RowFault>,
}
