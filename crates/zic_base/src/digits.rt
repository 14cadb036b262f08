//! Numbers in two decimal digits, and the times of day and UT offsets that they make.

ghost use Rattle.std.specs.Prelude.{◌≡◌, ◌*◌, ◌<◌, unsigned_abs};
ghost use Rattle.zic_base.specs.Digits.{two_digits, clock_text, offset_text};

/// Returns the two decimal digits of a number below 100.
#[inline(always)]
pub fn two_digits(n: u32) -> [u8; 2]
    requires { n < 100 }
    ensures { result ≡ two_digits n }
{
    [b'0' + (n / 10) as u8, b'0' + (n % 10) as u8]
}

/// Returns seconds as hours, minutes and seconds: `01:59:59`. They are fewer than 100 hours.
#[inline(always)]
pub fn clock_text(seconds: u32) -> [u8; 8]
    requires { seconds < 100 * 3600 }
    ensures { result ≡ clock_text seconds }
{
    let [h, hh] = two_digits(seconds / 3600);
    let [m, mm] = two_digits(seconds / 60 % 60);
    let [s, ss] = two_digits(seconds % 60);
    [h, hh, b':', m, mm, b':', s, ss]
}

/// Returns a UT offset in seconds, positive east, as sign, hours, minutes and seconds: `-05:00:00`.
/// It is less than 100 hours either way.
pub fn offset_text(offset: i32) -> [u8; 9]
    requires { unsigned_abs offset < 100 * 3600 }
    ensures { result ≡ offset_text offset }
{
    let sign = if offset < 0 { b'-' } else { b'+' };
    let [h, hh, _, m, mm, _, s, ss] = clock_text(offset.unsigned_abs());
    [sign, h, hh, b':', m, mm, b':', s, ss]
}
