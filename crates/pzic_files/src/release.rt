//! The version of the library.

ghost use Rattle.std.specs.Prelude.{◌≡◌};

/// The version: 10,000 times its first number, 100 times the second, and the third. It is 0.1.0.
pub const VERSION: u32 = 100;

/// Returns the version.
pub fn version() -> u32
    ensures { result ≡ VERSION }
{
    VERSION
}
