//! Copies for C.

ghost use Rattle.std.specs.Prelude.{◌≡◌, length};
ghost use Rattle.pzic_files.specs.Text.{overwritten};

/// Copies as much as there is room for, and returns the whole length.
pub(crate) fn copy(from: &[u8], room: &mut [u8], count: &mut usize)
    ensures room { room.new ≡ overwritten room.old from.now }
    ensures count { count.new ≡ length from.now }
{
    let copied = from.len().min(room.len());
    room[..copied].copy_from_slice(&from[..copied]);
    *count = from.len();
}
