//! The byte order mark at the start of a column.

ghost use Rattle.std.specs.Prelude.{◌≡◌, ◌↔◌, IsTrue};
ghost use Rattle.csv.specs.Reading.{strip_bom};
ghost use Rattle.zic_columns.specs.code.Mark.{ShowsMark};

/// U+FEFF in UTF-8.
const MARK: [u8; 3] = [0xEF, 0xBB, 0xBF];

/// Returns the first bytes of a column without the byte order mark, where they begin with one.
///
/// Pass bytes that show whether there is a mark, or the whole column.
pub fn without_mark(bytes: &[u8]) -> &[u8]
    ensures { result.now ≡ strip_bom bytes.now }
{
    match bytes.strip_prefix(&MARK) {
        Some(rest) => rest,
        None => bytes,
    }
}

/// Returns whether the first bytes of a column decide whether it begins with a byte order mark: only a
/// proper prefix of the mark doesn't.
pub(crate) fn shows_mark(bytes: &[u8]) -> bool
    ensures { IsTrue result ↔ ShowsMark bytes.now }
{
    MARK.len() <= bytes.len() || !MARK.starts_with(bytes)
}
