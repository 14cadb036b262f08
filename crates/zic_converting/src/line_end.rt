//! How the first line of a column ends, which is read before its rows where these end as it does.

use crate::conversion::ConvertContext;
use crate::header::Head;
use crate::header_text::{Place, place_after};
use std::alloc::AllocError;
use std::io::Read;
use zic_command_line::ConvertOptions;
use zic_host::Refusal;
use zic_io::Failure;
use zic_layouts::{Layout, LineEnd, Records, RowStart};

/// The most bytes of a column in which the end of its first line is sought.
const MOST: usize = 65_536;

/// The byte order mark of UTF-8.
const MARK: &[u8; 3] = b"\xef\xbb\xbf";

/// What is known of the end of the first line of a column, after some of its bytes.
#[derive(Clone, Copy, Drop)]
enum Sought {
    /// The line goes on, at this place of a field.
    GoesOn(Place),
    /// The line ended with a carriage return, which a line feed may follow.
    AfterReturn,
    /// The line ended so.
    Ended(LineEnd),
}

impl Sought {
    /// Returns what is known after one more byte.
    fn after(self, byte: u8, layout: &Layout) -> Sought {
        match self {
            Sought::GoesOn(place) => after_in_line(place, byte, layout),
            Sought::AfterReturn if byte == b'\n' => Sought::Ended(LineEnd::CrLf),
            Sought::AfterReturn => Sought::Ended(LineEnd::Lf),
            Sought::Ended(end) => Sought::Ended(end),
        }
    }
}

/// Returns what is known after one more byte of the first line, of a field at this place.
fn after_in_line(place: Place, byte: u8, layout: &Layout) -> Sought {
    let place = match layout.records {
        Records::Csv => place,
        // Double quotes hold no line end.
        Records::Lines => Place::Plain,
    };
    match place_after(place, byte, layout.delimiter.byte()) {
        Some(next) => Sought::GoesOn(next),
        None if byte == b'\r' => Sought::AfterReturn,
        None if byte == b'\n' => Sought::Ended(LineEnd::Lf),
        None => Sought::GoesOn(Place::Start),
    }
}

/// A search for the end of the first line of a column.
#[derive(Clone, Copy, Drop)]
struct LineSearch {
    sought: Sought,
    /// How many bytes were looked at.
    at: usize,
}

impl LineSearch {
    /// Returns the search before the first byte.
    fn new() -> LineSearch {
        LineSearch {
            sought: Sought::GoesOn(Place::Start),
            at: 0,
        }
    }

    /// Looks at those of the first bytes of a column that weren't looked at, and returns how its first line
    /// ends, if that is known then.
    fn look(&mut self, bytes: &[u8], layout: &Layout) -> Option<LineEnd> {
        for at in self.at..bytes.len().min(MOST) {
            if at == MARK.len() && bytes.starts_with(MARK) {
                self.sought = Sought::GoesOn(Place::Start);
            }
            self.sought = self.sought.after(bytes[at], layout);
            self.at = at + 1;
            if let Sought::Ended(end) = self.sought {
                return Some(end);
            }
        }
        None
    }
}

/// Finds how the rows of a conversion end that begin with their records: as the first line of the column does
/// outside double quotes, where that is known after its first 65,536 bytes, and else with a line feed. Reads the
/// column up to there, but no further than one read after the line's end, and notes what it read, also that a
/// read failed.
///
/// # Errors
///
/// Lack of memory.
pub fn read_line_end<R: Read + Drop>(
    order: &mut ConvertOptions,
    input: R,
    noted: &mut ConvertContext,
) -> Result<(), Refusal> {
    if order.layout.start == RowStart::Fields || noted.header.is_some() {
        return Ok(());
    }
    let mut input = input;
    match line_end(&order.layout, &mut input, &mut noted.head) {
        Ok(end) => {
            order.layout.line_end = end;
            Ok(())
        }
        Err(_) => Err(Refusal::Command(Failure::Memory)),
    }
}

/// Returns how the first line of a column ends, of which this was read. Reads more as long as that isn't known.
fn line_end<R: Read>(
    layout: &Layout,
    input: &mut R,
    head: &mut Head,
) -> Result<LineEnd, AllocError> {
    let mut search = LineSearch::new();
    // Each read gives a byte at least, or is the last.
    for _ in 0..MOST {
        if let Some(end) = search.look(head.bytes(), layout) {
            return Ok(end);
        }
        if head.is_at_end() || MOST <= head.bytes().len() {
            return Ok(LineEnd::Lf);
        }
        head.read_more(input)?;
    }
    Ok(search.look(head.bytes(), layout).unwrap_or(LineEnd::Lf))
}
