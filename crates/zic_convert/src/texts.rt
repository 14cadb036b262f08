//! Texts that rows are written into: new ones, or those of rows that were written, which are reused in the
//! next round.

use std::alloc::{AllocError, Global};
use std::sync::Mutex;
use zic_piece_rows::Rows;
use zic_row_text::RowText;

/// Where the texts of pieces come from, and where they go once their rows are written.
pub(crate) trait TextPool {
    /// Returns a text to write rows into, whatever it holds. One that is new has room for as many bytes.
    ///
    /// # Errors
    ///
    /// Fails where memory is refused.
    fn take(&self, alloc: Global, room: usize) -> Result<RowText, AllocError> {
        RowText::with_capacity(alloc, room)
    }

    /// Keeps the texts of rows that were written, or drops them.
    fn keep(&self, written: Vec<Rows>) {
        drop(written);
    }
}

/// Keeps no text.
#[derive(Drop)]
pub(crate) struct NewTexts;

impl TextPool for NewTexts {}

/// The longest text that is kept, in bytes.
const LONGEST_SPARE: usize = 1_048_576;

/// Texts whose rows were written, for the rows of the next round: a text that is new has its room cleared
/// first. Several threads may take texts at a time, and none waits for another.
#[derive(Drop)]
pub(crate) struct SpareTexts {
    texts: Mutex<Vec<RowText>>,
}

impl SpareTexts {
    /// Returns no texts.
    pub(crate) fn new(alloc: Global) -> SpareTexts {
        SpareTexts {
            texts: Mutex::new(Vec::new(alloc)),
        }
    }

    /// Returns a text that was kept, if there is one, and no other thread is at the texts just now.
    fn kept(&self) -> Option<RowText> {
        let mut texts = self.texts.try_lock()?;
        texts.pop()
    }
}

impl TextPool for SpareTexts {
    fn take(&self, alloc: Global, room: usize) -> Result<RowText, AllocError> {
        match self.kept() {
            Some(text) => Ok(text),
            None => RowText::with_capacity(alloc, room),
        }
    }

    /// Keeps the texts of this round, and no others, so that there are never more than one round has. A
    /// text that is too long for that, or that memory is refused for, is given up.
    fn keep(&self, written: Vec<Rows>) {
        let Some(mut texts) = self.texts.try_lock() else {
            return;
        };
        texts.clear();
        for rows in written {
            if rows.text.len() <= LONGEST_SPARE && texts.push(rows.text).is_err() {
                return;
            }
        }
    }
}
