//! TZif files, as RFC 9636 has them: their content, from bytes, as bytes, and what they answer at
//! an instant.
//!
//! # What is proved
//!
//! `read` accepts only files of the format (`ok`), and all of them unless memory runs out (`only`);
//! of other bytes it gives the first check that fails (`err`). `write` gives the written form byte
//! for byte (`written`), which a reader accepts with that content (`read`). `Zone::at` answers
//! every instant of an `i64` (`Answers`), `Zone::span` gives the instants round it with the same
//! answer, up to a transition or an edge of the footer (`AreBetween`, `AnswersThroughout`),
//! `Zone::last_transition` the instant of the last transition, if there is one
//! (`IsLastTransitionAt`), and `Zone::state` the state of each number below `state_count`
//! (`IsStateOfNumber`). `Table::changes`, `types`, `names`, `footer_text` and `version` give its
//! parts. `Reason::number`, `name` and `name_of_reason` agree (`IsReasonName`).
#![tactic(auto)]

mod content;
mod data_block;
mod designation;
mod header;
mod hints;
pub mod laws;
mod reader;
mod reason;
mod stored;
mod times;
mod transition;
mod type_record;
mod writer;
mod zone;

pub use content::{
    Change, LONGEST_FOOTER, LocalType, MAX_CHARACTERS, MAX_TRANSITIONS, MAX_TYPES, Table,
};
pub use reader::read;
pub use reason::{ReadStop, Reason, name_of_reason};
pub use writer::{write, written_is_file};
pub use zic_posix::Instants;
pub use zone::{Answer, AnswerSpan, Zone};
