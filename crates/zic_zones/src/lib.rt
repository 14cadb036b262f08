//! Zones by name, ready for rows: those of the files of a source, or of a tree of files, each read
//! once its name is needed. A table of slots tells what a zone shows at an instant by a shift and one
//! comparison.
//!
//! # What is proved
//!
//! `Zones` is a trait: `learn` and `prepare` make zones ready, and from then on no other file of
//! these names is known (`settled`); the files by which rows may be made agree with those that are
//! known (`Agree`). `SourceZones` knows the files of a source, and nothing grows; `TreeZones`
//! requests each name of a tree once (`Grows`, `Breaks`, `Requests`); `TwoReleases` knows those of
//! two. `RowZones::len` is the number of files. `find` and `find_at` give the file of a name
//! (`number_of`), `name` the name of a file, `span` the number of the state at an instant and instants round it that show it
//! (`ShowsThroughout`), `instant` the instant that is meant by a local time (`resolved`),
//! `only_instant` the one that each choice means and the state then, or none, `text` the text of a
//! state if the tables have one, which `make_text` makes of any that is shown (`AnswersAt`);
//! `are_sound`: the files are sound. `RowStates` (`states`) numbers states over all files: `number`
//! gives that of a state, or none (`HasState`), `text` its text. `slots_of` makes slots of 97 days
//! for 2^32 seconds; at each second a slot gives the number of the state that the zone shows, or
//! none (`AreRight`). `Slot::number_at` and `place_of` read them (`IsPlaceOf`).
#![tactic(auto)]

pub mod laws;
mod name_keys;
mod numbered;
mod ready;
mod row_states;
mod row_zones;
mod runs;
mod slot;
mod slot_set;
mod source_zones;
mod table;
mod tables;
mod texts;
mod tree_zones;
mod zones;

pub use row_states::RowStates;
pub use row_zones::{OnlyInstant, RowSpan, RowZones};
pub use slot::{ERAS, FIRST_BASE, LAST_BASE, Place, SLOT_SECONDS, SLOTS, Slot, UNKNOWN, place_of};
pub use source_zones::SourceZones;
pub use table::slots_of;
pub use tree_zones::TreeZones;
pub use zones::{Releases, TwoReleases, Zones};
