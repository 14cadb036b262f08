//! The library for C, C++, Python and whoever links it: the calls of `pzic_zones` and `pzic_files` by their names in C.
//! `include/pzic.h` has them, and `docs/LIBRARY.md` describes them.
//!
//! # What is proved
//!
//! The calls for C as the library exports them; the functions of the header call these. Each makes
//! one call of `pzic_zones` or `pzic_files`, whose clauses are its own. For any bytes, instants and
//! arrays:
//!
//! - `pzic_raw_zone_read`: `PZIC_OK` only for bytes that are a TZif file, and then the handle holds
//!   the zone of what they say; `PZIC_BAD_FILE` with the number of the first check that they fail
//!   (`IsRead`)
//! - `pzic_raw_zone_at`: the state is the one that the file gives at the instant, or local time is
//!   left open there (`IsAnswerAt`)
//! - `pzic_raw_zone_span`: the same at each instant of the span, which goes on to the next
//!   transition or edge of the footer (`IsAnswerAround`)
//! - `pzic_raw_zone_civil`: the date and the time of day at each instant of 64 bits
//!   (`IsCivilTimeAt`)
//! - `pzic_raw_zone_next_change`, `pzic_raw_zone_previous_change`: the next change after an
//!   instant, the last before it, or that there is none in 64 bits (`IsNextGiven`,
//!   `IsPreviousGiven`)
//! - `pzic_raw_zone_changes`: just the changes between two instants, in order, as many as there is
//!   room for (`AreChangesGiven`)
//! - `pzic_raw_zone_offsets`: each offset and each flag is that of the file at the instant of its
//!   place (`AreOffsetsGiven`)
//! - `pzic_raw_zone_instants`: the instants of the local time, or its gap (`IsLocalTimeGiven`)
//! - `pzic_raw_zone_instants_array`: each instant is the one that is meant by the local time of its
//!   place, and each status says whether there is one, and why not (`AreInstantsGiven`)
//! - `pzic_raw_zone_next_local`: the least instant after one and up to another at which the clocks show
//!   the time of day, on one of the weekdays, by the policy for gaps and folds, or that there is none
//!   (`IsNextLocalGiven`)
//! - `pzic_raw_zone_next_locals`: just these instants, in order, as many as there is room for
//!   (`AreNextLocalsGiven`)
//! - `pzic_raw_compile`: `PZIC_OK` only for texts that are a source, and then the handle holds
//!   their files; `PZIC_BAD_SOURCE` with the text, the line and the kind of the first fault
//!   (`AreCompiled`)
//! - `pzic_raw_files_of`: the handle holds, in order, the files of the names and bytes that rows
//!   can be made of, each name once; each status says whether its file is taken, and why not
//!   (`AreFilesMade`)
//! - `pzic_raw_files_len`, `pzic_raw_files_name`, `pzic_raw_files_bytes`: their number, and the
//!   name and the bytes of each, as much as there is room for (`IsPartCopied`)
//! - `pzic_raw_files_find`, `pzic_raw_zone_of`: the number of the file of a name, or that no file
//!   has it (`IsFound`); the handle holds the zone of what the file's bytes say (`IsZoneGiven`)
//! - `pzic_raw_files_offsets`, `pzic_raw_files_abbreviations`: each offset, each flag and each
//!   abbreviation is that of the file of the row's number at the row's instant, or says that no
//!   file has the number (`AreRowOffsetsGiven`, `AreRowAbbreviationsGiven`)
//! - `pzic_raw_rows`: the handle holds the bytes that `convert` writes of the column, up to the
//!   first row that has a fault, which is given (`AreRowsGiven`)
//! - `pzic_raw_rows_by`: the same by the layout, with the header, up to the row that ends the run;
//!   and the faults of just these rows, and last that of the row that ended the run
//!   (`IsConvertedBy`); where no file has the given name, each row has the fault RowZone
//! - `pzic_raw_rows_with`: the same by a layout that also says which fields rows have, what the names
//!   of added fields begin with, what an empty time does, and how rows end; `pzic_raw_rows_by` is this
//!   call with the usual rows (`usual_rows`)
//! - `pzic_raw_files_diff`: the handle holds the bytes that `diff` writes of the files of two
//!   handles by the options, with the number of lines after the first (`IsDiffGiven`)
//! - `pzic_raw_rows_len`, `pzic_raw_rows_faults`: the number of rows, with those that are left out;
//!   that of their faults, and as many as there is room for (`AreFaultsCopied`)
//! - `pzic_raw_rows_text`: the length of the rows, and as much of them as there is room for
//!   (`IsTextCopied`)
//! - `pzic_raw_name_of_fault`, `pzic_raw_name_of_reason`: the name that the program prints, or that
//!   none has the number (`IsNameCopied`)
//! - `pzic_raw_share`, `pzic_raw_free`: the other handle holds the same (`IsShared`); the handle
//!   holds nothing
//! - `pzic_version`: the number of this version, 100 for 0.1.0
//!
//! A call leaves each handle as one that any call may be given (`IsHandle`), and one that it only
//! reads as it was, its pointer too (`unchanged`). Each contract says what every output holds after
//! every status. A handle that a call is to fill holds nothing if the call fails, whatever it held
//! before, or after `PZIC_BAD_ROW` the rows before the fault. Every other output stays as it was,
//! unless the header says that the status writes it.
#![tactic(auto)]

mod files;
mod handles;
mod names;
mod rows;
mod zones;
