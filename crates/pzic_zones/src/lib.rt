//! Handles of what the library for C holds, and the calls on zones. Each call has handles checked, answers
//! a status, and writes what it gives. No call starts a thread, prints, aborts or keeps global state.
#![tactic(auto)]

mod changes;
mod civil_time;
mod column;
mod handle;
mod held;
mod local;
mod local_column;
mod member;
mod owned;
mod parts;
mod schedule;
mod sharing;
mod state;
pub mod status;
mod zone;

pub use changes::{zone_changes, zone_next_change, zone_previous_change};
pub use civil_time::{CivilTime, zone_civil};
pub use column::{Made, RowFault};
pub use handle::Handle;
pub use held::{Held, hold_files, hold_member, hold_rows};
pub use local::{LocalTime, zone_instants};
pub use local_column::zone_instants_array;
pub use schedule::{ScheduleOptions, zone_next_local, zone_next_locals};
pub use sharing::{free, share};
pub use state::State;
pub use zone::{zone_at, zone_offsets, zone_read, zone_span};
