// What becomes of events in the memory that crate `memory` lays out: they wait, start, sound, end, and wait again, each move in place.
// The calls of crate `live` are made of these.
// A list that is full, or whose count is corrupt (above 256), stays as it is: each contract gives the whole engine at exit.
#![tactic(auto)]

mod active;
mod edits;
mod heap;
mod queue;
mod starts;

pub use active::{active_to_past, place, release_past};
pub use edits::store_edit;
pub use heap::push_event;
pub use queue::{all_to_ready, rewind_ready};
pub use starts::ready_to_active;
