// The sequencer live, in memory that the caller lends (crate `memory` lays it out): creation, pushes, edits, `tick`, `process`,
// `set_sample_rate`, `reset`, and the readers `time`, `counts` and `place`.
// Each call changes the four arrays in place and copies none of them. The engine that they hold at exit (`engine_of`) is that of crate
// `sequencer`'s call of the same name on the one that they held at entry, and so is the answer. A refused call leaves every cell as it
// was; a refused creation leaves document 01's empty engine of one channel.
#![tactic(auto)]

mod creation;
mod edits;
mod pushes;
mod readers;
mod rendering;
mod resets;

pub use creation::create;
pub use edits::{edit, edit_relative};
pub use list_moves::place;
pub use pushes::{Pushed, Timing, push, push_duration, push_relative, push_timed};
pub use readers::{counts, time};
pub use rendering::{process, tick};
pub use resets::{reset, set_sample_rate};
