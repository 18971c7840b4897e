// The live engine's C entries, `include/chakaqel.h`: one for each call of crate `live`, on the four arrays that crate `memory` lays out.
// Modes, curves, sources and marks cross as the numbers of document 01's tape (a mark: 0 none, 1 set); a number that names none is
// refused with the tape's 14, before anything else is looked at. Every contract gives the result and all that is lent at exit, for
// any memory at entry; a refused call leaves every cell of it as it was, but for refusal 1 of a creation.
#![tactic(auto)]

mod creation;
mod edits;
mod numbers;
mod pushes;
mod readers;
mod rendering;
mod resets;

pub use creation::chakaqel_create;
pub use edits::{chakaqel_edit, chakaqel_edit_relative};
pub use pushes::{chakaqel_push, chakaqel_push_duration, chakaqel_push_relative};
pub use readers::{chakaqel_counts, chakaqel_place, chakaqel_time};
pub use rendering::{chakaqel_process, chakaqel_tick};
pub use resets::{chakaqel_reset, chakaqel_set_sample_rate};
