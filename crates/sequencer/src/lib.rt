// The plain form of the sequencer, to be read beside the Rust: `Sequencer` of src/sequencer.rs of fundsp in small functions with the Rust's names,
// state in, state out, an event by value from list to list; clear before fast. The fast form is crates memory, list_moves and live, proved equal to
// the definitions in specs/ that these functions meet.
// The interface is creation, pushes, edits, `tick`, `process`, `set_sample_rate`, `reset`, and the readers `time`, `counts` and `place`: crate claim
// speaks of every list of these calls.
// A call that can be refused has three functions: one tells the refusal from a few numbers (crate refusals), one carries the call out unchecked, and
// one joins both. The unchecked ones (`push_event`, `push_relative_event`, `change`, `change_rate`, `render_tick`, `render_block`, `release_past`) are
// public for the desk, crate realseq, alone.
// A count above 256 is corrupt: no call reads or writes past an array, and what it does then is what its definition says.
#![tactic(auto)]

mod creation;
mod edits;
mod moves;
mod pushes;
mod readers;
mod rendering;
mod resets;

use event::{Event, EventId, Placings, ReplayMode};
use lists::EditMap;
pub use readers::Counts;

// Arrays with counts for the Rust's heap and lists: fixed memory, nothing allocated (document 01).
// Place i of `active_map` is the number of the event at place i of `active`.
#[derive(Clone, Copy)]
pub struct Sequencer {
    pub ready: [Event; 256],
    pub ready_len: usize,
    pub active: [Event; 256],
    pub active_len: usize,
    pub active_map: [EventId; 256],
    pub past: [Event; 256],
    pub past_len: usize,
    pub edit_map: EditMap,
    pub time: f64,
    pub active_threshold: f64,
    pub sample_rate: f64,
    pub sample_duration: f64,
    pub outputs: usize,
    pub mode: ReplayMode,
    // The next event number; 0 once 2^64 - 1 has been given.
    pub next: u64,
    // How many events were let go.
    pub let_go: u64,
}

// What a call answers: the number of a pushed event; what became of an edit; done; of a block, how its places came; or the number of a refusal.
// A refusal is its number here: each call returns it (document 01).
#[derive(Clone, Copy)]
pub enum Answer {
    Number(EventId),
    Applied,
    Past,
    Stored,
    Done,
    Rendered(Placings),
    Refused(u64),
}

// Written out where it is answered: a function for it would take the whole engine by value once more.
#[derive(Clone, Copy)]
pub struct Outcome {
    pub sequencer: Sequencer,
    pub answer: Answer,
}

// What a push gives: its outcome, and how many levels its event rose in the heap (document 02, Paper 13); 0 where it was refused or went straight
// to the sounding list.
#[derive(Clone, Copy)]
pub struct Pushed {
    pub sequencer: Sequencer,
    pub answer: Answer,
    pub rise: usize,
}
