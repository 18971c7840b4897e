// The engine in memory that the caller lends: four arrays of numbers, 63,584 bytes, and where the engine lies in them.
// Every array of numbers holds an engine (`engine_of`, specs/Memory.antt), so nothing is asked of it.
// The four travel apart: the C interface lends four arrays, and a struct that owns them would be a copy, one of four `&mut` a clause a field in each call.
//
//   an event's slot k   times 4k ..      start, end, fade-in, fade-out
//                       levels 4k ..     gain; its source's value; the source's two numbers (a level, or a ramp's value and step)
//                       marks 4k ..      kind of source (0 held, 1 ramp, 2 clip; 4 more if the curve is smooth); a clip's offset, length; its place
//                       numbers k        its number
//   slots               READY 0 ..       those that wait, a heap
//                       ACTIVE 256 ..    those that sound
//                       PAST 512 ..      those that are finished
//   times               CLOCK 3072       the clock
//                       THRESHOLD 3073   the threshold
//                       RATE 3074        the sample rate
//                       DURATION 3075    a sample's duration
//                       EDIT_TIMES 3076  stored edit j at 3076 + 2j: its end, its fade-out
//   numbers             INDEX 768 ..     the number of each event that sounds
//                       EDIT_NUMBERS 1024 ..  the number of each stored edit
//                       WAITING 1280, SOUNDING 1281, FINISHED 1282, EDITS 1283   how many wait, sound, are finished, and are stored edits
//                       CHANNELS 1284, MODE 1285 (0: All), NEXT 1286 (the next event number), LET_GO 1287 (how many events were let go)
#![tactic(auto)]

mod lengths;
mod slots;

pub use lengths::sized;
pub use slots::{copy_slot, event_at, put_event, put_unit};

pub type Times = [f64; 3588];

pub type Levels = [f32; 3072];

pub type Marks = [u32; 3072];

pub type Numbers = [u64; 1288];

// Slots: how many, and the first of those that wait, sound and are finished.
pub const SLOTS: usize = 768;

pub const READY: usize = 0;

pub const ACTIVE: usize = 256;

pub const PAST: usize = 512;

// How many events a list holds, and how many edits are stored.
pub const ROOM: usize = 256;

// Among the times.
pub const CLOCK: usize = 3072;

pub const THRESHOLD: usize = 3073;

pub const RATE: usize = 3074;

pub const DURATION: usize = 3075;

pub const EDIT_TIMES: usize = 3076;

// Among the numbers.
pub const INDEX: usize = 768;

pub const EDIT_NUMBERS: usize = 1024;

pub const WAITING: usize = 1280;

pub const SOUNDING: usize = 1281;

pub const FINISHED: usize = 1282;

pub const EDITS: usize = 1283;

pub const CHANNELS: usize = 1284;

pub const MODE: usize = 1285;

pub const NEXT: usize = 1286;

pub const LET_GO: usize = 1287;
