// Sources, fades and events: the data of src/sequencer.rs of fundsp. A source stands for its `Box<dyn AudioUnit>`.
#![tactic(auto)]

ghost use Rattle.std.specs.Prelude.{◌≡◌};
ghost use Rattle.event.specs.Events.{new_event, edited_by, rewound, earlier};
ghost use Rattle.event.specs.Fades.{curve};
ghost use Rattle.event.specs.Sources.{first_value, at_start, sample_of, advanced};
ghost use Rattle.event.specs.Placings.{no_placings};
ghost use Rattle.event.specs.PlacingCounts.{one_more};

use math::{sine_ease, smooth5};
use std::cmp::Ordering;

// The number of an event. It never serves as a list place.
#[derive(Clone, Copy, PartialEq, Eq)]
pub struct EventId(pub u64);

// Fade curves.
#[derive(Clone, Copy, PartialEq, Eq)]
pub enum Fade {
    Power,
    Smooth,
}

impl Fade {
    // The fade curve at x.
    pub fn at(self, x: f32) -> f32
        ensures { result ≡ curve self x }
    {
        match self {
            Fade::Power => sine_ease(x),
            Fade::Smooth => smooth5(x),
        }
    }
}

// Whether events are replayed after a reset.
#[derive(Clone, Copy, PartialEq, Eq)]
pub enum ReplayMode {
    All,
    None,
}

// The order in which a tick or block adds the sounding events: as their list has them, or, with document 02's mark (Paper 9), from its end.
#[derive(Clone, Copy, PartialEq, Eq)]
pub enum MixOrder {
    Forward,
    Backward,
}

// What an event plays: a held level; a ramp's first value and its step; a clip's offset and length in the pool.
#[derive(Clone, Copy)]
pub enum Source {
    Held(f32),
    Ramp(f32, f32),
    Clip(u32, u32),
}

// A source with its place: a ramp's next value, and how many samples a clip has given.
#[derive(Clone, Copy)]
pub struct Unit {
    pub source: Source,
    pub value: f32,
    pub place: u32,
}

fn first_value(source: Source) -> f32
    ensures { result ≡ first_value source }
{
    match source {
        Source::Held(level) => level,
        Source::Ramp(value, _) => value,
        Source::Clip(_, _) => 0.0,
    }
}

impl Unit {
    // A source at its beginning.
    pub fn new(source: Source) -> Unit
        ensures { result ≡ at_start source }
    {
        Unit {
            source,
            value: first_value(source),
            place: 0,
        }
    }

    // The unit back at its source's beginning.
    pub fn reset(self) -> Unit
        ensures { result ≡ at_start self.source }
    {
        Unit::new(self.source)
    }

    // The next sample: 0.0 past the clip and past the pool.
    pub fn sample(self, pool: &[f32]) -> f32
        ensures { result ≡ sample_of pool.now self }
    {
        match self.source {
            Source::Held(level) => level,
            Source::Ramp(_, _) => self.value,
            Source::Clip(offset, length) => {
                if self.place < length {
                    let at = offset as usize + self.place as usize;
                    if at < pool.len() {
                        return pool[at];
                    }
                }
                0.0
            }
        }
    }

    // The unit after one sample.
    pub fn advance(mut self) -> Unit
        ensures { result ≡ advanced self }
    {
        match self.source {
            Source::Held(_) => {}
            Source::Ramp(_, step) => self.value += step,
            Source::Clip(_, length) => {
                if self.place < length {
                    self.place += 1;
                }
            }
        }
        self
    }
}

// How a place of a block came: kept as rounded, forced, or set at an edge without the index step.
#[derive(Clone, Copy, PartialEq, Eq)]
pub enum Placing {
    Kept,
    Forced,
    Edge,
}

// How many places came each way. Counts wrap at 2^64; a block has at most 1,024 places.
#[derive(Clone, Copy)]
pub struct Placings {
    pub kept: u64,
    pub forced: u64,
    pub edge: u64,
}

impl Placings {
    // No place has been counted.
    pub fn new() -> Placings
        ensures { result ≡ no_placings }
    {
        Placings {
            kept: 0,
            forced: 0,
            edge: 0,
        }
    }

    // One more place, which came so.
    pub fn add(mut self, how: Placing) -> Placings
        ensures { result ≡ one_more self how }
    {
        match how {
            Placing::Kept => self.kept = self.kept.wrapping_add(1),
            Placing::Forced => self.forced = self.forced.wrapping_add(1),
            Placing::Edge => self.edge = self.edge.wrapping_add(1),
        }
        self
    }
}

// A scheduled source, and the level at which it plays.
#[derive(Clone, Copy)]
pub struct Event {
    pub start_time: f64,
    pub end_time: f64,
    pub fade_in: f64,
    pub fade_out: f64,
    pub fade_ease: Fade,
    pub unit: Unit,
    pub gain: f32,
    pub id: EventId,
}

// A change to an event.
#[derive(Clone, Copy)]
pub struct Edit {
    pub end_time: f64,
    pub fade_out: f64,
}

// An edit that is stored for the event of its number: an entry of the Rust's `edit_map`.
#[derive(Clone, Copy)]
pub struct StoredEdit {
    pub id: EventId,
    pub edit: Edit,
}

impl Event {
    // An event whose source is at its beginning.
    pub fn new(
        start_time: f64,
        end_time: f64,
        fade_in: f64,
        fade_out: f64,
        fade_ease: Fade,
        source: Source,
        gain: f32,
        id: EventId,
    ) -> Event
        ensures { result ≡ new_event start_time end_time fade_in fade_out fade_ease source gain id.0 }
    {
        Event {
            start_time,
            end_time,
            fade_in,
            fade_out,
            fade_ease,
            unit: Unit::new(source),
            gain,
            id,
        }
    }

    // The event with the edit's end and fade-out.
    pub fn edited(mut self, edit: Edit) -> Event
        ensures { result ≡ edited_by edit self }
    {
        self.end_time = edit.end_time;
        self.fade_out = edit.fade_out;
        self
    }

    // The event with its source at its beginning.
    pub fn rewind(self) -> Event
        ensures { result ≡ rewound self }
    {
        Event {
            unit: self.unit.reset(),
            ..self
        }
    }

    // Whether the event leaves the waiting heap before the other: by start, and only where the starts are equal in bits by the lower number.
    pub fn precedes(self, other: Event) -> bool
        ensures { result ≡ earlier self other }
    {
        match floats::total_cmp(self.start_time, other.start_time) {
            Ordering::Less => true,
            Ordering::Equal => self.id.0 < other.id.0,
            Ordering::Greater => false,
        }
    }
}
