// The refusals of documents 01 and 02 that are the engine's, in their order: the first that applies, or none. They take no engine, so that the desk and the tape can ask them too.
#![tactic(auto)]

ghost use Rattle.std.specs.Prelude.{◌≡◌, ◌+◌, min, ◌&&◌};
ghost use Rattle.std.specs.Float.Ieee.Scale.{finite as is_finite};
ghost use Rattle.ledger.specs.Refusals as Limits;
ghost use Rattle.refusals.specs.Numbers.{number_of, refusal_number};
ghost use Rattle.refusals.specs.Refusals.{push_refusal, no_room, edit_limits, edit_refusal, tick_refusal, process_refusal, rate_refusal};

use event::{EventId, Source};
use lists::EditMap;

// The engine's refusals, in the order in which they are asked.
#[derive(Clone, Copy, PartialEq, Eq)]
pub enum Refusal {
    Rate,
    Times,
    Fades,
    Level,
    Gain,
    Full,
    NumbersSpent,
    EditLimits,
    NoRoom,
    OutputLength,
    BlockSize,
    Clock,
}

impl Refusal {
    // The number that document 01 or 02 gives it.
    pub fn number(self) -> u64
        ensures { result ≡ number_of self }
    {
        match self {
            Refusal::Rate => 2,
            Refusal::Times => 3,
            Refusal::Fades => 4,
            Refusal::Level => 5,
            Refusal::Gain => 18,
            Refusal::Full => 6,
            Refusal::NumbersSpent => 7,
            Refusal::EditLimits => 8,
            Refusal::NoRoom => 9,
            Refusal::OutputLength => 10,
            Refusal::BlockSize => 11,
            Refusal::Clock => 12,
        }
    }
}

// Within 1,000,000,000 in magnitude, and no NaN.
fn within(x: f64) -> bool
    ensures { result ≡ Limits.within x }
{
    -1000000000.0 <= x && x <= 1000000000.0
}

// The same, or +infinity.
fn within_end(x: f64) -> bool
    ensures { result ≡ Limits.within_end x }
{
    within(x) || x == f64::INFINITY
}

fn finite(x: f32) -> bool
    ensures { result ≡ is_finite x }
{
    x < f32::INFINITY && f32::NEG_INFINITY < x
}

fn finite_source(source: Source) -> bool
    ensures { result ≡ Limits.finite_source source }
{
    match source {
        Source::Held(level) => finite(level),
        Source::Ramp(value, step) => finite(value) && finite(step),
        Source::Clip(_, _) => true,
    }
}

// How many events three lists hold, at most 256.
pub fn held(a: usize, b: usize, c: usize) -> usize
    ensures { result ≡ min (a + (b + c)) 256 }
{
    (a.min(256) + (b.min(256) + c.min(256))).min(256)
}

// A push's times and fades keep the limit; only its end may be +infinity.
fn times_within(start: f64, end: f64, fade_in: f64, fade_out: f64) -> bool
    ensures { result ≡ (Limits.within start && Limits.within_end end && Limits.within fade_in && Limits.within fade_out) }
{
    within(start) && within_end(end) && within(fade_in) && within(fade_out)
}

// Of a push: 3 to 5, 18, 6 and 7. `end` is the end or the duration as given, `lasts` is end - start, `held` how many events are held, `next` the next number.
pub fn push_refusal(
    start: f64,
    end: f64,
    lasts: f64,
    fade_in: f64,
    fade_out: f64,
    source: Source,
    gain: f32,
    held: usize,
    next: u64,
) -> Option<Refusal>
    ensures { refusal_number result ≡ push_refusal start end lasts fade_in fade_out source gain held next }
{
    if !times_within(start, end, fade_in, fade_out) {
        return Some(Refusal::Times);
    }
    if lasts < fade_in || lasts < fade_out {
        return Some(Refusal::Fades);
    }
    if !finite_source(source) {
        return Some(Refusal::Level);
    }
    if !finite(gain) {
        return Some(Refusal::Gain);
    }
    if 256 <= held {
        return Some(Refusal::Full);
    }
    if next == 0 {
        return Some(Refusal::NumbersSpent);
    }
    None
}

// An edit would have to be stored for a number that has none, and 256 are stored.
fn no_room(found: Option<usize>, edits: EditMap, threshold: f64, id: EventId, end: f64) -> bool
    ensures { result ≡ no_room found edits threshold id end }
{
    if found.is_some() || end < threshold {
        return false;
    }
    256 <= edits.len && edits.find(id).is_none()
}

// Of an edit's end, as given, and fade: 8.
pub fn edit_limits(end: f64, fade_out: f64) -> Option<Refusal>
    ensures { refusal_number result ≡ edit_limits end fade_out }
{
    if within_end(end) && within(fade_out) {
        None
    } else {
        Some(Refusal::EditLimits)
    }
}

// Of an edit: 8 and 9. `end` is the end as given, `until` the same with the clock added where it is relative.
pub fn edit_refusal(
    found: Option<usize>,
    edits: EditMap,
    threshold: f64,
    id: EventId,
    end: f64,
    until: f64,
    fade_out: f64,
) -> Option<Refusal>
    ensures { refusal_number result ≡ edit_refusal found edits threshold id end until fade_out }
{
    if let Some(refusal) = edit_limits(end, fade_out) {
        return Some(refusal);
    }
    if no_room(found, edits, threshold, id, until) {
        return Some(Refusal::NoRoom);
    }
    None
}

// Of a tick into an output of `len` samples: 10 and 12.
pub fn tick_refusal(len: usize, outputs: usize, time: f64, sample_duration: f64) -> Option<Refusal>
    ensures { refusal_number result ≡ tick_refusal len outputs time sample_duration }
{
    if len != outputs {
        return Some(Refusal::OutputLength);
    }
    if !(time + sample_duration <= 1000000000.0) {
        return Some(Refusal::Clock);
    }
    None
}

// Of a block of `size` samples into an output of `len`: 10 to 12.
pub fn process_refusal(
    size: usize,
    len: usize,
    outputs: usize,
    time: f64,
    sample_duration: f64,
) -> Option<Refusal>
    ensures { refusal_number result ≡ process_refusal size len outputs time sample_duration }
{
    if len % 64 != 0 || len / 64 != outputs {
        return Some(Refusal::OutputLength);
    }
    if 64 < size {
        return Some(Refusal::BlockSize);
    }
    if !(time + sample_duration * std::num::nearest_u64_to_f64(size as u64) <= 1000000000.0) {
        return Some(Refusal::Clock);
    }
    None
}

// Of a rate: 2.
pub fn rate_refusal(rate: f64) -> Option<Refusal>
    ensures { refusal_number result ≡ rate_refusal rate }
{
    if 1.0 <= rate && rate <= 1000000.0 {
        None
    } else {
        Some(Refusal::Rate)
    }
}
