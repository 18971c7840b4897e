// What one event adds to a tick and to a block: `tick`, `process`, `fade_in` and `fade_out` of src/sequencer.rs of fundsp.
#![tactic(auto)]

ghost use Rattle.std.specs.Prelude.{◌≡◌, ◌-◌, ◌≤◌, false, not, ◌&&◌, ◌||◌, length, nat_le};
ghost use Rattle.floats.specs.Arithmetic.{◌<ᶠ◌, ◌≤ᶠ◌};
ghost use Rattle.event.specs.PlacingCounts.{add_all};
ghost use Rattle.ledger.specs.TickSamples.{faded_in, faded_out, tick_sample, after_tick};
ghost use Rattle.event.specs.Sources.{next_samples, advanced_by};
ghost use Rattle.ledger.specs.BlockSamples.{phase_at, phase_step, run_faded_in, run_faded_out, gained, faded_run, add_at, channel_after, after_block};
ghost use Rattle.ledger.specs.Places.{fade_in_placings, fade_out_placings, event_placings};
ghost use Rattle.mixing.specs.Blocks.{as_span, cleared_places};
ghost use Rattle.mixing.specs.LeftOut.{tick_faded};
ghost use Rattle.mixing.specs.Placed.{placing_of, rounded_place, raised_place, first_of, end_of, fade_in_of, fade_out_of, fades_in, fades_out};

use event::{Event, Fade, Placing, Placings, Unit};
use floats::{Clamp, SampleIndex};

// The two fades have a function each throughout, as in the Rust that this is read beside (document 01): their ends, tests and places differ.

// ---- a tick

// Whether a < b and x is not before b.
fn is_past(a: f64, b: f64, x: f64) -> bool
    ensures { result ≡ (a <ᶠ b && b ≤ᶠ x) }
{
    a < b && b <= x
}

// Whether a < b and x is not after a. One function for both would be told which end and which order, and be no plainer.
fn is_ahead(a: f64, b: f64, x: f64) -> bool
    ensures { result ≡ (a <ᶠ b && x ≤ᶠ a) }
{
    a < b && x <= a
}

// A sample x with a fade from `bottom` to `top`: a fade-in where its phase is below 1, a fade-out where it is above 0.
fn tick_fade(bottom: f64, top: f64, ease: Fade, rising: bool, time: f64, x: f32) -> f32
    ensures { result ≡ tick_faded «bottom» «top» ease rising time x }
{
    let phase = floats::narrow(math::delerp(bottom, top, time));
    if rising {
        if phase < 1.0 {
            return x * ease.at(phase);
        }
        return x;
    }
    if phase > 0.0 {
        return x * ease.at(1.0 - phase);
    }
    x
}

// A sample x with the fade-in. One that is over is left out before its phase is computed.
fn tick_fade_in(event: Event, time: f64, x: f32) -> f32
    ensures { result ≡ faded_in time event x }
{
    if event.fade_in > 0.0 {
        let top = event.start_time + event.fade_in;
        if is_past(event.start_time, top, time) {
            return x;
        }
        return tick_fade(event.start_time, top, event.fade_ease, true, time, x);
    }
    x
}

// A sample x with the fade-out. One that has not begun is left out before its phase is computed.
fn tick_fade_out(event: Event, time: f64, x: f32) -> f32
    ensures { result ≡ faded_out time event x }
{
    if event.fade_out > 0.0 {
        let bottom = event.end_time - event.fade_out;
        if is_ahead(bottom, event.end_time, time) {
            return x;
        }
        return tick_fade(bottom, event.end_time, event.fade_ease, false, time, x);
    }
    x
}

// What the event adds to every channel of the tick at `time`.
pub fn tick_sample(event: Event, time: f64, pool: &[f32]) -> f32
    ensures { result ≡ tick_sample pool.now time event }
{
    let x = event.unit.sample(pool) * event.gain;
    let y = tick_fade_in(event, time, x);
    tick_fade_out(event, time, y)
}

// The event after a tick: its source has given one sample.
pub fn after_tick(mut event: Event) -> Event
    ensures { result ≡ after_tick event }
{
    event.unit = event.unit.advance();
    event
}

// ---- a block

// A block: how many samples, of which 64 count at most; the clock at its beginning and at its end; the rate and the duration of a sample.
#[derive(Clone, Copy)]
pub struct Span {
    pub size: usize,
    pub clock: f64,
    pub upto: f64,
    pub rate: f64,
    pub duration: f64,
}

// How many places of a channel a block of `size` samples clears: the size, rounded up to a multiple of 8.
pub fn cleared_places(size: usize) -> usize
    ensures { result ≡ cleared_places size }
{
    8 * size.min(64).div_ceil(8)
}

// A place in the block, and how it came.
#[derive(Clone, Copy)]
struct Place {
    at: usize,
    how: Placing,
}

// How a rounded place came that is cut to `most`.
fn placing(most: usize, step: SampleIndex) -> Placing
    ensures { result ≡ placing_of most step }
{
    match step.how {
        Clamp::Free if step.index as usize <= most => Placing::Kept,
        _ => Placing::Forced,
    }
}

// The place nearest to x, at most `most`.
fn rounded(most: usize, x: f64) -> Place
    ensures { result ≡ rounded_place most x }
{
    let step = floats::sample_index(x);
    Place {
        at: most.min(step.index as usize),
        how: placing(most, step),
    }
}

// The place, or s if that is later.
fn raised(place: Place, s: usize) -> Place
    ensures { result ≡ raised_place s place }
{
    if place.at < s {
        return Place {
            at: s,
            how: Placing::Forced,
        };
    }
    place
}

// s: the place in the block at which the event begins.
fn first_place(event: Event, span: Span) -> Place
    ensures { result ≡ first_of (as_span span) event }
{
    if event.start_time <= span.clock {
        return Place {
            at: 0,
            how: Placing::Edge,
        };
    }
    rounded(
        span.size.min(64),
        (event.start_time - span.clock) * span.rate,
    )
}

// z: the place in the block before which the event ends.
fn end_place(event: Event, span: Span) -> Place
    ensures { result ≡ end_of (as_span span) event }
{
    let n = span.size.min(64);
    if event.end_time >= span.upto {
        return Place {
            at: n,
            how: Placing::Edge,
        };
    }
    rounded(n, (event.end_time - span.clock) * span.rate)
}

// The place before which the fade-in ends, counted from the block's edge.
fn fade_in_place(event: Event, span: Span, z: usize) -> Place
    ensures { result ≡ fade_in_of (as_span span) z event }
{
    let top = event.start_time + event.fade_in;
    if top >= span.upto {
        return Place {
            at: z,
            how: Placing::Edge,
        };
    }
    rounded(64, (top - span.clock) / span.duration)
}

// The place at which the fade-out starts, counted from the block's edge, or s if that is later.
fn fade_out_place(event: Event, span: Span, s: usize) -> Place
    ensures { result ≡ fade_out_of (as_span span) s event }
{
    let bottom = event.end_time - event.fade_out;
    if bottom <= span.clock {
        return Place {
            at: s,
            how: Placing::Edge,
        };
    }
    raised(rounded(64, (bottom - span.clock) / span.duration), s)
}

// The phase of block place i in a fade from `bottom` to `top`.
fn phase_at(span: Span, i: usize, bottom: f64, top: f64) -> f32
    ensures { result ≡ phase_at (as_span span) i bottom top }
{
    let at = span.clock + std::num::nearest_u64_to_f64(i as u64) * span.duration;
    floats::narrow(math::delerp(bottom, top, at))
}

// How far the phase of a fade goes for each sample.
fn phase_step(span: Span, fade: f64) -> f32
    ensures { result ≡ phase_step (as_span span) fade }
{
    floats::narrow(span.duration / fade)
}

// The Rust's `fade_in`: `span` has its sample_duration, time and end_time, and `event` its ease, fade_duration and
// fade_start_time. `output` is the event's run, which starts at block place `start_index`. A fade belongs to the clip
// (document 02, Paper 3): it covers the run's places below its end place minus `start_index`.
pub fn fade_in(span: Span, start_index: usize, end_index: usize, event: Event, output: &mut [f32])
    ensures { output.new ≡ run_faded_in (as_span span) start_index end_index event output.old }
{
    let top = event.start_time + event.fade_in;
    if event.fade_in > 0.0 {
        if top > span.clock {
            let place = fade_in_place(event, span, end_index);
            let to = place.at.saturating_sub(start_index);
            let phase = phase_at(span, start_index, event.start_time, top);
            let step = phase_step(span, event.fade_in);
            runs::fade(output, 0, to, event.fade_ease, true, phase, step);
        }
    }
}

// The Rust's `fade_out`, with the same arguments; `event` has its fade_end_time. It begins at its place in the block, or
// where the run does if that is later, with the phase of that place.
pub fn fade_out(span: Span, start_index: usize, end_index: usize, event: Event, output: &mut [f32])
    ensures { output.new ≡ run_faded_out (as_span span) start_index end_index event output.old }
{
    let bottom = event.end_time - event.fade_out;
    if event.fade_out > 0.0 {
        if bottom < span.upto {
            let place = fade_out_place(event, span, start_index);
            let i = place.at;
            let phase = phase_at(span, i, bottom, event.end_time);
            let step = phase_step(span, event.fade_out);
            let from = i.saturating_sub(start_index);
            let to = end_index.saturating_sub(start_index);
            runs::fade(output, from, to, event.fade_ease, false, phase, step);
        }
    }
}

// The event's z - s samples, as many as the row has, at its gain and with both fades, are added to a channel from place s on; the source after them.
fn add_run(
    event: Event,
    span: Span,
    s: usize,
    z: usize,
    pool: &[f32],
    row: &mut [f32],
    channel: &mut [f32],
) -> Unit
    requires { length row.old ≡ z - s }
    ensures { (result ≡ advanced_by event.unit (z - s)) × (channel.new ≡ add_at s (faded_run pool.now (as_span span) s z event) channel.old) }
{
    let unit = runs::fill_run(row, event.unit, pool);
    runs::apply_gain(row, event.gain);
    fade_in(span, s, z, event, row);
    fade_out(span, s, z, event, row);
    runs::add_at(channel, row, s);
    unit
}

// Whether the fade-in acts in the block.
fn fades_in(event: Event, span: Span) -> bool
    ensures { result ≡ fades_in (as_span span) event }
{
    event.fade_in > 0.0 && event.start_time + event.fade_in > span.clock
}

// Whether the fade-out acts in the block.
fn fades_out(event: Event, span: Span) -> bool
    ensures { result ≡ fades_out (as_span span) event }
{
    event.fade_out > 0.0 && event.end_time - event.fade_out < span.upto
}

// Whether an event that ends at place z goes to a channel of n places as it is: all its places are there, and no fade acts.
fn is_plain(event: Event, span: Span, z: usize, n: usize) -> bool
    ensures { result ≡ (nat_le z n && not (fades_in (as_span span) event || fades_out (as_span span) event)) }
{
    z <= n && !fades_in(event, span) && !fades_out(event, span)
}

// Without fades: a source's z - s samples at a gain are added, in one pass, to a channel that has all the places; the source after them.
fn add_plain(unit: Unit, gain: f32, s: usize, z: usize, pool: &[f32], channel: &mut [f32]) -> Unit
    requires fact_1 { s ≤ z }
    requires fact_2 { z ≤ length channel.old }
    ensures { (result ≡ advanced_by unit (z - s)) × (channel.new ≡ add_at s (gained gain (next_samples pool.now unit (z - s))) channel.old) }
{
    runs::add_source(&mut channel[s..z], unit, pool, gain)
}

// One event of a block: its run is added to a channel; the source after the block.
pub fn process_event(event: Event, span: Span, pool: &[f32], channel: &mut [f32]) -> Unit
    ensures { (result ≡ (after_block (as_span span) event).unit) × (channel.new ≡ channel_after pool.now (as_span span) event channel.old) }
{
    let first = first_place(event, span);
    let end = end_place(event, span);
    let s = first.at;
    let z = end.at;
    let unit = event.unit;
    if s < z {
        if is_plain(event, span, z, channel.len()) {
            // By its fields: read whole right after they were written, it would have to wait for them.
            let after = add_plain(unit, event.gain, s, z, pool, channel);
            let source = unit.source;
            return Unit {
                source,
                value: after.value,
                place: after.place,
            };
        }
        let m = z - s;
        let mut row = [0.0f32; 64];
        return add_run(event, span, s, z, pool, &mut row[0..m], channel);
    }
    unit
}

// ---- how a block's places came (document 02, Paper 12)

// The place of the fade-in is one more of `places` where the fade acts.
fn count_fade_in(event: Event, span: Span, z: usize, places: Placings) -> Placings
    ensures { result ≡ add_all places (fade_in_placings (as_span span) event) }
{
    if fades_in(event, span) {
        let place = fade_in_place(event, span, z);
        return places.add(place.how);
    }
    places
}

// The same of the fade-out.
fn count_fade_out(event: Event, span: Span, s: usize, places: Placings) -> Placings
    ensures { result ≡ add_all places (fade_out_placings (as_span span) s event) }
{
    if fades_out(event, span) {
        let place = fade_out_place(event, span, s);
        return places.add(place.how);
    }
    places
}

// The event's places, each one more of `places`: where it begins and ends, and, where it sounds, those of its fades. They are the places that
// `process_event` takes: `counted-as-taken` of ledger/proofs/TakenPlacesProof.antt.
pub fn count_places(event: Event, span: Span, places: Placings) -> Placings
    ensures { result ≡ add_all places (event_placings (as_span span) event) }
{
    let first = first_place(event, span);
    let end = end_place(event, span);
    let s = first.at;
    let z = end.at;
    let places = places.add(first.how).add(end.how);
    if s < z {
        let places = count_fade_in(event, span, z, places);
        return count_fade_out(event, span, s, places);
    }
    places
}
