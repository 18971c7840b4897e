// Ticks and blocks. `order` is the order in which the sounding events are added; `Backward` is document 02's mark (Paper 9).
// The pool is lent for the clips.
ghost use Rattle.std.specs.Prelude.{◌≡◌, ◌-◌, ◌/◌, ◌<◌, length, take};
ghost use Rattle.ledger.specs.BlockSamples.{overlay};
ghost use Rattle.mixing.specs.Blocks.{as_span};
ghost use Rattle.sequencer.specs.Parts.{with_sounding};
ghost use Rattle.sequencer.specs.Moves.{advanced};
ghost use Rattle.sequencer.specs.Rendering.{mix_place, tick_pass, places_pass, ticks, tick_outs, blocks, block_outs};
ghost use Rattle.memory.specs.Memory.{before, after, engine_of};
ghost use Rattle.live.specs.CallContracts.{Refuses, span_from, block_mixed};

use event::{MixOrder, Placings};
use list_moves::{active_to_past, ready_to_active, release_past};
use memory::{
    ACTIVE, CHANNELS, CLOCK, DURATION, Levels, Marks, Numbers, RATE, ROOM, SOUNDING, Times,
    event_at, put_unit, sized,
};
use mixing::Span;
use refusals::{process_refusal, tick_refusal};
use sequencer::Answer;

// Begins a tick or a block that ends at `end`: those that are due start, and those that have ended are finished.
fn advance(
    times: &mut Times,
    levels: &mut Levels,
    marks: &mut Marks,
    numbers: &mut Numbers,
    end: f64,
)
    ensures { engine_of (after times.new levels.new marks.new numbers.new) ≡ advanced (engine_of (before times.old levels.old marks.old numbers.old)) end }
{
    let limit = times[CLOCK] + 0.5 * times[DURATION];
    release_past(times, levels, marks, numbers);
    ready_to_active(times, levels, marks, numbers, end);
    active_to_past(times, levels, marks, numbers, limit);
    sized(times, levels, marks, numbers);
    times[CLOCK] = end;
}

// The place of the event that is added after i of m.
fn mix_place(order: MixOrder, i: usize, m: usize) -> usize
    requires { i < m }
    ensures { (result ≡ mix_place order i (m - 1 - i)) × (result < m) }
{
    match order {
        MixOrder::Forward => i,
        MixOrder::Backward => m - 1 - i,
    }
}

// The sample of the sounding events at the clock `time`.
fn mix_tick(
    times: &Times,
    levels: &mut Levels,
    marks: &mut Marks,
    numbers: &Numbers,
    order: MixOrder,
    time: f64,
    pool: &[f32],
) -> f32
    ensures engine { engine_of (after times.now levels.new marks.new numbers.now) ≡ with_sounding (engine_of (before times.now levels.old marks.old numbers.now))
        (tick_pass order pool.now time (engine_of (before times.now levels.old marks.old numbers.now))).items }
    ensures sample { result ≡ (tick_pass order pool.now time (engine_of (before times.now levels.old marks.old numbers.now))).sum }
{
    sized(times, levels, marks, numbers);
    let m = (numbers[SOUNDING] as usize).min(ROOM);
    let mut sum = 0.0f32;
    for k in 0..m {
        let slot = ACTIVE + mix_place(order, k, m);
        let event = event_at(times, levels, marks, numbers, slot);
        sum += mixing::tick_sample(event, time, pool);
        let event = mixing::after_tick(event);
        put_unit(times, levels, marks, numbers, slot, event.unit);
    }
    sum
}

// Adds the sounding events to `mix`, one channel of a block. Answers how its places were computed.
// (The loop of `mix_tick` with another sum: one loop that takes a closure would be no plainer.)
fn mix_block(
    times: &Times,
    levels: &mut Levels,
    marks: &mut Marks,
    numbers: &Numbers,
    order: MixOrder,
    span: Span,
    pool: &[f32],
    mix: &mut [f32],
) -> Placings
    ensures engine { engine_of (after times.now levels.new marks.new numbers.now) ≡ with_sounding (engine_of (before times.now levels.old marks.old numbers.now))
        (block_mixed order pool.now (as_span span) mix.old (engine_of (before times.now levels.old marks.old numbers.now))).items }
    ensures samples { mix.new
        ≡ (block_mixed order pool.now (as_span span) mix.old (engine_of (before times.now levels.old marks.old numbers.now))).sum }
    ensures places { result ≡ (places_pass order (as_span span) (engine_of (before times.now levels.old marks.old numbers.now))).sum }
{
    sized(times, levels, marks, numbers);
    let m = (numbers[SOUNDING] as usize).min(ROOM);
    let mut places = Placings::new();
    for k in 0..m {
        let slot = ACTIVE + mix_place(order, k, m);
        let event = event_at(times, levels, marks, numbers, slot);
        let unit = mixing::process_event(event, span, pool, mix);
        put_unit(times, levels, marks, numbers, slot, unit);
        places = mixing::count_places(event, span, places);
    }
    places
}

// Adds the sounding events to `mix`, and puts it into every channel of `out`.
fn mix_channels(
    times: &Times,
    levels: &mut Levels,
    marks: &mut Marks,
    numbers: &Numbers,
    order: MixOrder,
    span: Span,
    pool: &[f32],
    mix: &mut [f32],
    out: &mut [f32],
) -> Placings
    ensures engine { engine_of (after times.now levels.new marks.new numbers.now) ≡ with_sounding (engine_of (before times.now levels.old marks.old numbers.now))
        (block_mixed order pool.now (as_span span) mix.old (engine_of (before times.now levels.old marks.old numbers.now))).items }
    ensures samples { out.new ≡ overlay (length out.old / 64)
        (take 64 (block_mixed order pool.now (as_span span) mix.old (engine_of (before times.now levels.old marks.old numbers.now))).sum)
        out.old }
    ensures places { result ≡ (places_pass order (as_span span) (engine_of (before times.now levels.old marks.old numbers.now))).sum }
{
    let places = mix_block(times, levels, marks, numbers, order, span, pool, mix);
    runs::overlay_channels(out, mix);
    places
}

// Moves the clock by one sample. `out` has one sample a channel, and each gets the sum.
// Answers done, or the first refusal of 10 and 12, which leaves `out` as it was too.
pub fn tick(
    times: &mut Times,
    levels: &mut Levels,
    marks: &mut Marks,
    numbers: &mut Numbers,
    order: MixOrder,
    pool: &[f32],
    out: &mut [f32],
) -> Answer
    ensures engine { engine_of (after times.new levels.new marks.new numbers.new)
        ≡ (ticks order pool.now (length out.old) (engine_of (before times.old levels.old marks.old numbers.old))).sequencer }
    ensures samples { out.new ≡ tick_outs order pool.now (engine_of (before times.old levels.old marks.old numbers.old)) out.old }
    ensures answer { result ≡ (ticks order pool.now (length out.old) (engine_of (before times.old levels.old marks.old numbers.old))).answer }
    ensures refused { Refuses result → after times.new levels.new marks.new numbers.new ≡ before times.old levels.old marks.old numbers.old }
{
    let time = times[CLOCK];
    let duration = times[DURATION];
    let channels = numbers[CHANNELS] as usize;
    if let Some(refusal) = tick_refusal(out.len(), channels, time, duration) {
        return Answer::Refused(refusal.number());
    }
    advance(times, levels, marks, numbers, time + duration);
    let sum = mix_tick(times, levels, marks, numbers, order, time, pool);
    runs::set_all(out, sum);
    Answer::Done
}

// The span of a block of `size` samples, from the clock on.
fn span_of(times: &Times, size: usize) -> Span
    ensures { result ≡ span_from times.now size }
{
    let clock = times[CLOCK];
    let duration = times[DURATION];
    Span {
        size,
        clock,
        upto: clock + duration * std::num::nearest_u64_to_f64(size as u64),
        rate: times[RATE],
        duration,
    }
}

// Moves the clock by a block of `size` samples. `out` has 64 places a channel.
// Answers how the block's places were computed, or the first refusal of 10, 11 and 12, which leaves `out` as it was too.
pub fn process(
    times: &mut Times,
    levels: &mut Levels,
    marks: &mut Marks,
    numbers: &mut Numbers,
    order: MixOrder,
    size: usize,
    pool: &[f32],
    out: &mut [f32],
) -> Answer
    ensures engine { engine_of (after times.new levels.new marks.new numbers.new)
        ≡ (blocks order pool.now size (length out.old) (engine_of (before times.old levels.old marks.old numbers.old))).sequencer }
    ensures samples { out.new ≡ block_outs order pool.now size (engine_of (before times.old levels.old marks.old numbers.old)) out.old }
    ensures answer { result ≡ (blocks order pool.now size (length out.old) (engine_of (before times.old levels.old marks.old numbers.old))).answer }
    ensures refused { Refuses result → after times.new levels.new marks.new numbers.new ≡ before times.old levels.old marks.old numbers.old }
{
    let span = span_of(times, size);
    let channels = numbers[CHANNELS] as usize;
    if let Some(refusal) = process_refusal(size, out.len(), channels, span.clock, span.duration) {
        return Answer::Refused(refusal.number());
    }
    advance(times, levels, marks, numbers, span.upto);
    let w = mixing::cleared_places(size);
    let mut mix = [0.0f32; 64];
    let places = mix_channels(
        times,
        levels,
        marks,
        numbers,
        order,
        span,
        pool,
        &mut mix[0..w],
        out,
    );
    Answer::Rendered(places)
}
