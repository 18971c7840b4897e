// Pushes.
ghost use Rattle.std.specs.Prelude.{◌≡◌, T};
ghost use Rattle.ledger.specs.Calls.{absolute, relative, by_duration};
ghost use Rattle.memory.specs.Memory.{before, after, engine_of};
ghost use Rattle.live.specs.CallContracts.{timed};
ghost use Rattle.chakaqel.specs.Entries.{refusal, push_entry};

use crate::numbers::{tell_push, voice_of};
use live::Timing;
use memory::{Levels, Marks, Numbers, Times};

// A push of one of the three kinds; `end_time` is the duration where that is stated.
fn push_timed(
    times: &mut Times,
    levels: &mut Levels,
    marks: &mut Marks,
    numbers: &mut Numbers,
    told: &mut [u64; 2],
    timing: Timing,
    start_time: f64,
    end_time: f64,
    curve: u32,
    fade_in: f64,
    fade_out: f64,
    source: u32,
    a: f32,
    b: f32,
    offset: u32,
    length: u32,
    gain: f32,
) -> u64
    ensures engine { engine_of (after times.new levels.new marks.new numbers.new)
        ≡ (push_entry (timed timing) (engine_of (before times.old levels.old marks.old numbers.old)) told.old
        start_time end_time curve fade_in fade_out source a b offset length gain).engine }
    ensures answer { result ≡ (push_entry (timed timing) (engine_of (before times.old levels.old marks.old numbers.old)) told.old
        start_time end_time curve fade_in fade_out source a b offset length gain).code }
    ensures told { told.new ≡ (push_entry (timed timing) (engine_of (before times.old levels.old marks.old numbers.old)) told.old
        start_time end_time curve fade_in fade_out source a b offset length gain).told }
    ensures refused { T (refusal result) → after times.new levels.new marks.new numbers.new ≡ before times.old levels.old marks.old numbers.old }
{
    let Some((fade_ease, source)) = voice_of(curve, source, a, b, offset, length) else {
        return 14;
    };
    let pushed = live::push_timed(
        times, levels, marks, numbers, timing, start_time, end_time, fade_ease, fade_in, fade_out,
        source, gain,
    );
    tell_push(pushed.answer, pushed.rise, told)
}

// Schedules an event from `start_time` to `end_time`, in seconds on the engine's clock. Curves: 0 power, 1 smooth. Sources: 0 held (level a),
// 1 ramp (value a, step b), 2 clip (offset, length). Answers 0, with the event's number and rise in `told`;
// 14 where curve or source has no such number; or the first refusal of 3, 4, 5, 18, 6, 7.
#[unsafe(no_mangle)]
pub extern "C" fn chakaqel_push(
    times: &mut Times,
    levels: &mut Levels,
    marks: &mut Marks,
    numbers: &mut Numbers,
    told: &mut [u64; 2],
    start_time: f64,
    end_time: f64,
    curve: u32,
    fade_in: f64,
    fade_out: f64,
    source: u32,
    a: f32,
    b: f32,
    offset: u32,
    length: u32,
    gain: f32,
) -> u64
    ensures engine { engine_of (after times.new levels.new marks.new numbers.new)
        ≡ (push_entry absolute (engine_of (before times.old levels.old marks.old numbers.old)) told.old
        start_time end_time curve fade_in fade_out source a b offset length gain).engine }
    ensures answer { result ≡ (push_entry absolute (engine_of (before times.old levels.old marks.old numbers.old)) told.old
        start_time end_time curve fade_in fade_out source a b offset length gain).code }
    ensures told { told.new ≡ (push_entry absolute (engine_of (before times.old levels.old marks.old numbers.old)) told.old
        start_time end_time curve fade_in fade_out source a b offset length gain).told }
    ensures refused { T (refusal result) → after times.new levels.new marks.new numbers.new ≡ before times.old levels.old marks.old numbers.old }
{
    push_timed(
        times,
        levels,
        marks,
        numbers,
        told,
        Timing::Absolute,
        start_time,
        end_time,
        curve,
        fade_in,
        fade_out,
        source,
        a,
        b,
        offset,
        length,
        gain,
    )
}

// The same; start and end are relative to the clock, which is added after the checks.
#[unsafe(no_mangle)]
pub extern "C" fn chakaqel_push_relative(
    times: &mut Times,
    levels: &mut Levels,
    marks: &mut Marks,
    numbers: &mut Numbers,
    told: &mut [u64; 2],
    start_time: f64,
    end_time: f64,
    curve: u32,
    fade_in: f64,
    fade_out: f64,
    source: u32,
    a: f32,
    b: f32,
    offset: u32,
    length: u32,
    gain: f32,
) -> u64
    ensures engine { engine_of (after times.new levels.new marks.new numbers.new)
        ≡ (push_entry relative (engine_of (before times.old levels.old marks.old numbers.old)) told.old
        start_time end_time curve fade_in fade_out source a b offset length gain).engine }
    ensures answer { result ≡ (push_entry relative (engine_of (before times.old levels.old marks.old numbers.old)) told.old
        start_time end_time curve fade_in fade_out source a b offset length gain).code }
    ensures told { told.new ≡ (push_entry relative (engine_of (before times.old levels.old marks.old numbers.old)) told.old
        start_time end_time curve fade_in fade_out source a b offset length gain).told }
    ensures refused { T (refusal result) → after times.new levels.new marks.new numbers.new ≡ before times.old levels.old marks.old numbers.old }
{
    push_timed(
        times,
        levels,
        marks,
        numbers,
        told,
        Timing::Relative,
        start_time,
        end_time,
        curve,
        fade_in,
        fade_out,
        source,
        a,
        b,
        offset,
        length,
        gain,
    )
}

// The same; the event ends at `start_time + duration`.
#[unsafe(no_mangle)]
pub extern "C" fn chakaqel_push_duration(
    times: &mut Times,
    levels: &mut Levels,
    marks: &mut Marks,
    numbers: &mut Numbers,
    told: &mut [u64; 2],
    start_time: f64,
    duration: f64,
    curve: u32,
    fade_in: f64,
    fade_out: f64,
    source: u32,
    a: f32,
    b: f32,
    offset: u32,
    length: u32,
    gain: f32,
) -> u64
    ensures engine { engine_of (after times.new levels.new marks.new numbers.new)
        ≡ (push_entry by_duration (engine_of (before times.old levels.old marks.old numbers.old)) told.old
        start_time duration curve fade_in fade_out source a b offset length gain).engine }
    ensures answer { result ≡ (push_entry by_duration (engine_of (before times.old levels.old marks.old numbers.old)) told.old
        start_time duration curve fade_in fade_out source a b offset length gain).code }
    ensures told { told.new ≡ (push_entry by_duration (engine_of (before times.old levels.old marks.old numbers.old)) told.old
        start_time duration curve fade_in fade_out source a b offset length gain).told }
    ensures refused { T (refusal result) → after times.new levels.new marks.new numbers.new ≡ before times.old levels.old marks.old numbers.old }
{
    push_timed(
        times,
        levels,
        marks,
        numbers,
        told,
        Timing::Duration,
        start_time,
        duration,
        curve,
        fade_in,
        fade_out,
        source,
        a,
        b,
        offset,
        length,
        gain,
    )
}
