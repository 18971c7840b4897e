// Reset, and a change of the rate.
ghost use Rattle.std.specs.Prelude.{◌≡◌, ◌+◌, ◌%◌, ◌^◌, min, slice_set};
ghost use Rattle.floats.specs.Arithmetic.{zeroᶠ, -∞};
ghost use Rattle.sequencer.specs.Resets.{emptied_lists, resets, rates};
ghost use Rattle.memory.specs.Memory.{before, after, engine_of};
ghost use Rattle.live.specs.CallContracts.{Refuses, gone_all};

use list_moves::{all_to_ready, rewind_ready};
use memory::{
    CLOCK, DURATION, EDITS, FINISHED, LET_GO, Levels, MODE, Marks, Numbers, RATE, ROOM, SOUNDING,
    THRESHOLD, Times, WAITING, sized,
};
use refusals::rate_refusal;
use sequencer::Answer;

// Every event is let go, and no edit remains.
fn let_all_go(times: &Times, levels: &Levels, marks: &Marks, numbers: &mut Numbers)
    ensures { engine_of (after times.now levels.now marks.now numbers.new)
        ≡ emptied_lists (engine_of (before times.now levels.now marks.now numbers.old)) (gone_all (engine_of (before times.now levels.now marks.now numbers.old))) }
{
    sized(times, levels, marks, numbers);
    let past = (numbers[FINISHED] as usize).min(ROOM);
    let waiting = (numbers[WAITING] as usize).min(ROOM);
    let sounding = (numbers[SOUNDING] as usize).min(ROOM);
    let n = past + (waiting + sounding);
    numbers[LET_GO] = numbers[LET_GO].wrapping_add(n as u64);
    numbers[WAITING] = 0;
    numbers[SOUNDING] = 0;
    numbers[FINISHED] = 0;
    numbers[EDITS] = 0;
}

// The clock at 0, and a threshold below every start.
fn start_over(times: &mut Times)
    ensures { times.new ≡ slice_set (slice_set times.old 3072 zeroᶠ) 3073 -∞ }
{
    times[CLOCK] = 0.0;
    times[THRESHOLD] = f64::NEG_INFINITY;
}

// All: everything waits again, from its beginning, and stored edits remain. None: everything is let go, and no edit remains.
pub fn reset(times: &mut Times, levels: &mut Levels, marks: &mut Marks, numbers: &mut Numbers)
    ensures { engine_of (after times.new levels.new marks.new numbers.new) ≡ resets (engine_of (before times.old levels.old marks.old numbers.old)) }
{
    if numbers[MODE] == 0 {
        all_to_ready(times, levels, marks, numbers);
        rewind_ready(times, levels, marks, numbers);
        sized(times, levels, marks, numbers);
        start_over(times);
        return;
    }
    let_all_go(times, levels, marks, numbers);
    sized(times, levels, marks, numbers);
    start_over(times);
}

// Sets the rate, in samples a second. Answers done, or the refusal 2. Where the rate differs everything waits again, its source where it was.
pub fn set_sample_rate(
    times: &mut Times,
    levels: &mut Levels,
    marks: &mut Marks,
    numbers: &mut Numbers,
    rate: f64,
) -> Answer
    ensures engine { engine_of (after times.new levels.new marks.new numbers.new) ≡ (rates (engine_of (before times.old levels.old marks.old numbers.old)) rate).sequencer }
    ensures answer { result ≡ (rates (engine_of (before times.old levels.old marks.old numbers.old)) rate).answer }
    ensures refused { Refuses result → after times.new levels.new marks.new numbers.new ≡ before times.old levels.old marks.old numbers.old }
{
    if let Some(refusal) = rate_refusal(rate) {
        return Answer::Refused(refusal.number());
    }
    if times[RATE] == rate {
        return Answer::Done;
    }
    all_to_ready(times, levels, marks, numbers);
    sized(times, levels, marks, numbers);
    times[RATE] = rate;
    times[DURATION] = 1.0 / rate;
    times[THRESHOLD] = f64::NEG_INFINITY;
    Answer::Done
}
