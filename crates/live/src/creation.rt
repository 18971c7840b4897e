// Creation.
ghost use Rattle.std.specs.Prelude.{◌≡◌, replicate};
ghost use Rattle.floats.specs.Arithmetic.{zeroᶠ};
ghost use Rattle.sequencer.specs.Creation.{fresh_engine, refuses_creation, created};
ghost use Rattle.memory.specs.Memory.{after, engine_of, mode_if};
ghost use Rattle.live.specs.CallContracts.{mode_number};

use event::ReplayMode;
use memory::{CHANNELS, DURATION, Levels, MODE, Marks, NEXT, Numbers, RATE, THRESHOLD, Times};
use sequencer::Answer;

// The number of a mode: 0 is All. (A From would have to stand in crate event, for this one use, and is no plainer.)
fn mode_number(mode: ReplayMode) -> u64
    ensures { result ≡ mode_number mode }
{
    match mode {
        ReplayMode::All => 0,
        ReplayMode::None => 1,
    }
}

// An empty engine.
fn fresh(
    times: &mut Times,
    levels: &mut Levels,
    marks: &mut Marks,
    numbers: &mut Numbers,
    outputs: usize,
    mode: ReplayMode,
    first: u64,
)
    ensures { engine_of (after times.new levels.new marks.new numbers.new) ≡ fresh_engine outputs mode first }
{
    times.fill(0.0);
    levels.fill(0.0);
    marks.fill(0);
    numbers.fill(0);
    times[THRESHOLD] = f64::NEG_INFINITY;
    times[RATE] = 44100.0;
    times[DURATION] = 1.0 / 44100.0;
    numbers[CHANNELS] = outputs as u64;
    numbers[MODE] = mode_number(mode);
    numbers[NEXT] = first;
}

// 1: the channels are not 1 to 8, or the first number is 0.
fn refuses_creation(outputs: usize, first: u64) -> bool
    ensures { result ≡ refuses_creation outputs first }
{
    outputs < 1 || 8 < outputs || first == 0
}

// Makes an empty engine of the arrays, whatever they held.
// Answers done, or the refusal 1: then they hold an empty engine of one channel, mode All, first number 1.
pub fn create(
    times: &mut Times,
    levels: &mut Levels,
    marks: &mut Marks,
    numbers: &mut Numbers,
    outputs: usize,
    mode: ReplayMode,
    first: u64,
) -> Answer
    ensures engine { engine_of (after times.new levels.new marks.new numbers.new) ≡ (created outputs mode first).sequencer }
    ensures answer { result ≡ (created outputs mode first).answer }
{
    if refuses_creation(outputs, first) {
        fresh(times, levels, marks, numbers, 1, ReplayMode::All, 1);
        return Answer::Refused(1);
    }
    fresh(times, levels, marks, numbers, outputs, mode, first);
    Answer::Done
}
