// Reset, and a change of the rate.
ghost use Rattle.std.specs.Prelude.{◌≡◌, T};
ghost use Rattle.sequencer.specs.Resets.{resets, rates};
ghost use Rattle.memory.specs.Memory.{before, after, engine_of};
ghost use Rattle.chakaqel.specs.Entries.{code_of, refusal};

use crate::numbers::code_of;
use memory::{Levels, Marks, Numbers, Times};

// Mode All: everything waits again, from its beginning, and stored edits remain. None: everything is let go, and no edit remains.
#[unsafe(no_mangle)]
pub extern "C" fn chakaqel_reset(
    times: &mut Times,
    levels: &mut Levels,
    marks: &mut Marks,
    numbers: &mut Numbers,
)
    ensures { engine_of (after times.new levels.new marks.new numbers.new) ≡ resets (engine_of (before times.old levels.old marks.old numbers.old)) }
{
    live::reset(times, levels, marks, numbers);
}

// Sets the rate, in samples a second. Answers 0, or the refusal 2. Where the rate differs everything waits again, its source where it was.
#[unsafe(no_mangle)]
pub extern "C" fn chakaqel_set_sample_rate(
    times: &mut Times,
    levels: &mut Levels,
    marks: &mut Marks,
    numbers: &mut Numbers,
    rate: f64,
) -> u64
    ensures engine { engine_of (after times.new levels.new marks.new numbers.new) ≡ (rates (engine_of (before times.old levels.old marks.old numbers.old)) rate).sequencer }
    ensures answer { result ≡ code_of (rates (engine_of (before times.old levels.old marks.old numbers.old)) rate).answer }
    ensures refused { T (refusal result) → after times.new levels.new marks.new numbers.new ≡ before times.old levels.old marks.old numbers.old }
{
    let answer = live::set_sample_rate(times, levels, marks, numbers, rate);
    code_of(answer)
}
