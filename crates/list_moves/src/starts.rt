// Events that are due start.
ghost use Rattle.std.specs.Prelude.{◌≡◌, slice_index_or};
ghost use Rattle.event.specs.Blank.{blank};
ghost use Rattle.floats.specs.Arithmetic.{◌-ᵈ◌, ◌×ᵈ◌, halfᶠ};
ghost use Rattle.sequencer.specs.Parts.{with_times};
ghost use Rattle.sequencer.specs.Moves.{activated, ready_to_active};
ghost use Rattle.memory.specs.Memory.{before, after, engine_of};

use crate::active::append;
use crate::edits::take_edit;
use crate::heap::pop;
use memory::{
    DURATION, Levels, Marks, Numbers, READY, ROOM, THRESHOLD, Times, WAITING, event_at, sized,
};

// The heap's first becomes active, with its edit.
fn start_first(times: &mut Times, levels: &mut Levels, marks: &mut Marks, numbers: &mut Numbers)
    ensures { engine_of (after times.new levels.new marks.new numbers.new)
        ≡ activated (engine_of (before times.old levels.old marks.old numbers.old)) (slice_index_or (engine_of (before times.old levels.old marks.old numbers.old)).ready 0 blank) }
{
    let first = event_at(times, levels, marks, numbers, READY);
    let event = take_edit(times, levels, marks, numbers, first);
    pop(times, levels, marks, numbers);
    append(times, levels, marks, numbers, event);
}

// Starts those that start before the threshold, first first.
fn start_due(times: &mut Times, levels: &mut Levels, marks: &mut Marks, numbers: &mut Numbers)
    ensures { engine_of (after times.new levels.new marks.new numbers.new) ≡ ready_to_active (engine_of (before times.old levels.old marks.old numbers.old)) }
{
    let n = numbers[WAITING] as usize;
    if ROOM < n {
        return;
    }
    for _ in 0..n {
        if !(times[4 * READY] < times[THRESHOLD]) {
            return;
        }
        start_first(times, levels, marks, numbers);
    }
}

// Sets the threshold for a step that ends at `next_end_time`, and starts those that are due.
pub fn ready_to_active(
    times: &mut Times,
    levels: &mut Levels,
    marks: &mut Marks,
    numbers: &mut Numbers,
    next_end_time: f64,
)
    ensures { engine_of (after times.new levels.new marks.new numbers.new)
        ≡ ready_to_active (with_times (engine_of (before times.old levels.old marks.old numbers.old)) (engine_of (before times.old levels.old marks.old numbers.old)).time
        (next_end_time -ᵈ (engine_of (before times.old levels.old marks.old numbers.old)).sample_duration ×ᵈ halfᶠ)) }
{
    sized(times, levels, marks, numbers);
    let duration = times[DURATION];
    times[THRESHOLD] = next_end_time - duration * 0.5;
    start_due(times, levels, marks, numbers);
}
