// Edits.
ghost use Rattle.std.specs.Prelude.{◌≡◌, T};
ghost use Rattle.ledger.specs.Calls.{absolute_end, relative_end};
ghost use Rattle.sequencer.specs.Edits as Edits;
ghost use Rattle.memory.specs.Memory.{before, after, engine_of};
ghost use Rattle.chakaqel.specs.Entries.{code_of, refusal};

use crate::numbers::code_of;
use event::EventId;
use memory::{Levels, Marks, Numbers, Times};

// Changes the end and the fade-out of the event with that number. Answers 0 applied, 256 past, 257 stored, or the refusal 8 or 9.
#[unsafe(no_mangle)]
pub extern "C" fn chakaqel_edit(
    times: &mut Times,
    levels: &Levels,
    marks: &Marks,
    numbers: &mut Numbers,
    number: u64,
    end_time: f64,
    fade_out: f64,
) -> u64
    ensures engine { engine_of (after times.new levels.now marks.now numbers.new)
        ≡ (Edits.edits absolute_end (engine_of (before times.old levels.now marks.now numbers.old)) (record { 0 = number }) end_time fade_out).sequencer }
    ensures answer { result
        ≡ code_of (Edits.edits absolute_end (engine_of (before times.old levels.now marks.now numbers.old)) (record { 0 = number }) end_time fade_out).answer }
    ensures refused { T (refusal result) → after times.new levels.now marks.now numbers.new ≡ before times.old levels.now marks.now numbers.old }
{
    let id = EventId(number);
    let answer = live::edit(times, levels, marks, numbers, id, end_time, fade_out);
    code_of(answer)
}

// The same; the end is relative to the clock.
#[unsafe(no_mangle)]
pub extern "C" fn chakaqel_edit_relative(
    times: &mut Times,
    levels: &Levels,
    marks: &Marks,
    numbers: &mut Numbers,
    number: u64,
    end_time: f64,
    fade_out: f64,
) -> u64
    ensures engine { engine_of (after times.new levels.now marks.now numbers.new)
        ≡ (Edits.edits relative_end (engine_of (before times.old levels.now marks.now numbers.old)) (record { 0 = number }) end_time fade_out).sequencer }
    ensures answer { result
        ≡ code_of (Edits.edits relative_end (engine_of (before times.old levels.now marks.now numbers.old)) (record { 0 = number }) end_time fade_out).answer }
    ensures refused { T (refusal result) → after times.new levels.now marks.now numbers.new ≡ before times.old levels.now marks.now numbers.old }
{
    let id = EventId(number);
    let answer = live::edit_relative(times, levels, marks, numbers, id, end_time, fade_out);
    code_of(answer)
}
