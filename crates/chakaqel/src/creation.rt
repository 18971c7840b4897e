// Creation.
ghost use Rattle.std.specs.Prelude.{◌≡◌, T};
ghost use Rattle.memory.specs.Memory.{before, after, engine_of};
ghost use Rattle.chakaqel.specs.Entries.{unknown_mode, create_entry};

use crate::numbers::{code_of, mode_of};
use memory::{Levels, Marks, Numbers, Times};

// Makes an empty engine of the arrays, whatever they held. Modes: 0 All, 1 None.
// Answers 0; 14 where the mode has no such number; or 1: then they hold an empty engine of one channel, mode All, first number 1.
#[unsafe(no_mangle)]
pub extern "C" fn chakaqel_create(
    times: &mut Times,
    levels: &mut Levels,
    marks: &mut Marks,
    numbers: &mut Numbers,
    channels: usize,
    mode: u32,
    first: u64,
) -> u64
    ensures engine { engine_of (after times.new levels.new marks.new numbers.new)
        ≡ (create_entry (engine_of (before times.old levels.old marks.old numbers.old)) channels mode first).engine }
    ensures answer { result ≡ (create_entry (engine_of (before times.old levels.old marks.old numbers.old)) channels mode first).code }
    ensures unknown { T (unknown_mode mode) → after times.new levels.new marks.new numbers.new ≡ before times.old levels.old marks.old numbers.old }
{
    let Some(mode) = mode_of(mode) else {
        return 14;
    };
    let answer = live::create(times, levels, marks, numbers, channels, mode, first);
    code_of(answer)
}
