// Ticks and blocks. Marks: 0 none; 1 is document 02's (Paper 9), which adds the sounding events from the list's end.
ghost use Rattle.std.specs.Prelude.{◌≡◌, T};
ghost use Rattle.memory.specs.Memory.{before, after, engine_of};
ghost use Rattle.chakaqel.specs.Entries.{refusal, tick_entry, process_entry};

use crate::numbers::{code_of, order_of, tell_block};
use memory::{Levels, Marks, Numbers, Times};

// Moves the clock by one sample. `out` has one sample a channel, and each gets the sum. The pool is lent for the clips.
// Answers 0; 14 where the mark has no such number; or the refusal 10 or 12.
#[unsafe(no_mangle)]
pub extern "C" fn chakaqel_tick(
    times: &mut Times,
    levels: &mut Levels,
    marks: &mut Marks,
    numbers: &mut Numbers,
    mark: u32,
    pool: &[f32],
    out: &mut [f32],
) -> u64
    ensures engine { engine_of (after times.new levels.new marks.new numbers.new)
        ≡ (tick_entry (engine_of (before times.old levels.old marks.old numbers.old)) mark pool.now out.old).engine }
    ensures samples { out.new ≡ (tick_entry (engine_of (before times.old levels.old marks.old numbers.old)) mark pool.now out.old).samples }
    ensures answer { result ≡ (tick_entry (engine_of (before times.old levels.old marks.old numbers.old)) mark pool.now out.old).code }
    ensures refused { T (refusal result) → after times.new levels.new marks.new numbers.new ≡ before times.old levels.old marks.old numbers.old }
{
    let Some(order) = order_of(mark) else {
        return 14;
    };
    let answer = live::tick(times, levels, marks, numbers, order, pool, out);
    code_of(answer)
}

// Moves the clock by a block of `size` samples. `out` has 64 places a channel. The pool is lent for the clips.
// Answers 0, with how many of the block's places were kept, forced and set at an edge in `places` (document 02, Paper 12);
// 14 where the mark has no such number; or the first refusal of 10, 11 and 12.
#[unsafe(no_mangle)]
pub extern "C" fn chakaqel_process(
    times: &mut Times,
    levels: &mut Levels,
    marks: &mut Marks,
    numbers: &mut Numbers,
    places: &mut [u64; 3],
    mark: u32,
    size: usize,
    pool: &[f32],
    out: &mut [f32],
) -> u64
    ensures engine { engine_of (after times.new levels.new marks.new numbers.new)
        ≡ (process_entry (engine_of (before times.old levels.old marks.old numbers.old)) places.old mark size
        pool.now out.old).engine }
    ensures samples { out.new ≡ (process_entry (engine_of (before times.old levels.old marks.old numbers.old)) places.old mark size
        pool.now out.old).samples }
    ensures answer { result ≡ (process_entry (engine_of (before times.old levels.old marks.old numbers.old)) places.old mark size
        pool.now out.old).code }
    ensures places { places.new ≡ (process_entry (engine_of (before times.old levels.old marks.old numbers.old)) places.old mark size
        pool.now out.old).told }
    ensures refused { T (refusal result) → after times.new levels.new marks.new numbers.new ≡ before times.old levels.old marks.old numbers.old }
{
    let Some(order) = order_of(mark) else {
        return 14;
    };
    let answer = live::process(times, levels, marks, numbers, order, size, pool, out);
    tell_block(answer, places)
}
