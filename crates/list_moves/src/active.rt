// The sounding list with its index, and the finished list.
ghost use Rattle.std.specs.Prelude.{◌≡◌, ◌+◌, ◌<◌, ◌≤◌, slice_index_or, slice_set};
ghost use Rattle.event.specs.Blank.{blank};
ghost use Rattle.sequencer.specs.Parts.{with_past};
ghost use Rattle.sequencer.specs.Moves.{pushed_active, released_past, active_to_past};
ghost use Rattle.sequencer.specs.Turns.{filled_by_last};
ghost use Rattle.sequencer.specs.Readers.{place_in};
ghost use Rattle.memory.specs.Memory.{Cells, cells_of, before, after, engine_of};

use crate::edits::seek;
use event::{Event, EventId};
use memory::{
    ACTIVE, FINISHED, INDEX, LET_GO, Levels, MODE, Marks, Numbers, PAST, ROOM, SOUNDING, Times,
    copy_slot, put_event, sized,
};

// The place of a number in the sounding list.
pub fn place(
    times: &Times,
    levels: &Levels,
    marks: &Marks,
    numbers: &Numbers,
    id: EventId,
) -> Option<usize>
    ensures { result ≡ place_in (engine_of (before times.now levels.now marks.now numbers.now)) id }
{
    seek(numbers, INDEX, numbers[SOUNDING] as usize, id.0)
}

// Appends the event to the sounding list.
pub(crate) fn append(
    times: &mut Times,
    levels: &mut Levels,
    marks: &mut Marks,
    numbers: &mut Numbers,
    event: Event,
)
    ensures { engine_of (after times.new levels.new marks.new numbers.new) ≡ pushed_active (engine_of (before times.old levels.old marks.old numbers.old)) event }
{
    sized(times, levels, marks, numbers);
    let n = numbers[SOUNDING] as usize;
    if n < ROOM {
        put_event(times, levels, marks, numbers, ACTIVE + n, event);
        numbers[INDEX + n] = event.id.0;
        numbers[SOUNDING] = (n + 1) as u64;
    }
}

// Copies the sounding event at place i to the end of the finished list, where there is room.
fn keep(times: &mut Times, levels: &mut Levels, marks: &mut Marks, numbers: &mut Numbers, i: usize)
    requires { i < 256 }
    ensures room { (engine_of (before times.old levels.old marks.old numbers.old)).past_len < 256
        → engine_of (after times.new levels.new marks.new numbers.new) ≡ with_past (engine_of (before times.old levels.old marks.old numbers.old))
        (slice_set (engine_of (before times.old levels.old marks.old numbers.old)).past (engine_of (before times.old levels.old marks.old numbers.old)).past_len
        (slice_index_or (engine_of (before times.old levels.old marks.old numbers.old)).active i blank)) ((engine_of (before times.old levels.old marks.old numbers.old)).past_len + 1) }
    ensures full { 256 ≤ (engine_of (before times.old levels.old marks.old numbers.old)).past_len
        → engine_of (after times.new levels.new marks.new numbers.new) ≡ engine_of (before times.old levels.old marks.old numbers.old) }
{
    sized(times, levels, marks, numbers);
    let k = numbers[FINISHED] as usize;
    if k < ROOM {
        copy_slot(times, levels, marks, numbers, PAST + k, ACTIVE + i);
        numbers[FINISHED] = (k + 1) as u64;
    }
}

// The last of n sounding events fills place i.
fn fill(
    times: &mut Times,
    levels: &mut Levels,
    marks: &mut Marks,
    numbers: &mut Numbers,
    i: usize,
    n: usize,
)
    requires { (i < n) × (n ≤ 256) × (n ≡ (engine_of (cells_of times.old levels.old marks.old numbers.old)).active_len) }
    ensures { engine_of (after times.new levels.new marks.new numbers.new) ≡ filled_by_last (engine_of (before times.old levels.old marks.old numbers.old)) i }
{
    sized(times, levels, marks, numbers);
    let last = n - 1;
    let id = numbers[INDEX + last];
    copy_slot(times, levels, marks, numbers, ACTIVE + i, ACTIVE + last);
    numbers[INDEX + i] = id;
    numbers[SOUNDING] = last as u64;
}

// Moves the sounding events that end by `limit` to the finished list; of each the last fills its place.
pub fn active_to_past(
    times: &mut Times,
    levels: &mut Levels,
    marks: &mut Marks,
    numbers: &mut Numbers,
    limit: f64,
)
    ensures { engine_of (after times.new levels.new marks.new numbers.new) ≡ active_to_past (engine_of (before times.old levels.old marks.old numbers.old)) limit }
{
    let mut n = numbers[SOUNDING] as usize;
    if ROOM < n {
        return;
    }
    let mut i = 0;
    while i < n {
        if times[4 * (ACTIVE + i) + 1] <= limit {
            keep(times, levels, marks, numbers, i);
            fill(times, levels, marks, numbers, i, n);
            n -= 1;
        } else {
            i += 1;
        }
    }
}

// Lets the finished events go, in mode None.
pub fn release_past(times: &Times, levels: &Levels, marks: &Marks, numbers: &mut Numbers)
    ensures { engine_of (after times.now levels.now marks.now numbers.new)
        ≡ released_past (engine_of (before times.now levels.now marks.now numbers.old)) (engine_of (before times.now levels.now marks.now numbers.old)).mode }
{
    sized(times, levels, marks, numbers);
    if numbers[MODE] == 0 {
        return;
    }
    numbers[LET_GO] = numbers[LET_GO].wrapping_add(numbers[FINISHED]);
    numbers[FINISHED] = 0;
}
