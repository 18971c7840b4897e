// The heap of those that wait: an event rises into it, and its first leaves.
ghost use Rattle.std.specs.Prelude.{◌≡◌, ◌+◌, ◌*◌, ◌<◌};
ghost use Rattle.event.specs.Events.{earlier};
ghost use Rattle.event.specs.Blank.{blank};
ghost use Rattle.ready.specs.Sift as Sift;
ghost use Rattle.ready.specs.Levels as Rises;
ghost use Rattle.sequencer.specs.Parts.{with_ready};
ghost use Rattle.sequencer.specs.Moves.{pushed_ready, popped_ready, pushed_event};
ghost use Rattle.sequencer.specs.Rises.{rise_ready, rise_of};
ghost use Rattle.memory.specs.Memory.{before, after, engine_of};

use crate::active::append;
use event::Event;
use memory::{
    Levels, Marks, Numbers, ROOM, THRESHOLD, Times, WAITING, copy_slot, event_at, put_event, sized,
};

// The event goes up the heap from the free place `from`, past every one that it precedes. Answers how many it passed.
pub(crate) fn rise(
    times: &mut Times,
    levels: &mut Levels,
    marks: &mut Marks,
    numbers: &mut Numbers,
    from: usize,
    event: Event,
) -> usize
    requires { from < 256 }
    ensures engine { engine_of (after times.new levels.new marks.new numbers.new)
        ≡ with_ready (engine_of (before times.old levels.old marks.old numbers.old))
        (Sift.rise earlier blank from (engine_of (before times.old levels.old marks.old numbers.old)).ready from event)
        (engine_of (before times.old levels.old marks.old numbers.old)).ready_len }
    ensures passed { result ≡ Rises.levels earlier blank from (engine_of (before times.old levels.old marks.old numbers.old)).ready from event }
{
    sized(times, levels, marks, numbers);
    let mut passed: usize = 0;
    let mut i = from;
    while 0 < i {
        let p = (i - 1) / 2;
        let parent = event_at(times, levels, marks, numbers, p);
        if !event.precedes(parent) {
            break;
        }
        copy_slot(times, levels, marks, numbers, i, p);
        i = p;
        passed += 1;
    }
    put_event(times, levels, marks, numbers, i, event);
    passed
}

// The event waits. Answers how many levels it rose; a full heap stays as it is, and the answer is 0.
pub(crate) fn wait(
    times: &mut Times,
    levels: &mut Levels,
    marks: &mut Marks,
    numbers: &mut Numbers,
    event: Event,
) -> usize
    ensures engine { engine_of (after times.new levels.new marks.new numbers.new) ≡ pushed_ready (engine_of (before times.old levels.old marks.old numbers.old)) event }
    ensures rise { result ≡ rise_ready (engine_of (before times.old levels.old marks.old numbers.old)) event }
{
    let n = numbers[WAITING] as usize;
    if n < ROOM {
        let passed = rise(times, levels, marks, numbers, n, event);
        sized(times, levels, marks, numbers);
        numbers[WAITING] = (n + 1) as u64;
        return passed;
    }
    0
}

// Appends the event to the sounding list if it starts before the threshold, without looking for an edit; otherwise it waits.
// Answers how many levels it rose in the heap.
pub fn push_event(
    times: &mut Times,
    levels: &mut Levels,
    marks: &mut Marks,
    numbers: &mut Numbers,
    event: Event,
) -> usize
    ensures engine { engine_of (after times.new levels.new marks.new numbers.new) ≡ pushed_event (engine_of (before times.old levels.old marks.old numbers.old)) event }
    ensures rise { result ≡ rise_of (engine_of (before times.old levels.old marks.old numbers.old)) event }
{
    if event.start_time < times[THRESHOLD] {
        append(times, levels, marks, numbers, event);
        return 0;
    }
    wait(times, levels, marks, numbers, event)
}

// The child of place i that leaves first, of those below m.
fn child(
    times: &Times,
    levels: &Levels,
    marks: &Marks,
    numbers: &Numbers,
    i: usize,
    m: usize,
) -> usize
    requires { (2 * i + 1 < m) × (m < 256) }
    ensures { (Sift.child earlier blank (engine_of (before times.now levels.now marks.now numbers.now)).ready m i ≡ result) × (i < result) × (result < m) }
{
    if m <= 2 * i + 2 {
        return 2 * i + 1;
    }
    let left = event_at(times, levels, marks, numbers, 2 * i + 1);
    let right = event_at(times, levels, marks, numbers, 2 * i + 2);
    if right.precedes(left) {
        return 2 * i + 2;
    }
    2 * i + 1
}

// The first leaves: its place is filled from below, and from where that ends the last goes up, past every one that it precedes.
pub(crate) fn pop(times: &mut Times, levels: &mut Levels, marks: &mut Marks, numbers: &mut Numbers)
    ensures { engine_of (after times.new levels.new marks.new numbers.new) ≡ popped_ready (engine_of (before times.old levels.old marks.old numbers.old)) }
{
    let n = numbers[WAITING] as usize;
    if n == 0 || ROOM < n {
        return;
    }
    sized(times, levels, marks, numbers);
    let m = n - 1;
    let last = event_at(times, levels, marks, numbers, m);
    let mut i = 0;
    while 2 * i + 1 < m {
        let c = child(times, levels, marks, numbers, i, m);
        copy_slot(times, levels, marks, numbers, i, c);
        i = c;
    }
    rise(times, levels, marks, numbers, i, last);
    sized(times, levels, marks, numbers);
    numbers[WAITING] = m as u64;
}
