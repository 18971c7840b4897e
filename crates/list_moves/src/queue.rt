// Everything waits again.
ghost use Rattle.std.specs.Prelude.{◌≡◌, ◌+◌, ◌<◌, ◌≤◌};
ghost use Rattle.sequencer.specs.Parts.{with_active, with_past};
ghost use Rattle.sequencer.specs.Moves.{held_at, all_to_ready};
ghost use Rattle.sequencer.specs.Resets.{rewound_ready};
ghost use Rattle.memory.specs.Memory.{before, after, engine_of};

use crate::heap::wait;
use event::Event;
use memory::{
    ACTIVE, FINISHED, Levels, Marks, Numbers, PAST, ROOM, SOUNDING, Times, WAITING, event_at,
    put_unit, sized,
};

// The event at place k: of the `past` finished, and after these of the sounding.
fn held_event(
    times: &Times,
    levels: &Levels,
    marks: &Marks,
    numbers: &Numbers,
    k: usize,
    past: usize,
) -> Event
    requires { (past ≤ 256) × (k < past + 256) }
    ensures { result ≡ held_at past (engine_of (before times.now levels.now marks.now numbers.now)) k }
{
    if k < past {
        return event_at(times, levels, marks, numbers, PAST + k);
    }
    event_at(times, levels, marks, numbers, ACTIVE + (k - past))
}

// No event is finished, and none sounds.
fn clear_lists(times: &Times, levels: &Levels, marks: &Marks, numbers: &mut Numbers)
    ensures { engine_of (after times.now levels.now marks.now numbers.new)
        ≡ with_active (with_past (engine_of (before times.now levels.now marks.now numbers.old)) (engine_of (before times.now levels.now marks.now numbers.old)).past 0)
        (engine_of (before times.now levels.now marks.now numbers.old)).active (engine_of (before times.now levels.now marks.now numbers.old)).active_map 0 }
{
    sized(times, levels, marks, numbers);
    numbers[FINISHED] = 0;
    numbers[SOUNDING] = 0;
}

// Puts the finished, then the sounding into the heap.
pub fn all_to_ready(
    times: &mut Times,
    levels: &mut Levels,
    marks: &mut Marks,
    numbers: &mut Numbers,
)
    ensures { engine_of (after times.new levels.new marks.new numbers.new) ≡ all_to_ready (engine_of (before times.old levels.old marks.old numbers.old)) }
{
    let past = (numbers[FINISHED] as usize).min(ROOM);
    let n = past + (numbers[SOUNDING] as usize).min(ROOM);
    for k in 0..n {
        let event = held_event(times, levels, marks, numbers, k, past);
        wait(times, levels, marks, numbers, event);
    }
    clear_lists(times, levels, marks, numbers);
}

// Puts every waiting event's source back to its beginning.
pub fn rewind_ready(times: &Times, levels: &mut Levels, marks: &mut Marks, numbers: &Numbers)
    ensures { engine_of (after times.now levels.new marks.new numbers.now) ≡ rewound_ready (engine_of (before times.now levels.old marks.old numbers.now)) }
{
    sized(times, levels, marks, numbers);
    let n = (numbers[WAITING] as usize).min(ROOM);
    for k in 0..n {
        let event = event_at(times, levels, marks, numbers, k);
        put_unit(times, levels, marks, numbers, k, event.unit.reset());
    }
}
