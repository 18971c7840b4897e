// The plain engine that four lent arrays hold (crate `memory`), read out of them: for listings, which take an engine by value.
#![tactic(auto)]

ghost use Rattle.std.specs.Prelude.{◌≡◌, ◌+◌, ◌≤◌, ◌<◌, eqb};
ghost use Rattle.memory.specs.Rows.{rows};
ghost use Rattle.memory.specs.Memory.{before, event_at, id_at, edit_at, mode_if, engine_of};

use event::{Edit, Event, EventId, ReplayMode, StoredEdit};
use lists::EditMap;
use memory::{Levels, Marks, Numbers, Times};
use sequencer::Sequencer;

// The 256 events from a slot on.
fn events(
    times: &Times,
    levels: &Levels,
    marks: &Marks,
    numbers: &Numbers,
    first: usize,
) -> [Event; 256]
    requires { first ≤ 512 }
    ensures { result ≡ rows (event_at (before times.now levels.now marks.now numbers.now)) first 256 }
{
    let event = memory::event_at(times, levels, marks, numbers, first);
    let mut out = [event; 256];
    for i in 0..256 {
        out[i] = memory::event_at(times, levels, marks, numbers, first + i);
    }
    out
}

// The index: the number of each event that sounds.
fn index(times: &Times, levels: &Levels, marks: &Marks, numbers: &Numbers) -> [EventId; 256]
    ensures { result ≡ rows (id_at (before times.now levels.now marks.now numbers.now)) 768 256 }
{
    let mut out = [EventId(0); 256];
    for i in 0..256 {
        out[i] = EventId(numbers[memory::INDEX + i]);
    }
    out
}

// The stored edits.
fn edits(times: &Times, levels: &Levels, marks: &Marks, numbers: &Numbers) -> [StoredEdit; 256]
    ensures { result ≡ rows (edit_at (before times.now levels.now marks.now numbers.now)) 1024 256 }
{
    let unused = StoredEdit {
        id: EventId(0),
        edit: Edit {
            end_time: 0.0,
            fade_out: 0.0,
        },
    };
    let mut out = [unused; 256];
    for i in 0..256 {
        let k = memory::EDIT_TIMES + 2 * i;
        out[i] = StoredEdit {
            id: EventId(numbers[memory::EDIT_NUMBERS + i]),
            edit: Edit {
                end_time: times[k],
                fade_out: times[k + 1],
            },
        };
    }
    out
}

// The mode that a number says: 0 is All. (Every number says one, so a TryFrom is no plainer.)
fn mode_of(mode: u64) -> ReplayMode
    ensures { result ≡ mode_if (eqb mode 0) }
{
    if mode == 0 {
        ReplayMode::All
    } else {
        ReplayMode::None
    }
}

// The engine that the arrays hold.
pub fn engine(times: &Times, levels: &Levels, marks: &Marks, numbers: &Numbers) -> Sequencer
    ensures { result ≡ engine_of (before times.now levels.now marks.now numbers.now) }
{
    let ready = events(times, levels, marks, numbers, memory::READY);
    let active = events(times, levels, marks, numbers, memory::ACTIVE);
    let past = events(times, levels, marks, numbers, memory::PAST);
    let active_map = index(times, levels, marks, numbers);
    let items = edits(times, levels, marks, numbers);
    let len = numbers[memory::EDITS] as usize;
    Sequencer {
        ready,
        ready_len: numbers[memory::WAITING] as usize,
        active,
        active_len: numbers[memory::SOUNDING] as usize,
        active_map,
        past,
        past_len: numbers[memory::FINISHED] as usize,
        edit_map: EditMap { items, len },
        time: times[memory::CLOCK],
        active_threshold: times[memory::THRESHOLD],
        sample_rate: times[memory::RATE],
        sample_duration: times[memory::DURATION],
        outputs: numbers[memory::CHANNELS] as usize,
        mode: mode_of(numbers[memory::MODE]),
        next: numbers[memory::NEXT],
        let_go: numbers[memory::LET_GO],
    }
}
