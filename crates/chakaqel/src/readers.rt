// What an engine holds.
ghost use Rattle.std.specs.Prelude.{◌≡◌};
ghost use Rattle.sequencer.specs.Readers.{counts_of, place_in};
ghost use Rattle.memory.specs.Memory.{before, engine_of};
ghost use Rattle.chakaqel.specs.Entries.{counts_by, place_code};

use event::EventId;
use memory::{Levels, Marks, Numbers, Times};

// The clock in seconds.
#[unsafe(no_mangle)]
pub extern "C" fn chakaqel_time(
    times: &Times,
    levels: &Levels,
    marks: &Marks,
    numbers: &Numbers,
) -> f64
    ensures { result ≡ (engine_of (before times.now levels.now marks.now numbers.now)).time }
{
    live::time(times, levels, marks, numbers)
}

// Puts how many events wait, sound, are finished, and were let go.
#[unsafe(no_mangle)]
pub extern "C" fn chakaqel_counts(
    times: &Times,
    levels: &Levels,
    marks: &Marks,
    numbers: &Numbers,
    told: &mut [u64; 4],
)
    ensures { told.new ≡ counts_by (counts_of (engine_of (before times.now levels.now marks.now numbers.now))) told.old }
{
    let c = live::counts(times, levels, marks, numbers);
    told[0] = c.waiting as u64;
    told[1] = c.sounding as u64;
    told[2] = c.finished as u64;
    told[3] = c.let_go;
}

// The place in the sounding list of the event with that number, or 256 where it does not sound.
#[unsafe(no_mangle)]
pub extern "C" fn chakaqel_place(
    times: &Times,
    levels: &Levels,
    marks: &Marks,
    numbers: &Numbers,
    number: u64,
) -> u64
    ensures { result ≡ place_code (place_in (engine_of (before times.now levels.now marks.now numbers.now)) (record { 0 = number })) }
{
    let found = live::place(times, levels, marks, numbers, EventId(number));
    match found {
        Some(i) => i as u64,
        None => 256,
    }
}
