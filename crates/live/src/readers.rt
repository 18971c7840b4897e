// What an engine holds.
ghost use Rattle.std.specs.Prelude.{◌≡◌};
ghost use Rattle.sequencer.specs.Readers.{counts_of};
ghost use Rattle.memory.specs.Memory.{before, engine_of};

use memory::{CLOCK, FINISHED, LET_GO, Levels, Marks, Numbers, SOUNDING, Times, WAITING};
use sequencer::Counts;

// The clock in seconds.
pub fn time(times: &Times, levels: &Levels, marks: &Marks, numbers: &Numbers) -> f64
    ensures { result ≡ (engine_of (before times.now levels.now marks.now numbers.now)).time }
{
    times[CLOCK]
}

// How many events wait, sound, are finished, and were let go.
pub fn counts(times: &Times, levels: &Levels, marks: &Marks, numbers: &Numbers) -> Counts
    ensures { result ≡ counts_of (engine_of (before times.now levels.now marks.now numbers.now)) }
{
    Counts {
        waiting: numbers[WAITING] as usize,
        sounding: numbers[SOUNDING] as usize,
        finished: numbers[FINISHED] as usize,
        let_go: numbers[LET_GO],
    }
}
