// What an engine holds.
ghost use Rattle.std.specs.Prelude.{◌≡◌};
ghost use Rattle.sequencer.specs.Readers.{counts_of, place_in};

use crate::Sequencer;
use event::EventId;
use lists::ActiveMap;

// How many events wait, sound, are finished, and were let go.
#[derive(Clone, Copy)]
pub struct Counts {
    pub waiting: usize,
    pub sounding: usize,
    pub finished: usize,
    pub let_go: u64,
}

impl Sequencer {
    // The clock in seconds.
    pub fn time(self) -> f64
        ensures { result ≡ self.time }
    {
        self.time
    }

    // How many events each list holds, and how many were let go.
    pub fn counts(self) -> Counts
        ensures { result ≡ counts_of self }
    {
        Counts {
            waiting: self.ready_len,
            sounding: self.active_len,
            finished: self.past_len,
            let_go: self.let_go,
        }
    }

    // The place of a number in the sounding list.
    pub fn place(self, id: EventId) -> Option<usize>
        ensures { result ≡ place_in self id }
    {
        // The proof needs a name for the list.
        let ids = self.active_map;
        let index = ActiveMap {
            ids,
            len: self.active_len,
        };
        index.find(id)
    }
}
