// Reset, and a change of the rate.
ghost use Rattle.std.specs.Prelude.{◌≡◌};
ghost use Rattle.sequencer.specs.Resets.{cleared_edits, rewound_ready, resets, re_rated, rates};

use crate::{Answer, Outcome, Sequencer};
use event::ReplayMode;
use lists::EditMap;
use refusals::rate_refusal;

fn cleared_edits(mut edits: EditMap) -> EditMap
    ensures { result ≡ cleared_edits edits }
{
    edits.len = 0;
    edits
}

impl Sequencer {
    // Every source that waits is at its beginning.
    fn rewind_ready(mut self) -> Sequencer
        ensures { result ≡ rewound_ready self }
    {
        let n = self.ready_len.min(256);
        for i in 0..n {
            self.ready[i] = self.ready[i].rewind();
        }
        self
    }

    // All: everything waits again, from its beginning, and stored edits remain. None: everything is let go, and no edit remains.
    pub fn reset(mut self) -> Sequencer
        ensures { result ≡ resets self }
    {
        match self.mode {
            ReplayMode::All => {
                let mut s = self.all_to_ready().rewind_ready();
                s.time = 0.0;
                s.active_threshold = f64::NEG_INFINITY;
                s
            }
            ReplayMode::None => {
                let n = self.past_len.min(256)
                    + (self.ready_len.min(256) + self.active_len.min(256));
                self.let_go = self.let_go.wrapping_add(n as u64);
                self.edit_map = cleared_edits(self.edit_map);
                self.past_len = 0;
                self.active_len = 0;
                self.ready_len = 0;
                self.time = 0.0;
                self.active_threshold = f64::NEG_INFINITY;
                self
            }
        }
    }

    // A rate, unchecked. Where it differs everything waits again, its source where it was.
    pub fn change_rate(self, rate: f64) -> Sequencer
        ensures { result ≡ re_rated self rate }
    {
        if self.sample_rate == rate {
            return self;
        }
        let mut s = self.all_to_ready();
        s.sample_rate = rate;
        s.sample_duration = 1.0 / rate;
        s.active_threshold = f64::NEG_INFINITY;
        s
    }

    // A new sample rate. Answers done, or refusal 2, which leaves the engine as it was.
    pub fn set_sample_rate(self, rate: f64) -> Outcome
        ensures { result ≡ rates self rate }
    {
        if let Some(refusal) = rate_refusal(rate) {
            return Outcome {
                sequencer: self,
                answer: Answer::Refused(refusal.number()),
            };
        }
        Outcome {
            sequencer: self.change_rate(rate),
            answer: Answer::Done,
        }
    }
}
