// The calls of the back. Refusals are judged before the messages are handled; a refused call handles none.
ghost use Rattle.std.specs.Prelude.{◌≡◌, length};
ghost use Rattle.realseq.specs.Answers.{as_desk};
ghost use Rattle.realseq.specs.Backs.{stepped_to, ticks, tick_outs, blocks, block_outs, rates};

use crate::{Answer, Outcome, SequencerBackend};
use event::MixOrder;
use refusals::{process_refusal, rate_refusal, tick_refusal};

// The engine's answer as the desk tells it: not what became of an edit.
impl From<sequencer::Answer> for Answer {
    ghost from_gives = { λ answer r. r ≡ as_desk answer };

    fn from(answer: sequencer::Answer) -> Answer {
        match answer {
            sequencer::Answer::Number(id) => Answer::Number(id),
            sequencer::Answer::Applied => Answer::Done,
            sequencer::Answer::Past => Answer::Done,
            sequencer::Answer::Stored => Answer::Done,
            sequencer::Answer::Done => Answer::Done,
            sequencer::Answer::Rendered(places) => Answer::Rendered(places),
            sequencer::Answer::Refused(no) => Answer::Refused(no),
        }
    }
}

impl SequencerBackend {
    // What a tick or a block of the engine gives, once the messages are handled. In mode None the finished are returned after it.
    fn after_step(mut self, r: sequencer::Outcome) -> Outcome
        ensures { result ≡ stepped_to self r }
    {
        self.sequencer = r.sequencer;
        Outcome {
            backend: self.send_back_past(),
            answer: Answer::from(r.answer),
        }
    }

    // A tick of the desk, after the queued messages. Answers done, or the first refusal of 10 and 12; a refused call handles no message.
    pub fn tick(self, order: MixOrder, pool: &[f32], out: &mut [f32]) -> Outcome
        ensures { (result ≡ ticks order pool.now (length out.old) self)
            × (out.new ≡ tick_outs order pool.now self out.old) }
    {
        let s = self.sequencer;
        if let Some(refusal) = tick_refusal(out.len(), s.outputs, s.time, s.sample_duration) {
            return Outcome {
                backend: self,
                answer: Answer::Refused(refusal.number()),
            };
        }
        let d = self.drain();
        let r = d.sequencer.render_tick(order, pool, out);
        d.after_step(r)
    }

    // A block of `size` samples, after the queued messages. Answers how its places came, or the first refusal of 10, 11 and 12;
    // a refused call handles no message.
    pub fn process(self, order: MixOrder, size: usize, pool: &[f32], out: &mut [f32]) -> Outcome
        ensures { (result ≡ blocks order pool.now size (length out.old) self)
            × (out.new ≡ block_outs order pool.now size self out.old) }
    {
        let s = self.sequencer;
        if let Some(refusal) = process_refusal(
            size,
            out.len(),
            s.outputs,
            s.time,
            s.sample_duration,
        ) {
            return Outcome {
                backend: self,
                answer: Answer::Refused(refusal.number()),
            };
        }
        let d = self.drain();
        let r = d.sequencer.render_block(order, size, pool, out);
        d.after_step(r)
    }

    // A rate, after the queued messages. Answers done, or refusal 2; a refused call handles no message.
    pub fn set_sample_rate(self, rate: f64) -> Outcome
        ensures { result ≡ rates self rate }
    {
        if let Some(refusal) = rate_refusal(rate) {
            return Outcome {
                backend: self,
                answer: Answer::Refused(refusal.number()),
            };
        }
        let mut d = self.drain();
        d.sequencer = d.sequencer.change_rate(rate);
        Outcome {
            backend: d,
            answer: Answer::Done,
        }
    }
}
