// The calls of the front. An accepted one empties the return queue and queues its message; a push takes its number then.
ghost use Rattle.std.specs.Prelude.{◌≡◌};
ghost use Rattle.ledger.specs.Calls.{absolute, relative, by_duration, absolute_end, relative_end};
ghost use Rattle.realseq.specs.Numbers.{refusal_number};
ghost use Rattle.realseq.specs.Fronts.{queued_with, numbered, push_refused, edit_refused, sends_push, sends_edit, pushes, edits, resets};

use crate::{Answer, Kind, Message, Outcome, Refusal, SequencerBackend};
use event::{Edit, Event, EventId, Fade, Source};
use refusals::{edit_limits, held, push_refusal};

impl SequencerBackend {
    // The return queue is emptied, and the message queued.
    fn send(mut self, message: Message) -> SequencerBackend
        ensures { result ≡ queued_with message self }
    {
        self.messages = self.messages.push(message);
        self.returned = self.returned.empty();
        self
    }

    // The next number has been given.
    fn take_number(mut self) -> SequencerBackend
        ensures { result ≡ numbered self }
    {
        self.sequencer.next = self.sequencer.next.wrapping_add(1);
        self
    }

    // 3 to 5, 18, 6 and 7, queued pushes counting for 6, then 13.
    fn push_refusal(
        self,
        start_time: f64,
        end_time: f64,
        lasts: f64,
        fade_in: f64,
        fade_out: f64,
        source: Source,
        gain: f32,
    ) -> Option<Refusal>
        ensures { refusal_number result ≡ push_refused self start_time end_time lasts fade_in fade_out source gain }
    {
        let s = self.sequencer;
        let n = held(s.ready_len, s.active_len, s.past_len)
            + self.messages.tally(Kind::Push.number());
        if let Some(refusal) = push_refusal(
            start_time, end_time, lasts, fade_in, fade_out, source, gain, n, s.next,
        ) {
            return Some(Refusal::Engine(refusal));
        }
        if 64 <= self.messages.count {
            return Some(Refusal::QueueFull);
        }
        None
    }

    // Queues an event from `start_time` to `until`; `end_time` is the end or the duration as given.
    fn send_push(
        self,
        relative: bool,
        start_time: f64,
        end_time: f64,
        until: f64,
        fade_ease: Fade,
        fade_in: f64,
        fade_out: f64,
        source: Source,
        gain: f32,
    ) -> Outcome
        ensures { result ≡ sends_push self relative start_time end_time until fade_ease fade_in fade_out source gain }
    {
        if let Some(refusal) = self.push_refusal(
            start_time,
            end_time,
            until - start_time,
            fade_in,
            fade_out,
            source,
            gain,
        ) {
            return Outcome {
                backend: self,
                answer: Answer::Refused(refusal.number()),
            };
        }
        let s = self.sequencer;
        let id = EventId(s.next);
        let event = Event::new(
            start_time, until, fade_in, fade_out, fade_ease, source, gain, id,
        );
        let mut d = self.take_number();
        if relative {
            d = d.send(Message::PushRelative(event));
            return Outcome {
                backend: d,
                answer: Answer::Number(id),
            };
        }
        d = d.send(Message::Push(event));
        Outcome {
            backend: d,
            answer: Answer::Number(id),
        }
    }

    // The three pushes have the names and the parameters of the Rust (document 01); what they do is `send_push`.
    // Queues the push of an event from `start_time` to `end_time`, in seconds. Answers its number, or the first refusal that applies.
    pub fn push(
        self,
        start_time: f64,
        end_time: f64,
        fade_ease: Fade,
        fade_in: f64,
        fade_out: f64,
        source: Source,
        gain: f32,
    ) -> Outcome
        ensures { result ≡ pushes absolute self start_time end_time fade_ease fade_in fade_out source gain }
    {
        self.send_push(
            false, start_time, end_time, end_time, fade_ease, fade_in, fade_out, source, gain,
        )
    }

    // Start and end count from the clock at the time of handling.
    pub fn push_relative(
        self,
        start_time: f64,
        end_time: f64,
        fade_ease: Fade,
        fade_in: f64,
        fade_out: f64,
        source: Source,
        gain: f32,
    ) -> Outcome
        ensures { result ≡ pushes relative self start_time end_time fade_ease fade_in fade_out source gain }
    {
        self.send_push(
            true, start_time, end_time, end_time, fade_ease, fade_in, fade_out, source, gain,
        )
    }

    // The same; the event ends at `start_time + duration`.
    pub fn push_duration(
        self,
        start_time: f64,
        duration: f64,
        fade_ease: Fade,
        fade_in: f64,
        fade_out: f64,
        source: Source,
        gain: f32,
    ) -> Outcome
        ensures { result ≡ pushes by_duration self start_time duration fade_ease fade_in fade_out source gain }
    {
        self.send_push(
            false,
            start_time,
            duration,
            start_time + duration,
            fade_ease,
            fade_in,
            fade_out,
            source,
            gain,
        )
    }

    // 8, 9 as stored plus queued edits, then 13.
    fn edit_refusal(self, end_time: f64, fade_out: f64) -> Option<Refusal>
        ensures { refusal_number result ≡ edit_refused self end_time fade_out }
    {
        if let Some(refusal) = edit_limits(end_time, fade_out) {
            return Some(Refusal::Engine(refusal));
        }
        let stored = self.sequencer.edit_map.len;
        if 256 <= stored || 256 <= stored + self.messages.tally(Kind::Edit.number()) {
            return Some(Refusal::Engine(refusals::Refusal::NoRoom));
        }
        if 64 <= self.messages.count {
            return Some(Refusal::QueueFull);
        }
        None
    }

    fn send_edit(self, relative: bool, id: EventId, end_time: f64, fade_out: f64) -> Outcome
        ensures { result ≡ sends_edit self relative id end_time fade_out }
    {
        if let Some(refusal) = self.edit_refusal(end_time, fade_out) {
            return Outcome {
                backend: self,
                answer: Answer::Refused(refusal.number()),
            };
        }
        let edit = Edit { end_time, fade_out };
        if relative {
            return Outcome {
                backend: self.send(Message::EditRelative(id, edit)),
                answer: Answer::Queued,
            };
        }
        Outcome {
            backend: self.send(Message::Edit(id, edit)),
            answer: Answer::Queued,
        }
    }

    // Queues another end and fade-out, in seconds, for the event with that number. Answers that it is queued, or the first refusal that applies.
    pub fn edit(self, id: EventId, end_time: f64, fade_out: f64) -> Outcome
        ensures { result ≡ edits absolute_end self id end_time fade_out }
    {
        self.send_edit(false, id, end_time, fade_out)
    }

    // The end counts from the clock at the time of handling.
    pub fn edit_relative(self, id: EventId, end_time: f64, fade_out: f64) -> Outcome
        ensures { result ≡ edits relative_end self id end_time fade_out }
    {
        self.send_edit(true, id, end_time, fade_out)
    }

    // The front's reset.
    pub fn queue_reset(self) -> Outcome
        ensures { result ≡ resets self }
    {
        if 64 <= self.messages.count {
            return Outcome {
                backend: self,
                answer: Answer::Refused(Refusal::QueueFull.number()),
            };
        }
        Outcome {
            backend: self.send(Message::Reset),
            answer: Answer::Queued,
        }
    }
}
