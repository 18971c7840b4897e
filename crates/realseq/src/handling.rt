// Handling the queued messages. A reset is handled after the messages behind it: handling it calls `reset`, and `reset` handles the messages first.
ghost use Rattle.std.specs.Prelude.{◌≡◌, min};
ghost use Rattle.realseq.specs.Handling.{acted, sent_down, sent_ready, past_sent, restarted, until_reset, taken, drained, reset};

use crate::{Message, Returned, SequencerBackend};
use event::{Edit, Event, ReplayMode};
use ready::Ready;
use sequencer::Sequencer;

// One message; a reset is handled elsewhere, and an edit's answer is dropped.
fn handle(sequencer: Sequencer, message: Message) -> Sequencer
    ensures { result ≡ acted message sequencer }
{
    match message {
        Message::Reset => sequencer,
        Message::Push(event) => sequencer.push_event(event),
        Message::PushRelative(event) => sequencer.push_relative_event(event),
        Message::Edit(id, edit) => sequencer.change(id, edit).sequencer,
        Message::EditRelative(id, edit) => {
            let end_time = sequencer.time + edit.end_time;
            sequencer.change(id, Edit { end_time, ..edit }).sequencer
        }
    }
}

impl Returned {
    // The numbers of the first `n` events, from the end.
    fn push_down(mut self, events: &[Event; 256], n: usize) -> Returned
        ensures { result ≡ sent_down (min n 256) events.now self }
    {
        for i in (0..n.min(256)).rev() {
            self = self.push(events[i].id);
        }
        self
    }

    // The numbers of the waiting, in order.
    fn push_ready(mut self, s: Sequencer) -> Returned
        ensures { result ≡ sent_ready (min s.ready_len 256) (record { items = s.ready; len = s.ready_len }) self }
    {
        let items = s.ready;
        let mut heap = Ready {
            items,
            len: s.ready_len,
        };
        for _i in 0..s.ready_len.min(256) {
            self = self.push(heap.peek().id);
            heap = heap.pop();
        }
        self
    }
}

impl SequencerBackend {
    // In mode None the finished are let go, from the end.
    pub(crate) fn send_back_past(mut self) -> SequencerBackend
        ensures { result ≡ past_sent self }
    {
        let s = self.sequencer;
        match s.mode {
            ReplayMode::All => self,
            ReplayMode::None => {
                self.returned = self.returned.push_down(&s.past, s.past_len);
                self.sequencer = s.release_past();
                self
            }
        }
    }

    // A reset acts: in mode None the finished go back from the end, the waiting in order, the sounding from the end.
    #[inline(never)]
    fn restart(&mut self)
        ensures { self.new ≡ restarted self.old }
    {
        let s = self.sequencer;
        match s.mode {
            ReplayMode::All => {}
            ReplayMode::None => {
                let q = self.returned.push_down(&s.past, s.past_len);
                let q = q.push_ready(s);
                self.returned = q.push_down(&s.active, s.active_len);
            }
        }
        self.sequencer = s.reset();
    }

    // The queued messages up to the first reset.
    #[inline(never)]
    fn handle_until_reset(&mut self)
        ensures { self.new ≡ until_reset self.old }
    {
        // This counts nothing: the queue shrinks.
        loop {
            let q = self.messages;
            if q.count == 0 {
                break;
            }
            let m = q.peek();
            if m.is_reset() {
                break;
            }
            self.messages = q.pop();
            self.sequencer = handle(self.sequencer, m);
        }
    }

    // The first message is taken off.
    #[inline(never)]
    fn take(&mut self)
        ensures { self.new ≡ taken self.old }
    {
        self.messages = self.messages.pop();
    }

    fn queued(&self) -> usize
        ensures { result ≡ self.now.messages.count }
    {
        self.messages.count
    }

    // The queued messages, first to last. A frame of this nesting holds no desk: its steps are functions of their own, in place (docs/HANDBOOK.md: the stack).
    #[cycle(handle_messages_reset)]
    fn handle_messages(&mut self)
        ensures { self.new ≡ drained self.old }
    {
        self.handle_until_reset();
        if 0 < self.queued() {
            self.take();
            self.reset_in_place();
        }
    }

    // The back's reset, in place.
    #[cycle(handle_messages_reset)]
    fn reset_in_place(&mut self)
        ensures { self.new ≡ reset self.old }
    {
        self.handle_messages();
        self.restart();
    }

    // The back's reset.
    pub fn reset(mut self) -> SequencerBackend
        ensures { result ≡ reset self }
    {
        self.reset_in_place();
        self
    }

    // The back's first step in each of its other calls.
    pub(crate) fn drain(mut self) -> SequencerBackend
        ensures { result ≡ drained self }
    {
        self.handle_messages();
        self
    }
}
