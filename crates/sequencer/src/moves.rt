// Events move between the heap, the sounding list and the finished list. A list that is full, or whose count is corrupt, stays as it is.
ghost use Rattle.std.specs.Prelude.{◌≡◌, ◌<◌, ◌≤◌, slice_index_or};
ghost use Rattle.event.specs.Blank.{blank};
ghost use Rattle.floats.specs.Arithmetic.{◌-ᵈ◌, ◌×ᵈ◌, halfᶠ};
ghost use Rattle.sequencer.specs.Parts.{with_times};
ghost use Rattle.sequencer.specs.Moves.{pushed_ready, popped_ready, pushed_active, swap_removed, pushed_past, activated};
ghost use Rattle.sequencer.specs.Moves.{pushed_event, pushed_relative, ready_to_active, active_to_past, released_past, advanced, all_to_ready};

use crate::Sequencer;
use event::Event;
use ready::Ready;

impl Sequencer {
    // ---- one event. A list has a name of its own where it is put into a heap or taken out: the proof needs it.
    // The heap is made in place: a function for it would take the whole engine by value once more.

    // The event waits.
    fn push_ready(mut self, event: Event) -> Sequencer
        ensures { result ≡ pushed_ready self event }
    {
        let items = self.ready;
        let heap = Ready {
            items,
            len: self.ready_len,
        };
        let heap = heap.push(event);
        let items = heap.items;
        self.ready = items;
        self.ready_len = heap.len;
        self
    }

    // The first of those that wait leaves the heap.
    fn pop_ready(mut self) -> Sequencer
        ensures { result ≡ popped_ready self }
    {
        let items = self.ready;
        let heap = Ready {
            items,
            len: self.ready_len,
        };
        let heap = heap.pop();
        let items = heap.items;
        self.ready = items;
        self.ready_len = heap.len;
        self
    }

    // The event sounds.
    fn push_active(mut self, event: Event) -> Sequencer
        ensures { result ≡ pushed_active self event }
    {
        let n = self.active_len;
        if n < 256 {
            self.active[n] = event;
            self.active_map[n] = event.id;
            self.active_len = n + 1;
        }
        self
    }

    // The event is finished.
    fn push_past(mut self, event: Event) -> Sequencer
        ensures { result ≡ pushed_past self event }
    {
        let n = self.past_len;
        if n < 256 {
            self.past[n] = event;
            self.past_len = n + 1;
        }
        self
    }

    // The event at place i leaves the sounding list and its index: the last fills its place.
    fn swap_remove(mut self, i: usize) -> Sequencer
        requires { (i < self.active_len) × (self.active_len ≤ 256) }
        ensures { result ≡ swap_removed self i }
    {
        let n = self.active_len - 1;
        self.active[i] = self.active[n];
        self.active_map[i] = self.active_map[n];
        self.active_len = n;
        self
    }

    // ---- a push, unchecked

    // Straight to the sounding list if it starts before the threshold, without looking for an edit; otherwise it waits.
    pub fn push_event(self, event: Event) -> Sequencer
        ensures { result ≡ pushed_event self event }
    {
        if event.start_time < self.active_threshold {
            return self.push_active(event);
        }
        self.push_ready(event)
    }

    // The clock is added to start and end.
    pub fn push_relative_event(self, mut event: Event) -> Sequencer
        ensures { result ≡ pushed_relative self event }
    {
        event.start_time += self.time;
        event.end_time += self.time;
        self.push_event(event)
    }

    // ---- the beginning of a tick or a block

    // The first of those that wait becomes active, with its edit.
    fn start_first(mut self) -> Sequencer
        ensures { result ≡ activated self (slice_index_or self.ready 0 blank) }
    {
        let first = self.ready[0];
        match self.edit_map.find(first.id) {
            Some(edit) => {
                self.edit_map = self.edit_map.remove(first.id);
                self.pop_ready().push_active(first.edited(edit))
            }
            None => self.pop_ready().push_active(first),
        }
    }

    // Those that start before the threshold of a step that ends at `next_end_time` become active, first first.
    fn ready_to_active(mut self, next_end_time: f64) -> Sequencer
        ensures { result ≡ ready_to_active (with_times self self.time (next_end_time -ᵈ self.sample_duration ×ᵈ halfᶠ)) }
    {
        self.active_threshold = next_end_time - self.sample_duration * 0.5;
        while 0 < self.ready_len {
            if 256 < self.ready_len {
                break;
            }
            let first = self.ready[0];
            if !(first.start_time < self.active_threshold) {
                break;
            }
            self = self.start_first();
        }
        self
    }

    // The event at place i of the sounding list is past.
    fn finish(self, i: usize) -> Sequencer
        requires { (i < self.active_len) × (self.active_len ≤ 256) }
        ensures { result ≡ pushed_past (swap_removed self i) (slice_index_or self.active i blank) }
    {
        let event = self.active[i];
        self.swap_remove(i).push_past(event)
    }

    // Those that end by `limit` are past. The one that fills a place is looked at next.
    fn active_to_past(mut self, limit: f64) -> Sequencer
        ensures { result ≡ active_to_past self limit }
    {
        let mut i = 0;
        while i < self.active_len {
            if 256 < self.active_len {
                break;
            }
            let event = self.active[i];
            if event.end_time <= limit {
                self = self.finish(i);
            } else {
                i += 1;
            }
        }
        self
    }

    // In mode None the finished are let go.
    pub fn release_past(mut self) -> Sequencer
        ensures { result ≡ released_past self self.mode }
    {
        let mode = self.mode;
        self.let_go = lists::gone(mode, self.let_go, self.past_len);
        self.past_len = lists::kept(mode, self.past_len);
        self
    }

    // The lists, the threshold and the clock of a tick or a block that ends at `end`.
    pub(crate) fn advance(self, end: f64) -> Sequencer
        ensures { result ≡ advanced self end }
    {
        let limit = self.time + 0.5 * self.sample_duration;
        let mut s = self
            .release_past()
            .ready_to_active(end)
            .active_to_past(limit);
        s.time = end;
        s
    }

    // ---- everything waits again

    // The finished, then the sounding go into the heap.
    pub(crate) fn all_to_ready(mut self) -> Sequencer
        ensures { result ≡ all_to_ready self }
    {
        let past = self.past_len.min(256);
        let n = past + self.active_len.min(256);
        for i in 0..n {
            let event = if i < past {
                self.past[i]
            } else {
                self.active[i - past]
            };
            self = self.push_ready(event);
        }
        self.past_len = 0;
        self.active_len = 0;
        self
    }
}
