// The waiting heap, `ready: BinaryHeap<Event>` of src/sequencer.rs: the event that starts first stands at place 0, and of equal starts that of the lower number.
// `Event::precedes` is the only comparison. A count above 256 is corrupt: push and pop then change nothing.
#![tactic(auto)]

ghost use Rattle.std.specs.Prelude.{◌≡◌};
ghost use Rattle.ready.specs.Waiting.{emptied, peeked, pushed, popped, risen_by};

use event::{Event, EventId, Fade, Source, Unit};

#[derive(Clone, Copy)]
pub struct Ready {
    pub items: [Event; 256],
    pub len: usize,
}

// `push` and the end of `pop` have the walk up once each: a function for both, whether it takes the heap by value or lent, makes the compiler clear and copy the 18 KB once or twice more a call.
impl Ready {
    // No event waits.
    pub fn new() -> Ready
        ensures { result ≡ emptied }
    {
        let event = Event {
            start_time: 0.0,
            end_time: 0.0,
            fade_in: 0.0,
            fade_out: 0.0,
            fade_ease: Fade::Power,
            unit: Unit {
                source: Source::Held(0.0),
                value: 0.0,
                place: 0,
            },
            gain: 0.0,
            id: EventId(0),
        };
        Ready {
            items: [event; 256],
            len: 0,
        }
    }

    // The event that leaves next. Where none waits, what place 0 holds.
    pub fn peek(self) -> Event
        ensures { result ≡ peeked self }
    {
        self.items[0]
    }

    // The event goes up from the first free place, past every one that it precedes. A full heap stays as it is.
    pub fn push(mut self, event: Event) -> Ready
        ensures { result ≡ pushed self event }
    {
        let n = self.len;
        if 256 <= n {
            return self;
        }
        let mut i = n;
        while 0 < i {
            let p = (i - 1) / 2;
            let parent = self.items[p];
            if !event.precedes(parent) {
                break;
            }
            self.items[i] = parent;
            i = p;
        }
        self.items[i] = event;
        self.len = n + 1;
        self
    }

    // How many levels an event would rise if it were pushed: one for each that it goes past. None in a full heap.
    // It goes the way of `push` and moves nothing, so that the heap is read only.
    pub fn rise(self, event: Event) -> usize
        ensures { result ≡ risen_by self event }
    {
        if 256 <= self.len {
            return 0;
        }
        let mut rise: usize = 0;
        let mut place = self.len;
        while 0 < place {
            let p = (place - 1) / 2;
            let above = self.items[p];
            if !event.precedes(above) {
                break;
            }
            place = p;
            rise += 1;
        }
        rise
    }

    // The first leaves: the child that precedes fills its place, and so on down to a place without one; from there the last goes up, past every one that it precedes. An empty heap stays as it is.
    // The standard library's heap does so too: the last most often belongs far down, so on the way down nothing is compared with it.
    pub fn pop(mut self) -> Ready
        ensures { result ≡ popped self }
    {
        if self.len == 0 || 256 < self.len {
            return self;
        }
        let m = self.len - 1;
        let last = self.items[m];
        let mut i = 0;
        while 2 * i + 1 < m {
            let l = 2 * i + 1;
            let r = 2 * i + 2;
            let mut c = l;
            if r < m {
                let left = self.items[l];
                let right = self.items[r];
                if right.precedes(left) {
                    c = r;
                }
            }
            self.items[i] = self.items[c];
            i = c;
        }
        while 0 < i {
            let p = (i - 1) / 2;
            let parent = self.items[p];
            if !last.precedes(parent) {
                break;
            }
            self.items[i] = parent;
            i = p;
        }
        self.items[i] = last;
        self.len = m;
        self
    }
}
