// The desk's two queues of 64. A count above 64 is corrupt: nothing is queued, and no place past an array is read.
ghost use Rattle.std.specs.Prelude.{◌≡◌};
ghost use Rattle.realseq.specs.Queues.{no_messages, is_reset, kind_number, kind_of, counted, tallied, pushed, peeked, popped, no_returned, sent, emptied};

use event::{Edit, Event, EventId};

// What a message asks for, its times absolute or relative.
#[derive(Clone, Copy, PartialEq, Eq)]
pub enum Kind {
    Reset,
    Push,
    Edit,
}

impl Kind {
    // 0: a reset, 1: a push, 2: an edit.
    pub fn number(self) -> u8
        ensures { result ≡ kind_number self }
    {
        match self {
            Kind::Reset => 0,
            Kind::Push => 1,
            Kind::Edit => 2,
        }
    }
}

#[derive(Clone, Copy)]
pub enum Message {
    Reset,
    Push(Event),
    PushRelative(Event),
    Edit(EventId, Edit),
    EditRelative(EventId, Edit),
}

// An array holds structs.
#[derive(Clone, Copy)]
pub struct Slot {
    pub message: Message,
}

// First in first out: `count` messages from place `first` on, around the array.
#[derive(Clone, Copy)]
pub struct Messages {
    pub slots: [Slot; 64],
    pub first: usize,
    pub count: usize,
}

// Numbers, oldest first. It is no ring as `Messages` is: numbers leave all at once, so it has no first place, and the two share no function.
#[derive(Clone, Copy)]
pub struct Returned {
    pub ids: [EventId; 64],
    pub count: usize,
}

impl Message {
    // Whether the message is a reset.
    pub fn is_reset(self) -> bool
        ensures { result ≡ is_reset self }
    {
        matches!(self, Message::Reset)
    }

    fn kind(self) -> Kind
        ensures { kind_number result ≡ kind_of self }
    {
        match self {
            Message::Reset => Kind::Reset,
            Message::Push(_) => Kind::Push,
            Message::PushRelative(_) => Kind::Push,
            Message::Edit(_, _) => Kind::Edit,
            Message::EditRelative(_, _) => Kind::Edit,
        }
    }

    // 1 where the message is of the kind, else 0.
    fn counts(self, kind: u8) -> usize
        ensures { result ≡ counted self kind }
    {
        if self.kind().number() == kind { 1 } else { 0 }
    }
}

impl Messages {
    // No message is queued.
    pub fn new() -> Messages
        ensures { result ≡ no_messages }
    {
        let slot = Slot {
            message: Message::Reset,
        };
        Messages {
            slots: [slot; 64],
            first: 0,
            count: 0,
        }
    }

    // How many queued messages are of the kind of that number (`Kind::number`): 0 resets, 1 pushes, 2 edits; of any other number none are.
    pub fn tally(self, kind: u8) -> usize
        ensures { result ≡ tallied self kind }
    {
        let first = self.first % 64;
        let mut total = 0;
        for i in 0..self.count.min(64) {
            let slot = self.slots[(first + i) % 64];
            total += slot.message.counts(kind);
        }
        total
    }

    // The message goes to the queue's end. A full queue of 64 stays as it is.
    pub fn push(mut self, message: Message) -> Messages
        ensures { result ≡ pushed self message }
    {
        let n = self.count;
        if 64 <= n {
            return self;
        }
        self.slots[(self.first % 64 + n) % 64] = Slot { message };
        self.count = n + 1;
        self
    }

    // The oldest message. Where none is queued, what the first place holds.
    pub fn peek(self) -> Message
        ensures { result ≡ peeked self }
    {
        self.slots[self.first % 64].message
    }

    // The oldest message leaves. An empty queue stays as it is.
    pub fn pop(mut self) -> Messages
        ensures { result ≡ popped self }
    {
        let n = self.count;
        if n == 0 {
            return self;
        }
        self.first = (self.first % 64 + 1) % 64;
        self.count = n - 1;
        self
    }
}

impl Returned {
    // No number has been returned.
    pub fn new() -> Returned
        ensures { result ≡ no_returned }
    {
        Returned {
            ids: [EventId(0); 64],
            count: 0,
        }
    }

    // Every number has been taken.
    pub fn empty(mut self) -> Returned
        ensures { result ≡ emptied self }
    {
        self.count = 0;
        self
    }

    // The number goes to the queue's end, or is lost where 64 are there.
    pub fn push(mut self, id: EventId) -> Returned
        ensures { result ≡ sent self id }
    {
        let n = self.count;
        if 64 <= n {
            return self;
        }
        self.ids[n] = id;
        self.count = n + 1;
        self
    }
}
