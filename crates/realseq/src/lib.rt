// The desk: `SequencerBackend` of src/realseq.rs of fundsp with its front, state in, state out. Two queues by value stand for the Rust's channels.
// The front queues messages; the back handles them before each of its calls. In mode None the back returns the numbers of the events that it lets go.
#![tactic(auto)]

mod back;
mod front;
mod handling;
mod queues;

ghost use Rattle.std.specs.Prelude.{◌≡◌};
ghost use Rattle.realseq.specs.Queues.{opened};
ghost use Rattle.realseq.specs.Numbers.{number_of};

use event::{EventId, Placings, ReplayMode};
pub use queues::{Kind, Message, Messages, Returned, Slot};
use sequencer::Sequencer;

// `messages` go from the front to the back, `returned` are the numbers that go from the back to the front. The next number that a push is given is the engine's `next`.
#[derive(Clone, Copy)]
pub struct SequencerBackend {
    pub sequencer: Sequencer,
    pub messages: Messages,
    pub returned: Returned,
}

// No Result: document 01 names these cases, and the desk comes back with a refusal too. No sequencer::Answer: a desk says queued, and not what became of an edit.
// What a call answers: the number of a queued push; that an edit or a reset is queued; done; of a block, how its places came; or the number of a refusal.
#[derive(Clone, Copy)]
pub enum Answer {
    Number(EventId),
    Queued,
    Done,
    Rendered(Placings),
    Refused(u64),
}

// The desk's refusals: the engine's, and that 64 messages are queued.
#[derive(Clone, Copy, PartialEq, Eq)]
pub(crate) enum Refusal {
    Engine(refusals::Refusal),
    QueueFull,
}

impl Refusal {
    fn number(self) -> u64
        ensures { result ≡ number_of self }
    {
        match self {
            Refusal::Engine(refusal) => refusal.number(),
            Refusal::QueueFull => 13,
        }
    }
}

#[derive(Clone, Copy)]
pub struct Outcome {
    pub backend: SequencerBackend,
    pub answer: Answer,
}

impl SequencerBackend {
    // A desk over an engine, both queues empty.
    pub fn new(sequencer: Sequencer) -> SequencerBackend
        ensures { result ≡ opened sequencer }
    {
        SequencerBackend {
            sequencer,
            messages: Messages::new(),
            returned: Returned::new(),
        }
    }
}
