// Where a clip stands, by its number, and what becomes of an edit: what a tape's sheet and story draw and tell. Both functions only read the engine.
#![tactic(auto)]

ghost use Rattle.std.specs.Prelude.{◌≡◌, take};
ghost use Rattle.ledger.specs.Lists.{has as has_number};
ghost use Rattle.standing.specs.Standings.{standing_in, edit_answer};

use event::Event;
use sequencer::{Answer, Sequencer};
use tape::reader::EditRecord;

// Where a number stands that a push was answered with.
#[derive(Clone, Copy, PartialEq, Eq)]
pub enum Standing {
    Waiting,
    Sounding,
    Finished,
    LetGo,
}

// Whether the first events of an array have the number.
fn has(events: &[Event; 256], len: usize, number: u64) -> bool
    ensures { result ≡ has_number number (take len events.now) }
{
    events[..len.min(256)]
        .iter()
        .any(|event| event.id.0 == number)
}

// A number that none of the three lists has was let go.
pub fn standing_of(s: Sequencer, number: u64) -> Standing
    ensures { result ≡ standing_in s number }
{
    if has(&s.ready, s.ready_len, number) {
        return Standing::Waiting;
    }
    if has(&s.active, s.active_len, number) {
        return Standing::Sounding;
    }
    if has(&s.past, s.past_len, number) {
        return Standing::Finished;
    }
    Standing::LetGo
}

// What becomes of an edit on this engine.
pub fn edit_answer(s: Sequencer, edit: EditRecord, relative: bool) -> Answer
    ensures { result ≡ edit_answer relative s edit }
{
    // Two returns, and no value that both arms give: it would be an outcome with a whole engine in it, copied.
    if relative {
        let o = s.edit_relative(edit.id, edit.end_time, edit.fade_out);
        return o.answer;
    }
    let o = s.edit(edit.id, edit.end_time, edit.fade_out);
    o.answer
}
