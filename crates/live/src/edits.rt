// Edits: only the end and the fade-out of an event change.
ghost use Rattle.std.specs.Prelude.{◌≡◌, ◌+◌, ◌*◌, ◌<◌, slice_set};
ghost use Rattle.ledger.specs.Calls.{absolute_end, relative_end};
ghost use Rattle.sequencer.specs.Edits as Edits;
ghost use Rattle.memory.specs.Memory.{before, after, engine_of};
ghost use Rattle.live.specs.CallContracts.{Refuses};

use event::{Edit, EventId};
use list_moves::{place, store_edit};
use memory::{ACTIVE, CLOCK, Levels, Marks, Numbers, THRESHOLD, Times, sized};
use refusals::{Refusal, edit_limits};
use sequencer::Answer;

// End and fade-out of the sounding event at place i.
fn put_end(times: &mut Times, i: usize, edit: Edit)
    requires { i < 256 }
    ensures { times.new
        ≡ slice_set (slice_set times.old (4 * (256 + i) + 1) edit.end_time) (4 * (256 + i) + 3) edit.fade_out }
{
    times[4 * (ACTIVE + i) + 1] = edit.end_time;
    times[4 * (ACTIVE + i) + 3] = edit.fade_out;
}

// `end` is the end as given, `edit` has the end as it is to be.
fn amend(
    times: &mut Times,
    levels: &Levels,
    marks: &Marks,
    numbers: &mut Numbers,
    id: EventId,
    end: f64,
    edit: Edit,
) -> Answer
    ensures engine { engine_of (after times.new levels.now marks.now numbers.new)
        ≡ (Edits.amended (engine_of (before times.old levels.now marks.now numbers.old)) id end edit.end_time edit.fade_out).sequencer }
    ensures answer { result ≡ (Edits.amended (engine_of (before times.old levels.now marks.now numbers.old)) id end edit.end_time edit.fade_out).answer }
    ensures refused { Refuses result → after times.new levels.now marks.now numbers.new ≡ before times.old levels.now marks.now numbers.old }
{
    sized(times, levels, marks, numbers);
    if let Some(refusal) = edit_limits(end, edit.fade_out) {
        return Answer::Refused(refusal.number());
    }
    let found = place(times, levels, marks, numbers, id);
    match found {
        Some(i) => {
            put_end(times, i, edit);
            Answer::Applied
        }
        None => {
            if edit.end_time < times[THRESHOLD] {
                return Answer::Past;
            }
            if store_edit(times, levels, marks, numbers, id, edit) {
                return Answer::Refused(Refusal::NoRoom.number());
            }
            Answer::Stored
        }
    }
}

// Changes the end and the fade-out of the event with that number. Answers whether the edit is applied, past or stored, or the refusal 8 or 9.
pub fn edit(
    times: &mut Times,
    levels: &Levels,
    marks: &Marks,
    numbers: &mut Numbers,
    id: EventId,
    end_time: f64,
    fade_out: f64,
) -> Answer
    ensures engine { engine_of (after times.new levels.now marks.now numbers.new)
        ≡ (Edits.edits absolute_end (engine_of (before times.old levels.now marks.now numbers.old)) id end_time fade_out).sequencer }
    ensures answer { result ≡ (Edits.edits absolute_end (engine_of (before times.old levels.now marks.now numbers.old)) id end_time fade_out).answer }
    ensures refused { Refuses result → after times.new levels.now marks.now numbers.new ≡ before times.old levels.now marks.now numbers.old }
{
    let edit = Edit { end_time, fade_out };
    amend(times, levels, marks, numbers, id, end_time, edit)
}

// The same; the end is relative to the clock.
pub fn edit_relative(
    times: &mut Times,
    levels: &Levels,
    marks: &Marks,
    numbers: &mut Numbers,
    id: EventId,
    end_time: f64,
    fade_out: f64,
) -> Answer
    ensures engine { engine_of (after times.new levels.now marks.now numbers.new)
        ≡ (Edits.edits relative_end (engine_of (before times.old levels.now marks.now numbers.old)) id end_time fade_out).sequencer }
    ensures answer { result ≡ (Edits.edits relative_end (engine_of (before times.old levels.now marks.now numbers.old)) id end_time fade_out).answer }
    ensures refused { Refuses result → after times.new levels.now marks.now numbers.new ≡ before times.old levels.now marks.now numbers.old }
{
    let edit = Edit {
        end_time: times[CLOCK] + end_time,
        fade_out,
    };
    amend(times, levels, marks, numbers, id, end_time, edit)
}
