// The stored edits.
ghost use Rattle.std.specs.Prelude.{◌≡◌, ◌+◌, ◌*◌, ◌<◌, ◌≤◌, true, false, slice_index_or};
ghost use Rattle.std.specs.Float.{nan};
ghost use Rattle.std.specs.declared.option.Option.TheVariants.{Some, None};
ghost use Rattle.lists.specs.Edits.{placed, removed_at, found_edit, removed};
ghost use Rattle.lists.specs.Edits as EditMaps;
ghost use Rattle.refusals.specs.Refusals.{roomless};
ghost use Rattle.sequencer.specs.Parts.{with_edits};
ghost use Rattle.memory.specs.Memory.{cells_of, before, after, engine_of};
ghost use Rattle.memory.specs.Edits.{found_in, with_edit, edited_if};

use event::{Edit, Event, EventId};
use memory::{EDIT_NUMBERS, EDIT_TIMES, EDITS, Levels, Marks, Numbers, ROOM, Times, sized};

// The place of a number among n from `first` on.
pub(crate) fn seek(numbers: &Numbers, first: usize, n: usize, id: u64) -> Option<usize>
    requires { first ≤ 1024 }
    ensures { result ≡ found_in numbers.now first n id }
{
    if ROOM < n {
        return None;
    }
    for i in 0..n {
        if numbers[first + i] == id {
            return Some(i);
        }
    }
    None
}

// The place of the stored edit of a number.
fn find_edit(
    times: &Times,
    levels: &Levels,
    marks: &Marks,
    numbers: &Numbers,
    id: EventId,
) -> Option<usize>
    ensures { result ≡ placed (engine_of (before times.now levels.now marks.now numbers.now)).edit_map id }
{
    seek(numbers, EDIT_NUMBERS, numbers[EDITS] as usize, id.0)
}

// Puts the edit at place j.
fn put_edit(
    times: &mut Times,
    levels: &Levels,
    marks: &Marks,
    numbers: &mut Numbers,
    j: usize,
    id: u64,
    edit: Edit,
)
    requires { j < 256 }
    ensures { after times.new levels.now marks.now numbers.new
        ≡ with_edit (before times.old levels.now marks.now numbers.old) j id edit.end_time edit.fade_out }
{
    times[EDIT_TIMES + 2 * j] = edit.end_time;
    times[EDIT_TIMES + 1 + 2 * j] = edit.fade_out;
    numbers[EDIT_NUMBERS + j] = id;
}

// Replaces the edit of the number in its place, or appends it. Answers whether there is no room: then nothing changes.
// (A Result of two empty values would be no plainer.)
pub fn store_edit(
    times: &mut Times,
    levels: &Levels,
    marks: &Marks,
    numbers: &mut Numbers,
    id: EventId,
    edit: Edit,
) -> bool
    ensures engine { engine_of (after times.new levels.now marks.now numbers.new)
        ≡ with_edits (engine_of (before times.old levels.now marks.now numbers.old))
        (EditMaps.stored (engine_of (before times.old levels.now marks.now numbers.old)).edit_map id edit) }
    ensures full { result ≡ roomless None false (found_edit (engine_of (before times.old levels.now marks.now numbers.old)).edit_map id)
        (engine_of (before times.old levels.now marks.now numbers.old)).edit_map.len }
    ensures refused { result ≡ true → after times.new levels.now marks.now numbers.new ≡ before times.old levels.now marks.now numbers.old }
{
    sized(times, levels, marks, numbers);
    let found = find_edit(times, levels, marks, numbers, id);
    match found {
        Some(i) => {
            put_edit(times, levels, marks, numbers, i, id.0, edit);
            false
        }
        None => {
            let n = numbers[EDITS] as usize;
            if ROOM <= n {
                return true;
            }
            put_edit(times, levels, marks, numbers, n, id.0, edit);
            numbers[EDITS] = (n + 1) as u64;
            false
        }
    }
}

// Takes the edit at place `at` of n out; the later ones close the gap.
fn close_gap(
    times: &mut Times,
    levels: &Levels,
    marks: &Marks,
    numbers: &mut Numbers,
    at: usize,
    n: usize,
)
    requires { (at < n) × (n ≤ 256) × (n ≡ (engine_of (cells_of times.old levels.now marks.now numbers.old)).edit_map.len) }
    ensures { engine_of (after times.new levels.now marks.now numbers.new)
        ≡ with_edits (engine_of (before times.old levels.now marks.now numbers.old)) (removed_at (engine_of (before times.old levels.now marks.now numbers.old)).edit_map (Some at)) }
{
    sized(times, levels, marks, numbers);
    let m = n - 1;
    for j in at..m {
        let next = j + 1;
        let id = numbers[EDIT_NUMBERS + next];
        let edit = edit_at(times, next);
        put_edit(times, levels, marks, numbers, j, id, edit);
    }
    sized(times, levels, marks, numbers);
    numbers[EDITS] = m as u64;
}

// The edit at place j.
fn edit_at(times: &Times, j: usize) -> Edit
    requires { j < 256 }
    ensures { result ≡ record {
      end_time = slice_index_or times.now (3076 + 2 * j) nan;
      fade_out = slice_index_or times.now (3077 + 2 * j) nan;
    } }
{
    Edit {
        end_time: times[EDIT_TIMES + 2 * j],
        fade_out: times[EDIT_TIMES + 1 + 2 * j],
    }
}

// The event with its stored edit, which is taken out.
pub(crate) fn take_edit(
    times: &mut Times,
    levels: &Levels,
    marks: &Marks,
    numbers: &mut Numbers,
    event: Event,
) -> Event
    ensures engine { engine_of (after times.new levels.now marks.now numbers.new)
        ≡ with_edits (engine_of (before times.old levels.now marks.now numbers.old)) (removed (engine_of (before times.old levels.now marks.now numbers.old)).edit_map event.id) }
    ensures answer { result ≡ edited_if (found_edit (engine_of (before times.old levels.now marks.now numbers.old)).edit_map event.id) event }
{
    let id = event.id;
    let found = find_edit(times, levels, marks, numbers, id);
    match found {
        Some(j) => {
            let edit = edit_at(times, j);
            let n = numbers[EDITS] as usize;
            close_gap(times, levels, marks, numbers, j, n);
            event.edited(edit)
        }
        None => event,
    }
}
