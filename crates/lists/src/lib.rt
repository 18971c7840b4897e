// The index of the sounding list and the stored edits: `active_map` and `edit_map` of src/sequencer.rs. The Rust's hash maps are arrays with a count, searched by number.
// The engine keeps the sounding and the finished list flat in its own struct; what they hold is said in specs/Holds.antt and specs/Sounding.antt.
// A count above 256 is corrupt: then nothing is found and nothing changes.
#![tactic(auto)]

ghost use Rattle.std.specs.Prelude.{◌≡◌};
ghost use Rattle.lists.specs.Index.{found_id};
ghost use Rattle.lists.specs.Edits.{emptied, placed, found_edit, stored, removed};
ghost use Rattle.lists.specs.Past.{gone_by, kept_by};

use event::{Edit, EventId, ReplayMode, StoredEdit};

// The index: place i holds the number of the event at place i of the sounding list.
#[derive(Clone, Copy)]
pub struct ActiveMap {
    pub ids: [EventId; 256],
    pub len: usize,
}

impl ActiveMap {
    // The place of a number in the sounding list.
    pub fn find(self, id: EventId) -> Option<usize>
        ensures { result ≡ found_id self id }
    {
        if 256 < self.len {
            return None;
        }
        for i in 0..self.len {
            if self.ids[i] == id {
                return Some(i);
            }
        }
        None
    }
}

// The edits stored for events that are not sounding, one per number, in order of first storing.
#[derive(Clone, Copy)]
pub struct EditMap {
    pub items: [StoredEdit; 256],
    pub len: usize,
}

impl EditMap {
    // No edit is stored.
    pub fn new() -> EditMap
        ensures { result ≡ emptied }
    {
        let unused = StoredEdit {
            id: EventId(0),
            edit: Edit {
                end_time: 0.0,
                fade_out: 0.0,
            },
        };
        EditMap {
            items: [unused; 256],
            len: 0,
        }
    }

    // The place of the edit of a number.
    // It is the search of `ActiveMap::find` once more: one for both would need a trait for an element's number, which is no plainer.
    fn place(self, id: EventId) -> Option<usize>
        ensures { result ≡ placed self id }
    {
        if 256 < self.len {
            return None;
        }
        for at in 0..self.len {
            if self.items[at].id == id {
                return Some(at);
            }
        }
        None
    }

    // The edit of a number.
    pub fn find(self, id: EventId) -> Option<Edit>
        ensures { result ≡ found_edit self id }
    {
        // (Not by `?`: must-fail/find_invents plants an edit in the second arm.)
        match self.place(id) {
            Some(i) => Some(self.items[i].edit),
            None => None,
        }
    }

    // Replaces the edit of the number in its place, or appends it. A full map without the number stays as it is.
    pub fn insert(mut self, id: EventId, edit: Edit) -> EditMap
        ensures { result ≡ stored self id edit }
    {
        let new = StoredEdit { id, edit };
        match self.place(id) {
            Some(i) => self.items[i] = new,
            None => {
                if self.len < 256 {
                    self.items[self.len] = new;
                    self.len += 1;
                }
            }
        }
        self
    }

    // Takes the edit of the number out; the later ones close the gap.
    pub fn remove(mut self, id: EventId) -> EditMap
        ensures { result ≡ removed self id }
    {
        if let Some(at) = self.place(id) {
            self.len -= 1;
            for i in at..self.len {
                self.items[i] = self.items[i + 1];
            }
        }
        self
    }
}

// ---- the finished, at the beginning of a tick or block

// In mode None they are let go: how many were, and how many are left.
pub fn gone(mode: ReplayMode, let_go: u64, past_len: usize) -> u64
    ensures { result ≡ gone_by mode let_go past_len }
{
    match mode {
        ReplayMode::All => let_go,
        ReplayMode::None => let_go.wrapping_add(past_len as u64),
    }
}

// How many are left: all in mode All, none in mode None.
pub fn kept(mode: ReplayMode, past_len: usize) -> usize
    ensures { result ≡ kept_by mode past_len }
{
    match mode {
        ReplayMode::All => past_len,
        ReplayMode::None => 0,
    }
}
