// What the pages about a tape follow: where each clip stands that is held, and what a record says of one.
#![tactic(auto)]

ghost use Rattle.std.specs.Prelude.{◌≡◌, take};
ghost use Rattle.standing.specs.Theorem.{is_let_go};
ghost use Rattle.tape_tracks.specs.Tracks.{number_of, no_tracks, held_with, laid_at, same_counts, one_more, refusal_of, edited_number, edit_answer_of};

use sequencer::{Answer, Counts, Sequencer};
use standing::Standing;
use tape::reader::Call;

// A clip that is held: its number, where it stood when it was last looked at, and since when.
#[derive(Clone, Copy)]
pub struct Track {
    pub clip: u64,
    pub place: Standing,
    pub since: u64,
}

// The clips that are held: the first `count` of the array (document 01 lets nothing grow: an array with a count).
#[derive(Clone, Copy)]
pub struct Tracks {
    held: [Track; 256],
    count: usize,
}

// Where a clip stands, as the number by which crates tape_words, tape_story and tape_sheet are told it.
#[tactic(auto, unfolding(crate::specs::Tracks::number_of))]
pub fn place_number(place: Standing) -> u64
    ensures { result ≡ number_of place }
{
    match place {
        Standing::Waiting => 0,
        Standing::Sounding => 1,
        Standing::Finished => 2,
        Standing::LetGo => 3,
    }
}

fn is_let_go(place: Standing) -> bool
    ensures { result ≡ is_let_go place }
{
    matches!(place, Standing::LetGo)
}

impl Tracks {
    #[tactic(auto, unfolding(crate::specs::Tracks::no_tracks))]
    pub fn none() -> Tracks
        ensures { result ≡ no_tracks }
    {
        Tracks {
            held: [Track {
                clip: 0,
                place: Standing::Waiting,
                since: 0,
            }; 256],
            count: 0,
        }
    }

    // The clips in the order in which they were laid.
    pub fn held(&self) -> &[Track]
        ensures { result.now ≡ take self.now.count self.now.held }
    {
        &self.held[..self.count.min(256)]
    }

    // One more clip, behind the others. What was let go is held no longer, and no more than 256 are.
    #[tactic(auto, unfolding(crate::specs::Tracks::held_with))]
    pub fn hold(&mut self, track: Track)
        ensures { self.new ≡ held_with self.old track }
    {
        if is_let_go(track.place) {
            return;
        }
        if self.count < 256 {
            self.held[self.count] = track;
            self.count += 1;
        }
    }
}

// Where a clip that was laid stands.
#[tactic(auto, unfolding(crate::specs::Tracks::laid_at))]
pub fn laid_at(laid: bool, s: Sequencer, clip: u64) -> Option<Standing>
    ensures { result ≡ laid_at laid s clip }
{
    if laid {
        Some(standing::standing_of(s, clip))
    } else {
        None
    }
}

// Whether all four counts are as they were; by the fields, which an edit of must-fail/ changes one of.
#[tactic(auto, unfolding(crate::specs::Tracks::same_counts))]
pub fn is_same(a: Counts, b: Counts) -> bool
    ensures { result ≡ same_counts a b }
{
    a.waiting == b.waiting
        && a.sounding == b.sounding
        && a.finished == b.finished
        && a.let_go == b.let_go
}

// The accepted pushes, with one more where a clip was laid.
#[tactic(auto, unfolding(crate::specs::Tracks::one_more))]
pub fn one_more_if(laid: bool, pushes: u64) -> u64
    ensures { result ≡ one_more laid pushes }
{
    if laid {
        return pushes.wrapping_add(1);
    }
    pushes
}

// The refusal of a call, by the number that the engine's answer has; 0 is none.
#[tactic(auto, unfolding(crate::specs::Tracks::refusal_of))]
pub fn refusal_of(number: u64) -> Option<u64>
    ensures { result ≡ refusal_of number }
{
    if number == 0 { None } else { Some(number) }
}

// The number that an edit names.
#[tactic(auto, unfolding(crate::specs::Tracks::edited_number))]
pub fn edited(call: Call) -> Option<u64>
    ensures { result ≡ edited_number call }
{
    match call {
        Call::Edit(p) | Call::EditRelative(p) => Some(p.id.0),
        _ => None,
    }
}

// What becomes of an edit; any other call is done.
#[tactic(auto, unfolding(crate::specs::Tracks::edit_answer_of))]
pub fn answer_of(s: Sequencer, call: Call) -> Answer
    ensures { result ≡ edit_answer_of s call }
{
    match call {
        Call::Edit(p) => standing::edit_answer(s, p, false),
        Call::EditRelative(p) => standing::edit_answer(s, p, true),
        _ => Answer::Done,
    }
}
