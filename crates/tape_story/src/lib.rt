// A tape in lines: the clock in milliseconds, the call, the clip's number, and what became of it. Each function puts a part of a line, piece by piece, into a lent buffer (crate tape_words).
#![tactic(auto)]

ghost use Rattle.std.specs.Prelude.{◌≡◌};
ghost use Rattle.listing.specs.Pieces.{text, add, add_all};
ghost use Rattle.tape_story.specs.Asides.{refused_text, samples_text};
ghost use Rattle.tape_story.specs.Lines.{move_text, laid_text, mode_text, created_text, edited_text, rate_text, outcome_text, quiet_text, begin_text, heard_text, stop_text, end_text};

use event::ReplayMode;
use listing::pieces::put_bytes;
use sequencer::{Answer, Counts, Sequencer};
use tape_words::{
    is_sounding, put_answer, put_by_place, put_call, put_either, put_numbered, put_peak,
    put_refusal, put_sum, put_thousandths, put_time,
};

// What became of a clip that stands elsewhere than it did; one that stands where it did is not told.
pub fn put_move(clip: u64, was: u64, place: u64, out: &mut [u8], at: usize) -> usize
    ensures { text out.new result ≡ add_all (move_text clip was place) (text out.old at) }
{
    if place == was {
        return at;
    }
    let to = put_numbered(b"; clip ", clip, out, at);
    put_by_place(
        place,
        b" waits again",
        b" starts",
        b" finishes",
        b" is let go",
        out,
        to,
    )
}

// Where a push lays its clip.
fn put_laid(clip: u64, place: u64, out: &mut [u8], at: usize) -> usize
    ensures { text out.new result ≡ add_all (laid_text clip place) (text out.old at) }
{
    let to = put_numbered(b": clip ", clip, out, at);
    put_either(
        is_sounding(place),
        b" goes straight to sounding",
        b" waits",
        out,
        to,
    )
}

// The replay mode.
fn put_mode(mode: ReplayMode, out: &mut [u8], at: usize) -> usize
    ensures { text out.new result ≡ add (mode_text mode) (text out.old at) }
{
    match mode {
        ReplayMode::All => put_bytes(b", mode All", out, at),
        ReplayMode::None => put_bytes(b", mode None", out, at),
    }
}

// What a creation makes.
fn put_created(channels: u64, mode: ReplayMode, first: u64, out: &mut [u8], at: usize) -> usize
    ensures { text out.new result ≡ add_all (created_text channels mode first) (text out.old at) }
{
    let to = put_numbered(b", channels ", channels, out, at);
    let to = put_mode(mode, out, to);
    put_numbered(b", first number ", first, out, to)
}

// What became of an edit.
fn put_edited(told: Answer, out: &mut [u8], at: usize) -> usize
    ensures { text out.new result ≡ add_all (edited_text told) (text out.old at) }
{
    let to = put_bytes(b": ", out, at);
    put_answer(told, out, to)
}

// A rate, to the nearest thousandth.
fn put_rate(rate: f64, out: &mut [u8], at: usize) -> usize
    ensures { text out.new result ≡ add_all (rate_text rate) (text out.old at) }
{
    let to = put_bytes(b" ", out, at);
    put_thousandths(chart::thousandths(rate), out, to)
}

// What an accepted call says, beside the clips that moved: `s` is the engine behind it.
pub fn put_outcome(
    s: Sequencer,
    kind: u8,
    told: Answer,
    clip: u64,
    place: u64,
    out: &mut [u8],
    at: usize,
) -> usize
    ensures { text out.new result ≡ add_all (outcome_text s kind told clip place) (text out.old at) }
{
    if tape::reader::is_push(kind) {
        return put_laid(clip, place, out, at);
    }
    match kind {
        0 => put_created(s.outputs as u64, s.mode, s.next, out, at),
        // 4 and 5 apart: `4 | 5` becomes two bounds, and the proof of the range did not close
        4 => put_edited(told, out, at),
        5 => put_edited(told, out, at),
        9 => put_rate(s.sample_rate, out, at),
        _ => at,
    }
}

// No Option: the text of 0 calls is promised too.
// Ticks and blocks in which no clip moved: how many, since when, and the peak of all.
pub fn put_quiet(calls: u64, since: u64, peak: u32, out: &mut [u8], at: usize) -> usize
    ensures { text out.new result ≡ add_all (quiet_text calls since peak) (text out.old at) }
{
    if calls == 0 {
        return at;
    }
    let to = put_time(since, out, at);
    let to = put_numbered(b": ", calls, out, to);
    let to = put_bytes(b" ticks or blocks in which no clip moves, peak ", out, to);
    let to = put_peak(peak, out, to);
    put_bytes(b"\n", out, to)
}

// A refusal behind its call.
fn put_refused(refusal: Option<u64>, out: &mut [u8], at: usize) -> usize
    ensures { text out.new result ≡ add_all (refused_text refusal) (text out.old at) }
{
    match refusal {
        Some(number) => {
            let to = put_bytes(b": ", out, at);
            put_refusal(number, out, to)
        }
        None => at,
    }
}

// The beginning of a record's line.
pub fn put_begin(
    clock: u64,
    kind: u8,
    clip: u64,
    refusal: Option<u64>,
    out: &mut [u8],
    at: usize,
) -> usize
    ensures { text out.new result ≡ add_all (begin_text clock kind clip refusal) (text out.old at) }
{
    let to = put_time(clock, out, at);
    let to = put_bytes(b": ", out, to);
    let to = put_call(kind, clip, out, to);
    put_refused(refusal, out, to)
}

// How many samples of each channel were heard, and the first channel's peak.
#[derive(Clone, Copy)]
pub struct Samples {
    pub each: u64,
    pub peak: u32,
}

fn put_samples(heard: Option<Samples>, out: &mut [u8], at: usize) -> usize
    ensures { text out.new result ≡ add_all (samples_text heard) (text out.old at) }
{
    match heard {
        Some(samples) => {
            let to = put_numbered(b"; ", samples.each, out, at);
            let to = put_bytes(b" samples, peak ", out, to);
            put_peak(samples.peak, out, to)
        }
        None => at,
    }
}

// The end of a record's line: how much was heard.
pub fn put_heard(heard: Option<Samples>, out: &mut [u8], at: usize) -> usize
    ensures { text out.new result ≡ add_all (heard_text heard) (text out.old at) }
{
    let to = put_samples(heard, out, at);
    put_bytes(b"\n", out, to)
}

// The line of a record that stops the tape.
pub fn put_stop(clock: u64, kind: u8, refusal: u64, out: &mut [u8], at: usize) -> usize
    ensures { text out.new result ≡ add_all (stop_text clock kind refusal) (text out.old at) }
{
    let to = put_time(clock, out, at);
    let to = put_numbered(b": record of kind ", kind as u64, out, to);
    let to = put_bytes(b": ", out, to);
    let to = put_refusal(refusal, out, to);
    put_bytes(b"; the tape stops\n", out, to)
}

// The last line: the sum of the counts.
pub fn put_end(clock: u64, pushes: u64, counts: Counts, out: &mut [u8], at: usize) -> usize
    ensures { text out.new result ≡ add_all (end_text clock pushes counts) (text out.old at) }
{
    let to = put_time(clock, out, at);
    let to = put_bytes(b": the end; ", out, to);
    let to = put_sum(pushes, counts, out, to);
    put_bytes(b"\n", out, to)
}
