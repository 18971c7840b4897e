// Random feeds through `peak`, single ones and runs, empty ones and some longer than any window, and at times one with a row that is a word too short.
ghost use Rattle.std.specs.Prelude.{◌≤◌};

use peak::{Refused, RunningPeak};

// Sample i of the history. Its magnitude is random, below a power of two that falls in 24 steps of a quarter of the window and then rises again: mostly the greatest of a window is near its beginning, and leaves it soon.
// The first step has NaNs, the second infinities, those from the ninth on subnormals. Either sign.
fn sample(i: u64, window: u64) -> f32 {
    let r = crate::random(crate::random((i % 0x1_0000_0000 * 2654435761 % 0x1_0000_0000) as u32));
    let sign = r % 2 * 0x8000_0000;
    let step = i / (window / 4 + 1) % 24;
    if step == 1 && r % 8 < 2 {
        return float_bits::f32_from_bits(sign ^ 0x7f80_0000);
    }
    float_bits::f32_from_bits(sign ^ ((r / 2) >> (step as u32)))
}

// The samples from i on.
fn fill(run: &mut [f32], i: u64, window: u64) {
    for (j, x) in run.iter_mut().enumerate() {
        *x = sample(i.wrapping_add(j as u64), window);
    }
}

// What a feed hands back.
type Outcome = Result<RunningPeak, Refused>;

fn fill_and_feed(p: RunningPeak, row: &mut [u32], run: &mut [f32], i: u64, window: u64) -> Outcome {
    fill(run, i, window);
    p.feed_run(row, run)
}

// Up to 31, and at times `most`.
fn run_length(r: u64, most: usize) -> usize
    ensures { result ≤ most }
{
    if r % 61 == 0 {
        return most;
    }
    most.min((r / 64 % 32) as usize)
}

// The last feed, and how many samples were taken so far.
#[derive(Clone, Copy)]
struct Fed {
    last: Outcome,
    count: u64,
}

// The running peak that a call hands back, refused or not.
fn left(outcome: Outcome) -> RunningPeak {
    match outcome {
        Ok(p) => p,
        Err(refused) => refused.peak,
    }
}

// After so many samples, of which none count if they were refused.
fn counted(fed: Fed, outcome: Outcome, n: u64) -> Fed {
    let taken = if outcome.is_ok() { n } else { 0 };
    Fed {
        last: outcome,
        count: fed.count.wrapping_add(taken),
    }
}

// One less than the window, and at most the row.
fn too_few(window: usize, words: usize) -> usize
    ensures { result ≤ words }
{
    if window <= words {
        window.saturating_sub(1)
    } else {
        0
    }
}

// One sample, with a row that is a word shorter than the window in force.
fn feed_short(fed: Fed, row: &mut [u32], window: u64) -> Fed {
    let p = left(fed.last);
    let n = too_few(p.window, row.len());
    let outcome = p.feed(&mut row[..n], sample(fed.count, window));
    counted(fed, outcome, 1)
}

// One feed. Of four, three are single samples.
fn feed(fed: Fed, row: &mut [u32], run: &mut [f32], r: u64, window: u64) -> Fed {
    let p = left(fed.last);
    if r % 4 < 3 {
        if r / 4 % 16 == 0 {
            return feed_short(fed, row, window);
        }
        let outcome = p.feed(row, sample(fed.count, window));
        return counted(fed, outcome, 1);
    }
    let n = run_length(r / 4, run.len());
    let outcome = fill_and_feed(p, row, &mut run[..n], fed.count, window);
    counted(fed, outcome, n as u64)
}

// The digest with a call's refusal in it, and what is answered afterwards.
fn seen(digest: u64, outcome: Outcome, row: &[u32]) -> u64 {
    let digest = match outcome {
        Ok(_) => digests::mixed(digest, 0),
        Err(refused) => digests::mixed(digest, refused.number()),
    };
    match left(outcome).peak(row) {
        Ok(x) => digests::mixed(digests::mixed(digest, 0), u64::from(x)),
        Err(refused) => digests::mixed(digests::mixed(digest, 1), refused.number()),
    }
}

// The answers of a window after each of `rounds` feeds.
fn all_feeds(window: usize, rounds: u64, row: &mut [u32], run: &mut [f32]) -> u64 {
    let made = RunningPeak::new(window, row);
    let mut digest = seen(0, made, row);
    let mut fed = Fed {
        last: made,
        count: 0,
    };
    let mut seed: u32 = 521288629;
    for _ in 0..rounds {
        seed = crate::random(seed);
        fed = feed(fed, row, run, u64::from(seed), window as u64);
        digest = seen(digest, fed.last, row);
    }
    digests::mixed(digest, fed.count)
}

fn feeds_in(window: usize, words: usize, row: &mut [u32], run: &mut [f32]) -> u64 {
    let n = words.min(row.len());
    all_feeds(window, 20000, &mut row[..n], run)
}

// A row of up to 4,096 words, each of them above every magnitude at the beginning.
pub(crate) fn peak_digest(window: usize, words: usize) -> u64 {
    let mut row = [0xffff_ffffu32; 4096];
    let mut run = [0.0f32; 5000];
    feeds_in(window, words, &mut row, &mut run)
}
