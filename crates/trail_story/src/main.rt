// `trail_story TAPE`: a tape in lines to read. Ticks and blocks in which nothing starts or finishes are gathered in one line. Of what is written no contract speaks, since std has no model of
// standard output: the lines are crate tape_story, where a clip stands is crate tape_tracks, and the calls are the engine's.
#![tactic(auto)]

use sequencer::{Answer, Counts, Sequencer};
use standing::Standing;
use std::io;
use std::io::{BufWriter, Write};
use std::os::unix::fs::FileExt;
use tape::reader::{Call, Read};
use tape_pages::{both, larger};
use tape_story::Samples;
use tape_tracks::{Track, Tracks, place_number};

// Writes the first n bytes of a text, where it has so many.
fn say<W: Write>(out: &mut W, text: &[u8], n: usize) -> io::Result<()> {
    if text.len() < n {
        return Ok(());
    }
    out.write_all(&text[..n])
}

// ---- clips

fn tell_move<W: Write>(out: &mut W, clip: u64, was: Standing, place: Standing) -> io::Result<()> {
    let mut text = [0u8; 4096];
    let n = tape_story::put_move(clip, place_number(was), place_number(place), &mut text, 0);
    say(out, &text, n)
}

// Tells every clip that stands elsewhere than it did, and keeps those that are held.
fn follow<W: Write>(out: &mut W, s: Sequencer, tracks: &mut Tracks, clock: u64) -> io::Result<()> {
    let before = *tracks;
    *tracks = Tracks::none();
    for track in before.held() {
        let place = standing::standing_of(s, track.clip);
        tell_move(out, track.clip, track.place, place)?;
        tracks.hold(Track {
            clip: track.clip,
            place,
            since: clock,
        });
    }
    Ok(())
}

// ---- lines

// Ticks and blocks in which nothing started or finished: how many, the clock before the first, and the peak of all.
#[derive(Clone, Copy)]
struct Quiet {
    calls: u64,
    since: u64,
    peak: u32,
}

fn tell_quiet<W: Write>(out: &mut W, quiet: Option<Quiet>) -> io::Result<()> {
    let Some(q) = quiet else {
        return Ok(());
    };
    let mut text = [0u8; 4096];
    let n = tape_story::put_quiet(q.calls, q.since, q.peak, &mut text, 0);
    say(out, &text, n)
}

// One more of them.
fn quieter(quiet: Option<Quiet>, clock: u64, peak: u32) -> Quiet {
    match quiet {
        Some(q) => Quiet {
            calls: q.calls.wrapping_add(1),
            since: q.since,
            peak: larger(q.peak, peak),
        },
        None => Quiet {
            calls: 1,
            since: clock,
            peak,
        },
    }
}

fn tell_begin<W: Write>(
    out: &mut W,
    clock: u64,
    kind: u8,
    clip: u64,
    refusal: Option<u64>,
) -> io::Result<()> {
    let mut text = [0u8; 4096];
    let n = tape_story::put_begin(clock, kind, clip, refusal, &mut text, 0);
    say(out, &text, n)
}

fn tell_outcome<W: Write>(
    out: &mut W,
    s: Sequencer,
    kind: u8,
    told: Answer,
    clip: u64,
    place: Standing,
) -> io::Result<()> {
    let mut text = [0u8; 4096];
    let n = tape_story::put_outcome(s, kind, told, clip, place_number(place), &mut text, 0);
    say(out, &text, n)
}

fn tell_heard<W: Write>(out: &mut W, heard: Option<Samples>) -> io::Result<()> {
    let mut text = [0u8; 4096];
    let n = tape_story::put_heard(heard, &mut text, 0);
    say(out, &text, n)
}

fn tell_stop<W: Write>(out: &mut W, clock: u64, kind: u8, refusal: u64) -> io::Result<()> {
    let mut text = [0u8; 4096];
    let n = tape_story::put_stop(clock, kind, refusal, &mut text, 0);
    say(out, &text, n)
}

fn tell_sum<W: Write>(out: &mut W, clock: u64, counts: Counts, pushes: u64) -> io::Result<()> {
    let mut text = [0u8; 4096];
    let n = tape_story::put_end(clock, pushes, counts, &mut text, 0);
    say(out, &text, n)
}

// The greatest magnitude among the first `each` samples.
fn loudest(samples: &[f32], each: usize) -> u32 {
    let mut most = 0;
    for sample in samples.iter().take(each) {
        most = larger(most, float_bits::f32_to_bits(*sample) % 0x8000_0000);
    }
    most
}

// The tape as far as it is told: the engine, the accepted pushes, the quiet calls that are not told yet, and the last call's refusal.
#[derive(Clone, Copy)]
struct Told {
    sequencer: Sequencer,
    pushes: u64,
    quiet: Option<Quiet>,
    refusal: Option<u64>,
}

fn untold() -> Told {
    Told {
        sequencer: apply::start(),
        pushes: 0,
        quiet: None,
        refusal: None,
    }
}

// The last lines: quiet calls, what stops the tape, and the sum.
fn tell_end<W: Write>(out: &mut W, r: Read, t: &Told) -> io::Result<()> {
    tell_quiet(out, t.quiet)?;
    let clock = chart::micros(t.sequencer.time);
    if let Read::Refused { kind, number } = r {
        tell_stop(out, clock, kind, u64::from(number))?;
    }
    tell_sum(out, clock, t.sequencer.counts(), t.pushes)
}

// Plays a record, and tells it.
fn tell_record<W: Write>(
    out: &mut W,
    t: &mut Told,
    kind: u8,
    call: Call,
    pool: &[f32],
    samples: &mut [f32],
    tracks: &mut Tracks,
) -> io::Result<()> {
    let before = t.sequencer;
    let clock = chart::micros(before.time);
    let clip = before.next;
    let told = tape_tracks::answer_of(before, call);
    let a = apply::apply(before, call, pool, samples);
    let s = a.sequencer;
    let refusal = tape_tracks::refusal_of(a.refusal);
    let heard = 0 < a.channels;
    let peak = loudest(samples, a.each);
    let still = tape_tracks::is_same(before.counts(), s.counts());
    let quiet_now = both(still, heard);
    let accepted = both(refusal.is_none(), tape::reader::is_push(kind));
    let laid = tape_tracks::laid_at(accepted, s, clip);
    let mut quiet = None;
    if quiet_now {
        quiet = Some(quieter(t.quiet, clock, peak));
    } else {
        tell_quiet(out, t.quiet)?;
        let edited = tape_tracks::edited(call).unwrap_or(0);
        tell_begin(out, clock, kind, edited, refusal)?;
        if refusal.is_none() {
            tell_outcome(out, s, kind, told, clip, laid.unwrap_or(Standing::Waiting))?;
        }
    }
    if let Some(place) = laid {
        tracks.hold(Track {
            clip,
            place,
            since: clock,
        });
    }
    if !still {
        follow(out, s, tracks, clock)?;
    }
    if !quiet_now {
        let samples = Samples {
            each: a.each as u64,
            peak,
        };
        tell_heard(out, heard.then_some(samples))?;
    }
    t.sequencer = s;
    t.pushes = tape_tracks::one_more_if(laid.is_some(), t.pushes);
    t.quiet = quiet;
    t.refusal = refusal;
    Ok(())
}

// Plays the tape, with the pool and with memory for a block's samples; `tracks` are the clips that are held.
fn tell<E: Eprint, F: FileExt, W: Write>(
    rt: &E,
    out: &mut W,
    file: &F,
    pool: &[f32],
    samples: &mut [f32],
    tracks: &mut Tracks,
) -> io::Result<()> {
    let mut t = untold();
    let mut first = true;
    let mut at: u64 = 0;
    for _ in 0..u64::MAX {
        let r = tape_pages::record(rt, b"trail_story", file, at, first);
        let Read::Record { kind, call, next } = r else {
            return tell_end(out, r, &t);
        };
        tell_record(out, &mut t, kind, call, pool, samples, tracks)?;
        if t.refusal == Some(1) {
            return tell_end(out, Read::End, &t);
        }
        first = next.first;
        at = at.wrapping_add(next.at as u64);
    }
    Ok(())
}

// Tells an open tape, with the first `count` samples of a pool.
fn tell_file<E: Eprint, F: FileExt, W: Write>(
    rt: &E,
    out: &mut W,
    file: &F,
    pool: &[f32],
    count: usize,
) -> io::Result<()> {
    if pool.len() < count {
        return Ok(());
    }
    let mut samples = apply::silence();
    let mut tracks = Tracks::none();
    tell(rt, out, file, &pool[..count], &mut samples, &mut tracks)
}

fn main(rt: HostRuntime) -> io::Result<()> {
    let mut name = [0u8; 4096];
    let mut pool = vec![in rt.alloc(); 0.0f32; pool_file::ROOM]?;
    let Some(opened) = tape_pages::open(
        &rt,
        b"trail_story",
        b"Tells the tape TAPE in lines on standard output.\n",
        &mut name,
        &mut pool[..],
    ) else {
        return Ok(());
    };
    let mut out = BufWriter::new(rt.alloc(), rt.stdout())?;
    tell_file(&rt, &mut out, &opened.file, &pool[..], opened.count)?;
    out.flush()
}
