// `trail_sheet TAPE > page.svg`: a tape as a page to look at: a lane for each clip, marks for edits and refused calls, the wave of each channel, and the sum. The tape is played twice: once for the page's
// measures, once to draw. Of what is written no contract speaks, since std has no model of standard output: the elements are crate tape_sheet, where they stand is crate chart, where a clip
// stands is crate tape_tracks, and the calls are the engine's.
#![tactic(auto)]

mod page;
mod waves;

ghost use Rattle.std.specs.Prelude.{◌≡◌, length};

use page::{LastMark, Page};
use sequencer::Sequencer;
use standing::Standing;
use std::io;
use std::io::{BufWriter, Write};
use std::os::unix::fs::FileExt;
use tape::reader::{Call, Read};
use tape_pages::both;
use tape_tracks::{Track, Tracks};

fn record<E: Eprint, F: FileExt>(rt: &E, file: &F, at: u64, first: bool) -> Read {
    tape_pages::record(rt, b"trail_sheet", file, at, first)
}

// ---- clips

// Draws a clip that stands elsewhere than it did, and answers since when it stands where it does. What is let go stands so up to the page's end.
fn draw_move<W: Write>(
    out: &mut W,
    page: Page,
    track: Track,
    to: Standing,
    now: u64,
) -> io::Result<u64> {
    if to == track.place {
        return Ok(track.since);
    }
    page::segment(out, page, track, now)?;
    if to == Standing::LetGo {
        let gone = Track {
            clip: track.clip,
            place: to,
            since: now,
        };
        page::segment(out, page, gone, page.total)?;
    }
    Ok(now)
}

// Draws how every clip moved, and keeps those that are held.
fn follow<W: Write>(
    out: &mut W,
    page: Page,
    s: Sequencer,
    tracks: &mut Tracks,
    now: u64,
) -> io::Result<()> {
    let before = *tracks;
    *tracks = Tracks::none();
    for track in before.held() {
        let place = standing::standing_of(s, track.clip);
        let since = draw_move(out, page, *track, place, now)?;
        tracks.hold(Track {
            clip: track.clip,
            place,
            since,
        });
    }
    Ok(())
}

// The first number: the next one of a fresh engine.
fn first_of(kind: u8, s: Sequencer, number: u64) -> u64 {
    if kind == 0 { s.next } else { number }
}

// What was played before the clock's 0: a reset sets the clock back.
fn base_of(kind: u8, now: u64, base: u64) -> u64 {
    if kind == 8 { now } else { base }
}

// What is held at the end stands so up to the end.
fn finish<W: Write>(out: &mut W, page: Page, tracks: &Tracks) -> io::Result<()> {
    for track in tracks.held() {
        page::segment(out, page, *track, page.total)?;
    }
    Ok(())
}

fn stop_of(r: Read) -> Option<u64> {
    match r {
        Read::Refused { kind: _, number } => Some(u64::from(number)),
        _ => None,
    }
}

// The tape as far as it is played: the engine, the accepted pushes, the first clip's number, what was played before the clock's 0, the last mark of the strip, and the last call's refusal.
#[derive(Clone, Copy)]
struct Played {
    sequencer: Sequencer,
    pushes: u64,
    first: u64,
    base: u64,
    mark: LastMark,
    refusal: Option<u64>,
}

fn unplayed() -> Played {
    Played {
        sequencer: apply::start(),
        pushes: 0,
        first: 1,
        base: 0,
        mark: LastMark { x: 0, row: 0 },
        refusal: None,
    }
}

// What is known at the tape's end: the page to draw; in drawing, the page is ended.
fn end_of<W: Write>(
    out: &mut W,
    page: Page,
    t: &Played,
    peaks: &[u32],
    tracks: &Tracks,
    stop: Option<u64>,
) -> io::Result<Page> {
    if page.draw {
        finish(out, page, tracks)?;
        page::close(out, page, t.sequencer.counts(), peaks, t.pushes, stop)?;
    }
    Ok(Page {
        draw: true,
        total: chart::later(t.base, chart::micros(t.sequencer.time)),
        lanes: t.pushes,
        first: t.first,
        channels: t.sequencer.outputs as u64,
    })
}

// Plays a record, and draws what it changes.
fn play_record<W: Write>(
    out: &mut W,
    page: Page,
    t: &mut Played,
    kind: u8,
    call: Call,
    pool: &[f32],
    samples: &mut [f32],
    peaks: &mut [u32],
    tracks: &mut Tracks,
) -> io::Result<()> {
    let before = t.sequencer;
    let now = chart::later(t.base, chart::micros(before.time));
    let clip = before.next;
    let told = tape_tracks::answer_of(before, call);
    let a = apply::apply(before, call, pool, samples);
    let s = a.sequencer;
    let refusal = tape_tracks::refusal_of(a.refusal);
    let base = base_of(kind, now, t.base);
    let laid = tape_tracks::laid_at(
        both(refusal.is_none(), tape::reader::is_push(kind)),
        s,
        clip,
    );
    if let Some(place) = laid {
        let track = Track {
            clip,
            place,
            since: now,
        };
        page::lay(out, page, track)?;
        tracks.hold(track);
    }
    let edited = tape_tracks::edited(call).unwrap_or(0);
    let mark = page::mark(out, page, t.mark, kind, edited, refusal, told, now)?;
    if !tape_tracks::is_same(before.counts(), s.counts()) {
        follow(out, page, s, tracks, now)?;
    }
    if page.draw {
        let to = chart::later(base, chart::micros(s.time));
        waves::hear(
            page.total, peaks, samples, a.channels, a.each, a.stride, now, to,
        );
    }
    t.sequencer = s;
    t.pushes = tape_tracks::one_more_if(laid.is_some(), t.pushes);
    t.first = first_of(kind, s, t.first);
    t.base = base;
    t.mark = mark;
    t.refusal = refusal;
    Ok(())
}

// Plays the tape; `tracks` are the clips that are held. What it answers is the page to draw, of which `total`, `lanes`, `first` and `channels` are known at the end.
fn play<E: Eprint, F: FileExt, W: Write>(
    rt: &E,
    out: &mut W,
    file: &F,
    page: Page,
    pool: &[f32],
    samples: &mut [f32],
    peaks: &mut [u32],
    tracks: &mut Tracks,
) -> io::Result<Page> {
    let mut t = unplayed();
    let mut first = true;
    let mut at: u64 = 0;
    for _ in 0..u64::MAX {
        let r = record(rt, file, at, first);
        let Read::Record { kind, call, next } = r else {
            return end_of(out, page, &t, peaks, tracks, stop_of(r));
        };
        play_record(out, page, &mut t, kind, call, pool, samples, peaks, tracks)?;
        if t.refusal == Some(1) {
            return end_of(out, page, &t, peaks, tracks, Some(1));
        }
        first = next.first;
        at = at.wrapping_add(next.at as u64);
    }
    Ok(page)
}

fn silent_peaks() -> [u32; 11208]
    ensures { length result ≡ 11208 }
{
    [0; 11208]
}

// Two plays: for the page's measures, and to draw it.
fn draw<E: Eprint, F: FileExt, W: Write>(
    rt: &E,
    out: &mut W,
    file: &F,
    tape: &[u8],
    pool: &[f32],
    samples: &mut [f32],
    peaks: &mut [u32],
    tracks: &mut Tracks,
) -> io::Result<()> {
    let blank = Page {
        draw: false,
        total: 0,
        lanes: 0,
        first: 1,
        channels: 1,
    };
    let page = play(rt, out, file, blank, pool, samples, peaks, tracks)?;
    page::open(out, page, tape)?;
    *tracks = Tracks::none();
    play(rt, out, file, page, pool, samples, peaks, tracks)?;
    Ok(())
}

// Draws an open tape, with the first `count` samples of a pool.
fn draw_file<E: Eprint, F: FileExt, W: Write>(
    rt: &E,
    out: &mut W,
    file: &F,
    name: &[u8],
    pool: &[f32],
    count: usize,
) -> io::Result<()> {
    if pool.len() < count {
        return Ok(());
    }
    let mut samples = apply::silence();
    let mut peaks = silent_peaks();
    let mut tracks = Tracks::none();
    draw(
        rt,
        out,
        file,
        name,
        &pool[..count],
        &mut samples,
        &mut peaks,
        &mut tracks,
    )
}

// The same, with the first `letters` of a name.
fn draw_named<E: Eprint, F: FileExt, W: Write>(
    rt: &E,
    out: &mut W,
    file: &F,
    name: &[u8],
    letters: usize,
    pool: &[f32],
    count: usize,
) -> io::Result<()> {
    if name.len() < letters {
        return Ok(());
    }
    draw_file(rt, out, file, &name[..letters], pool, count)
}

fn main(rt: HostRuntime) -> io::Result<()> {
    let mut name = [0u8; 4096];
    let mut pool = vec![in rt.alloc(); 0.0f32; pool_file::ROOM]?;
    let Some(opened) = tape_pages::open(
        &rt,
        b"trail_sheet",
        b"Draws the tape TAPE as an SVG page on standard output.\n",
        &mut name,
        &mut pool[..],
    ) else {
        return Ok(());
    };
    let mut out = BufWriter::new(rt.alloc(), rt.stdout())?;
    draw_named(
        &rt,
        &mut out,
        &opened.file,
        &name,
        opened.name,
        &pool[..],
        opened.count,
    )?;
    out.flush()
}
