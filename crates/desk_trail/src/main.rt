// Plays a desk script of at most 65,536 bytes from standard input (oracle/README.md: a tape whose kinds 01 to 05 and 0A to 0C are calls of the front and 06 to 09 of the back, with 10 for the front's reset, 11 to 13 for what is lent, and 15 and 16 for marked calls).
// Each record prints its lines as on a tape, then its answer and the whole state of the back and the queues (crate state_listing).
#![tactic(auto)]

mod lines;

ghost use Rattle.std.specs.Prelude.{◌≤◌};

use event::MixOrder;
use lines::Sound;
use realseq::{Answer, Outcome, SequencerBackend};
use sequencer::{Counts, Sequencer};
use std::io;
use std::io::{BufWriter, Write};
use tape::reader::{Call, Cursor, Read};

// ---- calls

// The desk after a call, its answer, and what an accepted tick or block has left in the output.
#[derive(Clone, Copy)]
struct Played {
    backend: SequencerBackend,
    answer: Answer,
    sound: Option<Sound>,
}

// The number of a refusal.
fn refusal(answer: Answer) -> Option<u64> {
    match answer {
        Answer::Refused(n) => Some(n),
        Answer::Number(_) => None,
        Answer::Queued => None,
        Answer::Done => None,
        Answer::Rendered(_) => None,
    }
}

// A call that has no samples.
fn quiet(backend: SequencerBackend, answer: Answer) -> Played {
    Played {
        backend,
        answer,
        sound: None,
    }
}

fn silent(r: Outcome) -> Played {
    quiet(r.backend, r.answer)
}

fn sounding(r: Outcome, sound: Sound) -> Played {
    let mut p = silent(r);
    if refusal(p.answer).is_none() {
        p.sound = Some(sound);
    }
    p
}

fn outputs(d: SequencerBackend) -> usize {
    d.sequencer.outputs
}

fn tick(
    d: SequencerBackend,
    order: MixOrder,
    length: usize,
    pool: &[f32],
    samples: &mut [f32],
) -> Played {
    let channels = outputs(d);
    let n = length.min(samples.len());
    let r = d.tick(order, pool, &mut samples[..n]);
    sounding(
        r,
        Sound {
            channels,
            each: 1,
            stride: 1,
        },
    )
}

fn process(
    d: SequencerBackend,
    order: MixOrder,
    size: usize,
    length: usize,
    pool: &[f32],
    samples: &mut [f32],
) -> Played {
    let channels = outputs(d);
    let n = length.min(samples.len());
    let r = d.process(order, size, pool, &mut samples[..n]);
    sounding(
        r,
        Sound {
            channels,
            each: size,
            stride: 64,
        },
    )
}

// A tick and a block that are lent as much as they want.
fn whole_tick(d: SequencerBackend, order: MixOrder, pool: &[f32], samples: &mut [f32]) -> Played {
    let n = outputs(d);
    tick(d, order, n, pool, samples)
}

fn whole_block(
    d: SequencerBackend,
    order: MixOrder,
    size: u8,
    pool: &[f32],
    samples: &mut [f32],
) -> Played {
    let length = 64 * outputs(d).min(8);
    process(d, order, size as usize, length, pool, samples)
}

fn create(channels: u8, mode: event::ReplayMode, first: u64) -> Played {
    let made = Sequencer::new(channels as usize, mode, first);
    quiet(
        SequencerBackend::new(made.sequencer),
        Answer::from(made.answer),
    )
}

fn play(d: SequencerBackend, call: Call, pool: &[f32], samples: &mut [f32]) -> Played {
    match call {
        Call::Create {
            channels,
            mode,
            first,
        } => create(channels, mode, first),
        Call::Push(p) => silent(d.push(
            p.start_time,
            p.end_time,
            p.fade_ease,
            p.fade_in,
            p.fade_out,
            p.source,
            p.gain,
        )),
        Call::PushRelative(p) => silent(d.push_relative(
            p.start_time,
            p.end_time,
            p.fade_ease,
            p.fade_in,
            p.fade_out,
            p.source,
            p.gain,
        )),
        Call::PushDuration(p) => silent(d.push_duration(
            p.start_time,
            p.end_time,
            p.fade_ease,
            p.fade_in,
            p.fade_out,
            p.source,
            p.gain,
        )),
        Call::Edit(p) => silent(d.edit(p.id, p.end_time, p.fade_out)),
        Call::EditRelative(p) => silent(d.edit_relative(p.id, p.end_time, p.fade_out)),
        Call::Tick => whole_tick(d, MixOrder::Forward, pool, samples),
        Call::Process(n) => whole_block(d, MixOrder::Forward, n, pool, samples),
        Call::Reset => quiet(d.reset(), Answer::Done),
        Call::SetSampleRate(rate) => silent(d.set_sample_rate(rate)),
    }
}

// ---- the kinds of a script: 10 the front's reset, 11 a tick and 12 a block with an output of a given length, 13 the pool's length, 15 a tick and 16 a block with the mark

// A record's size, where it is none that the tape's reader reads.
fn script_size(kind: u8) -> Option<usize> {
    // The kinds are the bytes of the script, here and in `play_script`: an enum of them would be matched once more.
    match kind {
        16 => Some(1),
        17 => Some(3),
        18 => Some(6),
        19 => Some(3),
        21 => Some(1),
        22 => Some(2),
        _ => None,
    }
}

// Two little-endian bytes; 0 where they are not both there.
fn short(bs: &[u8], at: usize) -> usize {
    if bs.len() <= at || bs.len() - at < 2 {
        return 0;
    }
    usize::from(u16::from_le_bytes([bs[at], bs[at + 1]]))
}

fn byte_at(bs: &[u8], at: usize) -> u8 {
    if at < bs.len() { bs[at] } else { 0 }
}

// The pool's length after a record.
fn lent(kind: u8, bs: &[u8], pool: usize, most: usize) -> usize
    ensures { result ≤ most }
{
    if kind == 19 {
        return short(bs, 1).min(most);
    }
    pool.min(most)
}

fn play_script(
    d: SequencerBackend,
    kind: u8,
    bs: &[u8],
    pool: &[f32],
    samples: &mut [f32],
) -> Played {
    match kind {
        16 => silent(d.queue_reset()),
        17 => tick(d, MixOrder::Forward, short(bs, 1), pool, samples),
        18 => process(
            d,
            MixOrder::Forward,
            byte_at(bs, 1) as usize,
            short(bs, 2),
            pool,
            samples,
        ),
        21 => whole_tick(d, MixOrder::Backward, pool, samples),
        22 => whole_block(d, MixOrder::Backward, byte_at(bs, 1), pool, samples),
        _ => quiet(d, Answer::Done),
    }
}

fn counts(d: SequencerBackend) -> Counts {
    d.sequencer.counts()
}

// Writes the line of a record's answer and of the desk behind it.
fn list_desk<W: Write>(
    out: &mut W,
    kind: u8,
    answer: Answer,
    d: SequencerBackend,
) -> io::Result<()> {
    let mut text = [0u8; 1024];
    let n = state_listing::desk_line(kind, answer, d, &mut text);
    if n <= 1024 {
        out.write_all(&text[..n])?;
    }
    Ok(())
}

// Lists an applied record and the state; false where the listing ends there, also at a line that was not written.
// (A `bool`, and `run` answers nothing: with a Result and `?` in its loop the frame holds nearly three desks more, and the program needs 126 KB more stack.)
fn list<W: Write>(out: &mut W, kind: u8, p: Played, samples: &[f32]) -> bool {
    let d = p.backend;
    let no = refusal(p.answer).unwrap_or(0);
    let Ok(true) = lines::list(out, kind, no, counts(d), samples, p.sound) else {
        return false;
    };
    list_desk(out, kind, p.answer, d).is_ok()
}

fn silence() -> [f32; 576] {
    [0.0; 576]
}

fn run<W: Write>(out: &mut W, script: &[u8], whole: &[f32]) {
    let mut samples = silence();
    let made = Sequencer::new(1, event::ReplayMode::All, 1);
    let mut d = SequencerBackend::new(made.sequencer);
    let mut pool = whole.len();
    let mut first = true;
    let mut at: usize = 0;
    for _ in 0..script.len() {
        let kind = byte_at(script, at);
        let size = if first { None } else { script_size(kind) };
        if let Some(size) = size {
            if script.len() <= at {
                return;
            }
            if script.len() - at < size {
                let _ = lines::list_counts(out, kind, 15, counts(d));
                return;
            }
            let bs = &script[at..];
            pool = lent(kind, bs, pool, whole.len());
            let p = play_script(d, kind, bs, &whole[..pool], &mut samples);
            d = p.backend;
            if !list(out, kind, p, &samples) {
                return;
            }
            at += size;
        } else {
            let c = Cursor { at, first };
            let r = c.read(script);
            let Read::Record { kind, call, next } = r else {
                let _ = lines::stop(out, r, counts(d));
                return;
            };
            let p = play(d, call, &whole[..pool], &mut samples);
            d = p.backend;
            if !list(out, kind, p, &samples) {
                return;
            }
            first = next.first;
            at = next.at;
        }
    }
}

fn main(rt: HostRuntime) -> io::Result<()> {
    let mut buf = [0u8; 65536];
    let n = streams::read_full(&mut rt.stdin(), &mut buf);
    let mut out = BufWriter::new(rt.alloc(), rt.stdout())?;
    let pool = tape::pool::trail_pool();
    // A line that was not written ends the listing; the flush says whether the output was written.
    run(&mut out, &buf[..n], &pool);
    out.flush()
}
