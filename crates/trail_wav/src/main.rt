// `trail_wav TAPE OUT.wav [POOL]` plays a tape of any length into a WAV of 32-bit float samples, in pieces of 64 KB, and says at the end what it wrote and what ended the tape.
// The header is put in its place at the end, when the count of frames is known. A WAV has one rate: samples at another one, or at a rate that is no whole number, end it.
#![tactic(auto)]

mod say;

use apply::Applied;
use say::{Ending, Heard};
use std::fs::File;
use std::io;
use std::io::{IsTerminal, Write};
use std::os::unix::fs::FileExt;
use std::rt::Files;
use tape::reader::{Call, Cursor, Read};

// ---- what is heard

// The greatest magnitude of what was heard, channel by channel.
fn loudest(samples: &[f32], channels: usize, each: usize, stride: usize, before: u32) -> u32 {
    let mut most = before;
    let mut from: usize = 0;
    for _ in 0..channels {
        if samples.len() <= from || samples.len() - from < each || samples.len() - from < stride {
            return most;
        }
        most = wav::frames::loudest(&samples[from..from + each], most);
        from += stride;
    }
    most
}

// What is heard with `each` more frames at that rate, or what ends it.
fn hear(heard: Heard, each: usize, rate: f64, most: u32) -> Result<Heard, Ending> {
    if each == 0 {
        return Ok(heard);
    }
    let Some(whole) = wav::header::whole_rate(rate) else {
        return Err(Ending::NoWholeRate(rate));
    };
    if heard.frames != 0 && heard.rate != whole {
        return Err(Ending::OtherRate(rate));
    }
    if 64 < each {
        return Err(Ending::Full);
    }
    let Some(frames) = heard.frames.checked_add(each as u32) else {
        return Err(Ending::Full);
    };
    Ok(Heard {
        frames,
        rate: whole,
        most,
    })
}

// ---- the data

// Writes the first `used` bytes of `data`.
fn write_out<W: Write>(to: &mut W, data: &[u8], used: usize) -> Result<(), Ending> {
    if data.len() < used || to.write_all(&data[..used]).is_err() {
        return Err(Ending::Unwritten);
    }
    Ok(())
}

// Whether the data has no room for a block of 8 channels.
fn is_full(data: &[u8], used: usize) -> bool {
    data.len() < used || data.len() - used < 2048
}

// Puts the frames of an accepted tick or block behind what is in use, and answers how much is in use then.
fn add(
    samples: &[f32],
    channels: usize,
    each: usize,
    stride: usize,
    data: &mut [u8],
    used: usize,
) -> usize {
    if data.len() < used {
        return used;
    }
    let n = wav::frames::put_frames(samples, channels, each, stride, &mut data[used..]);
    if n <= data.len() - used {
        used + n
    } else {
        used
    }
}

// The next record's call, and the cursor behind it, or what ends the tape; `failed`: it cannot be read on.
fn next_call(c: Cursor, bytes: &[u8], failed: bool) -> Result<(Call, Cursor), Ending> {
    match c.read(bytes) {
        Read::Record {
            kind: _,
            call,
            next,
        } => Ok((call, next)),
        Read::Refused { kind: _, number } => {
            if failed {
                Err(Ending::Unread)
            } else {
                Err(Ending::Refusal(u64::from(number)))
            }
        }
        Read::End => {
            if failed {
                Err(Ending::Unread)
            } else {
                Err(Ending::Tape)
            }
        }
    }
}

// Whether the header was put in its place.
fn put_header<F: FileExt>(to: &F, header: &[u8]) -> bool {
    match to.write_at(header, 0) {
        Ok(n) => n == 94,
        Err(_) => false,
    }
}

// The tape as far as it is played: what was heard, and how much of it stands in the data that is not written yet.
// The engine is not in it, since it would be copied once more for each record.
#[derive(Clone, Copy)]
struct Rolled {
    heard: Heard,
    used: usize,
}

// Puts the header in its place, and says what was written. `terminal`: standard error is one.
fn finish<R: Print + Eprint, F: Write + FileExt>(
    rt: &R,
    terminal: bool,
    to: &mut F,
    data: &[u8],
    t: &Rolled,
    outputs: usize,
    ending: Ending,
) {
    let channels = outputs.min(8) as u8;
    let heard = t.heard;
    let ending = match write_out(to, data, t.used) {
        Ok(()) => ending,
        Err(unwritten) => unwritten,
    };
    if !put_header(to, &wav::header::header(channels, heard.rate, heard.frames)) {
        streams::say(
            rt,
            b"trail_wav: the output cannot be sought: its header says 0 frames\n",
        );
    }
    say::summary(rt, terminal, heard, ending, channels);
}

// What is heard of a record stands in the data, which is written where it is full.
fn add_record<R: Print + Eprint, F: Write + FileExt>(
    rt: &R,
    terminal: bool,
    to: &mut F,
    a: &Applied,
    samples: &[f32],
    data: &mut [u8],
    t: &mut Rolled,
) -> Result<(), Ending> {
    if a.refusal == 1 {
        return Err(Ending::Refusal(1));
    }
    let most = loudest(samples, a.channels, a.each, a.stride, t.heard.most);
    t.heard = hear(t.heard, a.each, a.sequencer.sample_rate, most)?;
    if is_full(data, t.used) {
        let used = t.used;
        t.used = 0;
        write_out(to, data, used)?;
        say::progress(rt, terminal, t.heard.frames);
    }
    t.used = add(samples, a.channels, a.each, a.stride, data, t.used);
    Ok(())
}

// Plays the tape `from` into the WAV `to`.
fn roll<R: Print + Eprint, I: io::Read, F: Write + FileExt>(
    rt: &R,
    terminal: bool,
    from: &mut I,
    to: &mut F,
    pool: &[f32],
) {
    let mut buf = [0u8; 65536];
    let mut data = [0u8; 65536];
    let mut samples = apply::silence();
    let mut s = apply::start();
    let mut t = Rolled {
        heard: say::nothing(),
        used: 0,
    };
    let mut c = Cursor { at: 0, first: true };
    let mut have: usize = 0;
    let mut whole = false;
    let mut failed = false;
    for _ in 0..u64::MAX {
        if whole || tape_input::enough(c.at, have) {
            match next_call(c, &buf[..have], failed) {
                Ok((call, next)) => {
                    let a = apply::apply(s, call, pool, &mut samples);
                    s = a.sequencer;
                    let added = add_record(rt, terminal, to, &a, &samples, &mut data, &mut t);
                    if let Err(ending) = added {
                        finish(rt, terminal, to, &data, &t, s.outputs, ending);
                        return;
                    }
                    c = next;
                }
                Err(ending) => {
                    finish(rt, terminal, to, &data, &t, s.outputs, ending);
                    return;
                }
            }
        } else {
            have = tape_input::shift(&mut buf, c.at, have);
            c.at = 0;
            match tape_input::read_on(from, &mut buf, have) {
                Ok(count) => {
                    whole = count == 0;
                    have += count;
                }
                Err(_) => {
                    whole = true;
                    failed = true;
                }
            }
        }
    }
}

// ---- arguments

// Opens the output, with a header of no frames, and plays the tape into it.
fn play<R: Files<File = File> + Print + Eprint + Alloc, I: io::Read>(
    rt: &R,
    terminal: bool,
    from: &mut I,
    out: &[u8],
    pool: &[f32],
) {
    match streams::create(rt, out) {
        Ok(mut to) => match to.write_all(&wav::header::header(1, 44100, 0)) {
            Ok(()) => roll(rt, terminal, from, &mut to, pool),
            Err(error) => streams::fail(rt, out, &error),
        },
        Err(error) => streams::fail(rt, out, &error),
    }
}

// With document 01's pool.
fn play_with_trail_pool<R: Files<File = File> + Print + Eprint + Alloc, I: io::Read>(
    rt: &R,
    terminal: bool,
    from: &mut I,
    out: &[u8],
) {
    let pool = tape::pool::trail_pool();
    play(rt, terminal, from, out, &pool);
}

// With the pool that a file has.
fn play_with_pool<R: Files<File = File> + Print + Eprint + Alloc, I: io::Read>(
    rt: &R,
    terminal: bool,
    from: &mut I,
    out: &[u8],
    path: &[u8],
) {
    let Ok(mut pool) = vec![in rt.alloc(); 0.0f32; pool_file::ROOM] else {
        streams::say(rt, b"trail_wav: no memory for the pool\n");
        return;
    };
    if let Some(n) = pool_file::load(rt, path, &mut pool[..]) {
        play(rt, terminal, from, out, &pool[..n]);
    }
}

// `path`: the file of a pool of one's own.
fn open<R: Files<File = File> + Print + Eprint + Alloc>(
    rt: &R,
    terminal: bool,
    tape: &[u8],
    out: &[u8],
    path: Option<&[u8]>,
) {
    if tape == out {
        streams::say(rt, b"trail_wav: the output is the tape itself\n");
        return;
    }
    if path == Some(out) {
        streams::say(rt, b"trail_wav: the output is the pool itself\n");
        return;
    }
    match streams::open(rt, tape) {
        Ok(mut from) => match path {
            Some(path) => play_with_pool(rt, terminal, &mut from, out, path),
            None => play_with_trail_pool(rt, terminal, &mut from, out),
        },
        Err(error) => streams::fail(rt, tape, &error),
    }
}

// TAPE OUT, and POOL or --pool POOL.
fn choose<R: Files<File = File> + Print + Eprint + Alloc>(
    rt: &R,
    terminal: bool,
    count: usize,
    tape: &[u8],
    out: &[u8],
    a: &[u8],
    b: &[u8],
) {
    match (count, pool_file::is_option(a)) {
        (3, _) => open(rt, terminal, tape, out, None),
        (4, false) => open(rt, terminal, tape, out, Some(a)),
        (5, true) => open(rt, terminal, tape, out, Some(b)),
        _ => say::usage(rt),
    }
}

fn main(rt: HostRuntime) {
    let mut tape = [0u8; 4096];
    let n = streams::argument(&rt, 1, &mut tape);
    let mut out = [0u8; 4096];
    let m = streams::argument(&rt, 2, &mut out);
    let mut a = [0u8; 4096];
    let k = streams::argument(&rt, 3, &mut a);
    let mut b = [0u8; 4096];
    let l = streams::argument(&rt, 4, &mut b);
    let terminal = rt.stderr().is_terminal();
    choose(
        &rt,
        terminal,
        streams::argument_count(&rt),
        &tape[..n],
        &out[..m],
        &a[..k],
        &b[..l],
    );
}
