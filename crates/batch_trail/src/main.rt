// Plays the first 65,536 bytes of a script from standard input: a tape on which 00 makes a new engine wherever it stands, and kind 20 is a run of push records (crate batch): their count, the length of the lent slice, at most 64, and two bytes with
// the length of the run, which follows. Such a run lists how many were pushed and what ended it, the numbers behind it, 1,000,000 + i where place i was left, and the engine (crate state_listing). A failed read counts as the script's end.
#![tactic(auto)]

ghost use Rattle.std.specs.Prelude.{◌≤◌, length};

use event::ReplayMode;
use memory::{Levels, Marks, Numbers, Times};
use sequencer::Answer;
use std::io;
use std::io::{BufWriter, Write};
use tape::fields;
use tape::reader::{Cursor, Read};

fn mark(numbers: &mut [u64]) {
    for (i, n) in numbers.iter_mut().enumerate() {
        *n = 1000000 + (i % 65536) as u64;
    }
}

fn list_numbers<W: Write>(out: &mut W, numbers: &[u64]) -> io::Result<()> {
    for n in numbers {
        write!(out, " {n}")?;
    }
    out.write_all(b"\n")
}

// The engine behind a run.
fn list_engine<W: Write>(
    out: &mut W,
    times: &Times,
    levels: &Levels,
    marks: &Marks,
    numbers: &Numbers,
) -> io::Result<()> {
    let mut text = [0u8; 1024];
    let s = plain_engine::engine(times, levels, marks, numbers);
    let n = state_listing::engine_line(32, Answer::Done, s, &mut text);
    if n <= 1024 {
        out.write_all(&text[..n])?;
    }
    Ok(())
}

fn push_records<W: Write>(
    out: &mut W,
    times: &mut Times,
    levels: &mut Levels,
    marks: &mut Marks,
    numbers: &mut Numbers,
    records: &[u8],
    count: usize,
    len: usize,
    given: &mut [u64],
) -> io::Result<()> {
    mark(given);
    let n = len.min(given.len());
    let b = batch::push_records(
        times,
        levels,
        marks,
        numbers,
        records,
        count,
        &mut given[0..n],
    );
    write!(out, "{} {}", b.pushed, b.ended)?;
    list_numbers(out, given)?;
    list_engine(out, times, levels, marks, numbers)
}

// The four arrays are what crate live takes; 65,537 is a place past every tape, at which the loop ends as at any other.
// The run of push records at a place up to 65,536: the place behind it, or 65,537 if its head is cut.
fn play_run<W: Write>(
    out: &mut W,
    times: &mut Times,
    levels: &mut Levels,
    marks: &mut Marks,
    numbers: &mut Numbers,
    bytes: &[u8],
    at: usize,
    given: &mut [u64],
) -> io::Result<usize>
    requires { at ≤ 65536 }
{
    let from = at + 5;
    if bytes.len() < from {
        return Ok(65537);
    }
    let count = fields::byte(bytes, at + 1) as usize;
    let len = fields::byte(bytes, at + 2) as usize;
    let size = fields::word32(bytes, at + 3) as usize % 65536;
    let n = size.min(bytes.len() - from);
    let records = &bytes[from..from + n];
    push_records(
        out, times, levels, marks, numbers, records, count, len, given,
    )?;
    Ok(from + n)
}

// Any other record at a place: the place behind it, or 65,537 if there is none.
fn play_record(
    times: &mut Times,
    levels: &mut Levels,
    marks: &mut Marks,
    numbers: &mut Numbers,
    bytes: &[u8],
    at: usize,
    pool: &[f32],
    samples: &mut [f32],
) -> usize {
    let c = Cursor {
        at,
        first: fields::byte(bytes, at) == 0,
    };
    let r = c.read(bytes);
    let Read::Record { kind, call, next } = r else {
        return 65537;
    };
    live_apply::carry_out(times, levels, marks, numbers, kind, call, pool, samples);
    next.at
}

fn run<W: Write>(out: &mut W, bytes: &[u8], pool: &[f32]) -> io::Result<()> {
    let mut times: Times = [0.0; 3588];
    let mut levels: Levels = [0.0; 3072];
    let mut marks: Marks = [0; 3072];
    let mut numbers: Numbers = [0; 1288];
    live::create(
        &mut times,
        &mut levels,
        &mut marks,
        &mut numbers,
        1,
        ReplayMode::All,
        1,
    );
    let mut samples = apply::silence();
    let mut given = [0u64; 64];
    let mut at: usize = 0;
    for _ in 0..bytes.len() {
        if 65536 < at {
            return Ok(());
        }
        if fields::byte(bytes, at) == 32 {
            at = play_run(
                out,
                &mut times,
                &mut levels,
                &mut marks,
                &mut numbers,
                bytes,
                at,
                &mut given,
            )?;
        } else {
            at = play_record(
                &mut times,
                &mut levels,
                &mut marks,
                &mut numbers,
                bytes,
                at,
                pool,
                &mut samples,
            );
        }
    }
    Ok(())
}

fn main(rt: HostRuntime) -> io::Result<()> {
    let mut buf = [0u8; 65536];
    let n = streams::read_full(&mut rt.stdin(), &mut buf);
    let mut out = BufWriter::new(rt.alloc(), rt.stdout())?;
    let pool = tape::pool::trail_pool();
    run(&mut out, &buf[..n], &pool)?;
    out.flush()
}
