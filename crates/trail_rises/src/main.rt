// Document 02, Paper 13: `trail_rises < TAPE` plays the first 65,536 bytes of a tape on the engine. For each push it prints how many levels the event rose
// in the waiting heap, and for each tick and block the numbers that sound after it, in the list's order. A failed read counts as the tape's end.
#![tactic(auto)]

use live::Pushed;
use memory::{ACTIVE, Levels, Marks, Numbers, ROOM, SOUNDING, Times, event_at};
use std::io;
use std::io::{BufWriter, Write};
use tape::reader::{Call, Cursor, PushRecord, Read};

// The push of a record of kind 1, with its rise. Of each kind of push the engine has a function, and one over these would take its fifteen arguments too: no plainer.
fn push(
    times: &mut Times,
    levels: &mut Levels,
    marks: &mut Marks,
    numbers: &mut Numbers,
    p: PushRecord,
) -> Pushed {
    live::push(
        times,
        levels,
        marks,
        numbers,
        p.start_time,
        p.end_time,
        p.fade_ease,
        p.fade_in,
        p.fade_out,
        p.source,
        p.gain,
    )
}

// Of a record of kind 2.
fn push_relative(
    times: &mut Times,
    levels: &mut Levels,
    marks: &mut Marks,
    numbers: &mut Numbers,
    p: PushRecord,
) -> Pushed {
    live::push_relative(
        times,
        levels,
        marks,
        numbers,
        p.start_time,
        p.end_time,
        p.fade_ease,
        p.fade_in,
        p.fade_out,
        p.source,
        p.gain,
    )
}

// Of a record of kind 3.
fn push_duration(
    times: &mut Times,
    levels: &mut Levels,
    marks: &mut Marks,
    numbers: &mut Numbers,
    p: PushRecord,
) -> Pushed {
    live::push_duration(
        times,
        levels,
        marks,
        numbers,
        p.start_time,
        p.end_time,
        p.fade_ease,
        p.fade_in,
        p.fade_out,
        p.source,
        p.gain,
    )
}

fn list_rise<W: Write>(out: &mut W, pushed: Pushed) -> io::Result<()> {
    let rise = pushed.rise;
    write!(out, "rise {rise}\n")
}

fn list_sounding<W: Write>(
    out: &mut W,
    times: &Times,
    levels: &Levels,
    marks: &Marks,
    numbers: &Numbers,
) -> io::Result<()> {
    out.write_all(b"sounds")?;
    for i in 0..(numbers[SOUNDING] as usize).min(ROOM) {
        let id = event_at(times, levels, marks, numbers, ACTIVE + i).id.0;
        write!(out, " {id}")?;
    }
    out.write_all(b"\n")
}

// Any record but a push. Only a refused creation stops the tape.
fn play_other<W: Write>(
    out: &mut W,
    times: &mut Times,
    levels: &mut Levels,
    marks: &mut Marks,
    numbers: &mut Numbers,
    kind: u8,
    call: Call,
    pool: &[f32],
    samples: &mut [f32],
) -> io::Result<bool> {
    let left = live_apply::carry_out(times, levels, marks, numbers, kind, call, pool, samples);
    if let Call::Tick | Call::Process(_) = call {
        list_sounding(out, times, levels, marks, numbers)?;
        return Ok(true);
    }
    Ok(left.refusal != 1)
}

// Carries a record out and prints its line; whether the tape goes on.
fn play<W: Write>(
    out: &mut W,
    times: &mut Times,
    levels: &mut Levels,
    marks: &mut Marks,
    numbers: &mut Numbers,
    kind: u8,
    call: Call,
    pool: &[f32],
    samples: &mut [f32],
) -> io::Result<bool> {
    match call {
        Call::Push(p) => list_rise(out, push(times, levels, marks, numbers, p))?,
        Call::PushRelative(p) => list_rise(out, push_relative(times, levels, marks, numbers, p))?,
        Call::PushDuration(p) => list_rise(out, push_duration(times, levels, marks, numbers, p))?,
        _ => return play_other(
            out, times, levels, marks, numbers, kind, call, pool, samples,
        ),
    }
    Ok(true)
}

fn run<W: Write>(out: &mut W, bytes: &[u8], pool: &[f32]) -> io::Result<()> {
    let mut samples = apply::silence();
    let mut times = player::blank_times();
    let mut levels = player::blank_levels();
    let mut marks = player::blank_marks();
    let mut numbers = player::blank_numbers();
    let mut c = Cursor { at: 0, first: true };
    for _ in 0..bytes.len() {
        let r = c.read(bytes);
        let Read::Record { kind, call, next } = r else {
            return Ok(());
        };
        if !play(
            out,
            &mut times,
            &mut levels,
            &mut marks,
            &mut numbers,
            kind,
            call,
            pool,
            &mut samples,
        )? {
            return Ok(());
        }
        c = next;
    }
    Ok(())
}

fn main(rt: HostRuntime) -> io::Result<()> {
    let mut buf = [0u8; 65536];
    let n = streams::read_full(&mut rt.stdin(), &mut buf);
    let mut out = BufWriter::new(rt.alloc(), rt.stdout())?;
    let pool = tape::pool::trail_pool();
    run(&mut out, &buf[..n], &pool)?;
    out.flush()
}
