// `trail_clips FROM TO [LENGTH] < TAPE` plays the first 65,536 bytes of a tape and lists the clips that are then held in the stretch from FROM to TO, and
// the first waiting event from FROM on (crate overlap).
// FROM and TO are milliseconds: up to 15 decimal digits or `inf`, with a minus sign or none. Anything else counts as a NaN, which is 17. A failed read counts as the tape's end.
// LENGTH, up to 512, is how many numbers the lent slice has, in place of 256. Where it is given, the last line counts the slice's places that the call left.
#![tactic(auto)]

ghost use Rattle.std.specs.Prelude.{◌≤◌, length};

use event::EventId;
use memory::{Levels, Marks, Numbers, Times};
use std::io;
use std::io::{BufWriter, Write};
use std::rt::Env;
use tape::reader::{Cursor, Read};

// ---- arguments

// Milliseconds as seconds; a NaN where there is no digit, anything but digits, or more than 15 of them. Not by `parse`, which takes a sign.
fn seconds(text: &[u8]) -> f64 {
    if text == b"inf".as_slice() {
        return f64::INFINITY;
    }
    if text.is_empty() || 15 < text.len() {
        return f64::NAN;
    }
    let mut value = 0.0;
    for b in text {
        if !b.is_ascii_digit() {
            return f64::NAN;
        }
        value = value * 10.0 + f64::from(*b - b'0');
    }
    value / 1000.0
}

fn signed_seconds(text: &[u8]) -> f64 {
    match text.strip_prefix(b"-") {
        Some(rest) => -1.0 * seconds(rest),
        None => seconds(text),
    }
}

// Argument i. A missing one, or one that is too long, is empty.
fn argument<E: Env>(env: &E, i: usize) -> f64 {
    let mut text = [0u8; 32];
    let n = streams::argument(env, i, &mut text);
    signed_seconds(&text[..n])
}

fn is_length_given<E: Env>(env: &E) -> bool {
    streams::argument_count(env) == 4
}

// The slice's length.
fn slice_length<E: Env>(env: &E) -> usize {
    if is_length_given(env) {
        let nearest = floats::sample_index(argument(env, 3) * 1000.0);
        return (nearest.index as usize).min(512);
    }
    256
}

// ---- the tape

// Plays the tape on the engine that the arrays hold, as far as no record stops it.
fn play(
    times: &mut Times,
    levels: &mut Levels,
    marks: &mut Marks,
    numbers: &mut Numbers,
    bytes: &[u8],
    pool: &[f32],
) {
    let mut samples = apply::silence();
    let mut c = Cursor { at: 0, first: true };
    for _ in 0..bytes.len() {
        let r = c.read(bytes);
        let Read::Record { kind, call, next } = r else {
            return;
        };
        let left = live_apply::carry_out(
            times,
            levels,
            marks,
            numbers,
            kind,
            call,
            pool,
            &mut samples,
        );
        if left.refusal == 1 {
            return;
        }
        c = next;
    }
}

// ---- what is printed

fn list_numbers<W: Write>(out: &mut W, numbers: &[u64], n: usize) -> io::Result<()> {
    for number in numbers.iter().take(n) {
        write!(out, "{number}\n")?;
    }
    Ok(())
}

fn list_clips<W: Write>(
    to_print: &mut W,
    times: &Times,
    levels: &Levels,
    marks: &Marks,
    numbers: &Numbers,
    from: f64,
    to: f64,
    out: &mut [u64],
) -> io::Result<()> {
    match overlap::clips(times, levels, marks, numbers, from, to, out) {
        Ok(n) => {
            write!(to_print, "clips {n}\n")?;
            list_numbers(to_print, out, n)
        }
        Err(refusal) => {
            let n = refusal.number();
            write!(to_print, "clips refused {n}\n")
        }
    }
}

// What place i of the slice holds before the call; no event has such a number.
fn mark(i: usize) -> u64 {
    u64::MAX - i as u64
}

fn mark_all(row: &mut [u64]) {
    for (i, place) in row.iter_mut().enumerate() {
        *place = mark(i);
    }
}

// How many of the first n places are as `mark_all` left them.
fn count_left(row: &[u64], n: usize) -> usize {
    row.iter()
        .take(n)
        .enumerate()
        .filter(|(i, number)| **number == mark(*i))
        .count()
}

// Lists the clips by a slice of `length` numbers, the front of the row.
fn list_by_slice<W: Write>(
    out: &mut W,
    times: &Times,
    levels: &Levels,
    marks: &Marks,
    numbers: &Numbers,
    from: f64,
    to: f64,
    row: &mut [u64],
    length: usize,
) -> io::Result<()> {
    mark_all(row);
    if length <= row.len() {
        list_clips(
            out,
            times,
            levels,
            marks,
            numbers,
            from,
            to,
            &mut row[..length],
        )?;
    }
    Ok(())
}

fn list_left<W: Write>(out: &mut W, given: bool, row: &[u64], length: usize) -> io::Result<()> {
    if given {
        let left = count_left(row, length);
        write!(out, "left {left}\n")?;
    }
    Ok(())
}

fn list_first<W: Write>(
    out: &mut W,
    times: &Times,
    levels: &Levels,
    marks: &Marks,
    numbers: &Numbers,
    time: f64,
) -> io::Result<()> {
    match overlap::first_from(times, levels, marks, numbers, time) {
        Ok(Some(EventId(n))) => write!(out, "first {n}\n"),
        Ok(None) => out.write_all(b"first none\n"),
        Err(refusal) => {
            let n = refusal.number();
            write!(out, "first refused {n}\n")
        }
    }
}

// Plays the tape and lists what is then held.
fn list<E: Env, W: Write>(
    env: &E,
    out: &mut W,
    bytes: &[u8],
    from: f64,
    to: f64,
) -> io::Result<()> {
    let pool = tape::pool::trail_pool();
    let mut times = player::blank_times();
    let mut levels = player::blank_levels();
    let mut marks = player::blank_marks();
    let mut numbers = player::blank_numbers();
    play(
        &mut times,
        &mut levels,
        &mut marks,
        &mut numbers,
        bytes,
        &pool,
    );
    let length = slice_length(env);
    let mut row = [0u64; 512];
    list_by_slice(
        out, &times, &levels, &marks, &numbers, from, to, &mut row, length,
    )?;
    list_first(out, &times, &levels, &marks, &numbers, from)?;
    list_left(out, is_length_given(env), &row, length)
}

fn main(rt: HostRuntime) -> io::Result<()> {
    let from = argument(&rt, 1);
    let to = argument(&rt, 2);
    let mut buf = [0u8; 65536];
    let n = streams::read_full(&mut rt.stdin(), &mut buf);
    let mut out = BufWriter::new(rt.alloc(), rt.stdout())?;
    list(&rt, &mut out, &buf[..n], from, to)?;
    out.flush()
}
