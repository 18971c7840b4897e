// Reads a tape of any length from standard input and lists it, in pieces of 64 KB each way. `trail --pool FILE` has the file's samples as the pool that clips read.
// A failed read counts as the tape's end; a failed write ends the listing. Both are said on standard error.
#![tactic(auto)]

ghost use Rattle.std.specs.Prelude.{◌≡◌, ◌≤◌, length};

mod say;

use record_output::{Form, Pause};
use std::io;
use std::io::{IsTerminal, Read};
use std::rt::{Env, Files};
use tape::reader::Cursor;

// Writes the first `used` bytes of the text; says so where they were not written.
fn write_out<R: Print + Eprint>(rt: &R, text: &[u8], used: usize) -> io::Result<()> {
    let written = rt.write_all(&text[..used.min(text.len())]);
    if written.is_err() {
        streams::say(rt, b"trail: standard output cannot be written\n");
    }
    written
}

// How many bytes of the tape are at hand, and whether they are all that is left of it.
#[derive(Clone, Copy)]
struct Hand {
    have: usize,
    whole: bool,
}

// Drops the first `at` of the bytes at hand, and reads more behind the others.
fn read_more<E: Eprint, R: Read>(
    rt: &E,
    from: &mut R,
    buf: &mut [u8],
    at: usize,
    have: usize,
) -> Hand
    ensures buf_len_unchanged { length buf.new ≡ length buf.old }
    ensures have_in_bounds { result.have ≤ length buf.old }
{
    let kept = tape_input::shift(buf, at, have);
    match tape_input::read_on(from, buf, kept) {
        Ok(count) => Hand {
            have: kept + count,
            whole: count == 0,
        },
        Err(_) => {
            streams::say(rt, b"trail: standard input cannot be read\n");
            Hand {
                have: kept,
                whole: true,
            }
        }
    }
}

// Lists the tape that standard input has. The engine stays in four arrays, in which each call of `run` goes on.
fn list<R: Input + Print + Eprint>(rt: &R, pool: &[f32]) -> io::Result<()> {
    let mut from = rt.reader();
    let mut buf = [0u8; 65536];
    let mut text = [0u8; 65536];
    let mut times = player::blank_times();
    let mut levels = player::blank_levels();
    let mut marks = player::blank_marks();
    let mut numbers = player::blank_numbers();
    player::start(&mut times, &mut levels, &mut marks, &mut numbers);
    let mut cursor = Cursor { at: 0, first: true };
    let mut have: usize = 0;
    let mut whole = false;
    for _ in 0..u64::MAX {
        let p = player::run(
            &mut times,
            &mut levels,
            &mut marks,
            &mut numbers,
            cursor,
            &buf[..have],
            whole,
            pool,
            Form::Lines,
            &mut text,
        );
        cursor = p.cursor;
        let pause = p.pause;
        match pause {
            Pause::Full => write_out(rt, &text, p.used)?,
            Pause::Short => {
                write_out(rt, &text, p.used)?;
                let hand = read_more(rt, &mut from, &mut buf, cursor.at, have);
                let first = cursor.first;
                cursor = Cursor { at: 0, first };
                have = hand.have;
                whole = hand.whole;
            }
            Pause::Refused(number) => {
                let _ = write_out(rt, &text, p.used);
                say::refusal(rt, number as u64);
                return Ok(());
            }
            Pause::End => return write_out(rt, &text, p.used),
        }
    }
    Ok(())
}

// With the pool that a file has.
fn list_with_pool<R: Input + Files + Print + Eprint + Alloc>(rt: &R, path: &[u8]) {
    let mut pool = pool_file::room();
    if let Some(n) = pool_file::load(rt, path, &mut pool) {
        let _ = list(rt, &pool[..n]);
    }
}

// `--pool FILE`; anything else is answered by the usage.
fn list_with_arguments<R: Input + Files + Env + Print + Eprint + Alloc>(rt: &R) {
    if streams::argument_count(rt) != 3 {
        say::usage(rt);
        return;
    }
    let mut word = [0u8; 4096];
    let n = streams::argument(rt, 1, &mut word);
    if !pool_file::is_option(&word[..n]) {
        say::usage(rt);
        return;
    }
    let mut path = [0u8; 4096];
    match rt.arg(2, &mut path) {
        Ok(m) => list_with_pool(rt, &path[..m]),
        Err(why) => streams::fail(rt, b"trail: FILE", &streams::no_argument(why)),
    }
}

// Document 01's listing takes no argument; on a terminal nothing could be read.
fn main(rt: HostRuntime) {
    if rt.stdin().is_terminal() {
        say::usage(&rt);
        return;
    }
    if 1 < streams::argument_count(&rt) {
        list_with_arguments(&rt);
        return;
    }
    let pool = tape::pool::trail_pool();
    let _ = list(&rt, &pool);
}
