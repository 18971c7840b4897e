// `tape_read < TAPE > ARGUMENTS`: standard input has a tape of any length, and standard output gets its records' arguments, 120 bytes each (crate argument_records). tape_text makes a text of them.
// A record that would not be written with its own bytes (a held source's unused word that is not 0, another NaN), and what is no record, is given as it is: a kind of 256 + n, and then n bytes, up to 112. What goes wrong is said on standard error.
#![tactic(auto)]

ghost use Rattle.std.specs.Prelude.{◌≤◌, length};

use std::io::{IsTerminal, Read};
use std::{fmt, io};
use tape::reader;
use tape::reader::Cursor;
use tape_input::Unread;
use tape_writer::{Arguments, calls};

// What ends the work before the tape does.
#[derive(Clone, Copy)]
enum Stop {
    Unread,
    Unwritten,
}

impl fmt::Display for Stop {
    fn fmt<W: fmt::Write>(&self, f: &mut fmt::Formatter<W>) -> fmt::Result {
        match self {
            Stop::Unread => f.write_str("standard input cannot be read"),
            Stop::Unwritten => f.write_str("standard output cannot be written"),
        }
    }
}

impl From<Unread> for Stop {
    fn from(_: Unread) -> Stop {
        Stop::Unread
    }
}

impl From<io::Error> for Stop {
    fn from(_: io::Error) -> Stop {
        Stop::Unwritten
    }
}

// Whether the arguments are written with the bytes that stand here.
fn is_own(a: Arguments, bytes: &[u8]) -> bool {
    let mut again = [0u8; 64];
    let Ok(n) = tape_writer::write(a, &mut again, 0) else {
        return false;
    };
    match again.get(..n) {
        Some(own) => bytes.starts_with(own),
        None => false,
    }
}

// Up to 112 bytes as they are.
fn put_piece<R: Print>(rt: &R, piece: &[u8]) -> io::Result<()>
    requires { length piece.now ≤ 112 }
{
    let n = piece.len();
    let mut record = [0u8; 120];
    record[8..8 + n].copy_from_slice(piece);
    record[0] = n as u8;
    record[1] = 1;
    rt.write_all(&record)
}

// All the bytes as they are.
fn put_bytes<R: Print>(rt: &R, bytes: &[u8]) -> io::Result<()> {
    for piece in bytes.chunks(112) {
        put_piece(rt, piece)?;
    }
    Ok(())
}

// A record's arguments, or its bytes.
fn put<R: Print>(rt: &R, a: Arguments, bytes: &[u8]) -> io::Result<()> {
    if is_own(a, bytes) {
        return rt.write_all(&argument_records::put(a));
    }
    put_bytes(rt, bytes)
}

// The rest of the tape, from `at` on, as it is.
fn put_rest<R: Print, I: Read>(
    rt: &R,
    from: &mut I,
    buf: &mut [u8],
    at: usize,
    have: usize,
) -> Result<(), Stop> {
    let mut n = tape_input::shift(buf, at, have);
    for _ in 0..u64::MAX {
        put_bytes(rt, &buf[..n])?;
        n = tape_input::read_on(from, buf, 0)?;
        if n == 0 {
            break;
        }
    }
    Ok(())
}

// Reads the tape that standard input has.
fn read_tape<R: Input + Print>(rt: &R) -> Result<(), Stop> {
    let mut from = rt.reader();
    let mut buf = [0u8; 65536];
    let mut first = true;
    let mut at: usize = 0;
    let mut have: usize = 0;
    let mut whole = false;
    for _ in 0..u64::MAX {
        if whole || tape_input::enough(at, have) {
            let c = Cursor { at, first };
            let r = c.read(&buf[..have]);
            let reader::Read::Record { kind, call, next } = r else {
                return put_rest(rt, &mut from, &mut buf, at, have);
            };
            let Some(bytes) = buf.get(at..next.at) else {
                return Err(Stop::Unwritten);
            };
            put(rt, calls::arguments_of(kind, call), bytes)?;
            first = next.first;
            at = next.at;
        } else {
            have = tape_input::shift(&mut buf, at, have);
            at = 0;
            let count = tape_input::read_on(&mut from, &mut buf, have)?;
            whole = count == 0;
            have += count;
        }
    }
    Ok(())
}

// There are no arguments, and on a terminal nothing could be read: there the usage is all.
fn main(rt: HostRuntime) {
    if rt.stdin().is_terminal() || 1 < streams::argument_count(&rt) {
        streams::say(
            &rt,
            b"usage: tape_read <TAPE >ARGUMENTS\nTakes the tape on standard input apart: for each record its arguments, 120 bytes.\ndocs/HANDBOOK.md says what a tape is; tape_text makes one from text.\n",
        );
        return;
    }
    if let Err(stop) = read_tape(&rt) {
        let _ = eprint!(rt; "tape_read: {stop}\n");
    }
}
