// Records written and rewritten. Standard input has a count in four bytes, so many requests of 128 bytes, and then tapes, each behind its length in two bytes; all little-endian.
// A request is a record's arguments, the free place and the buffer's length (crate argument_records; see `write_one`): its line has the next free place or the refusal, and the whole buffer, which held EE.
// Each record of a tape is read and written again at its own place: the tape's line says where that ended, and has the digest of what was written.
// The file `stdout` was made by the Rust: see oracle/src/bin/writervectors.rs.
#![tactic(auto)]

ghost use Rattle.std.specs.Prelude.{◌≤◌};

use digests::mixed_bytes;
use std::io;
use std::io::{BufReader, BufWriter, Read, Write};
use tape::reader::Cursor;
use tape::{fields, reader};
use tape_writer::{Arguments, Refusal, calls};

fn print_bytes<W: Write>(out: &mut W, bytes: &[u8]) -> io::Result<()> {
    for b in bytes {
        write!(out, "{b:02x}")?;
    }
    Ok(())
}

fn print_answer<W: Write>(out: &mut W, answer: Result<usize, Refusal>) -> io::Result<()> {
    match answer {
        Ok(place) => write!(out, "{place}"),
        Err(refusal) => {
            let number = refusal.number();
            write!(out, "refused {number}")
        }
    }
}

fn within(n: u32) -> usize
    ensures { result ≤ 64 }
{
    (n as usize).min(64)
}

// Writes the record, and prints the answer and the buffer.
fn show<W: Write>(out: &mut W, a: Arguments, buf: &mut [u8], at: usize) -> io::Result<()> {
    print_answer(out, tape_writer::write(a, buf, at))?;
    out.write_all(b" ")?;
    print_bytes(out, buf)?;
    out.write_all(b"\n")
}

// One request; false at the end of the input.
fn write_one<R: Read, W: Write>(from: &mut R, out: &mut W) -> io::Result<bool> {
    let mut request = [0u8; 128];
    if streams::read_full(from, &mut request) < 128 {
        return Ok(false);
    }
    let a = argument_records::get(&request);
    let at = fields::word64(&request, 120) as usize;
    let n = within(fields::word32(&request, 100));
    let mut buf = [0xEEu8; 64];
    show(out, a, &mut buf[0..n], at)?;
    Ok(true)
}

// Reads each record of the tape and writes it again at its own place; the place where that ended.
fn rewrite(tape: &[u8], out: &mut [u8]) -> usize {
    let mut c = Cursor { at: 0, first: true };
    for _ in 0..tape.len() {
        let at = c.at;
        let r = c.read(tape);
        let reader::Read::Record { kind, call, next } = r else {
            return at;
        };
        if tape_writer::write(calls::arguments_of(kind, call), out, at).is_err() {
            return at;
        }
        c = next;
    }
    c.at
}

fn print_line<W: Write>(out: &mut W, place: usize, digest: u64) -> io::Result<()> {
    write!(out, "{place} {digest:016x}\n")
}

fn count<R: Read>(from: &mut R) -> u32 {
    let mut head = [0u8; 4];
    if streams::read_full(from, &mut head) < 4 {
        return 0;
    }
    fields::word32(&head, 0)
}

fn write_all<R: Read, W: Write>(from: &mut R, out: &mut W) -> io::Result<()> {
    for _ in 0..count(from) {
        if !write_one(from, out)? {
            return Ok(());
        }
    }
    Ok(())
}

fn rewrite_all<R: Read, W: Write>(from: &mut R, to: &mut W) -> io::Result<()> {
    let mut buf = [0u8; 65536];
    let mut out = [0u8; 65536];
    for _ in 0..1000 {
        let Some(n) = tape_input::next_tape(from, &mut buf) else {
            return Ok(());
        };
        let place = rewrite(&buf[..n], &mut out);
        if 65536 < place {
            return Ok(());
        }
        print_line(to, place, mixed_bytes(&out[..place]))?;
    }
    Ok(())
}

fn main(rt: HostRuntime) -> io::Result<()> {
    let mut from = BufReader::new(rt.alloc(), rt.stdin())?;
    let mut out = BufWriter::new(rt.alloc(), rt.stdout())?;
    write_all(&mut from, &mut out)?;
    rewrite_all(&mut from, &mut out)?;
    out.flush()
}
