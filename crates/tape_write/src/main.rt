// `tape_write < ARGUMENTS > TAPE`: standard input has records' arguments, 120 bytes each (crate argument_records), and standard output gets the records (crate tape_writer).
// A kind of 256 + n stands for n bytes as they are, up to 112, which follow in its place. tape_text makes the arguments from a text. What goes wrong is said on standard error.
#![tactic(auto)]

ghost use Rattle.std.specs.Prelude.{◌≤◌};

use std::io;
use std::io::{BufReader, IsTerminal, Read};
use tape_writer::Refusal;

fn say_refusal<E: Eprint>(rt: &E, number: u64, record: u64) {
    let _ = eprint!(rt; "tape_write: record {record}: refusal {number}\n");
}

// Puts down what 120 bytes of arguments ask for, and answers the next free place.
fn put_record(asked: &[u8; 120], out: &mut [u8; 65536], at: usize) -> Result<usize, Refusal>
    requires { at ≤ 65400 }
{
    let a = argument_records::get(asked);
    if 368 < a.kind {
        return Err(Refusal::Undefined);
    }
    if 256 <= a.kind {
        let n = (a.kind - 256) as usize;
        out[at..at + n].copy_from_slice(&asked[8..8 + n]);
        return Ok(at + n);
    }
    tape_writer::write(a, out, at)
}

// Writes the first `used` bytes; says so where they were not written.
fn write_out<R: Print + Eprint>(rt: &R, out: &[u8], used: usize) -> io::Result<()> {
    let written = rt.write_all(&out[..used.min(out.len())]);
    if written.is_err() {
        streams::say(rt, b"tape_write: standard output cannot be written\n");
    }
    written
}

// Writes the tape whose arguments standard input has.
fn write_tape<R: Print + Eprint, I: Read>(rt: &R, from: &mut I) -> io::Result<()> {
    let mut out = [0u8; 65536];
    let mut asked = [0u8; 120];
    let mut used: usize = 0;
    for before in 0..u64::MAX {
        let record = before + 1;
        let n = streams::read_full(from, &mut asked);
        if n < 120 {
            if n != 0 {
                streams::say(rt, b"tape_write: the last arguments are cut\n");
            }
            return write_out(rt, &out, used);
        }
        if 65400 < used {
            write_out(rt, &out, used)?;
            used = 0;
        }
        match put_record(&asked, &mut out, used) {
            Ok(place) => used = place,
            Err(refusal) => {
                let _ = write_out(rt, &out, used);
                say_refusal(rt, refusal.number(), record);
                return Ok(());
            }
        }
    }
    Ok(())
}

// There are no arguments, and on a terminal nothing could be read: there the usage is all.
fn main(rt: HostRuntime) -> io::Result<()> {
    if rt.stdin().is_terminal() || 1 < streams::argument_count(&rt) {
        streams::say(
            &rt,
            b"usage: tape_write <ARGUMENTS >TAPE\nPuts a tape together from the arguments on standard input, 120 bytes a record.\ndocs/HANDBOOK.md says what a tape is; tape_text makes one from text.\n",
        );
        return Ok(());
    }
    let mut from = BufReader::new(rt.alloc(), rt.stdin())?;
    let _ = write_tape(&rt, &mut from);
    Ok(())
}
