// Document 02, Paper 13: `heap_worst_case N` writes to standard output the tape of N pushes, N from 1 to 256, that moves most events inside the waiting heap (crate rises). To standard error it writes
// two figures: what the rises of N pushes add up to at most, and what those of the tape's pushes do. Anything but such an N is refused: `23` is then all that is written, to standard error.
#![tactic(auto)]

use rises::Refusal;
use std::io;
use std::rt::Env;

// N, where the words are one that writes it.
fn argument<E: Env>(env: &E) -> Result<usize, Refusal> {
    if streams::argument_count(env) != 2 {
        return Err(Refusal::Size);
    }
    let mut word = [0u8; 8];
    let n = streams::argument(env, 1, &mut word);
    rises::count_of(&word[..n]).ok_or(Refusal::Size)
}

// N, and the length of its tape, which stands at the buffer's front.
fn lay<E: Env>(env: &E, buf: &mut [u8]) -> Result<(usize, usize), Refusal> {
    let n = argument(env)?;
    let length = rises::lay(n, buf)?;
    Ok((n, length))
}

fn write_total<E: Eprint>(rt: &E, total: Result<usize, Refusal>) -> io::Result<()> {
    match total {
        Ok(levels) => eprint!(rt; "{levels}"),
        Err(refusal) => {
            let number = refusal.number();
            eprint!(rt; "{number}")
        }
    }
}

fn write_figures<E: Eprint>(rt: &E, n: usize) -> io::Result<()> {
    write_total(rt, rises::greatest_total(n))?;
    eprint!(rt; " ")?;
    write_total(rt, rises::arranged_total(n))?;
    eprint!(rt; "\n")
}

fn main(rt: HostRuntime) -> io::Result<()> {
    let mut buf = [0u8; 65536];
    match lay(&rt, &mut buf) {
        Ok((n, length)) => {
            rt.write_all(&buf[..length.min(buf.len())])?;
            write_figures(&rt, n)
        }
        Err(refusal) => {
            let number = refusal.number();
            eprint!(rt; "{number}\n")
        }
    }
}
