// Previews of standard input, 262 bytes each: first entry (4), 0 falling or 1 rising, count of samples up to 64, and 64 samples (4 each), little-endian. Each prints the answer and the bits of its samples.
// The file `stdout` was made by the Rust: see oracle/src/bin/previewvectors.rs.
#![tactic(auto)]

ghost use Rattle.std.specs.Prelude.{◌≤◌};

use std::io;
use std::io::{BufReader, BufWriter, Read, Write};

// The little-endian number of four bytes from place `at` on.
fn word(bytes: &[u8; 262], at: usize) -> u32
    requires { at ≤ 258 }
{
    u32::from_le_bytes([bytes[at], bytes[at + 1], bytes[at + 2], bytes[at + 3]])
}

fn samples(bytes: &[u8; 262]) -> [f32; 64] {
    let mut run = [0.0f32; 64];
    for i in 0..64 {
        run[i] = float_bits::f32_from_bits(word(bytes, 6 + 4 * i));
    }
    run
}

// The run, previewed and printed.
fn show<W: Write>(
    out: &mut W,
    run: &mut [f32],
    gains: &[f32; 1025],
    first: usize,
    rising: bool,
) -> io::Result<bool> {
    let refusal = match preview::preview(run, gains, first, rising) {
        Ok(()) => 0,
        Err(refused) => refused.number(),
    };
    write!(out, "{refusal} ")?;
    let mut text = [0u8; 576];
    let n = listing::samples_line(run, &mut text);
    if 576 < n {
        return Ok(false);
    }
    out.write_all(&text[..n])?;
    Ok(true)
}

// Answers a preview; false at the end of the input.
fn step<R: Read, W: Write>(from: &mut R, out: &mut W, gains: &[f32; 1025]) -> io::Result<bool> {
    let mut bytes = [0u8; 262];
    if streams::read_full(from, &mut bytes) < 262 {
        return Ok(false);
    }
    let mut run = samples(&bytes);
    let n = usize::from(bytes[5]).min(64);
    let first = word(&bytes, 0) as usize;
    show(out, &mut run[..n], gains, first, bytes[4] == 1)
}

fn main(rt: HostRuntime) -> io::Result<()> {
    let gains = preview::table();
    let mut from = BufReader::new(rt.alloc(), rt.stdin())?;
    let mut out = BufWriter::new(rt.alloc(), rt.stdout())?;
    // A `while` would have to be shown to end, which the length of the input does not say.
    for _ in 0..u64::MAX {
        if !step(&mut from, &mut out, &gains)? {
            break;
        }
    }
    out.flush()
}
