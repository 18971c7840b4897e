// Runs float vectors from standard input: a line each, of a letter and three patterns of 16 hexadecimal digits, and writes the result's pattern in 16 digits.
// n: narrow. i: sample_index, and w: how it came (0 Free, 1 Raised, 2 Cut). t: total_cmp (0 Less, 1 Equal, 2 Greater). s: smooth5. p: sine_ease. d: delerp.
#![tactic(auto)]

ghost use Rattle.std.specs.Prelude.{◌<◌, ◌≤◌};

use std::io;
use std::io::{BufReader, BufWriter, Read, Write};

// The value of a hexadecimal digit, 0 of any other byte. Not by `to_digit`, which takes lower-case letters too.
fn digit(b: u8) -> u64
    ensures { result < 16 }
{
    match b {
        b'0'..=b'9' => u64::from(b - b'0'),
        b'A'..=b'F' => u64::from(b - b'A') + 10,
        _ => 0,
    }
}

// The 16 digits from `at` on.
fn word(line: &[u8; 53], at: usize) -> u64
    requires { at ≤ 37 }
{
    line[at..at + 16]
        .iter()
        .fold(0, |value, b| (value << 4) | digit(*b))
}

fn single(w: u64) -> f32 {
    float_bits::f32_from_bits((w % 0x1_0000_0000) as u32)
}

// A vector's result.
fn result(kind: u8, a: u64, b: u64, c: u64) -> u64 {
    let x = float_bits::f64_from_bits(a);
    if kind == b'n' {
        return u64::from(float_bits::f32_to_bits(floats::narrow(x)));
    }
    if kind == b'i' {
        return floats::sample_index(x).index;
    }
    if kind == b'w' {
        return floats::sample_index(x).how as u64;
    }
    if kind == b't' {
        return (floats::total_cmp(x, float_bits::f64_from_bits(b)) as i64 + 1) as u64;
    }
    if kind == b's' {
        return u64::from(float_bits::f32_to_bits(math::smooth5(single(a))));
    }
    if kind == b'p' {
        return u64::from(float_bits::f32_to_bits(math::sine_ease(single(a))));
    }
    float_bits::f64_to_bits(math::delerp(
        x,
        float_bits::f64_from_bits(b),
        float_bits::f64_from_bits(c),
    ))
}

// The pattern's 16 digits, upper-case, and a line feed. (With `write!` the program takes a quarter more time.)
fn text(pattern: u64) -> [u8; 17] {
    let mut out = [b'\n'; 17];
    let mut rest = pattern;
    for i in (0..16).rev() {
        out[i] = b"0123456789ABCDEF"[(rest % 16) as usize];
        rest /= 16;
    }
    out
}

// Answers a line with the result's pattern; false at the end of the input.
fn step<R: Read, W: Write>(from: &mut R, out: &mut W) -> io::Result<bool> {
    let mut line = [0u8; 53];
    if streams::read_full(from, &mut line) < 53 {
        return Ok(false);
    }
    let pattern = result(line[0], word(&line, 2), word(&line, 19), word(&line, 36));
    out.write_all(&text(pattern))?;
    Ok(true)
}

fn main(rt: HostRuntime) -> io::Result<()> {
    let mut from = BufReader::new(rt.alloc(), rt.stdin())?;
    let mut out = BufWriter::new(rt.alloc(), rt.stdout())?;
    for _ in 0..u64::MAX {
        if !step(&mut from, &mut out)? {
            break;
        }
    }
    out.flush()
}
