// The tapes of standard input, each behind its length in two little-endian bytes: those of oracle/traps, then a long random one. For each a line says how many records were read or refused, the digest of their answers, counts and samples, how many bytes `render` writes into 65,536, and these bytes' digest. The file `stdout` was made by the Rust: see oracle/src/bin/tapevectors.rs.
#![tactic(auto)]

use digests::{mixed, mixed_bytes};
use sequencer::Counts;
use std::io;
use std::io::{BufReader, BufWriter, Read, Write};
use tape::reader;
use tape::reader::Cursor;

fn mixed_samples(digest: u64, samples: &[f32]) -> u64 {
    samples.iter().fold(digest, |d, sample| {
        mixed(d, u64::from(float_bits::f32_to_bits(*sample)))
    })
}

// A record's line of the listing.
fn mixed_counts(digest: u64, kind: u8, refusal: u64, counts: Counts) -> u64 {
    let d = mixed(mixed(digest, u64::from(kind)), refusal);
    let d = mixed(mixed(d, counts.waiting as u64), counts.sounding as u64);
    mixed(mixed(d, counts.finished as u64), counts.let_go)
}

// Its channels' lines.
fn mixed_channels(
    digest: u64,
    samples: &[f32],
    channels: usize,
    each: usize,
    stride: usize,
) -> u64 {
    let mut d = digest;
    let mut from: usize = 0;
    for _ in 0..channels {
        if samples.len() <= from {
            return d;
        }
        if samples.len() - from < each {
            return d;
        }
        if samples.len() - from < stride {
            return d;
        }
        d = mixed_samples(d, &samples[from..from + each]);
        from += stride;
    }
    d
}

#[derive(Clone, Copy)]
struct Played {
    records: u64,
    digest: u64,
}

// A tape's end, or the record that 14 or 15 refuses.
fn stopped(p: Played, r: reader::Read, counts: Counts) -> Played {
    let reader::Read::Refused { kind, number } = r else {
        return p;
    };
    Played {
        records: p.records.wrapping_add(1),
        digest: mixed_counts(p.digest, kind, u64::from(number), counts),
    }
}

fn play(tape: &[u8], pool: &[f32]) -> Played {
    let mut samples = apply::silence();
    let mut s = apply::start();
    let mut c = Cursor { at: 0, first: true };
    let mut p = Played {
        records: 0,
        digest: 0,
    };
    for _ in 0..tape.len() {
        let r = c.read(tape);
        let reader::Read::Record { kind, call, next } = r else {
            return stopped(p, r, s.counts());
        };
        let a = apply::apply(s, call, pool, &mut samples);
        s = a.sequencer;
        p.records = p.records.wrapping_add(1);
        p.digest = mixed_counts(p.digest, kind, a.refusal, s.counts());
        if a.refusal == 1 {
            return p;
        }
        p.digest = mixed_channels(p.digest, &samples, a.channels, a.each, a.stride);
        c = next;
    }
    p
}

fn print_line<W: Write>(out: &mut W, p: Played, count: usize, digest: u64) -> io::Result<()> {
    let Played {
        records,
        digest: played,
    } = p;
    write!(out, "{records} {played:016x} {count} {digest:016x}\n")
}

fn play_all<R: Read, W: Write>(from: &mut R, to: &mut W) -> io::Result<()> {
    let mut buf = [0u8; 65536];
    let mut out = [0u8; 65536];
    let pool = tape::pool::trail_pool();
    for _ in 0..1000 {
        let Some(n) = tape_input::next_tape(from, &mut buf) else {
            return Ok(());
        };
        let p = play(&buf[..n], &pool);
        let count = render::render(&buf[..n], &mut out);
        if 65536 < count {
            return Ok(());
        }
        print_line(to, p, count, mixed_bytes(&out[..count]))?;
    }
    Ok(())
}

fn main(rt: HostRuntime) -> io::Result<()> {
    let mut from = BufReader::new(rt.alloc(), rt.stdin())?;
    let mut out = BufWriter::new(rt.alloc(), rt.stdout())?;
    play_all(&mut from, &mut out)?;
    out.flush()
}
