// The wave of each channel: a peak for each of 1,401 columns, drawn as a bar about the middle.
use crate::page::say;
use std::io;
use std::io::Write;
use tape_pages::larger;

// The columns of a channel: its peaks stand in a row, one channel's behind the other's.
const COLUMNS: usize = 1401;

fn magnitude(samples: &[f32], i: usize) -> u32 {
    if i < samples.len() {
        return float_bits::f32_to_bits(samples[i]) % 0x8000_0000;
    }
    0
}

fn raise(peaks: &mut [u32], i: usize, bits: u32) {
    if i < peaks.len() {
        peaks[i] = larger(peaks[i], bits);
    }
}

// Raises the columns from `from` up to `to`, one at least.
fn heard(peaks: &mut [u32], row: usize, from: u64, to: u64, bits: u32) {
    for column in from..to.max(from.saturating_add(1)) {
        raise(peaks, row.wrapping_add(column as usize), bits);
    }
}

// The sample of every channel that stands `stride` places after the one before, from place k on, goes to the columns of its time.
fn hear_one(
    peaks: &mut [u32],
    samples: &[f32],
    channels: usize,
    k: usize,
    stride: usize,
    from: u64,
    to: u64,
) {
    let mut i = k;
    let mut row: usize = 0;
    for _ in 0..channels {
        heard(peaks, row, from, to, magnitude(samples, i));
        i = i.wrapping_add(stride);
        row = row.wrapping_add(COLUMNS);
    }
}

// A tick's or block's samples.
pub(crate) fn hear(
    total: u64,
    peaks: &mut [u32],
    samples: &[f32],
    channels: usize,
    each: usize,
    stride: usize,
    from: u64,
    to: u64,
) {
    for k in 0..each {
        let n = k as u64;
        let a = chart::column(chart::between(from, to, n, each as u64), total);
        let b = chart::column(chart::between(from, to, n + 1, each as u64), total);
        hear_one(peaks, samples, channels, k, stride, a, b);
    }
}

fn bar<W: Write>(out: &mut W, bits: u32, column: u32, middle: u64) -> io::Result<()> {
    let mut text = [0u8; 4096];
    let n = tape_sheet::put_bar(bits, column, middle, &mut text, 0);
    say(out, &text, n)
}

// A channel's peaks as bars; with `loud` only those above 1.0, which are drawn once more, in black.
fn bars<W: Write>(out: &mut W, peaks: &[u32], middle: u64, loud: bool) -> io::Result<()> {
    for (column, bits) in peaks.iter().enumerate() {
        if !loud || 0x3f80_0000 < *bits {
            bar(out, *bits, u32::try_from(column).unwrap_or(0), middle)?;
        }
    }
    Ok(())
}

fn loudest_of(peaks: &[u32]) -> u32 {
    peaks.iter().fold(0, |most, bits| larger(most, *bits))
}

fn wave<W: Write>(out: &mut W, lanes: u64, channel: u32, peaks: &[u32]) -> io::Result<()> {
    let mut text = [0u8; 4096];
    let n = tape_sheet::put_wave(lanes, channel, loudest_of(peaks), &mut text, 0);
    say(out, &text, n)?;
    let middle = chart::wave(lanes, u64::from(channel)) + 40;
    bars(out, peaks, middle, false)?;
    write!(out, "\"/><path class=\"o\" d=\"M170 {middle}")?;
    bars(out, peaks, middle, true)?;
    out.write_all(b"\"/>\n")
}

// The waves of up to eight channels.
pub(crate) fn draw<W: Write>(
    out: &mut W,
    lanes: u64,
    channels: u64,
    peaks: &[u32],
) -> io::Result<()> {
    for (channel, row) in peaks.chunks_exact(COLUMNS).enumerate() {
        if channels <= channel as u64 {
            return Ok(());
        }
        wave(out, lanes, u32::try_from(channel).unwrap_or(0), row)?;
    }
    Ok(())
}
