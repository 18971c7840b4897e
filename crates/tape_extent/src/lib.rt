// What a tape comes to, read from its clock alone: no push or edit moves the clock, and only the clock, the rate and the channels say which ticks and blocks are accepted.
#![tactic(auto)]

ghost use Rattle.std.specs.Prelude.{◌≡◌, ◌*◌, List, Float};
ghost use Rattle.refusals.specs.Numbers.{refusal_number};
ghost use Rattle.tape_extent.specs.Extents.{rate_with, one_rate_with, longer, counts64, ended_by, end_of, extent_of};
ghost use Rattle.tape_extent.specs.Paces.{fresh_pace, at, soundless, rendering, creates, creating, paced};
ghost use Rattle.tape.specs.declared.reader.Call.TheVariants.{Tick, Process, SetSampleRate};

use refusals::{Refusal, process_refusal, rate_refusal, tick_refusal};
use tape::reader::{Call, Cursor, Read};

// The bytes that `render` writes where there is room for all, and the samples of each channel among them, both 2 ^ 64 - 1 where there are more; the channels;
// the rate of the last samples (44,100 where there are none) and whether all are at one rate; and what ended the tape: refusal 1, 14 or 15, or 0 at its end.
// (`ended` is a number: the C interface hands it on.)
#[derive(Clone, Copy)]
pub struct Extent {
    pub bytes: u64,
    pub frames: u64,
    pub channels: u64,
    pub rate: f64,
    pub one_rate: bool,
    pub ended: u64,
}

#[derive(Clone, Copy)]
pub struct Pace {
    pub time: f64,
    pub rate: f64,
    pub duration: f64,
    pub channels: u8,
}

// The pace after a record, whether it is refused as 1, and the frames that it gives.
#[derive(Clone, Copy)]
pub struct Paced {
    pub pace: Pace,
    pub refused: bool,
    pub frames: u8,
}

// ---- the pace

// A fresh engine's.
fn fresh_pace(channels: u8) -> Pace
    ensures { result ≡ fresh_pace channels }
{
    Pace {
        time: 0.0,
        rate: 44100.0,
        duration: 1.0 / 44100.0,
        channels,
    }
}

fn pace_at(p: Pace, time: f64) -> Pace
    ensures { result ≡ at p time }
{
    Pace { time, ..p }
}

fn without_samples(pace: Pace) -> Paced
    ensures { result ≡ soundless pace }
{
    Paced {
        pace,
        refused: false,
        frames: 0,
    }
}

fn rendered(p: Pace, n: u8, refusal: Option<Refusal>, end: f64) -> Paced
    ensures { result ≡ rendering p n (refusal_number refusal) end }
{
    if refusal.is_some() {
        return without_samples(p);
    }
    Paced {
        pace: pace_at(p, end),
        refused: false,
        frames: n,
    }
}

// Not refused as 1.
fn accepts_creation(channels: u8, first: u64) -> bool
    ensures { result ≡ creates channels first }
{
    matches!(channels, 1..=8) && 1 <= first
}

fn create(channels: u8, first: u64) -> Paced
    ensures { result ≡ creating channels first }
{
    if accepts_creation(channels, first) {
        return without_samples(fresh_pace(channels));
    }
    Paced {
        pace: fresh_pace(1),
        refused: true,
        frames: 0,
    }
}

fn tick(p: Pace) -> Paced
    ensures { result ≡ paced p Tick }
{
    let channels = p.channels as usize;
    let refusal = tick_refusal(channels, channels, p.time, p.duration);
    rendered(p, 1, refusal, p.time + p.duration)
}

fn block(p: Pace, size: u8) -> Paced
    ensures { result ≡ paced p (Process size) }
{
    let channels = p.channels as usize;
    let refusal = process_refusal(size as usize, 64 * channels, channels, p.time, p.duration);
    let end = p.time + p.duration * std::num::nearest_u64_to_f64(size as u64);
    rendered(p, size, refusal, end)
}

fn set_rate(p: Pace, rate: f64) -> Paced
    ensures { result ≡ paced p (SetSampleRate rate) }
{
    if rate_refusal(rate).is_some() || p.rate == rate {
        return without_samples(p);
    }
    without_samples(Pace {
        rate,
        duration: 1.0 / rate,
        ..p
    })
}

fn after(p: Pace, call: Call) -> Paced
    ensures { result ≡ paced p call }
{
    match call {
        Call::Create {
            channels,
            first,
            ..
        } => create(channels, first),
        Call::Push(_)
        | Call::PushRelative(_)
        | Call::PushDuration(_)
        | Call::Edit(_)
        | Call::EditRelative(_) => without_samples(p),
        Call::Tick => tick(p),
        Call::Process(size) => block(p, size),
        Call::Reset => without_samples(pace_at(p, 0.0)),
        Call::SetSampleRate(rate) => set_rate(p, rate),
    }
}

// ---- the counts

fn rate_of(x: Extent, n: u8, rate: f64) -> f64
    ensures { result ≡ rate_with x n rate }
{
    if n == 0 { x.rate } else { rate }
}

fn one_rate(x: Extent, n: u8, rate: f64) -> bool
    ensures { result ≡ one_rate_with x n rate }
{
    if n == 0 {
        return x.one_rate;
    }
    x.frames == 0 || x.one_rate && x.rate == rate
}

fn bytes_of(channels: u8, n: u8) -> u64
    ensures { result ≡ 4 * (channels * n) }
{
    4 * (channels as u64 * n as u64)
}

// With n frames more of so many channels.
fn add(x: Extent, channels: u8, n: u8, rate: f64) -> Extent
    ensures { result ≡ counts64 (longer x (4 * (channels * n)) n rate) }
{
    Extent {
        bytes: x.bytes.saturating_add(bytes_of(channels, n)),
        frames: x.frames.saturating_add(n as u64),
        rate: rate_of(x, n, rate),
        one_rate: one_rate(x, n, rate),
        ..x
    }
}

fn end(x: Extent, channels: u8, ended: u64) -> Extent
    ensures { result ≡ ended_by x channels ended }
{
    Extent {
        channels: channels as u64,
        ended,
        ..x
    }
}

// What ends the tape where no record was read.
fn end_of(r: Read) -> u64
    ensures { result ≡ end_of r }
{
    match r {
        Read::Refused { kind: _, number } => number as u64,
        Read::Record { .. } | Read::End => 0,
    }
}

// What the tape comes to, whatever pool its clips read from.
pub fn extent_of(tape: &[u8]) -> Extent
    ensures { (pool : List Float) → result ≡ extent_of pool tape.now }
{
    let mut pace = fresh_pace(1);
    let mut x = Extent {
        bytes: 0,
        frames: 0,
        channels: 1,
        rate: 44100.0,
        one_rate: true,
        ended: 0,
    };
    let mut cursor = Cursor { at: 0, first: true };
    // A tape has no more records than bytes.
    for _ in 0..tape.len() {
        let r = cursor.read(tape);
        let Read::Record { call, next, .. } = r else {
            return end(x, pace.channels, end_of(r));
        };
        let p = after(pace, call);
        pace = p.pace;
        if p.refused {
            return end(x, pace.channels, 1);
        }
        x = add(x, pace.channels, p.frames, pace.rate);
        cursor = next;
    }
    end(x, pace.channels, 0)
}
