// Document 02, Paper 6: puts down a record of a tape in a lent buffer.
#![tactic(auto)]

pub mod calls;

ghost use Rattle.std.specs.Prelude.{◌≡◌, cond, ◌<◌, length};
ghost use Rattle.event.specs.Numbers.{first_word, second_word};
ghost use Rattle.tape.specs.Tape.{gain_kind};
ghost use Rattle.tape_writer.specs.Writing.{bytes_of, undefined, refusal_number, answered, buffer_after, source_from};

use float_bits::{f32_to_bits, f64_to_bits};
use tape::reader;

// A record's kind and its call's arguments. Those that the kind, or the source, does not take are not looked at.
#[derive(Clone, Copy)]
pub struct Arguments {
    pub kind: u64,
    pub channels: u64,
    pub mode: u64,
    // 00: the first number; 04 and 05: the event's
    pub number: u64,
    pub start_time: f64,
    // by duration: the duration
    pub end_time: f64,
    pub fade_in: f64,
    pub fade_out: f64,
    pub curve: u64,
    pub source: u64,
    // a held source's level, or a ramp's value
    pub value: f32,
    pub step: f32,
    pub offset: u32,
    pub length: u32,
    pub gain: f32,
    pub size: u64,
    pub sample_rate: f64,
}

// Why a record is not written.
#[derive(Clone, Copy, PartialEq, Eq)]
pub enum Refusal {
    // an undefined kind, mode, curve or source, or channels or a block size above 255
    Undefined,
    // the buffer has no room for the record at the free place
    NoRoom,
}

impl Refusal {
    // Document 01's number.
    pub fn number(self) -> u64
        ensures { result ≡ refusal_number self }
    {
        match self {
            Refusal::Undefined => 14,
            Refusal::NoRoom => 19,
        }
    }
}

// 14.
fn is_undefined(a: Arguments) -> bool
    ensures { result ≡ undefined a }
{
    let kind = a.kind;
    if 12 < kind {
        return true;
    }
    if kind == 0 {
        return 255 < a.channels || 1 < a.mode;
    }
    if kind == 7 {
        return 255 < a.size;
    }
    if reader::is_push(kind as u8) {
        return 1 < a.curve || 2 < a.source;
    }
    false
}

// The source's words. A held source has one; the other is 0.
// (Arms 0 and 1 stay apart: of `0 | 1` a proof has only that it is below 2, and the definition goes case by case.)
fn first_word(a: Arguments) -> u32
    ensures { result ≡ first_word (source_from a) }
{
    match a.source {
        0 => f32_to_bits(a.value),
        1 => f32_to_bits(a.value),
        _ => a.offset,
    }
}

fn second_word(a: Arguments) -> u32
    ensures { result ≡ second_word (source_from a) }
{
    match a.source {
        0 => 0,
        1 => f32_to_bits(a.step),
        _ => a.length,
    }
}

fn gain_width(kind: u8) -> usize
    ensures { result ≡ cond (gain_kind kind) 4 0 }
{
    if reader::has_gain(kind) { 4 } else { 0 }
}

// The record's fields, put down in a part of the buffer that is as long as the record.
fn put_record(a: Arguments, out: &mut [u8])
    requires known { a.kind < 13 }
    requires room { length out.old ≡ length (bytes_of a) }
    ensures { out.new ≡ bytes_of a }
{
    let kind = a.kind;
    let k = reader::plain_kind(kind as u8);
    if k == 0 {
        little_endian::put_fields(&[1, 1, 1, 8], &[kind, a.channels, a.mode, a.number], out);
        return;
    }
    if k < 4 {
        let first = first_word(a) as u64;
        let second = second_word(a) as u64;
        let gain = f32_to_bits(a.gain) as u64;
        // without gain bytes the gain's field has none
        let width = gain_width(kind as u8);
        let numbers = [
            kind,
            f64_to_bits(a.start_time),
            f64_to_bits(a.end_time),
            f64_to_bits(a.fade_in),
            f64_to_bits(a.fade_out),
            a.curve,
            a.source,
            first,
            second,
            gain,
        ];
        little_endian::put_fields(&[1, 8, 8, 8, 8, 1, 1, 4, 4, width], &numbers, out);
        return;
    }
    if k < 6 {
        let numbers = [
            kind,
            a.number,
            f64_to_bits(a.end_time),
            f64_to_bits(a.fade_out),
        ];
        little_endian::put_fields(&[1, 8, 8, 8], &numbers, out);
        return;
    }
    if k == 7 {
        little_endian::put_fields(&[1, 1], &[kind, a.size], out);
        return;
    }
    if k == 9 {
        little_endian::put_fields(&[1, 8], &[kind, f64_to_bits(a.sample_rate)], out);
        return;
    }
    little_endian::put_fields(&[1], &[kind], out);
}

// Puts down the record at the free place and answers the next one.
pub fn write(a: Arguments, buf: &mut [u8], at: usize) -> Result<usize, Refusal>
    ensures answer { result ≡ answered a buf.old at }
    ensures lent { buf.new ≡ buffer_after a buf.old at }
{
    if is_undefined(a) {
        return Err(Refusal::Undefined);
    }
    let n = reader::size_of(a.kind as u8);
    if buf.len() < at || buf.len() - at < n {
        return Err(Refusal::NoRoom);
    }
    put_record(a, &mut buf[at..at + n]);
    Ok(at + n)
}
