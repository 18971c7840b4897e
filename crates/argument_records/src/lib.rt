// A record's arguments (crate tape_writer) as 120 bytes, by which a program that reads or writes text hands them on: kind, channels, mode and number, the times start, end, fade-in and fade-out, curve and source (8 each),
// value, step, offset, length, gain and a 0 (4 each), size and rate (8 each); little-endian, floats as bits.
#![tactic(auto)]

ghost use Rattle.std.specs.Prelude.{◌≡◌, replicate};
ghost use Rattle.argument_records.specs.Records.{arguments_of, record_bytes, record_widths, record_numbers};

use tape::fields;
use tape_writer::Arguments;

// The arguments whose bytes these are. A byte that is not there counts as 0.
pub fn get(b: &[u8]) -> Arguments
    ensures { result ≡ arguments_of b.now }
{
    Arguments {
        kind: fields::word64(b, 0),
        channels: fields::word64(b, 8),
        mode: fields::word64(b, 16),
        number: fields::word64(b, 24),
        start_time: fields::f64_at(b, 32),
        end_time: fields::f64_at(b, 40),
        fade_in: fields::f64_at(b, 48),
        fade_out: fields::f64_at(b, 56),
        curve: fields::word64(b, 64),
        source: fields::word64(b, 72),
        value: fields::f32_at(b, 80),
        step: fields::f32_at(b, 84),
        offset: fields::word32(b, 88),
        length: fields::word32(b, 92),
        gain: fields::f32_at(b, 96),
        size: fields::word64(b, 104),
        sample_rate: fields::f64_at(b, 112),
    }
}

// A row beside that of the numbers, as `little_endian::put_fields` takes them.
fn widths() -> [usize; 18]
    ensures { result ≡ record_widths }
{
    [8, 8, 8, 8, 8, 8, 8, 8, 8, 8, 4, 4, 4, 4, 4, 4, 8, 8]
}

fn numbers(a: Arguments) -> [u64; 18]
    ensures { result ≡ record_numbers a }
{
    [
        a.kind,
        a.channels,
        a.mode,
        a.number,
        float_bits::f64_to_bits(a.start_time),
        float_bits::f64_to_bits(a.end_time),
        float_bits::f64_to_bits(a.fade_in),
        float_bits::f64_to_bits(a.fade_out),
        a.curve,
        a.source,
        float_bits::f32_to_bits(a.value) as u64,
        float_bits::f32_to_bits(a.step) as u64,
        a.offset as u64,
        a.length as u64,
        float_bits::f32_to_bits(a.gain) as u64,
        0,
        a.size,
        float_bits::f64_to_bits(a.sample_rate),
    ]
}

fn blank() -> [u8; 120]
    ensures { result ≡ replicate 120 0 }
{
    [0; 120]
}

// The bytes of the arguments.
pub fn put(a: Arguments) -> [u8; 120]
    ensures { result ≡ record_bytes a }
{
    let widths = widths();
    let numbers = numbers(a);
    let mut out = blank();
    little_endian::put_fields(&widths, &numbers, &mut out);
    out
}
