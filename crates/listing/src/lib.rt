// The listing's lines, put at the front of a lent buffer. A buffer too short for the line stays as it is, and the answer is 0.
// A text is a lent slice with a place beside it: document 01 has no heap, so no String holds it; in the contracts both are one record (specs/Pieces, Text).
#![tactic(auto)]

pub mod pieces;

ghost use Rattle.std.specs.Prelude.{◌≡◌, [], ◌∷◌, ◌++◌, cond, ◌+◌, ◌*◌, ◌≤◌, ◌<◌, eqb, length};
ghost use Rattle.std.specs.Float.{binary32};
ghost use Rattle.std.specs.Float.Ieee.{to_bits};
ghost use Rattle.std.proofs.lemmas.List.Edits.{sets};
ghost use Rattle.listing.specs.Putting.{put, put_length};
ghost use Rattle.listing.specs.Text.{digits, digit as digit_of, places_of, decimal, spaced, kind_line, counts_line, samples_from, samples_line};

// A digit below 16, upper-case.
fn digit(d: u64) -> u8
    requires { d < 16 }
    ensures { result ≡ digit_of d }
{
    if d < 10 { 48 + d as u8 } else { 55 + d as u8 }
}

// Puts the last `width` digits of n in a base up to 16 from `at` on.
fn put_digits(n: u64, base: u64, width: usize, out: &mut [u8], at: usize)
    requires fact_1 { 1 < base }
    requires fact_2 { base ≤ 16 }
    requires fact_3 { at + width ≤ length out.old }
    ensures { out.new ≡ sets out.old at (digits base width n) }
{
    let mut rest = n;
    for i in (0..width).rev() {
        out[at + i] = digit(rest % base);
        rest /= base;
    }
}

// How many decimal digits n has.
fn places(n: u64) -> usize
    ensures value { result ≡ places_of 20 n }
    ensures upper_bound { result ≤ 20 }
{
    n.max(1).ilog10() as usize + 1
}

// A space and n in decimal.
fn put_number(n: u64, out: &mut [u8], at: usize) -> usize
    requires { at + length (32 ∷ decimal n) ≤ length out.old }
    ensures out_after { out.new ≡ sets out.old at (32 ∷ decimal n) }
    ensures value { result ≡ at + length (32 ∷ decimal n) }
{
    let k = places(n);
    out[at] = 32;
    put_digits(n, 10, k, out, at + 1);
    at + 1 + k
}

// How many bytes up to five numbers take, each behind a space.
fn spaced_length(numbers: &[u64]) -> usize
    requires { length numbers.now ≤ 5 }
    ensures value { result ≡ length (spaced numbers.now) }
    ensures upper_bound { result ≤ 105 }
{
    let mut total: usize = 0;
    for n in numbers {
        total += 1 + places(*n);
    }
    total
}

// Numbers in decimal from `at` on, each behind a space.
fn put_numbers(numbers: &[u64], out: &mut [u8], at: usize) -> usize
    requires { at + length (spaced numbers.now) ≤ length out.old }
    ensures out_after { out.new ≡ sets out.old at (spaced numbers.now) }
    ensures value { result ≡ at + length (spaced numbers.now) }
{
    let mut to = at;
    for n in numbers {
        to = put_number(*n, out, to);
    }
    to
}

// A kind and up to five numbers.
fn kind_line(kind: u8, numbers: &[u64], out: &mut [u8]) -> usize
    requires { length numbers.now ≤ 5 }
    ensures out_after { out.new ≡ put (kind_line kind numbers.now) out.old }
    ensures value { result ≡ put_length (kind_line kind numbers.now) out.old }
{
    if out.len() < spaced_length(numbers) + 3 {
        return 0;
    }
    put_digits(kind as u64, 16, 2, out, 0);
    let to = put_numbers(numbers, out, 2);
    out[to] = 10;
    to + 1
}

// A record's line: its kind, its refusal or 0, and the four counts.
pub fn counts_line(
    kind: u8,
    refusal: u64,
    waiting: u64,
    sounding: u64,
    finished: u64,
    let_go: u64,
    out: &mut [u8],
) -> usize
    ensures out_after { out.new ≡ put (counts_line kind refusal waiting sounding finished let_go) out.old }
    ensures value { result ≡ put_length (counts_line kind refusal waiting sounding finished let_go) out.old }
{
    let numbers = [refusal, waiting, sounding, finished, let_go];
    kind_line(kind, &numbers, out)
}

// What stands behind the sample before place i of n: a space, or the line's end.
fn ending(i: usize, n: usize) -> u8
    ensures { result ≡ cond (eqb i n) 10 32 }
{
    if i == n { 10 } else { 32 }
}

// A sample's bits and what stands behind them.
fn put_sample(sample: f32, end: u8, out: &mut [u8], at: usize)
    requires { at + 9 ≤ length out.old }
    ensures { out.new ≡ sets out.old at (digits 16 8 (to_bits binary32 sample) ++ (end ∷ [])) }
{
    let bits = float_bits::f32_to_bits(sample);
    put_digits(bits as u64, 16, 8, out, at);
    out[at + 8] = end;
}

// The bits of the samples, eight digits each, one space between.
fn put_samples(samples: &[f32], out: &mut [u8]) -> usize
    requires { 9 * length samples.now ≤ length out.old }
    ensures out_after { out.new ≡ sets out.old 0 (samples_from samples.now) }
    ensures value { result ≡ length (samples_from samples.now) }
{
    let mut to = 0;
    for (i, sample) in samples.iter().enumerate() {
        let end = ending(i + 1, samples.len());
        put_sample(*sample, end, out, to);
        to += 9;
    }
    to
}

fn put_end(out: &mut [u8]) -> usize
    ensures out_after { out.new ≡ put (10 ∷ []) out.old }
    ensures value { result ≡ put_length (10 ∷ []) out.old }
{
    if out.is_empty() {
        return 0;
    }
    out[0] = 10;
    1
}

// A channel's line: the bits of its samples.
pub fn samples_line(samples: &[f32], out: &mut [u8]) -> usize
    ensures out_after { out.new ≡ put (samples_line samples.now) out.old }
    ensures value { result ≡ put_length (samples_line samples.now) out.old }
{
    if samples.is_empty() {
        return put_end(out);
    }
    if out.len() / 9 < samples.len() {
        return 0;
    }
    put_samples(samples, out)
}
