// Little-endian fields of a record. A byte that is not there counts as 0.
ghost use Rattle.std.specs.Prelude.{◌≡◌, min, from_bits, slice_index};
ghost use Rattle.std.specs.Float.{binary32, binary64};
ghost use Rattle.tape.specs.Fields.{field};

// The byte at place i, 0 past the end.
pub fn byte(bs: &[u8], i: usize) -> u8
    ensures { result ≡ slice_index bs.now i }
{
    if i < bs.len() { bs[i] } else { 0 }
}

// The little-endian number of the first `width` bytes, at most 8.
fn low(bs: &[u8], width: usize) -> u64
    ensures { result ≡ field bs.now 0 (min width 8) }
{
    let mut n: u64 = 0;
    for i in (0..width.min(8)).rev() {
        n = n * 256 + u64::from(byte(bs, i));
    }
    n
}

// The little-endian number of `width` bytes from `at` on, at most 8.
pub fn word(bs: &[u8], at: usize, width: usize) -> u64
    ensures { result ≡ field bs.now at (min width 8) }
{
    if bs.len() <= at {
        return 0;
    }
    low(&bs[at..], width)
}

// The four functions below stay apart: each is one expression over `word`, and a trait over the number's type would need an impl with a law for each.

// The little-endian number of four bytes from `at` on.
pub fn word32(bs: &[u8], at: usize) -> u32
    ensures { result ≡ field bs.now at 4 }
{
    word(bs, at, 4) as u32
}

// The little-endian number of eight bytes from `at` on.
pub fn word64(bs: &[u8], at: usize) -> u64
    ensures { result ≡ field bs.now at 8 }
{
    word(bs, at, 8)
}

// The f64 of eight bytes from `at` on.
pub fn f64_at(bs: &[u8], at: usize) -> f64
    ensures { result ≡ from_bits binary64 (field bs.now at 8) }
{
    float_bits::f64_from_bits(word64(bs, at))
}

// The f32 of four bytes from `at` on.
pub fn f32_at(bs: &[u8], at: usize) -> f32
    ensures { result ≡ from_bits binary32 (field bs.now at 4) }
{
    float_bits::f32_from_bits(word32(bs, at))
}
