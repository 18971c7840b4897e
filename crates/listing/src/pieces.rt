// Pieces of a text, put one after the other into a lent buffer: each answers the next free place. A piece that has no room is left out, and the place stays.
ghost use Rattle.std.specs.Prelude.{◌≡◌, ◌+◌, ◌≤◌, ◌<◌, leb};
ghost use Rattle.listing.specs.Pieces.{text, add};
ghost use Rattle.listing.specs.Text.{digits, decimal};

use crate::{places, put_digits};

// Whether `n` bytes have room from `at` on in a buffer of `len`.
fn has_room(len: usize, at: usize, n: usize) -> bool
    ensures { result ≡ leb (at + n) len }
{
    at <= len && n <= len - at
}

// Puts the bytes into `out` from `at` on and answers where they end. Where they have no room nothing is written, and the answer is `at`.
pub fn put_bytes(bytes: &[u8], out: &mut [u8], at: usize) -> usize
    ensures { text out.new result ≡ add bytes.now (text out.old at) }
{
    if has_room(out.len(), at, bytes.len()) {
        out[at..at + bytes.len()].copy_from_slice(bytes);
        return at + bytes.len();
    }
    at
}

// Puts the last `width` digits of n in a base up to 16, as `put_bytes` puts bytes.
fn put_in_base(n: u64, base: u64, width: usize, out: &mut [u8], at: usize) -> usize
    requires fact_1 { 1 < base }
    requires fact_2 { base ≤ 16 }
    ensures { text out.new result ≡ add (digits base width n) (text out.old at) }
{
    if has_room(out.len(), at, width) {
        put_digits(n, base, width, out, at);
        return at + width;
    }
    at
}

// The number in decimal digits.
pub fn put_decimal(n: u64, out: &mut [u8], at: usize) -> usize
    ensures { text out.new result ≡ add (decimal n) (text out.old at) }
{
    put_in_base(n, 10, places(n), out, at)
}

// The last `width` hexadecimal digits.
pub fn put_hex(n: u64, width: usize, out: &mut [u8], at: usize) -> usize
    ensures { text out.new result ≡ add (digits 16 width n) (text out.old at) }
{
    put_in_base(n, 16, width, out, at)
}
