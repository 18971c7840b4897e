// Numbers and samples put down as little-endian bytes in a lent buffer.
#![tactic(auto)]

ghost use Rattle.std.specs.Prelude.{◌≡◌, ◌+◌, ◌≤◌, length};
ghost use Rattle.std.proofs.lemmas.List.Edits.{sets};
ghost use Rattle.listing.specs.Pieces.{text, add};
ghost use Rattle.little_endian.specs.LowBytes.{little_endian};
ghost use Rattle.little_endian.specs.Fields.{fields_in};
ghost use Rattle.little_endian.specs.Samples.{sample_bytes, bytes_of};

// The low `width` bytes of n, the lowest first.
fn put_word(n: u64, width: usize, out: &mut [u8], at: usize)
    requires { at + width ≤ length out.old }
    ensures { out.new ≡ sets out.old at (little_endian width n) }
{
    let mut rest = n;
    // By how many are put, and not by the places: a width that is known unrolls.
    for i in 0..width {
        out[at + i] = (rest % 256) as u8;
        rest /= 256;
    }
}

// Puts each number in as many bytes as its width says, from the front of `out` on, up to the first that does not fit; answers how many bytes it put.
pub fn put_fields(widths: &[usize], numbers: &[u64], out: &mut [u8]) -> usize
    ensures count { result ≡ length (fields_in (length out.old) widths.now numbers.now) }
    ensures lent { out.new ≡ sets out.old 0 (fields_in (length out.old) widths.now numbers.now) }
{
    let mut at: usize = 0;
    for (width, number) in widths.iter().zip(numbers) {
        if out.len() - at < *width {
            return at;
        }
        put_word(*number, *width, out, at);
        at += *width;
    }
    at
}

// (Beside `put_samples`, which asks for the room of all its samples once, and not in each turn.)
// A sample's four bytes from a place on; answers the next free place. Where they have no room nothing is put, and the place stays.
pub fn put_sample(sample: f32, out: &mut [u8], at: usize) -> usize
    ensures { text out.new result ≡ add (sample_bytes sample) (text out.old at) }
{
    if out.len() < at {
        return at;
    }
    if out.len() - at < 4 {
        return at;
    }
    let bits = float_bits::f32_to_bits(sample);
    put_word(bits as u64, 4, out, at);
    at + 4
}

// The same for samples one behind the other: all of them or none.
pub fn put_samples(samples: &[f32], out: &mut [u8], at: usize) -> usize
    ensures { text out.new result ≡ add (bytes_of samples.now) (text out.old at) }
{
    if out.len() < at {
        return at;
    }
    if (out.len() - at) / 4 < samples.len() {
        return at;
    }
    let mut to = at;
    for sample in samples {
        let bits = float_bits::f32_to_bits(*sample);
        put_word(bits as u64, 4, out, to);
        to += 4;
    }
    to
}
