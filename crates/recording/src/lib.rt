// The samples of a recording from its bytes: floats of 32 bits, little-endian.
#![tactic(auto)]

ghost use Rattle.std.specs.Prelude.{◌≡◌, ◌-◌, ◌/◌, min, length};
ghost use Rattle.std.proofs.lemmas.List.Edits.{sets};
ghost use Rattle.recording.specs.Samples.{samples_from};

use tape::fields;

// Puts the samples of whole groups of four bytes into `out` from a place on, as many as have room, and answers how many.
pub fn put_samples(bytes: &[u8], out: &mut [f32], at: usize) -> usize
    ensures count { result ≡ min (length bytes.now / 4) (length out.old - at) }
    ensures lent { out.new ≡ sets out.old at (samples_from bytes.now result 0) }
{
    if out.len() < at {
        return 0;
    }
    let n = (bytes.len() / 4).min(out.len() - at);
    for i in 0..n {
        out[at + i] = fields::f32_at(bytes, 4 * i);
    }
    n
}
