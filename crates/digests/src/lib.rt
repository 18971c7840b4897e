// A digest of numbers: each goes into one number of 64 bits, so that a list that differs in one place has another digest.
#![tactic(auto)]

ghost use Rattle.std.specs.Prelude.{◌≡◌};
ghost use Rattle.digests.specs.Digests.{mixed as mixed_by, mixed_all};

// The digest with one more number in it.
pub fn mixed(digest: u64, value: u64) -> u64
    ensures { result ≡ mixed_by digest value }
{
    digest.rotate_left(7).wrapping_add(value)
}

// The digest of bytes, in their order.
pub fn mixed_bytes(bytes: &[u8]) -> u64
    ensures { result ≡ mixed_all 0 bytes.now }
{
    let mut digest: u64 = 0;
    for byte in bytes {
        digest = mixed(digest, u64::from(*byte));
    }
    digest
}
