// The header of a WAV file of 32-bit float samples, 94 bytes. Where the file is too long for sizes of 32 bits it is an RF64, whose chunk ds64 has them in 64; below that a chunk JUNK, which readers pass over, takes its room.
ghost use Rattle.std.specs.Prelude.{◌≡◌, ◌<◌, ◌*◌, true, false, replicate};
ghost use Rattle.wav.specs.Header.{is_large, align_of, widths_of, numbers_of, header_bytes, whole_rate};

fn is_large(channels: u64, frames: u64) -> bool
    requires fact_1 { channels < 256 }
    requires fact_2 { frames < 4294967296 }
    ensures { result ≡ is_large channels frames }
{
    0xFFFF_FFFF <= frames * (channels * 4) + 86
}

fn widths(large: bool) -> [usize; 23]
    ensures { result ≡ widths_of large }
{
    if large {
        return [
            4, 4, 4, 4, 4, 8, 8, 8, 4, 4, 4, 2, 2, 4, 4, 2, 2, 2, 4, 4, 4, 4, 4,
        ];
    }
    [
        4, 4, 4, 4, 4, 2, 2, 4, 4, 2, 2, 2, 4, 4, 4, 4, 4, 8, 8, 8, 4, 4, 4,
    ]
}

// The bytes a second.
fn speed(channels: u64, rate: u64) -> u64
    requires fact_1 { channels < 256 }
    requires fact_2 { rate < 4294967296 }
    ensures { result ≡ rate * align_of channels }
{
    rate * (channels * 4)
}

// The fields of an RF64 in their order.
fn large_numbers(channels: u64, rate: u64, frames: u64) -> [u64; 23]
    requires fact_1 { channels < 256 }
    requires fact_2 { rate < 4294967296 }
    requires fact_3 { frames < 4294967296 }
    ensures { result ≡ numbers_of true channels rate frames }
{
    let align = channels * 4;
    let data = frames * align;
    let size = data + 86;
    [
        0x3436_4652,
        0xFFFF_FFFF,
        0x4556_4157,
        0x3436_7364,
        28,
        size,
        data,
        frames,
        0,
        0x2074_6D66,
        18,
        3,
        channels,
        rate,
        speed(channels, rate),
        align,
        32,
        0,
        0x7463_6166,
        4,
        frames,
        0x6174_6164,
        0xFFFF_FFFF,
    ]
}

// And of a RIFF.
fn small_numbers(channels: u64, rate: u64, frames: u64) -> [u64; 23]
    requires fact_1 { channels < 256 }
    requires fact_2 { rate < 4294967296 }
    requires fact_3 { frames < 4294967296 }
    ensures { result ≡ numbers_of false channels rate frames }
{
    let align = channels * 4;
    let data = frames * align;
    let size = data + 86;
    [
        0x4646_4952,
        size,
        0x4556_4157,
        0x2074_6D66,
        18,
        3,
        channels,
        rate,
        speed(channels, rate),
        align,
        32,
        0,
        0x7463_6166,
        4,
        frames,
        0x4B4E_554A,
        28,
        size,
        data,
        frames,
        0,
        0x6174_6164,
        data,
    ]
}

// The header's fields in their order.
fn numbers(large: bool, channels: u64, rate: u64, frames: u64) -> [u64; 23]
    requires fact_1 { channels < 256 }
    requires fact_2 { rate < 4294967296 }
    requires fact_3 { frames < 4294967296 }
    ensures { result ≡ numbers_of large channels rate frames }
{
    if large {
        large_numbers(channels, rate, frames)
    } else {
        small_numbers(channels, rate, frames)
    }
}

fn blank() -> [u8; 94]
    ensures { result ≡ replicate 94 0 }
{
    [0; 94]
}

// A WAV's header: channels, frames a second, and how many frames follow it.
pub fn header(channels: u8, rate: u32, frames: u32) -> [u8; 94]
    ensures { result ≡ header_bytes channels rate frames }
{
    let large = is_large(channels as u64, frames as u64);
    let widths = widths(large);
    let numbers = numbers(large, channels as u64, rate as u64, frames as u64);
    let mut out = blank();
    little_endian::put_fields(&widths, &numbers, &mut out);
    out
}

// The rate as a whole number from 1 on and below 2^32, where it is one.
pub fn whole_rate(rate: f64) -> Option<u32>
    ensures { result ≡ whole_rate rate }
{
    let n = floats::nearest_index(rate);
    if n == 0 {
        return None;
    }
    if 0xFFFF_FFFF < n {
        return None;
    }
    if std::num::nearest_u64_to_f64(n) == rate {
        return Some(n as u32);
    }
    None
}
