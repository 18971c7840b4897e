// Samples as the data of a WAV: frame after frame, in each the sample of every channel.
ghost use Rattle.std.specs.Prelude.{◌≡◌, ◌+◌, ◌*◌, ◌<◌, ◌≤◌, max, map, length};
ghost use Rattle.std.proofs.lemmas.List.Edits.{sets};
ghost use Rattle.little_endian.specs.Samples.{bytes_of};
ghost use Rattle.listing.specs.Putting.{put, put_length};
ghost use Rattle.peak.specs.Peaks.{magnitude, greatest};
ghost use Rattle.wav.specs.Frames.{frame_at, frames_from, data_bytes};

// The sample at `place` of every channel; the channels begin `stride` places apart.
fn put_frame(
    samples: &[f32],
    channels: usize,
    stride: usize,
    place: usize,
    out: &mut [u8],
    at: usize,
)
    requires fact_1 { place < stride }
    requires fact_2 { channels * stride ≤ length samples.now }
    requires fact_3 { at + 4 * channels ≤ length out.old }
    ensures { out.new ≡ sets out.old at (bytes_of (frame_at channels stride samples.now place)) }
{
    let mut to = at;
    for channel in 0..channels {
        to = little_endian::put_sample(samples[channel * stride + place], out, to);
    }
}

fn put_all(samples: &[f32], channels: usize, each: usize, stride: usize, out: &mut [u8])
    requires fact_1 { each ≤ stride }
    requires fact_2 { channels * stride ≤ length samples.now }
    requires fact_3 { 4 * (channels * each) ≤ length out.old }
    ensures { out.new ≡ sets out.old 0 (bytes_of (frames_from channels each stride samples.now 0)) }
{
    let mut at: usize = 0;
    for place in 0..each {
        put_frame(samples, channels, stride, place, out, at);
        at += 4 * channels;
    }
}

// Puts the first `each` samples of every channel, interleaved, at the front of `out`, and answers how many bytes they take: none where `out` is too short, or where a channel is not all there.
pub fn put_frames(
    samples: &[f32],
    channels: usize,
    each: usize,
    stride: usize,
    out: &mut [u8],
) -> usize
    ensures count { result ≡ put_length (data_bytes channels each stride samples.now) out.old }
    ensures lent { out.new ≡ put (data_bytes channels each stride samples.now) out.old }
{
    if each == 0 {
        return 0;
    }
    if stride < each {
        return 0;
    }
    if samples.len() / stride < channels {
        return 0;
    }
    if out.len() / 4 / each < channels {
        return 0;
    }
    put_all(samples, channels, each, stride, out);
    4 * (channels * each)
}

// The greatest magnitude of a run's samples and of what was found before.
pub fn loudest(run: &[f32], before: u32) -> u32
    ensures { result ≡ max before (greatest (map magnitude run.now)) }
{
    let mut most = before;
    for sample in run {
        most = most.max(float_bits::f32_to_bits(*sample) % 0x8000_0000);
    }
    most
}
