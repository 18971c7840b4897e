// A tape's samples as bytes, and what they come to. The records are played by crate player and counted by crate tape_extent; crate render_c has the C entries.
#![tactic(auto)]

ghost use Rattle.std.specs.Prelude.{◌≡◌, List, ◌++◌, Float, length, drop};
ghost use Rattle.render.specs.Rendering.{rendered_with, rendered};
ghost use Rattle.tape_extent.specs.Extents.{told, extent_of};

// Writes the samples of the tape's ticks and blocks to the front of `out` and returns how many bytes they take.
pub fn render(tape: &[u8], out: &mut [u8]) -> usize
    ensures value { result ≡ length (rendered tape.now (length out.old)) }
    ensures out_after { out.new ≡ rendered tape.now (length out.old) ++ drop result out.old }
{
    let pool = tape::pool::trail_pool();
    player::play(tape, &pool, out)
}

// The same with clips that read from the pool lent, of any length.
pub fn render_with_pool(tape: &[u8], pool: &[f32], out: &mut [u8]) -> usize
    ensures value { result ≡ length (rendered_with pool.now tape.now (length out.old)) }
    ensures out_after { out.new ≡ rendered_with pool.now tape.now (length out.old) ++ drop result out.old }
{
    player::play(tape, pool, out)
}

// What the tape comes to, whatever pool its clips read from: with room for so many bytes nothing of it is left out (proofs/Room).
pub fn tape_info(
    tape: &[u8],
    bytes: &mut u64,
    frames: &mut u64,
    channels: &mut u64,
    rate: &mut f64,
    one_rate: &mut bool,
    ended: &mut u64,
)
    ensures { (pool : List Float) → told bytes.new frames.new channels.new rate.new one_rate.new ended.new ≡ extent_of pool tape.now }
{
    let x = tape_extent::extent_of(tape);
    *bytes = x.bytes;
    *frames = x.frames;
    *channels = x.channels;
    *rate = x.rate;
    *one_rate = x.one_rate;
    *ended = x.ended;
}
