// The C entries, `include/render.h`: the calls of crate render, with their clauses.
#![tactic(auto)]

ghost use Rattle.std.specs.Prelude.{◌≡◌, List, ◌++◌, Float, length, drop};
ghost use Rattle.render.specs.Rendering.{rendered_with, rendered};
ghost use Rattle.tape_extent.specs.Extents.{told, extent_of};

// Writes the samples of the tape's ticks and blocks to the front of `out` and returns how many bytes they take.
#[unsafe(no_mangle)]
pub extern "C" fn render(tape: &[u8], out: &mut [u8]) -> usize
    ensures value { result ≡ length (rendered tape.now (length out.old)) }
    ensures out_after { out.new ≡ rendered tape.now (length out.old) ++ drop result out.old }
{
    render::render(tape, out)
}

// The same with clips that read from the pool lent, of any length.
#[unsafe(no_mangle)]
pub extern "C" fn render_with_pool(tape: &[u8], pool: &[f32], out: &mut [u8]) -> usize
    ensures value { result ≡ length (rendered_with pool.now tape.now (length out.old)) }
    ensures out_after { out.new ≡ rendered_with pool.now tape.now (length out.old) ++ drop result out.old }
{
    render::render_with_pool(tape, pool, out)
}

// What the tape comes to, whatever pool its clips read from: with room for so many bytes nothing of it is left out (crate render, proofs/Room).
#[unsafe(no_mangle)]
pub extern "C" fn tape_info(
    tape: &[u8],
    bytes: &mut u64,
    frames: &mut u64,
    channels: &mut u64,
    rate: &mut f64,
    one_rate: &mut bool,
    ended: &mut u64,
)
    ensures { (pool : List Float) → told bytes.new frames.new channels.new rate.new one_rate.new ended.new ≡ extent_of pool tape.now }
{
    render::tape_info(tape, bytes, frames, channels, rate, one_rate, ended);
}
