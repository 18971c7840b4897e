// A record's lines, written out: what they are is told by the contracts of crate `listing`.
ghost use Rattle.std.specs.Prelude.{◌≡◌, false};
ghost use Rattle.std.specs.Result.{IfOk};

use sequencer::Counts;
use std::io;
use std::io::Write;
use tape::reader::Read;

// What an accepted tick or block has left in the output: `each` samples of every channel, `stride` places apart.
#[derive(Clone, Copy)]
pub(crate) struct Sound {
    pub channels: usize,
    pub each: usize,
    pub stride: usize,
}

pub(crate) fn list_counts<W: Write>(
    out: &mut W,
    kind: u8,
    refusal: u64,
    counts: Counts,
) -> io::Result<()> {
    let mut text = [0u8; 128];
    let n = listing::counts_line(
        kind,
        refusal,
        counts.waiting as u64,
        counts.sounding as u64,
        counts.finished as u64,
        counts.let_go,
        &mut text,
    );
    out.write_all(&text[..n.min(128)])
}

// A line for each channel.
fn list_samples<W: Write>(out: &mut W, samples: &[f32], sound: Sound) -> io::Result<()> {
    let mut text = [0u8; 576];
    let mut from = 0;
    for _ in 0..sound.channels {
        if samples.len() <= from {
            return Ok(());
        }
        let left = samples.len() - from;
        if left < sound.each || left < sound.stride {
            return Ok(());
        }
        let n = listing::samples_line(&samples[from..from + sound.each], &mut text);
        out.write_all(&text[..n.min(576)])?;
        from += sound.stride;
    }
    Ok(())
}

// Lists a record that was carried out or refused; false where the listing ends, at refusal 1.
pub(crate) fn list<W: Write>(
    out: &mut W,
    kind: u8,
    refusal: u64,
    counts: Counts,
    samples: &[f32],
    sound: Option<Sound>,
) -> io::Result<bool>
    ensures { refusal ≡ 1 → IfOk result (λ more. more ≡ false) }
{
    list_counts(out, kind, refusal, counts)?;
    if refusal == 1 {
        return Ok(false);
    }
    if let Some(sound) = sound {
        list_samples(out, samples, sound)?;
    }
    Ok(true)
}

// The line of a record that 14 or 15 refuses.
pub(crate) fn stop<W: Write>(out: &mut W, r: Read, counts: Counts) -> io::Result<()> {
    if let Read::Refused { kind, number } = r {
        list_counts(out, kind, number as u64, counts)?;
    }
    Ok(())
}
