// Numbers for enums, and enums for numbers.
ghost use Rattle.std.specs.Prelude.{◌≡◌};
ghost use Rattle.memory.specs.Memory.{source_in};
ghost use Rattle.chakaqel.specs.Entries.{known, curve_of, mode_of, order_of, unknown_mode, unknown_mark, unknown_voice, code_of, told_by, places_by};

use event::{Fade, MixOrder, ReplayMode, Source};
use sequencer::Answer;

// A curve (0 power, 1 smooth) and a source (0 held, 1 ramp, 2 clip), where both numbers are known.
pub(crate) fn voice_of(
    curve: u32,
    source: u32,
    a: f32,
    b: f32,
    offset: u32,
    length: u32,
) -> Option<(Fade, Source)>
    ensures { result ≡ known (unknown_voice curve source) (curve_of curve, source_in source a b offset length) }
{
    let fade_ease = match curve {
        0 => Fade::Power,
        1 => Fade::Smooth,
        _ => return None,
    };
    let source = match source {
        0 => Source::Held(a),
        1 => Source::Ramp(a, b),
        2 => Source::Clip(offset, length),
        _ => return None,
    };
    Some((fade_ease, source))
}

pub(crate) fn mode_of(mode: u32) -> Option<ReplayMode>
    ensures { result ≡ known (unknown_mode mode) (mode_of mode) }
{
    match mode {
        0 => Some(ReplayMode::All),
        1 => Some(ReplayMode::None),
        _ => None,
    }
}

pub(crate) fn order_of(mark: u32) -> Option<MixOrder>
    ensures { result ≡ known (unknown_mark mark) (order_of mark) }
{
    match mark {
        0 => Some(MixOrder::Forward),
        1 => Some(MixOrder::Backward),
        _ => None,
    }
}

// An answer's number: the refusal; 256 past, 257 stored; 0 for every other. (The C interface's numbers; a From cannot stand here: neither type is ours.)
pub(crate) fn code_of(answer: Answer) -> u64
    ensures { result ≡ code_of answer }
{
    match answer {
        Answer::Past => 256,
        Answer::Stored => 257,
        Answer::Refused(n) => n,
        _ => 0,
    }
}

// Puts an accepted push's number and rise; a refused one puts nothing. Answers 0 or the refusal.
pub(crate) fn tell_push(answer: Answer, rise: usize, told: &mut [u64; 2]) -> u64
    ensures code { result ≡ code_of answer }
    ensures told { told.new ≡ told_by answer rise told.old }
{
    if let Answer::Number(id) = answer {
        told[0] = id.0;
        told[1] = rise as u64;
    }
    code_of(answer)
}

// Puts how an accepted block's places were computed; a refused one puts nothing. Answers 0 or the refusal.
pub(crate) fn tell_block(answer: Answer, places: &mut [u64; 3]) -> u64
    ensures code { result ≡ code_of answer }
    ensures places { places.new ≡ places_by answer places.old }
{
    if let Answer::Rendered(p) = answer {
        places[0] = p.kept;
        places[1] = p.forced;
        places[2] = p.edge;
    }
    code_of(answer)
}
