// A call that was read, as arguments: what it does not take is 0.
ghost use Rattle.std.specs.Prelude.{◌≡◌};
ghost use Rattle.event.specs.Numbers.{mode_number, curve_number, source_number};
ghost use Rattle.tape_writer.specs.Claim.{value_of, step_of, offset_of, length_of, push_arguments, edit_arguments, other_arguments, arguments_of};

use crate::Arguments;
use event::{EventId, Fade, ReplayMode, Source};
use tape::reader::{Call, EditRecord, PushRecord};

// This and `curve_number` are no From: the enums are crate event's, where an impl would have to stand.
fn mode_number(mode: ReplayMode) -> u64
    ensures { result ≡ mode_number mode }
{
    match mode {
        ReplayMode::All => 0,
        ReplayMode::None => 1,
    }
}

fn curve_number(curve: Fade) -> u64
    ensures { result ≡ curve_number curve }
{
    match curve {
        Fade::Power => 0,
        Fade::Smooth => 1,
    }
}

// A source's number, and the arguments that it takes.
#[derive(Clone, Copy)]
struct SourceArguments {
    source: u64,
    value: f32,
    step: f32,
    offset: u32,
    length: u32,
}

fn source_arguments(source: Source) -> SourceArguments
    ensures { result ≡ record { source = source_number source; value = value_of source; step = step_of source; offset = offset_of source; length = length_of source } }
{
    match source {
        Source::Held(level) => SourceArguments {
            source: 0,
            value: level,
            step: 0.0,
            offset: 0,
            length: 0,
        },
        Source::Ramp(value, step) => SourceArguments {
            source: 1,
            value,
            step,
            offset: 0,
            length: 0,
        },
        Source::Clip(offset, length) => SourceArguments {
            source: 2,
            value: 0.0,
            step: 0.0,
            offset,
            length,
        },
    }
}

fn push_arguments(kind: u64, p: PushRecord) -> Arguments
    ensures { result ≡ push_arguments kind p }
{
    let source = p.source;
    let curve = p.fade_ease;
    let s = source_arguments(source);
    let c = curve_number(curve);
    Arguments {
        kind,
        channels: 0,
        mode: 0,
        number: 0,
        start_time: p.start_time,
        end_time: p.end_time,
        fade_in: p.fade_in,
        fade_out: p.fade_out,
        curve: c,
        source: s.source,
        value: s.value,
        step: s.step,
        offset: s.offset,
        length: s.length,
        gain: p.gain,
        size: 0,
        sample_rate: 0.0,
    }
}

fn edit_arguments(kind: u64, e: EditRecord) -> Arguments
    ensures { result ≡ edit_arguments kind e }
{
    let id = e.id;
    Arguments {
        kind,
        channels: 0,
        mode: 0,
        number: id.0,
        start_time: 0.0,
        end_time: e.end_time,
        fade_in: 0.0,
        fade_out: e.fade_out,
        curve: 0,
        source: 0,
        value: 0.0,
        step: 0.0,
        offset: 0,
        length: 0,
        gain: 0.0,
        size: 0,
        sample_rate: 0.0,
    }
}

fn other_arguments(
    kind: u64,
    channels: u64,
    mode: u64,
    number: u64,
    size: u64,
    rate: f64,
) -> Arguments
    ensures { result ≡ other_arguments kind channels mode number size rate }
{
    Arguments {
        kind,
        channels,
        mode,
        number,
        start_time: 0.0,
        end_time: 0.0,
        fade_in: 0.0,
        fade_out: 0.0,
        curve: 0,
        source: 0,
        value: 0.0,
        step: 0.0,
        offset: 0,
        length: 0,
        gain: 0.0,
        size,
        sample_rate: rate,
    }
}

// The arguments by which a record of that kind and call is written.
pub fn arguments_of(kind: u8, call: Call) -> Arguments
    ensures { result ≡ arguments_of kind call }
{
    let k = kind as u64;
    match call {
        Call::Create {
            channels,
            mode,
            first,
        } => other_arguments(k, channels as u64, mode_number(mode), first, 0, 0.0),
        Call::Push(p) => push_arguments(k, p),
        Call::PushRelative(p) => push_arguments(k, p),
        Call::PushDuration(p) => push_arguments(k, p),
        Call::Edit(e) => edit_arguments(k, e),
        Call::EditRelative(e) => edit_arguments(k, e),
        Call::Tick => other_arguments(k, 0, 0, 0, 0, 0.0),
        Call::Process(size) => other_arguments(k, 0, 0, 0, size as u64, 0.0),
        Call::Reset => other_arguments(k, 0, 0, 0, 0, 0.0),
        Call::SetSampleRate(rate) => other_arguments(k, 0, 0, 0, 0, rate),
    }
}
