// A record's call carried out on the engine: state in, state out.
#![tactic(auto)]

ghost use Rattle.std.specs.Prelude.{◌≡◌, replicate};
ghost use Rattle.floats.specs.Arithmetic.{zeroᶠ};
ghost use Rattle.event.specs.declared.ReplayMode.TheVariants.{All};
ghost use Rattle.sequencer.specs.Creation.{created};
ghost use Rattle.apply.specs.Applying.{refusal_of, silent_of, sounding_of, ticking, ticking_out, processing, processing_out, push_kind_of, pushed, applied_to, applied_out};

use event::{MixOrder, ReplayMode};
use sequencer::{Answer, Outcome, Sequencer};
use tape::reader::{Call, PushRecord};

// (The refusal is document 01's "refusal or 0", which the record's line prints.)
// The engine after a call, the refusal or 0, and what an accepted tick or block has left in the output: `each` samples of every channel, `stride` places apart.
#[derive(Clone, Copy)]
pub struct Applied {
    pub sequencer: Sequencer,
    pub refusal: u64,
    pub channels: usize,
    pub each: usize,
    pub stride: usize,
}

fn refusal(answer: Answer) -> u64
    ensures { result ≡ refusal_of answer }
{
    match answer {
        Answer::Refused(n) => n,
        Answer::Number(_)
        | Answer::Applied
        | Answer::Past
        | Answer::Stored
        | Answer::Done
        | Answer::Rendered(_) => 0,
    }
}

// A call that has no samples.
fn silent(r: Outcome) -> Applied
    ensures { result ≡ silent_of r }
{
    let answer = r.answer;
    let n = refusal(answer);
    let sequencer = r.sequencer;
    Applied {
        sequencer,
        refusal: n,
        channels: 0,
        each: 0,
        stride: 0,
    }
}

fn sounding(r: Outcome, channels: usize, each: usize, stride: usize) -> Applied
    ensures { result ≡ sounding_of r channels each stride }
{
    let answer = r.answer;
    let n = refusal(answer);
    let sequencer = r.sequencer;
    if n != 0 {
        return Applied {
            sequencer,
            refusal: n,
            channels: 0,
            each: 0,
            stride: 0,
        };
    }
    Applied {
        sequencer,
        refusal: 0,
        channels,
        each,
        stride,
    }
}

fn tick(s: Sequencer, pool: &[f32], out: &mut [f32]) -> Applied
    ensures value { result ≡ ticking pool.now s out.old }
    ensures out_after { out.new ≡ ticking_out pool.now s out.old }
{
    let channels = s.outputs.min(8);
    let n = channels.min(out.len());
    let r = s.tick(MixOrder::Forward, pool, &mut out[..n]);
    sounding(r, channels, 1, 1)
}

fn process(s: Sequencer, size: usize, pool: &[f32], out: &mut [f32]) -> Applied
    ensures value { result ≡ processing pool.now size s out.old }
    ensures out_after { out.new ≡ processing_out pool.now size s out.old }
{
    let channels = s.outputs.min(8);
    let n = (64 * channels).min(out.len());
    let r = s.process(MixOrder::Forward, size, pool, &mut out[..n]);
    sounding(r, channels, size, 64)
}

// An engine to start from: a tape's first record replaces it.
pub fn start() -> Sequencer
    ensures { result ≡ (created 1 All 1).sequencer }
{
    let made = Sequencer::new(1, ReplayMode::All, 1);
    made.sequencer
}

// An output with room for a block of 8 channels.
pub fn silence() -> [f32; 512]
    ensures { result ≡ replicate 512 zeroᶠ }
{
    [0.0; 512]
}

// The push of a record of kind 1, 2 or 3: document 01's bytes.
pub fn push(s: Sequencer, kind: u8, p: PushRecord) -> Outcome
    ensures { result ≡ pushed (push_kind_of kind) s p }
{
    let start = p.start_time;
    let end = p.end_time;
    let ease = p.fade_ease;
    let fade_in = p.fade_in;
    let fade_out = p.fade_out;
    let source = p.source;
    let gain = p.gain;
    match kind {
        1 => s
            .push(start, end, ease, fade_in, fade_out, source, gain)
            .outcome(),
        2 => s
            .push_relative(start, end, ease, fade_in, fade_out, source, gain)
            .outcome(),
        _ => s
            .push_duration(start, end, ease, fade_in, fade_out, source, gain)
            .outcome(),
    }
}

// The samples of a tick or block go to the front of `out`, which has room for 64 of 8 channels.
pub fn apply(s: Sequencer, call: Call, pool: &[f32], out: &mut [f32]) -> Applied
    ensures value { result ≡ applied_to pool.now s call out.old }
    ensures out_after { out.new ≡ applied_out pool.now s call out.old }
{
    match call {
        Call::Create {
            channels,
            mode,
            first,
        } => silent(Sequencer::new(channels as usize, mode, first)),
        Call::Push(p) => silent(push(s, 1, p)),
        Call::PushRelative(p) => silent(push(s, 2, p)),
        Call::PushDuration(p) => silent(push(s, 3, p)),
        Call::Edit(p) => {
            let id = p.id;
            silent(s.edit(id, p.end_time, p.fade_out))
        }
        Call::EditRelative(p) => {
            let id = p.id;
            silent(s.edit_relative(id, p.end_time, p.fade_out))
        }
        Call::Tick => tick(s, pool, out),
        Call::Process(n) => process(s, n as usize, pool, out),
        Call::Reset => Applied {
            sequencer: s.reset(),
            refusal: 0,
            channels: 0,
            each: 0,
            stride: 0,
        },
        Call::SetSampleRate(rate) => silent(s.set_sample_rate(rate)),
    }
}
