// A record's call carried out on the engine that four lent arrays hold (crate `live`): what crate `apply` is for the plain engine.
#![tactic(auto)]

ghost use Rattle.std.specs.Prelude.{◌≡◌};
ghost use Rattle.ledger.specs.Calls.{absolute_end, relative_end};
ghost use Rattle.sequencer.specs.Edits.{edits};
ghost use Rattle.memory.specs.Memory.{before, after, engine_of};
ghost use Rattle.apply.specs.Applying.{refusal_of, ticking, ticking_out, processing, processing_out, pushed, applied_to, applied_out};
ghost use Rattle.live.specs.CallContracts.{timed};
ghost use Rattle.live_apply.specs.Leaving.{answered_left, sound_left, left_of};

use event::MixOrder;
use live::Timing;
use memory::{CHANNELS, Levels, Marks, Numbers, Times};
use record_output::Left;
use sequencer::Answer;
use tape::reader::{Call, EditRecord, PushRecord};

// The refusal that an answer reports, or 0.
pub fn refusal(answer: Answer) -> u64
    ensures { result ≡ refusal_of answer }
{
    match answer {
        Answer::Refused(n) => n,
        _ => 0,
    }
}

// A record of that kind without samples, answered so.
fn silent(kind: u8, answer: Answer) -> Left
    ensures { result ≡ answered_left kind (refusal_of answer) }
{
    Left {
        any: true,
        kind,
        refusal: refusal(answer),
        channels: 0,
        each: 0,
    }
}

// A tick or block, answered so: where it is not refused, each channel has this many samples.
fn sounding(kind: u8, answer: Answer, channels: usize, each: usize) -> Left
    ensures { result ≡ sound_left kind (refusal_of answer) channels each }
{
    let left = silent(kind, answer);
    if left.refusal != 0 {
        return left;
    }
    Left {
        channels,
        each,
        ..left
    }
}

// A tick: one sample a channel, at the front of `samples`.
fn tick(
    times: &mut Times,
    levels: &mut Levels,
    marks: &mut Marks,
    numbers: &mut Numbers,
    kind: u8,
    pool: &[f32],
    samples: &mut [f32],
) -> Left
    ensures engine { engine_of (after times.new levels.new marks.new numbers.new)
        ≡ (ticking pool.now (engine_of (before times.old levels.old marks.old numbers.old)) samples.old).sequencer }
    ensures answer { result ≡ left_of kind (ticking pool.now (engine_of (before times.old levels.old marks.old numbers.old)) samples.old) }
    ensures samples { samples.new ≡ ticking_out pool.now (engine_of (before times.old levels.old marks.old numbers.old)) samples.old }
{
    let channels = (numbers[CHANNELS] as usize).min(8);
    let n = channels.min(samples.len());
    let answer = live::tick(
        times,
        levels,
        marks,
        numbers,
        MixOrder::Forward,
        pool,
        &mut samples[..n],
    );
    sounding(kind, answer, channels, 1)
}

// A block of `size` samples: 64 places a channel, at the front of `samples`.
fn process(
    times: &mut Times,
    levels: &mut Levels,
    marks: &mut Marks,
    numbers: &mut Numbers,
    kind: u8,
    size: u8,
    pool: &[f32],
    samples: &mut [f32],
) -> Left
    ensures engine { engine_of (after times.new levels.new marks.new numbers.new)
        ≡ (processing pool.now size (engine_of (before times.old levels.old marks.old numbers.old)) samples.old).sequencer }
    ensures answer { result ≡ left_of kind (processing pool.now size (engine_of (before times.old levels.old marks.old numbers.old)) samples.old) }
    ensures samples { samples.new
        ≡ processing_out pool.now size (engine_of (before times.old levels.old marks.old numbers.old)) samples.old }
{
    let channels = (numbers[CHANNELS] as usize).min(8);
    let n = (64 * channels).min(samples.len());
    let each = size as usize;
    let answer = live::process(
        times,
        levels,
        marks,
        numbers,
        MixOrder::Forward,
        each,
        pool,
        &mut samples[..n],
    );
    sounding(kind, answer, channels, each)
}

// A record of kind 1, 2 or 3: a push that states its times in that way.
pub fn push(
    times: &mut Times,
    levels: &mut Levels,
    marks: &mut Marks,
    numbers: &mut Numbers,
    timing: Timing,
    p: PushRecord,
) -> Answer
    ensures engine { engine_of (after times.new levels.new marks.new numbers.new)
        ≡ (pushed (timed timing) (engine_of (before times.old levels.old marks.old numbers.old)) p).sequencer }
    ensures answer { result ≡ (pushed (timed timing) (engine_of (before times.old levels.old marks.old numbers.old)) p).answer }
{
    let pushed = live::push_timed(
        times,
        levels,
        marks,
        numbers,
        timing,
        p.start_time,
        p.end_time,
        p.fade_ease,
        p.fade_in,
        p.fade_out,
        p.source,
        p.gain,
    );
    pushed.answer
}

// A record of kind 4: an edit with its end on the clock.
pub fn edit(
    times: &mut Times,
    levels: &Levels,
    marks: &Marks,
    numbers: &mut Numbers,
    p: EditRecord,
) -> Answer
    ensures engine { engine_of (after times.new levels.now marks.now numbers.new)
        ≡ (edits absolute_end (engine_of (before times.old levels.now marks.now numbers.old)) p.id p.end_time p.fade_out).sequencer }
    ensures answer { result ≡ (edits absolute_end (engine_of (before times.old levels.now marks.now numbers.old)) p.id p.end_time p.fade_out).answer }
{
    live::edit(times, levels, marks, numbers, p.id, p.end_time, p.fade_out)
}

// A record of kind 5: the end is relative to the clock.
pub fn edit_relative(
    times: &mut Times,
    levels: &Levels,
    marks: &Marks,
    numbers: &mut Numbers,
    p: EditRecord,
) -> Answer
    ensures engine { engine_of (after times.new levels.now marks.now numbers.new)
        ≡ (edits relative_end (engine_of (before times.old levels.now marks.now numbers.old)) p.id p.end_time p.fade_out).sequencer }
    ensures answer { result ≡ (edits relative_end (engine_of (before times.old levels.now marks.now numbers.old)) p.id p.end_time p.fade_out).answer }
{
    live::edit_relative(times, levels, marks, numbers, p.id, p.end_time, p.fade_out)
}

// A record's call. The samples of a tick or block go to the front of `samples`, which has room for 64 of 8 channels.
pub fn carry_out(
    times: &mut Times,
    levels: &mut Levels,
    marks: &mut Marks,
    numbers: &mut Numbers,
    kind: u8,
    call: Call,
    pool: &[f32],
    samples: &mut [f32],
) -> Left
    ensures engine { engine_of (after times.new levels.new marks.new numbers.new)
        ≡ (applied_to pool.now (engine_of (before times.old levels.old marks.old numbers.old)) call samples.old).sequencer }
    ensures answer { result ≡ left_of kind (applied_to pool.now (engine_of (before times.old levels.old marks.old numbers.old)) call samples.old) }
    ensures samples { samples.new ≡ applied_out pool.now (engine_of (before times.old levels.old marks.old numbers.old)) call samples.old }
{
    match call {
        Call::Create {
            channels,
            mode,
            first,
        } => {
            let n = channels as usize;
            let answer = live::create(times, levels, marks, numbers, n, mode, first);
            silent(kind, answer)
        }
        Call::Push(p) => {
            let answer = push(times, levels, marks, numbers, Timing::Absolute, p);
            silent(kind, answer)
        }
        Call::PushRelative(p) => {
            let answer = push(times, levels, marks, numbers, Timing::Relative, p);
            silent(kind, answer)
        }
        Call::PushDuration(p) => {
            let answer = push(times, levels, marks, numbers, Timing::Duration, p);
            silent(kind, answer)
        }
        Call::Edit(p) => silent(kind, edit(times, levels, marks, numbers, p)),
        Call::EditRelative(p) => silent(kind, edit_relative(times, levels, marks, numbers, p)),
        Call::Tick => tick(times, levels, marks, numbers, kind, pool, samples),
        Call::Process(n) => process(times, levels, marks, numbers, kind, n, pool, samples),
        Call::Reset => {
            live::reset(times, levels, marks, numbers);
            record_output::silent(kind)
        }
        Call::SetSampleRate(rate) => {
            let answer = live::set_sample_rate(times, levels, marks, numbers, rate);
            silent(kind, answer)
        }
    }
}
