// A tape's records on the engine that four lent arrays hold (crate `live`), one call a record.
#![tactic(auto)]

ghost use Rattle.std.specs.Prelude.{◌≡◌, ◌++◌, length, drop, replicate};
ghost use Rattle.floats.specs.Arithmetic.{zeroᶠ};
ghost use Rattle.apply.specs.Applying.{applied_to, applied_out};
ghost use Rattle.memory.specs.Memory.{before, after, engine_of};
ghost use Rattle.event.specs.declared.ReplayMode.TheVariants.{All};
ghost use Rattle.sequencer.specs.Creation.{created};
ghost use Rattle.player.specs.Records.{answer_of, played};
ghost use Rattle.player.specs.Lent.{ran_on};
ghost use Rattle.player.specs.Carrying.{stopped_at, Puts};

mod room;

use event::ReplayMode;
use live_apply::carry_out;
use memory::{Levels, Marks, Numbers, Times};
use record_output::{Form, Pause};
use room::room_for;
use tape::reader::{Call, Cursor, Read};

// The cursor before the next record, how many bytes of the output are in use, and what stopped it.
#[derive(Clone, Copy)]
pub struct Played {
    pub cursor: Cursor,
    pub used: usize,
    pub pause: Pause,
}

// A record's refusal or 0, and how many bytes of the output are in use after it.
// (The number is what its line prints; both are there in either case, since a refused record puts its line too.)
#[derive(Clone, Copy)]
struct Done {
    refusal: u64,
    used: usize,
}

// Carries a record out, and puts what it leaves into the output, from `at` on.
fn perform(
    times: &mut Times,
    levels: &mut Levels,
    marks: &mut Marks,
    numbers: &mut Numbers,
    kind: u8,
    call: Call,
    pool: &[f32],
    samples: &mut [f32],
    form: Form,
    out: &mut [u8],
    at: usize,
) -> Done
    ensures engine { engine_of (after times.new levels.new marks.new numbers.new)
        ≡ (applied_to pool.now (engine_of (before times.old levels.old marks.old numbers.old)) call samples.old).sequencer }
    ensures samples { samples.new ≡ applied_out pool.now (engine_of (before times.old levels.old marks.old numbers.old)) call samples.old }
    ensures refusal { result.refusal ≡ (applied_to pool.now (engine_of (before times.old levels.old marks.old numbers.old)) call samples.old).refusal }
    ensures out { Puts form kind pool.now (engine_of (before times.old levels.old marks.old numbers.old)) call samples.old
        out.old at out.new result.used }
{
    let left = carry_out(times, levels, marks, numbers, kind, call, pool, samples);
    let counts = live::counts(times, levels, marks, numbers);
    let used = record_output::leave(form, left, counts, samples, out, at);
    Done {
        refusal: left.refusal,
        used,
    }
}

// The answer of a run that stops there.
fn stopped(cursor: Cursor, used: usize, pause: Pause) -> Played
    ensures { result ≡ stopped_at cursor used pause }
{
    Played {
        cursor,
        used,
        pause,
    }
}

// Plays records on one engine, in place, until the tape ends, a record is refused by 1, 14 or 15, no room is left for the next one, or,
// of a tape that goes on, fewer bytes are left than a record may need.
pub fn run(
    times: &mut Times,
    levels: &mut Levels,
    marks: &mut Marks,
    numbers: &mut Numbers,
    cursor: Cursor,
    tape: &[u8],
    whole: bool,
    pool: &[f32],
    form: Form,
    out: &mut [u8],
) -> Played
    ensures engine { engine_of (after times.new levels.new marks.new numbers.new)
        ≡ (ran_on (before times.old levels.old marks.old numbers.old) cursor tape.now whole pool.now form out.old).sequencer }
    ensures answer { result ≡ answer_of (ran_on (before times.old levels.old marks.old numbers.old) cursor tape.now whole pool.now form out.old) }
    ensures lent { out.new
        ≡ (ran_on (before times.old levels.old marks.old numbers.old) cursor tape.now whole pool.now form out.old).written ++ drop result.used out.old }
{
    let mut cursor = cursor;
    let mut samples = apply::silence();
    let mut at: usize = 0;
    loop {
        if record_output::is_short(whole, tape.len(), cursor.at) {
            return stopped(cursor, at, Pause::Short);
        }
        let r = cursor.read(tape);
        let Read::Record { kind, call, next } = r else {
            let counts = live::counts(times, levels, marks, numbers);
            let stop = record_output::unread(form, r, counts, out, at);
            let pause = stop.pause;
            return stopped(cursor, stop.used, pause);
        };
        if out.len() - at < room_for(times, levels, marks, numbers, form, call) {
            return stopped(cursor, at, Pause::Full);
        }
        let done = perform(
            times,
            levels,
            marks,
            numbers,
            kind,
            call,
            pool,
            &mut samples,
            form,
            out,
            at,
        );
        at = done.used;
        cursor = next;
        if done.refusal == 1 {
            return stopped(cursor, at, Pause::Refused(1));
        }
    }
}

// An engine's times, all 0: memory for `start`.
pub fn blank_times() -> Times
    ensures { result ≡ replicate 3588 zeroᶠ }
{
    [0.0; 3588]
}

// An engine's levels, all 0.
pub fn blank_levels() -> Levels
    ensures { result ≡ replicate 3072 zeroᶠ }
{
    [0.0; 3072]
}

// An engine's marks, all 0.
pub fn blank_marks() -> Marks
    ensures { result ≡ replicate 3072 0 }
{
    [0; 3072]
}

// An engine's numbers, all 0.
pub fn blank_numbers() -> Numbers
    ensures { result ≡ replicate 1288 0 }
{
    [0; 1288]
}

// Makes the engine that a tape begins with: of one channel, mode All, first number 1. The tape's first record, 00, replaces it.
pub fn start(times: &mut Times, levels: &mut Levels, marks: &mut Marks, numbers: &mut Numbers)
    ensures { engine_of (after times.new levels.new marks.new numbers.new) ≡ (created 1 All 1).sequencer }
{
    live::create(times, levels, marks, numbers, 1, ReplayMode::All, 1);
}

// Writes the samples of a tape's ticks and blocks to the front of `out` and returns how many bytes they take.
pub fn play(tape: &[u8], pool: &[f32], out: &mut [u8]) -> usize
    ensures value { result ≡ length (played pool.now tape.now (length out.old)) }
    ensures out_after { out.new ≡ played pool.now tape.now (length out.old) ++ drop result out.old }
{
    let mut times = blank_times();
    let mut levels = blank_levels();
    let mut marks = blank_marks();
    let mut numbers = blank_numbers();
    start(&mut times, &mut levels, &mut marks, &mut numbers);
    let cursor = Cursor { at: 0, first: true };
    let p = run(
        &mut times,
        &mut levels,
        &mut marks,
        &mut numbers,
        cursor,
        tape,
        true,
        pool,
        Form::Bytes,
        out,
    );
    p.used
}
