// Pushes. All times are in seconds.
ghost use Rattle.std.specs.Prelude.{◌≡◌, ◌+◌, min, slice_index};
ghost use Rattle.event.specs.Events.{new_event};
ghost use Rattle.ledger.specs.Calls.{absolute, relative, by_duration};
ghost use Rattle.refusals.specs.Numbers.{refusal_number};
ghost use Rattle.refusals.specs.Refusals.{push_refusal};
ghost use Rattle.sequencer.specs.Pushes.{pushes_to};
ghost use Rattle.sequencer.specs.Rises.{rise_to, pushes_told};
ghost use Rattle.memory.specs.Memory.{before, after, engine_of};
ghost use Rattle.live.specs.CallContracts.{Refuses, timed, stated};

use event::{Event, EventId, Fade, Source};
use list_moves::push_event;
use memory::{CLOCK, FINISHED, Levels, Marks, NEXT, Numbers, SOUNDING, Times, WAITING, sized};
use refusals::{Refusal, held, push_refusal};
use sequencer::Answer;

// What a push answers: the event's number or the refusal, and how many levels the event rose in the heap (document 02, Paper 13):
// 0 where it was refused or went straight to the sounding list.
#[derive(Clone, Copy)]
pub struct Pushed {
    pub answer: Answer,
    pub rise: usize,
}

// How a push states its times: start and end; both relative to the clock; or start and duration.
#[derive(Clone, Copy, PartialEq, Eq)]
pub enum Timing {
    Absolute,
    Relative,
    Duration,
}

// A push's times: start and end (or duration) as given, how long it lasts, and from when until when its event is to last.
#[derive(Clone, Copy)]
struct Stated {
    start: f64,
    end: f64,
    lasts: f64,
    from: f64,
    until: f64,
}

impl Stated {
    // Of the times as given; `clock` is added after the checks, where the times are relative to it.
    fn new(timing: Timing, start: f64, end: f64, clock: f64) -> Stated
        ensures { result ≡ stated (timed timing) start end clock }
    {
        match timing {
            Timing::Absolute => Stated {
                start,
                end,
                lasts: end - start,
                from: start,
                until: end,
            },
            Timing::Relative => Stated {
                start,
                end,
                lasts: end - start,
                from: start + clock,
                until: end + clock,
            },
            Timing::Duration => Stated {
                start,
                end,
                lasts: start + end - start,
                from: start,
                until: start + end,
            },
        }
    }
}

// What a push gives besides.
#[derive(Clone, Copy)]
struct Voice {
    fade_ease: Fade,
    fade_in: f64,
    fade_out: f64,
    source: Source,
    gain: f32,
}

// The first refusal that applies.
fn refusal_of(numbers: &Numbers, stated: Stated, voice: Voice) -> Option<Refusal>
    ensures { refusal_number result ≡ push_refusal stated.start stated.end stated.lasts voice.fade_in voice.fade_out voice.source voice.gain
        (min (slice_index numbers.now 1280 + (slice_index numbers.now 1281 + slice_index numbers.now 1282)) 256)
        (slice_index numbers.now 1286) }
{
    let waiting = numbers[WAITING] as usize;
    let sounding = numbers[SOUNDING] as usize;
    let finished = numbers[FINISHED] as usize;
    let n = held(waiting, sounding, finished);
    push_refusal(
        stated.start,
        stated.end,
        stated.lasts,
        voice.fade_in,
        voice.fade_out,
        voice.source,
        voice.gain,
        n,
        numbers[NEXT],
    )
}

fn new_event(stated: Stated, voice: Voice, id: EventId) -> Event
    ensures { result ≡ new_event stated.from stated.until voice.fade_in voice.fade_out voice.fade_ease voice.source
        voice.gain id.0 }
{
    Event::new(
        stated.from,
        stated.until,
        voice.fade_in,
        voice.fade_out,
        voice.fade_ease,
        voice.source,
        voice.gain,
        id,
    )
}

// A push of any kind: where no check refuses it its event takes the next number.
fn push_to(
    times: &mut Times,
    levels: &mut Levels,
    marks: &mut Marks,
    numbers: &mut Numbers,
    stated: Stated,
    voice: Voice,
) -> Pushed
    ensures engine { engine_of (after times.new levels.new marks.new numbers.new)
        ≡ (pushes_to (engine_of (before times.old levels.old marks.old numbers.old)) stated.start stated.end stated.lasts stated.from stated.until
        voice.fade_ease voice.fade_in voice.fade_out voice.source voice.gain).sequencer }
    ensures answer { result.answer
        ≡ (pushes_to (engine_of (before times.old levels.old marks.old numbers.old)) stated.start stated.end stated.lasts stated.from stated.until
        voice.fade_ease voice.fade_in voice.fade_out voice.source voice.gain).answer }
    ensures rise { result.rise
        ≡ rise_to (engine_of (before times.old levels.old marks.old numbers.old)) stated.start stated.end stated.lasts stated.from stated.until
        voice.fade_ease voice.fade_in voice.fade_out voice.source voice.gain }
    ensures refused { Refuses result.answer → after times.new levels.new marks.new numbers.new ≡ before times.old levels.old marks.old numbers.old }
{
    if let Some(refusal) = refusal_of(numbers, stated, voice) {
        return Pushed {
            answer: Answer::Refused(refusal.number()),
            rise: 0,
        };
    }
    let next = numbers[NEXT];
    let id = EventId(next);
    let event = new_event(stated, voice, id);
    let rise = push_event(times, levels, marks, numbers, event);
    sized(times, levels, marks, numbers);
    numbers[NEXT] = next.wrapping_add(1);
    Pushed {
        answer: Answer::Number(id),
        rise,
    }
}

// Schedules an event whose times are stated in one of the three ways; `end_time` is the duration where that is stated.
// Answers its number, or the first refusal of 3, 4, 5, 18, 6, 7.
pub fn push_timed(
    times: &mut Times,
    levels: &mut Levels,
    marks: &mut Marks,
    numbers: &mut Numbers,
    timing: Timing,
    start_time: f64,
    end_time: f64,
    fade_ease: Fade,
    fade_in: f64,
    fade_out: f64,
    source: Source,
    gain: f32,
) -> Pushed
    ensures engine { engine_of (after times.new levels.new marks.new numbers.new) ≡ (pushes_told (timed timing) (engine_of (before times.old levels.old marks.old numbers.old))
        start_time end_time fade_ease fade_in fade_out source gain).sequencer }
    ensures answer { result.answer ≡ (pushes_told (timed timing) (engine_of (before times.old levels.old marks.old numbers.old))
        start_time end_time fade_ease fade_in fade_out source gain).answer }
    ensures rise { result.rise ≡ (pushes_told (timed timing) (engine_of (before times.old levels.old marks.old numbers.old))
        start_time end_time fade_ease fade_in fade_out source gain).rise }
    ensures refused { Refuses result.answer → after times.new levels.new marks.new numbers.new ≡ before times.old levels.old marks.old numbers.old }
{
    let stated = Stated::new(timing, start_time, end_time, times[CLOCK]);
    let voice = Voice {
        fade_ease,
        fade_in,
        fade_out,
        source,
        gain,
    };
    push_to(times, levels, marks, numbers, stated, voice)
}

// Schedules an event from `start_time` to `end_time`, in seconds on the engine's clock. Answers its number, or the first refusal of 3, 4, 5, 18, 6, 7.
pub fn push(
    times: &mut Times,
    levels: &mut Levels,
    marks: &mut Marks,
    numbers: &mut Numbers,
    start_time: f64,
    end_time: f64,
    fade_ease: Fade,
    fade_in: f64,
    fade_out: f64,
    source: Source,
    gain: f32,
) -> Pushed
    ensures engine { engine_of (after times.new levels.new marks.new numbers.new) ≡ (pushes_told absolute (engine_of (before times.old levels.old marks.old numbers.old))
        start_time end_time fade_ease fade_in fade_out source gain).sequencer }
    ensures answer { result.answer ≡ (pushes_told absolute (engine_of (before times.old levels.old marks.old numbers.old))
        start_time end_time fade_ease fade_in fade_out source gain).answer }
    ensures rise { result.rise ≡ (pushes_told absolute (engine_of (before times.old levels.old marks.old numbers.old))
        start_time end_time fade_ease fade_in fade_out source gain).rise }
    ensures refused { Refuses result.answer → after times.new levels.new marks.new numbers.new ≡ before times.old levels.old marks.old numbers.old }
{
    push_timed(
        times,
        levels,
        marks,
        numbers,
        Timing::Absolute,
        start_time,
        end_time,
        fade_ease,
        fade_in,
        fade_out,
        source,
        gain,
    )
}

// The same; start and end are relative to the clock, which is added after the checks.
pub fn push_relative(
    times: &mut Times,
    levels: &mut Levels,
    marks: &mut Marks,
    numbers: &mut Numbers,
    start_time: f64,
    end_time: f64,
    fade_ease: Fade,
    fade_in: f64,
    fade_out: f64,
    source: Source,
    gain: f32,
) -> Pushed
    ensures engine { engine_of (after times.new levels.new marks.new numbers.new) ≡ (pushes_told relative (engine_of (before times.old levels.old marks.old numbers.old))
        start_time end_time fade_ease fade_in fade_out source gain).sequencer }
    ensures answer { result.answer ≡ (pushes_told relative (engine_of (before times.old levels.old marks.old numbers.old))
        start_time end_time fade_ease fade_in fade_out source gain).answer }
    ensures rise { result.rise ≡ (pushes_told relative (engine_of (before times.old levels.old marks.old numbers.old))
        start_time end_time fade_ease fade_in fade_out source gain).rise }
    ensures refused { Refuses result.answer → after times.new levels.new marks.new numbers.new ≡ before times.old levels.old marks.old numbers.old }
{
    push_timed(
        times,
        levels,
        marks,
        numbers,
        Timing::Relative,
        start_time,
        end_time,
        fade_ease,
        fade_in,
        fade_out,
        source,
        gain,
    )
}

// The same; the event ends at `start_time + duration`.
pub fn push_duration(
    times: &mut Times,
    levels: &mut Levels,
    marks: &mut Marks,
    numbers: &mut Numbers,
    start_time: f64,
    duration: f64,
    fade_ease: Fade,
    fade_in: f64,
    fade_out: f64,
    source: Source,
    gain: f32,
) -> Pushed
    ensures engine { engine_of (after times.new levels.new marks.new numbers.new) ≡ (pushes_told by_duration (engine_of (before times.old levels.old marks.old numbers.old))
        start_time duration fade_ease fade_in fade_out source gain).sequencer }
    ensures answer { result.answer ≡ (pushes_told by_duration (engine_of (before times.old levels.old marks.old numbers.old))
        start_time duration fade_ease fade_in fade_out source gain).answer }
    ensures rise { result.rise ≡ (pushes_told by_duration (engine_of (before times.old levels.old marks.old numbers.old))
        start_time duration fade_ease fade_in fade_out source gain).rise }
    ensures refused { Refuses result.answer → after times.new levels.new marks.new numbers.new ≡ before times.old levels.old marks.old numbers.old }
{
    push_timed(
        times,
        levels,
        marks,
        numbers,
        Timing::Duration,
        start_time,
        duration,
        fade_ease,
        fade_in,
        fade_out,
        source,
        gain,
    )
}
