// Document 02, Paper 4: the clips of a stretch of time, and the first waiting event from a given time on. Both only read the engine that four lent arrays
// hold (crate `memory`), and answer a few words.
#![tactic(auto)]

ghost use Rattle.std.specs.Prelude.{◌≡◌, map, ◌+◌, ◌*◌, ◌<◌, min, length, get_or};
ghost use Rattle.event.specs.Blank.{blank};
ghost use Rattle.ready.specs.Stands.{Stands};
ghost use Rattle.overlap.specs.Refusals.{number_of};
ghost use Rattle.overlap.specs.Stretch.{those, in_stretch, clips_of, written, clips_answer, clips_listed};
ghost use Rattle.ledger.specs.Lists.{numbers as numbers_of};
ghost use Rattle.memory.specs.Memory.{before, engine_of};
ghost use Rattle.overlap.specs.Reading.{held_in, first_read, comes_first};
ghost use Rattle.ready.specs.Sift.{rise, child, sink};
ghost use Rattle.overlap.specs.Keys.{key_of, key_less, no_key};
ghost use Rattle.overlap.specs.Draining.{Drainable, drained};

use event::{Event, EventId};
use memory::{
    ACTIVE, FINISHED, Levels, Marks, Numbers, PAST, READY, ROOM, SOUNDING, Times, WAITING, event_at,
};
use std::cmp::Ordering;

// A stretch, a slice or a time that is not proper.
#[derive(Clone, Copy, PartialEq, Eq)]
pub enum Refusal {
    Improper,
}

impl Refusal {
    // The paper's number.
    pub fn number(self) -> u64
        ensures { result ≡ number_of self }
    {
        17
    }
}

// ---- a heap of keys, of its own: it sorts starts and numbers, and moves no event. Those of ready and list_moves move events, in an engine and in its lent arrays.

// A start and a number.
type Key = (f64, u64);

// Whether a comes before b, by start and then by lower number.
fn is_sooner(a: Key, b: Key) -> bool
    ensures { result ≡ key_less a b }
{
    match floats::total_cmp(a.0, b.0) {
        Ordering::Less => true,
        Ordering::Equal => a.1 < b.1,
        Ordering::Greater => false,
    }
}

// The key goes up from place n, past every one that it precedes.
fn sift_up(keys: &mut [Key], n: usize, key: Key)
    requires { n < length keys.old }
    ensures { keys.new ≡ rise key_less no_key n keys.old n key }
{
    let mut i = n;
    while 0 < i {
        let p = (i - 1) / 2;
        if !is_sooner(key, keys[p]) {
            break;
        }
        keys[i] = keys[p];
        i = p;
    }
    keys[i] = key;
}

// Of the first m keys the child of place i that precedes the other.
fn first_child(keys: &[Key], m: usize, i: usize) -> usize
    requires fact_1 { 2 * i + 1 < m }
    requires fact_2 { m < length keys.now }
    ensures value { result ≡ child key_less no_key keys.now m i }
    ensures below { (i < result) × (result < m) }
{
    let l = 2 * i + 1;
    let r = 2 * i + 2;
    if r < m && is_sooner(keys[r], keys[l]) {
        r
    } else {
        l
    }
}

// The first of m + 1 leaves: its place is filled from below, and from where that ends the last goes up.
fn sift_down(keys: &mut [Key], m: usize)
    requires { m < length keys.old }
    ensures { keys.new ≡ sink key_less no_key m keys.old m 0 (get_or keys.old m no_key) }
{
    let key = keys[m];
    let mut i = 0;
    while 2 * i + 1 < m {
        let c = first_child(keys, m, i);
        keys[i] = keys[c];
        i = c;
    }
    sift_up(keys, i, key);
}

// The first n numbers of a heap of `count` keys, in order. The heap is used up.
fn drain_sorted(keys: &mut [Key], count: usize, n: usize, out: &mut [u64])
    requires { Drainable count n keys.old out.old }
    ensures { out.new ≡ drained count n keys.old out.old }
{
    for k in 0..n {
        out[k] = keys[0].1;
        sift_down(keys, count - k - 1);
    }
}

// ---- events

fn overlaps(event: Event, from: f64, to: f64) -> bool
    ensures { result ≡ in_stretch from to event }
{
    event.start_time < to && from < event.end_time
}

// The event held at place i: of those that wait, after these of the sounding, and after these of the finished.
fn held_event(
    times: &Times,
    levels: &Levels,
    marks: &Marks,
    numbers: &Numbers,
    i: usize,
    waiting: usize,
    sounding: usize,
) -> Event
    requires fact_1 { waiting ≡ min (engine_of (before times.now levels.now marks.now numbers.now)).ready_len 256 }
    requires fact_2 { sounding ≡ waiting + min (engine_of (before times.now levels.now marks.now numbers.now)).active_len 256 }
    requires fact_3 { i < sounding + min (engine_of (before times.now levels.now marks.now numbers.now)).past_len 256 }
    ensures { result ≡ get_or (held_in (engine_of (before times.now levels.now marks.now numbers.now))) i blank }
{
    if i < waiting {
        return event_at(times, levels, marks, numbers, READY + i);
    }
    if i < sounding {
        return event_at(times, levels, marks, numbers, ACTIVE + (i - waiting));
    }
    event_at(times, levels, marks, numbers, PAST + (i - sounding))
}

// Makes a heap of the keys of the held events in the stretch, and tells how many they are.
fn gather(
    times: &Times,
    levels: &Levels,
    marks: &Marks,
    numbers: &Numbers,
    from: f64,
    to: f64,
    keys: &mut [Key],
) -> usize
    requires { length keys.old ≡ 768 }
    ensures { Stands key_less no_key keys.new result
        (map key_of (those (in_stretch from to) (held_in (engine_of (before times.now levels.now marks.now numbers.now))))) }
{
    let waiting = (numbers[WAITING] as usize).min(ROOM);
    let sounding = waiting + (numbers[SOUNDING] as usize).min(ROOM);
    let held = sounding + (numbers[FINISHED] as usize).min(ROOM);
    let mut count = 0;
    for i in 0..held {
        let event = held_event(times, levels, marks, numbers, i, waiting, sounding);
        if overlaps(event, from, to) {
            sift_up(keys, count, (event.start_time, event.id.0));
            count += 1;
        }
    }
    count
}

// Counts and lists the clips of a stretch, with a row of 768 keys as working memory: three lists hold no more.
fn list_clips(
    times: &Times,
    levels: &Levels,
    marks: &Marks,
    numbers: &Numbers,
    from: f64,
    to: f64,
    keys: &mut [Key],
    out: &mut [u64],
) -> usize
    requires fact_1 { length keys.old ≡ 768 }
    requires fact_2 { length out.old ≡ 256 }
    ensures counted { result ≡ length (clips_of from to (held_in (engine_of (before times.now levels.now marks.now numbers.now)))) }
    ensures listed { out.new
        ≡ written (numbers_of (clips_of from to (held_in (engine_of (before times.now levels.now marks.now numbers.now))))) out.old }
{
    let count = gather(times, levels, marks, numbers, from, to, keys);
    drain_sorted(keys, count, count.min(256), out);
    count
}

// ---- the calls

// The held events with start < `to` and end > `from`, counted, and listed by start then number.
pub fn clips(
    times: &Times,
    levels: &Levels,
    marks: &Marks,
    numbers: &Numbers,
    from: f64,
    to: f64,
    out: &mut [u64],
) -> Result<usize, Refusal>
    ensures answer { result ≡ clips_answer from to out.old (held_in (engine_of (before times.now levels.now marks.now numbers.now))) }
    ensures lent { out.new ≡ clips_listed from to out.old (held_in (engine_of (before times.now levels.now marks.now numbers.now))) }
{
    if !(from < to) {
        return Err(Refusal::Improper);
    }
    if out.len() != 256 {
        return Err(Refusal::Improper);
    }
    let mut keys = [(0.0, 0); 768];
    let count = list_clips(times, levels, marks, numbers, from, to, &mut keys, out);
    Ok(count)
}

// Whether the event comes before the first so far, where there is one.
fn comes_first(event: Event, first: Option<Event>) -> bool
    ensures { result ≡ comes_first event first }
{
    first.is_none_or(|other| event.precedes(other))
}

// The first waiting event, by start then number, that starts at `time` or later: its number, or that no such event waits.
pub fn first_from(
    times: &Times,
    levels: &Levels,
    marks: &Marks,
    numbers: &Numbers,
    time: f64,
) -> Result<Option<EventId>, Refusal>
    ensures { result ≡ first_read time (engine_of (before times.now levels.now marks.now numbers.now)) }
{
    if time.is_nan() {
        return Err(Refusal::Improper);
    }
    let n = (numbers[WAITING] as usize).min(ROOM);
    let mut first: Option<Event> = None;
    for i in 0..n {
        let event = event_at(times, levels, marks, numbers, READY + i);
        if time <= event.start_time && comes_first(event, first) {
            first = Some(event);
        }
    }
    Ok(first.map(|event| event.id))
}
