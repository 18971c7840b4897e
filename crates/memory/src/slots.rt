// An event's slot: read, written, and copied.
ghost use Rattle.std.specs.Prelude.{◌≡◌, ◌+◌, ◌<◌};
ghost use Rattle.memory.specs.Rows.{set4};
ghost use Rattle.memory.specs.Memory.{before, after, ease_if, ease_mark, source_in, source_marks, event_at, slot_of};
ghost use Rattle.memory.specs.Memory.{stored, stored_in, copied, copied_in, unit_in};

use crate::{Levels, Marks, Numbers, SLOTS, Times};
use event::{Event, EventId, Fade, Source, Unit};

// ---- reading

fn ease_of(smooth: bool) -> Fade
    ensures { result ≡ ease_if smooth }
{
    if smooth { Fade::Smooth } else { Fade::Power }
}

fn source_of(kind: u32, a: f32, b: f32, offset: u32, length: u32) -> Source
    ensures { result ≡ source_in kind a b offset length }
{
    match kind {
        0 => Source::Held(a),
        1 => Source::Ramp(a, b),
        _ => Source::Clip(offset, length),
    }
}

// Of a number that is no slot's, slot 0.
fn slot_of(k: usize) -> usize
    ensures { (result ≡ slot_of k) × (result < 768) }
{
    if k < SLOTS { k } else { 0 }
}

// The event in a slot; of a number that is no slot's, the event in slot 0.
pub fn event_at(
    times: &Times,
    levels: &Levels,
    marks: &Marks,
    numbers: &Numbers,
    slot: usize,
) -> Event
    ensures { result ≡ event_at (before times.now levels.now marks.now numbers.now) (slot_of slot) }
{
    let k = slot_of(slot);
    let i = 4 * k;
    let source = source_of(
        marks[i] % 4,
        levels[i + 2],
        levels[i + 3],
        marks[i + 1],
        marks[i + 2],
    );
    let unit = Unit {
        source,
        value: levels[i + 1],
        place: marks[i + 3],
    };
    Event {
        start_time: times[i],
        end_time: times[i + 1],
        fade_in: times[i + 2],
        fade_out: times[i + 3],
        fade_ease: ease_of(4 <= marks[i]),
        unit,
        gain: levels[i],
        id: EventId(numbers[k]),
    }
}

// ---- writing

// What a slot keeps of a curve and a source.
#[derive(Clone, Copy)]
struct SourceMarks {
    mark: u32,
    a: f32,
    b: f32,
    offset: u32,
    length: u32,
}

fn ease_mark(ease: Fade) -> u32
    ensures { (result ≡ ease_mark ease) × (result < 5) }
{
    match ease {
        Fade::Power => 0,
        Fade::Smooth => 4,
    }
}

fn source_marks(ease: Fade, source: Source) -> SourceMarks
    ensures { result ≡ source_marks ease source }
{
    let m = ease_mark(ease);
    match source {
        Source::Held(x) => SourceMarks {
            mark: m,
            a: x,
            b: 0.0,
            offset: 0,
            length: 0,
        },
        Source::Ramp(x, y) => SourceMarks {
            mark: m + 1,
            a: x,
            b: y,
            offset: 0,
            length: 0,
        },
        Source::Clip(o, n) => SourceMarks {
            mark: m + 2,
            a: 0.0,
            b: 0.0,
            offset: o,
            length: n,
        },
    }
}

// Four places from i on.
fn put4<T: Copy, const N: usize>(l: &mut [T; N], i: usize, a: T, b: T, c: T, d: T)
    requires { i + 3 < N }
    ensures { l.new ≡ set4 l.old i a b c d }
{
    l[i] = a;
    l[i + 1] = b;
    l[i + 2] = c;
    l[i + 3] = d;
}

fn store(
    times: &mut Times,
    levels: &mut Levels,
    marks: &mut Marks,
    numbers: &mut Numbers,
    k: usize,
    e: Event,
)
    requires { k < 768 }
    ensures { after times.new levels.new marks.new numbers.new ≡ stored (before times.old levels.old marks.old numbers.old) k e }
{
    let i = 4 * k;
    let unit = e.unit;
    let s = source_marks(e.fade_ease, unit.source);
    put4(times, i, e.start_time, e.end_time, e.fade_in, e.fade_out);
    put4(levels, i, e.gain, unit.value, s.a, s.b);
    put4(marks, i, s.mark, s.offset, s.length, unit.place);
    numbers[k] = e.id.0;
}

// Puts the event into a slot; a number that is no slot's changes nothing.
pub fn put_event(
    times: &mut Times,
    levels: &mut Levels,
    marks: &mut Marks,
    numbers: &mut Numbers,
    slot: usize,
    event: Event,
)
    ensures { after times.new levels.new marks.new numbers.new ≡ stored_in (before times.old levels.old marks.old numbers.old) slot event }
{
    if slot < SLOTS {
        store(times, levels, marks, numbers, slot, event);
    }
}

// Puts the value and the place of a slot's source; a number that is no slot's changes nothing.
pub fn put_unit(
    times: &Times,
    levels: &mut Levels,
    marks: &mut Marks,
    numbers: &Numbers,
    slot: usize,
    unit: Unit,
)
    ensures { after times.now levels.new marks.new numbers.now ≡ unit_in (before times.now levels.old marks.old numbers.now) slot unit }
{
    if slot < SLOTS {
        levels[4 * slot + 1] = unit.value;
        marks[4 * slot + 3] = unit.place;
    }
}

// ---- copying

fn copy(
    times: &mut Times,
    levels: &mut Levels,
    marks: &mut Marks,
    numbers: &mut Numbers,
    to: usize,
    from: usize,
)
    requires { (to < 768) × (from < 768) }
    ensures { after times.new levels.new marks.new numbers.new ≡ copied (before times.old levels.old marks.old numbers.old) to from }
{
    let i = 4 * to;
    let j = 4 * from;
    let start = times[j];
    let end = times[j + 1];
    let fade_in = times[j + 2];
    let fade_out = times[j + 3];
    put4(times, i, start, end, fade_in, fade_out);
    let gain = levels[j];
    let value = levels[j + 1];
    let a = levels[j + 2];
    let b = levels[j + 3];
    put4(levels, i, gain, value, a, b);
    let mark = marks[j];
    let offset = marks[j + 1];
    let length = marks[j + 2];
    let place = marks[j + 3];
    put4(marks, i, mark, offset, length, place);
    numbers[to] = numbers[from];
}

// Copies the slot `from` to the slot `to`; a number that is no slot's changes nothing.
pub fn copy_slot(
    times: &mut Times,
    levels: &mut Levels,
    marks: &mut Marks,
    numbers: &mut Numbers,
    to: usize,
    from: usize,
)
    ensures { after times.new levels.new marks.new numbers.new ≡ copied_in (before times.old levels.old marks.old numbers.old) to from }
{
    if to < SLOTS && from < SLOTS {
        copy(times, levels, marks, numbers, to, from);
    }
}
