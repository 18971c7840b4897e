// Reads one record at a cursor.
ghost use Rattle.std.specs.Prelude.{◌≡◌, ◌+◌, ◌^◌, ◌<◌, length};
ghost use Rattle.tape.specs.Tape.{read_at, record_of, unknown, unknown_push, gain_kind, plain_kind, push_kind, size_of, call_of, push_of, edit_of, mode_of, curve_of, source_of, gain_of};

use crate::fields;
use event::{EventId, Fade, ReplayMode, Source};

// A place on a tape, and whether the record there is the tape's first.
#[derive(Clone, Copy)]
pub struct Cursor {
    pub at: usize,
    pub first: bool,
}

// What a push says. By duration, `end_time` is the duration.
#[derive(Clone, Copy)]
pub struct PushRecord {
    pub start_time: f64,
    pub end_time: f64,
    pub fade_in: f64,
    pub fade_out: f64,
    pub fade_ease: Fade,
    pub source: Source,
    pub gain: f32,
}

#[derive(Clone, Copy)]
pub struct EditRecord {
    pub id: EventId,
    pub end_time: f64,
    pub fade_out: f64,
}

#[derive(Clone, Copy)]
pub enum Call {
    Create {
        channels: u8,
        mode: ReplayMode,
        first: u64,
    },
    Push(PushRecord),
    PushRelative(PushRecord),
    PushDuration(PushRecord),
    Edit(EditRecord),
    EditRelative(EditRecord),
    Tick,
    Process(u8),
    Reset,
    SetSampleRate(f64),
}

// A call with its kind and the next cursor; a refusal, 14 or 15, with the kind that stands there; or the tape's end.
// The refusal is document 01's number: its listing prints it, and the answers of runs and the C entry hand it on.
#[derive(Clone, Copy)]
pub enum Read {
    Record { kind: u8, call: Call, next: Cursor },
    Refused { kind: u8, number: u8 },
    End,
}

// Whether a record of this kind has gain bytes.
pub fn has_gain(kind: u8) -> bool
    ensures { result ≡ gain_kind kind }
{
    matches!(kind, 10..=12)
}

// The same kind without gain bytes.
pub fn plain_kind(kind: u8) -> u8
    ensures { result ≡ plain_kind kind }
{
    if has_gain(kind) { kind - 9 } else { kind }
}

// Whether a record of this kind is a push, with a curve and a source byte.
pub fn is_push(kind: u8) -> bool
    ensures { result ≡ push_kind kind }
{
    matches!(plain_kind(kind), 1..=3)
}

// Whether a push's curve or source byte is unknown.
pub fn is_unknown_push(bs: &[u8]) -> bool
    ensures { result ≡ unknown_push bs.now }
{
    1 < fields::byte(bs, 33) || 2 < fields::byte(bs, 34)
}

// 14.
fn is_unknown(first: bool, bs: &[u8]) -> bool
    ensures { result ≡ unknown first bs.now }
{
    let kind = fields::byte(bs, 0);
    if first {
        return kind != 0 || 1 < fields::byte(bs, 2);
    }
    if kind == 0 || 12 < kind {
        return true;
    }
    is_push(kind) && is_unknown_push(bs)
}

// A record's length with its kind byte.
pub fn size_of(kind: u8) -> usize
    ensures { result ≡ size_of kind }
{
    match kind {
        0 => 11,
        1..=3 => 43,
        4 | 5 => 25,
        6 | 8 => 1,
        7 => 2,
        9 => 9,
        10..=12 => 47,
        _ => 0,
    }
}

// This and `curve_of` are no TryFrom: they answer for every byte, since 14 has refused the unknown ones before.
fn mode_of(b: u8) -> ReplayMode
    ensures { result ≡ mode_of b }
{
    match b {
        0 => ReplayMode::All,
        _ => ReplayMode::None,
    }
}

fn curve_of(b: u8) -> Fade
    ensures { result ≡ curve_of b }
{
    match b {
        0 => Fade::Power,
        _ => Fade::Smooth,
    }
}

fn source_of(bs: &[u8]) -> Source
    ensures { result ≡ source_of bs.now }
{
    match fields::byte(bs, 34) {
        0 => Source::Held(fields::f32_at(bs, 35)),
        1 => Source::Ramp(fields::f32_at(bs, 35), fields::f32_at(bs, 39)),
        _ => Source::Clip(fields::word32(bs, 35), fields::word32(bs, 39)),
    }
}

// The gain bytes' number, or 1.0 where the kind has none.
fn gain_of(bs: &[u8]) -> f32
    ensures { result ≡ gain_of bs.now }
{
    if has_gain(fields::byte(bs, 0)) {
        fields::f32_at(bs, 43)
    } else {
        1.0
    }
}

// The push record that begins the bytes, field by field.
pub fn push_of(bs: &[u8]) -> PushRecord
    ensures { result ≡ push_of bs.now }
{
    PushRecord {
        start_time: fields::f64_at(bs, 1),
        end_time: fields::f64_at(bs, 9),
        fade_in: fields::f64_at(bs, 17),
        fade_out: fields::f64_at(bs, 25),
        fade_ease: curve_of(fields::byte(bs, 33)),
        source: source_of(bs),
        gain: gain_of(bs),
    }
}

fn edit_of(bs: &[u8]) -> EditRecord
    ensures { result ≡ edit_of bs.now }
{
    EditRecord {
        id: EventId(fields::word64(bs, 1)),
        end_time: fields::f64_at(bs, 9),
        fade_out: fields::f64_at(bs, 17),
    }
}

// The call of a record that is there whole.
fn call_of(bs: &[u8]) -> Call
    ensures { result ≡ call_of bs.now }
{
    match plain_kind(fields::byte(bs, 0)) {
        0 => Call::Create {
            channels: fields::byte(bs, 1),
            mode: mode_of(fields::byte(bs, 2)),
            first: fields::word64(bs, 3),
        },
        1 => Call::Push(push_of(bs)),
        2 => Call::PushRelative(push_of(bs)),
        3 => Call::PushDuration(push_of(bs)),
        4 => Call::Edit(edit_of(bs)),
        5 => Call::EditRelative(edit_of(bs)),
        6 => Call::Tick,
        7 => Call::Process(fields::byte(bs, 1)),
        8 => Call::Reset,
        _ => Call::SetSampleRate(fields::f64_at(bs, 1)),
    }
}

// The record that begins the bytes.
fn record_of(cursor: Cursor, bs: &[u8]) -> Read
    requires { cursor.at + length bs.now < 2 ^ 64 }
    ensures { result ≡ record_of cursor bs.now }
{
    let kind = fields::byte(bs, 0);
    if is_unknown(cursor.first, bs) {
        return Read::Refused { kind, number: 14 };
    }
    let n = size_of(kind);
    if bs.len() < n {
        return Read::Refused { kind, number: 15 };
    }
    Read::Record {
        kind,
        call: call_of(bs),
        next: Cursor {
            at: cursor.at + n,
            first: false,
        },
    }
}

impl Cursor {
    // A cursor at the tape's end or beyond it reads the end.
    pub fn read(self, tape: &[u8]) -> Read
        ensures { result ≡ read_at tape.now self }
    {
        if tape.len() <= self.at {
            return Read::End;
        }
        record_of(self, &tape[self.at..])
    }
}
