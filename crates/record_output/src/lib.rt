// What a record leaves in the output, put from a place of a lent slice on: its samples as bytes, or its lines of document 01's listing.
// A piece that has no room is left out. Where there is room for a whole record, all of it stands there.
#![tactic(auto)]

ghost use Rattle.std.specs.Prelude.{◌≡◌, [], ◌-◌, ◌≤◌, ltb, length, replicate};
ghost use Rattle.listing.specs.Pieces.{text, add, add_all};
ghost use Rattle.listing.specs.Text.{samples_line};
ghost use Rattle.record_output.specs.Bytes.{bytes_of};
ghost use Rattle.record_output.specs.Lines.{record_line, row_piece, room_for, none_left, silent_left, pieces_in, Fits, Stands};
ghost use Rattle.record_output.specs.Endings.{is_short, ending, Gives};

use sequencer::Counts;
use tape::reader::Read;

// What a record leaves: its samples as bytes (the C entry), or its lines of the listing (`trail`).
#[derive(Clone, Copy)]
pub enum Form {
    Bytes,
    Lines,
}

// (A refusal is document 01's number, 1, 14 or 15, which the answers of runs hand on.)
// Why the records stopped: the tape's end; refusal 1, 14 or 15; no room for the next record; fewer bytes left than a record may need, of a tape that goes on.
#[derive(Clone, Copy)]
pub enum Pause {
    End,
    Refused(u8),
    Full,
    Short,
}

// The record that was carried out or refused last: its kind, its refusal or 0, and how many channels it has and samples in each. Before the first record there is none.
#[derive(Clone, Copy)]
pub struct Left {
    pub any: bool,
    pub kind: u8,
    pub refusal: u64,
    pub channels: usize,
    pub each: usize,
}

// No record has left anything.
pub fn nothing() -> Left
    ensures { result ≡ none_left }
{
    Left {
        any: false,
        kind: 0,
        refusal: 0,
        channels: 0,
        each: 0,
    }
}

// An accepted record without samples.
pub fn silent(kind: u8) -> Left
    ensures { result ≡ silent_left kind }
{
    Left {
        any: true,
        kind,
        refusal: 0,
        channels: 0,
        each: 0,
    }
}

// A record's line. (It and `put_line` stay apart: a closure over the rest would have the same lines, and a contract of its own.)
fn put_counts(kind: u8, refusal: u64, counts: Counts, out: &mut [u8], at: usize) -> usize
    ensures { text out.new result ≡ add (record_line kind refusal counts) (text out.old at) }
{
    if out.len() < at {
        return at;
    }
    let n = listing::counts_line(
        kind,
        refusal,
        counts.waiting as u64,
        counts.sounding as u64,
        counts.finished as u64,
        counts.let_go,
        &mut out[at..],
    );
    at + n
}

// A channel's line.
fn put_line(row: &[f32], out: &mut [u8], at: usize) -> usize
    ensures { text out.new result ≡ add (samples_line row.now) (text out.old at) }
{
    if out.len() < at {
        return at;
    }
    let n = listing::samples_line(row, &mut out[at..]);
    at + n
}

// A channel's samples as bytes, or its line.
fn put_row(form: Form, row: &[f32], out: &mut [u8], at: usize) -> usize
    ensures { text out.new result ≡ add (row_piece form row.now) (text out.old at) }
{
    match form {
        Form::Bytes => little_endian::put_samples(row, out, at),
        Form::Lines => put_line(row, out, at),
    }
}

// The row, once for each channel.
fn put_channels(form: Form, row: &[f32], channels: usize, out: &mut [u8], at: usize) -> usize
    ensures { text out.new result ≡ add_all (replicate channels (row_piece form row.now)) (text out.old at) }
{
    let mut to = at;
    for _ in 0..channels {
        to = put_row(form, row, out, to);
    }
    to
}

// What the last record leaves: all channels of a tick or block are equal, so each of them is the first of the row.
pub fn leave(
    form: Form,
    left: Left,
    counts: Counts,
    row: &[f32],
    out: &mut [u8],
    at: usize,
) -> usize
    ensures result_after { text out.new result ≡ add_all (pieces_in form left counts row.now) (text out.old at) }
    ensures stands { Fits form left counts row.now at (length out.old) → Stands form left counts row.now out.old at out.new result }
{
    if !left.any {
        return at;
    }
    let n = left.each.min(row.len());
    let to = match form {
        Form::Bytes => at,
        Form::Lines => put_counts(left.kind, left.refusal, counts, out, at),
    };
    put_channels(form, &row[..n], left.channels, out, to)
}

// Whether fewer bytes are left than a record may need, of a tape that goes on: reading one needs no more than 47 (tape, specs/Window).
pub fn is_short(whole: bool, len: usize, at: usize) -> bool
    ensures { result ≡ is_short whole len at }
{
    !whole && len.saturating_sub(at) < 47
}

// Whether there is no room for the lines of any record: 108 bytes, and eight lines of 576. Bytes are looked at when they are known.
pub fn is_full(form: Form, room: usize) -> bool
    ensures { result ≡ ltb room (room_for form []) }
{
    match form {
        Form::Bytes => false,
        Form::Lines => room < 4716,
    }
}

// How many bytes of the output are in use, and what stopped the tape.
#[derive(Clone, Copy)]
pub struct Stop {
    pub used: usize,
    pub pause: Pause,
}

// The tape's end, or the line of a record that 14 or 15 refuses.
pub fn unread(form: Form, r: Read, counts: Counts, out: &mut [u8], at: usize) -> Stop
    ensures pause_value { result.pause ≡ (ending form r counts (length out.old - at)).pause }
    ensures used_after { text out.new result.used ≡ add (ending form r counts (length out.old - at)).written (text out.old at) }
    ensures gives { at ≤ length out.old → Gives (ending form r counts (length out.old - at)) out.old out.new at result.pause result.used }
{
    match r {
        Read::Refused { kind, number } => {
            if is_full(form, out.len().saturating_sub(at)) {
                return Stop {
                    used: at,
                    pause: Pause::Full,
                };
            }
            match form {
                Form::Bytes => Stop {
                    used: at,
                    pause: Pause::Refused(number),
                },
                Form::Lines => {
                    let to = put_counts(kind, number as u64, counts, out, at);
                    Stop {
                        used: to,
                        pause: Pause::Refused(number),
                    }
                }
            }
        }
        Read::Record { .. } | Read::End => Stop {
            used: at,
            pause: Pause::End,
        },
    }
}
