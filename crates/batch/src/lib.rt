// Document 02, Paper 1: a run of push records carried out in one call, as the pushes one after another, on the engine that four lent arrays hold.
#![tactic(auto)]

ghost use Rattle.std.specs.Prelude.{◌≡◌, ◌+◌, ◌≤◌, ◌<◌, length};
ghost use Rattle.memory.specs.Memory.{before, after, engine_of};
ghost use Rattle.claim.specs.EngineCalls.{engine_call};
ghost use Rattle.apply.specs.Applying.{push_kind_of};
ghost use Rattle.live.specs.CallContracts.{timed};
ghost use Rattle.tape.specs.Tape.{kind_of, size_of};
ghost use Rattle.batch.specs.Records.{stop_of, beyond};
ghost use Rattle.batch.specs.Run.{push_run};
ghost use Rattle.batch.specs.Contract.{batch_of, push_records, numbers_after};

use live::Timing;
use memory::{Levels, Marks, NEXT, Numbers, Times};
use tape::{fields, reader};

// How many pushes were carried out, and what ended the run: 0 if nothing did. (A number, since what ended it may be a push's refusal, which is one.)
#[derive(Clone, Copy)]
pub struct Batch {
    pub pushed: usize,
    pub ended: u64,
}

// 16: more than 32 records, or a slice of another length than 32.
fn beyond(count: usize, len: usize) -> bool
    ensures { result ≡ beyond count len }
{
    32 < count || len != 32
}

// The record that begins the bytes: 15 if it is missing, 14 if it is no push, 15 if it is cut, else 0.
fn stop_of(bs: &[u8]) -> u64
    ensures { result ≡ stop_of bs.now }
{
    if bs.is_empty() {
        return 15;
    }
    let kind = fields::byte(bs, 0);
    if !reader::is_push(kind) || reader::is_unknown_push(bs) {
        return 14;
    }
    if bs.len() < reader::size_of(kind) {
        return 15;
    }
    0
}

// The length of the record that begins the bytes, by its kind.
fn size_at(bs: &[u8]) -> usize
    ensures { result ≡ size_of (kind_of bs.now) }
{
    reader::size_of(fields::byte(bs, 0))
}

// How a record of kind 1, 2 or 3 states its times.
fn timing_of(kind: u8) -> Timing
    ensures { timed result ≡ push_kind_of kind }
{
    match kind {
        1 => Timing::Absolute,
        2 => Timing::Relative,
        _ => Timing::Duration,
    }
}

// Carries out the record that begins the bytes, a run of one: what ended it, 0 if nothing did. Only a record that does not stop the run is taken apart: of
// one that is no push nothing after the kind byte is looked at.
fn push_record(
    times: &mut Times,
    levels: &mut Levels,
    marks: &mut Marks,
    numbers: &mut Numbers,
    bs: &[u8],
) -> u64
    ensures engine { engine_of (after times.new levels.new marks.new numbers.new)
        ≡ (push_run engine_call 1 bs.now (engine_of (before times.old levels.old marks.old numbers.old))).state }
    ensures answer { result ≡ (push_run engine_call 1 bs.now (engine_of (before times.old levels.old marks.old numbers.old))).ended }
{
    let stop = stop_of(bs);
    if stop != 0 {
        return stop;
    }
    let kind = reader::plain_kind(fields::byte(bs, 0));
    let p = reader::push_of(bs);
    let answer = live_apply::push(times, levels, marks, numbers, timing_of(kind), p);
    live_apply::refusal(answer)
}

// Carries out `count` push records, from the first byte on, as single pushes. Their numbers go to the front of `given`; the first refused one ends it.
// Answers how many were pushed and what ended it, 0 if nothing did. A count above 32 or a slice of another length is refused as 16, before any record is read.
pub fn push_records(
    times: &mut Times,
    levels: &mut Levels,
    marks: &mut Marks,
    numbers: &mut Numbers,
    records: &[u8],
    count: usize,
    given: &mut [u64],
) -> Batch
    ensures engine { engine_of (after times.new levels.new marks.new numbers.new)
        ≡ (push_records (engine_of (before times.old levels.old marks.old numbers.old)) records.now count given.old).state }
    ensures answer { result ≡ batch_of (push_records (engine_of (before times.old levels.old marks.old numbers.old)) records.now count given.old) }
    ensures given { given.new
        ≡ numbers_after (engine_of (before times.old levels.old marks.old numbers.old)) records.now count given.old }
{
    if beyond(count, given.len()) {
        return Batch {
            pushed: 0,
            ended: 16,
        };
    }
    let mut at = 0;
    for pushed in 0..count {
        let number = numbers[NEXT];
        let ended = push_record(times, levels, marks, numbers, &records[at..]);
        if ended != 0 {
            return Batch { pushed, ended };
        }
        given[pushed] = number;
        at += size_at(&records[at..]);
    }
    Batch {
        pushed: count,
        ended: 0,
    }
}
