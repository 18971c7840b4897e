// A line with a record's kind, its answer, and every part of the engine's state under its name: lists as counts with digests, floats as bits. A desk adds its two queues.
// The comparison with the Rust holds these lines against those of the original's own fields (oracle/src/digest.rs). The waiting events and the stored edits are listed as sets.
// A line is put at the front of a lent buffer, part by part; a part that has no room is left out. 1,024 bytes have room for every line.
#![tactic(auto)]

mod digest;

ghost use Rattle.std.specs.Prelude.{◌≡◌};
ghost use Rattle.listing.specs.Pieces.{text, add_all};
ghost use Rattle.state_listing.specs.Lines.{number_part, list_part, time_part, places_part, answer_part, desk_answer_part, list_parts, time_parts, number_parts, queue_parts, state_parts, engine_line, desk_line};

use event::Placings;
use listing::pieces::{put_bytes, put_decimal, put_hex};
use realseq::SequencerBackend;
use sequencer::{Answer, Sequencer};

fn put_number(name: &[u8], n: u64, out: &mut [u8], at: usize) -> usize
    ensures { text out.new result ≡ add_all (number_part name.now n) (text out.old at) }
{
    let to = put_bytes(name, out, at);
    put_decimal(n, out, to)
}

fn put_list(name: &[u8], count: usize, digest: u64, out: &mut [u8], at: usize) -> usize
    ensures { text out.new result ≡ add_all (list_part name.now count digest) (text out.old at) }
{
    let to = put_number(name, count as u64, out, at);
    let to = put_bytes(b":", out, to);
    put_hex(digest, 16, out, to)
}

fn put_time(name: &[u8], x: f64, out: &mut [u8], at: usize) -> usize
    ensures { text out.new result ≡ add_all (time_part name.now x) (text out.old at) }
{
    let to = put_bytes(name, out, at);
    put_hex(float_bits::f64_to_bits(x), 16, out, to)
}

// How a block's places came: kept, forced, at an edge.
fn put_places(c: Placings, out: &mut [u8], at: usize) -> usize
    ensures { text out.new result ≡ add_all (places_part c) (text out.old at) }
{
    let to = put_number(b" answer=rendered:", c.kept, out, at);
    let to = put_number(b":", c.forced, out, to);
    put_number(b":", c.edge, out, to)
}

fn put_answer(answer: Answer, out: &mut [u8], at: usize) -> usize
    ensures { text out.new result ≡ add_all (answer_part answer) (text out.old at) }
{
    match answer {
        Answer::Number(id) => put_number(b" answer=number:", id.0, out, at),
        Answer::Applied => put_bytes(b" answer=applied", out, at),
        Answer::Past => put_bytes(b" answer=past", out, at),
        Answer::Stored => put_bytes(b" answer=stored", out, at),
        Answer::Done => put_bytes(b" answer=done", out, at),
        Answer::Rendered(c) => put_places(c, out, at),
        Answer::Refused(n) => put_number(b" answer=refused:", n, out, at),
    }
}

// Not one with `put_answer`: the two enums have cases of their own, and each arm is one line.
fn put_desk_answer(answer: realseq::Answer, out: &mut [u8], at: usize) -> usize
    ensures { text out.new result ≡ add_all (desk_answer_part answer) (text out.old at) }
{
    match answer {
        realseq::Answer::Number(id) => put_number(b" answer=number:", id.0, out, at),
        realseq::Answer::Queued => put_bytes(b" answer=queued", out, at),
        realseq::Answer::Done => put_bytes(b" answer=done", out, at),
        realseq::Answer::Rendered(c) => put_places(c, out, at),
        realseq::Answer::Refused(n) => put_number(b" answer=refused:", n, out, at),
    }
}

fn put_lists(s: Sequencer, out: &mut [u8], at: usize) -> usize
    ensures { text out.new result ≡ add_all (list_parts s) (text out.old at) }
{
    let d = digest::unordered_events(s.ready, s.ready_len);
    let to = put_list(b" waiting=", s.ready_len, d, out, at);
    let d = digest::ordered_events(s.active, s.active_len);
    let to = put_list(b" sounding=", s.active_len, d, out, to);
    let d = digest::ordered_events(s.past, s.past_len);
    let to = put_list(b" finished=", s.past_len, d, out, to);
    let d = digest::edits(s.edit_map);
    let to = put_list(b" edits=", s.edit_map.len, d, out, to);
    let d = digest::index(s.active_map, s.active_len);
    put_list(b" index=", s.active_len, d, out, to)
}

fn put_times(s: Sequencer, out: &mut [u8], at: usize) -> usize
    ensures { text out.new result ≡ add_all (time_parts s) (text out.old at) }
{
    let to = put_time(b" clock=", s.time, out, at);
    let to = put_time(b" threshold=", s.active_threshold, out, to);
    let to = put_time(b" rate=", s.sample_rate, out, to);
    put_time(b" duration=", s.sample_duration, out, to)
}

fn put_numbers(s: Sequencer, out: &mut [u8], at: usize) -> usize
    ensures { text out.new result ≡ add_all (number_parts s) (text out.old at) }
{
    let to = put_number(b" channels=", s.outputs as u64, out, at);
    let to = put_number(b" next=", s.next, out, to);
    put_number(b" gone=", s.let_go, out, to)
}

fn put_state(s: Sequencer, out: &mut [u8], at: usize) -> usize
    ensures { text out.new result ≡ add_all (state_parts s) (text out.old at) }
{
    let to = put_lists(s, out, at);
    let to = put_times(s, out, to);
    put_numbers(s, out, to)
}

fn put_queues(d: SequencerBackend, out: &mut [u8], at: usize) -> usize
    ensures { text out.new result ≡ add_all (queue_parts d) (text out.old at) }
{
    let q = d.messages;
    let r = d.returned;
    let to = put_list(b" messages=", q.count, digest::messages(q), out, at);
    put_list(b" returned=", r.count, digest::returned(r), out, to)
}

// The line of a record that was played on an engine; the answer is its length.
pub fn engine_line(kind: u8, answer: Answer, s: Sequencer, out: &mut [u8]) -> usize
    ensures { text out.new result ≡ add_all (engine_line kind answer s) (text out.old 0) }
{
    let to = put_hex(kind as u64, 2, out, 0);
    let to = put_answer(answer, out, to);
    let to = put_state(s, out, to);
    put_bytes(b"\n", out, to)
}

// The line of a record that was played on a desk.
pub fn desk_line(kind: u8, answer: realseq::Answer, d: SequencerBackend, out: &mut [u8]) -> usize
    ensures { text out.new result ≡ add_all (desk_line kind answer d) (text out.old 0) }
{
    let to = put_hex(kind as u64, 2, out, 0);
    let to = put_desk_answer(answer, out, to);
    let to = put_state(d.sequencer, out, to);
    let to = put_queues(d, out, to);
    put_bytes(b"\n", out, to)
}
