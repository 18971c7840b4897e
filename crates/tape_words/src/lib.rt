// A record's kind stays the tape's byte, which the pages print; texts are put piece by piece and not by `write!`, which promises no bytes of a lent buffer.
// Words of the pages about a tape, put piece by piece into a lent buffer (listing, pieces): each function answers the next free place, and a piece that has no room is left out.
#![tactic(auto)]

ghost use Rattle.std.specs.Prelude.{◌≡◌, cond, [], ◌∷◌, ◌+◌, eqb};
ghost use Rattle.listing.specs.Pieces.{text, add, add_all};
ghost use Rattle.listing.specs.Text.{decimal};
ghost use Rattle.tape_words.specs.Words.{by_place, thousandths_text, time_text, peak_text, refusal_text, sum_text, call_text, call_at, push_text, answer_text};

use listing::pieces::{put_bytes, put_decimal};
use sequencer::{Answer, Counts};

// One of two texts: the first where `holds` is true.
pub fn put_either(holds: bool, first: &[u8], second: &[u8], out: &mut [u8], at: usize) -> usize
    ensures { text out.new result ≡ add (cond holds first.now second.now) (text out.old at) }
{
    if holds {
        return put_bytes(first, out, at);
    }
    put_bytes(second, out, at)
}

// Whether a clip that stands so sounds.
pub fn is_sounding(place: u64) -> bool
    ensures { result ≡ eqb place 1 }
{
    place == 1
}

// One of four texts, by where a clip stands: 0 waiting, 1 sounding, 2 finished, 3 let go.
pub fn put_by_place(
    place: u64,
    waiting: &[u8],
    sounding: &[u8],
    finished: &[u8],
    let_go: &[u8],
    out: &mut [u8],
    at: usize,
) -> usize
    ensures { text out.new result ≡ add (by_place place waiting.now sounding.now finished.now let_go.now) (text out.old at) }
{
    match place {
        0 => put_bytes(waiting, out, at),
        1 => put_bytes(sounding, out, at),
        2 => put_bytes(finished, out, at),
        _ => put_bytes(let_go, out, at),
    }
}

// Words, and a number behind them.
pub fn put_numbered(words: &[u8], n: u64, out: &mut [u8], at: usize) -> usize
    ensures { text out.new result ≡ add_all (words.now ∷ decimal n ∷ []) (text out.old at) }
{
    let to = put_bytes(words, out, at);
    put_decimal(n, out, to)
}

// A number of thousandths, with three decimals.
pub fn put_thousandths(n: u64, out: &mut [u8], at: usize) -> usize
    ensures { text out.new result ≡ add_all (thousandths_text n) (text out.old at) }
{
    let to = put_decimal(n / 1000, out, at);
    let to = put_bytes(b".", out, to);
    let to = put_decimal(n / 100 % 10, out, to);
    let to = put_decimal(n / 10 % 10, out, to);
    put_decimal(n % 10, out, to)
}

// A time in microseconds, as milliseconds.
pub fn put_time(micros: u64, out: &mut [u8], at: usize) -> usize
    ensures { text out.new result ≡ add_all (time_text micros) (text out.old at) }
{
    let to = put_thousandths(micros, out, at);
    put_bytes(b" ms", out, to)
}

// Words, and a time behind them.
pub fn put_timed(words: &[u8], micros: u64, out: &mut [u8], at: usize) -> usize
    ensures { text out.new result ≡ add_all (words.now ∷ time_text micros) (text out.old at) }
{
    let to = put_bytes(words, out, at);
    put_time(micros, out, to)
}

// A magnitude's bits as a number with three decimals.
pub fn put_peak(bits: u32, out: &mut [u8], at: usize) -> usize
    ensures { text out.new result ≡ add_all (peak_text bits) (text out.old at) }
{
    let n = chart::scaled(bits, 1000);
    if n == u64::MAX {
        return put_bytes(b"8388608 or more", out, at);
    }
    put_thousandths(n, out, at)
}

// A refusal with its text.
pub fn put_refusal(which: u64, out: &mut [u8], at: usize) -> usize
    ensures { text out.new result ≡ add_all (refusal_text which) (text out.old at) }
{
    let to = put_numbered(b"refused ", which, out, at);
    let to = put_bytes(b": ", out, to);
    refusal_texts::refusal_text(which, out, to)
}

// Whether a number is the sum of four.
fn is_sum(n: u64, a: u64, b: u64, c: u64, d: u64) -> bool
    ensures { result ≡ eqb n (a + b + c + d) }
{
    a <= n && b <= n - a && c <= n - a - b && n - a - b - c == d
}

// The sum: accepted pushes = waiting + sounding + finished + let go.
pub fn put_sum(pushes: u64, counts: Counts, out: &mut [u8], at: usize) -> usize
    ensures { text out.new result ≡ add_all (sum_text pushes counts) (text out.old at) }
{
    let waiting = counts.waiting as u64;
    let sounding = counts.sounding as u64;
    let finished = counts.finished as u64;
    let good = is_sum(pushes, waiting, sounding, finished, counts.let_go);
    let to = put_decimal(pushes, out, at);
    let to = put_either(
        good,
        b" accepted pushes = ",
        b" accepted pushes, NOT ",
        out,
        to,
    );
    let to = put_decimal(waiting, out, to);
    let to = put_numbered(b" waiting + ", sounding, out, to);
    let to = put_numbered(b" sounding + ", finished, out, to);
    let to = put_numbered(b" finished + ", counts.let_go, out, to);
    put_bytes(b" let go", out, to)
}

// The name of a push, by its record's kind; any other kind is a rate.
fn put_push(kind: u8, out: &mut [u8], at: usize) -> usize
    ensures { text out.new result ≡ add (push_text kind) (text out.old at) }
{
    match kind {
        1 | 10 => put_bytes(b"push", out, at),
        2 | 11 => put_bytes(b"push, relative", out, at),
        3 | 12 => put_bytes(b"push, by duration", out, at),
        _ => put_bytes(b"rate", out, at),
    }
}

// A call's name, by its record's kind; an edit's with the number of its clip.
pub fn put_call(kind: u8, clip: u64, out: &mut [u8], at: usize) -> usize
    ensures { text out.new result ≡ add_all (call_text kind clip) (text out.old at) }
{
    match kind {
        0 => put_bytes(b"creation", out, at),
        4 => put_numbered(b"edit of clip ", clip, out, at),
        5 => put_numbered(b"edit, relative, of clip ", clip, out, at),
        6 => put_bytes(b"tick", out, at),
        7 => put_bytes(b"block", out, at),
        8 => put_bytes(b"reset", out, at),
        _ => put_push(kind, out, at),
    }
}

// A call's name and when it is made.
pub fn put_call_at(kind: u8, clip: u64, micros: u64, out: &mut [u8], at: usize) -> usize
    ensures { text out.new result ≡ add_all (call_at kind clip micros) (text out.old at) }
{
    let to = put_call(kind, clip, out, at);
    put_timed(b" at ", micros, out, to)
}

// What became of an edit.
pub fn put_answer(told: Answer, out: &mut [u8], at: usize) -> usize
    ensures { text out.new result ≡ add_all (answer_text told) (text out.old at) }
{
    match told {
        Answer::Applied => put_bytes(b"applied", out, at),
        Answer::Past => put_bytes(b"past", out, at),
        Answer::Stored => put_bytes(b"stored", out, at),
        Answer::Done | Answer::Number(_) | Answer::Rendered(_) => put_bytes(b"done", out, at),
        Answer::Refused(_) => put_bytes(b"refused", out, at),
    }
}
