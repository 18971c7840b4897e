// Document 02, Paper 13: the arrangement of n pushes that moves most events inside the waiting heap, as an argument's word, a tape and two figures.
// An n that is not from 1 to 256 is refused as 23.
#![tactic(auto)]

ghost use Rattle.std.specs.Prelude.{◌≡◌, ◌≤◌};
ghost use Rattle.ledger.specs.Calls.{absolute};
ghost use Rattle.rises.specs.Totals.{pushed_by};
ghost use Rattle.rises.specs.Arrangement.{kth_push};
ghost use Rattle.rises.specs.Words.{count_of};
ghost use Rattle.rises.specs.Refusals.{number_of};
ghost use Rattle.rises.specs.Answers.{is_size, greatest_total, arranged_total, lay_answer, tape_laid};

use event::{Fade, ReplayMode, Source};
use sequencer::{Pushed, Sequencer};
use tape::reader::{Call, PushRecord};
use tape_writer::calls::arguments_of;

// An n that is not from 1 to 256, or a buffer that is shorter than the tape.
#[derive(Clone, Copy, PartialEq, Eq)]
pub enum Refusal {
    Size,
    Short,
}

impl Refusal {
    // The paper's number.
    pub fn number(self) -> u64
        ensures { result ≡ number_of self }
    {
        match self {
            Refusal::Size => 23,
            Refusal::Short => 19,
        }
    }
}

// n, where the word writes one from 1 to 256 in decimal digits, with no leading zero.
pub fn count_of(word: &[u8]) -> Option<usize>
    ensures { result ≡ count_of word.now }
{
    if word.len() == 0 || word[0] == b'0' {
        return None;
    }
    let mut value: usize = 0;
    for b in word {
        if *b < b'0' || b'9' < *b {
            return None;
        }
        value = value * 10 + usize::from(*b - b'0');
        if 256 < value {
            return None;
        }
    }
    Some(value)
}

fn is_size(n: usize) -> bool
    ensures { result ≡ is_size n }
{
    0 < n && n <= 256
}

// ---- the two figures

// The sum of floor(log2 k) over k = 1 to n, how many levels the rises of n pushes add up to at most. Refused as 23.
pub fn greatest_total(n: usize) -> Result<usize, Refusal>
    ensures { result ≡ greatest_total n }
{
    if !is_size(n) {
        return Err(Refusal::Size);
    }
    let mut total: usize = 0;
    for k in 0..n {
        total += (k + 1).ilog2() as usize;
    }
    Ok(total)
}

// The k-th push of n.
fn kth_push(n: usize, k: usize) -> PushRecord
    requires { k ≤ n }
    ensures { result ≡ kth_push n k }
{
    PushRecord {
        start_time: std::num::nearest_u64_to_f64((n - k) as u64),
        end_time: std::num::nearest_u64_to_f64(n as u64),
        fade_in: 0.0,
        fade_out: 0.0,
        fade_ease: Fade::Smooth,
        source: Source::Held(1.0),
        gain: 1.0,
    }
}

fn push_record(s: Sequencer, p: PushRecord) -> Pushed
    ensures { result ≡ pushed_by s (absolute, p) }
{
    s.push(
        p.start_time,
        p.end_time,
        p.fade_ease,
        p.fade_in,
        p.fade_out,
        p.source,
        p.gain,
    )
}

// What the rises of the arrangement's n pushes add up to, by the engine's own pushes. Refused as 23.
pub fn arranged_total(n: usize) -> Result<usize, Refusal>
    ensures { result ≡ arranged_total n }
{
    if !is_size(n) {
        return Err(Refusal::Size);
    }
    let made = Sequencer::new(1, ReplayMode::All, 1);
    let mut s = made.sequencer;
    let mut total: usize = 0;
    for k in 0..n {
        let pushed = push_record(s, kth_push(n, k + 1));
        total += pushed.rise;
        s = pushed.sequencer;
    }
    Ok(total)
}

// ---- the tape

// The tape of n pushes goes to the front of the buffer: its length in bytes. A refused call, 23 before 19, leaves the buffer unchanged.
pub fn lay(n: usize, buf: &mut [u8]) -> Result<usize, Refusal>
    ensures answer { result ≡ lay_answer n buf.old }
    ensures lent { buf.new ≡ tape_laid n buf.old }
{
    if !is_size(n) {
        return Err(Refusal::Size);
    }
    if buf.len() < 11 + 43 * n {
        return Err(Refusal::Short);
    }
    let creation = Call::Create {
        channels: 1,
        mode: ReplayMode::All,
        first: 1,
    };
    let _ = tape_writer::write(arguments_of(0, creation), buf, 0);
    let mut at: usize = 11;
    for k in 0..n {
        let push = Call::Push(kth_push(n, k + 1));
        let _ = tape_writer::write(arguments_of(1, push), buf, at);
        at += 43;
    }
    Ok(at)
}
