// Plays the first 65,536 bytes of a tape from standard input and lists, for each record, its answer and the whole state behind it (crate state_listing). A failed read counts as the tape's end.
#![tactic(auto)]

use apply::Applied;
use event::MixOrder;
use sequencer::{Answer, Outcome, Sequencer};
use std::io;
use std::io::{BufWriter, Write};
use tape::reader::{Call, Cursor, Read};

fn process(s: Sequencer, size: usize, pool: &[f32], samples: &mut [f32]) -> Outcome {
    let n = (64 * s.outputs.min(8)).min(samples.len());
    s.process(MixOrder::Forward, size, pool, &mut samples[..n])
}

// Every other call: done or refused, by the number that apply::Applied has.
fn rest(a: Applied) -> Outcome {
    let sequencer = a.sequencer;
    if a.refusal == 0 {
        return Outcome {
            sequencer,
            answer: Answer::Done,
        };
    }
    Outcome {
        sequencer,
        answer: Answer::Refused(a.refusal),
    }
}

fn play(s: Sequencer, call: Call, pool: &[f32], samples: &mut [f32]) -> Outcome {
    match call {
        Call::Push(p) => apply::push(s, 1, p),
        Call::PushRelative(p) => apply::push(s, 2, p),
        Call::PushDuration(p) => apply::push(s, 3, p),
        Call::Edit(p) => s.edit(p.id, p.end_time, p.fade_out),
        Call::EditRelative(p) => s.edit_relative(p.id, p.end_time, p.fade_out),
        Call::Process(n) => process(s, n as usize, pool, samples),
        _ => rest(apply::apply(s, call, pool, samples)),
    }
}

// Writes the line of a record's answer and of the engine behind it.
fn list_engine<W: Write>(out: &mut W, kind: u8, answer: Answer, s: Sequencer) -> io::Result<()> {
    let mut text = [0u8; 1024];
    let n = state_listing::engine_line(kind, answer, s, &mut text);
    if n <= 1024 {
        out.write_all(&text[..n])?;
    }
    Ok(())
}

// The line of a record that 14 or 15 refuses.
fn stop<W: Write>(out: &mut W, r: Read, s: Sequencer) -> io::Result<()> {
    if let Read::Refused { kind, number } = r {
        list_engine(out, kind, Answer::Refused(number as u64), s)?;
    }
    Ok(())
}

fn is_refused_creation(answer: Answer) -> bool {
    matches!(answer, Answer::Refused(1))
}

fn run<W: Write>(out: &mut W, bytes: &[u8], pool: &[f32]) -> io::Result<()> {
    let mut samples = apply::silence();
    let mut s = apply::start();
    let mut first = true;
    let mut at: usize = 0;
    for _ in 0..bytes.len() {
        let c = Cursor { at, first };
        let r = c.read(bytes);
        let Read::Record { kind, call, next } = r else {
            return stop(out, r, s);
        };
        let o = play(s, call, pool, &mut samples);
        s = o.sequencer;
        list_engine(out, kind, o.answer, s)?;
        if is_refused_creation(o.answer) {
            return Ok(());
        }
        first = next.first;
        at = next.at;
    }
    Ok(())
}

fn main(rt: HostRuntime) -> io::Result<()> {
    let mut buf = [0u8; 65536];
    let n = streams::read_full(&mut rt.stdin(), &mut buf);
    let mut out = BufWriter::new(rt.alloc(), rt.stdout())?;
    let pool = tape::pool::trail_pool();
    run(&mut out, &buf[..n], &pool)?;
    out.flush()
}
