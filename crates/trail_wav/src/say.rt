// What was heard so far, what ended it, and the words for it.
use std::fmt;
use std::fmt::{Display, Formatter};

// What ends the WAV.
#[derive(Clone, Copy)]
pub(crate) enum Ending {
    Tape,
    Refusal(u64),
    OtherRate(f64),
    NoWholeRate(f64),
    Full,
    Unread,
    Unwritten,
}

// The frames written and their rate, and the greatest magnitude among them.
#[derive(Clone, Copy)]
pub(crate) struct Heard {
    pub(crate) frames: u32,
    pub(crate) rate: u32,
    pub(crate) most: u32,
}

pub(crate) fn nothing() -> Heard {
    Heard {
        frames: 0,
        rate: 44100,
        most: 0,
    }
}

pub(crate) fn usage<E: Eprint>(rt: &E) {
    streams::say(rt, b"usage: trail_wav TAPE OUT.wav [--pool FILE]\n");
    streams::say(
        rt,
        b"Plays the tape TAPE into OUT.wav, a WAV of 32-bit float samples, channels interleaved.\n",
    );
    streams::say(rt, &pool_file::option_line());
    streams::say(
        rt,
        b"docs/HANDBOOK.md says what a tape is; tape_text makes one from text.\n",
    );
}

// On a terminal, how many frames there are so far.
pub(crate) fn progress<E: Eprint>(rt: &E, terminal: bool, frames: u32) {
    if terminal {
        let _ = eprint!(rt; "\rtrail_wav: {frames} frames");
    }
}

// A number from 0 on with six decimals; `beyond` where it is none below 1,000,000,000.
#[derive(Clone, Copy)]
struct Number(f64);

impl Display for Number {
    fn fmt<W: fmt::Write>(&self, f: &mut Formatter<W>) -> fmt::Result {
        let x = self.0;
        if x < 1000000000.0 {
            let n = floats::nearest_index(x * 1000000.0);
            let whole = n / 1000000;
            let decimals = n % 1000000;
            return write!(f, "{whole}.{decimals:06}");
        }
        f.write_str("beyond 1000000000")
    }
}

// A magnitude as a number.
#[derive(Clone, Copy)]
struct Peak(u32);

impl Display for Peak {
    fn fmt<W: fmt::Write>(&self, f: &mut Formatter<W>) -> fmt::Result {
        let most = self.0;
        if 0x7F80_0000 < most {
            return f.write_str("NaN");
        }
        let number = Number(std::num::f32_to_f64_with_nan(float_bits::f32_from_bits(most)));
        write!(f, "{number}")
    }
}

impl Display for Ending {
    fn fmt<W: fmt::Write>(&self, f: &mut Formatter<W>) -> fmt::Result {
        match *self {
            Ending::Tape => f.write_str("the end of the tape"),
            Ending::Refusal(n) => write!(f, "refusal {n}"),
            Ending::OtherRate(rate) => {
                let rate = Number(rate);
                write!(
                    f,
                    "another rate: samples at {rate} Hz, and a WAV has one rate"
                )
            }
            Ending::NoWholeRate(rate) => {
                let rate = Number(rate);
                write!(
                    f,
                    "a rate that is no whole number: {rate} Hz, and a WAV's is whole"
                )
            }
            Ending::Full => {
                f.write_str("the header, which counts no more than 4294967295 frames")
            }
            Ending::Unread => f.write_str("the tape, which cannot be read on"),
            Ending::Unwritten => f.write_str("the output, which cannot be written"),
        }
    }
}

// The line at the end, on standard output, and on standard error what cut the tape short.
pub(crate) fn summary<R: Print + Eprint>(
    rt: &R,
    terminal: bool,
    heard: Heard,
    ending: Ending,
    channels: u8,
) {
    if terminal {
        streams::say(rt, b"\r");
    }
    let rate = heard.rate;
    let frames = heard.frames;
    let peak = Peak(heard.most);
    let unit = if channels == 1 { "channel" } else { "channels" };
    let _ = println!(rt;
        "{channels} {unit}, {rate} Hz, {frames} frames, peak {peak}, ended by {ending}"
    );
    if !matches!(ending, Ending::Tape) {
        let _ = eprintln!(rt; "trail_wav: the tape was cut short by {ending}");
    }
}
