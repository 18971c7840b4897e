// Document 02, Paper 8: a running peak, the greatest magnitude among the last `window` samples, 1 to 4,096.
// Its history is kept in a lent row of at least `window` words (4,096 always serve), which nobody else writes between two calls.
// What the row held before the first feed is never read.
// A call copies four words. A sample costs a store and a comparison, and each `window` samples one pass over `window` words: a constant cost on average.
#![tactic(auto)]

ghost use Rattle.std.specs.Prelude.{◌≡◌, true, map, ◌≤◌, length};
ghost use Rattle.peak.specs.Peaks.{magnitude};
ghost use Rattle.peak.specs.Steps.{number_of, refusal_in, peak_in, state, empty, suffix_maxima_to, created, serves, served, refusal, advanced, fed, fed_all, older, reading};

// `row[..place]` holds the magnitudes fed since the last turn, `recent` the greatest of them.
// Once there was a turn, `row[place..window]` holds, of the `window` samples before it, the greatest from each place on.
// A window of 1 makes no turn and needs no row: `recent` is the last magnitude.
#[derive(Clone, Copy, PartialEq, Eq)]
pub struct RunningPeak {
    pub window: usize,
    pub place: usize,
    pub recent: u32,
    pub turned: bool,
}

// A call is refused. It hands back the running peak: as it was, and from `new` a fresh one with a window of 1.
#[derive(Clone, Copy, PartialEq, Eq)]
pub struct Refused {
    pub peak: RunningPeak,
}

impl Refused {
    // The paper's number.
    pub fn number(self) -> u64
        ensures { result ≡ number_of self }
    {
        20
    }
}

// Each of the first n words becomes the greatest from there up to the n-th.
fn suffix_maxima(row: &mut [u32], n: usize)
    requires { n ≤ length row.old }
    ensures { row.new ≡ suffix_maxima_to n row.old }
{
    let mut most = 0;
    for i in (0..n).rev() {
        most = row[i].max(most);
        row[i] = most;
    }
}

fn fresh(window: usize) -> RunningPeak
    ensures { result ≡ empty window }
{
    RunningPeak {
        window,
        place: 0,
        recent: 0,
        turned: false,
    }
}

// The bits without the sign.
fn magnitude(sample: f32) -> u32
    ensures { result ≡ magnitude sample }
{
    float_bits::f32_to_bits(sample) % 0x8000_0000
}

impl RunningPeak {
    // A fresh one. A window outside the limits, or a row shorter than the window, is refused as 20: then the window is 1.
    pub fn new(window: usize, row: &[u32]) -> Result<RunningPeak, Refused>
        ensures { result ≡ created window (length row.now) }
    {
        let words = row.len();
        if window < 1 || 4096 < window || words < window {
            return Err(Refused { peak: fresh(1) });
        }
        Ok(fresh(window))
    }

    // Whether a row of this many words serves: it has one for each sample of the window, or the window is 1; and the place is one of the window's.
    fn serves(self, words: usize) -> bool
        ensures { result ≡ serves self words }
    {
        self.place < self.window && (self.window <= 1 || self.window <= words)
    }

    // Itself, where the row serves.
    fn served(self, words: usize) -> Result<RunningPeak, Refused>
        ensures { result ≡ served self words }
    {
        if self.serves(words) {
            Ok(self)
        } else {
            Err(Refused { peak: self })
        }
    }

    // The greatest that is left of the window before the last turn; 0 before the first.
    fn older(self, row: &[u32]) -> u32
        ensures { result ≡ older (state self row.now) }
    {
        if self.turned && self.place < row.len() {
            row[self.place]
        } else {
            0
        }
    }

    // One magnitude more.
    fn advance(self, row: &mut [u32], m: u32) -> RunningPeak
        requires { serves self (length row.old) ≡ true }
        ensures { state result row.new ≡ advanced (state self row.old) m }
    {
        let w = self.window;
        let at = self.place;
        if w <= 1 {
            return RunningPeak {
                recent: m,
                turned: false,
                ..self
            };
        }
        row[at] = m;
        if at + 1 < w {
            return RunningPeak {
                place: at + 1,
                recent: self.recent.max(m),
                ..self
            };
        }
        suffix_maxima(row, w);
        RunningPeak {
            place: 0,
            recent: 0,
            turned: true,
            ..self
        }
    }

    // One sample. A row shorter than the window, unless that is 1, is refused as 20, and so is a place outside the window: nothing changes.
    pub fn feed(self, row: &mut [u32], sample: f32) -> Result<RunningPeak, Refused>
        ensures told { refusal_in result ≡ refusal self (length row.old) }
        ensures left { state (peak_in result) row.new ≡ fed (state self row.old) (magnitude sample) }
    {
        let p = self.served(row.len())?;
        Ok(p.advance(row, magnitude(sample)))
    }

    // A run of samples, one after another. Refused as one sample is, also where the run is empty.
    pub fn feed_run(self, row: &mut [u32], samples: &[f32]) -> Result<RunningPeak, Refused>
        ensures told { refusal_in result ≡ refusal self (length row.old) }
        ensures left { state (peak_in result) row.new ≡ fed_all (state self row.old) (map magnitude samples.now) }
    {
        let mut p = self.served(row.len())?;
        for sample in samples {
            p = p.advance(row, magnitude(*sample));
        }
        Ok(p)
    }

    // The greatest magnitude among the last `window` samples. Refused as a sample is.
    pub fn peak(self, row: &[u32]) -> Result<u32, Refused>
        ensures { result ≡ reading (state self row.now) }
    {
        let p = self.served(row.len())?;
        Ok(p.recent.max(p.older(row)))
    }
}
