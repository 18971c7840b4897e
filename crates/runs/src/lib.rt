// Loops over samples: what a source gives, gains, fades, and adding. The fades and the adding are those of `fade_in`, `fade_out` and
// `process` of src/sequencer.rs of fundsp. A slice may have any length; places that it lacks are left out.
#![tactic(auto)]

ghost use Rattle.std.specs.Prelude.{◌≡◌, ◌+◌, ◌-◌, ◌/◌, ◌≤◌, Float, min, map, ◌++◌, length, take, drop, replicate};
ghost use Rattle.std.proofs.Math.ListN as List;
ghost use Rattle.event.specs.Sources.{steps, next_samples, advanced_by};
ghost use Rattle.floats.specs.Arithmetic.{◌+ˢ◌};
ghost use Rattle.ledger.specs.BlockSamples.{gained, faded_all, faded, add_at, overlay};
ghost use Rattle.runs.specs.Walk.{zipped};
ghost use Rattle.runs.specs.Samples as Samples;
ghost use Rattle.runs.specs.Samples.{Maps, Joins, chain, phases_of, clip_run, clip_part, added};

use event::{Fade, Source, Unit};

// ---- the loops over samples: what becomes of each is a closure

// Every sample a becomes f(a).
fn each<F: Fn(f32) -> f32>(s: &mut [f32], f: F)
    requires { F.IsAlwaysCallable f }
    ensures { (h : Float → Float) → Maps (F.post f) h → s.new ≡ map h s.old }
{
    for a in s.iter_mut() {
        *a = f(*a);
    }
}

// Every sample a becomes f(a, y), where y is the sample of xs at its place.
fn each_along<F: Fn(f32, f32) -> f32>(s: &mut [f32], xs: &[f32], f: F)
    requires callable { F.IsAlwaysCallable f }
    requires there { length s.old ≤ length xs.now }
    ensures { (h : Float → Float → Float) → Joins (F.post f) h → s.new ≡ zipped h xs.now s.old }
{
    for (i, a) in s.iter_mut().enumerate() {
        *a = f(*a, xs[i]);
    }
}

// Every sample a becomes f(a, y), where y is value, value + step, ..; the value after them.
fn each_on_ramp<F: Fn(f32, f32) -> f32>(s: &mut [f32], value: f32, step: f32, f: F) -> f32
    requires { F.IsAlwaysCallable f }
    ensures samples { (h : Float → Float → Float) → Joins (F.post f) h → s.new ≡ zipped h (chain step value (length s.old)) s.old }
    ensures value { result ≡ steps (λ y. y +ˢ step) value (length s.old) }
{
    let mut y = value;
    for a in s.iter_mut() {
        *a = f(*a, y);
        y = y + step;
    }
    y
}

// Every sample becomes x. `fill` was tried, and is slower.
pub fn set_all(s: &mut [f32], x: f32)
    ensures { s.new ≡ replicate (length s.old) x }
{
    each(s, move |_| x);
}

// ---- what a source gives

// Of a clip's next n samples: how many the clip has, how many of these the pool has, and from which place on.
#[derive(Clone, Copy)]
struct ClipPart {
    left: usize,
    has: usize,
    from: usize,
}

fn clip_part(n: usize, pool: usize, offset: u32, length: u32, place: u32) -> ClipPart
    ensures { result ≡ clip_part n pool offset length place }
{
    let left = n.min((length as usize).saturating_sub(place as usize));
    let at = offset as usize + place as usize;
    ClipPart {
        left,
        has: left.min(pool.saturating_sub(at)),
        from: at.min(pool),
    }
}

// Every sample a becomes f(a, y), where y is the clip's sample from its place on, 0 past the clip and past the pool; its place after them.
fn each_on_clip<F: Fn(f32, f32) -> f32>(
    s: &mut [f32],
    pool: &[f32],
    offset: u32,
    length: u32,
    place: u32,
    f: F,
) -> u32
    requires { F.IsAlwaysCallable f }
    ensures samples { (h : Float → Float → Float) → Joins (F.post f) h → s.new ≡ zipped h (clip_run pool.now offset length place (List.length s.old)) s.old }
    ensures place { result ≡ place + min (List.length s.old) (length - place) }
{
    let part = clip_part(s.len(), pool.len(), offset, length, place);
    each_along(&mut s[..part.has], &pool[part.from..], &f);
    each(&mut s[part.has..], |a| f(a, 0.0));
    place + part.left as u32
}

// Every sample a becomes f(a, y), where y is the source's next sample; the unit after them.
fn each_of_source<F: Fn(f32, f32) -> f32>(s: &mut [f32], mut unit: Unit, pool: &[f32], f: F) -> Unit
    requires { F.IsAlwaysCallable f }
    ensures samples { (h : Float → Float → Float) → Joins (F.post f) h → s.new ≡ zipped h (next_samples pool.now unit (length s.old)) s.old }
    ensures unit { result ≡ advanced_by unit (length s.old) }
{
    match unit.source {
        Source::Held(level) => each(s, move |a| f(a, level)),
        Source::Ramp(_, step) => unit.value = each_on_ramp(s, unit.value, step, f),
        Source::Clip(offset, length) => unit.place = each_on_clip(
            s, pool, offset, length, unit.place, f,
        ),
    }
    unit
}

// The source's next samples, as many as the slice has, and the unit after them.
pub fn fill_run(s: &mut [f32], unit: Unit, pool: &[f32]) -> Unit
    ensures { (s.new ≡ next_samples pool.now unit (length s.old)) × (result ≡ advanced_by unit (length s.old)) }
{
    each_of_source(s, unit, pool, |_, y| y)
}

// The source's next samples at a gain are added, as many as the slice has; the unit after them.
pub fn add_source(s: &mut [f32], unit: Unit, pool: &[f32], gain: f32) -> Unit
    ensures { (s.new ≡ added gain (next_samples pool.now unit (length s.old)) s.old) × (result ≡ advanced_by unit (length s.old)) }
{
    match unit.source {
        // A level at the gain is one number: the product is taken once.
        Source::Held(level) => {
            let x = level * gain;
            each(s, move |a| a + x);
            unit
        }
        _ => each_of_source(s, unit, pool, move |a, y| a + y * gain),
    }
}

// Every sample at a gain.
pub fn apply_gain(s: &mut [f32], gain: f32)
    ensures { s.new ≡ gained gain s.old }
{
    each(s, move |a| a * gain);
}

// ---- fades

// A fade's curve, whether it rises, its phase at the first sample, and how far the phase goes for each sample.
#[derive(Clone, Copy)]
struct Slope {
    ease: Fade,
    rising: bool,
    phase: f32,
    step: f32,
}

// The plain form of a fade.
fn fade_each(s: &mut [f32], slope: Slope)
    ensures { s.new ≡ faded_all slope.ease slope.rising slope.phase slope.step s.old }
{
    let Slope {
        ease,
        rising,
        phase,
        step,
    } = slope;
    each_on_ramp(s, phase, step, move |a, y| a * ease.at(facing(rising, y)));
}

fn facing(rising: bool, phase: f32) -> f32
    ensures { result ≡ Samples.facing rising phase }
{
    if rising { phase } else { 1.0 - phase }
}

// The faster form: the phases, which are a chain, go into a row; then the curve, which is not, is taken of them all.

fn phases(s: &mut [f32], slope: Slope)
    ensures { s.new ≡ phases_of slope.rising slope.phase slope.step (length s.old) }
{
    each_on_ramp(s, slope.phase, slope.step, |_, y| y);
    if !slope.rising {
        each(s, |y| 1.0 - y);
    }
}

fn fade_by(s: &mut [f32], row: &mut [f32], slope: Slope)
    requires { length s.old ≡ length row.old }
    ensures { s.new ≡ faded_all slope.ease slope.rising slope.phase slope.step s.old }
{
    phases(row, slope);
    let ease = slope.ease;
    each_along(s, row, move |a, y| a * ease.at(y));
}

fn fade_all(s: &mut [f32], slope: Slope)
    ensures { s.new ≡ faded_all slope.ease slope.rising slope.phase slope.step s.old }
{
    let n = s.len();
    if n <= 64 {
        let mut row = [0.0f32; 64];
        fade_by(s, &mut row[..n], slope);
    } else {
        fade_each(s, slope);
    }
}

// A fade over the places from `from` up to, not including, `to`.
pub fn fade(s: &mut [f32], from: usize, to: usize, ease: Fade, rising: bool, phase: f32, step: f32)
    ensures { s.new ≡ faded ease rising from to phase step s.old }
{
    let end = to.min(s.len());
    if from < end {
        let slope = Slope {
            ease,
            rising,
            phase,
            step,
        };
        fade_all(&mut s[from..end], slope);
    }
}

// ---- adding, and writing to the channels

// A run is added to a channel from place s on.
pub fn add_at(channel: &mut [f32], run: &[f32], s: usize)
    ensures { channel.new ≡ add_at s run.now channel.old }
{
    let n = channel.len();
    if s < n {
        let end = s + run.len().min(n - s);
        each_along(&mut channel[s..end], run, |a, y| a + y);
    }
}

// `copy_from_slice` was tried, and is slower.
fn copy_row(row: &mut [f32], run: &[f32])
    requires { length run.now ≤ length row.old }
    ensures { row.new ≡ run.now ++ drop (length run.now) row.old }
{
    each_along(&mut row[..run.len()], run, |_, y| y);
}

fn copy_rows(out: &mut [f32], run: &[f32])
    requires { length run.now ≤ 64 }
    ensures { out.new ≡ overlay (length out.old / 64) run.now out.old }
{
    for channel in 0..out.len() / 64 {
        let at = 64 * channel;
        copy_row(&mut out[at..at + 64], run);
    }
}

// A run of at most 64 samples is written over the first places of every channel, 64 samples each.
pub fn overlay_channels(out: &mut [f32], run: &[f32])
    ensures { out.new ≡ overlay (length out.old / 64) (take 64 run.now) out.old }
{
    let n = run.len().min(64);
    copy_rows(out, &run[..n]);
}
