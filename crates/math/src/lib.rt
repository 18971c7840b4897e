// The fade curves and the inverse of linear interpolation: src/math.rs of fundsp, at the types that the sequencer uses.
#![tactic(auto)]

ghost use Rattle.std.specs.Prelude.{◌≡◌};
ghost use Rattle.math.specs.Curves.{smooth, sine_ease, delerped};

// Smooth 5th degree easing polynomial.
pub fn smooth5(x: f32) -> f32
    ensures { result ≡ smooth x }
{
    ((x * 6.0 - 15.0) * x + 10.0) * x * x * x
}

// Sine-shaped easing, by Bhaskara's approximation. The numbers are π/2, π and 5ππ as f32.
pub fn sine_ease(x: f32) -> f32
    ensures { result ≡ sine_ease x }
{
    let y = x * 1.5707964;
    16.0 * y * (3.1415927 - y) / (49.348022 - 4.0 * y * (3.1415927 - y))
}

// Where x lies on the way from a, which is 0, to b, which is 1.
pub fn delerp(a: f64, b: f64, x: f64) -> f64
    ensures { result ≡ delerped a b x }
{
    (x - a) / (b - a)
}
