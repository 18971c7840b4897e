// The layout preview's house fade, 1,024 samples, smooth, from a printed table.
#![tactic(auto)]

mod entries;

ghost use Rattle.std.specs.Prelude.{◌≡◌};
ghost use Rattle.preview.specs.Preview.{IsTable, gain_at, number_of, refusal_in, refusal, previewed};

use entries::ENTRIES;

// The first entry is above 1,024.
#[derive(Clone, Copy, PartialEq, Eq)]
pub struct Refused;

impl Refused {
    // The paper's number.
    pub fn number(self) -> u64
        ensures { result ≡ number_of self }
    {
        24
    }
}

// The table, to be made once and lent to every preview: each function that names the constant makes it anew.
pub fn table() -> [f32; 1025]
    ensures { IsTable result }
{
    ENTRIES
}

// What the sample at entry j is multiplied by.
fn gain(gains: &[f32; 1025], rising: bool, j: usize) -> f32
    ensures { result ≡ gain_at gains.now rising j }
{
    if j > 1024 {
        if rising {
            return 1.0;
        }
        return 0.0;
    }
    if rising {
        return gains[j];
    }
    gains[1024 - j]
}

// Multiplies a run by the entries from `first` on, rising or falling. A first entry above 1,024 is refused as 24, and the run stays.
pub fn preview(
    run: &mut [f32],
    gains: &[f32; 1025],
    first: usize,
    rising: bool,
) -> Result<(), Refused>
    ensures { (refusal_in result ≡ refusal first) × (run.new ≡ previewed gains.now rising first run.old) }
{
    if first > 1024 {
        return Err(Refused);
    }
    for (i, sample) in run.iter_mut().enumerate() {
        *sample *= gain(gains, rising, first + i);
    }
    Ok(())
}
