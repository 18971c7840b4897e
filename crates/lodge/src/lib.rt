// Document 02, Paper 11: the earliest minute, not before a given one, at which a length fits in one opening window of a lodge.
// Minutes count from a Monday 00:00, and every week of 10,080 has the same windows.
#![tactic(auto)]

ghost use Rattle.std.specs.Prelude.{◌≡◌};
ghost use Rattle.lodge.specs.Refusals.{number_of};
ghost use Rattle.lodge.specs.Search.{orderly, first_from, answered};

// Open from `opens` up to but without `closes`, both minutes of the week.
#[derive(Clone, Copy)]
pub struct Window {
    pub opens: u64,
    pub closes: u64,
}

// The first `count` windows are in use. An array with a count, as document 01 has it: no memory is allocated.
#[derive(Clone, Copy)]
pub struct Hours {
    pub windows: [Window; 16],
    pub count: usize,
}

// Why no minute is answered: the hours, the minute or the length are not proper, or the length fits in no window.
#[derive(Clone, Copy, PartialEq, Eq)]
pub enum Refusal {
    Improper,
    TooLong,
}

impl Refusal {
    // The paper's number.
    pub fn number(self) -> u64
        ensures { result ≡ number_of self }
    {
        match self {
            Refusal::Improper => 21,
            Refusal::TooLong => 22,
        }
    }
}

// Whether the windows are not empty, end within the week, and follow one another.
fn is_orderly(windows: &[Window]) -> bool
    ensures { result ≡ orderly 0 windows.now }
{
    let mut last = 0;
    for w in windows {
        let Window { opens, closes } = *w;
        if opens < last || closes <= opens || 10080 < closes {
            return false;
        }
        last = closes;
    }
    true
}

// The minute of the week, not before `from`, at which the first window that has room for `length` has it.
fn first_from(windows: &[Window], from: u64, length: u64) -> Option<u64>
    ensures { result ≡ first_from from length windows.now }
{
    for w in windows {
        let start = w.opens.max(from);
        if start <= w.closes && length <= w.closes - start {
            return Some(start);
        }
    }
    None
}

// Looks in the week of `minute` from there on, then in the next week from its beginning.
pub fn earliest(hours: Hours, minute: u64, length: u64) -> Result<u64, Refusal>
    ensures { result ≡ answered hours minute length }
{
    if 16 < hours.count || 0xffff_ffff < minute || length == 0 {
        return Err(Refusal::Improper);
    }
    let windows = &hours.windows[..hours.count];
    if !is_orderly(windows) {
        return Err(Refusal::Improper);
    }
    let place = minute % 10080;
    let week = minute - place;
    if let Some(t) = first_from(windows, place, length) {
        return Ok(week + t);
    }
    let t = first_from(windows, 0, length).ok_or(Refusal::TooLong)?;
    Ok(week + 10080 + t)
}
