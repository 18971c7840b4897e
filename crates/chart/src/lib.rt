// The whole numbers of a page about a tape: times in microseconds, columns, rows, and heights of peaks.
#![tactic(auto)]

ghost use Rattle.std.specs.Prelude.{◌≡◌, ◌≤◌};
ghost use Rattle.chart.specs.Scale.{micros_of, thousandths_of, later_by, between_at, column_of, x_of, breadth_of, lane_of, lanes_end, wave_of, scaled_of, height_of, step_of};

// The latest time that a page knows: 2^50 microseconds, past refusal 12's limit of the clock.
const LATEST: u64 = 0x4_0000_0000_0000;

// A page is so many columns wide.
pub const WIDTH: u64 = 1400;

// The clock in microseconds, to the nearest.
pub fn micros(clock: f64) -> u64
    ensures { result ≡ micros_of clock }
{
    floats::nearest_index(clock * 1000000.0).min(LATEST)
}

// A number in thousandths, to the nearest; 0 for a NaN and below 0.
pub fn thousandths(x: f64) -> u64
    ensures { result ≡ thousandths_of x }
{
    floats::nearest_index(x * 1000.0)
}

// So long after a time.
pub fn later(time: u64, by: u64) -> u64
    ensures { result ≡ later_by time by }
{
    (time.min(LATEST) + by.min(LATEST)).min(LATEST)
}

// The column of a time on a page that ends at `total`.
pub fn column(time: u64, total: u64) -> u64
    ensures value { result ≡ column_of time total }
    ensures upper_bound { result ≤ 1_400 }
{
    let whole = total.min(LATEST);
    if whole == 0 {
        return 0;
    }
    time.min(whole) * WIDTH / whole
}

// The page's margin on the left.
pub const LEFT: u64 = 170;

// Where a time stands on the page.
pub fn x(time: u64, total: u64) -> u64
    ensures value { result ≡ x_of time total }
    ensures upper_bound { result ≤ 1_570 }
{
    LEFT + column(time, total)
}

// How broad a stretch of time is drawn: a column at least.
pub fn breadth(from: u64, to: u64, total: u64) -> u64
    ensures { result ≡ breadth_of from to total }
{
    let a = column(from, total);
    let b = column(to, total);
    if b <= a { 1 } else { b - a }
}

// The top of lane i: 64 lanes of 16 make a group, and a group takes 1,068 with its axis.
pub fn lane(i: u64) -> u64
    ensures value { result ≡ lane_of i }
    ensures upper_bound { result ≤ 35_184_372_088_832 }
{
    let k = i.min(0xff_ffff_ffff);
    210 + k / 64 * 1068 + k % 64 * 16
}

// Below n lanes.
pub fn lanes_end(n: u64) -> u64
    ensures value { result ≡ lanes_end n }
    ensures upper_bound { result ≤ 35_184_372_088_848 }
{
    if n == 0 { 210 } else { lane(n - 1) + 16 }
}

// The top of a channel's wave below n lanes, and of what stands below the last channel.
pub fn wave(n: u64, channel: u64) -> u64
    ensures value { result ≡ wave_of n channel }
    ensures upper_bound { result ≤ 35_184_372_089_608 }
{
    lanes_end(n) + 40 + channel.min(8) * 90
}

// The time of place k of n from a time up to another.
pub fn between(from: u64, to: u64, k: u64, n: u64) -> u64
    ensures { result ≡ between_at from to k n }
{
    let begin = from.min(LATEST);
    let end = to.min(LATEST);
    if end < begin || n == 0 || 64 < n {
        return begin;
    }
    begin + (end - begin) * k.min(n) / n
}

// The magnitude of an f32's bits times a scale, rounded down; 2^64 - 1 from 2^23 on, for an infinity and for a NaN.
pub fn scaled(bits: u32, scale: u32) -> u64
    ensures { result ≡ scaled_of bits scale }
{
    let m = bits % 0x8000_0000;
    let e = m / 0x80_0000;
    if 149 < e {
        return u64::MAX;
    }
    if e < 87 {
        return 0;
    }
    u64::from(0x80_0000 + m % 0x80_0000) * u64::from(scale) >> (150 - e)
}

// How high a peak stands on a page where 1.0 is so high.
pub fn height(bits: u32, full: u32) -> u64
    ensures value { result ≡ height_of bits full }
    ensures upper_bound { result ≤ full }
{
    scaled(bits, full).min(u64::from(full))
}

const STEPS: [u64; 35] = [
    1,
    2,
    5,
    10,
    20,
    50,
    100,
    200,
    500,
    1000,
    2000,
    5000,
    10000,
    20000,
    50000,
    100000,
    200000,
    500000,
    1000000,
    2000000,
    5000000,
    10000000,
    30000000,
    60000000,
    120000000,
    300000000,
    600000000,
    1800000000,
    3600000000,
    7200000000,
    21600000000,
    43200000000,
    86400000000,
    864000000000,
    8640000000000,
];

// The time between two marks of the axis: the first of the table that makes at most 14 of them.
pub fn step(total: u64) -> u64
    ensures { result ≡ step_of total }
{
    for s in &STEPS {
        if total / 14 < *s {
            return *s;
        }
    }
    86400000000000
}
