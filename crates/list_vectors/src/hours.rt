// Random windows, minutes and lengths through `lodge`, with the edges of each.
use lodge::{Hours, Refusal, Window};

// A number below `span`.
fn below(span: u64, r: u32) -> u64 {
    if span == 0 {
        return 0;
    }
    u64::from(r) % span
}

// Sixteen windows in ascending order, each at most `span` long and as far behind the one before, or touching it. In use are those of the first week, or any number up to 17; at times the last of them closes with the week, and at times one is changed at random.
fn hours_of(seed: u32, span: u64) -> Hours {
    let mut hours = Hours {
        windows: [Window {
            opens: 0,
            closes: 0,
        }; 16],
        count: 0,
    };
    let mut r = seed;
    let mut last: u64 = 0;
    for i in 0..16 {
        r = crate::random(r);
        let far = if r % 2 == 0 { 0 } else { below(span, r / 2) };
        let opens = last.wrapping_add(far);
        last = opens.wrapping_add(1).wrapping_add(below(span, r / 4096));
        hours.windows[i] = Window {
            opens,
            closes: last,
        };
        if last <= 10080 {
            hours.count = i + 1;
        }
    }
    changed(hours, crate::random(r))
}

fn changed(mut hours: Hours, seed: u32) -> Hours {
    let r = seed / 8;
    let i = (r % 16) as usize;
    let value = u64::from(r / 16) % 10082;
    if seed % 8 == 0 {
        hours.count = (r % 18) as usize;
    }
    if seed % 8 == 1 {
        hours.windows[i].opens = value;
    }
    if seed % 8 == 2 {
        hours.windows[i].closes = value;
    }
    if seed % 8 < 6 {
        return hours;
    }
    let n = hours.count;
    if 0 < n && n <= 16 {
        hours.windows[n - 1].closes = 10080;
    }
    hours
}

// Any minute, or one at a week's edge, or near the limit.
fn minute_of(seed: u32) -> u64 {
    let r = u64::from(seed / 8);
    if seed % 8 == 0 {
        return 0xffff_ffff + r % 2;
    }
    if seed % 8 == 1 {
        return 0xffff_ffff - r % 10080;
    }
    if seed % 8 == 2 {
        return r % 400000 * 10080 + r / 400000 % 2 * 10079;
    }
    r * 8
}

// A window's length, or one more; a week; 0; or any.
fn length_of(hours: Hours, seed: u32, span: u64) -> u64 {
    let r = seed / 8;
    if seed % 8 < 2 {
        let window = hours.windows[(r % 16) as usize];
        let length = window.closes.wrapping_sub(window.opens);
        return length.wrapping_add(u64::from(seed % 2));
    }
    if seed % 8 == 2 {
        return 10079 + u64::from(r % 3);
    }
    below(span, r)
}

fn answered(digest: u64, answer: Result<u64, Refusal>) -> u64 {
    match answer {
        Ok(t) => digests::mixed(digests::mixed(digest, 0), t),
        Err(refusal) => digests::mixed(digests::mixed(digest, 1), refusal.number()),
    }
}

pub(crate) fn hours_digest(rounds: u64) -> u64 {
    let mut digest: u64 = 0;
    let mut seed: u32 = 362436069;
    for _ in 0..rounds {
        seed = crate::random(seed);
        let span = 1 << (seed % 12);
        let hours = hours_of(seed, span);
        seed = crate::random(seed);
        let minute = minute_of(seed);
        seed = crate::random(seed);
        let length = length_of(hours, seed, span);
        digest = answered(digest, lodge::earliest(hours, minute, length));
    }
    digest
}
