// Random pushes and pops, places and edits through `ready` and `lists`, feeds through `peak`, and windows through `lodge`. The file `stdout` was made by the Rust's BinaryHeap and HashMap, and by plain references: see oracle/src/bin/listvectors.rs.
#![tactic(auto)]

mod hours;
mod peaks;

use digests::mixed;
use event::{Edit, Event, EventId, Fade, Source, Unit};
use lists::{ActiveMap, EditMap};
use ready::Ready;
use std::io;

// The next random number.
fn random(seed: u32) -> u32 {
    let x = seed ^ (seed << 13);
    let x = x ^ (x >> 17);
    x ^ (x << 5)
}

// One of 64 starts, so that many are equal: -0.0, 0.0, and quarters up to 15.75.
fn start_of(code: u64) -> f64 {
    if code == 0 {
        return -0.0;
    }
    std::num::nearest_u64_to_f64(code - 1) * 0.25
}

fn event_of(code: u64, id: u64) -> Event {
    let start = start_of(code);
    Event {
        start_time: start,
        end_time: start + 1.0,
        fade_in: 0.5,
        fade_out: 0.25,
        fade_ease: Fade::Smooth,
        unit: Unit {
            source: Source::Clip(7, 9),
            value: 0.0,
            place: 3,
        },
        gain: 0.75,
        id: EventId(id),
    }
}

// The digest with an event in it.
fn seen(digest: u64, event: Event) -> u64 {
    let digest = mixed(digest, event.id.0);
    let digest = mixed(digest, floats::nearest_index(event.start_time * 4.0));
    let digest = mixed(digest, floats::nearest_index(event.end_time * 4.0));
    mixed(digest, event.unit.place as u64)
}

// ---- what all three runs have

// A heap, an index or the edits, the last random number, and the digest of all answers so far.
#[derive(Clone, Copy)]
struct Run<T> {
    held: T,
    seed: u32,
    digest: u64,
}

// The digest of so many rounds.
fn digest_of<T: Copy, F: Fn(&mut Run<T>, u64)>(held: T, seed: u32, rounds: u64, round: F) -> u64
    requires { F.IsAlwaysCallable round }
{
    let mut run = Run {
        held,
        seed,
        digest: 0,
    };
    for k in 0..rounds {
        round(&mut run, k);
    }
    run.digest
}

// ---- the heap

// Every 1,024 rounds the more frequent of push and pop changes, so that the heap is full and empty at times.
fn pushes(r: u64, k: u64) -> bool {
    let often = if k / 1024 % 2 == 0 { 6 } else { 2 };
    r % 8 < often
}

fn heap_round(run: &mut Run<Ready>, k: u64) {
    run.seed = random(run.seed);
    let r = u64::from(run.seed);
    let heap = run.held;
    if pushes(r, k) {
        run.held = heap.push(event_of(r / 8 % 64, k % 65536 * 2654435761 % 4294967296));
    } else {
        if heap.len != 0 {
            run.digest = seen(run.digest, heap.peek());
        }
        run.held = heap.pop();
    }
    run.digest = mixed(run.digest, run.held.len as u64);
}

fn heap_digest(rounds: u64) -> u64 {
    digest_of(Ready::new(), 2463534242, rounds, heap_round)
}

// ---- the index

fn append(mut index: ActiveMap, id: EventId) -> ActiveMap {
    let n = index.len;
    if n < 256 {
        index.ids[n] = id;
        index.len = n + 1;
    }
    index
}

// The last fills place i, if the round says so.
fn swap_remove(mut index: ActiveMap, i: usize, leaves: bool) -> ActiveMap {
    let n = index.len;
    if leaves && i < n && n <= 256 {
        index.ids[i] = index.ids[n - 1];
        index.len = n - 1;
    }
    index
}

// A number that is missing is appended, one that is there leaves if the round says so.
fn index_round(run: &mut Run<ActiveMap>, k: u64) {
    run.seed = random(run.seed);
    let r = u64::from(run.seed);
    let id = EventId(r % 320);
    let found = run.held.find(id);
    run.held = match found {
        Some(i) => swap_remove(run.held, i, r / 512 % 4 < k / 1024 % 4),
        None => append(run.held, id),
    };
    let digest = mixed(run.digest, found.map_or(999, |i| i as u64));
    run.digest = mixed(digest, run.held.len as u64);
}

fn index_digest(rounds: u64) -> u64 {
    let index = ActiveMap {
        ids: [EventId(0); 256],
        len: 0,
    };
    digest_of(index, 88172645, rounds, index_round)
}

// ---- the edits

// The digest with all edits in it, in their order.
fn all_edits(start: u64, edits: EditMap) -> u64 {
    if 256 < edits.len {
        return 0;
    }
    let mut digest = start;
    for stored in &edits.items[..edits.len] {
        digest = mixed(digest, stored.id.0);
        digest = mixed(digest, floats::nearest_index(stored.edit.end_time));
    }
    digest
}

fn looked_up(digest: u64, found: Option<Edit>) -> u64 {
    match found {
        Some(edit) => mixed(mixed(digest, 1), floats::nearest_index(edit.end_time)),
        None => mixed(digest, 0),
    }
}

// An edit is stored or replaced, taken out, or looked up; at times the map is full. Every 512 rounds all edits are read.
fn edit_round(run: &mut Run<EditMap>, k: u64) {
    run.seed = random(run.seed);
    let r = u64::from(run.seed);
    let id = EventId(r % 400);
    let what = r / 512 % 8;
    if what < 4 {
        let edit = Edit {
            end_time: std::num::nearest_u64_to_f64(r / 512),
            fade_out: 0.5,
        };
        run.held = run.held.insert(id, edit);
    } else if what < 4 + k / 1024 % 3 {
        run.held = run.held.remove(id);
    } else {
        run.digest = looked_up(run.digest, run.held.find(id));
    }
    run.digest = mixed(run.digest, run.held.len as u64);
    if k % 512 == 0 {
        run.digest = all_edits(run.digest, run.held);
    }
}

fn edit_digest(rounds: u64) -> u64 {
    digest_of(EditMap::new(), 1234567891, rounds, edit_round)
}

// ---- the listing

// A line of a name and sixteen hexadecimal digits.
fn print<R: Print>(rt: &R, name: &str, x: u64) -> io::Result<()> {
    println!(rt; "{name}{x:016X}")
}

fn main(rt: HostRuntime) -> io::Result<()> {
    print(&rt, "heap  ", heap_digest(40000))?;
    print(&rt, "index ", index_digest(20000))?;
    print(&rt, "edits ", edit_digest(20000))?;
    print(&rt, "peak 0    ", peaks::peak_digest(0, 4096))?;
    print(&rt, "peak 1    ", peaks::peak_digest(1, 4096))?;
    print(&rt, "peak 2    ", peaks::peak_digest(2, 4096))?;
    print(&rt, "peak 64   ", peaks::peak_digest(64, 4096))?;
    print(&rt, "peak 1000 ", peaks::peak_digest(1000, 4096))?;
    print(&rt, "peak 4095 ", peaks::peak_digest(4095, 4096))?;
    print(&rt, "peak 4096 ", peaks::peak_digest(4096, 4096))?;
    print(&rt, "peak 4097 ", peaks::peak_digest(4097, 4096))?;
    print(&rt, "peak 1 in 0   ", peaks::peak_digest(1, 0))?;
    print(&rt, "peak 64 in 0  ", peaks::peak_digest(64, 0))?;
    print(&rt, "peak 64 in 63 ", peaks::peak_digest(64, 63))?;
    print(&rt, "peak 64 in 64 ", peaks::peak_digest(64, 64))?;
    print(&rt, "hours ", hours::hours_digest(4000))
}
