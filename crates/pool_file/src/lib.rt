// The pool that clips read: document 01's, or from a file, a WAV of one channel of 32-bit floats, or such samples and nothing else. For programs: which bytes a file gives no contract can say, so
// `load` promises how many samples there are and where they stand in the pool (`Loads`). Where they stand in the file and what ends them is decided by the functions above it, by the definitions of
// specs/Pools.antt.
#![tactic(auto)]

ghost use Rattle.std.specs.Prelude.{◌≡◌, ◌-◌, ◌≤◌, length, take, replicate, true, IfOk, IfSome};
ghost use Rattle.std.proofs.lemmas.List.Edits.{sets};
ghost use Rattle.floats.specs.Arithmetic.{zeroᶠ};
ghost use Rattle.recording.specs.Samples.{samples_from};
ghost use Rattle.pool_file.specs.Loading.{loaded_of, Fills, Loads};
ghost use Rattle.pool_file.specs.Pools.{is_option, option_line, mono_float, known_by, place_of, trail_loaded, with_trail_pool};

use std::fmt;
use std::io::Read;
use std::rt::Files;
use tape::fields;
use tape_input::Unread;

// Room for the longest pool.
pub fn room() -> [f32; 262144]
    ensures length { 262144 ≡ length result }
    ensures zeros { result ≡ replicate 262144 zeroᶠ }
{
    [0.0; 262144]
}

// The same room, as a number of samples.
pub const ROOM: usize = 262144;

// Where the samples stand in a file, and how many bytes they take.
#[derive(Clone, Copy)]
struct Place {
    from: usize,
    size: usize,
}

// Whether a format is one channel of IEEE floats of 32 bits, by its number or, in the long form, by that of its kind.
fn is_mono_float(head: &[u8], at: usize) -> bool
    requires { at ≤ 65_544 }
    ensures { result ≡ mono_float head.now at }
{
    if fields::word(head, at + 2, 2) != 1 {
        return false;
    }
    if fields::word(head, at + 14, 2) != 32 {
        return false;
    }
    let tag = fields::word(head, at, 2);
    if tag == 0xFFFE {
        return fields::word(head, at + 24, 2) == 3;
    }
    tag == 3
}

// Whether the format is known behind the chunk at a place.
fn known_by(head: &[u8], at: usize, known: bool) -> bool
    requires { at ≤ 65_536 }
    ensures { result ≡ known_by head.now at known }
{
    if fields::word32(head, at) == 0x2074_6D66 {
        return is_mono_float(head, at + 8);
    }
    known
}

// The chunk `data` of a WAV of one channel of 32-bit floats, among the file's first bytes; a file that is no RIFF is all samples.
fn find_samples(head: &[u8]) -> Option<Place>
    ensures { result ≡ place_of head.now }
{
    if fields::word32(head, 0) != 0x4646_4952 {
        return Some(Place {
            from: 0,
            size: usize::MAX,
        });
    }
    let mut at: usize = 12;
    let mut known = false;
    for _ in 0..head.len() {
        if 65536 < at {
            return None;
        }
        if head.len() < at + 8 {
            return None;
        }
        let name = fields::word32(head, at);
        let size = fields::word32(head, at + 4) as usize;
        if name == 0x6174_6164 {
            return known.then_some(Place { from: at + 8, size });
        }
        known = known_by(head, at, known);
        at = at + 8 + size + size % 2;
    }
    None
}

// Whether an argument is `--pool`, behind which the file's name stands.
pub fn is_option(argument: &[u8]) -> bool
    ensures { result ≡ is_option argument.now }
{
    if argument.len() != 6 {
        return false;
    }
    fields::word(argument, 0, 6) == 0x6C6F_6F70_2D2D
}

// The option's line of a usage.
pub fn option_line() -> [u8; 124]
    ensures { result ≡ option_line }
{
    *b"Clips read from FILE, a WAV of one channel of 32-bit floats or a file of such samples; without it, from document 01's pool.\n"
}

// Why a file's samples are not a pool.
#[derive(Clone, Copy)]
enum Fault {
    Unknown,
    Unread,
    NoRoom,
}

impl fmt::Display for Fault {
    fn fmt<W: fmt::Write>(&self, f: &mut fmt::Formatter<W>) -> fmt::Result {
        match self {
            Fault::Unknown => f.write_str(
                "neither samples of 32-bit floats nor a WAV of one channel of them (sox IN -c 1 -e float -b 32 OUT.wav makes one)",
            ),
            Fault::Unread => f.write_str("cannot be read"),
            Fault::NoRoom => f.write_str("more samples than there is room for"),
        }
    }
}

impl From<Unread> for Fault {
    fn from(_: Unread) -> Fault {
        Fault::Unread
    }
}

// The bytes at hand, those that are still to come, the samples so far, and whether they are all.
#[derive(Clone, Copy)]
struct Filling {
    have: usize,
    left: usize,
    count: usize,
    whole: bool,
}

// The samples of the first n bytes; how many.
fn put(buf: &[u8], n: usize, pool: &mut [f32], count: usize) -> usize
    ensures bound { result ≤ length pool.old - count }
    ensures lent { pool.new ≡ sets pool.old count (samples_from (take n buf.now) result 0) }
{
    if buf.len() < n {
        return 0;
    }
    recording::put_samples(&buf[..n], pool, count)
}

// Reads more behind the bytes at hand.
fn more<R: Read>(from: &mut R, buf: &mut [u8], s: Filling) -> Result<Filling, Fault>
    ensures { IfOk result (λ t. t.count ≡ s.count) }
{
    let came = tape_input::read_on(from, buf, s.have)?;
    Ok(Filling {
        have: s.have + came,
        whole: came == 0 || s.left < 4,
        ..s
    })
}

// Moves on by the bytes at hand, and reads more.
fn step<R: Read>(
    from: &mut R,
    buf: &mut [u8],
    pool: &mut [f32],
    s: Filling,
) -> Result<Filling, Fault>
    requires { s.count ≤ length pool.old }
    ensures { Fills pool.old s.count pool.new result }
{
    let n = s.have.min(s.left);
    let k = put(buf, n, pool, s.count);
    if n / 4 != k {
        return Err(Fault::NoRoom);
    }
    let total = s.count + k;
    let have = tape_input::shift(buf, 4 * k, s.have);
    let left = s.left - 4 * k;
    more(
        from,
        buf,
        Filling {
            have,
            left,
            count: total,
            whole: false,
        },
    )
}

// All the samples of the file, whose bytes at hand are samples from the first on.
fn fill<R: Read>(
    from: &mut R,
    buf: &mut [u8],
    pool: &mut [f32],
    start: Filling,
) -> Result<Filling, Fault>
    requires { start.count ≤ length pool.old }
    ensures samples { Fills pool.old start.count pool.new result }
    ensures whole { IfOk result (λ s. s.whole ≡ true) }
{
    let mut s = start;
    for _ in 0..u64::MAX {
        s = step(from, buf, pool, s)?;
        if s.whole {
            return Ok(s);
        }
    }
    Err(Fault::NoRoom)
}

// Puts the samples of an open file into `pool`, and answers how many.
fn load_from<R: Read>(from: &mut R, pool: &mut [f32]) -> Result<usize, Fault>
    ensures { Loads pool.old pool.new (loaded_of result) }
{
    let mut buf = [0u8; 65536];
    let n = streams::read_full(from, &mut buf);
    let p = find_samples(&buf[..n]).ok_or(Fault::Unknown)?;
    let have = tape_input::shift(&mut buf, p.from, n);
    let start = Filling {
        have,
        left: p.size,
        count: 0,
        whole: false,
    };
    let all = fill(from, &mut buf, pool, start)?;
    Ok(all.count)
}

// Puts the samples of the file that a path names into `pool`, and answers how many. What is wrong is said on standard error.
pub fn load<R: Files + Eprint>(rt: &R, path: &[u8], pool: &mut [f32]) -> Option<usize>
    ensures bound { IfSome result (λ n. n ≤ length pool.old) }
    ensures lent { Loads pool.old pool.new result }
{
    let mut file = match streams::open(rt, path) {
        Ok(file) => file,
        Err(error) => {
            streams::fail(rt, path, &error);
            return None;
        }
    };
    match load_from(&mut file, pool) {
        Ok(count) => Some(count),
        Err(fault) => {
            let _ = eprint!(rt; "POOL: {fault}\n");
            None
        }
    }
}

// Puts document 01's pool at the front of `pool`, where it has room, and answers its length.
pub fn put_trail_pool(pool: &mut [f32]) -> Option<usize>
    ensures count_in_bounds { IfSome result (λ n. n ≤ length pool.old) }
    ensures value { result ≡ trail_loaded (length pool.old) }
    ensures pool_after { pool.new ≡ with_trail_pool pool.old }
{
    if pool.len() < 4096 {
        return None;
    }
    let samples = tape::pool::trail_pool();
    pool[..4096].copy_from_slice(&samples);
    Some(4096)
}
