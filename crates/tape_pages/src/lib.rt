// What the programs share that make a page of a tape (trail_sheet, trail_story): their arguments, the pool, and the tape's records by their places in the file. For programs: which bytes a
// file gives no contract can say. What is decided of them, and what is left, is said by the definitions of specs/.
#![tactic(auto)]

ghost use Rattle.std.specs.Prelude.{◌≡◌, ◌&&◌, ◌≤◌, max, length, IfSome};
ghost use Rattle.pool_file.specs.Loading.{Loads};
ghost use Rattle.tape_pages.specs.Arguments.{places_of};
ghost use Rattle.tape_pages.specs.Opening.{Opens};
ghost use Rattle.tape_pages.specs.Records.{Stands};

use std::os::unix::fs::FileExt;
use std::rt::{Env, Files};
use tape::reader::{Cursor, Read};

// ---- arguments

// Which argument names the tape, and which the pool's file.
#[derive(Clone, Copy)]
struct Places {
    tape: usize,
    pool: Option<usize>,
}

// TAPE, TAPE --pool FILE, or --pool FILE TAPE; in anything else no tape is named.
fn places_of(count: usize, a: &[u8], b: &[u8]) -> Option<Places>
    ensures { result ≡ places_of count a.now b.now }
{
    if count == 2 {
        if pool_file::is_option(a) {
            return None;
        }
        return Some(Places {
            tape: 1,
            pool: None,
        });
    }
    if count != 4 {
        return None;
    }
    if pool_file::is_option(a) {
        return Some(Places {
            tape: 3,
            pool: Some(2),
        });
    }
    if pool_file::is_option(b) {
        return Some(Places {
            tape: 1,
            pool: Some(3),
        });
    }
    None
}

fn named<E: Env>(env: &E) -> Option<Places> {
    let mut a = [0u8; 4096];
    let n = streams::argument(env, 1, &mut a);
    let mut b = [0u8; 4096];
    let m = streams::argument(env, 2, &mut b);
    places_of(streams::argument_count(env), &a[..n], &b[..m])
}

// What a program is called, and what it does with a tape.
fn usage<E: Eprint>(rt: &E, who: &[u8], what: &[u8]) {
    streams::say(rt, b"usage: ");
    streams::say(rt, who);
    streams::say(rt, b" TAPE [--pool FILE]\n");
    streams::say(rt, what);
    streams::say(rt, &pool_file::option_line());
}

// The pool of the file that an argument names, or document 01's: how many samples it has.
fn load<R: Files + Env + Eprint>(rt: &R, argument: Option<usize>, pool: &mut [f32]) -> Option<usize>
    ensures bound { IfSome result (λ n. n ≤ length pool.old) }
    ensures lent { Loads pool.old pool.new result }
{
    let Some(argument) = argument else {
        return pool_file::put_trail_pool(pool);
    };
    let mut path = [0u8; 4096];
    let n = streams::argument(rt, argument, &mut path);
    pool_file::load(rt, &path[..n], pool)
}

// An open tape, the length of its name, and how many samples the pool has.
#[derive(Drop)]
pub struct Opened<F> {
    pub file: F,
    pub name: usize,
    pub count: usize,
}

// Opens the tape that the program's arguments name, with its name in `name` and the pool in `pool`, where it can be played. What is wrong is said on standard error.
pub fn open<R: Files + Env + Eprint>(
    rt: &R,
    who: &[u8],
    what: &[u8],
    name: &mut [u8],
    pool: &mut [f32],
) -> Option<Opened<R::File>>
    ensures name { IfSome result (λ o. o.name ≤ length name.old) }
    ensures count { IfSome result (λ o. o.count ≤ length pool.old) }
    ensures lent { Opens pool.old pool.new result }
{
    let Some(places) = named(rt) else {
        usage(rt, who, what);
        return None;
    };
    let n = streams::argument(rt, places.tape, name);
    let count = load(rt, places.pool, pool)?;
    match streams::open(rt, &name[..n]) {
        Ok(file) => Some(Opened {
            file,
            name: n,
            count,
        }),
        Err(error) => {
            streams::fail(rt, &name[..n], &error);
            None
        }
    }
}

// ---- records

// The record at a place of the file: its first 64 bytes are read, and a record needs no more than 47 (tape, specs/Window). `next.at` is the record's length. A failed read counts as the tape's end.
pub fn record<E: Eprint, F: FileExt>(rt: &E, who: &[u8], file: &F, at: u64, first: bool) -> Read
    ensures { Stands first result }
{
    if 0x7fff_ffff_ffff_ffff < at {
        return Read::End;
    }
    let mut buf = [0u8; 64];
    let c = Cursor { at: 0, first };
    match file.read_at(&mut buf, at) {
        Ok(n) => c.read(&buf[..n]),
        Err(_) => {
            streams::say(rt, who);
            streams::say(rt, b": the tape cannot be read on\n");
            Read::End
        }
    }
}

// ---- small values

// Whether both hold.
pub fn both(a: bool, b: bool) -> bool
    ensures { result ≡ (a && b) }
{
    a && b
}

// The larger of the two.
pub fn larger(a: u32, b: u32) -> u32
    ensures { result ≡ max a b }
{
    a.max(b)
}
