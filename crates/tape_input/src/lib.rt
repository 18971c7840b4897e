// A tape read in pieces through a buffer: for programs that read a tape of any length. Which bytes a reader of the system gives no contract can say; what else reading leaves, specs/Reading.antt does.
#![tactic(auto)]

ghost use Rattle.std.specs.Prelude.{◌≡◌, cond, false, ◌++◌, ◌+◌, ◌-◌, ◌≤◌, min, ltb, leb, length, take, drop, IfOk, IfSome};
ghost use Rattle.tape_input.specs.Reading.{ReadOn, NextTape};

use std::io::Read;

// Moves the bytes from `at` up to `have` to the front, and answers how many they are.
pub fn shift(buf: &mut [u8], at: usize, have: usize) -> usize
    ensures count { result ≡ min have (length buf.old) - at }
    ensures lent { buf.new ≡ take result (drop at buf.old) ++ drop result buf.old }
{
    let end = have.min(buf.len());
    if end <= at {
        return 0;
    }
    buf.copy_within(at..end, 0);
    end - at
}

// That bytes cannot be read.
#[derive(Clone, Copy, PartialEq, Eq)]
pub struct Unread;

// Reads once, behind the first `have` bytes; answers how many bytes came, none at the end.
pub fn read_on<R: Read>(from: &mut R, buf: &mut [u8], have: usize) -> Result<usize, Unread>
    ensures bound { IfOk result (λ n. have + n ≤ length buf.old) }
    ensures read { ReadOn buf.old have buf.new result }
{
    if buf.len() < have {
        return Err(Unread);
    }
    from.read(&mut buf[have..]).map_err(|_| Unread)
}

// Whether `have` bytes hold a whole record of any kind from `at` on: reading one needs no more than 47 (tape, specs/Window).
pub fn enough(at: usize, have: usize) -> bool
    ensures { result ≡ cond (ltb have at) false (leb 47 (have - at)) }
{
    at <= have && 47 <= have - at
}

// Reads the next tape from where each stands behind its length in two bytes, the lower first; answers how many bytes it has, or none at the end of the input.
pub fn next_tape<R: Read>(from: &mut R, buf: &mut [u8]) -> Option<usize>
    ensures bound { IfSome result (λ n. n ≤ length buf.old) }
    ensures read { NextTape buf.old buf.new result }
{
    let mut head = [0u8; 2];
    if streams::read_full(from, &mut head) < 2 {
        return None;
    }
    let n = usize::from(u16::from_le_bytes(head));
    if buf.len() < n {
        return None;
    }
    if streams::read_full(from, &mut buf[..n]) < n {
        return None;
    }
    Some(n)
}
