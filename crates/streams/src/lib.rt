// What the programs share over std's streams: a buffer read full, arguments as bytes, a file opened by its name's bytes, and the words for what failed.
// What is written on standard error no clause can say: std has no model of it.
#![tactic(auto)]

ghost use Rattle.std.specs.Prelude.{◌≡◌, ◌≤◌, ◌<◌, ◌^◌, length, take, drop, Some, IsErr, IfErr};
ghost use Rattle.std.specs.Str.{IsUtf8};
ghost use Rattle.std.specs.Io.KnownBytes.{Consumes};
ghost use Rattle.std.specs.IoError.{error_kind, raw_os_error};
ghost use Rattle.streams.specs.Words.{no_text, code_of};

use std::io::{ErrorKind, Read, Write};
use std::rt::{Env, Files};
use std::{env, fs, io, str};

// Reads until the buffer is full, the input ends or a read fails; answers how many bytes came, which stand at its front. With no room it reads nothing.
pub fn read_full<R: Read>(from: &mut R, buf: &mut [u8]) -> usize
    ensures bound { result ≤ length buf.new }
    ensures front { result ≡ length (take result buf.new) }
    ensures unmoved { length buf.new ≡ length buf.old }
    ensures bytes { Consumes (R.remaining from.old) (R.remaining from.new) (take result buf.new) }
{
    let mut done: usize = 0;
    while done < buf.len() {
        let n = from.read(&mut buf[done..]).unwrap_or(0);
        if n == 0 {
            return done;
        }
        done += n;
    }
    done
}

// How many words a program was called with, its own name among them. How many a runtime has, no clause of std's says.
pub fn argument_count<E: Env>(env: &E) -> usize {
    for i in 0..usize::MAX {
        if let Err(env::FillError::NotPresent) = env.arg(i, &mut []) {
            return i;
        }
    }
    usize::MAX
}

// Puts argument i at the front of the buffer, and answers its length; 0 where it is missing or has more bytes than there is room for.
pub fn argument<E: Env>(env: &E, i: usize, buf: &mut [u8]) -> usize
    ensures bound { result ≤ length buf.new }
    ensures front { result ≡ length (take result buf.new) }
    ensures unmoved { length buf.new ≡ length buf.old }
{
    env.arg(i, buf).unwrap_or(0)
}

// Why an argument could not be had, in the system's words: there is none (22), or it is too long (36).
pub fn no_argument(why: env::FillError) -> io::Error
    ensures { raw_os_error result ≡ Some (code_of why) }
{
    match why {
        env::FillError::NotPresent => io::Error::from_raw_os_error(22),
        env::FillError::TooLong => io::Error::from_raw_os_error(36),
    }
}

// Bytes as text; `?` where they are none.
pub fn text(bytes: &[u8]) -> &str
    ensures text { IsUtf8 bytes.now → result.now ≡ bytes.now }
    ensures none { (IsUtf8 bytes.now → ⊥) → result.now ≡ no_text }
{
    str::from_utf8(bytes).unwrap_or("?")
}

// Says bytes that are text on standard error. That this fails is said nowhere.
pub fn say<E: Eprint>(rt: &E, bytes: &[u8]) {
    let _ = rt.eprint(text(bytes));
}

// A path as a file's name.
fn name(path: &[u8]) -> io::Result<&str>
    ensures not_text { (IsUtf8 path.now → ⊥) → IsErr result }
    ensures kind { IfErr result (λ e. error_kind e ≡ ErrorKind.InvalidFilename) }
{
    str::from_utf8(path).map_err(|_| io::Error::new(
        ErrorKind::InvalidFilename,
        "The name is not UTF-8 text",
    ))
}

// Opens the file that a path names, to be read.
pub fn open<R: Files>(files: &R, path: &[u8]) -> io::Result<R::File>
    ensures not_text { (IsUtf8 path.now → ⊥) → IsErr result }
    ensures kind { (IsUtf8 path.now → ⊥) → IfErr result (λ e. error_kind e ≡ ErrorKind.InvalidFilename) }
{
    fs::open(files, name(path)?)
}

// Empties the file that a path names, or makes it, to be written.
pub fn create<R: Files>(files: &R, path: &[u8]) -> io::Result<R::File>
    ensures not_text { (IsUtf8 path.now → ⊥) → IsErr result }
    ensures kind { (IsUtf8 path.now → ⊥) → IfErr result (λ e. error_kind e ≡ ErrorKind.InvalidFilename) }
{
    fs::create(files, name(path)?)
}

// The system's words for an error stand before its number.
fn without_number(words: &str) -> &str {
    words
        .split_once(" (os error ")
        .map_or(words, |(front, _)| front)
}

// The longest words of the system for an error, with its number.
const WORDS: usize = 256;

// Says on standard error what failed, as the caller names it, and why.
pub fn fail<E: Eprint>(rt: &E, what: &[u8], error: &io::Error) {
    let mut words = [0u8; WORDS];
    let mut room: &mut [u8] = &mut words;
    let _ = write!(room, "{error}");
    let left = room.len();
    let what = text(what);
    if left <= WORDS {
        let why = without_number(text(&words[..WORDS - left]));
        let _ = eprint!(rt; "{what}: {why}\n");
    }
}
