// The refusals of documents 01 and 02 in words: one table for every page.
#![tactic(auto)]

ghost use Rattle.std.specs.Prelude.{◌≡◌};
ghost use Rattle.listing.specs.Pieces.{text, add};
ghost use Rattle.refusal_texts.specs.Texts.{text_of};

use listing::pieces::put_bytes;

// By number, since documents 01 and 02 number the refusals of several crates in one list.
// Puts the text of a refusal into a lent buffer, and answers the next free place. A text that has no room is left out, and the place stays.
pub fn refusal_text(number: u64, out: &mut [u8], at: usize) -> usize
    ensures { text out.new result ≡ add (text_of number) (text out.old at) }
{
    match number {
        1 => put_bytes(
            b"the channels are not 1 to 8, or the first number is 0",
            out,
            at,
        ),
        2 => put_bytes(b"a rate is not from 1 to 1,000,000", out, at),
        3 => put_bytes(
            b"a time or fade is not a number, or is beyond 1,000,000,000",
            out,
            at,
        ),
        4 => put_bytes(b"a fade is longer than the clip", out, at),
        5 => put_bytes(b"a level, ramp value or step is not finite", out, at),
        6 => put_bytes(b"256 clips are held", out, at),
        7 => put_bytes(b"the last number has been given", out, at),
        8 => put_bytes(
            b"an edit's end or fade is not a number, or is beyond 1,000,000,000",
            out,
            at,
        ),
        9 => put_bytes(b"256 edits are stored", out, at),
        10 => put_bytes(b"the lent output has another length", out, at),
        11 => put_bytes(b"a block is longer than 64", out, at),
        12 => put_bytes(b"the clock would pass 1,000,000,000 s", out, at),
        13 => put_bytes(b"64 messages are queued", out, at),
        14 => put_bytes(
            b"a kind, mode, curve or source byte is unknown, or 00 is not first and only first",
            out,
            at,
        ),
        15 => put_bytes(b"the tape ends inside a record", out, at),
        16 => put_bytes(
            b"a chapter has more than 32 records, or its slice another length",
            out,
            at,
        ),
        17 => put_bytes(
            b"a stretch is empty or not a number, or its slice has another length",
            out,
            at,
        ),
        18 => put_bytes(b"a gain is not finite", out, at),
        19 => put_bytes(b"the record does not fit behind the free place", out, at),
        20 => put_bytes(b"a peak's window is not from 1 to 4,096", out, at),
        21 => put_bytes(
            b"the lodge's windows, minute or length are not proper",
            out,
            at,
        ),
        22 => put_bytes(b"every window is shorter than the length", out, at),
        23 => put_bytes(b"the count of pushes is not from 1 to 256", out, at),
        24 => put_bytes(b"a preview's first entry is above 1,024", out, at),
        _ => put_bytes(b"no refusal", out, at),
    }
}
