// A tape as one SVG page: a lane for each clip, marks for edits and refused calls, the wave of each channel, and the sum. Each function puts an element, piece by piece, into a lent buffer (crate tape_words); where it stands is crate chart.
#![tactic(auto)]

ghost use Rattle.std.specs.Prelude.{◌≡◌, ◌≤◌};
ghost use Rattle.listing.specs.Pieces.{text, add, add_all};
ghost use Rattle.tape_words.specs.Words.{by_place};
ghost use Rattle.tape_sheet.specs.Elements.{name_text, attribute, open_text, open_path, bounds, open_box, standing, clock_text, axis_time, axis_mark, segment, lane, open_mark, refused, edit_title, edited, edited_lane, called, bar, wave, swatch, page, measures, foot, stop_text};

use listing::pieces::{put_bytes, put_decimal};
use sequencer::{Answer, Counts};
use tape_words::{
    is_sounding, put_answer, put_by_place, put_call, put_call_at, put_either, put_numbered,
    put_peak, put_refusal, put_sum, put_time, put_timed,
};

// One of four numbers, by where a clip stands: 0 waiting, 1 sounding, 2 finished, 3 let go.
fn by_place(place: u64, waiting: u64, sounding: u64, finished: u64, let_go: u64) -> u64
    ensures { result ≡ by_place place waiting sounding finished let_go }
{
    match place {
        0 => waiting,
        1 => sounding,
        2 => finished,
        _ => let_go,
    }
}

// A standing in words.
fn put_name(place: u64, out: &mut [u8], at: usize) -> usize
    ensures { text out.new result ≡ add (name_text place) (text out.old at) }
{
    put_by_place(
        place,
        b"waiting",
        b"sounding",
        b"finished",
        b"let go",
        out,
        at,
    )
}

// name="n"
fn put_attribute(name: &[u8], n: u64, out: &mut [u8], at: usize) -> usize
    ensures { text out.new result ≡ add_all (attribute name.now n) (text out.old at) }
{
    let to = put_bytes(b" ", out, at);
    let to = put_bytes(name, out, to);
    let to = put_numbered(b"=\"", n, out, to);
    put_bytes(b"\"", out, to)
}

// A text of a class at a place, opened.
fn put_open_text(class: &[u8], x: u64, y: u64, out: &mut [u8], at: usize) -> usize
    ensures { text out.new result ≡ add_all (open_text class.now x y) (text out.old at) }
{
    let to = put_bytes(b"<text class=\"", out, at);
    let to = put_bytes(class, out, to);
    let to = put_bytes(b"\"", out, to);
    let to = put_attribute(b"x", x, out, to);
    let to = put_attribute(b"y", y, out, to);
    put_bytes(b">", out, to)
}

// A path of a class from a place on, opened.
fn put_open_path(class: &[u8], x: u64, y: u64, out: &mut [u8], at: usize) -> usize
    ensures { text out.new result ≡ add_all (open_path class.now x y) (text out.old at) }
{
    let to = put_bytes(b"<path class=\"", out, at);
    let to = put_bytes(class, out, to);
    let to = put_numbered(b"\" d=\"M", x, out, to);
    put_numbered(b" ", y, out, to)
}

// Where a box stands.
fn put_bounds(x: u64, y: u64, width: u64, height: u64, out: &mut [u8], at: usize) -> usize
    ensures { text out.new result ≡ add_all (bounds x y width height) (text out.old at) }
{
    let to = put_attribute(b"x", x, out, at);
    let to = put_attribute(b"y", y, out, to);
    let to = put_attribute(b"width", width, out, to);
    put_attribute(b"height", height, out, to)
}

// A box of a class, opened.
fn put_open_box(
    class: &[u8],
    x: u64,
    y: u64,
    width: u64,
    height: u64,
    out: &mut [u8],
    at: usize,
) -> usize
    ensures { text out.new result ≡ add_all (open_box class.now x y width height) (text out.old at) }
{
    let to = put_bytes(b"<rect class=\"", out, at);
    let to = put_bytes(class, out, to);
    let to = put_bytes(b"\"", out, to);
    let to = put_bounds(x, y, width, height, out, to);
    put_bytes(b">", out, to)
}

// A standing's box below `top`, up to its last attribute: each standing has a class in the style, and a height of its own, so that it is told in grey too.
fn put_standing(place: u64, x: u64, top: u64, width: u64, out: &mut [u8], at: usize) -> usize
    requires { top ≤ 35_184_372_088_832 }
    ensures { text out.new result ≡ add_all (standing place x top width) (text out.old at) }
{
    let inset = by_place(place, 8, 5, 7, 9);
    let height = by_place(place, 4, 10, 6, 2);
    let to = put_bytes(b"<rect class=\"", out, at);
    let to = put_by_place(place, b"w", b"s", b"f", b"g", out, to);
    let to = put_bytes(b"\"", out, to);
    put_bounds(x, top + inset, width, height, out, to)
}

// Seconds as hours, minutes and seconds.
fn put_clock(s: u64, out: &mut [u8], at: usize) -> usize
    ensures { text out.new result ≡ add_all (clock_text s) (text out.old at) }
{
    let to = put_decimal(s / 3600, out, at);
    let to = put_bytes(b":", out, to);
    let to = put_decimal(s / 600 % 6, out, to);
    let to = put_decimal(s / 60 % 10, out, to);
    let to = put_bytes(b":", out, to);
    let to = put_decimal(s / 10 % 6, out, to);
    put_decimal(s % 10, out, to)
}

// A time of the axis: hours, minutes and seconds where the marks are a second or more apart.
pub fn put_axis_time(time: u64, step: u64, out: &mut [u8], at: usize) -> usize
    ensures { text out.new result ≡ add_all (axis_time time step) (text out.old at) }
{
    if step < 1000000 {
        return put_time(time, out, at);
    }
    put_clock(time / 1000000, out, at)
}

// A line of the axis through a group of lanes, with its time above.
pub fn put_axis_mark(
    time: u64,
    total: u64,
    step: u64,
    top: u64,
    height: u64,
    out: &mut [u8],
    at: usize,
) -> usize
    ensures { text out.new result ≡ add_all (axis_mark time total step top height) (text out.old at) }
{
    let x = chart::x(time, total);
    let above = top.saturating_sub(3);
    let to = put_open_path(b"a", x, top, out, at);
    let to = put_numbered(b"v", height, out, to);
    let to = put_bytes(b"\"/>", out, to);
    let to = put_open_text(b"t", x + 2, above, out, to);
    let to = put_axis_time(time, step, out, to);
    put_bytes(b"</text>\n", out, to)
}

// A clip's standing from a time to another. Where no time passes nothing is drawn.
pub fn put_segment(
    total: u64,
    first: u64,
    clip: u64,
    place: u64,
    from: u64,
    until: u64,
    out: &mut [u8],
    at: usize,
) -> usize
    ensures { text out.new result ≡ add_all (segment total first clip place from until) (text out.old at) }
{
    if from == until {
        return at;
    }
    let i = clip.saturating_sub(first);
    let x = chart::x(from, total);
    let y = chart::lane(i);
    let width = chart::breadth(from, until, total);
    let to = put_standing(place, x, y, width, out, at);
    let to = put_numbered(b"><title>clip ", clip, out, to);
    let to = put_bytes(b": ", out, to);
    let to = put_name(place, out, to);
    let to = put_timed(b" from ", from, out, to);
    let to = put_timed(b" to ", until, out, to);
    put_bytes(b"</title></rect>\n", out, to)
}

// A lane's line, its number, and a mark where the clip was laid.
pub fn put_lane(
    total: u64,
    first: u64,
    clip: u64,
    place: u64,
    time: u64,
    out: &mut [u8],
    at: usize,
) -> usize
    ensures { text out.new result ≡ add_all (lane total first clip place time) (text out.old at) }
{
    let i = clip.saturating_sub(first);
    let y = chart::lane(i);
    let left = chart::x(time, total).saturating_sub(6);
    let to = put_open_path(b"l", 170, y + 10, out, at);
    let to = put_bytes(b"h1400\"/>", out, to);
    let to = put_open_text(b"n", 162, y + 14, out, to);
    let to = put_decimal(clip, out, to);
    let to = put_bytes(b"</text>", out, to);
    let to = put_open_path(b"p", left, y + 5, out, to);
    let to = put_numbered(b"l6 5l-6 5z\"><title>clip ", clip, out, to);
    let to = put_timed(b" laid at ", time, out, to);
    let to = put_either(
        is_sounding(place),
        b", straight to sounding",
        b", waits",
        out,
        to,
    );
    put_bytes(b"</title></path>\n", out, to)
}

// A mark of the strip, in one of eight rows, opened.
fn put_open_mark(class: &[u8], total: u64, time: u64, row: u64, out: &mut [u8], at: usize) -> usize
    ensures { text out.new result ≡ add_all (open_mark class.now total time row) (text out.old at) }
{
    let x = chart::x(time, total);
    let to = put_bytes(b"<g>", out, at);
    let to = put_open_box(class, x, 70 + row % 8 * 13, 32, 12, out, to);
    let to = put_bytes(b"</rect>", out, to);
    put_open_text(class, x + 16, 79 + row % 8 * 13, out, to)
}

// A refused call, by its number.
pub fn put_refused(
    total: u64,
    row: u64,
    kind: u8,
    clip: u64,
    refusal: u64,
    time: u64,
    out: &mut [u8],
    at: usize,
) -> usize
    ensures { text out.new result ≡ add_all (refused total row kind clip refusal time) (text out.old at) }
{
    let to = put_open_mark(b"r", total, time, row, out, at);
    let to = put_decimal(refusal, out, to);
    let to = put_bytes(b"</text><title>", out, to);
    let to = put_call_at(kind, clip, time, out, to);
    let to = put_bytes(b": ", out, to);
    let to = put_refusal(refusal, out, to);
    put_bytes(b"</title></g>\n", out, to)
}

// An edit's call, and what became of it.
fn put_edit_title(kind: u8, clip: u64, told: Answer, time: u64, out: &mut [u8], at: usize) -> usize
    ensures { text out.new result ≡ add_all (edit_title kind clip told time) (text out.old at) }
{
    let to = put_call_at(kind, clip, time, out, at);
    let to = put_bytes(b": ", out, to);
    put_answer(told, out, to)
}

// An edit, in the strip.
pub fn put_edited(
    total: u64,
    row: u64,
    kind: u8,
    clip: u64,
    told: Answer,
    time: u64,
    out: &mut [u8],
    at: usize,
) -> usize
    ensures { text out.new result ≡ add_all (edited total row kind clip told time) (text out.old at) }
{
    let to = put_open_mark(b"e", total, time, row, out, at);
    let to = put_bytes(b"edit</text><title>", out, to);
    let to = put_edit_title(kind, clip, told, time, out, to);
    put_bytes(b"</title></g>\n", out, to)
}

// An edit, on its clip's lane.
pub fn put_edited_lane(
    total: u64,
    first: u64,
    kind: u8,
    clip: u64,
    told: Answer,
    time: u64,
    out: &mut [u8],
    at: usize,
) -> usize
    ensures { text out.new result ≡ add_all (edited_lane total first kind clip told time) (text out.old at) }
{
    let i = clip.saturating_sub(first);
    let x = chart::x(time, total);
    let y = chart::lane(i);
    let to = put_open_path(b"d", x, y + 5, out, at);
    let to = put_bytes(b"l-4 -5h8z\"><title>", out, to);
    let to = put_edit_title(kind, clip, told, time, out, to);
    put_bytes(b"</title></path>\n", out, to)
}

// A reset or a rate, in the strip and through the lanes.
pub fn put_called(
    total: u64,
    row: u64,
    lanes: u64,
    kind: u8,
    time: u64,
    out: &mut [u8],
    at: usize,
) -> usize
    ensures { text out.new result ≡ add_all (called total row lanes kind time) (text out.old at) }
{
    let x = chart::x(time, total);
    let height = chart::lanes_end(lanes).saturating_sub(176);
    let to = put_open_mark(b"c", total, time, row, out, at);
    let to = put_call(kind, 0, out, to);
    let to = put_bytes(b"</text><title>", out, to);
    let to = put_call_at(kind, 0, time, out, to);
    let to = put_bytes(b"</title></g>", out, to);
    let to = put_open_path(b"c", x, 176, out, to);
    let to = put_numbered(b"v", height, out, to);
    put_bytes(b"\"/>\n", out, to)
}

// A bar about the middle, where the peak is above 0.
pub fn put_bar(bits: u32, column: u32, middle: u64, out: &mut [u8], at: usize) -> usize
    ensures { text out.new result ≡ add_all (bar bits column middle) (text out.old at) }
{
    if bits == 0 {
        return at;
    }
    let h = chart::height(bits, 40);
    let top = middle.saturating_sub(h);
    let to = put_numbered(b"M", 170 + column as u64, out, at);
    let to = put_numbered(b" ", top, out, to);
    put_numbered(b"v", h + h + 1, out, to)
}

// A channel's wave up to its bars: its box, its number and its peak.
pub fn put_wave(lanes: u64, channel: u32, most: u32, out: &mut [u8], at: usize) -> usize
    ensures { text out.new result ≡ add_all (wave lanes channel most) (text out.old at) }
{
    let y = chart::wave(lanes, channel as u64);
    let to = put_open_box(b"b", 170, y, 1401, 81, out, at);
    let to = put_numbered(b"<title>channel ", channel as u64 + 1, out, to);
    let to = put_bytes(b": peak ", out, to);
    let to = put_peak(most, out, to);
    let to = put_bytes(b"</title></rect>", out, to);
    let to = put_open_text(b"n", 162, y + 38, out, to);
    let to = put_numbered(b"channel ", channel as u64 + 1, out, to);
    let to = put_bytes(b"</text>", out, to);
    let to = put_open_text(b"n", 162, y + 52, out, to);
    let to = put_bytes(b"peak ", out, to);
    let to = put_peak(most, out, to);
    let to = put_bytes(b"</text>", out, to);
    let to = put_open_path(b"v", 170, y + 40, out, to);
    put_bytes(b"h1401", out, to)
}

// A standing of the key.
pub fn put_swatch(place: u64, x: u32, out: &mut [u8], at: usize) -> usize
    ensures { text out.new result ≡ add_all (swatch place x) (text out.old at) }
{
    let to = put_standing(place, x as u64, 40, 40, out, at);
    let to = put_bytes(b"/>", out, to);
    let to = put_open_text(b"k", x as u64 + 46, 51, out, to);
    let to = put_name(place, out, to);
    put_bytes(b"</text>\n", out, to)
}

// The page's beginning, up to the tape's name.
pub fn put_page(lanes: u64, channels: u64, out: &mut [u8], at: usize) -> usize
    ensures { text out.new result ≡ add_all (page lanes channels) (text out.old at) }
{
    let y = chart::wave(lanes, channels);
    let to = put_bytes(
        b"<svg xmlns=\"http://www.w3.org/2000/svg\" width=\"1640\"",
        out,
        at,
    );
    let to = put_attribute(b"height", y + 60, out, to);
    let to = put_numbered(b" viewBox=\"0 0 1640 ", y + 60, out, to);
    put_bytes(b"\">\n<title>Proof sheet of ", out, to)
}

// How many clips, channels, and how much time.
pub fn put_measures(lanes: u64, channels: u64, total: u64, out: &mut [u8], at: usize) -> usize
    ensures { text out.new result ≡ add_all (measures lanes channels total) (text out.old at) }
{
    let to = put_open_text(b"k", 600, 26, out, at);
    let to = put_decimal(lanes, out, to);
    let to = put_numbered(b" clips laid, ", channels, out, to);
    let to = put_timed(b" channels, ", total, out, to);
    let to = put_bytes(b" played (", out, to);
    let to = put_axis_time(total, 1000000, out, to);
    put_bytes(b")</text>\n", out, to)
}

// The sum of the counts, below the waves.
pub fn put_foot(
    lanes: u64,
    channels: u64,
    pushes: u64,
    counts: Counts,
    out: &mut [u8],
    at: usize,
) -> usize
    ensures { text out.new result ≡ add_all (foot lanes channels pushes counts) (text out.old at) }
{
    let y = chart::wave(lanes, channels);
    let to = put_open_text(b"z", 170, y + 20, out, at);
    let to = put_sum(pushes, counts, out, to);
    put_bytes(b"</text>\n", out, to)
}

// What stops the tape, below the sum.
pub fn put_stop(lanes: u64, channels: u64, stop: Option<u64>, out: &mut [u8], at: usize) -> usize
    ensures { text out.new result ≡ add_all (stop_text lanes channels stop) (text out.old at) }
{
    match stop {
        Some(refusal) => {
            let y = chart::wave(lanes, channels);
            let to = put_open_text(b"z", 170, y + 42, out, at);
            let to = put_bytes(b"the tape stops: ", out, to);
            let to = put_refusal(refusal, out, to);
            put_bytes(b"</text>\n", out, to)
        }
        None => at,
    }
}
