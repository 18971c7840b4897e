// The page's elements, written as they come.
use sequencer::{Answer, Counts};
use standing::Standing;
use std::io;
use std::io::Write;
use tape_tracks::{Track, place_number};

// What a page is drawn by: whether this is the time to draw, how long the tape plays, how many clips were laid and from which number on, and how many channels.
#[derive(Clone, Copy)]
pub(crate) struct Page {
    pub(crate) draw: bool,
    pub(crate) total: u64,
    pub(crate) lanes: u64,
    pub(crate) first: u64,
    pub(crate) channels: u64,
}

// The last mark of the strip.
#[derive(Clone, Copy)]
pub(crate) struct LastMark {
    pub(crate) x: u64,
    pub(crate) row: u64,
}

// Writes the first n bytes of a text, where it has so many.
pub(crate) fn say<W: Write>(out: &mut W, text: &[u8], n: usize) -> io::Result<()> {
    if text.len() < n {
        return Ok(());
    }
    out.write_all(&text[..n])
}

// ---- lanes

fn axis_mark<W: Write>(
    out: &mut W,
    page: Page,
    time: u64,
    step: u64,
    top: u64,
    height: u64,
) -> io::Result<()> {
    let mut text = [0u8; 4096];
    let n = tape_sheet::put_axis_mark(time, page.total, step, top, height, &mut text, 0);
    say(out, &text, n)
}

// Lines through a group of lanes, with their times above.
fn axis<W: Write>(out: &mut W, page: Page, top: u64, height: u64) -> io::Result<()> {
    let step = chart::step(page.total);
    let mut t: u64 = 0;
    for _ in 0..20 {
        if page.total < t {
            return Ok(());
        }
        axis_mark(out, page, t, step, top, height)?;
        t = t.wrapping_add(step);
    }
    Ok(())
}

// An axis for each group of 64 lanes.
fn axes<W: Write>(out: &mut W, page: Page) -> io::Result<()> {
    let groups = page.lanes / 64;
    for group in 0..groups {
        axis(out, page, chart::lane(group * 64), 1024)?;
    }
    let rest = page.lanes % 64;
    if rest != 0 || page.lanes == 0 {
        axis(out, page, chart::lane(groups * 64), rest * 16 + 4)?;
    }
    Ok(())
}

// A clip's standing up to a time.
pub(crate) fn segment<W: Write>(
    out: &mut W,
    page: Page,
    track: Track,
    until: u64,
) -> io::Result<()> {
    if !page.draw {
        return Ok(());
    }
    let mut text = [0u8; 4096];
    let n = tape_sheet::put_segment(
        page.total,
        page.first,
        track.clip,
        place_number(track.place),
        track.since,
        until,
        &mut text,
        0,
    );
    say(out, &text, n)
}

// A lane's line, its number, and a mark where the clip was laid.
pub(crate) fn lay<W: Write>(out: &mut W, page: Page, track: Track) -> io::Result<()> {
    if !page.draw {
        return Ok(());
    }
    let mut text = [0u8; 4096];
    let n = tape_sheet::put_lane(
        page.total,
        page.first,
        track.clip,
        place_number(track.place),
        track.since,
        &mut text,
        0,
    );
    say(out, &text, n)
}

// ---- marks

// The place of the next mark: beside the last one, or a row below it.
fn mark_at(m: LastMark, x: u64) -> LastMark {
    let row = if m.x.wrapping_add(34) <= x {
        0
    } else {
        m.row.wrapping_add(1) % 8
    };
    LastMark { x, row }
}

fn mark_refusal<W: Write>(
    out: &mut W,
    page: Page,
    row: u64,
    kind: u8,
    clip: u64,
    refusal: u64,
    now: u64,
) -> io::Result<()> {
    let mut text = [0u8; 4096];
    let n = tape_sheet::put_refused(page.total, row, kind, clip, refusal, now, &mut text, 0);
    say(out, &text, n)
}

// An edit, in the strip and on its clip's lane.
fn mark_edit<W: Write>(
    out: &mut W,
    page: Page,
    row: u64,
    kind: u8,
    clip: u64,
    told: Answer,
    now: u64,
) -> io::Result<()> {
    let mut text = [0u8; 4096];
    let n = tape_sheet::put_edited(page.total, row, kind, clip, told, now, &mut text, 0);
    say(out, &text, n)?;
    if clip.wrapping_sub(page.first) < page.lanes {
        mark_lane(out, page, kind, clip, told, now)?;
    }
    Ok(())
}

fn mark_lane<W: Write>(
    out: &mut W,
    page: Page,
    kind: u8,
    clip: u64,
    told: Answer,
    now: u64,
) -> io::Result<()> {
    let mut text = [0u8; 4096];
    let n = tape_sheet::put_edited_lane(
        page.total, page.first, kind, clip, told, now, &mut text, 0,
    );
    say(out, &text, n)
}

// A reset or a rate.
fn mark_call<W: Write>(out: &mut W, page: Page, row: u64, kind: u8, now: u64) -> io::Result<()> {
    let mut text = [0u8; 4096];
    let n = tape_sheet::put_called(page.total, row, page.lanes, kind, now, &mut text, 0);
    say(out, &text, n)
}

// A mark of a call that has one, and the place of the last mark.
pub(crate) fn mark<W: Write>(
    out: &mut W,
    page: Page,
    m: LastMark,
    kind: u8,
    clip: u64,
    refusal: Option<u64>,
    told: Answer,
    now: u64,
) -> io::Result<LastMark> {
    if refusal.is_none() && !matches!(kind, 4 | 5 | 8 | 9) {
        return Ok(m);
    }
    let next = mark_at(m, chart::x(now, page.total));
    if !page.draw {
        return Ok(next);
    }
    if let Some(number) = refusal {
        mark_refusal(out, page, next.row, kind, clip, number, now)?;
    } else if matches!(kind, 4 | 5) {
        mark_edit(out, page, next.row, kind, clip, told, now)?;
    } else {
        mark_call(out, page, next.row, kind, now)?;
    }
    Ok(next)
}

// ---- the page

fn swatch<W: Write>(out: &mut W, place: Standing, x: u32) -> io::Result<()> {
    let mut text = [0u8; 4096];
    let n = tape_sheet::put_swatch(place_number(place), x, &mut text, 0);
    say(out, &text, n)
}

fn style<W: Write>(out: &mut W) -> io::Result<()> {
    out.write_all(
        b"<style>text{font-family:sans-serif;font-size:11px;fill:#000}.h{font-size:16px;font-weight:bold}.n{text-anchor:end}.t{font-size:10px;fill:#444}.z{font-size:14px;font-weight:bold}",
    )?;
    out.write_all(
        b".w{fill:#ffdf80;stroke:#8a6d00;stroke-width:.6}.s{fill:#164a8a}.f{fill:#8fc79a;stroke:#3d7a49;stroke-width:.6}.g{fill:#777}",
    )?;
    out.write_all(
        b".a{stroke:#ddd;fill:none}.l{stroke:#eee;fill:none}.p,.d{fill:#000}.b{fill:#fafafa;stroke:#bbb}.v,.o{stroke:#3f74b5;stroke-width:1.4;fill:none}.o{stroke:#000}",
    )?;
    out.write_all(
        b"rect.r{fill:#8b0000}text.r{fill:#fff;text-anchor:middle;font-weight:bold;font-size:10px}rect.e{fill:#fff;stroke:#000}text.e,text.c{text-anchor:middle;font-size:10px}rect.c{fill:#e4e4e4}path.c{stroke:#666;stroke-dasharray:3 3;fill:none}</style>\n",
    )?;
    Ok(())
}

// A byte of a name, as it can stand in a page: a sign that XML or a reader could take amiss becomes an underscore.
fn plain(b: u8) -> u8 {
    match b {
        b'0'..=b'9' | b'A'..=b'Z' | b'a'..=b'z' | b'.' | b'-' | b'/' | b' ' => b,
        _ => b'_',
    }
}

// The tape's name, as it can stand in a page.
fn name<W: Write>(out: &mut W, tape: &[u8]) -> io::Result<()> {
    for b in tape {
        out.write_all(&[plain(*b)])?;
    }
    Ok(())
}

fn measures<W: Write>(out: &mut W, page: Page) -> io::Result<()> {
    let mut text = [0u8; 4096];
    let n = tape_sheet::put_measures(page.lanes, page.channels, page.total, &mut text, 0);
    say(out, &text, n)
}

pub(crate) fn open<W: Write>(out: &mut W, page: Page, tape: &[u8]) -> io::Result<()> {
    let mut text = [0u8; 4096];
    let n = tape_sheet::put_page(page.lanes, page.channels, &mut text, 0);
    say(out, &text, n)?;
    name(out, tape)?;
    out.write_all(b"</title>\n")?;
    style(out)?;
    out.write_all(
        b"<rect width=\"1640\" height=\"100%\" fill=\"#fff\"/>\n<text class=\"h\" x=\"20\" y=\"26\">Proof sheet of ",
    )?;
    name(out, tape)?;
    out.write_all(b"</text>\n")?;
    measures(out, page)?;
    swatch(out, Standing::Waiting, 170)?;
    swatch(out, Standing::Sounding, 280)?;
    swatch(out, Standing::Finished, 390)?;
    swatch(out, Standing::LetGo, 500)?;
    out.write_all(
        b"<text class=\"k\" x=\"600\" y=\"51\">a triangle in front of a bar: laid; above it: edited; a number on dark: a refused call, by its refusal; black wave: above 1.0</text>\n<text class=\"n\" x=\"162\" y=\"80\">calls</text>\n",
    )?;
    axes(out, page)
}

fn foot<W: Write>(out: &mut W, page: Page, counts: Counts, pushes: u64) -> io::Result<()> {
    let mut text = [0u8; 4096];
    let n = tape_sheet::put_foot(page.lanes, page.channels, pushes, counts, &mut text, 0);
    say(out, &text, n)
}

// The waves, the sum, and what stops the tape.
pub(crate) fn close<W: Write>(
    out: &mut W,
    page: Page,
    counts: Counts,
    peaks: &[u32],
    pushes: u64,
    stop: Option<u64>,
) -> io::Result<()> {
    crate::waves::draw(out, page.lanes, page.channels, peaks)?;
    foot(out, page, counts, pushes)?;
    let mut text = [0u8; 4096];
    let n = tape_sheet::put_stop(page.lanes, page.channels, stop, &mut text, 0);
    say(out, &text, n)?;
    out.write_all(b"</svg>\n")
}
