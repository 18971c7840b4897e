// Digests: every number and every float's bits of a part go into one number, so that a part that differs in one place has another digest.
ghost use Rattle.std.specs.Prelude.{◌≡◌, [], ◌∷◌, to_bits};
ghost use Rattle.std.specs.Float.{binary32, binary64};
ghost use Rattle.digests.specs.Digests.{mixed as mixed_by, mixed_all};
ghost use Rattle.event.specs.Numbers.{curve_number};
ghost use Rattle.state_listing.specs.Digests.{unit_words, event_words, edit_words, message_words, ordered_events, unordered_events, index_digest, edits_digest, messages_digest, returned_digest};

use digests::mixed;
use event::{Edit, Event, EventId, Fade, Source, Unit};
use lists::EditMap;
use realseq::{Message, Messages, Returned};

fn mixed_time(digest: u64, x: f64) -> u64
    ensures { result ≡ mixed_by digest (to_bits binary64 x) }
{
    mixed(digest, float_bits::f64_to_bits(x))
}

fn mixed_sample(digest: u64, x: f32) -> u64
    ensures { result ≡ mixed_by digest (to_bits binary32 x) }
{
    mixed(digest, float_bits::f32_to_bits(x) as u64)
}

fn curve_number(fade: Fade) -> u64
    ensures { result ≡ curve_number fade }
{
    match fade {
        Fade::Power => 0,
        Fade::Smooth => 1,
    }
}

// Kind, both words, a ramp's next value and a clip's place.
fn mixed_unit(digest: u64, unit: Unit) -> u64
    ensures { result ≡ mixed_all digest (unit_words unit) }
{
    match unit.source {
        Source::Held(level) => mixed(mixed(mixed(mixed_sample(mixed(digest, 0), level), 0), 0), 0),
        Source::Ramp(value, step) => {
            let d = mixed_sample(mixed_sample(mixed(digest, 1), value), step);
            mixed(mixed_sample(d, unit.value), 0)
        }
        Source::Clip(offset, length) => {
            let d = mixed(mixed(mixed(digest, 2), offset as u64), length as u64);
            mixed(mixed(d, 0), unit.place as u64)
        }
    }
}

fn mixed_event(digest: u64, event: Event) -> u64
    ensures { result ≡ mixed_all digest (event_words event) }
{
    let d = mixed(digest, event.id.0);
    let d = mixed_time(mixed_time(d, event.start_time), event.end_time);
    let d = mixed_time(mixed_time(d, event.fade_in), event.fade_out);
    let d = mixed_sample(d, event.gain);
    let d = mixed(d, curve_number(event.fade_ease));
    mixed_unit(d, event.unit)
}

fn mixed_edit(digest: u64, id: EventId, edit: Edit) -> u64
    ensures { result ≡ mixed_all digest (edit_words id edit) }
{
    mixed_time(
        mixed_time(mixed(digest, id.0), edit.end_time),
        edit.fade_out,
    )
}

fn mixed_message(digest: u64, message: Message) -> u64
    ensures { result ≡ mixed_all digest (message_words message) }
{
    match message {
        Message::Reset => mixed(digest, 0),
        Message::Push(event) => mixed_event(mixed(digest, 1), event),
        Message::PushRelative(event) => mixed_event(mixed(digest, 2), event),
        Message::Edit(id, edit) => mixed_edit(mixed(digest, 3), id, edit),
        Message::EditRelative(id, edit) => mixed_edit(mixed(digest, 4), id, edit),
    }
}

// The first `n` events, in order.
pub(crate) fn ordered_events(items: [Event; 256], n: usize) -> u64
    ensures { result ≡ ordered_events items n }
{
    items[..n.min(256)]
        .iter()
        .fold(0, |digest, event| mixed_event(digest, *event))
}

// The first `n` events as a set.
pub(crate) fn unordered_events(items: [Event; 256], n: usize) -> u64
    ensures { result ≡ unordered_events items n }
{
    items[..n.min(256)].iter().fold(
        0,
        |digest, event| digest.wrapping_add(mixed_event(0, *event)),
    )
}

// The numbers at the first `n` places.
pub(crate) fn index(ids: [EventId; 256], n: usize) -> u64
    ensures { result ≡ index_digest ids n }
{
    ids[..n.min(256)]
        .iter()
        .fold(0, |digest, id| mixed(digest, id.0))
}

// The stored edits as a set.
pub(crate) fn edits(map: EditMap) -> u64
    ensures { result ≡ edits_digest map }
{
    map.items[..map.len.min(256)].iter().fold(
        0,
        |digest, stored| digest.wrapping_add(mixed_edit(0, stored.id, stored.edit)),
    )
}

// The queued messages, the oldest first. A loop: as a fold over places of the ring the proof did not close.
pub(crate) fn messages(q: Messages) -> u64
    ensures { result ≡ messages_digest q }
{
    let first = q.first % 64;
    let mut digest = 0;
    for i in 0..q.count.min(64) {
        let slot = q.slots[(first + i) % 64];
        digest = mixed_message(digest, slot.message);
    }
    digest
}

// The returned numbers, the oldest first.
pub(crate) fn returned(r: Returned) -> u64
    ensures { result ≡ returned_digest r }
{
    r.ids[..r.count.min(64)]
        .iter()
        .fold(0, |digest, id| mixed(digest, id.0))
}
