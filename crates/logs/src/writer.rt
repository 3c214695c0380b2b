// Events and headers written into a lent buffer, high byte first.
ghost use Rattle.std.specs.Prelude.{◌++◌, ◌≡◌};
ghost use Rattle.rules.specs.Events.{addressed};
ghost use Rattle.rules.specs.Writing.{put_entry, put_header_in, put_header};
ghost use Rattle.wire.specs.Buffers.{Copied};
ghost use Rattle.exchange.specs.Meaning.{form_of, entry_of};
ghost use Rattle.logs.specs.Layout.{said};

use crate::header::{Header, form_in, moved_by};
use exchange::events::event_size;
use exchange::types::{Event, Form};
use wire::{copy_into, part};

// An event's bytes with its source.
fn event_bytes(event: Event) -> [u8; 12]
    ensures { result ≡ put_entry addressed (entry_of event) }
{
    let [time_1, time_2, time_3, time_4] = event.time.to_be_bytes();
    let [kind_1, kind_2] = event.kind.to_be_bytes();
    let [offset_1, offset_2] = event.offset.to_be_bytes();
    let [size_1, size_2] = event.size.to_be_bytes();
    let [source_1, source_2] = event.source.to_be_bytes();
    [
        time_1, time_2, time_3, time_4, kind_1, kind_2, offset_1, offset_2, size_1, size_2,
        source_1, source_2,
    ]
}

// Puts an event into `buffer` at index `at`. Where its bytes do not fit, nothing changes and the answer is false.
pub fn put_event(buffer: &mut [u8], at: usize, form: Form, event: Event) -> bool
    ensures { Copied buffer.old at (put_entry (form_of form) (entry_of event)) result buffer.new }
{
    let bytes = event_bytes(event);
    copy_into(buffer, at, part(&bytes, 0, event_size(form)))
}

// A header's bytes with both of the listening address, whatever the version.
fn header_bytes(header: Header) -> [u8; 37]
    ensures { result ≡ put_header_in addressed (said header) }
{
    let [version_1, version_2] = header.version.to_be_bytes();
    let [value_1, value_2] = header.value.to_be_bytes();
    let [listens_1, listens_2] = header.listens.to_be_bytes();
    let [arguments_1, arguments_2] = header.arguments.to_be_bytes();
    let [arguments_at_1, arguments_at_2] = header.arguments_at.to_be_bytes();
    let [events_1, events_2] = header.events.to_be_bytes();
    let [events_at_1, events_at_2] = header.events_at.to_be_bytes();
    let [replies_1, replies_2] = header.replies.to_be_bytes();
    let [replies_at_1, replies_at_2] = header.replies_at.to_be_bytes();
    let [total_1, total_2] = header.total.to_be_bytes();
    let [p2_1, p2_2, p2_3, p2_4] = header.p2.to_be_bytes();
    let [star_1, star_2, star_3, star_4] = header.star.to_be_bytes();
    let [overall_1, overall_2, overall_3, overall_4] = header.overall.to_be_bytes();
    [
        version_1,
        version_2,
        header.call,
        header.flags,
        value_1,
        value_2,
        header.sub,
        header.address_length,
        header.size_length,
        listens_1,
        listens_2,
        arguments_1,
        arguments_2,
        arguments_at_1,
        arguments_at_2,
        events_1,
        events_2,
        events_at_1,
        events_at_2,
        replies_1,
        replies_2,
        replies_at_1,
        replies_at_2,
        total_1,
        total_2,
        p2_1,
        p2_2,
        p2_3,
        p2_4,
        star_1,
        star_2,
        star_3,
        star_4,
        overall_1,
        overall_2,
        overall_3,
        overall_4,
    ]
}

// Puts two pieces as `put_event` does its one, the second behind the first.
fn put_both(buffer: &mut [u8], at: usize, front: &[u8], behind: &[u8]) -> bool
    ensures { Copied buffer.old at (front.now ++ behind.now) result buffer.new }
{
    if at > buffer.len() {
        return false;
    }
    // the second first: where it does not fit, nothing has changed yet
    if !copy_into(buffer, at + front.len(), behind) {
        return false;
    }
    copy_into(buffer, at, front)
}

// Puts a header, as `put_event` does an event.
pub fn put_header(buffer: &mut [u8], at: usize, header: Header) -> bool
    ensures { Copied buffer.old at (put_header (said header)) result buffer.new }
{
    let bytes = header_bytes(header);
    // version 1 has the low byte of the listening address alone
    let rest = part(&bytes, 10 - moved_by(form_in(header)), 28);
    put_both(buffer, at, part(&bytes, 0, 9), rest)
}
