// The header: H, the count byte, and the opening minute if the room opens after midnight.
ghost use Rattle.std.specs.Prelude.{◌≡◌, ◌≤◌, length};
ghost use Rattle.base.specs.Storing.{Wrote};
ghost use Rattle.list.specs.DayLists.{most_entries};
ghost use Rattle.format.specs.Maps.{bit};
ghost use Rattle.format.specs.Headers.{header_size, opens_later, count_byte, header_bytes};

use crate::bytes::put_u16;
use crate::form::put_minute;
use crate::map::bit;
use list::types::Frame;

// Whether a count byte says that the opening minute follows.
pub(crate) fn says_opening(count: u8) -> bool
    ensures { result ≡ bit 7 count }
{
    bit(7, count)
}

// Whether the room opens after midnight, so that its opening minute is written.
fn opens_later(frame: Frame) -> bool
    ensures { result ≡ opens_later frame }
{
    frame.opening != 0
}

// The bytes of a list's header.
pub(crate) fn header_size(frame: Frame) -> usize
    ensures { result ≡ header_size (opens_later frame) }
{
    if opens_later(frame) { 5 } else { 3 }
}

fn count_byte(written: bool, n: u8) -> u8
    requires { n ≤ most_entries }
    ensures { result ≡ count_byte written n }
{
    if written { n | 0x80 } else { n }
}

// A header's one form, at the start of the buffer; the place after it.
pub(crate) fn put_header(out: &mut [u8], frame: Frame, n: u8) -> usize
    requires { (n ≤ most_entries) × (length (header_bytes frame n) ≤ length out.old) }
    ensures { Wrote out.old 0 (header_bytes frame n) out.new result }
{
    let written = opens_later(frame);
    put_u16(out, 0, frame.h);
    out[2] = count_byte(written, n);
    put_minute(out, 3, written, frame.opening)
}
