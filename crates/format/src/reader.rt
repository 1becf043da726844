// Reading a list from its bytes.
ghost use Rattle.std.specs.Prelude.{◌≡◌, true, ◌≤◌, ◌<◌, length};
ghost use Rattle.list.specs.DayLists.{most_entries};
ghost use Rattle.list.specs.Refusals.{outcome_of};
ghost use Rattle.format.specs.LittleEndian.{u16_at};
ghost use Rattle.format.specs.Headers.{frame_of, count_of, opening_written, entries_place};
ghost use Rattle.format.specs.Reading.{body_of, opened_of, decode_of};
ghost use Rattle.format.specs.Internal.{first_entries};
ghost use Rattle.format.specs.Writing.{bytes_of};
ghost use Rattle.format.specs.Calls.{Reads};

use crate::bytes::u16_at;
use crate::entry::read_entry;
use crate::form::list_size;
use crate::header::says_opening;
use list::types::{DayList, Frame, Refusal};
use list::{empty_list, first_clash, header_fault, opening_fault, places_held};

// The entries after a sound header, from place `from` on, and row 8.
fn read_body(bytes: &[u8], frame: Frame, n: u8, from: usize) -> Result<DayList, Refusal>
    requires { (from ≤ length bytes.now) × (n ≤ most_entries) × (frame ≡ frame_of bytes.now) × (n ≡ count_of bytes.now)
        × (from ≡ entries_place bytes.now) }
    ensures { outcome_of result ≡ body_of bytes.now }
{
    let mut entries = empty_list().entries;
    let mut at = from;
    for i in 0..usize::from(n) {
        let (e, size) = read_entry(frame, at, &bytes[at..])?;
        entries[i] = e;
        at += size;
    }
    if at < bytes.len() {
        return Err(Refusal::BytesLeftOver(at));
    }
    Ok(DayList { frame, n, entries })
}

// The rows of an opening minute that is written, and what follows it.
fn read_opening(bytes: &[u8], h: u16, n: u8) -> Result<DayList, Refusal>
    requires { (n ≤ most_entries) × (h ≡ u16_at bytes.now 0) × (n ≡ count_of bytes.now) × (opening_written bytes.now ≡ true) }
    ensures { outcome_of result ≡ opened_of bytes.now }
{
    if bytes.len() < 5 {
        return Err(Refusal::BytesMissing(bytes.len()));
    }
    let opening = u16_at(bytes, 3);
    if opening == 0 {
        return Err(Refusal::BadOpening(3));
    }
    let frame = Frame { h, opening };
    opening_fault(3, frame)?;
    read_body(bytes, frame, n, 5)
}

// What follows rows 2 and 3.
fn read_opened(bytes: &[u8], h: u16, n: u8) -> Result<DayList, Refusal>
    requires { (3 ≤ length bytes.now) × (n ≤ most_entries) × (h ≡ u16_at bytes.now 0) × (0 < h) × (n ≡ count_of bytes.now) }
    ensures { outcome_of result ≡ opened_of bytes.now }
{
    if says_opening(bytes[2]) {
        return read_opening(bytes, h, n);
    }
    read_body(bytes, Frame { h, opening: 0 }, n, 3)
}

// Rows 1 to 8, 15 and 16.
fn decode(bytes: &[u8]) -> Result<DayList, Refusal>
    ensures { outcome_of result ≡ decode_of bytes.now }
{
    if bytes.len() < 3 {
        return Err(Refusal::BytesMissing(bytes.len()));
    }
    let h = u16_at(bytes, 0);
    let n = bytes[2] % 128;
    header_fault(2, h, n)?;
    read_opened(bytes, h, n)
}

// The place of the map byte of an entry that was read: where the list of the entries before it would end. The reading loop keeps no places,
// and the bytes that it takes are the entries' one forms.
fn map_place(list: DayList, entry: usize) -> usize
    requires { entry < most_entries }
    ensures { result ≡ length (bytes_of (first_entries list entry)) }
{
    list_size(DayList {
        // Below 64, so that it fits.
        n: entry as u8,
        ..list
    })
}

// The list that bytes say, or why they are turned back: rows 1 to 8, 15 and 16, then 14.
pub fn read(bytes: &[u8]) -> Result<DayList, Refusal>
    ensures { Reads bytes.now result }
{
    let list = decode(bytes)?;
    let entry = first_clash(list);
    if entry < places_held(list.n) {
        return Err(Refusal::SerialClash(map_place(list, entry)));
    }
    Ok(list)
}
