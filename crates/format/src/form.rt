// One forms: which fields an entry's has, writing it, and how many bytes a list's has.
ghost use Rattle.std.specs.Prelude.{◌≡◌, ◌+◌, ◌≤◌, length};
ghost use Rattle.format.specs.Forms.{fields_in, seal_bytes, minute_bytes, times_bytes, entry_bytes};
ghost use Rattle.format.specs.Writing.{bytes_of};
ghost use Rattle.list.specs.DayLists.{most_entries};
ghost use Rattle.base.specs.Storing.{Wrote};

use crate::bytes::{put_u16, put_u32};
use crate::entry::{default_d, default_r};
use crate::header::header_size;
use crate::map::{Fields, map_of, size_of};
use list::types::{DayList, Entry, Frame, Seal};

// The fields of an entry's one form: those that are neither missing nor at their default.
pub(crate) fn fields_in(frame: Frame, e: Entry) -> Fields
    ensures { result ≡ fields_in frame e }
{
    Fields {
        seal: e.seal.is_some(),
        r: e.r != default_r(frame),
        d: e.d != default_d(frame),
        kind: e.kind,
    }
}

fn put_seal(out: &mut [u8], at: usize, seal: Seal) -> usize
    requires { at + length (seal_bytes seal) ≤ length out.old }
    ensures { Wrote out.old at (seal_bytes seal) out.new result }
{
    match seal {
        None => at,
        Some(x) => put_u32(out, at, x),
    }
}

pub(crate) fn put_minute(out: &mut [u8], at: usize, follows: bool, x: u16) -> usize
    requires { at + length (minute_bytes follows x) ≤ length out.old }
    ensures { Wrote out.old at (minute_bytes follows x) out.new result }
{
    if follows { put_u16(out, at, x) } else { at }
}

fn put_times(out: &mut [u8], at: usize, m: Fields, e: Entry) -> usize
    requires { at + length (times_bytes m e) ≤ length out.old }
    ensures { Wrote out.old at (times_bytes m e) out.new result }
{
    let a = put_minute(out, at, m.r, e.r);
    let b = put_minute(out, a, m.d, e.d);
    put_u16(out, b, e.p)
}

// An entry's one form, from place `at` on.
pub(crate) fn put_entry(out: &mut [u8], at: usize, frame: Frame, e: Entry) -> usize
    requires { at + length (entry_bytes frame e) ≤ length out.old }
    ensures { Wrote out.old at (entry_bytes frame e) out.new result }
{
    let m = fields_in(frame, e);
    out[at] = map_of(m);
    let a = put_u32(out, at + 1, e.serial);
    let b = put_seal(out, a, e.seal);
    put_times(out, b, m, e)
}

// The bytes of a list's one form.
pub(crate) fn list_size(list: DayList) -> usize
    requires { list.n ≤ most_entries }
    ensures { result ≡ length (bytes_of list) }
{
    let mut size = header_size(list.frame);
    for e in &list.entries[..usize::from(list.n)] {
        size += size_of(fields_in(list.frame, *e));
    }
    size
}
