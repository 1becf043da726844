// Reading one entry: its fields, and the rows that turn it back.
ghost use Rattle.std.specs.Prelude.{◌≡◌, cond, ◌+◌, ◌<◌, ◌≤◌, ◌^◌, length};
ghost use Rattle.list.specs.Refusals.{outcome_of};
ghost use Rattle.format.specs.LittleEndian.{u16_at, u32_at};
ghost use Rattle.format.specs.Maps.{size_of};
ghost use Rattle.format.specs.EntryFields.{default_r, default_d, seal_of, entry_at, default_written, fields_entry, entry_of};

use crate::bytes::{u16_at, u32_at};
use crate::map::{Fields, d_place, map_fields, p_place, r_place, size_of};
use list::entry_fault;
use list::types::{Entry, Frame, Refusal, Seal};

// "A missing r means the opening minute"
pub(crate) fn default_r(frame: Frame) -> u16
    ensures { result ≡ default_r frame }
{
    frame.opening
}

// "missing means H"
pub(crate) fn default_d(frame: Frame) -> u16
    ensures { result ≡ default_d frame }
{
    frame.h
}

fn seal_at(rest: &[u8], follows: bool) -> Seal
    requires { 5 + cond follows 4 0 ≤ length rest.now }
    ensures { result ≡ seal_of follows (u32_at rest.now 5) }
{
    if follows { Some(u32_at(rest, 5)) } else { None }
}

fn minute_at(rest: &[u8], follows: bool, i: usize, default: u16) -> u16
    requires { i + cond follows 2 0 ≤ length rest.now }
    ensures { result ≡ cond follows (u16_at rest.now i) default }
{
    if follows { u16_at(rest, i) } else { default }
}

// The entry that bytes with these fields say.
fn entry_at(frame: Frame, m: Fields, rest: &[u8]) -> Entry
    requires { size_of m ≤ length rest.now }
    ensures { result ≡ entry_at frame m rest.now }
{
    Entry {
        serial: u32_at(rest, 1),
        seal: seal_at(rest, m.seal),
        r: minute_at(rest, m.r, r_place(m), default_r(frame)),
        d: minute_at(rest, m.d, d_place(m), default_d(frame)),
        p: u16_at(rest, p_place(m)),
        kind: m.kind,
    }
}

// A field that is written though it has its default.
fn default_written(frame: Frame, m: Fields, e: Entry) -> bool
    ensures { result ≡ default_written frame m e }
{
    (m.r && e.r == default_r(frame)) || (m.d && e.d == default_d(frame))
}

// Rows 1, 5, 16, 6 and 7 of an entry whose map byte is legal; the entry comes with the bytes that it took.
fn read_fields(frame: Frame, at: usize, m: Fields, rest: &[u8]) -> Result<(Entry, usize), Refusal>
    requires { at + length rest.now < 2 ^ 64 }
    ensures { outcome_of result ≡ fields_entry frame at m rest.now }
{
    let size = size_of(m);
    if rest.len() < size {
        return Err(Refusal::BytesMissing(at + rest.len()));
    }
    let e = entry_at(frame, m, rest);
    if default_written(frame, m, e) {
        return Err(Refusal::DefaultWritten(at));
    }
    entry_fault(frame, at, e)?;
    Ok((e, size))
}

// The entry at the start of `rest`, what is left of the input from place `at` on, with the bytes that it took.
pub(crate) fn read_entry(frame: Frame, at: usize, rest: &[u8]) -> Result<(Entry, usize), Refusal>
    requires { at + length rest.now < 2 ^ 64 }
    ensures { outcome_of result ≡ entry_of frame at rest.now }
{
    if rest.is_empty() {
        return Err(Refusal::BytesMissing(at));
    }
    let m = map_fields(at, rest[0])?;
    read_fields(frame, at, m, rest)
}
