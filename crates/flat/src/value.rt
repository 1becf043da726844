// A list value as a row of 451 numbers.
ghost use Rattle.std.specs.Prelude.{◌≡◌, not, ◌+◌, ◌≤◌, min, length, eqb};
ghost use Rattle.std.proofs.lemmas.List.Edits.{sets};
ghost use Rattle.format.specs.Maps.{kind_of};
ghost use Rattle.format.specs.EntryFields.{seal_of};
ghost use Rattle.list.specs.Refusals.{outcome_of};
ghost use Rattle.flat.specs.Flat.{whole_of, flat_entry, flat_of, entry_in, value_of, flat_numbers};
ghost use Rattle.flat.specs.Flat.{length_fault, list_in, flat_beside, StoresFlat};

use crate::NUMBERS;
use list::empty_list;
use list::types::{DayList, Entry, Frame, Kind, Refusal, Seal};

// The largest u16 for a number that is too large, and likewise below.
// Two functions: no trait of the library has MAX.
pub(crate) fn u16_of(x: u32) -> u16
    ensures { result ≡ min x 65535 }
{
    u16::try_from(x).unwrap_or(u16::MAX)
}

fn u8_of(x: u32) -> u8
    ensures { result ≡ min x 255 }
{
    u8::try_from(x).unwrap_or(u8::MAX)
}

// The seal that a flag and a number say, and likewise the kind and the entry below. Any flag but 0 stands.
fn seal_in(flag: u32, number: u32) -> Seal
    ensures { result ≡ seal_of (not (eqb flag 0)) number }
{
    (flag != 0).then_some(number)
}

// Not a From: a flag is no kind.
fn kind_in(flag: u32) -> Kind
    ensures { result ≡ kind_of (not (eqb flag 0)) }
{
    if flag == 0 { Kind::Pause } else { Kind::Whole }
}

pub(crate) fn entry_in(fields: &[u32], at: usize) -> Entry
    requires { at + 7 ≤ length fields.now }
    ensures { result ≡ entry_in fields.now at }
{
    Entry {
        serial: fields[at],
        seal: seal_in(fields[at + 1], fields[at + 2]),
        r: u16_of(fields[at + 3]),
        d: u16_of(fields[at + 4]),
        p: u16_of(fields[at + 5]),
        kind: kind_in(fields[at + 6]),
    }
}

// The list value that the numbers say, whatever they are.
pub(crate) fn value_in(fields: &[u32]) -> DayList
    requires { length fields.now ≡ flat_numbers }
    ensures { result ≡ value_of fields.now }
{
    let mut entries = empty_list().entries;
    for (i, e) in entries.iter_mut().enumerate() {
        *e = entry_in(fields, 3 + 7 * i);
    }
    DayList {
        frame: Frame {
            h: u16_of(fields[0]),
            opening: u16_of(fields[2]),
        },
        n: u8_of(fields[1]),
        entries,
    }
}

// Row 100 for a row that has another length than the one asked for.
pub fn length_fault(asked: usize, numbers: usize) -> Result<(), Refusal>
    ensures { outcome_of result ≡ length_fault asked numbers }
{
    if numbers == asked {
        Ok(())
    } else {
        Err(Refusal::BadFlatLength(asked))
    }
}

// The list value that a row says, or row 100.
pub fn list_in(fields: &[u32]) -> Result<DayList, Refusal>
    ensures { outcome_of result ≡ list_in fields.now }
{
    length_fault(NUMBERS, fields.len())?;
    Ok(value_in(fields))
}

// Whether an entry is whole, as a number.
fn whole_flag(kind: Kind) -> u32
    ensures { result ≡ whole_of kind }
{
    u32::from(matches!(kind, Kind::Whole))
}

fn put_entry_numbers(e: Entry, fields: &mut [u32], at: usize)
    requires { at + 7 ≤ length fields.old }
    ensures { fields.new ≡ sets fields.old at (flat_entry e) }
{
    fields[at..at + 7].copy_from_slice(&[
        e.serial,
        u32::from(e.seal.is_some()),
        e.seal.unwrap_or(0),
        u32::from(e.r),
        u32::from(e.d),
        u32::from(e.p),
        whole_flag(e.kind),
    ]);
}

// Stores the numbers that say a list value.
pub(crate) fn put_numbers(list: DayList, fields: &mut [u32])
    requires { length fields.old ≡ flat_numbers }
    ensures { fields.new ≡ flat_of list }
{
    fields[0] = u32::from(list.frame.h);
    fields[1] = u32::from(list.n);
    fields[2] = u32::from(list.frame.opening);
    for (i, e) in list.entries.iter().enumerate() {
        put_entry_numbers(*e, fields, 3 + 7 * i);
    }
}

// The same for a row of any length; one of another length than 451 keeps its numbers.
pub fn put_flat(list: DayList, fields: &mut [u32])
    ensures { StoresFlat list fields.old fields.new }
{
    if fields.len() == NUMBERS {
        put_numbers(list, fields);
    }
}

// The list value that `fields` says, where a row of the length `lent` is lent beside it; row 100 for either.
pub fn list_beside(fields: &[u32], lent: usize) -> Result<DayList, Refusal>
    ensures { outcome_of result ≡ flat_beside fields.now lent }
{
    let list = list_in(fields)?;
    length_fault(NUMBERS, lent)?;
    Ok(list)
}
