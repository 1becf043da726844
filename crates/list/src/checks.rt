// The tests of list values: rows 2, 3, 15, 16, 6, 7 and 14.
ghost use Rattle.std.specs.Prelude.{◌≡◌};
ghost use Rattle.list.specs.Refusals.{outcome_of};
ghost use Rattle.list.specs.Entries.{entry_fault};
ghost use Rattle.list.specs.Checks.{header_fault, opening_fault, values_fault, check_of};

use crate::clashes::first_clash;
use crate::places::places_held;
use crate::types::{DayList, ENTRIES, Entry, Frame, LONGEST_DAY, Refusal};

// Rows 2 and 3; 3 carries the place given.
pub fn header_fault(place: usize, h: u16, n: u8) -> Result<(), Refusal>
    ensures { outcome_of result ≡ header_fault place h n }
{
    if h == 0 || LONGEST_DAY < h {
        return Err(Refusal::BadDayLength);
    }
    if ENTRIES < usize::from(n) {
        return Err(Refusal::TooManyEntries(place));
    }
    Ok(())
}

// Row 15: an opening minute of H or more. It carries the place given.
pub fn opening_fault(place: usize, frame: Frame) -> Result<(), Refusal>
    ensures { outcome_of result ≡ opening_fault place frame }
{
    if frame.opening < frame.h {
        Ok(())
    } else {
        Err(Refusal::BadOpening(place))
    }
}

// Rows 16, 6 and 7 of one entry, which carry the place given. The sum r + p may pass 65,535.
pub fn entry_fault(frame: Frame, place: usize, e: Entry) -> Result<(), Refusal>
    ensures { outcome_of result ≡ entry_fault frame place e }
{
    if e.r < frame.opening {
        return Err(Refusal::BeforeOpening(place));
    }
    if e.p == 0 {
        return Err(Refusal::NoMinutes(place));
    }
    if frame.h < e.d || u32::from(e.d) < u32::from(e.r) + u32::from(e.p) {
        return Err(Refusal::BadWindow(place));
    }
    Ok(())
}

// Rows 2, 3 and 15, then 16, 6 and 7 entry by entry. Only the first n entries are looked at.
fn values_fault(list: DayList) -> Result<(), Refusal>
    ensures { outcome_of result ≡ values_fault list }
{
    header_fault(0, list.frame.h, list.n)?;
    opening_fault(0, list.frame)?;
    for i in 0..usize::from(list.n) {
        entry_fault(list.frame, i, list.entries[i])?;
    }
    Ok(())
}

// The value check: 2, 3, 15, then 16, 6 and 7 entry by entry, then 14.
pub fn check(list: DayList) -> Result<(), Refusal>
    ensures { outcome_of result ≡ check_of list }
{
    values_fault(list)?;
    let place = first_clash(list);
    if place < places_held(list.n) {
        return Err(Refusal::SerialClash(place));
    }
    Ok(())
}
