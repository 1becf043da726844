// A stamped day as a row of 452 numbers, and one entry as seven.
ghost use Rattle.std.specs.Prelude.{◌≡◌, length};
ghost use Rattle.list.specs.Refusals.{outcome_of};
ghost use Rattle.flat.specs.Flat.{entry_in};
ghost use Rattle.flat.specs.DayRows.{day_numbers, day_row, day_of, day_in, StoresDay};

use crate::value::{entry_in, length_fault, put_numbers, u16_of, value_in};
use crate::{DAY_NUMBERS, ENTRY_NUMBERS, NUMBERS};
use commits::types::StampedDay;
use list::types::{Entry, Refusal};

// The entry that seven numbers say, whatever they are.
pub fn entry_of(numbers: &[u32; ENTRY_NUMBERS]) -> Entry
    ensures { result ≡ entry_in numbers.now 0 }
{
    entry_in(numbers, 0)
}

// The day that the numbers say, whatever they are.
fn day_value(row: &[u32]) -> StampedDay
    requires { length row.now ≡ day_numbers }
    ensures { result ≡ day_of row.now }
{
    StampedDay {
        list: value_in(&row[..NUMBERS]),
        stamp: u16_of(row[NUMBERS]),
    }
}

// The day that a row says, or row 100.
pub fn day_in(row: &[u32]) -> Result<StampedDay, Refusal>
    ensures { outcome_of result ≡ day_in row.now }
{
    length_fault(DAY_NUMBERS, row.len())?;
    Ok(day_value(row))
}

// Stores the numbers that say a day.
fn put_day_numbers(day: StampedDay, row: &mut [u32])
    requires { length row.old ≡ day_numbers }
    ensures { row.new ≡ day_row day }
{
    put_numbers(day.list, &mut row[..NUMBERS]);
    row[NUMBERS] = u32::from(day.stamp);
}

// The same for a row of any length; one of another length than 452 keeps its numbers.
pub fn put_day(day: StampedDay, row: &mut [u32])
    ensures { StoresDay day row.old row.new }
{
    if row.len() == DAY_NUMBERS {
        put_day_numbers(day, row);
    }
}
