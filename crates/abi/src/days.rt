// The calls on a stamped day, which crosses as a row of 452 numbers: those of its list, then its stamp (crate flat).
ghost use Rattle.std.specs.Prelude.{◌≡◌, length};
ghost use Rattle.list.specs.Refusals.{outcome_of};
ghost use Rattle.flat.specs.Flat.{entry_numbers, entry_in};
ghost use Rattle.flat.specs.DayRows.{day_numbers};
ghost use Rattle.abi.specs.DayCalls.{DayCall, FreshCall, fresh_in, beside_fault, day_beside, AskCall, CommitCall};
ghost use Rattle.abi.specs.Internal.{committed_day};

use crate::{Answer, give_planned};
use commits::types::{CommitAnswer, StampedDay};
use commits::{ask, commit, fresh_day};
use flat::{
    BOUNDS, DAY_NUMBERS, ENTRY_NUMBERS, NUMBERS, day_in, entry_of, length_fault, list_in, put_day,
};
use list::types::{Entry, Refusal};

// A fresh day of the list value that `fields` says, where a day's row of the length `lent` stands beside it.
fn fresh_in(fields: &[u32], lent: usize) -> Result<StampedDay, Refusal>
    ensures { outcome_of result ≡ fresh_in fields.now lent }
{
    let list = list_in(fields)?;
    length_fault(DAY_NUMBERS, lent)?;
    fresh_day(list)
}

// Makes a fresh day of the list value that `fields` says. Accepted: `day` is the day; else it keeps its values.
pub fn dock_fresh(fields: &[u32], day: &mut [u32]) -> Answer
    ensures { FreshCall fields.now day.old result day.new }
{
    match fresh_in(fields, day.len()) {
        Ok(fresh) => {
            put_day(fresh, day);
            Answer::from(Ok(()))
        }
        Err(x) => Answer::from(x),
    }
}

// Row 100 for the length of an entry's row, then for that of a list's row that is lent.
fn beside_fault(entry: usize, lent: usize) -> Result<(), Refusal>
    ensures { outcome_of result ≡ beside_fault entry lent }
{
    length_fault(ENTRY_NUMBERS, entry)?;
    length_fault(NUMBERS, lent)
}

// The day that `day` says, where an entry's row and a list's row of these lengths stand beside it; row 100 for each.
fn day_beside(day: &[u32], entry: usize, lent: usize) -> Result<StampedDay, Refusal>
    ensures { outcome_of result ≡ day_beside day.now entry lent }
{
    let given = day_in(day)?;
    beside_fault(entry, lent)?;
    Ok(given)
}

// The entry that a row says.
fn entry_given(row: &[u32]) -> Entry
    requires { length row.now ≡ entry_numbers }
    ensures { result ≡ entry_in row.now 0 }
{
    let mut numbers = [0; ENTRY_NUMBERS];
    numbers.copy_from_slice(row);
    entry_of(&numbers)
}

// Asks for one more entry on the day that `day` says. Accepted: the values are the moves, the number of broken entries and the day's stamp,
// and `plan`, `narrowed` and `bounds` are those of the longer list, as planning it leaves them. Refused: each keeps its values.
pub fn dock_ask(
    day: &[u32],
    entry: &[u32],
    plan: &mut [u8],
    narrowed: &mut [u32],
    bounds: &mut [u32; BOUNDS],
) -> Answer
    ensures { AskCall day.now entry.now plan.old narrowed.old bounds.old result
        plan.new narrowed.new bounds.new }
{
    match day_beside(day, entry.len(), narrowed.len()) {
        Ok(given) => {
            let answer = ask(given, entry_given(entry), plan);
            give_planned(answer.planned, answer.stamp, narrowed, bounds)
        }
        Err(x) => Answer::from(x),
    }
}

// The day after a commit; refused, `day` keeps its values.
fn give_day(answer: CommitAnswer, day: &mut [u32])
    requires { length day.old ≡ day_numbers }
    ensures { DayCall (committed_day answer) day.old day.new }
{
    if answer.planned.is_ok() {
        put_day(answer.day, day);
    }
}

// Commits one more entry to the day that `day` says. Accepted: the values and what is lent are those of an ask, but the third value is the
// stamp that the day then has, and `day` is the longer day. Refused: each keeps its values.
pub fn dock_commit(
    day: &mut [u32],
    entry: &[u32],
    stamp: u64,
    plan: &mut [u8],
    narrowed: &mut [u32],
    bounds: &mut [u32; BOUNDS],
) -> Answer
    ensures { CommitCall day.old entry.now stamp plan.old narrowed.old
        bounds.old result day.new plan.new narrowed.new bounds.new }
{
    match day_beside(day, entry.len(), narrowed.len()) {
        Ok(given) => {
            let answer = commit(given, entry_given(entry), stamp, plan);
            give_day(answer, day);
            give_planned(answer.planned, answer.stamp, narrowed, bounds)
        }
        Err(x) => Answer::from(x),
    }
}
