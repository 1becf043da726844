// The planner's calls for programs in other languages: slices and numbers only.
// Promises: each call answers 0 or a refusal's number, with its values, and leaves in its buffers what specs/Calls.antt,
// specs/DayCalls.antt, specs/RoomCalls.antt and specs/SearchCalls.antt say, whatever the bytes and numbers are. A list value crosses as a
// row of 451 numbers, a stamped day as one of 452, an entry as one of 7 (crate flat), the rooms of a control desk as 3 each (crate
// room_rows). `bytes`, `out`, `plan` and `lists`, and the rows `fields`, `narrowed`, `day`, `entry` and `rooms`, come with their lengths; a
// row of another length is refused as 100 before all else, those given before the one lent. What a call cannot check are the pointers and
// that they have the lengths told: `bounds` has 128 numbers, `starts` 64, `values` and `carried` 3, and no two of what is lent overlap.
// The crate abi_c exports them. Uses all crates but order, tables, edges, shares, abi_c and dock.
#![tactic(auto)]

mod days;
mod desk;
mod search;

ghost use Rattle.std.specs.Prelude.{◌≡◌, [], ◌∷◌, length, Ok};
ghost use Rattle.list.specs.Refusals.{code_of, outcome_of};
ghost use Rattle.narrow.specs.Calls.{narrow_answer_of};
ghost use Rattle.codes.specs.Codes.{three};
ghost use Rattle.flat.specs.Flat.{flat_numbers};
ghost use Rattle.abi.specs.Calls.{answer_with, read_in, ReadCall, WriteCall, OverloadCall, ScheduleCall, NarrowCall, SettleCall, PlanCall};
ghost use Rattle.abi.specs.Calls.{EarlyCall, LateCall, ReportCall, LineCall};
ghost use Rattle.abi.specs.Internal.{GivesPlanned, GivesShown};

use codes::RefusalCode;
pub use days::{dock_ask, dock_commit, dock_fresh};
pub use desk::dock_turn;
use flat::{BOUNDS, NUMBERS, joined, length_fault, list_beside, list_in, put_flat};
use list::types::{DayList, Refusal};
use narrow::types::NarrowedList;
use planner::types::{PlannedDay, ShownPlan};
use planner::{plan_day, show_early, show_late};
pub use search::dock_unbroken;

// What a call answers: 0 or a refusal's number, and three values, 0 where there are fewer.
// Numbers, since callers in C read them.
#[repr(C)]
#[derive(Clone, Copy)]
pub struct Answer {
    pub number: u64,
    pub values: [u64; 3],
}

impl From<Refusal> for Answer {
    fn from(x: Refusal) -> Answer
        ensures { result ≡ record { number = (code_of x).number; values = three (code_of x).carries } }
    {
        let RefusalCode { number, values } = codes::numbers_of(x);
        Answer { number, values }
    }
}

// What a call answered that gives no number.
impl From<Result<(), Refusal>> for Answer {
    fn from(told: Result<(), Refusal>) -> Answer
        ensures { result ≡ answer_with (λ _. []) (outcome_of told) }
    {
        match told {
            Ok(()) => Answer {
                number: 0,
                values: [0; 3],
            },
            Err(x) => Answer::from(x),
        }
    }
}

// What a writer answered: the first value is the number of bytes written.
impl From<Result<usize, Refusal>> for Answer {
    fn from(written: Result<usize, Refusal>) -> Answer
        ensures { result ≡ answer_with (λ n. n ∷ []) (outcome_of written) }
    {
        match written {
            Ok(count) => Answer {
                number: 0,
                // The library has no From of a usize, nor to one from u64.
                values: [count as u64, 0, 0],
            },
            Err(x) => Answer::from(x),
        }
    }
}

// The list that bytes say, where a row of the length `lent` stands beside them.
fn read_in(bytes: &[u8], lent: usize) -> Result<DayList, Refusal>
    ensures { outcome_of result ≡ read_in bytes.now lent }
{
    length_fault(NUMBERS, lent)?;
    format::read(bytes)
}

// Reads a list. Accepted: `fields` is the list; else it keeps its values.
pub fn dock_read(bytes: &[u8], fields: &mut [u32]) -> Answer
    ensures { ReadCall bytes.now fields.old result fields.new }
{
    match read_in(bytes, fields.len()) {
        Ok(list) => {
            put_flat(list, fields);
            Answer::from(Ok(()))
        }
        Err(x) => Answer::from(x),
    }
}

// Writes the list value that `fields` says. Accepted: the first value is the number of bytes written; else `out` keeps its bytes.
pub fn dock_write(fields: &[u32], out: &mut [u8]) -> Answer
    ensures { WriteCall fields.now out.old result out.new }
{
    match list_in(fields) {
        Ok(list) => Answer::from(format::write(list, out)),
        Err(x) => Answer::from(x),
    }
}

// Tests the list value that `fields` says for an overloaded interval.
pub fn dock_overload(fields: &[u32]) -> Answer
    ensures { OverloadCall fields.now result }
{
    match list_in(fields) {
        Ok(list) => Answer::from(jackson::overload(list)),
        Err(x) => Answer::from(x),
    }
}

// Fills `plan` with Jackson's schedule of the list value that `fields` says, its windows as given. Refused: `plan` keeps its bytes.
pub fn dock_schedule(fields: &[u32], plan: &mut [u8]) -> Answer
    ensures { ScheduleCall fields.now plan.old result plan.new }
{
    match list_in(fields) {
        Ok(list) => Answer::from(jackson::schedule(list, plan)),
        Err(x) => Answer::from(x),
    }
}

// A narrowed list: the values are the moves and these two, and `narrowed` is the list. The row's length was
// tested before, as all calls do first.
pub(crate) fn give_narrowed(
    found: NarrowedList,
    second: u64,
    third: u64,
    narrowed: &mut [u32],
) -> Answer
    requires { length narrowed.old ≡ flat_numbers }
    ensures { NarrowCall (narrow_answer_of (Ok found)) second third narrowed.old result narrowed.new }
{
    put_flat(found.list, narrowed);
    Answer {
        number: 0,
        values: [u64::from(found.moves), second, third],
    }
}

// Narrows the list value that `fields` says until its windows are settled.
pub fn dock_settle(fields: &[u32], narrowed: &mut [u32]) -> Answer
    ensures { SettleCall fields.now narrowed.old result narrowed.new }
{
    match list_beside(fields, narrowed.len()) {
        Ok(list) => match narrow::settle(list) {
            Ok(found) => give_narrowed(found, 0, 0, narrowed),
            Err(x) => Answer::from(x),
        },
        Err(x) => Answer::from(x),
    }
}

// What planning answered: the values are the moves, the number of broken entries and a stamp, or 0 without one, `narrowed` is the list, and
// `bounds` are the bounds; refused, both keep their values.
pub(crate) fn give_planned(
    answer: Result<PlannedDay, Refusal>,
    stamp: u16,
    narrowed: &mut [u32],
    bounds: &mut [u32; BOUNDS],
) -> Answer
    requires { length narrowed.old ≡ flat_numbers }
    ensures { GivesPlanned answer stamp narrowed.old bounds.old result narrowed.new bounds.new }
{
    match answer {
        Ok(day) => {
            *bounds = joined(day.ends, day.starts);
            give_narrowed(
                day.narrowed,
                u64::from(day.broken),
                u64::from(stamp),
                narrowed,
            )
        }
        Err(x) => Answer::from(x),
    }
}

// Plans the list value that `fields` says. Accepted: the values are the moves and the number of broken entries, `narrowed` is the settled
// list, `bounds` the least ends of the 64 places and then their greatest starts, and `plan` begins with the plan. Refused: each keeps
// its values.
pub fn dock_plan(
    fields: &[u32],
    plan: &mut [u8],
    narrowed: &mut [u32],
    bounds: &mut [u32; BOUNDS],
) -> Answer
    ensures { PlanCall fields.now plan.old narrowed.old bounds.old result
        plan.new narrowed.new bounds.new }
{
    match list_beside(fields, narrowed.len()) {
        Ok(list) => give_planned(plan_day(list, plan), 0, narrowed, bounds),
        Err(x) => Answer::from(x),
    }
}

// What showing a plan answered: the values are the moves and the place's bound, and `narrowed` is the list; refused, it keeps its values.
fn give_shown(answer: Result<ShownPlan, Refusal>, narrowed: &mut [u32]) -> Answer
    requires { length narrowed.old ≡ flat_numbers }
    ensures { GivesShown answer narrowed.old result narrowed.new }
{
    match answer {
        Ok(shown) => give_narrowed(shown.narrowed, u64::from(shown.bound), 0, narrowed),
        Err(x) => Answer::from(x),
    }
}

// Shows the early plan of a place of the list value that `fields` says. Accepted: the values are the moves and the place's least end,
// `narrowed` is the settled list, and `plan` begins with the plan. Refused: each keeps its values.
// The C interface has this call and the next.
pub fn dock_early(fields: &[u32], place: u64, plan: &mut [u8], narrowed: &mut [u32]) -> Answer
    ensures { EarlyCall fields.now place plan.old narrowed.old result
        plan.new narrowed.new }
{
    match list_beside(fields, narrowed.len()) {
        Ok(list) => give_shown(show_early(list, place as usize, plan), narrowed),
        Err(x) => Answer::from(x),
    }
}

// Shows the late plan, with the place's greatest start.
pub fn dock_late(fields: &[u32], place: u64, plan: &mut [u8], narrowed: &mut [u32]) -> Answer
    ensures { LateCall fields.now place plan.old narrowed.old result
        plan.new narrowed.new }
{
    match list_beside(fields, narrowed.len()) {
        Ok(list) => give_shown(show_late(list, place as usize, plan), narrowed),
        Err(x) => Answer::from(x),
    }
}

// Stores the text of the day that `bytes` say at the start of `out`. Accepted: the first value is its number of bytes; else, a list that is
// turned back or 12, `out` keeps its bytes. REPORT_BYTES of the crate report are enough for every text.
pub fn dock_report(bytes: &[u8], out: &mut [u8]) -> Answer
    ensures { ReportCall bytes.now out.old result out.new }
{
    Answer::from(report::report(bytes, out))
}

// Stores the line that the program prints for a refusal, whatever its number and values, likewise. REFUSAL_BYTES of the crate report are
// enough for every line.
pub fn dock_refusal_line(number: u64, values: &[u64; 3], out: &mut [u8]) -> Answer
    ensures { LineCall number values.now out.old result out.new }
{
    let values = *values;
    Answer::from(report::refusal_line(RefusalCode { number, values }, out))
}
