// The calls on a day: making one, asking for one more entry, and committing it.
ghost use Rattle.std.specs.Prelude.{◌≡◌, ◌<◌};
ghost use Rattle.list.specs.DayLists.{most_entries};
ghost use Rattle.list.specs.Refusals.{outcome_of};
ghost use Rattle.commits.specs.Days.{with_entry, next_stamp};
ghost use Rattle.commits.specs.Calls.{ask_fault, commit_fault, MakesDay, Asks, Commits};
ghost use Rattle.commits.specs.Internal.{HasRoom, PlansLonger};

use crate::lists::{trimmed, with_entry};
use crate::types::{AskAnswer, CommitAnswer, StampedDay};
use list::types::{DayList, ENTRIES, Entry, Refusal};
use narrow::settle;
use planner::plan_day;
use planner::types::PlannedDay;

// A fresh day: the list's entries that count with stamp 0, if the list can be planned. No plan buffer is lent, so row 11 is passed over.
pub fn fresh_day(list: DayList) -> Result<StampedDay, Refusal>
    ensures { MakesDay list result }
{
    settle(list)?;
    Ok(StampedDay {
        list: trimmed(list),
        stamp: 0,
    })
}

// Row 18.
fn ask_fault(day: StampedDay) -> Result<(), Refusal>
    ensures { outcome_of result ≡ ask_fault day }
{
    if usize::from(day.list.n) < ENTRIES {
        return Ok(());
    }
    Err(Refusal::DayFull(day.stamp))
}

// Row 17, then row 18.
fn commit_fault(day: StampedDay, stamp: u64) -> Result<(), Refusal>
    ensures { outcome_of result ≡ commit_fault day stamp }
{
    if stamp == u64::from(day.stamp) {
        return ask_fault(day);
    }
    Err(Refusal::StaleStamp(day.stamp))
}

// Plans the list with one more entry, after rows that leave room for it; their refusal is handed on.
fn plan_longer(
    fault: Result<(), Refusal>,
    list: DayList,
    e: Entry,
    plan: &mut [u8],
) -> Result<PlannedDay, Refusal>
    requires { HasRoom (outcome_of fault) list }
    ensures { PlansLonger (outcome_of fault) list e plan.old result plan.new }
{
    fault?;
    plan_day(with_entry(list, e), plan)
}

// Asks: plans the day's list with one more entry. The day stays as it is.
pub fn ask(day: StampedDay, e: Entry, plan: &mut [u8]) -> AskAnswer
    ensures { Asks day e plan.old result plan.new }
{
    let planned = plan_longer(ask_fault(day), day.list, e, plan);
    AskAnswer {
        planned,
        stamp: day.stamp,
    }
}

// The day after a success: longer by the entry, with the next stamp.
fn longer_day(day: StampedDay, e: Entry) -> StampedDay
    requires { day.list.n < most_entries }
    ensures { result ≡ record { list = with_entry day.list e; stamp = next_stamp day.stamp } }
{
    StampedDay {
        list: with_entry(day.list, e),
        stamp: day.stamp.saturating_add(1),
    }
}

// Commits: plans again, and appends the entry exactly when that gives a plan. Any number may be handed as the stamp.
pub fn commit(day: StampedDay, e: Entry, stamp: u64, plan: &mut [u8]) -> CommitAnswer
    ensures { Commits day e stamp plan.old result plan.new }
{
    let planned = plan_longer(commit_fault(day, stamp), day.list, e, plan);
    let next = match planned {
        Ok(_) => longer_day(day, e),
        Err(_) => day,
    };
    CommitAnswer {
        planned,
        stamp: next.stamp,
        day: next,
    }
}
