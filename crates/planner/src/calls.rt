// The calls that narrow.
ghost use Rattle.std.specs.Prelude.{◌≡◌};
ghost use Rattle.list.specs.Refusals.{outcome_of};
ghost use Rattle.jackson.specs.Calls.{buffer_fault};
ghost use Rattle.planner.specs.Calls.{plan_checks, shown_checks, PlansDay, Shows, ShowsEarly, ShowsLate};

use crate::broken::broken_in;
use crate::types::{PlannedDay, ShownPlan};
use bounds::types::{Bounds, Shown};
use bounds::{bounds_of, store_plan};
use jackson::unchecked_schedule;
use list::types::{DayList, Refusal};
use list::whole_places;
use narrow::{list_found, narrow_windows};
use windows::unchecked_windows;

// Row 11 for a plan buffer of this length.
fn buffer_fault(h: usize, room: usize) -> Result<(), Refusal>
    ensures { outcome_of result ≡ buffer_fault h room }
{
    if room < h {
        return Err(Refusal::PlanBufferShort(h));
    }
    Ok(())
}

// The value check, then row 11.
pub fn plan_checks(list: DayList, room: usize) -> Result<(), Refusal>
    ensures { outcome_of result ≡ plan_checks list room }
{
    list::check(list)?;
    buffer_fault(usize::from(list.frame.h), room)
}

// The value check, then rows 13 and 11.
fn shown_checks(list: DayList, k: usize, room: usize) -> Result<(), Refusal>
    ensures { outcome_of result ≡ shown_checks list k room }
{
    list::check(list)?;
    if usize::from(list.n) <= k {
        return Err(Refusal::UnknownPlace(k));
    }
    buffer_fault(usize::from(list.frame.h), room)
}

// Plans a list: the value check, row 11, row 9 for the windows as given, then rounds and row 10, and Jackson's schedule of what they leave.
pub fn plan_day(list: DayList, plan: &mut [u8]) -> Result<PlannedDay, Refusal>
    ensures { PlansDay list plan.old result plan.new }
{
    plan_checks(list, plan.len())?;
    let whole = whole_places(list);
    let found = narrow_windows(whole, unchecked_windows(list))?;
    // The checks left room for it.
    let _filled = unchecked_schedule(found.windows, plan);
    let broken = broken_in(whole, found.windows, plan);
    let Bounds { ends, starts } = bounds_of(whole, found.windows);
    Ok(PlannedDay {
        narrowed: list_found(list, found),
        broken,
        ends,
        starts,
    })
}

// Shows a plan of place k: the value check, rows 13 and 11, narrowing as for a day's plan, and the plan in the settled windows.
fn show_plan(shown: Shown, list: DayList, k: usize, plan: &mut [u8]) -> Result<ShownPlan, Refusal>
    ensures { Shows shown list k plan.old result plan.new }
{
    shown_checks(list, k, plan.len())?;
    let whole = whole_places(list);
    let found = narrow_windows(whole, unchecked_windows(list))?;
    let bound = store_plan(shown, whole[k], found.windows, k, plan)?;
    Ok(ShownPlan {
        narrowed: list_found(list, found),
        bound,
    })
}

// Shows the early plan of place k: Jackson's schedule with k's d set to its least end.
// Document 01 has two calls, this and the next; what they share is `show_plan`.
pub fn show_early(list: DayList, k: usize, plan: &mut [u8]) -> Result<ShownPlan, Refusal>
    ensures { ShowsEarly list k plan.old result plan.new }
{
    show_plan(Shown::Early, list, k, plan)
}

// Shows the late plan of place k: the mirror of Jackson's schedule of the mirrored list, k's r set first to its greatest start.
pub fn show_late(list: DayList, k: usize, plan: &mut [u8]) -> Result<ShownPlan, Refusal>
    ensures { ShowsLate list k plan.old result plan.new }
{
    show_plan(Shown::Late, list, k, plan)
}
