// Starting a day and filling a plan buffer.
ghost use Rattle.std.specs.Prelude.{◌≡◌, ◌++◌, length, drop};
ghost use Rattle.base.specs.Counting.{list_of};
ghost use Rattle.windows.specs.Windows.{windows_in};
ghost use Rattle.windows.specs.Plans.{idle};
ghost use Rattle.jackson.specs.Minutes.{state_in, place_at};
ghost use Rattle.jackson.specs.Calls.{Starts, Fills, FillsWindows};
ghost use Rattle.jackson.specs.Internal.{Fillable};

use crate::types::Day;
use list::types::{DayList, Refusal};
use windows::types::WindowSet;
use windows::{unchecked_overload, unchecked_windows};

// A day's first state.
fn day_start(windows: WindowSet) -> Day
    ensures { result ≡ record { windows = windows; t = 0; last = idle } }
{
    Day {
        windows,
        t: 0,
        last: 255,
    }
}

// Starts the day of a list: the value check, then the day's first state.
pub fn start_day(list: DayList) -> Result<Day, Refusal>
    ensures { Starts list result }
{
    list::check(list)?;
    Ok(day_start(unchecked_windows(list)))
}

// Stores the places of the h minutes that are left of the day, stretch by stretch.
fn store_places(day: Day, h: usize, plan: &mut [u8])
    requires { Fillable day h (length plan.old) }
    ensures { plan.new ≡ list_of h (place_at (state_in day)) ++ drop h plan.old }
{
    let mut today = day;
    let mut i = 0;
    // No count: each step goes on by a stretch.
    while i < h {
        let stretch = today.stretch();
        let end = i + usize::from(stretch.minutes);
        plan[i..end].fill(stretch.place);
        today = stretch.day;
        i = end;
    }
}

// Fills a plan buffer with Jackson's schedule of the windows as given: the value check, then rows 11 and 9.
pub fn schedule(list: DayList, plan: &mut [u8]) -> Result<(), Refusal>
    ensures { Fills list plan.old result plan.new }
{
    let day = start_day(list)?;
    let h = usize::from(list.frame.h);
    if plan.len() < h {
        return Err(Refusal::PlanBufferShort(h));
    }
    unchecked_overload(day.windows)?;
    store_places(day, h, plan);
    Ok(())
}

// Fills a plan buffer with Jackson's schedule of windows, whatever they are: of the rows only 11 is tested.
pub fn unchecked_schedule(windows: WindowSet, plan: &mut [u8]) -> Result<(), Refusal>
    ensures { FillsWindows (windows_in windows) plan.old result plan.new }
{
    let h = usize::from(windows.h);
    if plan.len() < h {
        return Err(Refusal::PlanBufferShort(h));
    }
    store_places(day_start(windows), h, plan);
    Ok(())
}
