// Looking for an unbroken day.
ghost use Rattle.std.specs.Prelude.{◌≡◌};
ghost use Rattle.list.specs.DayLists.{marked};
ghost use Rattle.windows.specs.Windows.{windows_in};
ghost use Rattle.unbroken.specs.Calls.{whole_starts, FindsUnbroken};
ghost use Rattle.unbroken.specs.Internal.{StoresFound, starts_said};

use crate::types::UnbrokenSearch;
use backtracking::types::SearchAnswer;
use backtracking::{is_found, search_windows};
use jackson::unchecked_schedule;
use list::types::{DayList, ENTRIES, Refusal};
use list::{places_held, whole_places};
use narrow::settle;
use planner::plan_checks;
use windows::types::WindowSet;
use windows::{unchecked_windows, zeros};

// The starts of the whole entries where they are fixed in the windows.
fn whole_starts(whole: [bool; ENTRIES], windows: WindowSet) -> [u16; ENTRIES]
    ensures { result ≡ whole_starts (marked whole) (windows_in windows) }
{
    let mut starts = zeros();
    let count = places_held(windows.n);
    for i in 0..count {
        starts[i] = if whole[i] { windows.r[i] } else { 0 };
    }
    starts
}

// The starts of a search's answer: 0 for each place where no day was found.
fn starts_said(whole: [bool; ENTRIES], searched: SearchAnswer) -> [u16; ENTRIES]
    ensures { result ≡ starts_said (marked whole) searched }
{
    if is_found(searched.ending) {
        whole_starts(whole, searched.windows)
    } else {
        zeros()
    }
}

// Stores Jackson's schedule with the starts fixed, where a day was found.
fn store_found(searched: SearchAnswer, plan: &mut [u8])
    ensures { StoresFound searched plan.old plan.new }
{
    if is_found(searched.ending) {
        let _filled = unchecked_schedule(searched.windows, plan);
    }
}

// Looks for an unbroken day of a list in at most so many trials: the value check, row 11, rows 9 and 10, then the search in the settled
// windows.
pub fn unbroken_day(list: DayList, limit: u32, plan: &mut [u8]) -> Result<UnbrokenSearch, Refusal>
    ensures { FindsUnbroken list limit plan.old result plan.new }
{
    plan_checks(list, plan.len())?;
    let narrowed = settle(list)?;
    let whole = whole_places(list);
    let searched = search_windows(whole, unchecked_windows(narrowed.list), limit);
    store_found(searched, plan);
    Ok(UnbrokenSearch {
        narrowed,
        ending: searched.ending,
        trials: searched.trials,
        starts: starts_said(whole, searched),
    })
}
