// The search, entry by entry and start by start. Where it stands is a `Position`: in its windows the starts of the whole entries before its
// place are fixed.
ghost use Rattle.std.specs.Prelude.{◌≡◌, ◌+◌, ◌<◌, ◌≤◌, leb};
ghost use Rattle.base.specs.Outcomes.{accepts};
ghost use Rattle.list.specs.DayLists.{marked};
ghost use Rattle.windows.specs.Windows.{windows_in, with_window};
ghost use Rattle.windows.specs.Intervals.{overload_of};
ghost use Rattle.backtracking.specs.Calls.{is_found, ending_number, SearchesWindows};
ghost use Rattle.backtracking.specs.Internal.{FindsNext, FindsLast, FixedBelow, Stands, Entered, Reopens, StartLeft, Tries};

use crate::types::{Ending, SearchAnswer};
use list::places_held;
use list::types::ENTRIES;
use windows::types::WindowSet;
use windows::unchecked_overload;

// Where the search stands: the windows with the starts fixed so far, the entry that is tried, its next start, and the trials made.
#[derive(Clone, Copy)]
pub struct Position {
    pub windows: WindowSet,
    pub place: usize,
    pub start: u32,
    pub trials: u32,
}

// Whether a day was found.
pub fn is_found(ending: Ending) -> bool
    ensures { result ≡ is_found ending }
{
    ending == Ending::DayFound
}

// How the search ended, as a number.
// The numbers are those of the C interface.
pub fn ending_number(ending: Ending) -> u64
    ensures { result ≡ ending_number ending }
{
    match ending {
        Ending::Unsearched => 0,
        Ending::DayFound => 1,
        Ending::NoneExists => 2,
        Ending::TrialsSpent => 3,
    }
}

// The windows with [s, e) as that of entry k.
fn with_window(windows: WindowSet, k: usize, s: u16, e: u16) -> WindowSet
    requires { k < 64 }
    ensures { windows_in result ≡ with_window (windows_in windows) k s e }
{
    let mut v = windows;
    v.r[k] = s;
    v.d[k] = e;
    v
}

// Whether a plan exists in these windows.
fn has_plan(windows: WindowSet) -> bool
    ensures { result ≡ accepts (overload_of (windows_in windows)) }
{
    unchecked_overload(windows).is_ok()
}

// The first whole place from k on and below count.
fn next_whole(whole: [bool; ENTRIES], count: usize, k: usize) -> Option<usize>
    requires k_le_count { k ≤ count }
    requires count_bound { count ≤ 64 }
    ensures { FindsNext (marked whole) count k result }
{
    (k..count).find(|j| whole[*j])
}

// The last whole place below k.
fn last_whole(whole: [bool; ENTRIES], k: usize) -> Option<usize>
    requires { k ≤ 64 }
    ensures { FindsLast (marked whole) k result }
{
    whole[..k].iter().rposition(|w| *w)
}

// Goes on to the next whole entry from place k on, at its first start; `fixed` are the windows with the starts before.
fn entered(
    whole: [bool; ENTRIES],
    windows: WindowSet,
    fixed: WindowSet,
    k: usize,
    trials: u32,
) -> Position
    requires fixed_below { FixedBelow (marked whole) (windows_in windows) (windows_in fixed) k }
    requires k_bound { k ≤ (windows_in windows).n }
    ensures { Entered (marked whole) (windows_in windows) (windows_in fixed) k trials result }
{
    let count = places_held(windows.n);
    let (place, start) = match next_whole(whole, count, k) {
        Some(place) => (place, u32::from(windows.r[place])),
        None => (count, 0),
    };
    Position {
        windows: fixed,
        place,
        start,
        trials,
    }
}

// Goes back to entry k, which gets its window again, at its next start.
fn gone_back(windows: WindowSet, at: Position, k: usize) -> Position
    requires { k < 64 }
    ensures { Reopens (windows_in windows) k at result }
{
    let fixed = at.windows;
    Position {
        windows: with_window(fixed, k, windows.r[k], windows.d[k]),
        place: k,
        start: u32::from(fixed.r[k]) + 1,
        trials: at.trials,
    }
}

// Whether a start of the entry that is tried is left.
fn start_left(windows: WindowSet, at: Position) -> bool
    requires place_bound { at.place < 64 }
    requires start_bound { at.start ≤ 65536 }
    ensures { result ≡ leb (at.start + (windows_in windows).p at.place) ((windows_in windows).d at.place) }
{
    let k = at.place;
    at.start + u32::from(windows.p[k]) <= u32::from(windows.d[k])
}

// One trial: where a plan exists the search goes on with the next whole entry, else with the next start.
fn tried(whole: [bool; ENTRIES], windows: WindowSet, at: Position) -> Position
    requires stands { Stands (marked whole) (windows_in windows) at }
    requires start_left { StartLeft (windows_in windows) at }
    requires trials_bound { at.trials < 4294967295 }
    ensures { Tries (marked whole) (windows_in windows) at result }
{
    let k = at.place;
    let s = at.start;
    let e = s + u32::from(windows.p[k]);
    let trials = at.trials + 1;
    // Both are at most d, so that they fit.
    let fixed = with_window(at.windows, k, s as u16, e as u16);
    if has_plan(fixed) {
        return entered(whole, windows, fixed, k + 1, trials);
    }
    Position {
        start: s + 1,
        trials,
        ..at
    }
}

// Searches windows, whatever they are, for starts of the entries that `whole` marks, in at most so many trials.
pub fn search_windows(whole: [bool; ENTRIES], windows: WindowSet, limit: u32) -> SearchAnswer
    ensures { SearchesWindows (marked whole) windows limit result }
{
    let count = places_held(windows.n);
    let mut at = entered(whole, windows, windows, 0, 0);
    // No count: the search goes on and back, and ends in one of three ways.
    loop {
        if count <= at.place {
            break SearchAnswer {
                ending: Ending::DayFound,
                windows: at.windows,
                trials: at.trials,
            };
        }
        if start_left(windows, at) {
            if limit <= at.trials {
                break SearchAnswer {
                    ending: Ending::TrialsSpent,
                    windows,
                    trials: at.trials,
                };
            }
            at = tried(whole, windows, at);
        } else {
            let Some(last) = last_whole(whole, at.place) else {
                break SearchAnswer {
                    ending: Ending::NoneExists,
                    windows,
                    trials: at.trials,
                };
            };
            at = gone_back(windows, at, last);
        }
    }
}
