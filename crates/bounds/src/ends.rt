// Least ends and greatest starts.
ghost use Rattle.std.specs.Prelude.{◌≡◌, true, false, cond, ◌+◌, ◌≤◌};
ghost use Rattle.list.specs.DayLists.{marked, most_entries};
ghost use Rattle.windows.specs.Windows.{windows_in, Formed, Searchable};
ghost use Rattle.windows.specs.Intervals.{overload_of};
ghost use Rattle.bounds.specs.Ends.{least_end, least_ends, greatest_starts};
ghost use Rattle.bounds.specs.Calls.{HoldsBounds};
ghost use Rattle.bounds.specs.Internal.{PauseEnds, PausesPlanned, AllWhole};

use crate::types::Bounds;
use edges::closed_ends;
use list::places_held;
use list::types::ENTRIES;
use windows::types::WindowSet;
use windows::{mirrored, room_fault, unchecked_overload, zeros};

// The least end of an entry: r + p of a whole one, the closed form of a pause entry, or its d where there is no plan.
fn end_by_kind(whole: bool, planned: bool, r: u16, d: u16, p: u16, closed: u32) -> u16
    requires p_bound { r + p ≤ 65535 }
    requires closed_bound { whole ≡ false → planned ≡ true → closed ≤ 65535 }
    ensures { result ≡ cond whole (r + p) (cond planned closed d) }
{
    if whole {
        r + p
    } else if planned {
        // Fits, by the second clause.
        closed as u16
    } else {
        d
    }
}

// The least end of entry k.
pub(crate) fn least_end(windows: WindowSet, k: usize, whole: bool) -> u16
    requires { Searchable windows k }
    ensures { result ≡ least_end overload_of (λ _. whole) (windows_in windows) k }
{
    let planned = unchecked_overload(windows).is_ok();
    let closed = closed_ends(windows);
    end_by_kind(
        whole,
        planned,
        windows.r[k],
        windows.d[k],
        windows.p[k],
        closed[k],
    )
}

// Whether all of the first count entries are whole.
fn all_whole(count: usize, whole: [bool; ENTRIES]) -> bool
    requires { count ≤ most_entries }
    ensures { AllWhole count (marked whole) result }
{
    whole[..count].iter().all(|w| *w)
}

// Whether there is a plan, if there is a pause entry: of whole ones the bounds do not ask.
fn pauses_planned(whole: [bool; ENTRIES], windows: WindowSet) -> bool
    ensures { PausesPlanned (marked whole) (windows_in windows) result }
{
    all_whole(places_held(windows.n), whole) || unchecked_overload(windows).is_ok()
}

// The least ends of pause entries in closed form, if there are any.
fn pause_ends(whole: [bool; ENTRIES], windows: WindowSet) -> [u32; ENTRIES]
    ensures { PauseEnds (marked whole) (windows_in windows) result }
{
    if all_whole(places_held(windows.n), whole) {
        return [0; ENTRIES];
    }
    closed_ends(windows)
}

// The least ends of the entries of these windows, of which `whole` marks the whole ones; `planned` says whether there is a plan. Places
// from n on are 0.
fn least_ends(whole: [bool; ENTRIES], windows: WindowSet, planned: bool) -> [u16; ENTRIES]
    requires formed { Formed (windows_in windows) }
    requires pauses_planned { PausesPlanned (marked whole) (windows_in windows) planned }
    ensures { result ≡ least_ends (marked whole) (windows_in windows) }
{
    let closed = pause_ends(whole, windows);
    let mut ends = zeros();
    let count = places_held(windows.n);
    for i in 0..count {
        ends[i] = end_by_kind(
            whole[i],
            planned,
            windows.r[i],
            windows.d[i],
            windows.p[i],
            closed[i],
        );
    }
    ends
}

// The greatest starts: the mirrors of the least ends in the mirror.
fn greatest_starts(whole: [bool; ENTRIES], windows: WindowSet, planned: bool) -> [u16; ENTRIES]
    requires formed { Formed (windows_in windows) }
    requires pauses_planned { PausesPlanned (marked whole) (windows_in windows) planned }
    ensures { result ≡ greatest_starts (marked whole) (windows_in windows) }
{
    let h = windows.h;
    let ends = least_ends(whole, mirrored(windows), planned);
    let mut starts = zeros();
    let count = places_held(windows.n);
    for i in 0..count {
        starts[i] = h - ends[i];
    }
    starts
}

// The least ends and greatest starts of windows.
pub fn bounds_of(whole: [bool; ENTRIES], windows: WindowSet) -> Bounds
    ensures { HoldsBounds (marked whole) (windows_in windows) result }
{
    match room_fault(windows) {
        Ok(()) => {
            let planned = pauses_planned(whole, windows);
            Bounds {
                ends: least_ends(whole, windows, planned),
                starts: greatest_starts(whole, windows, planned),
            }
        }
        // Zeros, not an Err: this call cannot fail.
        Err(_) => Bounds {
            ends: zeros(),
            starts: zeros(),
        },
    }
}
