// Broken entries of a plan.
ghost use Rattle.std.specs.Prelude.{◌≡◌, ◌<◌, length, take};
ghost use Rattle.list.specs.DayLists.{marked};
ghost use Rattle.windows.specs.Windows.{windows_in};
ghost use Rattle.windows.specs.Plans.{places_in, start_of, end_of};
ghost use Rattle.planner.specs.BrokenEntries.{broken_in};
ghost use Rattle.planner.specs.Internal.{HoldsPlan, one_broken};

use list::places_held;
use list::types::ENTRIES;
use windows::types::WindowSet;

// The first minute of a plan that place k has, the plan's length for none.
// Not an Option, nor the next: the definitions give these numbers, and of no minutes the sum below never fits.
fn start_in(plan: &[u8], k: u8) -> usize
    ensures { result ≡ start_of (length plan.now) (places_in plan.now) k }
{
    plan.iter().position(|x| *x == k).unwrap_or(plan.len())
}

// The minute after the last of a plan that place k has, 0 for none.
fn end_in(plan: &[u8], k: u8) -> usize
    ensures { result ≡ end_of (length plan.now) (places_in plan.now) k }
{
    plan.iter().rposition(|x| *x == k).map_or(0, |t| t + 1)
}

// 1 for a broken entry, that is a whole one that has fewer minutes than lie from its start to its end; 0 for another.
fn one_broken(whole: bool, windows: WindowSet, plan: &[u8], k: usize) -> u8
    requires holds_plan { HoldsPlan (windows_in windows) plan.now }
    requires k_bound { k < (windows_in windows).n }
    ensures { result ≡ one_broken (λ _. whole) (windows_in windows) plan.now k }
{
    if !whole {
        return 0;
    }
    let minutes = &plan[..usize::from(windows.h)];
    // Below 64, so that it fits.
    let place = k as u8;
    let p = usize::from(windows.p[k]);
    u8::from(start_in(minutes, place) + p != end_in(minutes, place))
}

// How many entries the plan in the windows breaks, of which `whole` marks the whole ones.
pub(crate) fn broken_in(whole: [bool; ENTRIES], windows: WindowSet, plan: &[u8]) -> u8
    requires { HoldsPlan (windows_in windows) plan.now }
    ensures { result ≡ broken_in (marked whole) (windows_in windows) (places_in (take windows.h plan.now)) }
{
    let count = places_held(windows.n);
    let mut sum: u8 = 0;
    for i in 0..count {
        sum += one_broken(whole[i], windows, plan, i);
    }
    sum
}
