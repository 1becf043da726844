// Windows, and the places of their entries, the latest release first.
ghost use Rattle.std.specs.Prelude.{ℕ, ◌≡◌, ◌<◌};
ghost use Rattle.list.specs.DayLists.{most_entries};
ghost use Rattle.order.specs.Orders.{value_at, HoldsOrder};
ghost use Rattle.windows.specs.Windows.{windows_in};
ghost use Rattle.windows.specs.RunningSums.{LatestReleaseFirst};

use crate::types::WindowSet;
use list::types::ENTRIES;
use order::largest_first;

// The order is the one in which a left end that walks down meets the places. That it lists places alone follows from that; it stands here
// too, for code that indexes by them.
#[derive(Clone, Copy)]
pub struct ByRelease {
    pub windows: WindowSet,
    pub order: [usize; ENTRIES],
    pub ghost lists_places: { (x : ℕ) → x < (windows_in windows).n → value_at order x < most_entries },
    pub ghost latest_release_first: { LatestReleaseFirst (windows_in windows) (value_at order) },
}

impl ByRelease {
    // The windows with their one order: of places with the same release the lowest comes first, and 0 stands behind the places.
    pub fn of(windows: WindowSet) -> Self
        ensures windows_are { result.windows ≡ windows }
        ensures holds_order { HoldsOrder (windows_in windows).n (windows_in windows).r result.order }
    {
        ByRelease {
            windows,
            order: largest_first(windows.n, &windows.r),
        }
    }
}
