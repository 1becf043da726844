// The mirror of windows.
ghost use Rattle.std.specs.Prelude.{◌≤◌};
ghost use Rattle.list.specs.DayLists.{most_entries};
ghost use Rattle.windows.specs.Mirrors.{MirrorOf};
ghost use Rattle.windows.specs.Internal.{MirroredSide};

use crate::types::WindowSet;
use list::places_held;
use list::types::ENTRIES;

// One side of the mirrored windows: of the first count entries h minus the other side, of the rest the side as it is.
// One function for both sides, so each side comes with the other.
fn mirrored_side(
    h: u16,
    count: usize,
    mut side: [u16; ENTRIES],
    other: &[u16; ENTRIES],
) -> [u16; ENTRIES]
    requires { count ≤ most_entries }
    ensures { MirroredSide h count side other.now result }
{
    for (i, x) in side[..count].iter_mut().enumerate() {
        *x = h.saturating_sub(other[i]);
    }
    side
}

// "[r, d) becomes [H-d, H-r), places kept"
pub fn mirrored(windows: WindowSet) -> WindowSet
    ensures { MirrorOf windows result }
{
    let count = places_held(windows.n);
    WindowSet {
        r: mirrored_side(windows.h, count, windows.r, &windows.d),
        d: mirrored_side(windows.h, count, windows.d, &windows.r),
        ..windows
    }
}
