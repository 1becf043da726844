// The windows of a list, in arrays by place, and whether windows have room.
ghost use Rattle.std.specs.Prelude.{◌≡◌, replicate};
ghost use Rattle.list.specs.Refusals.{outcome_of};
ghost use Rattle.list.specs.DayLists.{empty_list, most_entries};
ghost use Rattle.windows.specs.Windows.{windows_in, has_room, room_fault};
ghost use Rattle.windows.specs.Calls.{Holds};

use crate::types::WindowSet;
use list::places_held;
use list::types::{DayList, ENTRIES, Refusal};

// A 0 for each place.
pub fn zeros() -> [u16; ENTRIES]
    ensures { result ≡ replicate most_entries 0 }
{
    [0; ENTRIES]
}

// The windows of the empty list.
pub fn no_windows() -> WindowSet
    ensures { Holds empty_list result }
{
    WindowSet {
        h: 0,
        n: 0,
        r: zeros(),
        d: zeros(),
        p: zeros(),
    }
}

// The windows of a list value, which is not tested. Places from n on are 0.
pub fn unchecked_windows(list: DayList) -> WindowSet
    ensures { Holds list result }
{
    let mut windows = WindowSet {
        h: list.frame.h,
        n: list.n,
        ..no_windows()
    };
    for (i, e) in list.entries[..places_held(list.n)].iter().enumerate() {
        windows.r[i] = e.r;
        windows.d[i] = e.d;
        windows.p[i] = e.p;
    }
    windows
}

// Whether an entry needs a minute and has room for its minutes, in its window and in the day. The sum r + p may pass 65,535.
fn has_room(h: u16, r: u16, d: u16, p: u16) -> bool
    ensures { result ≡ has_room h r d p }
{
    p != 0 && d <= h && u32::from(r) + u32::from(p) <= u32::from(d)
}

// Rows 6 and 7 for windows: they carry the first place that has no minutes or no room.
pub fn room_fault(windows: WindowSet) -> Result<(), Refusal>
    ensures { outcome_of result ≡ room_fault (windows_in windows) }
{
    for i in 0..places_held(windows.n) {
        if windows.p[i] == 0 {
            return Err(Refusal::NoMinutes(i));
        }
        if !has_room(windows.h, windows.r[i], windows.d[i], windows.p[i]) {
            return Err(Refusal::BadWindow(i));
        }
    }
    Ok(())
}
