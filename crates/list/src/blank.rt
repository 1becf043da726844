// What stands where nothing counts: at the places from n on.
ghost use Rattle.std.specs.Prelude.{◌≡◌};
ghost use Rattle.list.specs.DayLists.{empty_list};

use crate::types::{DayList, ENTRIES, Entry, Frame, Kind};

// The list with no entries.
pub fn empty_list() -> DayList
    ensures { result ≡ empty_list }
{
    let blank = Entry {
        serial: 0,
        seal: None,
        r: 0,
        d: 0,
        p: 0,
        kind: Kind::Pause,
    };
    DayList {
        frame: Frame { h: 0, opening: 0 },
        n: 0,
        entries: [blank; ENTRIES],
    }
}
