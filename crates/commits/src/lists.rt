// The lists that days hold: the entries that count, and one more.
ghost use Rattle.std.specs.Prelude.{◌≡◌, ◌<◌};
ghost use Rattle.list.specs.DayLists.{most_entries};
ghost use Rattle.commits.specs.Days.{trimmed, with_entry};

use list::types::{DayList, Entry};
use list::{empty_list, places_held};

// The list with the entries that count: places from n on are blank.
pub(crate) fn trimmed(list: DayList) -> DayList
    ensures { result ≡ trimmed list }
{
    let count = places_held(list.n);
    let mut entries = empty_list().entries;
    entries[..count].copy_from_slice(&list.entries[..count]);
    DayList {
        frame: list.frame,
        // At most 64, so that it fits.
        n: count as u8,
        entries,
    }
}

// The list with one more entry, at place n.
pub(crate) fn with_entry(list: DayList, e: Entry) -> DayList
    requires { list.n < most_entries }
    ensures { result ≡ with_entry list e }
{
    let mut longer = trimmed(list);
    longer.entries[usize::from(list.n)] = e;
    longer.n = list.n + 1;
    longer
}
