// One box in two places: entries of one serial whose windows share a minute.
ghost use Rattle.std.specs.Prelude.{◌≡◌, ◌<◌, length};
ghost use Rattle.list.specs.DayLists.{entries_of};
ghost use Rattle.list.specs.Clashes.{clash, clashes_earlier, first_clash};

use crate::places::places_held;
use crate::types::{DayList, Entry};

impl Entry {
    // Whether two entries are one box in two places: serials tell boxes apart, seals do not, and the later r is before the earlier d.
    fn clashes(self, other: Entry) -> bool
        ensures { result ≡ clash self other }
    {
        self.serial == other.serial && self.r.max(other.r) < self.d.min(other.d)
    }
}

// Whether the entry at a place clashes with an earlier one.
#[tactic(auto, using(crate::proofs::ClashCases::in_places))]
fn clashes_earlier(list: DayList, place: usize) -> bool
    requires { place < length (entries_of list) }
    ensures { result ≡ clashes_earlier (entries_of list) place }
{
    for i in 0..place {
        if list.entries[i].clashes(list.entries[place]) {
            return true;
        }
    }
    false
}

// The first entry in list order that clashes with an earlier one, or the number of entries if there is none.
// A number for none too, not an Option: the definition in its clause gives that number.
pub fn first_clash(list: DayList) -> usize
    ensures { result ≡ first_clash (entries_of list) }
{
    let count = places_held(list.n);
    for place in 0..count {
        if clashes_earlier(list, place) {
            return place;
        }
    }
    count
}
