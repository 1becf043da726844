// The places of a list: how many the arrays have, and which entries are whole.
ghost use Rattle.std.specs.Prelude.{◌≡◌, min};
ghost use Rattle.list.specs.DayLists.{is_whole, whole_in, marked, most_entries};

use crate::types::{DayList, ENTRIES, Kind};

// How many of n places the arrays have.
pub fn places_held(n: u8) -> usize
    ensures { result ≡ min n most_entries }
{
    usize::from(n).min(ENTRIES)
}

// Whether an entry of this kind is whole.
pub fn is_whole(kind: Kind) -> bool
    ensures { result ≡ is_whole kind }
{
    matches!(kind, Kind::Whole)
}

// Marks the places of the whole entries.
pub fn whole_places(list: DayList) -> [bool; ENTRIES]
    ensures { marked result ≡ whole_in list }
{
    let mut marks = [false; ENTRIES];
    for i in 0..places_held(list.n) {
        marks[i] = is_whole(list.entries[i].kind);
    }
    marks
}
