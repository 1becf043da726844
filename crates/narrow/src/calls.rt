// Narrowing a list.
ghost use Rattle.std.specs.Prelude.{◌≡◌};
ghost use Rattle.windows.specs.Windows.{windows_in};
ghost use Rattle.narrow.specs.Calls.{entry_with, list_with, narrowed_of, AnswersAs, Settles, MakesRound};

use crate::rounds::{narrow_windows, single_round};
use crate::types::{NarrowedList, NarrowedWindows};
use list::types::{DayList, Entry, Refusal};
use list::{empty_list, places_held, whole_places};
use windows::types::WindowSet;
use windows::unchecked_windows;

// An entry with another window.
fn entry_with(e: Entry, r: u16, d: u16) -> Entry
    ensures { result ≡ entry_with e r d }
{
    Entry { r, d, ..e }
}

// The list with these windows. Places from n on are blank.
fn list_with(list: DayList, windows: WindowSet) -> DayList
    ensures { result ≡ list_with list (windows_in windows) }
{
    let mut entries = empty_list().entries;
    let count = places_held(list.n);
    for i in 0..count {
        entries[i] = entry_with(list.entries[i], windows.r[i], windows.d[i]);
    }
    DayList {
        frame: list.frame,
        // At most 64, so that it fits.
        n: count as u8,
        entries,
    }
}

// The list with the windows found, and their moves.
pub fn list_found(list: DayList, found: NarrowedWindows) -> NarrowedList
    ensures { result ≡ record { list = list_with list (windows_in found.windows); moves = found.moves } }
{
    NarrowedList {
        list: list_with(list, found.windows),
        moves: found.moves,
    }
}

// The same where the windows may be refused: the refusal is handed on.
pub fn answer_with(
    list: DayList,
    found: Result<NarrowedWindows, Refusal>,
) -> Result<NarrowedList, Refusal>
    ensures { AnswersAs list (narrowed_of found) result }
{
    Ok(list_found(list, found?))
}

// Narrows a list until its windows are settled: the value check, row 9 for the windows as given, then rounds and row 10.
pub fn settle(list: DayList) -> Result<NarrowedList, Refusal>
    ensures { Settles list result }
{
    list::check(list)?;
    let found = narrow_windows(whole_places(list), unchecked_windows(list));
    answer_with(list, found)
}

// Makes one round of a list from its windows as given, for a caller that has tested them: the value check, then the round and row 10. Row 9
// is not told, so an overloaded list may be answered.
pub fn make_round(list: DayList) -> Result<NarrowedList, Refusal>
    ensures { MakesRound list result }
{
    list::check(list)?;
    let found = single_round(whole_places(list), unchecked_windows(list));
    answer_with(list, found)
}
