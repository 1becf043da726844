// A plan with no whole entry broken, by backtracking over the starts of the whole entries (document 02, request 8).
// Promises: `search_windows` searches in windows, with a limit of trials. It is total: its contract states ending, trials and windows by
// equality with the defined search of specs/Searches.antt. specs/Laws.antt says what that search ends with, over all unbroken days; for
// windows with room that have a plan it is in the contract. `is_found` and `ending_number` read an ending. Uses the crates base and list,
// of windows the windows and the overload test, of jackson the law of plans, of narrow what settled windows keep.
#![tactic(auto)]

mod search;
pub mod types;

pub use search::{ending_number, is_found, search_windows};
