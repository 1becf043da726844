// The day's list (document 01, "The day's list"): its value, the refusals of every call, and when a value is turned back.
// Promises: `check` tests a value; `header_fault`, `opening_fault` and `entry_fault` are its rows for a header, for an opening minute and
// for an entry, and `first_clash` is the place of its row for two entries of one serial, all of which the reader gives too; `empty_list`
// is the list with no entries; `is_whole` says whether a kind is whole, `whole_places` which entries are, and `places_held` how many of n
// places the arrays have. Each is total: its contract states the answer by equality with definitions of specs/, for every value. A call
// that can refuse answers a `Result` with a `Refusal`. Uses the crate base.
#![tactic(auto)]

mod blank;
mod checks;
mod clashes;
mod places;
pub mod types;

pub use blank::empty_list;
pub use checks::{check, entry_fault, header_fault, opening_fault};
pub use clashes::first_clash;
pub use places::{is_whole, places_held, whole_places};
