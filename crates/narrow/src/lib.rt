// Narrowing (document 01, "Narrowing"): the windows of whole entries are narrowed, round after round, until they are settled.
// Promises: `narrow_windows` narrows windows and `settle` a list; for the crates above, `make_round` makes one round of a list without row
// 9, and `list_found` gives a list the windows found, `answer_with` also where they are refused. Each is total: its contract states the
// answer by equality with definitions of specs/, for every value, and the first three beside it the law of specs/Laws.antt. Uses the crates
// base and list, of the crate windows the windows, their mirror and their test for room, the overload test's promise and the
// interval that it shows, which lists have the same windows and facts about plans, of the crate jackson the law that a plan exists
// exactly without overload, and of the crate edges the search for a start and the least ends in closed form, with their laws; no schedule.
#![tactic(auto)]

mod calls;
mod rounds;
pub mod types;

pub use calls::{answer_with, list_found, make_round, settle};
pub use rounds::narrow_windows;
