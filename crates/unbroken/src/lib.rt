// Looking for an unbroken day of a list (document 02, request 8).
// Promises: `unbroken_day` tests what planning tests, narrows, and searches the settled windows with a limit of trials. It is total: its
// contract states answer and lent plan buffer by equality with definitions of specs/, for every value, and beside that what they say of
// all unbroken days of the list (`TellsUnbroken`). Uses the crates base, list, windows, jackson, narrow and planner by their stated
// answers and laws, and the search of the crate backtracking with its law.
#![tactic(auto)]

mod calls;
pub mod types;

pub use calls::unbroken_day;
