// One more entry for a day that is planned (document 02, "Ask for a late box, then commit it").
// Promises: `fresh_day` makes a day of a list that can be planned; `ask` plans the day's list with one more entry, and `commit` does so
// again and appends the entry exactly when that gives a plan. Each is total: its contract states
// the answer, the day and what the lent plan buffer holds by equality with definitions of specs/, for every value, and beside that demands
// 2 and 3 of the longer list. The statement over every list of asks and commits is `RunLaw` of specs/Runs.antt. Uses the crates list,
// narrow and planner by their stated answers, and of base, windows and jackson definitions.
#![tactic(auto)]

mod calls;
mod lists;
pub mod types;

pub use calls::{ask, commit, fresh_day};
