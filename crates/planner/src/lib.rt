// The calls that narrow and plan a day (document 01, "Least ends, greatest starts, shown plans" and the demands).
// Promises: `plan_day` plans a list, `show_early` and `show_late` show a plan of one of its places. Each is total: its contract states the
// answer and what the lent plan buffer holds by equality with definitions of specs/, for every value, and beside that demand 3
// (specs/Demand3.antt), and for planning demand 2 (specs/Demand2.antt), of what the call itself answers. `plan_checks` are the rows above
// 9, for the crates above. A list becomes windows once and gets its settled windows once, at the end; the value check runs once. Uses the crates base, list, windows, jackson, narrow and bounds by their stated answers and laws, and
// of format what bytes say, for an example.
#![tactic(auto)]

mod broken;
mod calls;
pub mod types;

pub use calls::{plan_checks, plan_day, show_early, show_late};
