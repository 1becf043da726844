// Jackson's preemptive schedule, and the law that a plan exists exactly when no interval is overloaded (document 01, "Jackson's minute" and
// "Overloaded intervals").
// Promises: a `Day` gives its minute's place together with the advanced day, and its stretch of minutes with one place together with the
// day after them; `start_day` starts one from a list, `schedule` fills a plan buffer, `overload` tests a list; `unchecked_schedule` fills a
// plan buffer for windows. Each is total: its contract states the answer, and what a lent buffer holds, by equality with definitions of
// specs/, for every value. Uses the crates base, list and windows. proofs/Lib.antt says which laws the crates above may cite.
#![tactic(auto)]

mod fill;
mod minute;
mod overload_test;
mod stretch;
pub mod types;

pub use fill::{schedule, start_day, unchecked_schedule};
pub use overload_test::overload;
