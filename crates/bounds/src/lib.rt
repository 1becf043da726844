// Least ends, greatest starts and shown plans of windows (document 01, "Least ends, greatest starts, shown plans").
// Promises: `bounds_of` gives each place its least end and greatest start, `store_plan` stores a place's early or late plan. Each is total:
// its contract states the answer, and what the lent plan buffer holds, by equality with definitions of specs/, for every value. That the
// bounds are those over all plans is proved for settled windows (proofs/EndBounds.antt, proofs/StartBounds.antt). Uses the crates base,
// list, windows, jackson, edges and narrow by their stated answers and laws.
#![tactic(auto)]

mod ends;
mod shown;
pub mod types;

pub use ends::bounds_of;
pub use shown::store_plan;
