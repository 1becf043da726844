// Edge-finding (source documents 002 and 004; request 7 of document 02): the least start of an entry, by jumps, and the least ends of all
// entries, in closed form.
// Promises: `least_start` finds the least start of an entry, `closed_ends` gives the least ends of all entries as pause entries. Each is
// total: its contract states the answer by equality with definitions of specs/, for every value; what these are over all plans is stated in
// specs/Laws.antt, for windows with room that have a plan. Uses the crates base, list, order and windows, and of the crate jackson the law
// that a plan exists exactly without overload.
#![tactic(auto)]

mod ends;
mod starts;

pub use ends::closed_ends;
pub use starts::least_start;
