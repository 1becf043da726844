// Windows, plans, the mirror and overloaded intervals (document 01, "Overloaded intervals").
// Promises: `unchecked_windows` gives a list's windows, `no_windows` those of the empty list, `mirrored` the mirror of windows,
// `ByRelease::of` windows with the order of their places, the latest release first; `room_fault` tests whether windows have room,
// `unchecked_overload` whether an interval of them is overloaded; `zeros` is a 0 for each place. Each is total: its contract states the
// answer by equality with definitions of specs/ or, of an order, in facts that leave one array, for every value. Uses the crates base, list
// and order. proofs/Lib.antt says which laws the crates above may cite.
#![tactic(auto)]

mod by_release;
mod interval;
mod mirror;
mod running_sum;
pub mod types;
mod window_set;

pub use by_release::ByRelease;
pub use interval::unchecked_overload;
pub use mirror::mirrored;
pub use window_set::{no_windows, room_fault, unchecked_windows, zeros};
