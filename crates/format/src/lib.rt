// The list's bytes (document 01, "The day's list"): reading them, and writing a list's one form.
// Promises: `read` turns bytes into a list, `write` gives a list's one form. Each is total: its contract states the answer, and what the
// lent buffer holds, by equality with definitions of specs/, for every input. Uses the crates base and list.
#![tactic(auto)]

mod bytes;
mod entry;
mod form;
mod header;
mod map;
mod reader;
mod writer;

pub use reader::read;
pub use writer::write;
