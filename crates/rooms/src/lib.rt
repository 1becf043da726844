// Eight rooms at one control desk (document 02): a turn makes one round of narrowing for the next unfinished room.
// Promises: `turn` takes one turn over lent rows and the rooms' lists in a lent buffer, and `turn_held` for callers that hold the rows by
// value; `no_row` is what stands for a row past the last. Each is total: its contract states the answer and what is left by equality with
// definitions of specs/, for every value, and beside it the laws of this turn (specs/Laws.antt) and of turns one after the other
// (specs/Runs.antt). Uses the crates list, format, shares, windows, jackson and narrow by their stated answers, of narrow also what is
// shown of single rounds, and of base definitions and lemmas.
#![tactic(auto)]

mod desk;
mod held;
mod lent;
mod room;
pub mod types;

pub use desk::no_row;
pub use held::turn_held;
pub use lent::turn;
