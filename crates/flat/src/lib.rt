// A list value and a stamped day as rows of numbers, and numbers by place, as they cross to other languages.
// Promises: `list_in` is the list value that a row says, whatever its numbers are, or 100 for a row of another length, which
// `length_fault` tests alone, and `list_beside` also of a row that is lent beside it; `put_flat` stores the numbers that say a list value,
// and nothing in a row of another length; `day_in` and `put_day` do the same for a day, and `entry_of` is the entry that seven numbers say;
// `place_numbers` are the minutes of the 64 places, `joined` is least ends and greatest starts one after the other. Each is total: its
// contract states the answer by equality with definitions of specs/. Uses the types and the empty list of the crate list, the stamped day
// of commits, three definitions of format, and laws of stores of base.
#![tactic(auto)]

mod day;
mod places;
mod value;

pub use day::{day_in, entry_of, put_day};
pub use places::{joined, place_numbers};
pub use value::{length_fault, list_beside, list_in, put_flat};

// The numbers of a list value: H, n, the opening minute, and seven for each place.
pub const NUMBERS: usize = 451;

// The numbers of a stamped day: those of its list, and its stamp.
pub const DAY_NUMBERS: usize = 452;

// The numbers of an entry.
pub const ENTRY_NUMBERS: usize = 7;

// The bounds of a list: a least end and a greatest start for each place.
pub const BOUNDS: usize = 128;
