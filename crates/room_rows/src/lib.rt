// The rooms of a control desk as rows of numbers, and a turn over them, for programs in other languages.
// Promises: `turn_numbers` takes one turn over rooms that are three numbers each and over their lists. It is total: its contract states the
// answer and what is left in all that is lent by equality with definitions of specs/, for every value. Uses of rooms its turn over rows
// held by value and the promise of that, the numbers of refusals of codes, and of base and list definitions and lemmas.
#![tactic(auto)]

mod rows;
mod turn;

pub use turn::turn_numbers;
