// A turn over rooms that are three numbers each.
ghost use Rattle.std.specs.Prelude.{◌≡◌};
ghost use Rattle.list.specs.Refusals.{outcome_of};
ghost use Rattle.room_rows.specs.Calls.{said_number, said_values, TurnsNumbers};
ghost use Rattle.room_rows.specs.Internal.{TurnsRooms};

use crate::rows::{ROOM_NUMBERS, eight_rooms, put_room, rooms_fault};
use codes::RefusalCode;
use list::types::Refusal;
use rooms::turn_held;
use rooms::types::{HeldAnswer, Turn};

// The number of a room's refusal and the values that it carries; zeros where there is none.
fn said_as(round: Result<(), Refusal>) -> RefusalCode
    ensures { result ≡ record { number = said_number (outcome_of round); values = said_values (outcome_of round) } }
{
    match round {
        Ok(()) => RefusalCode {
            number: 0,
            values: [0, 0, 0],
        },
        Err(x) => codes::numbers_of(x),
    }
}

// The turn of as many rooms as there are threes, of which the first eight are taken apart; the row of the room that had it is stored.
fn take_numbers(
    numbers: &mut [u32],
    lists: &mut [u8],
    number: usize,
    carried: &mut [u64; 3],
) -> Result<[u64; 3], Refusal>
    ensures { TurnsRooms numbers.old lists.old number carried.old result
        numbers.new lists.new carried.new }
{
    let n = numbers.len() / ROOM_NUMBERS;
    let HeldAnswer { rows, answer } = turn_held(eight_rooms(numbers), n, lists, number);
    match answer? {
        // The library has no From of a usize.
        Turn::NoneUnfinished(used) => Ok([n as u64, 0, used as u64]),
        Turn::Took { room, round, next } => {
            put_room(rows[room], room, numbers);
            let RefusalCode { number, values } = said_as(round);
            *carried = values;
            Ok([room as u64, number, next as u64])
        }
    }
}

// A turn over rooms that are three numbers each: row 100 if three does not divide their count, then `turn`. It answers the room that had
// it, the number of its refusal and the next number, or the turn's own refusal. A refused turn and one with nothing unfinished leave all
// that is lent; else the numbers of the room that had it, its share and `carried` are written.
pub fn turn_numbers(
    numbers: &mut [u32],
    lists: &mut [u8],
    number: usize,
    carried: &mut [u64; 3],
) -> Result<[u64; 3], Refusal>
    ensures { TurnsNumbers numbers.old lists.old number carried.old result
        numbers.new lists.new carried.new }
{
    rooms_fault(numbers.len())?;
    take_numbers(numbers, lists, number, carried)
}
