// A turn at the control desk, whose rooms cross as three numbers each: the stage (0 fresh, 1 begun, 2 settled, 3 refused), rounds and moves
// (crate room_rows).
ghost use Rattle.abi.specs.RoomCalls.{TurnCall};

use crate::Answer;
use room_rows::turn_numbers;

// Takes one turn over `rooms` and their `lists`, from the room `number` on. Not refused: the values are the room that had the turn, the
// number of its refusal or 0, and the next number; `carried` has what its refusal carries. Nothing unfinished: the values are the number of
// rooms, 0 and the number as it was used. Then, and refused, all that is lent keeps its values. A count of numbers that three does not
// divide is refused as 100.
pub fn dock_turn(rooms: &mut [u32], lists: &mut [u8], number: u64, carried: &mut [u64; 3]) -> Answer
    ensures { TurnCall rooms.old lists.old number carried.old result
        rooms.new lists.new carried.new }
{
    match turn_numbers(rooms, lists, number as usize, carried) {
        Ok(values) => Answer { number: 0, values },
        Err(x) => Answer::from(x),
    }
}
