// A turn over rows held by value, for callers that cannot lend a slice of them.
ghost use Rattle.rooms.specs.Calls.{TurnsHeld};

use crate::desk::MOST_ROOMS;
use crate::lent::turn_first;
use crate::types::{HeldAnswer, Room};
use list::types::Refusal;

// A turn at a desk of n rooms, whose rows are the first n of these: `turn` over them, or row 19 where there are more than eight.
// A count beside the rows: no heap, and n may be over eight, which row 19 tells.
pub fn turn_held(rows: [Room; MOST_ROOMS], n: usize, lists: &mut [u8], number: usize) -> HeldAnswer
    ensures { TurnsHeld rows n lists.old number result lists.new }
{
    if MOST_ROOMS < n {
        return HeldAnswer {
            rows,
            answer: Err(Refusal::RoomCount(n)),
        };
    }
    turn_first(rows, n, lists, number)
}
