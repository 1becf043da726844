// Rows of rooms, lent as a slice. These functions are few and thin, and all rules are in the functions that they call.
ghost use Rattle.std.specs.Prelude.{◌≡◌, ◌≤◌};
ghost use Rattle.rooms.specs.Turns.{most_rooms, no_row, eight_rows};
ghost use Rattle.rooms.specs.Calls.{Turns, TurnsFirst};

use crate::desk::{no_row, take_turn};
use crate::types::{HeldAnswer, Room, Turn, TurnTaken};
use list::types::Refusal;

// The first eight rows.
fn gather(rooms: &[Room]) -> [Room; 8]
    ensures { result ≡ eight_rows rooms.now no_row }
{
    std::array::from_fn(|i| rooms.get(i).copied().unwrap_or(no_row()))
}

// One turn at the control desk: the rows are taken apart, one room's round is made, and its row is stored.
pub fn turn(rooms: &mut [Room], lists: &mut [u8], number: usize) -> Result<Turn, Refusal>
    ensures { Turns (record { rows = rooms.old; lists = lists.old }) number result
        (record { rows = rooms.new; lists = lists.new }) }
{
    let rows = gather(rooms);
    let TurnTaken { turn, stored } = take_turn(lists, rows, rooms.len(), number)?;
    if let Some((at, row)) = stored {
        rooms[at] = row;
    }
    Ok(turn)
}

// A turn at a desk whose n rows are the first of these: they are lent to `turn`.
pub(crate) fn turn_first(
    mut rows: [Room; 8],
    n: usize,
    lists: &mut [u8],
    number: usize,
) -> HeldAnswer
    requires { n ≤ most_rooms }
    ensures { TurnsFirst rows n lists.old number result lists.new }
{
    let answer = turn(&mut rows[..n], lists, number);
    HeldAnswer { rows, answer }
}
