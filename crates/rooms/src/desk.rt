// A turn over rows held by value and the lists lent: which room has it, and its round.
ghost use Rattle.std.specs.Prelude.{◌≡◌, ◌<◌, ◌≤◌};
ghost use Rattle.rooms.specs.Cycles.{number_after, number_used};
ghost use Rattle.rooms.specs.Rooms.{is_unfinished};
ghost use Rattle.rooms.specs.Turns.{most_rooms, no_row};
ghost use Rattle.rooms.specs.Internal.{unfinished_in, FindsNext, TakesTurn};

use crate::room::room_round;
use crate::types::{Room, RoomAnswer, Stage, Turn, TurnTaken};
use list::types::Refusal;
use shares::SHARE_BYTES;

pub(crate) const MOST_ROOMS: usize = 8;

fn is_unfinished(stage: Stage) -> bool
    ensures { result ≡ is_unfinished stage }
{
    matches!(stage, Stage::Fresh | Stage::Begun)
}

// What stands for a row past the last.
pub fn no_row() -> Room
    ensures { result ≡ no_row }
{
    Room {
        stage: Stage::Fresh,
        rounds: 0,
        moves: 0,
    }
}

// The number after k: after the last, 0.
fn number_after(n: usize, k: usize) -> usize
    requires { k < most_rooms }
    ensures { result ≡ number_after n k }
{
    if k + 1 < n { k + 1 } else { 0 }
}

// Any number past the last counts as 0.
fn number_used(n: usize, number: usize) -> usize
    ensures { result ≡ number_used n number }
{
    if number < n { number } else { 0 }
}

// The next unfinished of the first n rooms in cyclic order from the number handed in.
fn next_unfinished(rows: [Room; MOST_ROOMS], n: usize, number: usize) -> Option<usize>
    requires { (1 ≤ n) × (n ≤ most_rooms) }
    ensures { FindsNext (unfinished_in rows) n number result }
{
    let mut at = number_used(n, number);
    for _ in 0..n {
        if is_unfinished(rows[at].stage) {
            return Some(at);
        }
        at = number_after(n, at);
    }
    None
}

// A turn of n rooms, whose rows are the first n of these: refusals 19 and 12, then the round of the next unfinished room on its share.
pub(crate) fn take_turn(
    lists: &mut [u8],
    rows: [Room; MOST_ROOMS],
    n: usize,
    number: usize,
) -> Result<TurnTaken, Refusal>
    ensures { TakesTurn rows n number lists.old result lists.new }
{
    if n == 0 || MOST_ROOMS < n {
        return Err(Refusal::RoomCount(n));
    }
    if lists.len() < n * SHARE_BYTES {
        return Err(Refusal::ListBufferShort(n * SHARE_BYTES));
    }
    let Some(at) = next_unfinished(rows, n, number) else {
        return Ok(TurnTaken {
            turn: Turn::NoneUnfinished(number_used(n, number)),
            stored: None,
        });
    };
    let start = at * SHARE_BYTES;
    let RoomAnswer { row, round } = room_round(rows[at], &mut lists[start..start + SHARE_BYTES]);
    let next = number_after(n, at);
    Ok(TurnTaken {
        turn: Turn::Took {
            room: at,
            round,
            next,
        },
        stored: Some((at, row)),
    })
}
