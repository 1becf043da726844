// One round of a room: its row by value, its share lent.
ghost use Rattle.std.specs.Prelude.{◌≡◌, ◌≤◌, length};
ghost use Rattle.list.specs.Refusals.{outcome_of};
ghost use Rattle.list.specs.Checks.{WellFormed};
ghost use Rattle.shares.specs.Shares.{share_bytes};
ghost use Rattle.rooms.specs.Rooms.{count_on, first_test, stage_after};
ghost use Rattle.rooms.specs.Internal.{FindsRound, RoundsRoom};

use crate::types::{Room, RoomAnswer, Stage};
use list::types::{DayList, Refusal};
use narrow::types::NarrowedList;
use shares::read_front;

const MOST_COUNTED: u32 = 100000;

// "Rounds and moves stop counting at 100,000 (a larger one handed in stays)."
fn count_on(old: u32, more: u32) -> u32
    ensures { result ≡ count_on old more }
{
    if old >= MOST_COUNTED {
        old
    } else {
        old.saturating_add(more).min(MOST_COUNTED)
    }
}

// "A first round starts with the overload test."
fn first_test(stage: Stage, list: DayList) -> Result<(), Refusal>
    requires { WellFormed list }
    ensures { outcome_of result ≡ first_test stage list }
{
    match stage {
        Stage::Fresh => jackson::overload(list),
        Stage::Begun | Stage::Settled | Stage::Refused => Ok(()),
    }
}

// The round that a share gives: its list is read, tested if the room is fresh, and narrowed by one round. Nothing is written yet.
fn round_in(stage: Stage, share: &[u8]) -> Result<NarrowedList, Refusal>
    ensures { FindsRound stage share.now result }
{
    let list = read_front(share)?;
    first_test(stage, list)?;
    narrow::make_round(list)
}

// A round without moves is the last.
fn stage_after(moves: u32) -> Stage
    ensures { result ≡ stage_after moves }
{
    if moves == 0 {
        Stage::Settled
    } else {
        Stage::Begun
    }
}

// One round of a room: the list that it leaves is written back, and the row goes on; of a refused room only the stage is written.
pub(crate) fn room_round(row: Room, share: &mut [u8]) -> RoomAnswer
    requires { share_bytes ≤ length share.old }
    ensures { RoundsRoom row share.old result share.new }
{
    match round_in(row.stage, share) {
        Ok(NarrowedList { list, moves }) => {
            // A share has room for every list.
            let _written = format::write(list, share);
            RoomAnswer {
                row: Room {
                    stage: stage_after(moves),
                    rounds: count_on(row.rounds, 1),
                    moves: count_on(row.moves, moves),
                },
                round: Ok(()),
            }
        }
        Err(x) => RoomAnswer {
            row: Room {
                stage: Stage::Refused,
                ..row
            },
            round: Err(x),
        },
    }
}
