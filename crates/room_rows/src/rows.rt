// A room as three numbers: its stage, rounds and moves.
ghost use Rattle.std.specs.Prelude.{◌≡◌, ◌+◌, ◌*◌, ◌≤◌, ◌/◌, length, get_or};
ghost use Rattle.std.proofs.lemmas.List.Edits.{sets};
ghost use Rattle.list.specs.Refusals.{outcome_of};
ghost use Rattle.rooms.specs.Turns.{no_row, eight_rows};
ghost use Rattle.room_rows.specs.RoomRows.{room_numbers, stage_of, stage_number, rooms_in, room_row, rooms_fault};

use list::types::Refusal;
use rooms::no_row;
use rooms::types::{Room, Stage};

pub(crate) const ROOM_NUMBERS: usize = 3;

// Row 100 if three does not divide so many numbers.
pub(crate) fn rooms_fault(numbers: usize) -> Result<(), Refusal>
    ensures { outcome_of result ≡ rooms_fault numbers }
{
    let over = numbers % ROOM_NUMBERS;
    if over == 0 {
        Ok(())
    } else {
        Err(Refusal::BadFlatLength(numbers - over))
    }
}

// The stage that a number says; any number over 3 counts as 3. Not a `From`: neither type is of this crate, and 4 says what 3 says.
fn stage_of(number: u32) -> Stage
    ensures { result ≡ stage_of number }
{
    match number {
        0 => Stage::Fresh,
        1 => Stage::Begun,
        2 => Stage::Settled,
        _ => Stage::Refused,
    }
}

// Not a From either, for the same reason.
fn stage_number(stage: Stage) -> u32
    ensures { result ≡ stage_number stage }
{
    match stage {
        Stage::Fresh => 0,
        Stage::Begun => 1,
        Stage::Settled => 2,
        Stage::Refused => 3,
    }
}

// Room i, or what stands for a row past the last.
fn room_or(numbers: &[u32], i: usize) -> Room
    ensures { result ≡ get_or (rooms_in numbers.now) i no_row }
{
    if i < numbers.len() / ROOM_NUMBERS {
        let at = ROOM_NUMBERS * i;
        Room {
            stage: stage_of(numbers[at]),
            rounds: numbers[at + 1],
            moves: numbers[at + 2],
        }
    } else {
        no_row()
    }
}

// The first eight rooms.
pub(crate) fn eight_rooms(numbers: &[u32]) -> [Room; 8]
    ensures { result ≡ eight_rows (rooms_in numbers.now) no_row }
{
    std::array::from_fn(|i| room_or(numbers, i))
}

// The numbers of one room are stored at its place.
pub(crate) fn put_room(room: Room, k: usize, numbers: &mut [u32])
    requires { room_numbers * k + room_numbers ≤ length numbers.old }
    ensures { numbers.new ≡ sets numbers.old (room_numbers * k) (room_row room) }
{
    let at = ROOM_NUMBERS * k;
    numbers[at..at + ROOM_NUMBERS].copy_from_slice(&[
        stage_number(room.stage),
        room.rounds,
        room.moves,
    ]);
}
