// What the control program lends for each room, and what a turn answers.
use list::types::Refusal;

// "its stage (fresh, begun, settled, refused)"
#[derive(Clone, Copy, Debug, PartialEq, Eq)]
pub enum Stage {
    // No round was made.
    Fresh,
    // A round was made, and it moved something.
    Begun,
    // The last round moved nothing.
    Settled,
    // The list does not read, is overloaded, or a whole entry has no place.
    Refused,
}

// "one short row for each room: its stage .., rounds and moves"
#[derive(Clone, Copy)]
pub struct Room {
    pub stage: Stage,
    pub rounds: u32,
    pub moves: u32,
}

// What one round of a room answers: its row after it, which is written on a refusal too, and whether the round was made.
#[derive(Clone, Copy)]
pub struct RoomAnswer {
    pub row: Room,
    pub round: Result<(), Refusal>,
}

// What a turn did that was not refused itself.
#[derive(Clone, Copy, Debug, PartialEq, Eq)]
pub enum Turn {
    // Nothing is unfinished; the number as it was used.
    NoneUnfinished(usize),
    // The room that had the turn, its round or the refusal of it, and the number after it.
    Took {
        room: usize,
        round: Result<(), Refusal>,
        next: usize,
    },
}

// What `take_turn` answers: what the turn did, and the place and the row to be stored, where a room had it.
#[derive(Clone, Copy)]
pub struct TurnTaken {
    pub turn: Turn,
    pub stored: Option<(usize, Room)>,
}

// What a turn over rows held by value answers, for callers that cannot lend a slice of them: the rows after it, and the turn or 19 or 12,
// which leave the rows.
#[derive(Clone, Copy)]
pub struct HeldAnswer {
    pub rows: [Room; 8],
    pub answer: Result<Turn, Refusal>,
}
