// The values that travel between the crates.

// The places of a list, and so its entries at most.
pub const ENTRIES: usize = 64;

// The minutes of the longest day.
pub const LONGEST_DAY: u16 = 1440;

// Document 01's kinds: a pause entry may be interrupted (preempted); a whole entry is unpausable, its work is wanted in one piece.
#[derive(Clone, Copy, Debug, PartialEq, Eq)]
pub enum Kind {
    Pause,
    Whole,
}

// Document 01's seal: "either missing or a number".
pub type Seal = Option<u32>;

// One box: its serial; its seal, which "travels inside its entry"; its window [r, d) of minutes, and the p minutes of work that it needs.
#[derive(Clone, Copy)]
pub struct Entry {
    pub serial: u32,
    pub seal: Seal,
    pub r: u16,
    pub d: u16,
    pub p: u16,
    pub kind: Kind,
}

// What the header says of every entry: the day's length H in minutes, and the minute at which the room opens; 0 is no opening minute.
#[derive(Clone, Copy)]
pub struct Frame {
    pub h: u16,
    pub opening: u16,
}

// A day's list: the first n entries count, known by their place from 0.
// The count stands beside the entries: no heap, and a list value may say an n over 64, which refusal 3 tells.
#[derive(Clone, Copy)]
pub struct DayList {
    pub frame: Frame,
    pub n: u8,
    pub entries: [Entry; ENTRIES],
}

// The refusals of every call of the planner, a case for each number of "Where a list is turned back" and of document 02's requests, and
// 100. specs/Refusals.antt has each case's number and the values that it carries.
#[derive(Clone, Copy, Debug, PartialEq, Eq)]
pub enum Refusal {
    // 1: bytes are missing; the input's length.
    BytesMissing(usize),
    // 2: the day's length is 0 or over 1,440.
    BadDayLength,
    // 3: over 64 entries; the count's place in the bytes, 0 for a value.
    TooManyEntries(usize),
    // 4: a map byte breaks its rules; its place.
    BadMapByte(usize),
    // 5: r or d is written at its default; the map byte's place.
    DefaultWritten(usize),
    // 6: p is 0; the map byte's place, or the entry's for a value.
    NoMinutes(usize),
    // 7: d over H, or r + p over d; the map byte's place, or the entry's for a value.
    BadWindow(usize),
    // 8: bytes are left over; the first of them.
    BytesLeftOver(usize),
    // 9: the interval from a to b is overloaded; a, b and its work.
    Overloaded(u16, u16, u32),
    // 10: a whole entry has no place; the entry's place.
    NoPlace(usize),
    // 11: a plan buffer is under H bytes; H.
    PlanBufferShort(usize),
    // 12: the buffer for a list's one form, a report, a refusal's line, or the lists of a desk's rooms is too short; the bytes needed.
    ListBufferShort(usize),
    // 13: the place asked is n or more; that place.
    UnknownPlace(usize),
    // 14: the window shares a minute with that of an earlier entry of the same serial; the map byte's place, or the entry's for a value.
    SerialClash(usize),
    // 15: the opening minute is H or more, or is written as 0; its place in the bytes, 0 for a value.
    BadOpening(usize),
    // 16: r is before the opening minute; the map byte's place, or the entry's for a value.
    BeforeOpening(usize),
    // 17: a commit's stamp is not the day's; the day's stamp.
    StaleStamp(u16),
    // 18: the day has 64 entries or more, so no room for another; the day's stamp.
    DayFull(u16),
    // 19: a desk has no rooms, or over eight; that number.
    RoomCount(usize),
    // 100, which no document has: a row of numbers for or from another language has too few or too many; how many it should have, and for
    // rooms the largest multiple of three below.
    BadFlatLength(usize),
}
