// The values that a day is planned by.
use windows::types::WindowSet;

// A day in planning: its minute t, the entry that had the minute before, 255 for none, and the windows, where p is the minutes left.
// 255 is no Option: it is the byte that a plan has for an idle minute, here and below.
#[derive(Clone, Copy)]
pub struct Day {
    pub windows: WindowSet,
    pub t: u16,
    pub last: u8,
}

// What a minute gives: the place that has it, 255 for none, and the advanced day.
#[derive(Clone, Copy)]
pub struct Minute {
    pub place: u8,
    pub day: Day,
}

// What a stretch of minutes gives: the place that has them, 255 for none, how many they are, and the day after them.
#[derive(Clone, Copy)]
pub struct Stretch {
    pub place: u8,
    pub minutes: u16,
    pub day: Day,
}
