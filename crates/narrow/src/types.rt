// What narrowing answers.
use list::types::DayList;
use windows::types::WindowSet;

// Narrowed windows, and the moves made.
#[derive(Clone, Copy)]
pub struct NarrowedWindows {
    pub windows: WindowSet,
    pub moves: u32,
}

// A list with its narrowed windows, and the moves made.
#[derive(Clone, Copy)]
pub struct NarrowedList {
    pub list: DayList,
    pub moves: u32,
}
