// What is asked of windows, and what is answered.
use list::types::ENTRIES;

// Which of a place's two plans is shown.
#[derive(Clone, Copy, Debug, PartialEq, Eq)]
pub enum Shown {
    Early,
    Late,
}

// Of each place its least end and greatest start. Places from n on, and all of windows without room, are 0.
// Two arrays: each is made alone, and the mirror makes one of the other.
#[derive(Clone, Copy)]
pub struct Bounds {
    pub ends: [u16; ENTRIES],
    pub starts: [u16; ENTRIES],
}
