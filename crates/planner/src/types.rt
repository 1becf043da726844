// What the calls that narrow answer.
use list::types::ENTRIES;
use narrow::types::NarrowedList;

// A planned day: the narrowed list with its moves, the number of whole entries that the plan breaks, and of each place its least end and
// greatest start. Places from n on are 0.
#[derive(Clone, Copy)]
pub struct PlannedDay {
    pub narrowed: NarrowedList,
    pub broken: u8,
    pub ends: [u16; ENTRIES],
    pub starts: [u16; ENTRIES],
}

// A shown plan: the narrowed list with its moves, and the place's least end or greatest start.
#[derive(Clone, Copy)]
pub struct ShownPlan {
    pub narrowed: NarrowedList,
    pub bound: u16,
}
