// What looking for an unbroken day answers.
use backtracking::types::Ending;
use list::types::ENTRIES;
use narrow::types::NarrowedList;

// A search for an unbroken day: the narrowed list with its moves, how the search in its settled windows ended, the trials made, and where a
// day was found the start of each whole entry. Starts of other places and of other endings are 0.
#[derive(Clone, Copy)]
pub struct UnbrokenSearch {
    pub narrowed: NarrowedList,
    pub ending: Ending,
    pub trials: u32,
    pub starts: [u16; ENTRIES],
}
