// The windows of a day's entries.
use list::types::ENTRIES;

// A set of windows, by place: the window [r, d) of each of the first n entries of a day of h minutes, and its p minutes of work.
// Arrays by side, since each is used alone: the order reads r, right ends are d, the mirror exchanges the two, a day counts p down.
// The count stands beside them: no heap, and n may be over 64, as in a list.
#[derive(Clone, Copy)]
pub struct WindowSet {
    pub h: u16,
    pub n: u8,
    pub r: [u16; ENTRIES],
    pub d: [u16; ENTRIES],
    pub p: [u16; ENTRIES],
}
