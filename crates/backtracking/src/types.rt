// What a search for an unbroken day answers.
use windows::types::WindowSet;

// How it ended: nothing was searched; a day was found, in windows that have a plan; none exists; or all trials were made and another is
// needed.
#[derive(Clone, Copy, Debug, PartialEq, Eq)]
pub enum Ending {
    Unsearched,
    DayFound,
    NoneExists,
    TrialsSpent,
}

// The ending, the windows with the starts fixed where a day was found and else those given, and the trials made.
#[derive(Clone, Copy)]
pub struct SearchAnswer {
    pub ending: Ending,
    pub windows: WindowSet,
    pub trials: u32,
}
