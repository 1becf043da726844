// A day's list with a stamp, and what the calls on it answer.
use list::types::{DayList, Refusal};
use planner::types::PlannedDay;

// "A day value holds its list and a stamp, the number of successful commits so far (at 65,535, never reached from fresh, it stays)."
#[derive(Clone, Copy)]
pub struct StampedDay {
    pub list: DayList,
    pub stamp: u16,
}

// What asking answers: what planning the longer list answers, and the day's stamp, which a refusal comes with too.
#[derive(Clone, Copy)]
pub struct AskAnswer {
    pub planned: Result<PlannedDay, Refusal>,
    pub stamp: u16,
}

// What committing answers: what planning the longer list answers, the day as it then is, and its stamp.
#[derive(Clone, Copy)]
pub struct CommitAnswer {
    pub planned: Result<PlannedDay, Refusal>,
    pub stamp: u16,
    pub day: StampedDay,
}
