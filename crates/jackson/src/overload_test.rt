// The overload test of a list.
ghost use Rattle.jackson.specs.Calls.{Tests};

use list::types::{DayList, Refusal};
use windows::{unchecked_overload, unchecked_windows};

// The overload test of a list: the value check, then row 9.
pub fn overload(list: DayList) -> Result<(), Refusal>
    ensures { Tests list result }
{
    list::check(list)?;
    unchecked_overload(unchecked_windows(list))
}
