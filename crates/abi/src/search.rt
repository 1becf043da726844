// Looking for an unbroken day of a list.
ghost use Rattle.std.specs.Prelude.{◌≡◌, cond, length};
ghost use Rattle.backtracking.specs.Calls.{is_found};
ghost use Rattle.flat.specs.Flat.{flat_numbers};
ghost use Rattle.abi.specs.SearchCalls.{UnbrokenCall};
ghost use Rattle.abi.specs.Internal.{GivesSearch};

use crate::{Answer, give_narrowed};
use backtracking::{ending_number, is_found};
use flat::{list_beside, place_numbers};
use list::types::{ENTRIES, Refusal};
use unbroken::types::UnbrokenSearch;
use unbroken::unbroken_day;

// What a search answered: the values are the moves, how it ended and the trials made, `narrowed` is the list, and `starts` are those of a
// day that was found; else they keep their values. Refused, both keep them.
fn give_search(
    answer: Result<UnbrokenSearch, Refusal>,
    narrowed: &mut [u32],
    starts: &mut [u32; ENTRIES],
) -> Answer
    requires { length narrowed.old ≡ flat_numbers }
    ensures { GivesSearch answer narrowed.old starts.old result narrowed.new starts.new }
{
    match answer {
        Ok(search) => {
            if is_found(search.ending) {
                *starts = place_numbers(search.starts);
            }
            let ending = ending_number(search.ending);
            give_narrowed(search.narrowed, ending, u64::from(search.trials), narrowed)
        }
        Err(x) => Answer::from(x),
    }
}

// Looks for an unbroken day of the list value that `fields` says, in at most `limit` trials. Accepted: the values are the moves, how the
// search ended (1 found, 2 none exists, 3 all trials spent) and the trials made, and `narrowed` is the settled list. Found: `plan` begins
// with the plan and `starts` are those of the whole entries, 0 for the others; else both keep their values. Refused: each keeps its values.
pub fn dock_unbroken(
    fields: &[u32],
    limit: u32,
    plan: &mut [u8],
    narrowed: &mut [u32],
    starts: &mut [u32; ENTRIES],
) -> Answer
    ensures { UnbrokenCall fields.now limit plan.old narrowed.old starts.old result
        plan.new narrowed.new starts.new }
{
    match list_beside(fields, narrowed.len()) {
        Ok(list) => give_search(unbroken_day(list, limit, plan), narrowed, starts),
        Err(x) => Answer::from(x),
    }
}
