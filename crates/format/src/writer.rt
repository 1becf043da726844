// Writing a list's one form.
ghost use Rattle.std.specs.Prelude.{◌≡◌, ◌≤◌, length};
ghost use Rattle.std.proofs.lemmas.List.Edits.{sets};
ghost use Rattle.format.specs.Writing.{bytes_of};
ghost use Rattle.format.specs.Calls.{Writes};
ghost use Rattle.list.specs.DayLists.{most_entries};

use crate::form::{list_size, put_entry};
use crate::header::put_header;
use list::check;
use list::types::{DayList, Refusal};

// A list's one form, at the start of the buffer.
fn put_list(list: DayList, out: &mut [u8])
    requires { (list.n ≤ most_entries) × (length (bytes_of list) ≤ length out.old) }
    ensures { out.new ≡ sets out.old 0 (bytes_of list) }
{
    let mut at = put_header(out, list.frame, list.n);
    for e in &list.entries[..usize::from(list.n)] {
        at = put_entry(out, at, list.frame, *e);
    }
}

// The value checks, then 12, else the one form. Answers how many bytes were stored.
pub fn write(list: DayList, out: &mut [u8]) -> Result<usize, Refusal>
    ensures { Writes list out.old result out.new }
{
    check(list)?;
    let size = list_size(list);
    if out.len() < size {
        return Err(Refusal::ListBufferShort(size));
    }
    put_list(list, out);
    Ok(size)
}
