// Reading a share: from its first byte, bytes after the list are not tested.
ghost use Rattle.std.specs.Prelude.{◌≡◌};
ghost use Rattle.list.specs.Refusals.{outcome_of};
ghost use Rattle.shares.specs.Calls.{ReadsFront};
ghost use Rattle.shares.specs.Internal.{read_end};

use list::types::{DayList, Refusal};

// Where the bytes end that the reader is to be given: at the first byte left over, which row 8 carries, or at the end.
fn read_end(answer: Result<DayList, Refusal>, len: usize) -> usize
    ensures { result ≡ read_end (outcome_of answer) len }
{
    match answer {
        Err(Refusal::BytesLeftOver(at)) => at,
        _ => len,
    }
}

// The list at the front of a share, or why it does not read. There is no second reader: where row 8 tells that bytes are left over, the
// bytes before them are read again.
pub fn read_front(share: &[u8]) -> Result<DayList, Refusal>
    ensures { ReadsFront share.now result }
{
    let end = read_end(format::read(share), share.len());
    format::read(&share[..end])
}
