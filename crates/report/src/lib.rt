// The report: from a day's bytes to its text, and from a refusal to its line.
// Promises: `report` stores the text of the day, as specs/Reports.antt defines it, at the start of a buffer that has room for it; a list
// that is turned back is refused by number and values, and a shorter buffer as 12 with the bytes needed. `refusal_line` stores the line
// that the program prints for a refusal, whatever its number and values, or refuses a shorter buffer likewise. A refusal leaves the buffer
// as it was. REPORT_BYTES are enough for every text, and REFUSAL_BYTES for every line.
// The top theorem, demands 2 and 3 of the numbers printed, is `report_law` of proofs/ReportLaws.antt.
// Uses `read` of the crate format, the types of list, `plan_day` of planner and the type `RefusalCode` of codes; definitions and laws of
// base, windows, jackson, narrow and bounds.
#![tactic(auto)]

mod day;
mod lines;
mod runs;
mod text;

ghost use Rattle.base.specs.Outcomes.{answered};
ghost use Rattle.report.specs.Calls.{StoresText, Reports, StoresLine};

use codes::RefusalCode;
use list::types::Refusal;
use text::Text;

// Room for the text of every day.
pub const REPORT_BYTES: usize = 22352;

// Room for every refusal's line.
pub const REFUSAL_BYTES: usize = 86;

// A text at the start of a buffer, or row 12.
fn store(text: &[u8], out: &mut [u8]) -> Result<usize, Refusal>
    ensures { StoresText (answered text.now) out.old result out.new }
{
    let size = text.len();
    if out.len() < size {
        return Err(Refusal::ListBufferShort(size));
    }
    out[..size].copy_from_slice(text);
    Ok(size)
}

// The text of an input's day. It is made in a buffer of this call's own first, so that a refusal leaves the lent one as it was.
pub fn report(input: &[u8], out: &mut [u8]) -> Result<usize, Refusal>
    ensures { Reports input.now out.old result out.new }
{
    let mut text = Text::<REPORT_BYTES>::new();
    text.put_report(input)?;
    store(text.as_bytes(), out)
}

// The line of a refusal, made in a buffer of this call's own first.
pub fn refusal_line(code: RefusalCode, out: &mut [u8]) -> Result<usize, Refusal>
    ensures { StoresLine code out.old result out.new }
{
    let mut line = Text::<REFUSAL_BYTES>::new();
    line.put_refusal(code);
    store(line.as_bytes(), out)
}
