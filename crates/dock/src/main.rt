// The report program: reads a day's list from standard input and prints its report, or the line of its refusal.
// Promises: for every input, `text_of` makes the text that document 01 says, byte for byte, and demands 2 and 3 hold of the numbers that
// stand in it. That the input arrives and the text leaves as they are is the operating system's part.
// Uses `report` and `refusal_line` of the crate report, `numbers_of` of codes, the types of list, of format how long a list's bytes are,
// and io to read and write.
#![tactic(auto)]

ghost use Rattle.std.specs.Prelude.{◌≤◌, length};
ghost use Rattle.list.specs.Refusals.{code_of};
ghost use Rattle.report.specs.Reports.{refusal_line};
ghost use Rattle.report.specs.Calls.{enough, line_enough};
ghost use Rattle.dock.specs.Calls.{InputLimit, HoldsText, Prints};

use list::types::Refusal;
use report::REPORT_BYTES;

// The program's input and output, as the operating system numbers them.
const STDIN: i32 = 0;

const STDOUT: i32 = 1;

// "A longest list has 965 bytes and the program takes 966."
const INPUT_BYTES: usize = 966;

// The line of a refusal in a buffer that has room for every line: its length.
fn line_of(x: Refusal, text: &mut [u8]) -> usize
    requires { line_enough ≤ length text.old }
    ensures { HoldsText text.new result (refusal_line (code_of x)) }
{
    match report::refusal_line(codes::numbers_of(x), text) {
        Ok(size) => size,
        Err(_) => 0,
    }
}

// What is printed when the first `count` bytes of the buffer `input` were read, in a buffer that has room for every text: its length.
// Row 12 cannot hold here.
fn text_of(input: &[u8], count: usize, text: &mut [u8]) -> usize
    requires input_limit { InputLimit (length input.now) }
    requires count_in_bounds { count ≤ length input.now }
    requires enough_in_bounds { enough ≤ length text.old }
    ensures { Prints input.now count text.new result }
{
    match report::report(&input[..count], text) {
        Ok(size) => size,
        Err(x) => line_of(x, text),
    }
}

fn main() {
    let mut input = [0u8; INPUT_BYTES];
    let count = io::read_full(STDIN, &mut input);
    let mut text = [0u8; REPORT_BYTES];
    let size = text_of(&input, count, &mut text);
    io::write_all(STDOUT, &text[..size]);
}
