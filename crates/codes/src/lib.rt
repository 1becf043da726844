// Refusals as numbers, for printing and for callers in other languages.
// Promises: `numbers_of` gives every refusal its number, that of the documents where they have one, and the values that it carries, by
// equality with the definition of specs/. Uses the crates base and list.
#![tactic(auto)]

ghost use Rattle.std.specs.Prelude.{◌≡◌, [], ◌∷◌};
ghost use Rattle.base.specs.Outcomes.{code};
ghost use Rattle.list.specs.Refusals.{code_of};
ghost use Rattle.codes.specs.Codes.{numbers_of};

use list::types::Refusal;

// A refusal as numbers: its number, and three values: those that it carries, 0 where there are fewer.
// Numbers, not a Refusal: callers in other languages hand in any number and values, for its line.
#[derive(Clone, Copy)]
pub struct RefusalCode {
    pub number: u64,
    pub values: [u64; 3],
}

// A refusal that carries one value.
fn with_one(number: u64, value: usize) -> RefusalCode
    ensures { result ≡ numbers_of (code number (value ∷ [])) }
{
    RefusalCode {
        number,
        // The library has no From of a usize.
        values: [value as u64, 0, 0],
    }
}

// Row 9, which carries an interval's ends and its work.
fn with_interval(a: u16, b: u16, work: u32) -> RefusalCode
    ensures { result ≡ numbers_of (code 9 (a ∷ b ∷ work ∷ [])) }
{
    RefusalCode {
        number: 9,
        values: [u64::from(a), u64::from(b), u64::from(work)],
    }
}

// The one place in code that goes through all refusals, as `code_of` does among the definitions.
pub fn numbers_of(x: Refusal) -> RefusalCode
    ensures { result ≡ numbers_of (code_of x) }
{
    match x {
        Refusal::BytesMissing(len) => with_one(1, len),
        Refusal::BadDayLength => with_one(2, 0),
        Refusal::TooManyEntries(at) => with_one(3, at),
        Refusal::BadMapByte(at) => with_one(4, at),
        Refusal::DefaultWritten(at) => with_one(5, at),
        Refusal::NoMinutes(at) => with_one(6, at),
        Refusal::BadWindow(at) => with_one(7, at),
        Refusal::BytesLeftOver(at) => with_one(8, at),
        Refusal::Overloaded(a, b, work) => with_interval(a, b, work),
        Refusal::NoPlace(place) => with_one(10, place),
        Refusal::PlanBufferShort(h) => with_one(11, h),
        Refusal::ListBufferShort(needed) => with_one(12, needed),
        Refusal::UnknownPlace(place) => with_one(13, place),
        Refusal::SerialClash(at) => with_one(14, at),
        Refusal::BadOpening(at) => with_one(15, at),
        Refusal::BeforeOpening(at) => with_one(16, at),
        Refusal::StaleStamp(stamp) => with_one(17, usize::from(stamp)),
        Refusal::DayFull(stamp) => with_one(18, usize::from(stamp)),
        Refusal::RoomCount(rooms) => with_one(19, rooms),
        Refusal::BadFlatLength(numbers) => with_one(100, numbers),
    }
}
