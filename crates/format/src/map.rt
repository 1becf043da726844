// The map byte, which alone decides which fields follow and how long they are.
ghost use Rattle.std.specs.Prelude.{◌≡◌, cond, ◌+◌, ◌<◌, ◌^◌};
ghost use Rattle.list.specs.Refusals.{outcome_of};
ghost use Rattle.format.specs.Maps.{kind_of, bit, map_fields, map_of, r_place, d_place, p_place, size_of};

use list::types::{Kind, Refusal};

// What a map byte says: which of the fields that may be missing follow, and the kind.
#[derive(Clone, Copy)]
pub struct Fields {
    pub seal: bool,
    pub r: bool,
    pub d: bool,
    pub kind: Kind,
}

// Bit k of a byte.
pub(crate) fn bit(k: u32, byte: u8) -> bool
    requires { k < 8 }
    ensures { result ≡ bit k byte }
{
    byte >> k & 1 == 1
}

// The fields that follow a legal map byte, the first of a pair a pause and the second whole; or row 4, which carries the place given.
pub(crate) fn map_fields(at: usize, map: u8) -> Result<Fields, Refusal>
    ensures { outcome_of result ≡ map_fields at map }
{
    match map {
        0..=16 | 32..=48 | 64..=255 => Err(Refusal::BadMapByte(at)),
        17 | 49 => Ok(follow(map, false, false, false)),
        19 | 51 => Ok(follow(map, true, false, false)),
        21 | 53 => Ok(follow(map, false, true, false)),
        23 | 55 => Ok(follow(map, true, true, false)),
        25 | 57 => Ok(follow(map, false, false, true)),
        27 | 59 => Ok(follow(map, true, false, true)),
        29 | 61 => Ok(follow(map, false, true, true)),
        31 | 63 => Ok(follow(map, true, true, true)),
        _ => Err(Refusal::BadMapByte(at)),
    }
}

// The fields given, and the kind that the map byte says.
fn follow(map: u8, seal: bool, r: bool, d: bool) -> Fields
    ensures { result ≡ record { seal = seal; r = r; d = d; kind = kind_of (bit 5 map) } }
{
    let kind = if bit(5, map) {
        Kind::Whole
    } else {
        Kind::Pause
    };
    Fields { seal, r, d, kind }
}

// x, with y added where a field follows.
// By name, since three places and a size add so.
fn plus_if(x: usize, follows: bool, y: usize) -> usize
    requires { x + y < 2 ^ 64 }
    ensures { result ≡ x + cond follows y 0 }
{
    if follows { x + y } else { x }
}

// The map byte that says these fields.
pub(crate) fn map_of(m: Fields) -> u8
    ensures { result ≡ map_of m }
{
    let whole = matches!(m.kind, Kind::Whole);
    17 + 2 * u8::from(m.seal) + 4 * u8::from(m.r) + 8 * u8::from(m.d) + 32 * u8::from(whole)
}

// Where r starts in an entry, counted from its map byte; the serial is at 1, the seal at 5.
pub(crate) fn r_place(m: Fields) -> usize
    ensures { result ≡ r_place m }
{
    plus_if(5, m.seal, 4)
}

pub(crate) fn d_place(m: Fields) -> usize
    ensures { result ≡ d_place m }
{
    plus_if(r_place(m), m.r, 2)
}

pub(crate) fn p_place(m: Fields) -> usize
    ensures { result ≡ p_place m }
{
    plus_if(d_place(m), m.d, 2)
}

// The bytes of an entry with these fields, its map byte too.
pub(crate) fn size_of(m: Fields) -> usize
    ensures { result ≡ size_of m }
{
    p_place(m) + 2
}
