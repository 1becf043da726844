// Minutes by place, as numbers of 32 bits: those of one array, and least ends and greatest starts one after the other.
ghost use Rattle.std.specs.Prelude.{◌≡◌, ◌++◌, replicate};
ghost use Rattle.flat.specs.Flat.{bound_numbers};

use crate::BOUNDS;
use list::types::ENTRIES;

// Zeros, as a function of their own: the proof of `joined` needs a name for them.
fn zero_bounds() -> [u32; BOUNDS]
    ensures { result ≡ replicate bound_numbers 0 }
{
    [0; BOUNDS]
}

// The numbers of the 64 places.
pub fn place_numbers(xs: [u16; ENTRIES]) -> [u32; ENTRIES]
    ensures { result ≡ xs }
{
    xs.map(u32::from)
}

// The numbers of the 64 places, the ends before the starts.
pub fn joined(ends: [u16; ENTRIES], starts: [u16; ENTRIES]) -> [u32; BOUNDS]
    ensures { result ≡ ends ++ starts }
{
    let mut bounds = zero_bounds();
    bounds[..ENTRIES].copy_from_slice(&place_numbers(ends));
    bounds[ENTRIES..].copy_from_slice(&place_numbers(starts));
    bounds
}
