// Two-byte and four-byte fields, lowest byte first, in slices.
ghost use Rattle.std.specs.Prelude.{◌≡◌, ◌+◌, ◌<◌, ◌≤◌, length};
ghost use Rattle.format.specs.LittleEndian.{u16_at, u32_at, u16_bytes, u32_bytes};
ghost use Rattle.base.specs.Storing.{Wrote};

// Two functions for two sizes, here and below: no trait of the library has from_le_bytes.
pub(crate) fn u16_at(s: &[u8], i: usize) -> u16
    requires { i + 1 < length s.now }
    ensures { result ≡ u16_at s.now i }
{
    u16::from_le_bytes([s[i], s[i + 1]])
}

pub(crate) fn u32_at(s: &[u8], i: usize) -> u32
    requires { i + 3 < length s.now }
    ensures { result ≡ u32_at s.now i }
{
    u32::from_le_bytes([s[i], s[i + 1], s[i + 2], s[i + 3]])
}

// Each `put` writes at place `at` and answers the place after what it wrote. The buffer is the caller's, and each promise
// speaks of all of it; so the place stands beside it.
pub(crate) fn put_u16(out: &mut [u8], at: usize, x: u16) -> usize
    requires { at + 2 ≤ length out.old }
    ensures { Wrote out.old at (u16_bytes x) out.new result }
{
    out[at..at + 2].copy_from_slice(&x.to_le_bytes());
    at + 2
}

pub(crate) fn put_u32(out: &mut [u8], at: usize, x: u32) -> usize
    requires { at + 4 ≤ length out.old }
    ensures { Wrote out.old at (u32_bytes x) out.new result }
{
    out[at..at + 4].copy_from_slice(&x.to_le_bytes());
    at + 4
}
