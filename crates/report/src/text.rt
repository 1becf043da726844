// A text that is made in a buffer of its own. Each method puts its text after what stands there, if there is room for all of it; past
// the buffer's end it stores nothing.
ghost use Rattle.std.specs.Prelude.{ℕ, List, [], ◌∷◌, ◌++◌, ◌≡◌};
ghost use Rattle.report.specs.Text.{decimal};
ghost use Rattle.report.specs.Internal.{Puts};

use std::marker::Model;

#[derive(Drop)]
pub(crate) struct Text<const N: usize> {
    bytes: [u8; N],
    size: usize,
}

// Contracts see the bytes that were put.
impl<const N: usize> Model for Text<N> {
    ghost use Rattle.std.specs.Prelude.{ℕ, List, ◌≤◌, take};

    ghost Value = { List ℕ };

    ghost view = { λ t. take t.size t.bytes };

    ghost invariant = { λ t. t.size ≤ N };
}

impl<const N: usize> Text<N> {
    pub(crate) fn new() -> Self
        ensures { result ≡ [] }
    {
        Text {
            bytes: [0; N],
            size: 0,
        }
    }

    pub(crate) fn as_bytes(&self) -> &[u8]
        ensures { result.now ≡ self.now }
    {
        &self.bytes[..self.size]
    }

    fn put_byte(&mut self, x: u8)
        ensures { Puts N self.old (x ∷ []) self.new }
    {
        if self.size < N {
            self.bytes[self.size] = x;
            self.size += 1;
        }
    }

    pub(crate) fn put_bytes(&mut self, bytes: &[u8])
        ensures { Puts N self.old bytes.now self.new }
    {
        for x in bytes {
            self.put_byte(*x);
        }
    }

    // Not Display: what is put is promised byte by byte, and a writer of Display may always fail.
    // A number in base ten.
    pub(crate) fn put_decimal(&mut self, x: u64)
        ensures { Puts N self.old (decimal x) self.new }
    {
        if x >= 10 {
            self.put_decimal(x / 10);
        }
        // A digit, so that it fits.
        self.put_byte(b'0' + (x % 10) as u8);
    }

    // A number after a text.
    pub(crate) fn put_after(&mut self, bytes: &[u8], x: u64)
        ensures { Puts N self.old (bytes.now ++ decimal x) self.new }
    {
        self.put_bytes(bytes);
        self.put_decimal(x);
    }
}
