// Bytes put one after another, in a room of their own: text that is to be written, or a line that is read.
ghost use Rattle.std.specs.Prelude.{◌≡◌, ℕ, ◌+◌, ◌<◌, ◌≤◌, List, [], ◌∷◌, ◌++◌, length, take, replicate};
ghost use Rattle.lines.specs.Text.{decimal_text};

use crate::decimals::write_digits;
use std::marker::Model;

#[derive(Drop)]
pub struct Page<const N: usize> {
    room: [u8; N],
    used: usize,
}

// Clauses see the bytes put so far.
impl<const N: usize> Model for Page<N> {
    ghost Value = { List ℕ };

    ghost view = { λ p. take p.used p.room };

    ghost invariant = { λ p. p.used ≤ N };
}

impl<const N: usize> Page<N> {
    pub fn new() -> Self
        ensures { result ≡ [] }
    {
        Page {
            room: [0; N],
            used: 0,
        }
    }

    pub fn bytes(&self) -> &[u8]
        ensures { result.now ≡ self.now }
    {
        &self.room[..self.used]
    }

    pub fn len(&self) -> usize
        ensures { result ≡ length self.now }
    {
        self.used
    }

    // How many more bytes there is room for.
    pub fn left(&self) -> usize
        ensures { length self.now + result ≡ N }
    {
        N - self.used
    }

    pub fn push(&mut self, b: u8)
        requires { length self.old < N }
        ensures { self.new ≡ self.old ++ (b ∷ []) }
    {
        self.room[self.used] = b;
        self.used += 1;
    }

    pub fn put(&mut self, bytes: &[u8])
        requires { length self.old + length bytes.now ≤ N }
        ensures { self.new ≡ self.old ++ bytes.now }
    {
        let end = self.used + bytes.len();
        let room = &mut self.room[..];
        room[self.used..end].copy_from_slice(bytes);
        self.used = end;
    }

    // The digits of a number.
    pub fn put_digits(&mut self, n: usize)
        requires { length self.old + length (decimal_text n) ≤ N }
        ensures { self.new ≡ self.old ++ decimal_text n }
    {
        let room = &mut self.room[..];
        let count = write_digits(&mut room[self.used..], n);
        self.used += count;
    }

    // Bytes as far as there is room for them; the others are dropped.
    pub fn keep(&mut self, bytes: &[u8])
        ensures { self.new ≡ take N (self.old ++ bytes.now) }
    {
        let fits = bytes.len().min(self.left());
        self.put(&bytes[..fits]);
    }

    pub fn put_spaces(&mut self, count: usize)
        requires { length self.old + count ≤ N }
        ensures { self.new ≡ self.old ++ replicate count 32 }
    {
        let end = self.used + count;
        let room = &mut self.room[..];
        room[self.used..end].fill(b' ');
        self.used = end;
    }

    pub fn clear(&mut self)
        ensures { self.new ≡ [] }
    {
        self.used = 0;
    }
}
