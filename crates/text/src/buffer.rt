// Bytes written one after the other into an array of fixed size, so that no heap is needed. A clause sees what was written, as a list.
// Each function asks for the room that it takes, as no two write as much: a push that could fail would be tested at each byte.
// (The kit's `ArrayVec` is of a crate besides std, of which none is used here, and it can't be copied.)
ghost use Rattle.std.specs.Prelude.{◌≡◌, ◌==◌, ◌+◌, ◌≤◌, ◌<◌, List, [], ◌∷◌, ◌++◌, ℕ, length};
ghost use Rattle.text.specs.Numerals.{decimal as decimal_text, hexadecimal};

use crate::numerals::{put, put_decimal, put_hexadecimal, put_text};
use std::marker::Model;

// Zeros stand behind what was written, so that a list tells the bytes, and a buffer can be copied.
#[derive(Clone, Copy)]
pub struct Buffer<const N: usize> {
    bytes: [u8; N],
    len: usize,
}

impl<const N: usize> Model for Buffer<N> {
    ghost use Rattle.std.specs.Prelude.{List, ℕ, ◌++◌, ◌-◌, length, replicate, take};
    ghost use Rattle.text.specs.Writing.{Held};
    ghost use Rattle.text.specs.Laws.{same_bytes};

    ghost Value = { List ℕ };

    ghost view = { λ b. take b.len b.bytes };

    ghost invariant = { λ b. Held N b.len b.bytes };

    ghost inverse = { λ l. record { bytes = l ++ replicate (N - length l) 0; len = length l } };

    ghost inverse_ok = { λ b h. same_bytes h (λ bytes len. record { bytes = bytes; len = len }) };
}

impl<const N: usize> Buffer<N> {
    pub fn new() -> Self
        ensures { result ≡ [] }
    {
        Buffer {
            bytes: [0; N],
            len: 0,
        }
    }

    // Makes it empty.
    pub fn clear(&mut self)
        ensures { self.new ≡ [] }
    {
        self.bytes[..self.len].fill(0);
        self.len = 0;
    }

    pub fn len(&self) -> usize
        ensures value { result ≡ length self.now }
        ensures fits { result ≤ N }
    {
        self.len
    }

    pub fn is_empty(&self) -> bool
        ensures { result ≡ (length self.now == 0) }
    {
        self.len == 0
    }

    // What was written.
    pub fn as_slice(&self) -> &[u8]
        ensures value { result.now ≡ self.now }
        ensures fits { length result.now ≤ N }
    {
        &self.bytes[..self.len]
    }

    pub fn push(&mut self, b: u8)
        requires { length self.old < N }
        ensures bytes { self.new ≡ self.old ++ b ∷ [] }
        ensures len { length self.new ≡ length self.old + 1 }
    {
        self.len = put(&mut self.bytes, self.len, b);
    }

    pub fn extend_from_slice(&mut self, part: &[u8])
        requires { length self.old + length part.now ≤ N }
        ensures bytes { self.new ≡ self.old ++ part.now }
        ensures len { length self.new ≡ length self.old + length part.now }
    {
        self.len = put_text(&mut self.bytes, self.len, part);
    }

    // A space and k hexadecimal digits.
    pub fn put_hexadecimal(&mut self, k: usize, n: u64)
        requires { length self.old + k + 1 ≤ N }
        ensures text { self.new ≡ self.old ++ hexadecimal k n }
        ensures len { length self.new ≡ length self.old + k + 1 }
    {
        self.len = put_hexadecimal(&mut self.bytes, self.len, k, n);
    }

    // n in decimal.
    pub fn put_decimal(&mut self, n: u64)
        requires { length self.old + 20 ≤ N }
        ensures text { self.new ≡ self.old ++ decimal_text n }
        ensures upper_bound { length self.new ≤ length self.old + 20 }
    {
        self.len = put_decimal(&mut self.bytes, self.len, n);
    }
}
