// A short text in memory of its own: no more bytes than a type says, and no heap.
#![tactic(auto)]

ghost use Rattle.std.specs.Prelude.{◌≡◌, ◌-◌, ◌≤◌, ℕ, List, [], ◌∷◌, ◌++◌, length, take, drop, replicate};

use std::marker::Model;

// A text of at most N bytes.
#[derive(Drop)]
pub struct FixedText<const N: usize> {
    bytes: [u8; N],
    len: usize,
}

// Contracts see the text. Behind it there is only 0.
impl<const N: usize> Model for FixedText<N> {
    ghost Value = { List ℕ };

    ghost view = { λ t. take t.len t.bytes };

    ghost invariant = { λ t. (t.len ≤ N) × (drop t.len t.bytes ≡ replicate (N - t.len) 0) };
}

impl<const N: usize> FixedText<N> {
    // The empty text.
    pub fn new() -> Self
        ensures { result ≡ [] }
    {
        FixedText {
            bytes: [0; N],
            len: 0,
        }
    }

    // Adds a byte at the end, if there is room.
    pub fn push(&mut self, byte: u8)
        ensures { self.new ≡ take N (self.old ++ byte ∷ []) }
    {
        if self.len < N {
            self.bytes[self.len] = byte;
            self.len += 1;
        }
    }

    // Adds bytes at the end, as far as there is room.
    pub fn extend_from_slice(&mut self, more: &[u8])
        ensures { self.new ≡ take N (self.old ++ more.now) }
    {
        if self.len == N {
            return;
        }
        for byte in more {
            self.push(*byte);
        }
    }

    // The text.
    pub fn as_slice(&self) -> &[u8]
        ensures text { result.now ≡ self.now }
        ensures within { length result.now ≤ N }
    {
        &self.bytes[..self.len]
    }

    // The text, then only 0.
    pub fn bytes(&self) -> [u8; N]
        ensures text { result ≡ self.now ++ replicate (N - length self.now) 0 }
        ensures within { length self.now ≤ N }
    {
        self.bytes
    }
}
