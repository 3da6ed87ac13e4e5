ghost use Rattle.std.specs.Prelude.{◌≡◌, ◌≤◌, [], ◌++◌, OnOk, OnErr, length, drop};

use std::alloc::{AllocError, Global};
use std::marker::Model;

/// Bytes that come at the back and go from the front. Contracts see the list of those that are there.
#[derive(Drop)]
pub struct Buffer {
    start: usize,
    items: Vec<u8>,
}

impl Model for Buffer {
    ghost use Rattle.std.specs.Prelude.{List, ℕ, ◌≤◌, length, drop};

    ghost Value = { List ℕ };

    ghost view = { λ b. drop b.start b.items.items };

    ghost invariant = { λ b. b.start ≤ length b.items.items };
}

impl Buffer {
    /// No bytes.
    pub fn new(alloc: Global) -> Buffer
        ensures { result ≡ [] }
    {
        Buffer {
            start: 0,
            items: Vec::new(alloc),
        }
    }

    /// The bytes as a slice.
    pub fn as_slice(&self) -> &[u8]
        ensures { result.now ≡ self.now }
    {
        let (_, rest) = self.items.as_slice().split_at(self.start);
        rest
    }

    /// How many there are.
    pub fn len(&self) -> usize
        ensures { result ≡ length self.now }
    {
        self.items.len() - self.start
    }

    /// The first bytes go.
    pub fn skip(&mut self, count: usize)
        requires { count ≤ length self.old }
        ensures { self.new ≡ drop count self.old }
    {
        self.start += count;
    }

    /// All bytes go, and their memory is given back.
    pub fn clear(&mut self)
        ensures { self.new ≡ [] }
    {
        let alloc = *self.items.allocator();
        self.start = 0;
        self.items = Vec::new(alloc);
    }

    // The room of the bytes that are gone is used again, once they are as many as those that are there: so each byte that is moved
    // stands for one that went.
    fn compact(&mut self)
        ensures { self.new ≡ self.old }
    {
        if self.start > 0 && self.start >= self.items.len() - self.start {
            self.items.drain(..self.start);
            self.start = 0;
        }
    }

    /// A piece comes behind the bytes.
    pub fn append(&mut self, piece: &[u8]) -> Result<(), AllocError>
        ensures ok { OnOk result (self.new ≡ self.old ++ piece.now) }
        ensures err { OnErr result (self.new ≡ self.old) }
    {
        self.compact();
        self.items.extend_from_slice(piece)
    }
}
