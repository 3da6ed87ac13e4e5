ghost use Rattle.std.specs.Prelude.{◌≡◌, ◌<◌, ◌+◌, ◌^◌, Some, true, false, [], Ok, IsErr, length, map, take, drop};
ghost use Rattle.ziti_outside.specs.Told.{Takes};
ghost use Rattle.ziti_outside.specs.Causes.{HasCause};
ghost use Rattle.desk_base.specs.Pieces.{SourceView, GivesPiece, TakesPiece, joined, from_first, first, without};

use crate::answers::counted;
use crate::failing_calls::is_next_listed;
use std::marker::Model;
use ziti_outside::{Failed, Source};

/// Input bytes in pieces, one for each call, and the calls that fail, counted from 0. Contracts see what is left (`SourceView`).
///
/// A call gives of the next piece as much as its buffer holds; what is left of the piece comes next, and a piece without a byte
/// is skipped.
#[derive(Drop)]
pub struct MemSource {
    pieces: Vec<Vec<u8>>,
    next: usize,
    at: usize,
    calls: u64,
    failing: Vec<u32>,
    faults: u64,
}

impl Model for MemSource {
    ghost Value = { SourceView };

    ghost view = { λ s. record { pieces = without s.at (drop s.next (map (λ v. v.items) s.pieces.items)); failing = s.failing.items; calls = s.calls; faults = s.faults } };
}

impl MemSource {
    /// The source of these pieces, which fails at the listed calls.
    pub fn new(pieces: Vec<Vec<u8>>, failing: Vec<u32>) -> MemSource
        ensures { result ≡ record { pieces = map (λ v. v.items) pieces.items; failing = failing.items; calls = 0; faults = 0 } }
    {
        MemSource {
            pieces,
            next: 0,
            at: 0,
            calls: 0,
            failing,
            faults: 0,
        }
    }
}

// The place of the next byte: the piece, and the place in it.
fn next_byte(pieces: &[Vec<u8>], next: usize, at: usize) -> (usize, usize)
    ensures { without result.1 (drop result.0 (map (λ v. v.items) pieces.now)) ≡ from_first (without at (drop next (map (λ v. v.items) pieces.now))) }
{
    let mut next = next;
    let mut at = at;
    'empty: while next < pieces.len() && pieces[next].len() <= at {
        next += 1;
        at = 0;
    }
    (next, at)
}

// What is left of a piece behind a place in it. No bytes are left where there is no piece.
fn rest_of(pieces: &[Vec<u8>], next: usize, at: usize) -> &[u8]
    ensures bytes { result.now ≡ first (without at (drop next (map (λ v. v.items) pieces.now))) }
    ensures fits { at + length result.now < 2 ^ 64 }
{
    if next >= pieces.len() {
        return b"";
    }
    let piece = pieces[next].as_slice();
    let (_, rest) = piece.split_at(at.min(piece.len()));
    rest
}

// Gives the front of the bytes, as much as the buffer holds, and answers how many they are.
fn give(bytes: &[u8], buf: &mut [u8]) -> usize
    ensures count { result ≡ length (take (length buf.old) bytes.now) }
    ensures bytes { take result buf.new ≡ take (length buf.old) bytes.now }
    ensures within { length buf.new ≡ length buf.old }
{
    let count = bytes.len().min(buf.len());
    let (front, _) = bytes.split_at(count);
    let (place, _) = buf.split_at_mut(count);
    place.copy_from_slice(front);
    count
}

// Gives of the next piece that has a byte, or fails.
fn take_piece(
    pieces: &[Vec<u8>],
    next: &mut usize,
    at: &mut usize,
    buf: &mut [u8],
    fails: bool,
) -> Result<usize, Failed>
    ensures piece { GivesPiece fails (without at.old (drop next.old (map (λ v. v.items) pieces.now))) (without at.new (drop next.new (map (λ v. v.items) pieces.now))) result buf.new }
    ensures within { length buf.new ≡ length buf.old }
{
    if fails {
        return Err(Failed);
    }
    (*next, *at) = next_byte(pieces, *next, *at);
    let count = give(rest_of(pieces, *next, *at), buf);
    *at += count;
    Ok(count)
}

impl Source for MemSource {
    ghost use Rattle.std.specs.Prelude.{Some};
    ghost use Rattle.desk_base.specs.Pieces.{joined};

    ghost left = { λ s. Some (joined s.pieces) };

    ghost faults = { λ s. s.faults };

    fn take(&mut self, buf: &mut [u8]) -> Result<usize, Failed>
        requires { 0 < length buf.old }
        ensures bytes { Takes (Some (joined self.old.pieces)) (Some (joined self.new.pieces)) result buf.new }
        ensures cause { HasCause self.old.faults self.new.faults result }
        ensures piece { TakesPiece self.old self.new result buf.new }
    {
        let fails = is_next_listed(&mut self.calls, &self.failing);
        let answer = take_piece(&self.pieces, &mut self.next, &mut self.at, buf, fails);
        counted(&mut self.faults, answer)
    }
}
