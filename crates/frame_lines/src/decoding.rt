ghost use Rattle.std.specs.Prelude.{◌≡◌, ◌+◌, ◌++◌, ◌≤◌, [], List, ℕ, IfOk, OnOk, OnErr, None, Some, drop, length};
ghost use Rattle.frame_lines.specs.TextTelling.{text_of, fault_of, text_told, fault_told};
ghost use Rattle.frame_lines.specs.TellingSoFar.{Follows, end_fault};
ghost use Rattle.frame_lines.specs.FrameTurns.{TurnsOn};

use crate::frames::Frames;
use crate::kinds::{LineKind, Turn};
use crate::told::{DecodeCause, DecodeFault};
use ctrl_model::Bytes;
use std::alloc::{AllocError, Global};
use std::marker::PhantomData;

/// The lines of the items of some bytes, each with its newline, and what ended them early. Then the lines are those of the items before
/// it.
#[derive(Drop)]
pub struct Decoded {
    pub text: Bytes,
    pub fault: Option<DecodeFault>,
}

/// What a turn over some bytes told: the lines of their whole items, how many bytes these have, the number and the place of the item that
/// comes next, and what ended the telling, if something did.
#[derive(Drop)]
pub struct Turned {
    lines: Bytes,
    used: usize,
    number: u64,
    at: u64,
    fault: Option<DecodeFault>,
}

/// Items of a kind whose bytes come in pieces, told as lines: each line comes with the piece with which its item is whole.
#[derive(Drop)]
pub struct LineTelling<K> {
    kind: PhantomData<K>,
    // The bytes that are no whole item as yet.
    held: Vec<u8>,
    // The number and the place of the item that comes next.
    number: u64,
    at: u64,
    // What ended the telling.
    fault: Option<DecodeFault>,
}

// The sum of two counts. One that has no room is in want of memory.
fn counted_on(count: u64, more: u64) -> Result<u64, AllocError>
    ensures { IfOk result (λ sum. sum ≡ count + more) }
{
    match count.checked_add(more) {
        Some(sum) => Ok(sum),
        None => Err(AllocError),
    }
}

// The place behind some bytes more, which are there.
fn past(used: usize, more: u64, bytes: &[u8]) -> usize
    requires { used + more ≤ length bytes.now }
    ensures { result ≡ used + more }
{
    let _len = bytes.len();
    used + more as usize
}

// The fault of an item of this number that is cut off at a place, where any of it is there.
fn unfinished(frame: u64, rest: &[u8], at: u64) -> Option<DecodeFault>
    ensures { result ≡ end_fault None rest.now at frame }
{
    if rest.is_empty() {
        return None;
    }
    Some(DecodeFault {
        frame,
        cause: DecodeCause::Unfinished(at),
    })
}

// The fault at the end of all bytes.
fn end_fault(fault: Option<DecodeFault>, rest: &[u8], at: u64, number: u64) -> Option<DecodeFault>
    ensures { result ≡ end_fault fault rest.now at number }
{
    match fault {
        Some(fault) => Some(fault),
        None => unfinished(number, rest, at),
    }
}

// The turn that was ended by a fault of the item that comes next.
fn ended(out: Vec<u8>, used: usize, number: u64, at: u64, cause: DecodeCause) -> Turned
    ensures { result ≡ record { lines = out.items; used = used; number = number; at = at; fault = Some (record { frame = number; cause = cause }) } }
{
    Turned {
        lines: Bytes::of(out),
        used,
        number,
        at,
        fault: Some(DecodeFault {
            frame: number,
            cause,
        }),
    }
}

// Tells the whole items at the front of some bytes, whose first one has this number and stands at this place, up to one that no line tells.
fn tell_whole<K: LineKind>(
    alloc: Global,
    number: u64,
    at: u64,
    bytes: &[u8],
) -> Result<Turned, AllocError>
    ensures turns { IfOk result (λ t. TurnsOn K.reading number at bytes.now t) }
    ensures within { IfOk result (λ t. t.used ≤ length bytes.now) }
{
    K::in_order();
    let mut out = Vec::new(alloc);
    let mut next = number;
    let mut used = 0usize;
    'items: loop {
        let (_, rest) = bytes.split_at(used);
        let place = counted_on(at, used as u64)?;
        match K::put_first(alloc, &mut out, place, rest)? {
            Turn::Told(len) => {
                let then = counted_on(next, 1)?;
                next = then;
                used = past(used, len, bytes);
            }
            Turn::Short => return Ok(Turned {
                lines: Bytes::of(out),
                used,
                number: next,
                at: place,
                fault: None,
            }),
            Turn::Ended(cause) => return Ok(ended(out, used, next, place, cause)),
        }
    }
}

/// The lines that tell what some bytes are read as, a line for each item, up to the first that no line tells or that is no whole item.
pub fn tell_all<K: LineKind>(alloc: Global, bytes: &[u8]) -> Result<Decoded, AllocError>
    ensures text { IfOk result (λ d. d.text ≡ text_of K.reading bytes.now) }
    ensures fault { IfOk result (λ d. d.fault ≡ fault_of K.reading bytes.now) }
{
    K::in_order();
    let told = tell_whole::<K>(alloc, 1, 0, bytes)?;
    let (_, rest) = bytes.split_at(told.used);
    let fault = end_fault(told.fault, rest, told.at, told.number);
    Ok(Decoded {
        text: told.lines,
        fault,
    })
}

/// The lines that tell the frames of some bytes, a line for each frame, up to the first that no line tells or that is no whole frame.
pub fn decode(alloc: Global, bytes: &[u8]) -> Result<Decoded, AllocError>
    ensures text { IfOk result (λ d. d.text ≡ text_told bytes.now) }
    ensures fault { IfOk result (λ d. d.fault ≡ fault_told bytes.now) }
{
    tell_all::<Frames>(alloc, bytes)
}

impl<K: LineKind> LineTelling<K> {
    /// The telling of items of which no byte has come.
    pub fn new(alloc: Global) -> LineTelling<K>
        ensures { Follows K.reading [] result }
    {
        K::in_order();
        LineTelling {
            kind: PhantomData,
            held: Vec::new(alloc),
            number: 1,
            at: 0,
            fault: None,
        }
    }

    // Keeps what a turn over the bytes held left of them, and answers its lines.
    fn keep(&mut self, turned: Turned) -> Bytes
        requires { turned.used ≤ length self.old.held.items }
        ensures lines { result ≡ turned.lines }
        ensures kept { (self.new.held.items ≡ drop turned.used self.old.held.items) × (self.new.number ≡ turned.number)
            × (self.new.at ≡ turned.at) × (self.new.fault ≡ turned.fault) }
    {
        self.held.drain(..turned.used);
        self.number = turned.number;
        self.at = turned.at;
        self.fault = turned.fault;
        turned.lines
    }

    /// A piece comes. Answers the lines of the items that are whole with it: behind those of all bytes before, they make up the lines of all
    /// bytes so far.
    ///
    /// Where memory was wanting, the piece has not come.
    pub fn feed(&mut self, alloc: Global, piece: &[u8]) -> Result<Bytes, AllocError>
        ensures lines { IfOk result (λ lines. (came : List ℕ) → Follows K.reading came self.old → text_of K.reading (came ++ piece.now) ≡ text_of K.reading came ++ lines) }
        ensures ok { OnOk result ((came : List ℕ) → Follows K.reading came self.old → Follows K.reading (came ++ piece.now) self.new) }
        ensures err { OnErr result ((came : List ℕ) → Follows K.reading came self.old → Follows K.reading came self.new) }
    {
        K::in_order();
        if self.fault.is_some() {
            return Ok(Bytes::of(Vec::new(alloc)));
        }
        let before = self.held.len();
        self.held.extend_from_slice(piece)?;
        match tell_whole::<K>(alloc, self.number, self.at, self.held.as_slice()) {
            Ok(turned) => Ok(self.keep(turned)),
            Err(AllocError) => {
                self.held.truncate(before);
                Err(AllocError)
            }
        }
    }

    /// The fault that the bytes that came have where no more come, if they have one.
    pub fn fault(&self) -> Option<DecodeFault>
        ensures { (came : List ℕ) → Follows K.reading came self.now → result ≡ fault_of K.reading came }
    {
        K::in_order();
        end_fault(self.fault, self.held.as_slice(), self.at, self.number)
    }
}
