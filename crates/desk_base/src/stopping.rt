//! A stop of a desk over memory at one moment: the calls before it once more, with so much of what is pending as is kept.

ghost use Rattle.std.specs.Prelude.{◌≡◌, ◌≤◌, ◌++◌, ℕ, List, [], min, length, take, drop, IfOk, OnOk};
ghost use Rattle.ziti_outside.specs.Told.{IsFront};
ghost use Rattle.desk_base.specs.MemEvents.{Event, Within, events, logged, said_by, reads_by, image_of};
ghost use Rattle.desk_base.specs.StopPoints.{PairsAt, KeepsOf, Reached, event_of, said_past, written_past};
ghost use Rattle.desk_base.specs.KeptSteps.{KeepsBy, StaysChosen, SaysChosen, KeepsChosen};

use crate::mem_log::{Call, Log};
use crate::mem_parts::Images;
use rand_core::SeedableRng;
use rand_core::utils::NextWord;
use rand_pcg::Lcg64Xsh32;
use std::alloc::{AllocError, Global};

/// How much a stop keeps of what is pending.
#[derive(Drop)]
pub enum Keeping {
    Nothing,
    All,
    Drawn(Lcg64Xsh32),
}

/// What the number of a choice keeps: 0 nothing, 1 all, and another one draws from the generator of that number.
pub fn chosen(choice: u64) -> Keeping
    ensures nothing { choice ≡ 0 → result ≡ Keeping.Nothing }
    ensures all { choice ≡ 1 → result ≡ Keeping.All }
{
    match choice {
        0 => Keeping::Nothing,
        1 => Keeping::All,
        number => Keeping::Drawn(Lcg64Xsh32::seed_from_u64(number)),
    }
}

impl Keeping {
    // How many are kept of so many.
    fn count(&mut self, most: usize) -> usize
        ensures within { result ≤ most }
        ensures nothing { self.old ≡ Keeping.Nothing → result ≡ 0 }
        ensures all { self.old ≡ Keeping.All → result ≡ most }
        ensures stays { StaysChosen self.old self.new }
    {
        match self {
            Keeping::Nothing => 0,
            Keeping::All => most,
            Keeping::Drawn(generator) => {
                let word = generator.next_word() as usize;
                (word % most.saturating_add(1)).min(most)
            }
        }
    }

    // The front of the bytes that is kept.
    fn front<'b>(&mut self, bytes: &'b [u8]) -> &'b [u8]
        ensures few { length result.now ≤ length bytes.now }
        ensures front { IsFront result.now bytes.now }
        ensures nothing { self.old ≡ Keeping.Nothing → result.now ≡ [] }
        ensures all { self.old ≡ Keeping.All → result.now ≡ bytes.now }
        ensures stays { StaysChosen self.old self.new }
    {
        let (front, _) = bytes.split_at(self.count(bytes.len()));
        front
    }

    // The bytes that are found of those of a write.
    fn text(&mut self, alloc: Global, bytes: &[u8]) -> Result<Vec<u8>, AllocError>
        ensures few { IfOk result (λ text. length text.items ≤ length bytes.now) }
        ensures nothing { IfOk result (λ text. self.old ≡ Keeping.Nothing → text.items ≡ []) }
        ensures all { IfOk result (λ text. self.old ≡ Keeping.All → text.items ≡ bytes.now) }
        ensures stays { StaysChosen self.old self.new }
    {
        let front = self.front(bytes);
        match self {
            Keeping::Drawn(generator) => drawn(alloc, generator, front),
            _ => Vec::from_slice(alloc, front),
        }
    }
}

// The byte that is found where one was written.
fn drawn_byte(generator: &mut Lcg64Xsh32, written: u8) -> u8 {
    let word = generator.next_word();
    if word % 2 == 0 {
        written
    } else {
        (word >> 24) as u8
    }
}

// The bytes that are found where these were written.
fn drawn(alloc: Global, generator: &mut Lcg64Xsh32, written: &[u8]) -> Result<Vec<u8>, AllocError>
    ensures { IfOk result (λ text. length text.items ≡ length written.now) }
{
    let mut text = Vec::with_capacity(alloc, written.len())?;
    'bytes: for byte in written {
        text.push(drawn_byte(generator, *byte))?;
    }
    Ok(text)
}

// The first bytes, and those behind them.
fn parted(bytes: &[u8], count: usize) -> (&[u8], &[u8])
    ensures first { result.0.now ≡ take count bytes.now }
    ensures behind { result.1.now ≡ drop count bytes.now }
{
    bytes.split_at(count.min(bytes.len()))
}

// The bytes that were said and written behind a call.
fn behind<'b>(call: &Call, said: &'b [u8], written: &'b [u8]) -> (&'b [u8], &'b [u8])
    ensures said { result.0.now ≡ said_past call.now said.now }
    ensures written { result.1.now ≡ written_past call.now written.now }
{
    match *call {
        Call::Said { count } => (parted(said, count).1, written),
        Call::Wrote { count, .. } => (said, parted(written, count).1),
        _ => (said, written),
    }
}

// What the parts read behind a call.
fn read_on(reads: &mut Images, call: &Call, written: &[u8]) -> Result<(), AllocError>
    ensures { OnOk result (image_of reads.new ≡ reads_by (event_of call.now [] written.now) (image_of reads.old)) }
{
    match *call {
        Call::Wrote {
            part,
            at,
            count,
            done,
        } => {
            if done {
                return reads.put(part, at, parted(written, count).0);
            }
            Ok(())
        }
        Call::Cut { part, len, done } => {
            if done {
                reads.cut(part, len);
            }
            Ok(())
        }
        Call::Said { .. } => Ok(()),
        Call::Synced { .. } => Ok(()),
    }
}

// What a stop finds of the parts behind a call.
fn keep_on(
    alloc: Global,
    keeping: &mut Keeping,
    image: &mut Images,
    reads: &Images,
    call: &Call,
    written: &[u8],
) -> Result<(), AllocError>
    ensures kept { OnOk result (KeepsOf (event_of call.now [] written.now) (image_of reads.now) (image_of image.old) (image_of image.new)) }
    ensures chosen { OnOk result (KeepsBy keeping.old (event_of call.now [] written.now) (image_of reads.now) (image_of image.old) (image_of image.new)) }
    ensures stays { StaysChosen keeping.old keeping.new }
{
    match *call {
        Call::Wrote {
            part,
            at,
            count,
            ..
        } => {
            let text = keeping.text(alloc, parted(written, count).0)?;
            image.put(part, at, text.as_slice())
        }
        Call::Cut { part, len, .. } => {
            let long = image.part(part).len();
            let gone = keeping.count(long.saturating_sub(len as usize));
            image.cut(part, (long - gone) as u64);
            Ok(())
        }
        Call::Synced { part } => image.set(part, reads.part(part).as_slice()),
        Call::Said { .. } => Ok(()),
    }
}

// What was said behind a call.
fn say_on(taken: &mut Vec<u8>, call: &Call, said: &[u8]) -> Result<(), AllocError>
    ensures { OnOk result (taken.new.items ≡ said_by (event_of call.now said.now []) taken.old.items) }
{
    match *call {
        Call::Said { count } => taken.extend_from_slice(parted(said, count).0),
        _ => Ok(()),
    }
}

// What was said within a call.
fn say_within(
    taken: &mut Vec<u8>,
    keeping: &mut Keeping,
    call: &Call,
    said: &[u8],
) -> Result<(), AllocError>
    ensures within { OnOk result (Within (event_of call.now said.now []) taken.old.items taken.new.items) }
    ensures chosen { OnOk result (SaysChosen keeping.old (event_of call.now said.now []) taken.old.items taken.new.items) }
{
    match *call {
        Call::Said { count } => taken.extend_from_slice(keeping.front(parted(said, count).0)),
        _ => Ok(()),
    }
}

/// A stop behind some calls: the image that is found, what the parts read, and what was said.
#[derive(Drop)]
pub struct Stop {
    pub image: Images,
    pub reads: Images,
    pub taken: Vec<u8>,
}

// The stop one call later.
fn go_on(
    alloc: Global,
    keeping: &mut Keeping,
    stop: &mut Stop,
    call: &Call,
    said: &[u8],
    written: &[u8],
) -> Result<(), AllocError>
    ensures reads { OnOk result (image_of stop.new.reads ≡ reads_by (event_of call.now said.now written.now) (image_of stop.old.reads)) }
    ensures image { OnOk result (KeepsOf (event_of call.now said.now written.now) (image_of stop.old.reads) (image_of stop.old.image) (image_of stop.new.image)) }
    ensures chosen { OnOk result (KeepsBy keeping.old (event_of call.now said.now written.now) (image_of stop.old.reads) (image_of stop.old.image) (image_of stop.new.image)) }
    ensures taken { OnOk result (stop.new.taken.items ≡ said_by (event_of call.now said.now written.now) stop.old.taken.items) }
    ensures stays { StaysChosen keeping.old keeping.new }
{
    keep_on(alloc, keeping, &mut stop.image, &stop.reads, call, written)?;
    read_on(&mut stop.reads, call, written)?;
    say_on(&mut stop.taken, call, said)
}

impl Stop {
    // A stop of a desk of which no call has been made.
    fn new(alloc: Global, first: &Images) -> Result<Stop, AllocError>
        ensures reads { IfOk result (λ stop. image_of stop.reads ≡ image_of first.now) }
        ensures image { IfOk result (λ stop. image_of stop.image ≡ image_of first.now) }
        ensures taken { IfOk result (λ stop. stop.taken.items ≡ []) }
    {
        Ok(Stop {
            image: first.copy(alloc)?,
            reads: first.copy(alloc)?,
            taken: Vec::new(alloc),
        })
    }
}

/// The pair of an image and the replies that a stop at a moment leaves, where so much is kept.
pub fn stop_at(
    alloc: Global,
    keeping: &mut Keeping,
    first: &Images,
    log: &Log,
    said: &[u8],
    moment: usize,
) -> Result<Stop, AllocError>
    requires { moment ≤ length log.now.calls.items }
    ensures found { IfOk result (λ stop. PairsAt (image_of first.now) (λ i. i ≡ image_of first.now) [] (logged log.now said.now) moment (image_of stop.image) stop.taken.items) }
    ensures chosen { IfOk result (λ stop. KeepsChosen keeping.old (image_of first.now) (logged log.now said.now) moment (image_of stop.image) stop.taken.items) }
{
    let mut stop = Stop::new(alloc, first)?;
    let calls = log.calls.as_slice();
    let mut said = said;
    let mut written = log.written.as_slice();
    'calls: for index in 0..moment {
        let call = calls[index];
        go_on(alloc, keeping, &mut stop, &call, said, written)?;
        (said, written) = behind(&call, said, written);
    }
    if moment < calls.len() {
        let call = calls[moment];
        say_within(&mut stop.taken, keeping, &call, said)?;
    }
    Ok(stop)
}
