ghost use Rattle.std.specs.Prelude.{◌≡◌, ◌++◌, List, ℕ, IfOk, IfErr, OnOk, length};
ghost use Rattle.ziti_outside.specs.Untouched.{OnlySays};
ghost use Rattle.frame_lines.specs.TellingSoFar.{Follows};
ghost use Rattle.live_lines.specs.LiveLines.{reading_of};
ghost use Rattle.live_lines.specs.Exchanges.{source_of};
ghost use Rattle.live_lines.specs.InTime.{IsInTime};
ghost use Rattle.live_lines.specs.LiveTellings.{TellsAll, TellsSome, TellsPiece, CutsPiece, FailsToTake, FailsToSay};

use crate::exchanges::Exchange;
use crate::kinds::Kind;
use frame_lines::{DecodeFault, Frames, LineKind, LineTelling};
use std::alloc::{AllocError, Global};
use trace_lines::Replies;
use ziti_outside::{Desk, Failed, Source};

/// How many bytes are taken at a time.
const PIECE: usize = 65_536;

/// Why a telling was cut short.
#[derive(Clone, Copy)]
pub enum Cut {
    /// There is no memory.
    NoMemory,
    /// The source failed.
    Unread,
    /// The desk failed to take what was said.
    Unsaid,
}

impl From<AllocError> for Cut {
    ghost use Rattle.std.specs.Prelude.{◌≡◌};
    ghost use Rattle.live_lines.specs.declared.watching.Cut.TheVariants.{NoMemory};

    ghost from_gives = { λ _ e. e ≡ NoMemory };

    fn from(_error: AllocError) -> Cut {
        Cut::NoMemory
    }
}

fn zeros(alloc: Global, count: usize) -> Result<Vec<u8>, AllocError>
    ensures { IfOk result (λ v. length v.items ≡ count) }
{
    vec![in alloc; 0u8; count]
}

// A piece comes, and the lines that it completes are said.
fn tell_piece<K: LineKind, D: Desk>(
    alloc: Global,
    telling: &mut LineTelling<K>,
    piece: &[u8],
    desk: &mut D,
) -> Result<(), Cut>
    ensures told { OnOk result ((came : List ℕ) → Follows K.reading came telling.old
        → TellsPiece K.reading came piece.now telling.new (D.seen desk.old).said (D.seen desk.new).said) }
    ensures cut { IfErr result (λ cut. (came : List ℕ) → Follows K.reading came telling.old
        → CutsPiece cut K.reading came piece.now (D.seen desk.old).said (D.seen desk.new).said) }
    ensures say_cause { FailsToSay (D.seen desk.old).say_faults (D.seen desk.new).say_faults result }
    ensures others { OnlySays D.seen D.stopped desk.old desk.new }
{
    let lines = telling.feed(alloc, piece)?;
    match desk.say(lines.as_slice()) {
        Ok(()) => Ok(()),
        Err(Failed) => Err(Cut::Unsaid),
    }
}

// Tells an input of a kind, as `tell_live` does.
fn tell_kind<K: LineKind, S: Source, D: Desk>(
    alloc: Global,
    exchange: &mut Exchange<S, D>,
) -> Result<Option<DecodeFault>, Cut>
    ensures told { IfOk result (λ fault. TellsAll K.reading (S.left (source_of exchange.old)) (S.left (source_of exchange.new))
        (D.seen exchange.old.desk).said (D.seen exchange.new.desk).said fault) }
    ensures cut { IfErr result (λ cut. TellsSome cut K.reading (S.left (source_of exchange.old)) (S.left (source_of exchange.new))
        (D.seen exchange.old.desk).said (D.seen exchange.new.desk).said) }
    ensures in_time { IsInTime K.reading S.left D.seen exchange.old exchange.new }
    ensures take_cause { FailsToTake (S.faults (source_of exchange.old)) (S.faults (source_of exchange.new)) result }
    ensures say_cause { FailsToSay (D.seen exchange.old.desk).say_faults (D.seen exchange.new.desk).say_faults result }
    ensures others { OnlySays D.seen D.stopped exchange.old.desk exchange.new.desk }
{
    K::in_order();
    let mut room = zeros(alloc, PIECE)?;
    let piece = room.as_mut_slice();
    let mut telling = LineTelling::<K>::new(alloc);
    let mut turns = 0u64;
    'takes: while turns < u64::MAX {
        turns += 1;
        match exchange.take(piece) {
            Err(Failed) => return Err(Cut::Unread),
            Ok(0) => return Ok(telling.fault()),
            Ok(count) => tell_piece(alloc, &mut telling, &piece[..count], &mut exchange.desk)?,
        }
    }
    Err(Cut::NoMemory)
}

/// Takes the input to its end, at most 65,536 bytes at a time, and says after each piece the lines that it completes. Answers the fault of the
/// input, if it has one: behind its place nothing is said any more.
///
/// At each take the lines of all that had come by then were said, up to the first fault, and nothing is taken but by these takes. Of the input
/// one piece is held, and what is no whole frame or reply as yet.
pub fn tell_live<S: Source, D: Desk>(
    alloc: Global,
    kind: Kind,
    exchange: &mut Exchange<S, D>,
) -> Result<Option<DecodeFault>, Cut>
    ensures told { IfOk result (λ fault. TellsAll (reading_of kind) (S.left (source_of exchange.old)) (S.left (source_of exchange.new))
        (D.seen exchange.old.desk).said (D.seen exchange.new.desk).said fault) }
    ensures cut { IfErr result (λ cut. TellsSome cut (reading_of kind) (S.left (source_of exchange.old)) (S.left (source_of exchange.new))
        (D.seen exchange.old.desk).said (D.seen exchange.new.desk).said) }
    ensures in_time { IsInTime (reading_of kind) S.left D.seen exchange.old exchange.new }
    ensures take_cause { FailsToTake (S.faults (source_of exchange.old)) (S.faults (source_of exchange.new)) result }
    ensures say_cause { FailsToSay (D.seen exchange.old.desk).say_faults (D.seen exchange.new.desk).say_faults result }
    ensures others { OnlySays D.seen D.stopped exchange.old.desk exchange.new.desk }
{
    match kind {
        Kind::Frames => tell_kind::<Frames, S, D>(alloc, exchange),
        Kind::Replies => tell_kind::<Replies, S, D>(alloc, exchange),
    }
}
