ghost use Rattle.std.specs.Prelude.{◌≡◌, ◌<◌, ◌+◌, ◌%◌, ◌^◌, ℕ, [], ◌∷◌, IfOk, IfErr};
ghost use Rattle.channel_frame.specs.FrameSpelling.{KeepsLimits};
ghost use Rattle.ship_core.specs.Faults.{fault_of};
ghost use Rattle.ship_frames.specs.Pieces.{piece_count, piece_frame, frames_of};
ghost use Rattle.ship_core.specs.Steps.{ShipsFrames, IsUndamaged};

use crate::faults::ShipFault;
use channel_frame::{Frame, encode};
use ship_frames::{Shipment, piece_count, piece_frame};
use std::alloc::Global;
use ziti_outside::{Desk, Failed};

// Says a frame.
fn say_frame<D: Desk>(alloc: Global, desk: &mut D, frame: &Frame) -> Result<(), ShipFault>
    requires { KeepsLimits frame.now }
    ensures ships { ShipsFrames D.seen D.stopped desk.old desk.new (fault_of result) (frame.now ∷ []) }
    ensures fault { IfErr result IsUndamaged }
{
    let text = encode(alloc, frame)?;
    match desk.say(text.as_slice()) {
        Ok(()) => Ok(()),
        Err(Failed) => Err(ShipFault::Write),
    }
}

// Says the piece of a number.
fn say_piece<D: Desk>(
    alloc: Global,
    desk: &mut D,
    shipment: &Shipment,
    number: usize,
    sequence: u32,
) -> Result<(), ShipFault>
    requires { number < piece_count shipment.now.bytes }
    ensures ships { (place : ℕ) → sequence ≡ place % 2 ^ 32 → ShipsFrames D.seen D.stopped desk.old desk.new (fault_of result) (piece_frame place shipment.now number ∷ []) }
    ensures fault { IfErr result IsUndamaged }
{
    let frame = piece_frame(alloc, shipment, number, sequence)?;
    say_frame(alloc, desk, &frame)
}

/// Says the pieces of a batch, the first of them with a sequence, and answers the sequence behind the last one.
pub(crate) fn say_pieces<D: Desk>(
    alloc: Global,
    desk: &mut D,
    shipment: &Shipment,
    first: u32,
) -> Result<u32, ShipFault>
    ensures ships { (place : ℕ) → first ≡ place % 2 ^ 32 → ShipsFrames D.seen D.stopped desk.old desk.new (fault_of result) (frames_of place shipment.now) }
    ensures fault { IfErr result IsUndamaged }
    ensures behind { IfOk result (λ next. (place : ℕ) → first ≡ place % 2 ^ 32 → next ≡ (place + piece_count shipment.now.bytes) % 2 ^ 32) }
{
    let count = piece_count(shipment.bytes.as_slice());
    let mut sequence = first;
    'pieces: for number in 0..count {
        say_piece(alloc, desk, shipment, number, sequence)?;
        sequence = sequence.wrapping_add(1);
    }
    Ok(sequence)
}
