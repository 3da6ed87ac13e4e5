ghost use Rattle.std.specs.Prelude.{◌≡◌};
ghost use Rattle.std.specs.Option.{option_map};
ghost use Rattle.channel_frame.specs.HeaderValues.{last_value};
ghost use Rattle.ship_frames.specs.PieceReading.{is_sized, sort_of, wide_in, long_in, if_piece, piece_in};

use crate::headers::{COUNT, MOST_PIECES, NEXT, NUMBER, PIECE, SERIAL, WHOLE};
use crate::shipments::Sort;
use channel_frame::{Frame, last_of};
use ctrl_model::Bytes;
use std::marker::Model;

/// A piece of a batch, as a frame carries it: it has one of the numbers of its batch, and the size of that number. `piece_in` makes it.
///
/// Contracts see it as a piece of a batch (`PieceReading`).
#[derive(Drop)]
pub struct Piece<'a> {
    pub(crate) sort: Sort,
    pub(crate) serial: u64,
    pub(crate) number: u32,
    pub(crate) count: u32,
    pub(crate) body: &'a [u8],
}

impl<'a> Model for Piece<'a> {
    ghost use Rattle.std.specs.Prelude.{◌≡◌, true};
    ghost use Rattle.ship_frames.specs.PieceReading.{BatchPiece, is_piece};

    ghost Value = { BatchPiece };

    ghost view = { λ p. record { sort = p.sort; serial = p.serial; number = p.number; count = p.count; body = p.body.now } };

    ghost invariant = { λ p. is_piece (record { sort = p.sort; serial = p.serial; number = p.number; count = p.count; body = p.body.now }) ≡ true };
}

// The sort of the batches whose pieces have a content type.
fn sort_of(content: u32) -> Option<Sort>
    ensures { result ≡ sort_of content }
{
    match content {
        WHOLE => Some(Sort::Whole),
        NEXT => Some(Sort::Next),
        _ => None,
    }
}

// The number that the value of a header tells in eight bytes.
fn wide_in(value: Option<&Bytes>) -> Option<u64>
    ensures { result ≡ wide_in (option_map (λ v. v.now) value.entry) }
{
    let (part, rest) = value?.as_slice().split_first_chunk::<8>()?;
    if !rest.is_empty() {
        return None;
    }
    Some(u64::from_le_bytes(*part))
}

// The number that the value of a header tells in four bytes.
fn long_in(value: Option<&Bytes>) -> Option<u32>
    ensures { result ≡ long_in (option_map (λ v. v.now) value.entry) }
{
    let (part, rest) = value?.as_slice().split_first_chunk::<4>()?;
    if !rest.is_empty() {
        return None;
    }
    Some(u32::from_le_bytes(*part))
}

// Whether so many bytes are the size of the piece of a number, of so many.
fn is_sized(number: u32, count: u32, len: usize) -> bool
    ensures { result ≡ is_sized number count len }
{
    if number.checked_add(1) == Some(count) {
        1 <= len && len <= PIECE
    } else {
        len == PIECE
    }
}

// The piece of these parts, if it can be one of a batch.
fn if_piece(sort: Sort, serial: u64, number: u32, count: u32, body: &[u8]) -> Option<Piece<'_>>
    ensures { result ≡ if_piece (record { sort = sort; serial = serial; number = number; count = count; body = body.now }) }
{
    if number < count && count <= MOST_PIECES && is_sized(number, count, body.len()) {
        return Some(Piece {
            sort,
            serial,
            number,
            count,
            body,
        });
    }
    None
}

/// The piece of a batch that a frame is.
///
/// `None` comes where the content type is neither of the two of pieces, where a header of the serial, the number or the count is absent or has
/// another length than eight, four and four bytes, where the number is not below the count or this is above 1,024, and where the body has not the
/// size of the piece: each but the last has 1,048,576 bytes, and the last one 1 to 1,048,576. Of a repeated header the last counts.
pub fn piece_in(frame: &Frame) -> Option<Piece<'_>>
    ensures { result ≡ piece_in frame.now }
{
    let sort = sort_of(frame.content)?;
    let serial = wide_in(last_of(frame, SERIAL))?;
    let number = long_in(last_of(frame, NUMBER))?;
    let count = long_in(last_of(frame, COUNT))?;
    if_piece(sort, serial, number, count, frame.body.as_slice())
}
