ghost use Rattle.std.specs.Prelude.{◌≡◌, ◌<◌, ◌%◌, ◌^◌, ℕ, [], ◌∷◌, IfOk};
ghost use Rattle.std.specs.Int.{w32, w64, to_le_bytes};
ghost use Rattle.channel_frame.specs.FrameSpelling.{KeepsLimits};
ghost use Rattle.ship_frames.specs.Pieces.{type_of, piece_count, piece_at, piece_frame};

use crate::headers::{COUNT, NEXT, NUMBER, PIECE, SERIAL, WHOLE};
use crate::shipments::{Shipment, Sort};
use channel_frame::{Frame, Header, Headers};
use ctrl_model::Bytes;
use std::alloc::{AllocError, Global};

// The content type of the pieces of batches of a sort.
fn type_of(sort: Sort) -> u32
    ensures { result ≡ type_of sort }
{
    match sort {
        Sort::Whole => WHOLE,
        Sort::Next => NEXT,
    }
}

/// How many pieces the bytes of a batch have.
pub fn piece_count(bytes: &[u8]) -> usize
    ensures { result ≡ piece_count bytes.now }
{
    (bytes.len() + (PIECE - 1)) / PIECE
}

// The piece of a number.
fn piece_at(bytes: &[u8], number: usize) -> &[u8]
    requires { number < piece_count bytes.now }
    ensures { result.now ≡ piece_at number bytes.now }
{
    let rest = &bytes[number * PIECE..];
    &rest[..PIECE.min(rest.len())]
}

// A number as four bytes, the least first, as far as they go.
fn low_bytes(n: usize) -> [u8; 4]
    ensures { result ≡ to_le_bytes w32 n }
{
    let bytes = n.to_le_bytes();
    [bytes[0], bytes[1], bytes[2], bytes[3]]
}

fn header(alloc: Global, key: u32, value: &[u8]) -> Result<Header, AllocError>
    ensures { IfOk result (λ header. header ≡ record { key = key; value = value.now }) }
{
    let value = Bytes::from_slice(alloc, value)?;
    Ok(Header { key, value })
}

// The headers of a piece.
fn piece_headers(
    alloc: Global,
    serial: u64,
    number: usize,
    count: usize,
) -> Result<Headers, AllocError>
    ensures { IfOk result (λ headers. headers ≡ record { key = 1000; value = to_le_bytes w64 serial } ∷ record { key = 1001; value = to_le_bytes w32 number }
        ∷ record { key = 1002; value = to_le_bytes w32 count } ∷ []) }
{
    let mut headers = Vec::new(alloc);
    headers.push(header(alloc, SERIAL, &serial.to_le_bytes())?)?;
    headers.push(header(alloc, NUMBER, &low_bytes(number))?)?;
    headers.push(header(alloc, COUNT, &low_bytes(count))?)?;
    Ok(Headers::of(headers))
}

/// The frame of the piece of a number of a batch, with a sequence. An Err is want of memory.
pub fn piece_frame(
    alloc: Global,
    shipment: &Shipment,
    number: usize,
    sequence: u32,
) -> Result<Frame, AllocError>
    requires { number < piece_count shipment.now.bytes }
    ensures frame { IfOk result (λ frame. (place : ℕ) → sequence ≡ place % 2 ^ 32 → frame ≡ piece_frame place shipment.now number) }
    ensures limits { IfOk result KeepsLimits }
{
    let bytes = shipment.bytes.as_slice();
    let body = Bytes::from_slice(alloc, piece_at(bytes, number))?;
    let headers = piece_headers(alloc, shipment.serial, number, piece_count(bytes))?;
    Ok(Frame {
        content: type_of(shipment.sort),
        sequence,
        headers,
        body,
    })
}
