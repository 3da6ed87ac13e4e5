ghost use Rattle.std.specs.Prelude.{◌≡◌, true, None, IfOk, OnOk, OnErr};
ghost use Rattle.ship_frames.specs.GatheredPieces.{same_sort, begun, goes_on, with_piece, batch_of, told, gather_more, gather};

use crate::reading::Piece;
use crate::shipments::{Shipment, Sort};
use ctrl_model::Bytes;
use std::alloc::{AllocError, Global};
use std::marker::Model;

// A batch of which some pieces came.
#[derive(Drop)]
struct Held {
    sort: Sort,
    serial: u64,
    count: u32,
    came: u32,
    bytes: Vec<u8>,
}

impl Model for Held {
    ghost use Rattle.ship_frames.specs.GatheredPieces.{Parts, IsHeld};

    ghost Value = { Parts };

    ghost view = { λ h. record { sort = h.sort; serial = h.serial; count = h.count; came = h.came; bytes = h.bytes.items } };

    ghost invariant = { λ h. IsHeld (record { sort = h.sort; serial = h.serial; count = h.count; came = h.came; bytes = h.bytes.items }) };
}

/// What came of a piece.
#[derive(Drop)]
pub enum Gathered {
    /// It goes on with no batch in parts, and was passed over.
    Skipped,
    /// It is one of a batch of which pieces are wanting.
    Waits,
    /// It is the last one of this batch.
    Whole(Shipment),
}

/// The pieces of at most one batch, as they come in order: of a batch of which pieces are wanting it holds those that came, and else nothing.
/// Contracts see the batch in parts, if there is one (`GatheredPieces`).
#[derive(Drop)]
pub struct Gathering {
    parts: Option<Held>,
}

impl Model for Gathering {
    ghost use Rattle.std.specs.declared.option.Option.{Option};
    ghost use Rattle.ship_frames.specs.GatheredPieces.{Parts};

    ghost Value = { Option Parts };

    ghost view = { λ g. g.parts };
}

// Whether two batches are of one sort.
fn same_sort(sort: Sort, other: Sort) -> bool
    ensures { result ≡ same_sort sort other }
{
    matches!(
        (sort, other),
        (Sort::Whole, Sort::Whole) | (Sort::Next, Sort::Next)
    )
}

impl Held {
    // The batch of which a piece is the first.
    fn begun(alloc: Global, piece: &Piece) -> Result<Held, AllocError>
        ensures { IfOk result (λ h. h ≡ begun piece.now) }
    {
        let bytes = Vec::from_slice(alloc, piece.body)?;
        Ok(Held {
            sort: piece.sort,
            serial: piece.serial,
            count: piece.count,
            came: 1,
            bytes,
        })
    }

    // Whether a piece goes on with the batch.
    fn goes_on(&self, piece: &Piece) -> bool
        ensures { result ≡ goes_on self.now piece.now }
    {
        same_sort(self.sort, piece.sort)
            && self.serial == piece.serial
            && self.count == piece.count
            && self.came == piece.number
    }

    // A piece that goes on with the batch comes behind those that came. Where there is no memory the batch is as it was.
    fn add(&mut self, piece: &Piece) -> Result<(), AllocError>
        requires { goes_on self.old piece.now ≡ true }
        ensures ok { OnOk result (self.new ≡ with_piece self.old piece.now) }
        ensures err { OnErr result (self.new ≡ self.old) }
    {
        self.bytes.extend_from_slice(piece.body)?;
        self.came += 1;
        Ok(())
    }

    // The batch, once its pieces came.
    fn batch(self) -> Shipment
        ensures { result ≡ batch_of self }
    {
        Shipment {
            sort: self.sort,
            serial: self.serial,
            bytes: Bytes::of(self.bytes),
        }
    }
}

impl Gathering {
    /// No batch is in parts.
    pub fn new() -> Gathering
        ensures { result ≡ None }
    {
        Gathering { parts: None }
    }

    // A batch of which a piece came is in parts, or told as it is whole.
    fn tell(&mut self, held: Held) -> Gathered
        ensures { (result, self.new) ≡ told held }
    {
        if held.came == held.count {
            self.parts = None;
            return Gathered::Whole(held.batch());
        }
        self.parts = Some(held);
        Gathered::Waits
    }

    // A piece goes on with the batch in parts, or is passed over.
    fn go_on(&mut self, piece: &Piece) -> Result<Gathered, AllocError>
        ensures gathered { IfOk result (λ g. (g, self.new) ≡ gather_more self.old piece.now) }
        ensures err { OnErr result (self.new ≡ self.old) }
    {
        let Some(held) = &mut self.parts else {
            return Ok(Gathered::Skipped);
        };
        if !held.goes_on(piece) {
            return Ok(Gathered::Skipped);
        }
        held.add(piece)?;
        match self.parts.take() {
            Some(held) => Ok(self.tell(held)),
            None => Ok(Gathered::Skipped),
        }
    }

    /// Takes a piece as it comes. The piece of number 0 puts away the batch in parts and begins another one; a piece that goes on with the batch in
    /// parts, of the same sort, serial and count and with the next number, is added to it; any other is passed over. Once a batch is whole nothing is
    /// in parts any more.
    ///
    /// At most 2^30 bytes are held. An Err is want of memory: then the batch in parts is as it was.
    pub fn take(&mut self, alloc: Global, piece: &Piece) -> Result<Gathered, AllocError>
        ensures gathered { IfOk result (λ g. (g, self.new) ≡ gather self.old piece.now) }
        ensures err { OnErr result (self.new ≡ self.old) }
    {
        if piece.number != 0 {
            return self.go_on(piece);
        }
        let held = Held::begun(alloc, piece)?;
        Ok(self.tell(held))
    }
}
