//! What is shipped of a folder, as frames: a batch in pieces, each the body of a frame, and the batch that is gathered of frames as they come
//! (docs/FORMATS.md, "Ship frames").
#![tactic(auto)]

mod gathering;
mod headers;
mod laws;
mod pieces;
mod reading;
mod shipments;
mod worked;

pub use gathering::{Gathered, Gathering};
pub use headers::{NEXT, WHOLE};
pub use laws::{
    any_pieces_give_batches_of_the_history, parts_are_bounded, pieces_are_read_back,
    pieces_in_order_give_the_batch, pieces_make_the_batch,
};
pub use pieces::{piece_count, piece_frame};
pub use reading::{Piece, piece_in};
pub use shipments::{Shipment, Sort};
pub use worked::{worked_gatherings, worked_pieces, worked_readings};
