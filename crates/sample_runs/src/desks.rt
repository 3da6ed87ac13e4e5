use std::alloc::{AllocError, Global};
use ziti_desk::{Images, MemDesk, MemSource, Room};
use ziti_outside::Part;

// Puts these bytes into the parts of a folder.
fn fill(images: &mut Images, parts: [&[u8]; 3]) -> Result<(), AllocError> {
    images.zero.extend_from_slice(parts[0])?;
    images.one.extend_from_slice(parts[1])?;
    images.mark.extend_from_slice(parts[2])
}

// A folder whose parts have these bytes.
fn images_of(alloc: Global, parts: [&[u8]; 3]) -> Result<Images, AllocError> {
    let mut images = Images::empty(alloc);
    fill(&mut images, parts)?;
    Ok(images)
}

/// The parts of a folder apart from a desk.
pub fn parts_in(images: &Images) -> [&[u8]; 3] {
    [
        images.zero.as_slice(),
        images.one.as_slice(),
        images.mark.as_slice(),
    ]
}

/// The words of a command line.
pub fn words_of(alloc: Global, words: &[&str]) -> Result<Vec<String>, AllocError> {
    let mut line = Vec::new(alloc);
    for word in words {
        line.push(String::from_str(alloc, word)?)?;
    }
    Ok(line)
}

/// A desk of this room, whose folder has these parts, the first slot, the second one and the mark, and which fails at these calls,
/// counted from 0.
pub fn desk_of(
    alloc: Global,
    room: Room,
    parts: [&[u8]; 3],
    failing: &[u32],
) -> Result<MemDesk, AllocError> {
    let failing = Vec::from_slice(alloc, failing)?;
    MemDesk::new(alloc, images_of(alloc, parts)?, room, failing)
}

// Some bytes in pieces of so many, at least one.
fn pieces_of(alloc: Global, bytes: &[u8], piece: usize) -> Result<Vec<Vec<u8>>, AllocError> {
    let mut pieces = Vec::new(alloc);
    for piece in bytes.chunks(piece.max(1)) {
        pieces.push(Vec::from_slice(alloc, piece)?)?;
    }
    Ok(pieces)
}

/// The source of these bytes in pieces of so many, at least one, which fails at these calls, counted from 0.
pub fn source_of(
    alloc: Global,
    bytes: &[u8],
    piece: usize,
    failing: &[u32],
) -> Result<MemSource, AllocError> {
    let failing = Vec::from_slice(alloc, failing)?;
    let pieces = pieces_of(alloc, bytes, piece)?;
    Ok(MemSource::new(pieces, failing))
}

/// The parts of a desk's folder as they read: the first slot, the second one, and the mark.
pub fn parts_of(desk: &MemDesk) -> [&[u8]; 3] {
    [
        desk.part(Part::Zero),
        desk.part(Part::One),
        desk.part(Part::Mark),
    ]
}
