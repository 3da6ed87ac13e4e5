ghost use Rattle.std.specs.Prelude.{◌≡◌, ◌+◌, ◌-◌, ◌≤◌, length, take, vec_len, [], OnOk, IfOk};
ghost use Rattle.std.specs.Vec.{vec_capacity};
ghost use Rattle.ziti_outside.specs.Images.{Holds};
ghost use Rattle.desk_base.specs.MemEvents.{image_of, with_part, written_over};
ghost use Rattle.desk_base.specs.MemRoom.{PartsFit};

use crate::mem_log::append;
use std::alloc::{AllocError, Global};
use ziti_outside::Part;

/// The bytes of the three parts.
#[derive(Drop)]
pub struct Images {
    /// Of the first slot.
    pub zero: Vec<u8>,
    /// Of the second slot.
    pub one: Vec<u8>,
    /// Of the mark.
    pub mark: Vec<u8>,
}

impl Images {
    /// Three parts without a byte.
    pub fn empty(alloc: Global) -> Images
        ensures zero { result.zero.items ≡ [] }
        ensures one { result.one.items ≡ [] }
        ensures mark { result.mark.items ≡ [] }
    {
        Images {
            zero: Vec::new(alloc),
            one: Vec::new(alloc),
            mark: Vec::new(alloc),
        }
    }

    /// The same bytes once more.
    pub fn copy(&self, alloc: Global) -> Result<Images, AllocError>
        ensures { IfOk result (λ copy. image_of copy ≡ image_of self.now) }
    {
        Ok(Images {
            zero: Vec::from_slice(alloc, self.zero.as_slice())?,
            one: Vec::from_slice(alloc, self.one.as_slice())?,
            mark: Vec::from_slice(alloc, self.mark.as_slice())?,
        })
    }

    /// Takes the memory that parts of so many bytes need.
    pub fn grow(&mut self, most: u64) -> Result<(), AllocError>
        ensures parts { OnOk result (image_of self.new ≡ image_of self.old) }
        ensures fits { OnOk result (PartsFit most self.new) }
    {
        grow(&mut self.zero, most)?;
        grow(&mut self.one, most)?;
        grow(&mut self.mark, most)
    }

    /// The bytes of a part.
    pub fn part(&self, part: Part) -> &Vec<u8>
        ensures { result.now.items ≡ image_of self.now part }
    {
        match part {
            Part::Zero => &self.zero,
            Part::One => &self.one,
            Part::Mark => &self.mark,
        }
    }

    /// Writes bytes at a place of a part, over what is there and past the end; a place behind the end is the end.
    pub fn put(&mut self, part: Part, at: u64, bytes: &[u8]) -> Result<(), AllocError>
        ensures { OnOk result (image_of self.new ≡ with_part part (written_over at bytes.now (image_of self.old part)) (image_of self.old)) }
    {
        match part {
            Part::Zero => put(&mut self.zero, at, bytes),
            Part::One => put(&mut self.one, at, bytes),
            Part::Mark => put(&mut self.mark, at, bytes),
        }
    }

    /// Cuts a part to a length.
    pub fn cut(&mut self, part: Part, len: u64)
        ensures { image_of self.new ≡ with_part part (take len (image_of self.old part)) (image_of self.old) }
    {
        match part {
            Part::Zero => self.zero.truncate(len as usize),
            Part::One => self.one.truncate(len as usize),
            Part::Mark => self.mark.truncate(len as usize),
        }
    }

    /// Gives a part these bytes.
    pub fn set(&mut self, part: Part, bytes: &[u8]) -> Result<(), AllocError>
        ensures { OnOk result (image_of self.new ≡ with_part part bytes.now (image_of self.old)) }
    {
        match part {
            Part::Zero => set(&mut self.zero, bytes),
            Part::One => set(&mut self.one, bytes),
            Part::Mark => set(&mut self.mark, bytes),
        }
    }
}

fn put(file: &mut Vec<u8>, at: u64, bytes: &[u8]) -> Result<(), AllocError>
    ensures { OnOk result (file.new.items ≡ written_over at bytes.now file.old.items) }
{
    file.reserve(bytes.len())?;
    let at = (at as usize).min(file.len());
    overwrite(file, at, bytes);
    Ok(())
}

fn set(file: &mut Vec<u8>, bytes: &[u8]) -> Result<(), AllocError>
    ensures { OnOk result (file.new.items ≡ bytes.now) }
{
    file.clear();
    file.extend_from_slice(bytes)
}

fn grow(bytes: &mut Vec<u8>, most: u64) -> Result<(), AllocError>
    ensures items { bytes.new.items ≡ bytes.old.items }
    ensures fits { OnOk result (most ≤ vec_capacity bytes.new) }
{
    let more = (most as usize).saturating_sub(bytes.len());
    bytes.reserve(more)
}

/// Writes bytes at a place, over what is there and past the end. They fit.
pub fn overwrite(file: &mut Vec<u8>, at: usize, bytes: &[u8])
    requires within { at ≤ length file.old.items }
    requires fits { vec_len file.old + (length bytes.now - (length file.old.items - at)) ≤ vec_capacity file.old }
    ensures holds { Holds at bytes.now file.old.items file.new.items }
    ensures capacity { vec_capacity file.old ≤ vec_capacity file.new }
{
    let over = bytes.len().min(file.len() - at);
    let (front, behind) = bytes.split_at(over);
    append(file, behind);
    let (_, rest) = file.as_mut_slice().split_at_mut(at);
    let (place, _) = rest.split_at_mut(over);
    place.copy_from_slice(front);
}
