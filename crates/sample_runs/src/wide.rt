//! A folder of 200 identities and 50 services in one record.

use crate::slots::{FIRST, HEADER};
use std::alloc::{AllocError, Global};
use ziti_desk::Images;

/// How many identities and services the folder keeps.
const IDENTITIES: u32 = 200;

const SERVICES: u32 = 50;

fn push_len(bytes: &mut Vec<u8>, len: usize) -> Result<(), AllocError> {
    let len = u32::try_from(len).unwrap_or(u32::MAX);
    bytes.extend_from_slice(&len.to_le_bytes())
}

// Puts the next number of a kind, the first of which is 1, behind a batch of puts: its key has two bytes.
fn push_next(batch: &mut Vec<u8>, kind: u8, count: u32) -> Result<(), AllocError> {
    batch.extend_from_slice(&[1, 2, 1, kind, 4, 0, 0, 0])?;
    batch.extend_from_slice(&count.saturating_add(1).to_le_bytes())
}

// Puts an entity without attributes: its key is the table and its number, and its value its name with a length and no attributes.
fn push_entity(batch: &mut Vec<u8>, table: u8, number: u32, name: &str) -> Result<(), AllocError> {
    batch.extend_from_slice(&[1, 5, table])?;
    batch.extend_from_slice(&number.to_be_bytes())?;
    push_len(batch, name.len().saturating_add(2))?;
    batch.push(u8::try_from(name.len()).unwrap_or(u8::MAX))?;
    batch.extend_from_slice(name.as_bytes())?;
    batch.push(0)?;
    Ok(())
}

// Puts so many entities, named by a letter and their numbers.
fn push_entities(
    alloc: Global,
    batch: &mut Vec<u8>,
    table: u8,
    letter: &str,
    count: u32,
) -> Result<(), AllocError> {
    'entities: for number in 1u32..count.saturating_add(1) {
        let name = format!(in alloc; "{letter}{number}")?;
        push_entity(batch, table, number, name.as_str())?;
    }
    Ok(())
}

// The rows of the identities and the services.
fn first_rows(alloc: Global) -> Result<Vec<u8>, AllocError> {
    let mut batch = Vec::new(alloc);
    push_next(&mut batch, 1, IDENTITIES)?;
    push_next(&mut batch, 2, SERVICES)?;
    push_entities(alloc, &mut batch, 3, "u", IDENTITIES)?;
    push_entities(alloc, &mut batch, 4, "s", SERVICES)?;
    Ok(batch)
}

// Puts the slot that has these rows in one record.
fn push_slot(slot: &mut Vec<u8>, batch: &[u8]) -> Result<(), AllocError> {
    slot.extend_from_slice(HEADER)?;
    slot.extend_from_slice(&[1])?;
    push_len(slot, batch.len())?;
    slot.extend_from_slice(batch)?;
    slot.extend_from_slice(&[0])
}

fn push_folder(images: &mut Images, batch: &[u8]) -> Result<(), AllocError> {
    images.mark.extend_from_slice(FIRST)?;
    push_slot(&mut images.zero, batch)
}

/// The folder that keeps them in one record.
pub fn wide_folder(alloc: Global) -> Result<Images, AllocError> {
    let batch = first_rows(alloc)?;
    let mut images = Images::empty(alloc);
    push_folder(&mut images, batch.as_slice())?;
    Ok(images)
}
