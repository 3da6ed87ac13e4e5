ghost use Rattle.std.specs.Prelude.{◌≡◌, IfOk};
ghost use Rattle.std.specs.Option.{option_map};
ghost use Rattle.ctrl_model.specs.Limits.{longest_path};
ghost use Rattle.row_codec.specs.FieldReading.{behind, front_list, front_long, front_name, front_names, front_side, side_of};
ghost use Rattle.row_reading.specs.RowReading.{things_in, names_of, links_of};

use crate::naming::named;
use ctrl_model::{Name, Names, Numbers, Side};
use row_codec::{past_each_long, past_names, split_byte, split_flag, split_long, split_name};
use std::alloc::{AllocError, Global};

/// A side as it stands in bytes: whether it is `#all`, and its two lists, each as the bytes that it begins.
pub(crate) type SideAt<'a> = (bool, (&'a [u8], &'a [u8]));

/// A list of names, as the bytes that it begins, and what follows it.
pub(crate) fn split_names(bytes: &[u8]) -> Option<(&[u8], &[u8])>
    ensures { option_map (λ p. (names_of p.0.now, p.1.now)) result ≡ front_names bytes.now }
{
    let rest = past_names(bytes)?;
    Some((bytes, rest))
}

/// A side, and what follows it.
pub(crate) fn split_side(bytes: &[u8]) -> Option<(SideAt<'_>, &[u8])>
    ensures { option_map (λ p. (side_of (p.0.0, (names_of p.0.1.0.now, names_of p.0.1.1.now)), p.1.now)) result ≡ front_side bytes.now }
{
    let (all, rest) = split_flag(bytes)?;
    let (ids, rest) = split_names(rest)?;
    let (attributes, rest) = split_names(rest)?;
    Some(((all, (ids, attributes)), rest))
}

// What follows the links of a circuit: how many there are as one byte, and their numbers.
fn past_links(bytes: &[u8]) -> Option<&[u8]>
    ensures { option_map (λ r. r.now) result ≡ behind (front_list longest_path front_long bytes.now) }
{
    let (count, rest) = split_byte(bytes)?;
    past_each_long(count, rest)
}

/// The links of a circuit, as the bytes that their list begins, and what follows it.
pub(crate) fn split_links(bytes: &[u8]) -> Option<(&[u8], &[u8])>
    ensures { option_map (λ p. (links_of p.0.now, p.1.now)) result ≡ front_list longest_path front_long bytes.now }
{
    let rest = past_links(bytes)?;
    Some((bytes, rest))
}

fn each_name(alloc: Global, count: u8, bytes: &[u8]) -> Result<Vec<Name>, AllocError>
    ensures { IfOk result (λ names. names.items ≡ things_in front_name count bytes.now) }
{
    let mut names = Vec::new(alloc);
    let mut rest = bytes;
    'names: for _ in 0..count {
        let Some((name, after)) = split_name(rest) else {
            return Ok(names);
        };
        names.push(named(alloc, name)?)?;
        rest = after;
    }
    Ok(names)
}

/// The names of the list that begins the bytes.
pub(crate) fn names_of(alloc: Global, bytes: &[u8]) -> Result<Names, AllocError>
    ensures { IfOk result (λ names. names ≡ names_of bytes.now) }
{
    let Some((count, rest)) = split_byte(bytes) else {
        return Ok(Names::of(Vec::new(alloc)));
    };
    Ok(Names::of(each_name(alloc, count, rest)?))
}

fn each_long(alloc: Global, count: u8, bytes: &[u8]) -> Result<Vec<u32>, AllocError>
    ensures { IfOk result (λ numbers. numbers.items ≡ things_in front_long count bytes.now) }
{
    let mut numbers = Vec::new(alloc);
    let mut rest = bytes;
    'numbers: for _ in 0..count {
        let Some((number, after)) = split_long(rest) else {
            return Ok(numbers);
        };
        numbers.push(number)?;
        rest = after;
    }
    Ok(numbers)
}

/// The links of the list that begins the bytes.
pub(crate) fn links_of(alloc: Global, bytes: &[u8]) -> Result<Numbers, AllocError>
    ensures { IfOk result (λ links. links ≡ links_of bytes.now) }
{
    let Some((count, rest)) = split_byte(bytes) else {
        return Ok(Numbers::of(Vec::new(alloc)));
    };
    Ok(Numbers::of(each_long(alloc, count, rest)?))
}

/// The side that stands in bytes.
pub(crate) fn side_of(alloc: Global, side: SideAt<'_>) -> Result<Side, AllocError>
    ensures { IfOk result (λ s. s ≡ side_of (side.entry.0, (names_of side.entry.1.0.now, names_of side.entry.1.1.now))) }
{
    let (all, (ids, attributes)) = side;
    let ids = names_of(alloc, ids)?;
    let attributes = names_of(alloc, attributes)?;
    Ok(Side {
        all,
        ids,
        attributes,
    })
}
