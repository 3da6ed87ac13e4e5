//! Copies of stores: what is kept of each is in its copy.

use crate::checks::are_numbers;
use crate::lines::{line, offered};
use fabric_graph::Fabric;
use std::alloc::Global;
use std::process::Abort;
use std::test::Fail;
use terminators::Terminators;

fn has_both_links(rt: &impl Abort, alloc: Global, fabric: &Fabric) -> Result<(), Fail> {
    let copied = fabric.copy()?;
    are_numbers(rt, copied.numbers(alloc)?.as_slice(), &[1, 2]);
    Ok(())
}

#[test]
fn copies_links(rt: HostRuntime) -> Result<(), Fail> {
    let fabric = line(rt.alloc())?;
    has_both_links(&rt, rt.alloc(), &fabric)
}

fn has_the_offer(rt: &impl Abort, alloc: Global, store: &Terminators) -> Result<(), Fail> {
    let copied = store.copy()?;
    are_numbers(rt, copied.numbers(alloc)?.as_slice(), &[1]);
    Ok(())
}

#[test]
fn copies_terminators(rt: HostRuntime) -> Result<(), Fail> {
    let store = offered(rt.alloc())?;
    has_the_offer(&rt, rt.alloc(), &store)
}
