//! Lists of numbers: of the pairs that are counted, and of policies.

use crate::checks::are_numbers;
use ctrl_model::{Kind, Name, Names, Relation, Semantic, Side};
use grant_denorm::Counted;
use policy_store::{Policies, Policy};
use std::alloc::{AllocError, Global};
use std::process::Abort;
use std::test::Fail;

fn lists(rt: &impl Abort, alloc: Global, counted: &Counted) -> Result<(), AllocError> {
    are_numbers(rt, counted.row(alloc, 2)?.as_slice(), &[5, 6]);
    are_numbers(rt, counted.column(alloc, 5)?.as_slice(), &[2, 3]);
    assert!(rt; counted.copy()?.pairs() == 3);
    Ok(())
}

fn three_pairs(alloc: Global) -> Result<Counted, AllocError> {
    let mut counted = Counted::new(alloc);
    'pairs: for (a, b) in [(2, 5), (2, 6), (3, 5)] {
        if counted.count(a, b) == 0 {
            counted.raise(a, b)?;
        }
    }
    Ok(counted)
}

#[test]
fn lists_the_pairs_of_a_number(rt: HostRuntime) -> Result<(), Fail> {
    let counted = three_pairs(rt.alloc())?;
    lists(&rt, rt.alloc(), &counted)?;
    Ok(())
}

fn everyone(alloc: Global) -> Side {
    Side {
        all: true,
        ids: Names::of(Vec::new(alloc)),
        attributes: Names::of(Vec::new(alloc)),
    }
}

// The policy of this name by which all may dial all.
fn policy(alloc: Global, name: Name) -> Policy {
    Policy {
        name,
        relation: Relation::Dial,
        semantic: Semantic::AnyOf,
        left: everyone(alloc),
        right: everyone(alloc),
    }
}

// Puts a policy as a caller has to: its name is free, and there is room.
fn put(store: &mut Policies, policy: Policy) -> Result<(), AllocError> {
    let kind = Kind::ServicePolicy;
    if store.number_of(kind, &policy.name).is_none() && store.has_room(kind) {
        store.put(kind, policy, true)?;
    }
    Ok(())
}

// Puts a policy of the name p.
fn put_named(store: &mut Policies, alloc: Global) -> Result<(), Fail> {
    let name = Name::of(alloc, b"p")?;
    put(store, policy(alloc, name))?;
    Ok(())
}

fn lists_one(rt: &impl Abort, alloc: Global, store: &Policies) -> Result<(), AllocError> {
    let numbers = store.numbers(alloc, Kind::ServicePolicy)?;
    are_numbers(rt, numbers.as_slice(), &[1]);
    Ok(())
}

#[test]
fn lists_the_numbers_of_policies(rt: HostRuntime) -> Result<(), Fail> {
    let mut store = Policies::new(rt.alloc());
    put_named(&mut store, rt.alloc())?;
    lists_one(&rt, rt.alloc(), &store)?;
    Ok(())
}
