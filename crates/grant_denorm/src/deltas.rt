ghost use Rattle.std.specs.Prelude.{◌≡◌, ℕ, ◌+◌, ◌++◌, ◌&&◌, cond, filter, not, IfOk, OnOk};
ghost use Rattle.std.specs.List.{flat_map};
ghost use Rattle.ctrl_model.specs.Walks.{is_among};
ghost use Rattle.grant_denorm.specs.PairCounts.{AreThose};
ghost use Rattle.grant_denorm.specs.Deltas.{ups, downs, has_pair, policy_ups, policy_downs, entity_ups, entity_downs};
ghost use Rattle.grant_denorm.specs.Steps.{steps_of_row, steps_of_rows, steps_of_turn, steps_of_pair};

use ctrl_model::Numbers;
use std::alloc::{AllocError, Global};

/// A step of the count of one pair, up or down.
#[derive(Clone, Copy, PartialEq, Eq)]
pub struct Delta {
    pub a: u32,
    pub b: u32,
    pub up: bool,
}

/// The members of a policy's two sides, whose product are the pairs that it grants.
#[derive(Drop)]
pub struct Cross {
    pub left: Numbers,
    pub right: Numbers,
}

/// What one policy grants an entity from a change on, or grants it no more: the entities that it is paired with.
#[derive(Drop)]
pub struct Turn {
    pub up: bool,
    pub partners: Numbers,
}

fn is_among(number: u32, numbers: &[u32]) -> bool
    ensures { result ≡ is_among number numbers.now }
{
    'numbers: for other in numbers {
        if *other == number {
            return true;
        }
    }
    false
}

// The members, ascending and without repeats.
fn distinct(alloc: Global, members: &[u32]) -> Result<Vec<u32>, AllocError>
    ensures { IfOk result (λ v. AreThose (λ n. is_among n members.now) v.items) }
{
    let mut ascending = Vec::from_slice(alloc, members)?;
    ascending.sort_unstable();
    ascending.dedup();
    Ok(ascending)
}

// Those numbers that are not among others.
fn without(alloc: Global, numbers: &[u32], others: &[u32]) -> Result<Vec<u32>, AllocError>
    ensures { IfOk result (λ v. v.items ≡ filter (λ n. not (is_among n others.now)) numbers.now) }
{
    let mut kept = Vec::new(alloc);
    'numbers: for number in numbers {
        if !is_among(*number, others) {
            kept.push(*number)?;
        }
    }
    Ok(kept)
}

// A step for each pair of one left number and some right ones.
fn push_row(deltas: &mut Vec<Delta>, a: u32, rights: &[u32], up: bool) -> Result<(), AllocError>
    ensures { OnOk result (deltas.new.items ≡ deltas.old.items ++ steps_of_row up rights.now a) }
{
    'rights: for right in rights {
        deltas.push(Delta { a, b: *right, up })?;
    }
    Ok(())
}

// A step for each pair of the left numbers and the right ones, of which those left numbers that are among others have only
// the fresh ones.
fn push_rows(
    deltas: &mut Vec<Delta>,
    lefts: &[u32],
    rights: &[u32],
    others: &[u32],
    fresh: &[u32],
    up: bool,
) -> Result<(), AllocError>
    ensures { OnOk result (deltas.new.items ≡ deltas.old.items ++ steps_of_rows up others.now rights.now fresh.now lefts.now) }
{
    'lefts: for left in lefts {
        if is_among(*left, others) {
            push_row(deltas, *left, fresh, up)?;
        } else {
            push_row(deltas, *left, rights, up)?;
        }
    }
    Ok(())
}

// A step for each pair of the one product that is not in the other.
fn push_missing(
    alloc: Global,
    deltas: &mut Vec<Delta>,
    from: &Cross,
    other: &Cross,
    up: bool,
) -> Result<(), AllocError>
    ensures up { OnOk result ((a b : ℕ) → ups deltas.new.items a b
        ≡ ups deltas.old.items a b + cond up (cond (has_pair from.now a b && not (has_pair other.now a b)) 1 0) 0) }
    ensures down { OnOk result ((a b : ℕ) → downs deltas.new.items a b
        ≡ downs deltas.old.items a b + cond (not up) (cond (has_pair from.now a b && not (has_pair other.now a b)) 1 0) 0) }
{
    let lefts = distinct(alloc, from.left.as_slice())?;
    let rights = distinct(alloc, from.right.as_slice())?;
    let fresh = without(alloc, rights.as_slice(), other.right.as_slice())?;
    push_rows(
        deltas,
        lefts.as_slice(),
        rights.as_slice(),
        other.left.as_slice(),
        fresh.as_slice(),
        up,
    )?;
    Ok(())
}

/// The steps of a policy's change: one for each pair that is in one product and not in the other, whatever the order and the
/// repeats of the members. The order of the steps is open.
pub fn deltas_policy(alloc: Global, before: &Cross, after: &Cross) -> Result<Vec<Delta>, AllocError>
    ensures up { IfOk result (λ ds. (a b : ℕ) → ups ds.items a b ≡ policy_ups before.now after.now a b) }
    ensures down { IfOk result (λ ds. (a b : ℕ) → downs ds.items a b ≡ policy_downs before.now after.now a b) }
{
    let mut deltas = Vec::new(alloc);
    push_missing(alloc, &mut deltas, before, after, false)?;
    push_missing(alloc, &mut deltas, after, before, true)?;
    Ok(deltas)
}

fn step_of_pair(x: u32, on_left: bool, up: bool, partner: u32) -> Delta
    ensures { result ≡ steps_of_pair x on_left up partner }
{
    if on_left {
        Delta {
            a: x,
            b: partner,
            up,
        }
    } else {
        Delta {
            a: partner,
            b: x,
            up,
        }
    }
}

fn push_turn(deltas: &mut Vec<Delta>, x: u32, on_left: bool, turn: &Turn) -> Result<(), AllocError>
    ensures { OnOk result (deltas.new.items ≡ deltas.old.items ++ steps_of_turn x on_left turn.now) }
{
    let partners = turn.partners.as_slice();
    'partners: for partner in partners {
        deltas.push(step_of_pair(x, on_left, turn.up, *partner))?;
    }
    Ok(())
}

fn list_turns(
    alloc: Global,
    x: u32,
    on_left: bool,
    turns: &[Turn],
) -> Result<Vec<Delta>, AllocError>
    ensures { IfOk result (λ ds. ds.items ≡ flat_map (steps_of_turn x on_left) turns.now) }
{
    let mut deltas = Vec::new(alloc);
    'turns: for turn in turns {
        push_turn(&mut deltas, x, on_left, turn)?;
    }
    Ok(deltas)
}

/// The steps of an entity's change: one for each turn and each of its partners. The order of the steps is open.
pub fn deltas_entity(
    alloc: Global,
    x: u32,
    on_left: bool,
    turns: &[Turn],
) -> Result<Vec<Delta>, AllocError>
    ensures up { IfOk result (λ ds. (a b : ℕ) → ups ds.items a b ≡ entity_ups x on_left turns.now a b) }
    ensures down { IfOk result (λ ds. (a b : ℕ) → downs ds.items a b ≡ entity_downs x on_left turns.now a b) }
{
    let deltas = list_turns(alloc, x, on_left, turns)?;
    Ok(deltas)
}
