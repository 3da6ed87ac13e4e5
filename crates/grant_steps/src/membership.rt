ghost use Rattle.std.specs.Prelude.{◌≡◌, true, filter, map, zip, IfOk};
ghost use Rattle.ctrl_model.specs.Matches.{matches};
ghost use Rattle.entity_store.specs.EntityTables.{is_entity_kind, entities};
ghost use Rattle.grant_steps.specs.Members.{members_of};

use ctrl_model::{Kind, Numbers, Semantic, Side};
use entity_store::Entities;
use role_expr::match_all;
use std::alloc::{AllocError, Global};

// The numbers whose places are marked.
fn marked_numbers(alloc: Global, numbers: &[u32], marks: &[bool]) -> Result<Vec<u32>, AllocError>
    ensures { IfOk result (λ v. v.items ≡ map (λ pair. pair.0) (filter (λ pair. pair.1) (zip numbers.now marks.now))) }
{
    numbers
        .iter()
        .copied()
        .zip(marks.iter().copied())
        .filter(|(_, mark)| *mark)
        .map(|(number, _)| number)
        .collect(alloc)
}

// Whether a side matches each of a kind's entities, in the order of their numbers.
fn marks_of(
    alloc: Global,
    side: &Side,
    semantic: Semantic,
    kind: Kind,
    known: &Entities,
) -> Result<Vec<bool>, AllocError>
    requires { is_entity_kind kind ≡ true }
    ensures { IfOk result (λ v. v.items ≡ map (λ row. matches side.now semantic row.1) (entities kind known.now)) }
{
    let lanes = known.lanes(kind);
    let mut marks = vec![in alloc; false; lanes.names.len()]?;
    match_all(
        side,
        semantic,
        lanes.names,
        lanes.rows,
        lanes.pool,
        marks.as_mut_slice(),
    );
    Ok(marks)
}

/// The numbers of a kind's entities that a side matches, ascending. The kind is Identity, Service or Router
/// (docs/RULES.md, "Policies and grants").
pub fn members(
    alloc: Global,
    side: &Side,
    semantic: Semantic,
    kind: Kind,
    known: &Entities,
) -> Result<Numbers, AllocError>
    requires { is_entity_kind kind ≡ true }
    ensures { IfOk result (λ ns. ns ≡ members_of side.now semantic (entities kind known.now)) }
{
    let numbers = known.numbers(alloc, kind)?;
    let marks = marks_of(alloc, side, semantic, kind, known)?;
    let found = marked_numbers(alloc, numbers.as_slice(), marks.as_slice())?;
    Ok(Numbers::of(found))
}
