ghost use Rattle.std.specs.Prelude.{◌≡◌, ◌++◌, nat_lt, true, cond, [], ◌∷◌, IfOk, OnOk, map};
ghost use Rattle.ctrl_model.specs.ShowCommands.{tallies};
ghost use Rattle.entity_store.specs.EntityTables.{is_entity_kind, entities};
ghost use Rattle.grant_denorm.specs.PairCounts.{count_of};

use ctrl_model::{Copies, Kind, Name, Tally};
use entity_store::Entities;
use grant_denorm::Counted;
use std::alloc::{AllocError, Global};

/// The entities of a kind that an identity has a count with, each by its name with the count, in the order of their numbers.
pub fn tallies(
    alloc: Global,
    known: &Entities,
    kind: Kind,
    counted: &Counted,
    identity: u32,
) -> Result<Vec<Tally>, AllocError>
    requires { is_entity_kind kind ≡ true }
    ensures { IfOk result (λ ts. ts.items ≡ tallies (count_of counted.now identity) (entities kind known.now)) }
{
    let numbers = known.numbers(alloc, kind)?;
    let mut tallies = Vec::new(alloc);
    'entities: for number in numbers.as_slice() {
        let Some((name, _)) = known.seen(kind, *number) else {
            unreachable!()
        };
        push_tally(&mut tallies, name, counted.count(identity, *number))?;
    }
    Ok(tallies)
}

// Puts an entity with its count behind the others, if it has one.
fn push_tally(tallies: &mut Vec<Tally>, name: &Name, count: u32) -> Result<(), AllocError>
    ensures { OnOk result (tallies.new.items ≡ tallies.old.items ++ cond (nat_lt 0 count) (record { name = name.now; count = count } ∷ []) []) }
{
    if count > 0 {
        let name = name.copy()?;
        tallies.push(Tally { name, count })?;
    }
    Ok(())
}

/// The names of some tallies.
pub fn names_of(alloc: Global, tallies: &[Tally]) -> Result<Vec<Name>, AllocError>
    ensures { IfOk result (λ ns. ns.items ≡ map (λ t. t.name) tallies.now) }
{
    let mut names = Vec::new(alloc);
    'tallies: for tally in tallies {
        names.push(tally.name.copy()?)?;
    }
    Ok(names)
}
