ghost use Rattle.std.specs.Prelude.{◌≡◌, ◌∷◌, [], true, decimal, IfOk};
ghost use Rattle.ctrl_model.specs.CircuitCommands.{name_of};
ghost use Rattle.entity_store.specs.EntityTables.{is_entity_kind, entities as entities_of};
ghost use Rattle.policy_advisor.specs.Reports.{router_name};
ghost use Rattle.access_reasons.specs.Reasons.{has_sides, name_parts, names_of, names_with, part};

use crate::findings::{Part, Sides};
use ctrl_model::{Bytes, Items, Kind, Name, RouterNo};
use entity_store::Entities;
use itoa::Buffer;
use policy_advisor::Marked;
use std::alloc::{AllocError, Global};

/// The bytes of a word.
pub(crate) fn word(alloc: Global, word: &str) -> Result<Bytes, AllocError>
    ensures { IfOk result (λ bytes. bytes ≡ word.now) }
{
    Bytes::from_slice(alloc, word.as_bytes())
}

/// The bytes of a name.
pub(crate) fn name_bytes(alloc: Global, name: &Name) -> Result<Bytes, AllocError>
    ensures { IfOk result (λ bytes. bytes ≡ name.now) }
{
    Bytes::from_slice(alloc, name.bytes())
}

/// A number in decimal.
pub(crate) fn decimal(alloc: Global, number: u64) -> Result<Bytes, AllocError>
    ensures { IfOk result (λ bytes. bytes ≡ decimal number) }
{
    let mut buffer = Buffer::new();
    Bytes::from_slice(alloc, buffer.format(number).as_bytes())
}

/// Items under a key.
pub(crate) fn part_of(alloc: Global, key: &str, items: Vec<Bytes>) -> Result<Part, AllocError>
    ensures { IfOk result (λ p. p ≡ part key.now items.items) }
{
    let key = word(alloc, key)?;
    Ok(Part {
        key,
        items: Items::of(items),
    })
}

/// One item under a key.
pub(crate) fn part_of_one(alloc: Global, key: &str, item: Bytes) -> Result<Part, AllocError>
    ensures { IfOk result (λ p. p ≡ part key.now (item ∷ [])) }
{
    let mut items = Vec::new(alloc);
    items.push(item)?;
    part_of(alloc, key, items)
}

/// Of a name that is asked for: the name.
pub(crate) fn name_parts(alloc: Global, name: &Name) -> Result<Vec<Part>, AllocError>
    ensures { IfOk result (λ ps. ps.items ≡ name_parts name.now) }
{
    let mut parts = Vec::new(alloc);
    parts.push(part_of_one(alloc, "name", name_bytes(alloc, name)?)?)?;
    Ok(parts)
}

/// The name of the entity of a number; empty where it is absent.
pub(crate) fn entity_bytes(
    alloc: Global,
    entities: &Entities,
    kind: Kind,
    number: u32,
) -> Result<Bytes, AllocError>
    requires { is_entity_kind kind ≡ true }
    ensures { IfOk result (λ bytes. bytes ≡ name_of (entities_of kind entities.now) number) }
{
    match entities.entity(kind, number) {
        Some(entity) => name_bytes(alloc, entity.name),
        None => word(alloc, ""),
    }
}

/// The name of the router of a number; empty where it is absent.
pub(crate) fn router_bytes(
    alloc: Global,
    entities: &Entities,
    number: u32,
) -> Result<Bytes, AllocError>
    ensures { IfOk result (λ bytes. bytes ≡ router_name entities.now.routers.rows number) }
{
    match entities.router(RouterNo(number)) {
        Some(router) => name_bytes(alloc, router.name),
        None => word(alloc, ""),
    }
}

/// The names of the routers of some numbers.
pub(crate) fn router_names(
    alloc: Global,
    entities: &Entities,
    numbers: &[u32],
) -> Result<Vec<Bytes>, AllocError>
    ensures { IfOk result (λ v. v.items ≡ names_of entities.now.routers.rows numbers.now) }
{
    let mut names = Vec::new(alloc);
    'numbers: for number in numbers {
        names.push(router_bytes(alloc, entities, *number)?)?;
    }
    Ok(names)
}

/// The routers of some numbers under a key, by their names.
pub(crate) fn router_part(
    alloc: Global,
    key: &str,
    entities: &Entities,
    numbers: &[u32],
) -> Result<Part, AllocError>
    ensures { IfOk result (λ p. p ≡ part key.now (names_of entities.now.routers.rows numbers.now)) }
{
    let names = router_names(alloc, entities, numbers)?;
    part_of(alloc, key, names)
}

// Whether exactly these sides of a policy match.
fn has_sides(sides: Sides, mark: &Marked) -> bool
    ensures { result ≡ has_sides sides mark.now }
{
    match sides {
        Sides::Both => mark.left && mark.right,
        Sides::IdentityOnly => mark.left && !mark.right,
        Sides::ServiceOnly => !mark.left && mark.right,
    }
}

// The names of the policies of which exactly these sides match.
fn names_with(alloc: Global, sides: Sides, marks: &[Marked]) -> Result<Vec<Bytes>, AllocError>
    ensures { IfOk result (λ v. v.items ≡ names_with sides marks.now) }
{
    let mut names = Vec::new(alloc);
    'marks: for mark in marks {
        if has_sides(sides, mark) {
            names.push(name_bytes(alloc, &mark.name)?)?;
        }
    }
    Ok(names)
}

/// The policies under a key of which exactly these sides match, by their names.
pub(crate) fn marks_part(
    alloc: Global,
    key: &str,
    sides: Sides,
    marks: &[Marked],
) -> Result<Part, AllocError>
    ensures { IfOk result (λ p. p ≡ part key.now (names_with sides marks.now)) }
{
    let names = names_with(alloc, sides, marks)?;
    part_of(alloc, key, names)
}
