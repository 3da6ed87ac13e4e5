ghost use Rattle.std.specs.Prelude.{◌≡◌, ◌==◌, ◌&&◌, ◌||◌, [], length, IfOk};
ghost use Rattle.record_tables.specs.AfterChange.{changed_by};
ghost use Rattle.entity_store.specs.EntityChanges.{after_entity_change};
ghost use Rattle.fallen_records.specs.FallenRecords.{Falls};
ghost use Rattle.core_stores.specs.ChangeParts.{entity_part};
ghost use Rattle.policy_store.specs.StepsOfRelations.{takes_nothing};
ghost use Rattle.circuit_settling.specs.PresentRecords.{Remains};
ghost use Rattle.grant_steps.specs.LeadingSteps.{LeadAllCounts};
ghost use Rattle.core_stores.specs.StoredState.{state_of};
ghost use Rattle.ctrl_core.specs.ChangedStores.{CanSettle, next_state};
ghost use Rattle.ctrl_core.specs.KeptState.{Keeps, IsGranted};
ghost use Rattle.ctrl_core.specs.Changes.{after_change};
ghost use Rattle.ctrl_core.specs.LookedCircuits.{LooksAt};
ghost use Rattle.ctrl_core.specs.SettledParts.{bare_state_of, NamesBy, AreGrantsAfter};
ghost use Rattle.ctrl_core.specs.PlannedCommands.{Stands};
ghost use Rattle.ctrl_core.specs.SettledRecords.{AreJudged, AreSettled};

use circuit_settling::{
    GrantsAfter, Judged, Look, Present, Remaining, emptied_pairs, goes_none, going_by,
    grants_after, has_no_pair, judged, looked_at, remaining_of,
};
use circuits::{CircuitsAfter, Moves};
use core_stores::{Change, Settled, Stores};
use ctrl_model::Numbers;
use entity_store::EntitiesAfter;
use fabric_graph::FabricAfter;
use fallen_records::{
    Fallen, Standing, nothing, settled_by_entity, settled_by_link, settled_by_term,
};
use policy_store::GrantSteps;
use std::alloc::{AllocError, Global};
use terminators::TerminatorsAfter;

// What falls after a change, found from what the change takes away.
fn fallen_by(alloc: Global, stores: &Stores, change: &Change) -> Result<Fallen, AllocError>
    ensures { IfOk result (NamesBy change.now (bare_state_of stores.now)) }
{
    let standing = Standing {
        entities: &stores.entities,
        fabric: &stores.fabric,
        terminators: &stores.terminators,
        circuits: &stores.circuits,
    };
    match change {
        Change::Entity(change) => settled_by_entity(alloc, &standing, change),
        Change::Policy(_) | Change::Circuit(_) | Change::Intercept(_) => Ok(nothing(alloc)),
        Change::Link(change) => settled_by_link(alloc, &standing, change),
        Change::Terminator(change) => settled_by_term(alloc, &standing, change),
    }
}

// What circuits need of the entities that there will be after a change.
fn what_remains(alloc: Global, stores: &Stores, change: &Change) -> Result<Remaining, AllocError>
    ensures { IfOk result (Remains (changed_by after_entity_change (entity_part change.now) stores.now.entities)) }
{
    let entities = EntitiesAfter::new(&stores.entities, change.of_entities());
    remaining_of(alloc, &entities)
}

// Which circuits may not stay as they are after a change that takes the paths of some, by the steps of the counts and by the counts after
// them. Where it is told that what granted each circuit stood before, these are the ones whose path is taken and those that need a pair
// which is granted no more.
fn look_by(
    alloc: Global,
    stores: &Stores,
    change: &Change,
    steps: &GrantSteps,
    after: &GrantsAfter,
    pathless: &Numbers,
    granted: bool,
) -> Result<Look, AllocError>
    requires kept { Keeps stores.now }
    requires can { CanSettle stores.now change.now }
    requires steps { LeadAllCounts (state_of stores.now) (next_state stores.now change.now) steps.now }
    requires counts { AreGrantsAfter (after_change change.now (state_of stores.now)) after.now }
    requires granted { IsGranted granted (state_of stores.now) }
    ensures { IfOk result (LooksAt change.now stores.now pathless.now) }
{
    if !granted {
        return Ok(Look::All);
    }
    // A circuit that comes or goes ends no grant.
    if change.of_circuits().is_some() {
        return Ok(Look::Paths);
    }
    let pairs = emptied_pairs(alloc, after, steps)?;
    if has_no_pair(&pairs) {
        return Ok(Look::Paths);
    }
    let (circuits, terminators) = (&stores.circuits, &stores.terminators);
    let looked = looked_at(alloc, circuits, terminators, &pairs, pathless)?;
    Ok(Look::These(looked))
}

// Whether it is known that what granted each circuit that there was stands: there was none, or no count falls.
fn stays_granted(stores: &Stores, steps: &GrantSteps, granted: bool) -> bool
    ensures { result ≡ (length stores.now.circuits.circuits.rows == 0 || (granted && takes_nothing steps.now)) }
{
    stores.circuits.count() == 0 || (granted && steps.takes_nothing())
}

// What becomes of the circuits that do not stay as they are, beside what remains and what is granted.
fn judged_beside(
    alloc: Global,
    stores: &Stores,
    change: &Change,
    fallen: &Fallen,
    remaining: &Remaining,
    grants: &GrantsAfter,
    look: &Look,
) -> Result<(Numbers, Judged), AllocError>
    requires can { CanSettle stores.now change.now }
    requires falls { Falls (after_change change.now (state_of stores.now)) fallen.now.links fallen.now.terminators fallen.now.circuits }
    requires remains { Remains (changed_by after_entity_change (entity_part change.now) stores.now.entities) remaining.now }
    requires counts { AreGrantsAfter (after_change change.now (state_of stores.now)) grants.now }
    requires looks { LooksAt change.now stores.now fallen.now.circuits look.now }
    requires stands { Stands change.now (state_of stores.now) }
    ensures { IfOk result (λ p. AreJudged (after_change change.now (state_of stores.now)) p.0 p.1) }
{
    let fabric = FabricAfter::new(&stores.fabric, change.of_links(), &fallen.links);
    let ends = change.of_terminators();
    let terminators = TerminatorsAfter::new(&stores.terminators, ends, &fallen.terminators);
    let present = Present {
        identities: &remaining.identities,
        services: &remaining.services,
        terminators: &terminators,
        routers: remaining.routers.as_slice(),
        fabric: &fabric,
    };
    let none = Numbers::of(Vec::new(alloc));
    let stay = Moves::of(Vec::new(alloc));
    let circuits = CircuitsAfter::new(&stores.circuits, change.of_circuits(), &none, &stay);
    let going = going_by(alloc, &circuits, &present, grants, &fallen.circuits, look)?;
    let judged = judged(alloc, &present, grants, &circuits, &going)?;
    Ok((going, judged))
}

// What falls with a change by which each circuit stays as it is.
fn without_circuits(alloc: Global, fallen: Fallen) -> Settled
    ensures links { result.links ≡ fallen.links }
    ensures terminators { result.terminators ≡ fallen.terminators }
    ensures going { result.going ≡ [] }
    ensures ended { result.ended ≡ [] }
    ensures moves { result.moves ≡ [] }
{
    Settled {
        links: fallen.links,
        terminators: fallen.terminators,
        going: Numbers::of(Vec::new(alloc)),
        ended: Numbers::of(Vec::new(alloc)),
        moves: Moves::of(Vec::new(alloc)),
    }
}

// What settles after a change by which these fall, with what becomes of the circuits.
fn with_circuits(
    alloc: Global,
    stores: &Stores,
    change: &Change,
    steps: &GrantSteps,
    fallen: Fallen,
    granted: bool,
) -> Result<Settled, AllocError>
    requires kept { Keeps stores.now }
    requires can { CanSettle stores.now change.now }
    requires falls { Falls (after_change change.now (state_of stores.now)) fallen.links fallen.terminators fallen.circuits }
    requires counts { LeadAllCounts (state_of stores.now) (next_state stores.now change.now) steps.now }
    requires granted { IsGranted granted (state_of stores.now) }
    requires stands { Stands change.now (state_of stores.now) }
    ensures { IfOk result (AreSettled (after_change change.now (state_of stores.now))) }
{
    let grants = grants_after(
        alloc,
        &stores.grants.dial,
        &stores.grants.bind,
        &stores.grants.identity_router,
        &stores.grants.service_router,
        steps,
    )?;
    let look = look_by(
        alloc,
        stores,
        change,
        steps,
        &grants,
        &fallen.circuits,
        granted,
    )?;
    if goes_none(&look, &fallen.circuits) {
        return Ok(without_circuits(alloc, fallen));
    }
    let remaining = what_remains(alloc, stores, change)?;
    let (going, judged) = judged_beside(
        alloc, stores, change, &fallen, &remaining, &grants, &look,
    )?;
    Ok(Settled {
        links: fallen.links,
        terminators: fallen.terminators,
        going,
        ended: judged.ended,
        moves: judged.moves,
    })
}

/// What settling makes of the state after a change, by its numbers. The steps lead the counts to those after the change; a circuit that
/// is added stands; and where it is told that what granted each circuit stood before, only those circuits are looked at whose path the
/// change takes and those that need a pair which is granted no more: where there is none, no entity is listed and no grant of a circuit
/// is looked up, and where there is no circuit or no count falls, no count either. The stores stay.
pub fn settled_by(
    alloc: Global,
    stores: &Stores,
    change: &Change,
    steps: &GrantSteps,
    granted: bool,
) -> Result<Settled, AllocError>
    requires kept { Keeps stores.now }
    requires can { CanSettle stores.now change.now }
    requires counts { LeadAllCounts (state_of stores.now) (next_state stores.now change.now) steps.now }
    requires granted { IsGranted granted (state_of stores.now) }
    requires stands { Stands change.now (state_of stores.now) }
    ensures { IfOk result (AreSettled (after_change change.now (state_of stores.now))) }
{
    let fallen = fallen_by(alloc, stores, change)?;
    if fallen.circuits.is_empty() && stays_granted(stores, steps, granted) {
        return Ok(without_circuits(alloc, fallen));
    }
    with_circuits(alloc, stores, change, steps, fallen, granted)
}
