ghost use Rattle.std.specs.Prelude.{◌≡◌, [], ◌∷◌, ◌&&◌, true, None, Some, IfOk};
ghost use Rattle.std.specs.Option.{option_map, option_map_or};
ghost use Rattle.ctrl_model.specs.declared.kinds.Kind.TheVariants as kind;
ghost use Rattle.ctrl_model.specs.Numbered.{at, is_present};
ghost use Rattle.ctrl_model.specs.Settling.{link_stays, terminator_stays};
ghost use Rattle.fallen_records.specs.FallenRecords.{links_at, links_of, ends_on, circuits_on, circuits_through, marked_circuits};
ghost use Rattle.fallen_records.specs.NamedRecords.{state_of, Names, number_unless, marks_of, NamesByEntity, NamesByLink, NamesByTerm};

use circuits::{Circuits, Loss};
use ctrl_model::{IdentityNo, Kind, LinkNo, Numbers, RouterNo, TermNo};
use entity_store::{Entities, EntityChange};
use fabric_graph::{Fabric, LinkChange, LinkRow};
use std::alloc::{AllocError, Global};
use terminators::{Term, TermChange, Terminators};

/// What stands before a change: the entities, the links, the terminators and the circuits.
#[derive(Clone, Copy)]
pub struct Standing<'a> {
    pub entities: &'a Entities,
    pub fabric: &'a Fabric,
    pub terminators: &'a Terminators,
    pub circuits: &'a Circuits,
}

/// What settles after a change: the numbers of the links and of the terminators that go, and of the circuits that do not stay as they are,
/// each ascending.
#[derive(Drop)]
pub struct Fallen {
    pub links: Numbers,
    pub terminators: Numbers,
    pub circuits: Numbers,
}

// No number, where a record stays, and else its own.
fn number_unless(alloc: Global, stays: bool, number: u32) -> Result<Numbers, AllocError>
    ensures { IfOk result (λ ns. ns ≡ number_unless stays number) }
{
    if stays {
        Ok(Numbers::of(Vec::new(alloc)))
    } else {
        Numbers::from_slice(alloc, &[number])
    }
}

// No links and no terminators settle.
fn circuits_alone(alloc: Global, circuits: Numbers) -> Fallen
    ensures { Names [] [] circuits result }
{
    Fallen {
        links: Numbers::of(Vec::new(alloc)),
        terminators: Numbers::of(Vec::new(alloc)),
        circuits,
    }
}

/// Nothing settles.
pub fn nothing(alloc: Global) -> Fallen
    ensures { Names [] [] [] result }
{
    Fallen {
        links: Numbers::of(Vec::new(alloc)),
        terminators: Numbers::of(Vec::new(alloc)),
        circuits: Numbers::of(Vec::new(alloc)),
    }
}

// The circuits that need an entity, some links or some terminators.
fn lost_by(
    alloc: Global,
    standing: &Standing,
    entity: Option<(Kind, u32)>,
    links: &Numbers,
    terminators: &Numbers,
) -> Result<Numbers, AllocError>
    ensures { IfOk result (λ ns. ns ≡ circuits_on entity links.now terminators.now (state_of standing.now)) }
{
    let loss = Loss::Gone {
        entity,
        links,
        terminators,
    };
    standing.circuits.lost(alloc, &loss)
}

// What settles where a link is gone or down: the circuits over it.
fn settled_without_link(
    alloc: Global,
    standing: &Standing,
    link: LinkNo,
) -> Result<Fallen, AllocError>
    ensures { IfOk result (Names [] [] (circuits_on None (link.0 ∷ []) [] (state_of standing.now))) }
{
    let links = Numbers::from_slice(alloc, &[link.0])?;
    let none = Numbers::of(Vec::new(alloc));
    let circuits = lost_by(alloc, standing, None, &links, &none)?;
    Ok(circuits_alone(alloc, circuits))
}

// What settles where a terminator is gone: its circuits.
fn settled_without_term(
    alloc: Global,
    standing: &Standing,
    term: TermNo,
) -> Result<Fallen, AllocError>
    ensures { IfOk result (Names [] [] (circuits_on None [] (term.0 ∷ []) (state_of standing.now))) }
{
    let none = Numbers::of(Vec::new(alloc));
    let terminators = Numbers::from_slice(alloc, &[term.0])?;
    let circuits = lost_by(alloc, standing, None, &none, &terminators)?;
    Ok(circuits_alone(alloc, circuits))
}

// The circuits that enter at a router which is not connected any more, or go over a link at it.
fn circuits_off(alloc: Global, standing: &Standing, router: RouterNo) -> Result<Numbers, AllocError>
    ensures { IfOk result (λ ns. ns ≡ circuits_on (Some (kind.Router, router.0)) (links_at router.0 (state_of standing.now)) [] (state_of standing.now)) }
{
    let links = standing.fabric.links_at(alloc, router)?;
    let none = Numbers::of(Vec::new(alloc));
    lost_by(
        alloc,
        standing,
        Some((Kind::Router, router.0)),
        &links,
        &none,
    )
}

// The circuits that pass through a router which may not be passed through any more.
fn circuits_through(
    alloc: Global,
    standing: &Standing,
    router: RouterNo,
) -> Result<Numbers, AllocError>
    ensures { IfOk result (λ ns. ns ≡ circuits_through router.0 (state_of standing.now)) }
{
    let links = standing.fabric.links_at(alloc, router)?;
    let terminators = standing
        .terminators
        .standing_on(alloc, Kind::Router, router.0)?;
    let loss = Loss::Closed {
        router,
        links: &links,
        terminators: &terminators,
    };
    standing.circuits.lost(alloc, &loss)
}

// Whether a router may be passed through, and whether it is connected, if it is present.
fn marks_of(entities: &Entities, router: RouterNo) -> Option<(bool, bool)>
    ensures { result ≡ option_map marks_of (at entities.now.routers.rows router.0) }
{
    let before = entities.router(router)?;
    Some((before.through, before.connected))
}

// The circuits that go where a router gets other marks.
fn marked_circuits(
    alloc: Global,
    standing: &Standing,
    router: RouterNo,
    through: bool,
    connected: bool,
) -> Result<Numbers, AllocError>
    ensures { IfOk result (λ ns. ns ≡ marked_circuits (at (state_of standing.now).routers.rows router.0) router.0 through connected (state_of standing.now)) }
{
    match marks_of(standing.entities, router) {
        Some((was_through, was_connected)) => {
            if was_connected && !connected {
                circuits_off(alloc, standing, router)
            } else if was_through && !through {
                circuits_through(alloc, standing, router)
            } else {
                Ok(Numbers::of(Vec::new(alloc)))
            }
        }
        None => Ok(Numbers::of(Vec::new(alloc))),
    }
}

// What settles where a router gets other marks.
fn settled_by_marks(
    alloc: Global,
    standing: &Standing,
    router: RouterNo,
    through: bool,
    connected: bool,
) -> Result<Fallen, AllocError>
    ensures { IfOk result (Names [] [] (marked_circuits (at (state_of standing.now).routers.rows router.0) router.0 through connected (state_of standing.now))) }
{
    let circuits = marked_circuits(alloc, standing, router, through, connected)?;
    Ok(circuits_alone(alloc, circuits))
}

// The links at an entity that is gone, if it is a router.
fn links_of(
    alloc: Global,
    standing: &Standing,
    kind: Kind,
    number: u32,
) -> Result<Numbers, AllocError>
    ensures { IfOk result (λ ns. ns ≡ links_of kind number (state_of standing.now)) }
{
    match kind {
        Kind::Router => standing.fabric.links_at(alloc, RouterNo(number)),
        _ => Ok(Numbers::of(Vec::new(alloc))),
    }
}

// What settles where an entity is gone: the links at it, the terminators that stand on it, and the circuits that need one of these.
fn settled_without_entity(
    alloc: Global,
    standing: &Standing,
    kind: Kind,
    number: u32,
) -> Result<Fallen, AllocError>
    ensures { IfOk result (Names (links_of kind number (state_of standing.now)) (ends_on kind number (state_of standing.now))
        (circuits_on (Some (kind, number)) (links_of kind number (state_of standing.now)) (ends_on kind number (state_of standing.now)) (state_of standing.now))) }
{
    let links = links_of(alloc, standing, kind, number)?;
    let terminators = standing.terminators.standing_on(alloc, kind, number)?;
    let circuits = lost_by(alloc, standing, Some((kind, number)), &links, &terminators)?;
    Ok(Fallen {
        links,
        terminators,
        circuits,
    })
}

/// What settles after a change of the entities of a valid state: with one that goes what needs it, and with other marks of a router the
/// circuits that need the old ones (docs/RULES.md, "Settling").
pub fn settled_by_entity(
    alloc: Global,
    standing: &Standing,
    change: &EntityChange,
) -> Result<Fallen, AllocError>
    ensures { IfOk result (NamesByEntity change.now (state_of standing.now)) }
{
    match change {
        EntityChange::Add { .. } => Ok(nothing(alloc)),
        EntityChange::AddRouter { .. } => Ok(nothing(alloc)),
        EntityChange::Describe { .. } => Ok(nothing(alloc)),
        EntityChange::DescribeRouter {
            number,
            through,
            connected,
            ..
        } => settled_by_marks(alloc, standing, RouterNo(*number), *through, *connected),
        EntityChange::Mark {
            number,
            through,
            connected,
            ..
        } => settled_by_marks(alloc, standing, RouterNo(*number), *through, *connected),
        EntityChange::Remove { kind, number, .. } => {
            settled_without_entity(alloc, standing, *kind, *number)
        }
    }
}

// Whether the host of a terminator is present, if it has one.
fn has_host(entities: &Entities, host: Option<IdentityNo>) -> bool
    ensures { result ≡ option_map_or (is_present entities.now.identities.rows) (option_map (λ h. h.0) host) true }
{
    match host {
        Some(identity) => entities.entity(Kind::Identity, identity.0).is_some(),
        None => true,
    }
}

// Whether a router is present.
fn has_router(entities: &Entities, router: RouterNo) -> bool
    ensures { result ≡ is_present entities.now.routers.rows router.0 }
{
    entities.router(router).is_some()
}

// Whether both routers of a link are present.
fn has_ends(standing: &Standing, link: &LinkRow) -> bool
    ensures { result ≡ link_stays (state_of standing.now) (0, link.now) }
{
    has_router(standing.entities, link.a) && has_router(standing.entities, link.b)
}

// Whether the service, the router and the host of a terminator are present.
fn has_places(standing: &Standing, term: &Term) -> bool
    ensures { result ≡ terminator_stays (state_of standing.now) (0, term.now) }
{
    let entities = standing.entities;
    entities.entity(Kind::Service, term.service.0).is_some()
        && has_router(entities, term.router)
        && has_host(entities, term.host)
}

// What settles after a link comes: it goes where one of its routers is absent.
fn settled_with_link(
    alloc: Global,
    standing: &Standing,
    link: &LinkRow,
) -> Result<Fallen, AllocError>
    ensures { IfOk result (Names (number_unless (link_stays (state_of standing.now) (0, link.now)) (state_of standing.now).links.next) [] []) }
{
    let stays = has_ends(standing, link);
    let links = number_unless(alloc, stays, standing.fabric.next())?;
    Ok(Fallen {
        links,
        terminators: Numbers::of(Vec::new(alloc)),
        circuits: Numbers::of(Vec::new(alloc)),
    })
}

/// What settles after a change of the links of a valid state: a new one that does not stay, and with one that is down or goes its circuits.
pub fn settled_by_link(
    alloc: Global,
    standing: &Standing,
    change: &LinkChange,
) -> Result<Fallen, AllocError>
    ensures { IfOk result (NamesByLink change.now (state_of standing.now)) }
{
    match change {
        LinkChange::Add(link) => settled_with_link(alloc, standing, link),
        LinkChange::Set { no, up, .. } => {
            if *up {
                Ok(nothing(alloc))
            } else {
                settled_without_link(alloc, standing, *no)
            }
        }
        LinkChange::Remove(no) => settled_without_link(alloc, standing, *no),
        LinkChange::SetLeast(_) => Ok(nothing(alloc)),
    }
}

// What settles after a terminator comes: it goes where its service, its router or its host is absent.
fn settled_with_term(alloc: Global, standing: &Standing, term: &Term) -> Result<Fallen, AllocError>
    ensures { IfOk result (Names [] (number_unless (terminator_stays (state_of standing.now) (0, term.now)) (state_of standing.now).terminators.next) []) }
{
    let stays = has_places(standing, term);
    let terminators = number_unless(alloc, stays, standing.terminators.next())?;
    Ok(Fallen {
        links: Numbers::of(Vec::new(alloc)),
        terminators,
        circuits: Numbers::of(Vec::new(alloc)),
    })
}

/// What settles after a change of the terminators of a valid state: a new one that does not stay, and with one that goes its circuits.
pub fn settled_by_term(
    alloc: Global,
    standing: &Standing,
    change: &TermChange,
) -> Result<Fallen, AllocError>
    ensures { IfOk result (NamesByTerm change.now (state_of standing.now)) }
{
    match change {
        TermChange::Add(term) => settled_with_term(alloc, standing, term),
        TermChange::Set { .. } => Ok(nothing(alloc)),
        TermChange::Remove(no) => settled_without_term(alloc, standing, *no),
    }
}
