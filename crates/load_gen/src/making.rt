ghost use Rattle.std.specs.Prelude.{◌≡◌, ◌<◌, ◌==◌, ◌∷◌, [], codes, if◌then◌else◌, IfOk, OnOk, MatchOption};
ghost use Rattle.ctrl_model.specs.declared.commands.Command.TheVariants as command;
ghost use Rattle.load_gen.specs.Draws.{for_each_to};
ghost use Rattle.load_gen.specs.LoadCommands.{numbered, an_identity, a_service, a_router, a_link, a_service_policy, an_edge_router_policy, a_service_edge_router_policy, a_terminator, a_request, request_of, a_circuit, a_changed_identity, a_changed_cost, a_disconnection, a_connection, made_for, whole_load, load_commands};
ghost use Rattle.load_gen.specs.LoadFrames.{load_frames, AreMeant};
ghost use Rattle.load_gen.specs.LoadSteps.{Adds, IsDrawn, Pushes};

use crate::drawing::{draw, drawn_name, push};
use crate::groups::Group;
use crate::naming::{
    everything, no_instance, numbered, one_attribute, two_attributes, with_attributes,
};
use channel_frame::{Frame, Frames};
use ctrl_model::{Command, Precedence, Relation, Semantic};
use rand_core::SeedableRng;
use rand_pcg::Lcg64Xsh32;
use std::alloc::{AllocError, Global};

fn identity(alloc: Global, rng: &mut Lcg64Xsh32, i: u32) -> Result<Command, AllocError>
    ensures { IfOk result (λ c. IsDrawn (an_identity i) rng.old rng.new c) }
{
    let g = draw(rng, 8);
    let h = draw(rng, 8);
    let name = numbered(alloc, "u", i)?;
    let attributes = two_attributes(alloc, g, h)?;
    Ok(Command::CreateIdentity { name, attributes })
}

fn service(alloc: Global, rng: &mut Lcg64Xsh32, i: u32) -> Result<Command, AllocError>
    ensures { IfOk result (λ c. IsDrawn (a_service i) rng.old rng.new c) }
{
    let c = draw(rng, 4);
    let name = numbered(alloc, "s", i)?;
    let attributes = one_attribute(alloc, "c", c)?;
    Ok(Command::CreateService { name, attributes })
}

fn push_made_router(
    alloc: Global,
    frames: &mut Vec<Frame>,
    i: u32,
    e: u32,
    cost: u32,
    no_traversal: bool,
) -> Result<(), AllocError>
    requires { cost < 100 }
    ensures { OnOk result (Pushes frames.old.items frames.new.items (command.CreateRouter (numbered (codes "r") i) (numbered (codes "e") e ∷ []) cost no_traversal ∷ [])) }
{
    let name = numbered(alloc, "r", i)?;
    let attributes = one_attribute(alloc, "e", e)?;
    push(
        alloc,
        frames,
        Command::CreateRouter {
            name,
            attributes,
            cost,
            no_traversal,
        },
    )
}

fn push_connected_router(alloc: Global, frames: &mut Vec<Frame>, i: u32) -> Result<(), AllocError>
    ensures { OnOk result (Pushes frames.old.items frames.new.items (command.ConnectRouter (numbered (codes "r") i) ∷ [])) }
{
    let name = numbered(alloc, "r", i)?;
    push(alloc, frames, Command::ConnectRouter { name })
}

// A router is made and then connected.
fn add_router(
    alloc: Global,
    rng: &mut Lcg64Xsh32,
    frames: &mut Vec<Frame>,
    i: u32,
) -> Result<(), AllocError>
    ensures { OnOk result (Adds frames.old.items rng.old frames.new.items rng.new (a_router i)) }
{
    let e = draw(rng, 3);
    let cost = draw(rng, 100);
    let passed = draw(rng, 6);
    push_made_router(alloc, frames, i, e, cost, passed == 0)?;
    push_connected_router(alloc, frames, i)
}

fn link(alloc: Global, rng: &mut Lcg64Xsh32, i: u32) -> Result<Command, AllocError>
    ensures { IfOk result (λ c. IsDrawn (a_link i) rng.old rng.new c) }
{
    let first = draw(rng, 12);
    let second = draw(rng, 12);
    let cost = draw(rng, 100);
    let name = numbered(alloc, "l", i)?;
    let a = numbered(alloc, "r", 1 + first)?;
    let b = numbered(alloc, "r", 1 + second)?;
    Ok(Command::CreateLink {
        name,
        a,
        b,
        cost: 1 + cost,
        latency_a: 0,
        latency_b: 0,
    })
}

fn relation_of(drawn: u32) -> Relation
    ensures { result ≡ (if drawn == 0 then Relation.Bind else Relation.Dial) }
{
    if drawn == 0 {
        Relation::Bind
    } else {
        Relation::Dial
    }
}

fn semantic_of(drawn: u32) -> Semantic
    ensures { result ≡ (if drawn == 0 then Semantic.AnyOf else Semantic.AllOf) }
{
    if drawn == 0 {
        Semantic::AnyOf
    } else {
        Semantic::AllOf
    }
}

fn service_policy(alloc: Global, rng: &mut Lcg64Xsh32, i: u32) -> Result<Command, AllocError>
    ensures { IfOk result (λ c. IsDrawn (a_service_policy i) rng.old rng.new c) }
{
    let relation = draw(rng, 4);
    let semantic = draw(rng, 2);
    let g = draw(rng, 8);
    let h = draw(rng, 8);
    let c = draw(rng, 4);
    let name = numbered(alloc, "d", i)?;
    let left = two_attributes(alloc, g, h)?;
    let right = one_attribute(alloc, "c", c)?;
    let identity_roles = with_attributes(alloc, left);
    let service_roles = with_attributes(alloc, right);
    Ok(Command::CreateServicePolicy {
        name,
        relation: relation_of(relation),
        semantic: semantic_of(semantic),
        identity_roles,
        service_roles,
    })
}

fn edge_router_policy(alloc: Global, rng: &mut Lcg64Xsh32, i: u32) -> Result<Command, AllocError>
    ensures { IfOk result (λ c. IsDrawn (an_edge_router_policy i) rng.old rng.new c) }
{
    let g = draw(rng, 8);
    let e = draw(rng, 3);
    let name = numbered(alloc, "e", i)?;
    let left = one_attribute(alloc, "g", g)?;
    let right = one_attribute(alloc, "e", e)?;
    let identity_roles = with_attributes(alloc, left);
    let router_roles = with_attributes(alloc, right);
    Ok(Command::CreateEdgeRouterPolicy {
        name,
        semantic: Semantic::AnyOf,
        identity_roles,
        router_roles,
    })
}

fn service_edge_router_policy(
    alloc: Global,
    rng: &mut Lcg64Xsh32,
    i: u32,
) -> Result<Command, AllocError>
    ensures { IfOk result (λ c. IsDrawn (a_service_edge_router_policy i) rng.old rng.new c) }
{
    let c = draw(rng, 4);
    let name = numbered(alloc, "f", i)?;
    let left = one_attribute(alloc, "c", c)?;
    let service_roles = with_attributes(alloc, left);
    let router_roles = everything(alloc);
    Ok(Command::CreateServiceEdgeRouterPolicy {
        name,
        semantic: Semantic::AnyOf,
        service_roles,
        router_roles,
    })
}

fn terminator(alloc: Global, rng: &mut Lcg64Xsh32) -> Result<Command, AllocError>
    ensures { IfOk result (λ c. IsDrawn a_terminator rng.old rng.new c) }
{
    let service = drawn_name(alloc, rng, "s", 40)?;
    let router = drawn_name(alloc, rng, "r", 12)?;
    let cost = draw(rng, 200);
    let instance = no_instance(alloc)?;
    Ok(Command::CreateTerminator {
        service,
        router,
        instance,
        host: None,
        cost,
        precedence: Precedence::Normal,
    })
}

fn circuit(alloc: Global, rng: &mut Lcg64Xsh32) -> Result<Command, AllocError>
    ensures { IfOk result (λ c. IsDrawn a_circuit rng.old rng.new c) }
{
    let identity = drawn_name(alloc, rng, "u", 200)?;
    let service = drawn_name(alloc, rng, "s", 40)?;
    let instance = no_instance(alloc)?;
    Ok(Command::CreateCircuit {
        identity,
        service,
        ingress: None,
        instance,
    })
}

fn changed_identity(alloc: Global, rng: &mut Lcg64Xsh32) -> Result<Command, AllocError>
    ensures { IfOk result (λ c. IsDrawn a_changed_identity rng.old rng.new c) }
{
    let name = drawn_name(alloc, rng, "u", 200)?;
    let g = draw(rng, 8);
    let h = draw(rng, 8);
    let attributes = two_attributes(alloc, g, h)?;
    Ok(Command::UpdateIdentity { name, attributes })
}

fn changed_cost(alloc: Global, rng: &mut Lcg64Xsh32) -> Result<Command, AllocError>
    ensures { IfOk result (λ c. IsDrawn a_changed_cost rng.old rng.new c) }
{
    let link = drawn_name(alloc, rng, "l", 30)?;
    let cost = draw(rng, 100);
    Ok(Command::SetLinkCost {
        link,
        cost: 1 + cost,
    })
}

fn disconnection(alloc: Global, rng: &mut Lcg64Xsh32) -> Result<Command, AllocError>
    ensures { IfOk result (λ c. IsDrawn a_disconnection rng.old rng.new c) }
{
    let name = drawn_name(alloc, rng, "r", 12)?;
    Ok(Command::DisconnectRouter { name })
}

fn connection(alloc: Global, rng: &mut Lcg64Xsh32) -> Result<Command, AllocError>
    ensures { IfOk result (λ c. IsDrawn a_connection rng.old rng.new c) }
{
    let name = drawn_name(alloc, rng, "r", 12)?;
    Ok(Command::ConnectRouter { name })
}

fn request_of(alloc: Global, rng: &mut Lcg64Xsh32, kind: u32) -> Result<Command, AllocError>
    ensures { IfOk result (λ c. IsDrawn (request_of kind) rng.old rng.new c) }
{
    if kind <= 5 {
        circuit(alloc, rng)
    } else if kind == 6 {
        changed_identity(alloc, rng)
    } else if kind == 7 {
        changed_cost(alloc, rng)
    } else if kind == 8 {
        disconnection(alloc, rng)
    } else {
        connection(alloc, rng)
    }
}

fn request(alloc: Global, rng: &mut Lcg64Xsh32) -> Result<Command, AllocError>
    ensures { IfOk result (λ c. IsDrawn a_request rng.old rng.new c) }
{
    let kind = draw(rng, 10);
    request_of(alloc, rng, kind)
}

// The one command of a place in a group. None is drawn for a router, which has two.
fn one_for(
    alloc: Global,
    rng: &mut Lcg64Xsh32,
    group: Group,
    i: u32,
) -> Result<Option<Command>, AllocError>
    ensures { IfOk result (λ o. MatchOption o ((group ≡ Group.Routers) × (rng.new ≡ rng.old)) (λ c. IsDrawn (made_for group i) rng.old rng.new c)) }
{
    match group {
        Group::Identities => Ok(Some(identity(alloc, rng, i)?)),
        Group::Services => Ok(Some(service(alloc, rng, i)?)),
        Group::Routers => Ok(None),
        Group::Links => Ok(Some(link(alloc, rng, i)?)),
        Group::ServicePolicies => Ok(Some(service_policy(alloc, rng, i)?)),
        Group::EdgeRouterPolicies => Ok(Some(edge_router_policy(alloc, rng, i)?)),
        Group::ServiceEdgeRouterPolicies => Ok(Some(service_edge_router_policy(alloc, rng, i)?)),
        Group::Terminators => Ok(Some(terminator(alloc, rng)?)),
        Group::Requests => Ok(Some(request(alloc, rng)?)),
    }
}

// What is made for a place in a group.
fn add_for(
    alloc: Global,
    rng: &mut Lcg64Xsh32,
    frames: &mut Vec<Frame>,
    group: Group,
    i: u32,
) -> Result<(), AllocError>
    ensures { OnOk result (Adds frames.old.items rng.old frames.new.items rng.new (made_for group i)) }
{
    match one_for(alloc, rng, group, i)? {
        Some(command) => push(alloc, frames, command),
        None => add_router(alloc, rng, frames, i),
    }
}

// A group, for each place up to the count.
fn add_group(
    alloc: Global,
    rng: &mut Lcg64Xsh32,
    frames: &mut Vec<Frame>,
    group: Group,
    count: u32,
) -> Result<(), AllocError>
    ensures { OnOk result (Adds frames.old.items rng.old frames.new.items rng.new (for_each_to count (made_for group))) }
{
    'places: for place in 0..count {
        add_for(alloc, rng, frames, group, place + 1)?;
    }
    Ok(())
}

fn add_all(alloc: Global, rng: &mut Lcg64Xsh32, frames: &mut Vec<Frame>) -> Result<(), AllocError>
    ensures { OnOk result (Adds frames.old.items rng.old frames.new.items rng.new whole_load) }
{
    add_group(alloc, rng, frames, Group::Identities, 200)?;
    add_group(alloc, rng, frames, Group::Services, 40)?;
    add_group(alloc, rng, frames, Group::Routers, 12)?;
    add_group(alloc, rng, frames, Group::Links, 30)?;
    add_group(alloc, rng, frames, Group::ServicePolicies, 20)?;
    add_group(alloc, rng, frames, Group::EdgeRouterPolicies, 6)?;
    add_group(alloc, rng, frames, Group::ServiceEdgeRouterPolicies, 4)?;
    add_group(alloc, rng, frames, Group::Terminators, 40)?;
    add_group(alloc, rng, frames, Group::Requests, 1_000)
}

/// The frames of the load of a number: 1,364 commands, each as a frame with its content type, no headers, its place from 0 as
/// sequence and the body that is written for it. They are drawn from the generator of the number, group by group
/// (docs/FORMATS.md, "The load generator"). Some of the commands will be refused.
pub fn make(alloc: Global, number: u32) -> Result<Frames, AllocError>
    ensures frames { IfOk result (λ fs. fs ≡ load_frames number) }
    // Each body means its command.
    ensures meant { OnOk result (AreMeant (load_commands number)) }
{
    let mut rng = Lcg64Xsh32::seed_from_u64(u64::from(number));
    let mut frames = Vec::new(alloc);
    add_all(alloc, &mut rng, &mut frames)?;
    Ok(Frames::of(frames))
}
