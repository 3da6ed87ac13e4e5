ghost use Rattle.std.specs.Prelude.{◌≡◌, ◌==◌, true, false, cond, None, Some, IfOk, IfErr, OnErr, MatchOption};
ghost use Rattle.ctrl_model.specs.SpelledCommands.{is_spelled};
ghost use Rattle.ctrl_model.specs.ValueForms.{is_link_cost, is_latency};
ghost use Rattle.ctrl_model.specs.Controller.{carry};
ghost use Rattle.ctrl_model.specs.LinkCommands.{create_link, set_link_cost, report_latency, report_state, delete_link, set_least_router_cost};
ghost use Rattle.ctrl_model.specs.State.{State, link_named, router_named};
ghost use Rattle.ctrl_model.specs.ValidState.{ValidState};
ghost use Rattle.entity_store.specs.EntityTables.{Tables};
ghost use Rattle.fabric_graph.specs.FabricTables.{FabricSeen};
ghost use Rattle.link_commands.specs.LinkChanges.{over};
ghost use Rattle.link_commands.specs.LinkPlans.{is_link_command, PlansLinks, TellsChange};
ghost use Rattle.link_commands.specs.PlannedLinks.{Answers, Joins, RefusesJoin, IsLink, Reports, RefusesReport, end_of};

use ctrl_model::{Command, Copies, Field, Kind, LinkNo, Name, Refusal, Reply, RouterNo};
use entity_store::Entities;
use fabric_graph::{Fabric, FabricFault, LinkChange, LinkRow};
use model_laws::Plan;
use std::alloc::AllocError;

fn router_named(entities: &Entities, name: &Name) -> Option<u32>
    ensures { result ≡ router_named entities.now.routers.rows name.now }
{
    entities.find(Kind::Router, name).ok()
}

// The link of the name, with its number.
fn link_named<'a>(fabric: &'a Fabric, name: &Name) -> Option<(LinkNo, &'a LinkRow)>
    ensures { MatchOption result (link_named fabric.now.links.rows name.now ≡ None)
        (λ row. IsLink name.now fabric.now row.0.0 row.1.now) }
{
    let no = fabric.find(name).ok()?;
    let link = fabric.link(no).unwrap();
    Some((no, link))
}

// The two routers that a new link of the name may join, or why it may not.
fn joined(
    entities: &Entities,
    fabric: &Fabric,
    name: &Name,
    a: &Name,
    b: &Name,
) -> Result<(RouterNo, RouterNo), Refusal>
    ensures joins { IfOk result (λ ends. Joins name.now a.now b.now entities.now fabric.now ends.0.0 ends.1.0) }
    ensures refuses { IfErr result (RefusesJoin name.now a.now b.now entities.now fabric.now) }
{
    if fabric.find(name).is_ok() {
        return Err(Refusal::Exists);
    }
    let Some(from) = router_named(entities, a) else {
        return Err(Refusal::Unknown { field: Field::A });
    };
    let Some(to) = router_named(entities, b) else {
        return Err(Refusal::Unknown { field: Field::B });
    };
    let ends = (RouterNo(from), RouterNo(to));
    match fabric.may_add(name, ends.0, ends.1) {
        Ok(()) => Ok(ends),
        Err(FabricFault::Full) => Err(Refusal::Full { kind: Kind::Link }),
        Err(FabricFault::SameRouter) => Err(Refusal::SameRouter),
        Err(_) => unreachable!(),
    }
}

// Plans a link between two routers, up.
fn plan_create_link(
    entities: &Entities,
    fabric: &Fabric,
    name: &Name,
    a: &Name,
    b: &Name,
    cost: u32,
    latency_a: u32,
    latency_b: u32,
) -> Result<Plan<LinkChange>, AllocError>
    requires cost { is_link_cost cost ≡ true }
    requires latency_a { is_latency latency_a ≡ true }
    requires latency_b { is_latency latency_b ≡ true }
    ensures plan { IfOk result (Answers (create_link name.now a.now b.now cost latency_a latency_b) entities.now fabric.now) }
    ensures memory { OnErr result (TellsChange (create_link name.now a.now b.now cost latency_a latency_b) entities.now fabric.now) }
{
    let (a, b) = match joined(entities, fabric, name, a, b) {
        Ok(ends) => ends,
        Err(refusal) => return Ok(Plan::refused(refusal)),
    };
    let name = name.copy()?;
    let link = LinkRow {
        name,
        a,
        b,
        cost,
        latency_a,
        latency_b,
        up: true,
    };
    let number = fabric.next();
    Ok(Plan::changed(Reply::Made { no: number }, LinkChange::Add(link)))
}

// Plans another static cost of a link.
fn plan_set_link_cost(fabric: &Fabric, link: &Name, cost: u32) -> Plan<LinkChange>
    requires { is_link_cost cost ≡ true }
    ensures { (t : Tables) → Answers (set_link_cost link.now cost) t fabric.now result }
{
    let Some((no, row)) = link_named(fabric, link) else {
        return Plan::refused(Refusal::Unknown { field: Field::Link });
    };
    let change = LinkChange::Set {
        no,
        cost,
        latency_a: row.latency_a,
        latency_b: row.latency_b,
        up: row.up,
    };
    Plan::changed(Reply::Done, change)
}

// The number of the router of the name, if it is an end of the link.
fn end_of(entities: &Entities, link: &LinkRow, router: &Name) -> Option<u32>
    ensures { result ≡ end_of router.now link.now entities.now }
{
    let number = router_named(entities, router)?;
    if link.a.0 == number || link.b.0 == number {
        Some(number)
    } else {
        None
    }
}

// The link that a router reports of, with its number and the router's, or why the report is refused.
fn reported<'a>(
    entities: &Entities,
    fabric: &'a Fabric,
    link: &Name,
    router: &Name,
) -> Result<(LinkNo, &'a LinkRow, u32), Refusal>
    ensures reports { IfOk result (λ w. Reports link.now router.now entities.now fabric.now w.0.0 w.1.now w.2) }
    ensures refuses { IfErr result (RefusesReport link.now router.now entities.now fabric.now) }
{
    let Some((no, row)) = link_named(fabric, link) else {
        return Err(Refusal::Unknown { field: Field::Link });
    };
    match end_of(entities, row, router) {
        Some(reporter) => Ok((no, row, reporter)),
        None => Err(Refusal::Unknown {
            field: Field::Router,
        }),
    }
}

// The latency of an end of a link, of which a router reports one.
fn latency_at(end: RouterNo, reporter: u32, latency: u32, old: u32) -> u32
    ensures { result ≡ cond (end.0 == reporter) latency old }
{
    if end.0 == reporter { latency } else { old }
}

// Plans another latency of the end that reports it.
fn plan_report_latency(
    entities: &Entities,
    fabric: &Fabric,
    link: &Name,
    router: &Name,
    latency: u32,
) -> Plan<LinkChange>
    requires { is_latency latency ≡ true }
    ensures { Answers (report_latency link.now router.now latency) entities.now fabric.now result }
{
    match reported(entities, fabric, link, router) {
        Err(refusal) => Plan::refused(refusal),
        Ok((no, row, reporter)) => {
            let latency_a = latency_at(row.a, reporter, latency, row.latency_a);
            let latency_b = latency_at(row.b, reporter, latency, row.latency_b);
            let change = LinkChange::Set {
                no,
                cost: row.cost,
                latency_a,
                latency_b,
                up: row.up,
            };
            Plan::changed(Reply::Done, change)
        }
    }
}

// Plans that a link is up, or not.
fn plan_report_state(
    entities: &Entities,
    fabric: &Fabric,
    link: &Name,
    router: &Name,
    up: bool,
) -> Plan<LinkChange>
    ensures { Answers (report_state link.now router.now up) entities.now fabric.now result }
{
    match reported(entities, fabric, link, router) {
        Err(refusal) => Plan::refused(refusal),
        Ok((no, row, _reporter)) => {
            let change = LinkChange::Set {
                no,
                cost: row.cost,
                latency_a: row.latency_a,
                latency_b: row.latency_b,
                up,
            };
            Plan::changed(Reply::Done, change)
        }
    }
}

// Plans that a link goes.
fn plan_delete_link(fabric: &Fabric, link: &Name) -> Plan<LinkChange>
    ensures { (t : Tables) → Answers (delete_link link.now) t fabric.now result }
{
    match link_named(fabric, link) {
        Some((no, _row)) => Plan::changed(Reply::Done, LinkChange::Remove(no)),
        None => Plan::refused(Refusal::Unknown { field: Field::Link }),
    }
}

// Plans another least router cost.
fn plan_set_least_router_cost(cost: u32) -> Plan<LinkChange>
    requires { is_link_cost cost ≡ true }
    ensures { (t : Tables) (f : FabricSeen) → Answers (set_least_router_cost cost) t f result }
{
    Plan::changed(Reply::Done, LinkChange::SetLeast(cost))
}

/// Plans the answer to a command on links, or on the least router cost, that some body spells: in every valid state with these
/// routers and these links it is the controller's (docs/RULES.md, "Commands on links"). None is a command on something else. Memory
/// can be wanting only where a link is made: every refusal is told without.
pub fn plan_link_command(
    entities: &Entities,
    fabric: &Fabric,
    command: &Command,
) -> Result<Option<Plan<LinkChange>>, AllocError>
    requires { is_spelled command.now ≡ true }
    ensures plan { IfOk result (λ o. MatchOption o (is_link_command command.now ≡ false)
        (λ p. (s : State) → ValidState (over entities.now fabric.now s)
        → PlansLinks p (carry command.now (over entities.now fabric.now s)) (over entities.now fabric.now s))) }
    ensures memory { OnErr result ((is_link_command command.now ≡ true) × TellsChange (carry command.now) entities.now fabric.now) }
{
    match command {
        Command::CreateLink {
            name,
            a,
            b,
            cost,
            latency_a,
            latency_b,
        } => Ok(Some(plan_create_link(
            entities, fabric, name, a, b, *cost, *latency_a, *latency_b,
        )?)),
        Command::SetLinkCost { link, cost } => Ok(Some(plan_set_link_cost(fabric, link, *cost))),
        Command::ReportLatency {
            link,
            router,
            latency,
        } => Ok(Some(plan_report_latency(entities, fabric, link, router, *latency))),
        Command::ReportState { link, router, up } => {
            Ok(Some(plan_report_state(entities, fabric, link, router, *up)))
        }
        Command::DeleteLink { link } => Ok(Some(plan_delete_link(fabric, link))),
        Command::SetLeastRouterCost { cost } => Ok(Some(plan_set_least_router_cost(*cost))),
        _ => Ok(None),
    }
}
