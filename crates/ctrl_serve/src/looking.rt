ghost use Rattle.std.specs.Prelude.{◌≡◌, map, true, IfOk};
ghost use Rattle.ctrl_model.specs.NameForm.{is_name};
ghost use Rattle.ctrl_model.specs.Networks.{seen};
ghost use Rattle.policy_advisor.specs.AdvisedStates.{IsViewOf};
ghost use Rattle.policy_advisor.specs.Reports.{report_of};
ghost use Rattle.ctrl_serve.specs.LookedLines.{HasNames, line_of};

use crate::loads::counts_line;
use circuit_rules::View;
use ctrl_core::Core;
use ctrl_model::{Name, NameFault, Relation, RouterSeen};
use policy_advisor::{advise, report};
use std::alloc::{AllocError, Global};

/// What is asked of the state of a folder that is looked at.
#[derive(Clone, Copy)]
pub enum Look<'a> {
    /// The counts line.
    Counts,
    /// The advice on the names of an identity and of a service.
    Advice {
        identity: &'a [u8],
        service: &'a [u8],
    },
}

// The name that some bytes are.
fn name_of(alloc: Global, bytes: &[u8]) -> Result<Name, AllocError>
    requires { is_name bytes.now ≡ true }
    ensures { IfOk result (λ name. name ≡ bytes.now) }
{
    match Name::of(alloc, bytes) {
        Ok(name) => Ok(name),
        Err(NameFault::NoMemory) => Err(AllocError),
        Err(NameFault::BadName) => unreachable!(),
    }
}

// What decides about routes in the state of a core, whose routers these are.
fn view_of<'a>(core: &'a Core, routers: &'a [RouterSeen]) -> View<'a>
    requires live { core.now.live ≡ true }
    requires routers { routers.now ≡ map seen core.now.state.routers.rows }
    ensures { IsViewOf result core.now.state }
{
    View {
        dial: core.counted(Relation::Dial),
        bind: core.counted(Relation::Bind),
        identity_router: core.counted(Relation::IdentityRouter),
        service_router: core.counted(Relation::ServiceRouter),
        routers,
        fabric: core.fabric(),
        terminators: core.terminators(),
        circuits_full: core.circuits_full(),
    }
}

// The report on two names, of the state of a core.
fn report_of(
    alloc: Global,
    core: &Core,
    identity: &Name,
    service: &Name,
) -> Result<Vec<u8>, AllocError>
    requires { core.now.live ≡ true }
    ensures { IfOk result (λ line. line.items ≡ report_of core.now.state identity.now service.now) }
{
    let entities = core.entities();
    let routers = entities.routers(alloc)?;
    let view = view_of(core, routers.as_slice());
    let advice = advise(alloc, &view, entities, core.policies(), identity, service)?;
    let line = report(alloc, &advice, entities)?;
    Ok(line.items)
}

// The report on the names that some bytes are, of the state of a core.
fn report_on(
    alloc: Global,
    core: &Core,
    identity: &[u8],
    service: &[u8],
) -> Result<Vec<u8>, AllocError>
    requires live { core.now.live ≡ true }
    requires identity { is_name identity.now ≡ true }
    requires service { is_name service.now ≡ true }
    ensures { IfOk result (λ line. line.items ≡ report_of core.now.state identity.now service.now) }
{
    let identity = name_of(alloc, identity)?;
    let service = name_of(alloc, service)?;
    report_of(alloc, core, &identity, &service)
}

/// The line that is asked for, of the state of a core.
pub(crate) fn line_of(alloc: Global, look: &Look, core: &mut Core) -> Result<Vec<u8>, AllocError>
    requires live { core.old.live ≡ true }
    requires names { HasNames look.now }
    ensures { IfOk result (λ line. line.items ≡ line_of look.now core.old.state) }
{
    match look {
        Look::Counts => counts_line(alloc, core),
        Look::Advice { identity, service } => report_on(alloc, core, identity, service),
    }
}
