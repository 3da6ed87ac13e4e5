ghost use Rattle.std.specs.Prelude.{◌≡◌, true, nat_lt, IfOk, map, filter};
ghost use Rattle.std.specs.List.{list_all};
ghost use Rattle.ctrl_model.specs.AddressForm.{address_text};
ghost use Rattle.ctrl_model.specs.CircuitCommands.{name_of};
ghost use Rattle.ctrl_model.specs.Numbered.{is_present, numbers};
ghost use Rattle.ctrl_model.specs.declared.replies.Reply.TheVariants as reply;
ghost use Rattle.grant_denorm.specs.PairCounts.{count_of};

use ctrl_model::{Copies, Kind, Name, Reply};
use entity_store::Entities;
use grant_denorm::Counted;
use intercepts::Picked;
use std::alloc::{AllocError, Global};

/// The services that an identity may dial, in the order of their numbers.
pub(crate) fn dialled_by(
    alloc: Global,
    entities: &Entities,
    dial: &Counted,
    identity: u32,
) -> Result<Vec<u32>, AllocError>
    ensures { IfOk result (λ v. v.items ≡ filter (λ n. nat_lt 0 (count_of dial.now identity n)) (numbers entities.now.services.rows)) }
{
    let services = entities.numbers(alloc, Kind::Service)?;
    let mut dialled = Vec::new(alloc);
    'services: for service in services.as_slice() {
        if dial.count(identity, *service) > 0 {
            dialled.push(*service)?;
        }
    }
    Ok(dialled)
}

// The name of a service that is there.
fn name_of(entities: &Entities, service: u32) -> Result<Name, AllocError>
    requires { is_present entities.now.services.rows service ≡ true }
    ensures { IfOk result (λ name. name ≡ name_of entities.now.services.rows service) }
{
    let Some((name, _)) = entities.seen(Kind::Service, service) else {
        unreachable!()
    };
    name.copy()
}

/// The names of services that are there.
pub(crate) fn names_of(
    alloc: Global,
    entities: &Entities,
    services: &[u32],
) -> Result<Vec<Name>, AllocError>
    requires { list_all (is_present entities.now.services.rows) services.now ≡ true }
    ensures { IfOk result (λ v. v.items ≡ map (name_of entities.now.services.rows) services.now) }
{
    let mut names = Vec::new(alloc);
    'services: for service in services {
        names.push(name_of(entities, *service)?)?;
    }
    Ok(names)
}

/// A hit of a service that is there, as its reply shows it.
pub(crate) fn picked_reply(
    alloc: Global,
    entities: &Entities,
    hit: &Picked,
) -> Result<Reply, AllocError>
    requires { is_present entities.now.services.rows hit.now.service ≡ true }
    ensures { IfOk result (λ r. r ≡ reply.Picked (address_text hit.now.address) hit.now.ports.low hit.now.ports.high (name_of entities.now.services.rows hit.now.service)) }
{
    let address = hit.address.text(alloc)?;
    let service = name_of(entities, hit.service)?;
    Ok(Reply::Picked {
        address,
        low: u32::from(hit.ports.low),
        high: u32::from(hit.ports.high),
        service,
    })
}
