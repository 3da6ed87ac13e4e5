// What an object gives for the fields of a form that several commands have, or that is long, whatever command is made of it.
ghost use Rattle.std.specs.Prelude.{◌≡◌, ◌≢◌, ◌++◌, Err, IfErr, IfOk};
ghost use Rattle.json_body.specs.FieldKinds.{object_of};
ghost use Rattle.body_fields.specs.ReadResults.{Gives};
ghost use Rattle.command_codec.specs.BodyMeaning.{given};
ghost use Rattle.command_codec.specs.ClaimForm.{claimed};
ghost use Rattle.ctrl_model.specs.BodyForms.{Form, Makes};
ghost use Rattle.ctrl_model.specs.CommandForms.{made, request, router_policy, service_policy, updated};

use crate::attribute_lists::{attributes, attributes_or_none};
use crate::role_lists::side;
use body_fields::{instance_or_empty, name_or_none, numbers, potentials, relation, semantic};
use ctrl_model::{
    Field, Instance, LONGEST_PATH, MOST_ROUTERS, Name, Names, Numbers, Reaches, Relation, Semantic,
    Side,
};
use json_body::{FieldFault, Fields};
use std::alloc::Global;

// A service policy.
#[derive(Drop)]
pub(crate) struct ServicePolicyParts {
    pub(crate) name: Name,
    pub(crate) relation: Relation,
    pub(crate) semantic: Semantic,
    pub(crate) identity_roles: Side,
    pub(crate) service_roles: Side,
}

// A policy that gives routers to what its left side matches.
#[derive(Drop)]
pub(crate) struct RouterPolicyParts {
    pub(crate) name: Name,
    pub(crate) semantic: Semantic,
    pub(crate) left: Side,
    pub(crate) router_roles: Side,
}

// A request of a circuit.
#[derive(Drop)]
pub(crate) struct RequestParts {
    pub(crate) identity: Name,
    pub(crate) service: Name,
    pub(crate) ingress: Option<Name>,
    pub(crate) instance: Instance,
}

// What is claimed for a request.
#[derive(Drop)]
pub(crate) struct ClaimParts {
    pub(crate) chosen: Name,
    pub(crate) links: Numbers,
    pub(crate) potentials: Reaches,
    pub(crate) routers: Numbers,
    pub(crate) terminator: u32,
    pub(crate) total: u32,
}

// An identity or a service that is made.
pub(crate) fn made(alloc: Global, fields: &Fields) -> Result<(Name, Names), FieldFault>
    ensures { (make : Makes made) → Gives FieldFault.NoMemory (λ t. make t.0 t.1) result (given made make (object_of fields.now)) }
{
    let name = fields.name(alloc, Field::Name)?;
    Ok((name, attributes_or_none(alloc, fields)?))
}

// One that is updated.
pub(crate) fn updated(alloc: Global, fields: &Fields) -> Result<(Name, Names), FieldFault>
    ensures { (make : Makes updated) → Gives FieldFault.NoMemory (λ t. make t.0 t.1) result (given updated make (object_of fields.now)) }
{
    let name = fields.name(alloc, Field::Name)?;
    Ok((name, attributes(alloc, fields)?))
}

// A service policy that is made or updated.
pub(crate) fn service_policy(
    alloc: Global,
    fields: &Fields,
) -> Result<ServicePolicyParts, FieldFault>
    ensures { (make : Makes service_policy) → Gives FieldFault.NoMemory (λ p. make p.name p.relation p.semantic p.identity_roles p.service_roles) result (given service_policy make (object_of fields.now)) }
{
    Ok(ServicePolicyParts {
        name: fields.name(alloc, Field::Name)?,
        relation: relation(fields)?,
        semantic: semantic(fields)?,
        identity_roles: side(alloc, fields, Field::IdentityRoles)?,
        service_roles: side(alloc, fields, Field::ServiceRoles)?,
    })
}

// A policy that gives routers and is made or updated, with its left side in this field.
pub(crate) fn router_policy(
    alloc: Global,
    left: Field,
    fields: &Fields,
) -> Result<RouterPolicyParts, FieldFault>
    ensures { (make : Makes (router_policy left)) → Gives FieldFault.NoMemory (λ p. make p.name p.semantic p.left p.router_roles) result (given (router_policy left) make (object_of fields.now)) }
{
    Ok(RouterPolicyParts {
        name: fields.name(alloc, Field::Name)?,
        semantic: semantic(fields)?,
        left: side(alloc, fields, left)?,
        router_roles: side(alloc, fields, Field::RouterRoles)?,
    })
}

// A request, alone or before other fields.
pub(crate) fn request(alloc: Global, fields: &Fields) -> Result<RequestParts, FieldFault>
    ensures given { IfOk result (λ r. (rest : Form) → (make : Makes (request ++ rest)) → given (request ++ rest) make (object_of fields.now) ≡ given rest (make r.identity r.service r.ingress r.instance) (object_of fields.now)) }
    ensures fault { IfErr result (λ e. e ≢ FieldFault.NoMemory → (rest : Form) → (make : Makes (request ++ rest)) → given (request ++ rest) make (object_of fields.now) ≡ Err e) }
{
    Ok(RequestParts {
        identity: fields.name(alloc, Field::Identity)?,
        service: fields.name(alloc, Field::Service)?,
        ingress: name_or_none(alloc, fields, Field::Ingress)?,
        instance: instance_or_empty(alloc, fields)?,
    })
}

// What stands in a claim behind the request.
pub(crate) fn claimed(alloc: Global, fields: &Fields) -> Result<ClaimParts, FieldFault>
    ensures { (make : Makes claimed) → Gives FieldFault.NoMemory (λ c. make c.chosen c.links c.potentials c.routers c.terminator c.total) result (given claimed make (object_of fields.now)) }
{
    Ok(ClaimParts {
        chosen: fields.name(alloc, Field::Chosen)?,
        links: numbers(alloc, fields, Field::Links, LONGEST_PATH)?,
        potentials: potentials(alloc, fields)?,
        routers: numbers(alloc, fields, Field::Routers, MOST_ROUTERS)?,
        terminator: fields.number(Field::Terminator, 1, u32::MAX)?,
        total: fields.number(Field::Total, 0, u32::MAX)?,
    })
}
