ghost use Rattle.std.specs.Prelude.{◌≡◌, true, IfOk};
ghost use Rattle.ctrl_model.specs.Settling.{stays_in};
ghost use Rattle.ctrl_model.specs.ValidState as valid;
ghost use Rattle.ctrl_model.specs.ValidState.{is_valid_entity};
ghost use Rattle.entity_commands.specs.EntityChanges.{is_plain_kind};
ghost use Rattle.ctrl_model.specs.declared.kinds.Kind.TheVariants as kind;
ghost use Rattle.entity_store.specs.EntityTables.{is_entity_kind, number_of};
ghost use Rattle.policy_store.specs.PolicyTables.{is_policy_kind};
ghost use Rattle.state_building.specs.JoinedRecords.{flaw_of, is_sound, is_sound_policy};
ghost use Rattle.ctrl_core.specs.KeptState.{Keeps};
ghost use Rattle.core_stores.specs.StoredState.{state_of};
ghost use Rattle.ctrl_core.specs.NewRecords.{plain_flaw_of, policy_flaw_of};

use circuit_settling::stays_here;
use circuits::Circuit;
use core_stores::Stores;
use ctrl_model::{Kind, Name, Names, Side, limit};
use entity_store::Entities;
use fabric_graph::LinkRow;
use policy_commands::{left_kind, right_kind};
use policy_store::{Policy, policy_names};
use record_flaws::{Coming, Findings, link_flaw, plain_flaw, term_flaw};
use state_building::Flaw;
use std::alloc::{AllocError, Global};
use terminators::Term;

// Whether each `@` name of a side is that of a present entity.
fn are_found(entities: &Entities, kind: Kind, side: &Side) -> bool
    requires { is_entity_kind kind ≡ true }
    ensures { result ≡ valid.are_found (λ name. number_of kind name entities.now) side.now }
{
    side.ids
        .as_slice()
        .iter()
        .all(|name| entities.find(kind, name).is_ok())
}

/// Why an identity or a service cannot join, if it cannot.
pub fn plain_flaw_in(
    alloc: Global,
    stores: &Stores,
    kind: Kind,
    coming: Coming,
    name: &Name,
    attributes: &Names,
) -> Option<Flaw>
    requires kept { Keeps stores.now }
    requires kind { is_plain_kind kind ≡ true }
    requires sound { coming.sound ≡ is_valid_entity (record { name = name.now; attributes = attributes.now }) }
    ensures { result ≡ plain_flaw_of coming.end kind coming.number name.now attributes.now (state_of stores.now) }
{
    plain_flaw(alloc, &stores.entities, kind, coming, name, attributes)
}

/// Why a link cannot join, if it cannot.
pub fn link_flaw_in(stores: &Stores, coming: Coming, link: &LinkRow) -> Option<Flaw>
    requires kept { Keeps stores.now }
    requires sound { coming.sound ≡ is_sound kind.Link link.now }
    ensures { result ≡ flaw_of (λ k. coming.end) kind.Link coming.number link.now (state_of stores.now) }
{
    let (entities, fabric) = (&stores.entities, &stores.fabric);
    link_flaw(entities, fabric, coming, &link.name, link.a, link.b)
}

/// Why a terminator cannot join, if it cannot.
pub fn term_flaw_in(stores: &Stores, coming: Coming, term: &Term) -> Option<Flaw>
    requires kept { Keeps stores.now }
    requires sound { coming.sound ≡ is_sound kind.Terminator term.now }
    ensures { result ≡ flaw_of (λ k. coming.end) kind.Terminator coming.number term.now (state_of stores.now) }
{
    term_flaw(
        &stores.entities,
        &stores.terminators,
        coming,
        term.service,
        term.router,
        term.host,
    )
}

/// Why a policy of a kind cannot join, if it cannot.
pub fn policy_flaw(
    alloc: Global,
    stores: &Stores,
    kind: Kind,
    coming: Coming,
    policy: &Policy,
) -> Result<Option<Flaw>, AllocError>
    requires kept { Keeps stores.now }
    requires kind { is_policy_kind kind ≡ true }
    requires sound { coming.sound ≡ is_sound_policy kind policy.now }
    ensures { IfOk result (λ f. f ≡ policy_flaw_of coming.end kind coming.number policy.now (state_of stores.now)) }
{
    let left = left_kind(kind);
    let right = right_kind(kind);
    let none = Names::of(Vec::new(alloc));
    let names = policy_names(alloc, policy)?;
    let entities = &stores.entities;
    let found = Findings {
        out_of_order: coming.is_out_of_order(stores.policies.next(kind)),
        sound: coming.sound,
        taken: stores.policies.find(kind, &policy.name).is_ok(),
        supported: are_found(entities, left, &policy.left)
            && are_found(entities, right, &policy.right),
        too_many: stores.policies.count(kind) >= limit(kind) || !entities.has_room(&none, &names),
    };
    Ok(found.flaw(kind))
}

// Whether a circuit would stay beside what the stores have.
fn would_stay(alloc: Global, stores: &Stores, circuit: &Circuit) -> Result<bool, AllocError>
    ensures { IfOk result (λ b. b ≡ stays_in (state_of stores.now) (0, circuit.now)) }
{
    let (entities, fabric, terms) = (&stores.entities, &stores.fabric, &stores.terminators);
    stays_here(alloc, entities, fabric, terms, circuit)
}

/// Why a circuit cannot join, if it cannot.
pub fn circuit_flaw(
    alloc: Global,
    stores: &Stores,
    coming: Coming,
    circuit: &Circuit,
) -> Result<Option<Flaw>, AllocError>
    requires kept { Keeps stores.now }
    requires sound { coming.sound ≡ true }
    ensures { IfOk result (λ f. f ≡ flaw_of (λ k. coming.end) kind.Circuit coming.number circuit.now (state_of stores.now)) }
{
    let supported = would_stay(alloc, stores, circuit)?;
    let found = Findings {
        out_of_order: coming.is_out_of_order(stores.circuits.next()),
        sound: coming.sound,
        taken: false,
        supported,
        too_many: stores.circuits.count() >= limit(Kind::Circuit),
    };
    Ok(found.flaw(Kind::Circuit))
}
