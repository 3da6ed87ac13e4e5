ghost use Rattle.std.specs.Prelude.{◌≡◌, true, IfOk};
ghost use Rattle.ctrl_model.specs.State.{State};
ghost use Rattle.ctrl_model.specs.declared.kinds.Kind.TheVariants as kind;
ghost use Rattle.entity_store.specs.EntityTables.{is_entity_kind};
ghost use Rattle.entity_store.specs.HeldUses.{with_entities};
ghost use Rattle.entity_store.specs.TableRules.{is_there};
ghost use Rattle.policy_store.specs.PolicyChanges.{with_tables};
ghost use Rattle.grant_steps.specs.EntitySteps.{Coming, Going, IsDescribed};
ghost use Rattle.grant_steps.specs.LeadingSteps.{LeadRuled};
ghost use Rattle.grant_steps.specs.PolicySteps.{StepsOfRule};

use crate::granting::{Moved, entity_steps, policy_steps};
use ctrl_model::{Kind, Name, Names, PolicyNo};
use entity_store::Entities;
use policy_store::{GrantSteps, Policies, PolicyChange};
use std::alloc::{AllocError, Global};

/// The steps of one more entity.
pub fn coming_steps(
    alloc: Global,
    known: &Entities,
    kept: &Policies,
    kind: Kind,
    name: &Name,
    attributes: &Names,
) -> Result<GrantSteps, AllocError>
    requires { is_entity_kind kind ≡ true }
    ensures { IfOk result (Coming kind name.now attributes.now known.now kept.now) }
{
    let number = known.next(kind);
    let moved = Moved::coming(name, attributes);
    entity_steps(alloc, kept, known, kind, number, &moved)
}

/// The steps of one more router.
pub fn coming_router_steps(
    alloc: Global,
    known: &Entities,
    kept: &Policies,
    name: &Name,
    attributes: &Names,
) -> Result<GrantSteps, AllocError>
    ensures { IfOk result (Coming kind.Router name.now attributes.now known.now kept.now) }
{
    coming_steps(alloc, known, kept, Kind::Router, name, attributes)
}

/// The steps of a present entity that gets other attributes.
pub fn described_steps(
    alloc: Global,
    known: &Entities,
    kept: &Policies,
    kind: Kind,
    number: u32,
    attributes: &Names,
) -> Result<GrantSteps, AllocError>
    requires kind { is_entity_kind kind ≡ true }
    requires there { is_there kind number known.now ≡ true }
    ensures { IfOk result (IsDescribed kind number attributes.now known.now kept.now) }
{
    let Some((name, gone)) = known.seen(kind, number) else {
        unreachable!()
    };
    let moved = Moved::described(name, gone, attributes);
    entity_steps(alloc, kept, known, kind, number, &moved)
}

/// The steps of a present entity that goes.
pub fn going_steps(
    alloc: Global,
    known: &Entities,
    kept: &Policies,
    kind: Kind,
    number: u32,
) -> Result<GrantSteps, AllocError>
    requires kind { is_entity_kind kind ≡ true }
    requires there { is_there kind number known.now ≡ true }
    ensures { IfOk result (Going kind number known.now kept.now) }
{
    let Some((name, attributes)) = known.seen(kind, number) else {
        unreachable!()
    };
    let moved = Moved::going(name, attributes);
    entity_steps(alloc, kept, known, kind, number, &moved)
}

// The steps of a change of policies.
fn steps_by(
    alloc: Global,
    known: &Entities,
    kept: &Policies,
    change: &PolicyChange,
) -> Result<GrantSteps, AllocError>
    ensures { IfOk result (StepsOfRule change.now known.now kept.now) }
{
    match change {
        PolicyChange::Add { kind, policy } => policy_steps(alloc, known, *kind, None, Some(policy)),
        PolicyChange::Replace {
            kind,
            number,
            policy,
        } => {
            let replaced = kept.get(*kind, PolicyNo(*number));
            policy_steps(alloc, known, *kind, replaced, Some(policy))
        }
        PolicyChange::Remove { kind, number } => {
            let removed = kept.get(*kind, PolicyNo(*number));
            policy_steps(alloc, known, *kind, removed, None)
        }
    }
}

/// The steps that the counts take where a change of the policies is made: in every valid state with these entities and these policies
/// they lead to the counts after it.
pub fn policy_change_steps(
    alloc: Global,
    known: &Entities,
    kept: &Policies,
    change: &PolicyChange,
) -> Result<GrantSteps, AllocError>
    ensures { IfOk result (λ steps. (s : State) → LeadRuled change.now (with_entities known.now (with_tables kept.now s)) steps) }
{
    steps_by(alloc, known, kept, change)
}
