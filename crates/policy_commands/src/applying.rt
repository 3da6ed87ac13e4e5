ghost use Rattle.std.specs.Prelude.{◌≡◌, true, false, Some, OnOk, [], ◌++◌};
ghost use Rattle.entity_store.specs.AttributeUses.{has_attribute_room, Holds};
ghost use Rattle.policy_store.specs.declared.changes.PolicyChange.TheVariants as change;
ghost use Rattle.policy_store.specs.PolicyTables.{is_policy_kind, number_of};
ghost use Rattle.policy_store.specs.PolicyRules.{is_there, put_in};
ghost use Rattle.policy_store.specs.PolicyChanges.{CanChangePolicies};
ghost use Rattle.policy_commands.specs.ForgottenEntities.{ForgetsEntity, forgetting_by};
ghost use Rattle.policy_commands.specs.PolicyStates.{HoldsUses};
ghost use Rattle.policy_commands.specs.RuledPolicies.{LeadsOn, LetsPolicyGo, Rules};

use ctrl_model::{Kind, PolicyNo};
use entity_store::{Entities, EntityChange};
use policy_store::{Policies, Policy, PolicyChange, policy_names};
use std::alloc::{AllocError, Global};

// Holds the uses that a policy's attributes have.
fn hold_policy(alloc: Global, entities: &mut Entities, policy: &Policy) -> Result<(), AllocError>
    requires { has_attribute_room entities.old [] (policy.now.left.attributes ++ policy.now.right.attributes) ≡ true }
    ensures { OnOk result (Holds (policy.now.left.attributes ++ policy.now.right.attributes) entities.old entities.new) }
{
    let names = policy_names(alloc, policy)?;
    entities.hold(&names)
}

fn add_policy(
    alloc: Global,
    entities: &mut Entities,
    policies: &mut Policies,
    kind: Kind,
    policy: Policy,
) -> Result<(), AllocError>
    requires kind { is_policy_kind kind ≡ true }
    requires leads { LeadsOn (change.Add kind policy) entities.old policies.old }
    requires held { HoldsUses entities.old policies.old }
    ensures { OnOk result (Rules (change.Add kind policy) entities.old entities.new policies.old policies.new) }
{
    hold_policy(alloc, entities, &policy)?;
    policies.put(kind, policy, true)?;
    Ok(())
}

// Lets the uses go that a policy's attributes have.
fn let_policy_go(
    alloc: Global,
    entities: &mut Entities,
    policies: &Policies,
    kind: Kind,
    number: u32,
) -> Result<(), AllocError>
    requires kind { is_policy_kind kind ≡ true }
    requires there { is_there kind number policies.now ≡ true }
    requires held { HoldsUses entities.old policies.now }
    ensures { OnOk result (LetsPolicyGo kind number policies.now entities.old entities.new) }
{
    let Some(policy) = policies.get(kind, PolicyNo(number)) else {
        unreachable!()
    };
    let gone = policy_names(alloc, policy)?;
    entities.let_go(&gone);
    Ok(())
}

// Lets the uses go that the policy of a number has, and holds those of the one that will stand in its place.
fn change_uses(
    alloc: Global,
    entities: &mut Entities,
    policies: &Policies,
    kind: Kind,
    number: u32,
    policy: &Policy,
) -> Result<(), AllocError>
    requires kind { is_policy_kind kind ≡ true }
    requires named { number_of kind policy.now.name policies.now ≡ Some number }
    requires leads { LeadsOn (change.Replace kind number policy.now) entities.old policies.now }
    requires held { HoldsUses entities.old policies.now }
    ensures { OnOk result (Rules (change.Replace kind number policy.now) entities.old entities.new policies.now (put_in kind policy.now false policies.now)) }
{
    let_policy_go(alloc, entities, policies, kind, number)?;
    hold_policy(alloc, entities, policy)
}

fn replace_policy(
    alloc: Global,
    entities: &mut Entities,
    policies: &mut Policies,
    kind: Kind,
    number: u32,
    policy: Policy,
) -> Result<(), AllocError>
    requires kind { is_policy_kind kind ≡ true }
    requires named { number_of kind policy.name policies.old ≡ Some number }
    requires leads { LeadsOn (change.Replace kind number policy) entities.old policies.old }
    requires held { HoldsUses entities.old policies.old }
    ensures { OnOk result (Rules (change.Replace kind number policy) entities.old entities.new policies.old policies.new) }
{
    change_uses(alloc, entities, policies, kind, number, &policy)?;
    policies.put(kind, policy, false)?;
    Ok(())
}

fn remove_policy(
    alloc: Global,
    entities: &mut Entities,
    policies: &mut Policies,
    kind: Kind,
    number: u32,
) -> Result<(), AllocError>
    requires kind { is_policy_kind kind ≡ true }
    requires there { is_there kind number policies.old ≡ true }
    requires leads { LeadsOn (change.Remove kind number) entities.old policies.old }
    requires held { HoldsUses entities.old policies.old }
    ensures { OnOk result (Rules (change.Remove kind number) entities.old entities.new policies.old policies.new) }
{
    let_policy_go(alloc, entities, policies, kind, number)?;
    policies.remove(kind, PolicyNo(number));
    Ok(())
}

/// Makes a change of the policies that leads, once settled, from a valid state to a valid one. Of the entities nothing changes but the
/// uses of attributes that are held for policies. Of a change that fails for want of memory nothing is said.
pub fn apply_policy_change(
    alloc: Global,
    entities: &mut Entities,
    policies: &mut Policies,
    change: PolicyChange,
) -> Result<(), AllocError>
    requires can { CanChangePolicies change policies.old }
    requires leads { LeadsOn change entities.old policies.old }
    requires held { HoldsUses entities.old policies.old }
    ensures { OnOk result (Rules change entities.old entities.new policies.old policies.new) }
{
    match change {
        PolicyChange::Add { kind, policy } => add_policy(alloc, entities, policies, kind, policy),
        PolicyChange::Replace {
            kind,
            number,
            policy,
        } => replace_policy(alloc, entities, policies, kind, number, policy),
        PolicyChange::Remove { kind, number } => {
            remove_policy(alloc, entities, policies, kind, number)
        }
    }
}

/// No side of a policy names an entity that goes.
pub fn forget_by(policies: &mut Policies, change: &EntityChange)
    requires { ForgetsEntity change.now }
    ensures { policies.new ≡ forgetting_by change.now policies.old }
{
    if let EntityChange::Remove { kind, name, .. } = change {
        policies.forget(*kind, name);
    }
}
