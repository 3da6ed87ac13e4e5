ghost use Rattle.std.specs.Prelude.{◌≡◌, ℕ, ◌∷◌, [], ◌++◌, true, Some, IfOk, IfSome, OnOk};
ghost use Rattle.std.specs.Option.{option_map};
ghost use Rattle.ctrl_model.specs.declared.formats.Format.{Format};
ghost use Rattle.ctrl_model.specs.declared.formats.Format.TheVariants.{Two};
ghost use Rattle.ctrl_model.specs.declared.kinds.Kind.TheVariants as kind;
ghost use Rattle.ctrl_model.specs.Numbered.{at};
ghost use Rattle.ctrl_model.specs.PolicyCommands.{replaced_by};
ghost use Rattle.ctrl_model.specs.State.{State};
ghost use Rattle.ctrl_model.specs.State as state;
ghost use Rattle.ctrl_model.specs.Tables.{is_entity_kind};
ghost use Rattle.row_codec.specs.CoveredTables.{Covers};
ghost use Rattle.row_codec.specs.RowForm.{is_row, value_of};
ghost use Rattle.row_codec.specs.RowKeys.{is_long};
ghost use Rattle.policy_store.specs.PolicyChanges.{CanChangePolicies, after_policy_change, tables_of};
ghost use Rattle.policy_commands.specs.PolicyRows.{AreValid, touched_kind, touched_number, policy_value, fits_row, policy_change_of, forgotten_at, forgotten_rows, naming};
ghost use Rattle.policy_store.specs.PolicyTables.{forgetting, is_policy_kind, policies};
ghost use Rattle.policy_store.specs.Stores.{forget_on};

use ctrl_model::{Kind, Name, PolicyNo};
use policy_store::{Hand, Policies, Policy, PolicyChange, copy_policy, forget_on_side, policy_of};
use row_codec::{Change, Changes, Row};
use row_writing::row_change;
use std::alloc::{AllocError, Global};

// The row of a policy of a kind.
fn policy_row(kind: Kind, number: u32, policy: Policy) -> Row
    requires kind { is_policy_kind kind ≡ true }
    requires long { is_long number ≡ true }
    requires fits { fits_row kind policy ≡ true }
    ensures form { is_row Two result ≡ true }
    ensures value { value_of Two result ≡ policy_value kind policy }
{
    let no = PolicyNo(number);
    let Policy {
        name,
        relation,
        semantic,
        left,
        right,
    } = policy;
    match kind {
        Kind::ServicePolicy => Row::ServicePolicy {
            no,
            name,
            relation,
            semantic,
            identities: left,
            services: right,
        },
        Kind::EdgeRouterPolicy => Row::EdgeRouterPolicy {
            no,
            name,
            semantic,
            identities: left,
            routers: right,
        },
        Kind::ServiceEdgeRouterPolicy => Row::ServiceEdgeRouterPolicy {
            no,
            name,
            semantic,
            services: left,
            routers: right,
        },
        _ => unreachable!(),
    }
}

// The row of a policy of a kind, if there is one.
fn row_if_some(kind: Kind, number: u32, policy: Option<Policy>) -> Option<Row>
    requires kind { is_policy_kind kind ≡ true }
    requires long { is_long number ≡ true }
    requires fits { IfSome policy (λ p. fits_row kind p ≡ true) }
    ensures form { IfSome result (λ r. is_row Two r ≡ true) }
    ensures value { option_map (value_of Two) result ≡ option_map (policy_value kind) policy }
{
    match policy {
        Some(policy) => Some(policy_row(kind, number, policy)),
        None => None,
    }
}

// The change of a policy's row.
fn change_at(
    alloc: Global,
    kind: Kind,
    number: u32,
    before: Option<Policy>,
    after: Option<Policy>,
) -> Result<Change, AllocError>
    requires kind { is_policy_kind kind ≡ true }
    requires long { is_long number ≡ true }
    requires before { IfSome before (λ p. fits_row kind p ≡ true) }
    requires after { IfSome after (λ p. fits_row kind p ≡ true) }
    ensures { IfOk result (λ change. change ≡ policy_change_of kind number before after) }
{
    let before = row_if_some(kind, number, before);
    let after = row_if_some(kind, number, after);
    row_change(alloc, kind, number, before, after)
}

// The policy of a number, copied, if it is there.
fn policy_before(kept: &Policies, kind: Kind, number: u32) -> Result<Option<Policy>, AllocError>
    ensures { IfOk result (λ p. p ≡ at (policies kind kept.now) number) }
{
    match kept.get(kind, PolicyNo(number)) {
        Some(policy) => Ok(Some(copy_policy(policy)?)),
        None => Ok(None),
    }
}

// The kind and the number of the policy that a change touches.
fn touched(kept: &Policies, change: &PolicyChange) -> (Kind, u32)
    ensures kind { result.0 ≡ touched_kind change.now }
    ensures number { result.1 ≡ touched_number change.now kept.now }
{
    match change {
        PolicyChange::Add { kind, .. } => (*kind, kept.next(*kind)),
        PolicyChange::Replace { kind, number, .. } => (*kind, *number),
        PolicyChange::Remove { kind, number } => (*kind, *number),
    }
}

// A policy with another's parts under the name that it has.
fn under_name(name: &Name, other: &Policy) -> Result<Policy, AllocError>
    ensures { IfOk result (λ p. p ≡ record other.now { name = name.now }) }
{
    policy_of(
        name,
        other.relation,
        other.semantic,
        &other.left,
        &other.right,
    )
}

// The policy of a number with another's parts under its own name, if it is there.
fn with_parts(
    kept: &Policies,
    kind: Kind,
    number: u32,
    other: &Policy,
) -> Result<Option<Policy>, AllocError>
    ensures { IfOk result (λ p. p ≡ option_map (replaced_by other.now) (at (policies kind kept.now) number)) }
{
    match kept.get(kind, PolicyNo(number)) {
        Some(policy) => Ok(Some(under_name(&policy.name, other)?)),
        None => Ok(None),
    }
}

// The policy that a change touches, as it will be.
fn policy_after(kept: &Policies, change: &PolicyChange) -> Result<Option<Policy>, AllocError>
    requires { CanChangePolicies change.now kept.now }
    ensures { IfOk result (λ p. p ≡ at (policies (touched_kind change.now) (after_policy_change change.now kept.now)) (touched_number change.now kept.now)) }
{
    match change {
        PolicyChange::Add { kind, policy } => {
            // With it comes that the numbers ascend below it, so that no policy has it yet.
            let _next = kept.next(*kind);
            Ok(Some(copy_policy(policy)?))
        }
        PolicyChange::Replace {
            kind,
            number,
            policy,
        } => with_parts(kept, *kind, *number, policy),
        PolicyChange::Remove { .. } => Ok(None),
    }
}

// The change of the row of the policy that a change touches.
fn touched_change(
    alloc: Global,
    kept: &Policies,
    change: &PolicyChange,
) -> Result<Change, AllocError>
    requires can { CanChangePolicies change.now kept.now }
    requires before { AreValid kept.now }
    requires after { AreValid (after_policy_change change.now kept.now) }
    ensures { IfOk result (λ made. made ≡ policy_change_of (touched_kind change.now) (touched_number change.now kept.now)
        (at (policies (touched_kind change.now) kept.now) (touched_number change.now kept.now))
        (at (policies (touched_kind change.now) (after_policy_change change.now kept.now)) (touched_number change.now kept.now))) }
{
    let (kind, number) = touched(kept, change);
    let before = policy_before(kept, kind, number)?;
    let after = policy_after(kept, change)?;
    change_at(alloc, kind, number, before, after)
}

// One change alone.
fn one_change(alloc: Global, change: Change) -> Result<Changes, AllocError>
    ensures { IfOk result (λ changes. changes ≡ change ∷ []) }
{
    let mut changes = Vec::new(alloc);
    changes.push(change)?;
    Ok(Changes::of(changes))
}

/// The change of the row that a change of the policies touches. The policies are those of a valid state, before and after. An Err is
/// want of memory.
pub fn policy_changes(
    alloc: Global,
    kept: &Policies,
    change: &PolicyChange,
) -> Result<Changes, AllocError>
    requires can { CanChangePolicies change.now kept.now }
    requires before { AreValid kept.now }
    requires after { AreValid (after_policy_change change.now kept.now) }
    ensures { IfOk result (λ changes. (f : Format) (s t : State) → tables_of s ≡ kept.now → tables_of t ≡ after_policy_change change.now kept.now → Covers f 7 10 s t changes) }
{
    let made = touched_change(alloc, kept, change)?;
    one_change(alloc, made)
}

// A policy that loses an `@` name on one hand, if it is there.
fn policy_forgetting(
    kept: &Policies,
    kind: Kind,
    number: u32,
    hand: Hand,
    name: &Name,
) -> Result<Option<Policy>, AllocError>
    ensures { IfOk result (λ p. p ≡ option_map (forget_on hand name.now) (at (policies kind kept.now) number)) }
{
    let Some(policy) = kept.get(kind, PolicyNo(number)) else {
        return Ok(None);
    };
    let mut policy = copy_policy(policy)?;
    forget_on_side(&mut policy, hand, name);
    Ok(Some(policy))
}

// The change of the row of a policy that loses an `@` name on one hand.
fn forgotten_at(
    alloc: Global,
    kept: &Policies,
    kind: Kind,
    number: u32,
    hand: Hand,
    name: &Name,
) -> Result<Change, AllocError>
    requires kind { is_policy_kind kind ≡ true }
    requires long { is_long number ≡ true }
    requires before { IfSome (at (policies kind kept.now) number) (λ p. fits_row kind p ≡ true) }
    requires after { IfSome (option_map (forget_on hand name.now) (at (policies kind kept.now) number)) (λ p. fits_row kind p ≡ true) }
    ensures { IfOk result (λ change. change ≡ forgotten_at kind hand name.now (policies kind kept.now) number) }
{
    let before = policy_before(kept, kind, number)?;
    let after = policy_forgetting(kept, kind, number, hand, name)?;
    change_at(alloc, kind, number, before, after)
}

// Adds the changes of the rows of all policies of a kind that lose an `@` name on one hand.
fn push_forgotten(
    alloc: Global,
    changes: &mut Vec<Change>,
    kept: &Policies,
    kind: Kind,
    hand: Hand,
    name: &Name,
) -> Result<(), AllocError>
    requires kind { is_policy_kind kind ≡ true }
    requires before { AreValid kept.now }
    requires after { (n : ℕ) (p : state.Policy) → at (policies kind kept.now) n ≡ Some p → fits_row kind (forget_on hand name.now p) ≡ true }
    ensures { OnOk result (changes.new.items ≡ changes.old.items ++ forgotten_rows kind hand name.now kept.now) }
{
    let numbers = kept.numbers(alloc, kind)?;
    'numbers: for number in numbers.as_slice() {
        let change = forgotten_at(alloc, kept, kind, *number, hand, name)?;
        changes.push(change)?;
    }
    Ok(())
}

// The two kinds of policies that may name an entity of a kind, each with the hand on which it does.
fn naming(kind: Kind) -> ((Kind, Hand), (Kind, Hand))
    requires { is_entity_kind kind ≡ true }
    ensures { result ≡ naming kind }
{
    let identity = (
        (Kind::ServicePolicy, Hand::Left),
        (Kind::EdgeRouterPolicy, Hand::Left),
    );
    let service = (
        (Kind::ServicePolicy, Hand::Right),
        (Kind::ServiceEdgeRouterPolicy, Hand::Left),
    );
    let router = (
        (Kind::EdgeRouterPolicy, Hand::Right),
        (Kind::ServiceEdgeRouterPolicy, Hand::Right),
    );
    match kind {
        Kind::Identity => identity,
        Kind::Service => service,
        Kind::Router => router,
        _ => unreachable!(),
    }
}

/// The changes of the rows of policies where the `@` name of an entity goes out of every side that may name it: of all policies of the
/// kinds that could name it. The policies are those of a valid state, before and after. An Err is want of memory.
pub fn forgotten_changes(
    alloc: Global,
    kept: &Policies,
    kind: Kind,
    name: &Name,
) -> Result<Changes, AllocError>
    requires kind { is_entity_kind kind ≡ true }
    requires before { AreValid kept.now }
    requires after { AreValid (forgetting kind name.now kept.now) }
    ensures { IfOk result (λ changes. (f : Format) (s t : State) → tables_of s ≡ kept.now → tables_of t ≡ forgetting kind name.now kept.now → Covers f 7 10 s t changes) }
{
    let ((first, first_hand), (second, second_hand)) = naming(kind);
    let mut changes = Vec::new(alloc);
    push_forgotten(alloc, &mut changes, kept, first, first_hand, name)?;
    push_forgotten(alloc, &mut changes, kept, second, second_hand, name)?;
    Ok(Changes::of(changes))
}
