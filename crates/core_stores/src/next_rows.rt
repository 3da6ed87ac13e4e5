ghost use Rattle.std.specs.Prelude.{◌≡◌, ◌<◌, nat_le, true, map, IfOk};
ghost use Rattle.std.specs.List.{list_all};
ghost use Rattle.ctrl_model.specs.declared.kinds.Kind.{Kind};
ghost use Rattle.ctrl_model.specs.Tables.{table};
ghost use Rattle.row_codec.specs.RowKeys.{kind_number, kinds};
ghost use Rattle.row_writing.specs.RecordChanges.{setting_change_of};
ghost use Rattle.core_stores.specs.ChangeParts.{adds, least_after, link_part};
ghost use Rattle.core_stores.specs.NextNumbers.{HasNext, next_after, next_change_by};
ghost use Rattle.core_stores.specs.StoredState.{state_of};

use crate::adding::{KINDS, adds, least_after, next_if, next_of};
use crate::changes::Change;
use crate::stores::Stores;
use ctrl_model::Kind;
use row_codec::Change as RowChange;
use row_writing::{next_change, setting_change};
use std::alloc::{AllocError, Global};

// The next number of a kind after a change.
fn next_after(stores: &Stores, change: &Change, kind: Kind) -> u32
    requires kind { nat_le 1 (kind_number kind) ≡ true }
    requires room { HasNext change.now stores.now kind }
    ensures { result ≡ next_after change.now stores.now kind }
{
    next_if(adds(change, kind), next_of(stores, kind))
}

// The change of the next number of a kind.
fn next_change_at(
    alloc: Global,
    stores: &Stores,
    change: &Change,
    kind: Kind,
) -> Result<RowChange, AllocError>
    requires kind { nat_le 1 (kind_number kind) ≡ true }
    requires room { HasNext change.now stores.now kind }
    ensures { IfOk result (λ c. c ≡ next_change_by change.now stores.now kind) }
{
    let before = next_of(stores, kind);
    let after = next_after(stores, change, kind);
    next_change(alloc, kind, before, after)
}

// The changes of the next numbers of some kinds.
fn next_changes_of(
    alloc: Global,
    stores: &Stores,
    change: &Change,
    kinds: &[Kind],
) -> Result<Vec<RowChange>, AllocError>
    requires numbered { list_all (λ k. nat_le 1 (kind_number k)) kinds.now ≡ true }
    requires room { (k : Kind) → nat_le 1 (kind_number k) ≡ true → HasNext change.now stores.now k }
    ensures { IfOk result (λ v. v.items ≡ map (next_change_by change.now stores.now) kinds.now) }
{
    let mut changes = Vec::new(alloc);
    'kinds: for kind in kinds {
        changes.push(next_change_at(alloc, stores, change, *kind)?)?;
    }
    Ok(changes)
}

/// The changes of the rows of all next numbers: that of the kind of which a change adds a record rises by one, and no other moves. No
/// number that rises is the last one.
pub fn next_changes(
    alloc: Global,
    stores: &Stores,
    change: &Change,
) -> Result<Vec<RowChange>, AllocError>
    requires { (k : Kind) → nat_le 1 (kind_number k) ≡ true → HasNext change.now stores.now k }
    ensures { IfOk result (λ v. v.items ≡ map (next_change_by change.now stores.now) kinds) }
{
    next_changes_of(alloc, stores, change, &KINDS)
}

/// The change of the row of the least router cost.
pub fn least_change(
    alloc: Global,
    stores: &Stores,
    change: &Change,
) -> Result<RowChange, AllocError>
    ensures { IfOk result (λ c. c ≡ setting_change_of stores.now.fabric.least (least_after (link_part change.now) stores.now.fabric.least)) }
{
    let before = stores.fabric.least();
    let after = least_after(change.of_links(), before);
    setting_change(alloc, before, after)
}
