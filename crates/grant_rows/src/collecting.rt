ghost use Rattle.std.specs.Prelude.{◌≡◌, ℕ, ◌+◌, ◌<◌, ◌≤◌, ◌&&◌, ◌++◌, ◌∷◌, [], true, map, filter, IfOk, OnOk};
ghost use Rattle.std.specs.List.{list_all};
ghost use Rattle.std.specs.List.Sorted.{IsStrictlySortedBy};
ghost use Rattle.std.specs.Map.{keys_of};
ghost use Rattle.ctrl_model.specs.declared.kinds.Relation.{Relation};
ghost use Rattle.ctrl_model.specs.State.{State};
ghost use Rattle.ctrl_model.specs.Grants.{count};
ghost use Rattle.grant_denorm.specs.PairCounts.{count_of};
ghost use Rattle.grant_denorm.specs.TakenSteps.{HaveRoom};
ghost use Rattle.grant_denorm.specs.MovedCounts.{AreCountsOf, Moves};
ghost use Rattle.row_codec.specs.RowKeys.{key_bytes, key_in, table_number, is_long};
ghost use Rattle.row_codec.specs.RowKeys.RowTable.{Counts};
ghost use Rattle.row_codec.specs.StateRows.{count_value};
ghost use Rattle.row_codec.specs.CoveredTables.{Covers};
ghost use Rattle.row_laws.specs.ChangedKeys.{pair_cmp};
ghost use Rattle.grant_rows.specs.CountChanges.{change_from, AreCountChanges, AddsCountChanges, AreGrantChanges, counts_of, steps_of};
ghost use Rattle.grant_rows.specs.MovedCounts.{differs, entry_changes};

use crate::moves::{CountMoves, GrantMoves};
use crate::stepping::take_steps;
use ctrl_model::{Bytes, Format, Relation};
use grant_denorm::{Counted, Delta};
use row_codec::{Change, Changes, push_count};
use std::alloc::{AllocError, Global};
use std::collections::BTreeMap;

fn table_byte(relation: Relation) -> u8
    ensures { result ≡ table_number (Counts relation) }
{
    match relation {
        Relation::Dial => 12,
        Relation::Bind => 13,
        Relation::IdentityRouter => 14,
        Relation::ServiceRouter => 15,
    }
}

fn count_key(alloc: Global, relation: Relation, pair: (u32, u32)) -> Result<Bytes, AllocError>
    ensures { IfOk result (λ key. key ≡ key_bytes (key_in (Counts relation) pair.0 pair.1)) }
{
    let mut key = Vec::new(alloc);
    key.push(table_byte(relation))?;
    key.extend_from_slice(&pair.0.to_be_bytes())?;
    key.extend_from_slice(&pair.1.to_be_bytes())?;
    Ok(Bytes::of(key))
}

// A count of 0 has no row.
fn count_row(alloc: Global, format: Format, count: u32) -> Result<Option<Bytes>, AllocError>
    ensures { IfOk result (λ value. value ≡ count_value format count) }
{
    if count == 0 {
        return Ok(None);
    }
    let mut value = Vec::new(alloc);
    push_count(&mut value, format, count)?;
    Ok(Some(Bytes::of(value)))
}

fn change_from(
    alloc: Global,
    format: Format,
    relation: Relation,
    pair: (u32, u32),
    before: u32,
    after: u32,
) -> Result<Change, AllocError>
    ensures { IfOk result (λ change. change ≡ change_from format relation pair before after) }
{
    let key = count_key(alloc, relation, pair)?;
    let before = count_row(alloc, format, before)?;
    let after = count_row(alloc, format, after)?;
    Ok(Change { key, before, after })
}

// A pair whose steps cancel has the count that it had, and no change.
fn push_if_other(
    changes: &mut Vec<Change>,
    format: Format,
    relation: Relation,
    counted: &Counted,
    pair: (u32, u32),
    after: u32,
) -> Result<(), AllocError>
    ensures changes { OnOk result (changes.new.items ≡ changes.old.items ++ entry_changes format relation counted.now ((pair, after) ∷ [])) }
    ensures long { (is_long pair.0 && is_long pair.1) ≡ true }
{
    let before = counted.count(pair.0, pair.1);
    if before == after {
        return Ok(());
    }
    let change = change_from(*changes.allocator(), format, relation, pair, before, after)?;
    Ok(changes.push(change)?)
}

fn push_others(
    changes: &mut Vec<Change>,
    format: Format,
    relation: Relation,
    counted: &Counted,
    moved: &BTreeMap<(u32, u32), u32>,
) -> Result<(), AllocError>
    ensures changes { OnOk result (changes.new.items ≡ changes.old.items ++ entry_changes format relation counted.now moved.now.entries) }
    ensures ordered { OnOk result (IsStrictlySortedBy pair_cmp (keys_of moved.now.entries)) }
    ensures long { OnOk result (list_all (λ e. is_long e.0.0 && is_long e.0.1) moved.now.entries ≡ true) }
{
    'pairs: for (pair, after) in moved.iter() {
        push_if_other(changes, format, relation, counted, *pair, *after)?;
    }
    Ok(())
}

fn push_count_changes(
    changes: &mut Vec<Change>,
    format: Format,
    relation: Relation,
    moves: CountMoves,
) -> Result<(), AllocError>
    requires { HaveRoom moves.counted.now moves.steps.now }
    ensures { OnOk result (AddsCountChanges format relation moves.entry.counted.now moves.entry.steps.now changes.old.items changes.new.items) }
{
    let moved = take_steps(*changes.allocator(), moves.counted, moves.steps)?;
    push_others(changes, format, relation, moves.counted, &moved)?;
    Ok(())
}

/// The changes of the rows of a relation's grant counts in a format: one for each pair to whose count the steps lead from another,
/// with its row before and after, in the order of the pairs. No pair may have more steps down than its count, nor so many up that
/// its count passes 4,294,967,295. It reads the counts of these pairs alone. An Err is want of memory.
pub fn count_changes(
    alloc: Global,
    format: Format,
    relation: Relation,
    counted: &Counted,
    steps: &[Delta],
) -> Result<Changes, AllocError>
    requires { HaveRoom counted.now steps.now }
    ensures exact { IfOk result (AreCountChanges format relation counted.now steps.now) }
    ensures covers { IfOk result (λ changes. (s t : State) → AreCountsOf (count relation s) counted.now → Moves (count relation s) (count relation t) steps.now
        → Covers format (table_number (Counts relation)) (table_number (Counts relation) + 1) s t changes) }
{
    let mut changes = Vec::new(alloc);
    push_count_changes(
        &mut changes,
        format,
        relation,
        CountMoves { counted, steps },
    )?;
    Ok(Changes::of(changes))
}

/// The changes of the rows of all grant counts in a format: those of Dial, then of Bind, of identities and routers, and of services
/// and routers. What holds of the counts and steps of one relation must hold of each. An Err is want of memory.
pub fn all_count_changes(
    alloc: Global,
    format: Format,
    moves: &GrantMoves,
) -> Result<Changes, AllocError>
    requires { (r : Relation) → HaveRoom (counts_of r moves.now) (steps_of r moves.now) }
    ensures exact { IfOk result (AreGrantChanges format moves.now) }
    ensures covers { IfOk result (λ changes. (s t : State) → ((r : Relation) → AreCountsOf (count r s) (counts_of r moves.now))
        → ((r : Relation) → Moves (count r s) (count r t) (steps_of r moves.now)) → Covers format 12 16 s t changes) }
{
    let mut changes = Vec::new(alloc);
    push_count_changes(&mut changes, format, Relation::Dial, moves.dial)?;
    push_count_changes(&mut changes, format, Relation::Bind, moves.bind)?;
    push_count_changes(
        &mut changes,
        format,
        Relation::IdentityRouter,
        moves.identity_router,
    )?;
    push_count_changes(
        &mut changes,
        format,
        Relation::ServiceRouter,
        moves.service_router,
    )?;
    Ok(Changes::of(changes))
}
