ghost use Rattle.std.specs.Prelude.{◌≡◌, ◌≤◌, ◌<◌, ℕ, true, false, IfOk, OnOk, IsErrOf};
ghost use Rattle.ctrl_model.specs.declared.kinds.Kind.{Kind};
ghost use Rattle.ctrl_model.specs.declared.kinds.Relation.{Relation};
ghost use Rattle.ctrl_model.specs.Grants.{count};
ghost use Rattle.ctrl_model.specs.State.{start};
ghost use Rattle.ctrl_model.specs.Tables.{table};
ghost use Rattle.row_loading.specs.declared.faults.CoreFault.TheVariants.{NotAState};
ghost use Rattle.state_building.specs.declared.flaws.Flaw.{Flaw};
ghost use Rattle.state_building.specs.BuiltStates.{AreFlawless, HaveCounts, built, count_in, next_in, state_in, with_nexts};
ghost use Rattle.core_stores.specs.CarriedStates.{Carries};
ghost use Rattle.ctrl_core.specs.JoinedRows.{KeepState};
ghost use Rattle.core_stores.specs.StoredState.{HoldsPolicies};
ghost use Rattle.ctrl_core.specs.KeptState.{Keeps};
ghost use Rattle.core_stores.specs.StoredState.{state_of};
ghost use Rattle.ctrl_core.specs.LoadedRows.{AreLoaded, AreRefused, AreSomeRows, IsFirstFlaw};

use crate::taking::take_row;
use core_stores::{KINDS, Stores, skip};
use ctrl_model::Relation;
use row_codec::Row;
use row_loading::{CoreFault, lacks_counts, next_in};
use state_building::Flaw;
use std::alloc::Global;

// Takes rows, one after another, up to the first that has a flaw.
fn take_rows(alloc: Global, stores: &mut Stores, rows: &[Row]) -> Result<(), CoreFault>
    requires kept { Keeps stores.old }
    requires form { AreSomeRows rows.now }
    ensures taken { OnOk result (KeepState stores.new (built rows.now (state_of stores.old))) }
    ensures flawless { OnOk result (AreFlawless (next_in rows.now) rows.now (state_of stores.old)) }
    ensures flawed { (place : ℕ) (flaw : Flaw) → IsErrOf result (NotAState place flaw) → IsFirstFlaw (next_in rows.now) rows.now (state_of stores.old) place flaw }
{
    'rows: for (place, row) in rows.iter().enumerate() {
        if let Some(flaw) = take_row(alloc, stores, rows, row)? {
            return Err(CoreFault::NotAState {
                place: place as u64,
                flaw,
            });
        }
    }
    Ok(())
}

// Whether some kept count of a relation has no row.
fn lacks(stores: &Stores, rows: &[Row]) -> bool
    requires kept { Keeps stores.now }
    requires loads { AreLoaded rows.now }
    requires told { (r : Relation) (a b : ℕ) → 0 < count_in rows.now r a b → count_in rows.now r a b ≡ count r (state_of stores.now) a b }
    ensures all { result ≡ false → HaveCounts rows.now (state_of stores.now) }
    ensures lacks { result ≡ true → (r : Relation) × (a : ℕ) × (b : ℕ) × (count_in rows.now r a b ≡ count r (state_of stores.now) a b → ⊥) }
{
    lacks_counts(rows, Relation::Dial, &stores.grants.dial)
        || lacks_counts(rows, Relation::Bind, &stores.grants.bind)
        || lacks_counts(
            rows,
            Relation::IdentityRouter,
            &stores.grants.identity_router,
        )
        || lacks_counts(rows, Relation::ServiceRouter, &stores.grants.service_router)
}

// Raises the next number of each kind to the one that rows have.
fn raise_nexts(stores: &mut Stores, rows: &[Row])
    requires held { HoldsPolicies stores.old }
    requires later { (k : Kind) → (table k (state_of stores.old)).next ≤ next_in rows.now k }
    ensures carried { Carries stores.old stores.new (with_nexts (next_in rows.now) (state_of stores.old)) }
    ensures loads { stores.new.terminators.loads ≡ stores.old.terminators.loads }
{
    'kinds: for kind in KINDS {
        skip(stores, kind, next_in(rows, kind));
    }
}

// Loads rows into stores without records.
fn load_into(alloc: Global, stores: &mut Stores, rows: &[Row]) -> Result<(), CoreFault>
    requires kept { Keeps stores.old }
    requires empty { state_of stores.old ≡ start }
    requires loads { AreLoaded rows.now }
    ensures kept { OnOk result (KeepState stores.new (state_in rows.now)) }
    ensures flawless { OnOk result (AreFlawless (next_in rows.now) rows.now start) }
    ensures counts { OnOk result (HaveCounts rows.now (built rows.now start)) }
    ensures refused { (place : ℕ) (flaw : Flaw) → IsErrOf result (NotAState place flaw) → AreRefused rows.now place flaw }
{
    take_rows(alloc, stores, rows)?;
    if lacks(stores, rows) {
        return Err(CoreFault::NotAState {
            place: rows.len() as u64,
            flaw: Flaw::WrongCount,
        });
    }
    raise_nexts(stores, rows);
    Ok(())
}

/// The stores of the state that rows build, from empty ones on.
pub fn load(alloc: Global, rows: &[Row]) -> Result<Stores, CoreFault>
    requires { AreLoaded rows.now }
    ensures kept { IfOk result (λ st. KeepState st (state_in rows.now)) }
    ensures flawless { OnOk result (AreFlawless (next_in rows.now) rows.now start) }
    ensures counts { OnOk result (HaveCounts rows.now (built rows.now start)) }
    ensures refused { (place : ℕ) (flaw : Flaw) → IsErrOf result (NotAState place flaw) → AreRefused rows.now place flaw }
{
    let mut stores = Stores::new(alloc)?;
    match load_into(alloc, &mut stores, rows) {
        Ok(()) => Ok(stores),
        Err(fault) => {
            drop(stores);
            Err(fault)
        }
    }
}
