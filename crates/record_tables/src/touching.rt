ghost use Rattle.std.specs.Prelude.{◌≡◌, ◌↔◌, ◌⊎◌, ℕ, nat_lt, not, Bool, List, filter, Some, IfOk};
ghost use Rattle.std.specs.declared.option.Option.{Option};
ghost use Rattle.ctrl_model.specs.Membership.{Among};
ghost use Rattle.ctrl_model.specs.Numbered.{Table, numbers, Between, with_kept};
ghost use Rattle.record_tables.specs.AfterChange.{touched_numbers, unless_gone, without_numbers, with_number};
ghost use Rattle.record_tables.specs.Climbing.{Climbs};

use crate::number_lists::is_among;
use ctrl_model::Numbers;
use std::alloc::{AllocError, Global};

// Leaves the numbers below one.
fn keep_below(found: &mut Vec<u32>, number: u32)
    ensures { found.new.items ≡ filter (λ m. nat_lt m number) found.old.items }
{
    found.retain(|other| *other < number);
}

// Leaves the numbers above one.
fn keep_above(found: &mut Vec<u32>, number: u32)
    ensures { found.new.items ≡ filter (λ m. nat_lt number m) found.old.items }
{
    found.retain(|other| number < *other);
}

// Some numbers with one more at its place.
fn with_number(number: u32, numbers: &Numbers) -> Result<Numbers, AllocError>
    ensures { IfOk result (λ ns. ns ≡ with_number number numbers.now) }
{
    let mut found = numbers.copy()?;
    keep_below(&mut found.items, number);
    found.items.push(number)?;
    let mut rest = numbers.copy()?;
    keep_above(&mut rest.items, number);
    found.items.extend_from_slice(rest.items.as_slice())?;
    Ok(found)
}

/// The numbers at which a table can differ, ascending: that of the record which is changed, if one is, and those of the records
/// that are gone, which ascend.
pub fn touched(changed: Option<u32>, gone: &Numbers) -> Result<Numbers, AllocError>
    ensures { IfOk result (λ ns. ns ≡ touched_numbers changed gone.now) }
{
    match changed {
        Some(number) => with_number(number, gone),
        None => gone.copy(),
    }
}

/// What stands at a number once the records of some numbers are gone: nothing where it is one of these.
pub fn unless_gone<V: Drop>(number: u32, gone: &Numbers, stands: Option<V>) -> Option<V>
    ensures { result ≡ unless_gone number gone.now stands }
{
    if is_among(number, gone.as_slice()) {
        None
    } else {
        stands
    }
}

/// Touched numbers are that of the changed record and those that are gone, and they climb if these do.
pub fn numbers_are_touched()
    ensures each { (n : ℕ) (changed : Option ℕ) (gone : List ℕ) → Among n (touched_numbers changed gone) ↔ ((changed ≡ Some n) ⊎ Among n gone) }
    ensures climb { (changed : Option ℕ) (gone : List ℕ) → Climbs (λ n. n) gone → Climbs (λ n. n) (touched_numbers changed gone) }
{}

/// The records that pass a test are those without the ones that do not; the numbers of these climb.
pub fn kept_are_not_gone<R>()
    ensures kept { (p : ℕ × R → Bool) (t : Table R) (high : ℕ) → Between 1 high t.rows
        → with_kept p t ≡ without_numbers (numbers (filter (λ row. not (p row)) t.rows)) t }
    ensures climb { (p : ℕ × R → Bool) (t : Table R) (high : ℕ) → Between 1 high t.rows → Climbs (λ n. n) (numbers (filter (λ row. not (p row)) t.rows)) }
{}
