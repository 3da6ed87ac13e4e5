ghost use Rattle.std.specs.Prelude.{◌≡◌, ℕ, List, nat_le, true, IfOk, IfSome, OnOk};
ghost use Rattle.std.specs.declared.option.Option.{Option};
ghost use Rattle.std.specs.List.{list_all};
ghost use Rattle.std.specs.Option.{option_map};
ghost use Rattle.record_tables.specs.AfterChange.{touched_numbers};
ghost use Rattle.ctrl_model.specs.declared.formats.Format.TheVariants.{Two};
ghost use Rattle.row_codec.specs.RowForm.{is_row, value_of};
ghost use Rattle.row_codec.specs.RowKeys.{is_long, kind_number};
ghost use Rattle.row_writing.specs.RecordChanges.{change_of, changes_at};

use crate::changing::{change_of, value_of};
use ctrl_model::{Bytes, Format, Kind, Numbers};
use record_tables::touched;
use row_codec::{Change, Changes, Row};
use std::alloc::{AllocError, Global};

/// The records of one kind before a change and after it, each of which has a row, the same in either format.
pub trait ChangedRows {
    ghost values_before: { Self → ℕ → Option (List ℕ) };

    ghost values_after: { Self → ℕ → Option (List ℕ) };

    ghost HaveRows: { Self → Type 0 };

    /// The rows of the record that has the number, before the change and after it, where one has it. An Err is want of memory.
    fn rows_at(&self, number: u32) -> Result<(Option<Row>, Option<Row>), AllocError>
        requires { HaveRows self.now }
        ensures before_form { IfOk result (λ rows. IfSome rows.0 (λ r. is_row Two r ≡ true)) }
        ensures after_form { IfOk result (λ rows. IfSome rows.1 (λ r. is_row Two r ≡ true)) }
        ensures before { IfOk result (λ rows. option_map (value_of Two) rows.0 ≡ values_before self.now number) }
        ensures after { IfOk result (λ rows. option_map (value_of Two) rows.1 ≡ values_after self.now number) };
}

// The value of a row, if there is one.
fn value_if_some(alloc: Global, row: &Option<Row>) -> Result<Option<Bytes>, AllocError>
    requires { IfSome row.now (λ r. is_row Two r ≡ true) }
    ensures { IfOk result (λ value. value ≡ option_map (value_of Two) row.now) }
{
    match row {
        Some(row) => Ok(Some(value_of(alloc, Format::Two, row)?)),
        None => Ok(None),
    }
}

/// The change of the row of a kind's record under a number: the row before, if it was there, and after, if it is there. The kind is
/// one that has records. An Err is want of memory.
pub fn row_change(
    alloc: Global,
    kind: Kind,
    number: u32,
    before: Option<Row>,
    after: Option<Row>,
) -> Result<Change, AllocError>
    requires kind { nat_le 1 (kind_number kind) ≡ true }
    requires before { IfSome before (λ r. is_row Two r ≡ true) }
    requires after { IfSome after (λ r. is_row Two r ≡ true) }
    ensures { IfOk result (λ change. change ≡ change_of kind number (option_map (value_of Two) before) (option_map (value_of Two) after)) }
{
    let value_before = value_if_some(alloc, &before);
    drop(before);
    let value_after = value_if_some(alloc, &after);
    drop(after);
    change_of(alloc, kind, number, value_before?, value_after?)
}

// The change of the row of a kind's record at a number.
fn change_at<R: ChangedRows>(
    alloc: Global,
    kind: Kind,
    records: &R,
    number: u32,
) -> Result<Change, AllocError>
    requires kind { nat_le 1 (kind_number kind) ≡ true }
    requires rows { R.HaveRows records.now }
    ensures { IfOk result (λ change. change ≡ change_of kind number (R.values_before records.now number) (R.values_after records.now number)) }
{
    let (before, after) = records.rows_at(number)?;
    row_change(alloc, kind, number, before, after)
}

// The changes of the rows of a kind's records at some numbers.
fn changes_at<R: ChangedRows>(
    alloc: Global,
    kind: Kind,
    records: &R,
    numbers: &[u32],
) -> Result<Vec<Change>, AllocError>
    requires kind { nat_le 1 (kind_number kind) ≡ true }
    requires rows { R.HaveRows records.now }
    ensures changes { IfOk result (λ v. v.items ≡ changes_at kind (R.values_before records.now) (R.values_after records.now) numbers.now) }
    ensures long { OnOk result (list_all is_long numbers.now ≡ true) }
{
    let mut changes = Vec::new(alloc);
    'numbers: for number in numbers {
        changes.push(change_at(alloc, kind, records, *number)?)?;
    }
    Ok(changes)
}

/// The changes of the rows of a kind's records at the number of the record that is changed, if one is, and at those that are gone. The
/// kind is one that has records. An Err is want of memory.
pub fn touched_changes<R: ChangedRows>(
    alloc: Global,
    kind: Kind,
    records: &R,
    changed: Option<u32>,
    gone: &Numbers,
) -> Result<Changes, AllocError>
    requires kind { nat_le 1 (kind_number kind) ≡ true }
    requires rows { R.HaveRows records.now }
    ensures changes { IfOk result (λ cs. cs ≡ changes_at kind (R.values_before records.now) (R.values_after records.now) (touched_numbers changed gone.now)) }
    ensures long { OnOk result (list_all is_long (touched_numbers changed gone.now) ≡ true) }
{
    let numbers = touched(changed, gone)?;
    let changes = changes_at(alloc, kind, records, numbers.as_slice())?;
    Ok(Changes::of(changes))
}
