ghost use Rattle.std.specs.Prelude.{◌≡◌, ◌+◌, ◌<◌, ◌≤◌, true, length, Some, IfOk, OnOk, OnErr};
ghost use Rattle.std.specs.Option.{option_map};
ghost use Rattle.ctrl_model.specs.Numbered.{at, is_present, numbers, without, no_rows, with_new, with_edit, with_removed, Between};
ghost use Rattle.ctrl_model.specs.Tables.{has_room};
ghost use Rattle.record_tables.specs.AfterChange.{without_numbers};
ghost use Rattle.record_tables.specs.Changes.{ChangesAt, Does, IsCopied};
ghost use Rattle.record_tables.specs.Entries.{listed, KeepsOrder};

use crate::removing::{Losing, lose_all};
use ctrl_model::Numbers;
use std::alloc::{AllocError, Global};
use std::collections::BTreeMap;
use std::collections::btree_map::Iter;
use std::marker::Model;

// Records by their numbers.
type Records<R> = BTreeMap<u32, R>;

/// Records of one kind under their numbers alone, and the number of the next one.
#[derive(Drop)]
pub struct NumberedTable<R> {
    records: Records<R>,
    next: u32,
}

impl<R> Model for NumberedTable<R> {
    ghost use Rattle.ctrl_model.specs.Numbered.{Table};
    ghost use Rattle.record_tables.specs.TableCodes.{table_code};
    ghost use Rattle.record_tables.specs.Entries.{listed, KeepsOrder};

    ghost Value = { Table R };

    ghost coded = { table_code R.code };

    ghost view = { λ t. listed t.records.entries t.next };

    ghost invariant = { λ t. KeepsOrder (listed t.records.entries t.next) };
}

// Adds a record under the next number.
fn add_record<R: Drop>(records: &mut Records<R>, next: &mut u32, row: R) -> Result<u32, AllocError>
    requires order { KeepsOrder (listed records.old.entries next.old) }
    requires room { next.old < 4294967295 }
    ensures number { IfOk result (λ n. n ≡ next.old) }
    ensures ok { OnOk result (listed records.new.entries next.new ≡ with_new row (listed records.old.entries next.old)) }
    ensures err { OnErr result (listed records.new.entries next.new ≡ listed records.old.entries next.old) }
    ensures order { KeepsOrder (listed records.new.entries next.new) }
{
    let number = *next;
    records.insert(number, row)?;
    *next = number + 1;
    Ok(number)
}

// Changes a present record.
fn change_record<R, F: FnOnce(&mut R)>(records: &mut Records<R>, number: u32, change: F)
    requires ordered { Between 1 4294967295 records.old.entries }
    requires there { is_present records.old.entries number ≡ true }
    requires callable { F.IsAlwaysCallable change }
    ensures { ChangesAt F.FnOnce change number records.old.entries records.new.entries }
{
    let row = records.get_mut(&number).unwrap();
    change(row);
}

// Removes the record that has the number.
fn remove_record<R: Drop>(records: &mut Records<R>, number: u32)
    requires { Between 1 4294967295 records.old.entries }
    ensures { records.new.entries ≡ without records.old.entries number }
{
    let _removed = records.remove(&number);
}

// The numbers of the records, ascending.
fn numbers_in<R>(alloc: Global, records: &Records<R>) -> Result<Vec<u32>, AllocError>
    ensures { IfOk result (λ v. v.items ≡ numbers records.now.entries) }
{
    records.keys().copied().collect(alloc)
}

// Equal records.
fn copy_of<R: Clone>(records: &Records<R>) -> Result<Records<R>, AllocError>
    requires { IsCopied R.is_clone }
    ensures { IfOk result (λ copied. copied.entries ≡ records.now.entries) }
{
    let copied = records.clone()?;
    Ok(copied)
}

impl<R: Drop> NumberedTable<R> {
    /// A table without records. The first one gets the number 1.
    pub fn new(alloc: Global) -> NumberedTable<R>
        ensures { result ≡ no_rows }
    {
        NumberedTable {
            records: BTreeMap::new(alloc),
            next: 1,
        }
    }

    /// How many records there are.
    pub fn len(&self) -> usize
        ensures { result ≡ length self.now.rows }
    {
        self.records.len()
    }

    /// Whether there is room for one more record, where there may be so many: fewer are present, and the numbers have not run out.
    pub fn has_room(&self, most: usize) -> bool
        ensures { result ≡ has_room most self.now }
    {
        self.records.len() < most && self.next < u32::MAX
    }

    /// The number that the next record gets.
    pub fn next(&self) -> u32
        ensures next { result ≡ self.now.next }
        ensures order { KeepsOrder self.now }
    {
        self.next
    }

    /// The record that has the number.
    pub fn get(&self, number: u32) -> Option<&R>
        ensures { option_map (λ r. r.now) result ≡ at self.now.rows number }
    {
        self.records.get(&number)
    }

    /// The records under their numbers, in the order of the numbers.
    pub fn rows(&self) -> Iter<'_, u32, R>
        ensures rows { result ≡ self.now.rows }
        ensures order { KeepsOrder self.now }
    {
        self.records.iter()
    }

    /// The numbers of the records, ascending.
    pub fn numbers(&self, alloc: Global) -> Result<Numbers, AllocError>
        ensures numbers { IfOk result (λ ns. ns ≡ numbers self.now.rows) }
        ensures order { KeepsOrder self.now }
    {
        let found = numbers_in(alloc, &self.records)?;
        Ok(Numbers::of(found))
    }

    /// Adds a record under the next number, which it answers.
    pub fn add(&mut self, row: R) -> Result<u32, AllocError>
        requires { self.old.next < 4294967295 }
        ensures number { IfOk result (λ n. n ≡ self.old.next) }
        ensures ok { OnOk result (self.new ≡ with_new row self.old) }
        ensures err { OnErr result (self.new ≡ self.old) }
    {
        add_record(&mut self.records, &mut self.next, row)
    }

    /// Changes a present record.
    pub fn edit<F: FnOnce(&mut R)>(&mut self, number: u32, change: F)
        requires there { is_present self.old.rows number ≡ true }
        requires callable { F.IsAlwaysCallable change }
        ensures changed { ChangesAt F.FnOnce change number self.old.rows self.new.rows }
        ensures next { self.new.next ≡ self.old.next }
        // A change that does the same with each record as a function does so with this one.
        ensures by { (f : R → R) → Does F.FnOnce change f → self.new ≡ with_edit number f self.old }
    {
        change_record(&mut self.records, number, change);
    }

    /// Removes the record that has the number, if one has it. Its number is not used again.
    pub fn remove(&mut self, number: u32)
        ensures { self.new ≡ with_removed number self.old }
    {
        remove_record(&mut self.records, number);
    }

    /// Raises the next number.
    pub fn skip(&mut self, next: u32)
        requires { self.old.next ≤ next }
        ensures { self.new ≡ record self.old { next = next } }
    {
        self.next = next;
    }

    /// An equal table.
    pub fn copy(&self) -> Result<NumberedTable<R>, AllocError>
    where
        R: Clone,
        requires { IsCopied R.is_clone }
        ensures { IfOk result (λ t. t ≡ self.now) }
    {
        let records = copy_of(&self.records)?;
        Ok(NumberedTable {
            records,
            next: self.next,
        })
    }
}

impl<R: Drop> Losing<R> for NumberedTable<R> {
    ghost table = { λ t. t };

    fn lose(&mut self, number: u32) {
        self.remove(number);
    }
}

impl<R: Drop> NumberedTable<R> {
    /// Removes the records of some numbers, where one is there.
    pub fn remove_each(&mut self, gone: &Numbers)
        ensures { self.new ≡ without_numbers gone.now self.old }
    {
        lose_all(self, gone.as_slice());
    }
}
