ghost use Rattle.std.specs.Prelude.{◌≡◌, ◌≤◌, ◌<◌, true, length, slice_get, None, IfOk, IfSome, OnOk, OnErr};
ghost use Rattle.std.specs.Option.{option_map};
ghost use Rattle.ctrl_model.specs.Numbered.{at, is_present, numbers, no_rows, with_new, with_edit, with_removed, with_each};
ghost use Rattle.ctrl_model.specs.Tables.{has_room};
ghost use Rattle.record_tables.specs.AfterChange.{without_numbers};
ghost use Rattle.record_tables.specs.Changes.{ChangesAt, Does, KeepsPart, IsCopied, one_call};
ghost use Rattle.record_tables.specs.Entries.{numbered_records, table_of_entries, number_named, KeepsOrder, AreKept};

use crate::entries::{
    Entries, Named, change_each, change_row, copy_of, insert_row, number_in, numbers_in, record_at,
    remove_row,
};
use crate::removing::{Losing, lose_all};
use ctrl_model::Numbers;
use indexmap::IndexMap;
use indexmap::map::Values;
use std::alloc::{AllocError, Global};
use std::marker::Model;

/// Records of one kind under their numbers and by their names, and the number of the next one.
#[derive(Drop)]
pub struct NamedTable<R: Named> {
    entries: Entries<R>,
    next: u32,
}

impl<R: Named> Model for NamedTable<R> {
    ghost use Rattle.ctrl_model.specs.Numbered.{Table};
    ghost use Rattle.record_tables.specs.TableCodes.{table_code};
    ghost use Rattle.record_tables.specs.Entries.{table_of_entries, AreKept};

    ghost Value = { Table R };

    ghost coded = { table_code R.code };

    ghost view = { λ t. table_of_entries t.entries.entries t.next };

    ghost invariant = { λ t. AreKept R.name_of t.entries.entries t.next };
}

// Adds a record under the next number.
fn add_row<R: Named>(entries: &mut Entries<R>, next: &mut u32, row: R) -> Result<u32, AllocError>
    requires kept { AreKept R.name_of entries.old.entries next.old }
    requires free { number_named R.name_of (numbered_records entries.old.entries) (R.name_of row) ≡ None }
    requires room { next.old < 4294967295 }
    ensures number { IfOk result (λ n. n ≡ next.old) }
    ensures ok { OnOk result (table_of_entries entries.new.entries next.new ≡ with_new row (table_of_entries entries.old.entries next.old)) }
    ensures err { OnErr result (table_of_entries entries.new.entries next.new ≡ table_of_entries entries.old.entries next.old) }
    ensures kept { AreKept R.name_of entries.new.entries next.new }
{
    let number = *next;
    insert_row(entries, number, row)?;
    *next = number + 1;
    Ok(number)
}

impl<R: Named> NamedTable<R> {
    /// A table without records. The first one gets the number 1.
    pub fn new(alloc: Global) -> NamedTable<R>
        ensures { result ≡ no_rows }
    {
        NamedTable {
            entries: IndexMap::new(alloc),
            next: 1,
        }
    }

    /// How many records there are.
    pub fn len(&self) -> usize
        ensures { result ≡ length self.now.rows }
    {
        self.entries.len()
    }

    /// Whether there is room for one more record, where there may be so many: fewer are present, and the numbers have not run out.
    pub fn has_room(&self, most: usize) -> bool
        ensures { result ≡ has_room most self.now }
    {
        self.entries.len() < most && self.next < u32::MAX
    }

    /// The number that the next record gets.
    pub fn next(&self) -> u32
        ensures next { result ≡ self.now.next }
        ensures order { KeepsOrder self.now }
    {
        self.next
    }

    /// The number of the record that has the name.
    pub fn find(&self, name: &[u8]) -> Option<u32>
        ensures found { result ≡ number_named R.name_of self.now.rows name.now }
        ensures there { IfSome result (λ n. is_present self.now.rows n ≡ true) }
        ensures order { KeepsOrder self.now }
    {
        number_in(&self.entries, name)
    }

    /// The record that has the number.
    pub fn get(&self, number: u32) -> Option<&R>
        ensures { option_map (λ r. r.now) result ≡ at self.now.rows number }
    {
        record_at(&self.entries, number)
    }

    /// The record at a place in the order of the numbers, under its number.
    pub fn at_place(&self, place: usize) -> Option<&(u32, R)>
        ensures { option_map (λ row. row.now) result ≡ slice_get self.now.rows place }
    {
        let (_, row) = self.entries.get_index(place)?;
        Some(row)
    }

    /// The records under their numbers, in the order of the numbers.
    pub fn rows(&self) -> Values<'_, Vec<u8>, (u32, R)>
        ensures rows { result ≡ self.now.rows }
        ensures order { KeepsOrder self.now }
    {
        self.entries.values()
    }

    /// The numbers of the records, ascending.
    pub fn numbers(&self, alloc: Global) -> Result<Numbers, AllocError>
        ensures numbers { IfOk result (λ ns. ns ≡ numbers self.now.rows) }
        ensures order { KeepsOrder self.now }
    {
        numbers_in(alloc, &self.entries)
    }

    /// Adds a record under the next number, which it answers. None may have its name.
    pub fn add(&mut self, row: R) -> Result<u32, AllocError>
        requires free { number_named R.name_of self.old.rows (R.name_of row) ≡ None }
        requires room { self.old.next < 4294967295 }
        ensures number { IfOk result (λ n. n ≡ self.old.next) }
        ensures ok { OnOk result (self.new ≡ with_new row self.old) }
        ensures err { OnErr result (self.new ≡ self.old) }
    {
        add_row(&mut self.entries, &mut self.next, row)
    }

    /// Changes a present record, which keeps its name.
    pub fn edit<F: FnOnce(&mut R)>(&mut self, number: u32, change: F)
        requires there { is_present self.old.rows number ≡ true }
        requires callable { F.IsAlwaysCallable change }
        requires keeps { KeepsPart F.FnOnce change R.name_of }
        ensures changed { ChangesAt F.FnOnce change number self.old.rows self.new.rows }
        ensures next { self.new.next ≡ self.old.next }
        // A change that does the same with each record as a function does so with this one.
        ensures by { (f : R → R) → Does F.FnOnce change f → self.new ≡ with_edit number f self.old }
    {
        change_row(&mut self.entries, number, change);
    }

    /// Changes each record, which keeps its name.
    pub fn edit_each<F: Fn(&mut R)>(&mut self, change: &F)
        requires callable { F.IsAlwaysCallable change.now }
        requires keeps { KeepsPart (one_call F.Fn) change.now R.name_of }
        ensures by { (f : R → R) → Does (one_call F.Fn) change.now f → self.new ≡ with_each f self.old }
        ensures numbers { numbers self.new.rows ≡ numbers self.old.rows }
        ensures next { self.new.next ≡ self.old.next }
    {
        change_each(&mut self.entries, change);
    }

    /// Removes a present record. Its number is not used again.
    pub fn remove(&mut self, number: u32)
        requires { is_present self.old.rows number ≡ true }
        ensures { self.new ≡ with_removed number self.old }
    {
        remove_row(&mut self.entries, number);
    }

    /// Raises the next number.
    pub fn skip(&mut self, next: u32)
        requires { self.old.next ≤ next }
        ensures { self.new ≡ record self.old { next = next } }
    {
        self.next = next;
    }

    /// An equal table.
    pub fn copy(&self) -> Result<NamedTable<R>, AllocError>
    where
        R: Clone,
        requires { IsCopied R.is_clone }
        ensures { IfOk result (λ t. t ≡ self.now) }
    {
        let entries = copy_of(&self.entries)?;
        Ok(NamedTable {
            entries,
            next: self.next,
        })
    }
}

impl<R: Named> Losing<R> for NamedTable<R> {
    ghost table = { λ t. t };

    fn lose(&mut self, number: u32) {
        if self.get(number).is_some() {
            self.remove(number);
        }
    }
}

impl<R: Named> NamedTable<R> {
    /// Removes the records of some numbers, where one is there.
    pub fn remove_each(&mut self, gone: &Numbers)
        ensures { self.new ≡ without_numbers gone.now self.old }
    {
        lose_all(self, gone.as_slice());
    }
}
