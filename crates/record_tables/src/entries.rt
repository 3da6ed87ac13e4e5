ghost use Rattle.std.specs.Prelude.{◌≡◌, ◌<◌, ℕ, List, true, length, slice_get, map, Some, None, IfOk, IfSome, IfNone, OnOk, OnErr};
ghost use Rattle.std.specs.Fn.{FnOnceReturnsAtMut};
ghost use Rattle.std.specs.Option.{option_map};
ghost use Rattle.ctrl_model.specs.Numbered.{at, is_present, with_last, without, map_each, numbers, Between};
ghost use Rattle.indexmap.specs.IndexMap.{set_value_at};
ghost use Rattle.record_tables.specs.Changes.{ChangesAt, Does, KeepsPart, IsCopied, one_call};
ghost use Rattle.record_tables.specs.Entries.{Entry, numbered_records, number_named, AreNamed, AreOrdered, IsPlace};

use ctrl_model::Numbers;
use indexmap::IndexMap;
use std::alloc::{AllocError, Global};

/// A record that has a name.
pub trait Named: Drop {
    ghost name_of: { Self → List ℕ };

    /// The bytes of the name.
    fn name(&self) -> &[u8]
        ensures { result.now ≡ name_of self.now };
}

/// Records under their numbers, by the bytes of their names, in the order of the numbers.
pub type Entries<R> = IndexMap<Vec<u8>, (u32, R)>;

/// The number of the record that has the name.
pub fn number_in<R: Named>(entries: &Entries<R>, name: &[u8]) -> Option<u32>
    requires { AreNamed R.name_of entries.now.entries }
    ensures { result ≡ number_named R.name_of (numbered_records entries.now.entries) name.now }
{
    let (number, _) = entries.get(name)?;
    Some(*number)
}

/// Adds a record behind the others, for a name that none has.
pub fn insert_row<R: Named>(entries: &mut Entries<R>, number: u32, row: R) -> Result<(), AllocError>
    requires named { AreNamed R.name_of entries.old.entries }
    requires free { number_named R.name_of (numbered_records entries.old.entries) (R.name_of row) ≡ None }
    ensures ok { OnOk result (numbered_records entries.new.entries ≡ with_last (numbered_records entries.old.entries) number row) }
    ensures named { AreNamed R.name_of entries.new.entries }
    ensures err { OnErr result (entries.new.entries ≡ entries.old.entries) }
{
    let key = Vec::from_slice(*entries.allocator(), row.name())?;
    entries.insert(key, (number, row))?;
    Ok(())
}

// The place of the record that has the number.
fn place_of<R>(entries: &Entries<R>, number: u32) -> Option<usize>
    requires { AreOrdered entries.now.entries }
    ensures found { IfSome result (λ i. IsPlace number entries.now.entries i) }
    ensures absent { IfNone result (at (numbered_records entries.now.entries) number ≡ None) }
{
    entries.binary_search_by_key(&number, |_, row| row.0).ok()
}

// The place of a present record.
fn present_place<R>(entries: &Entries<R>, number: u32) -> usize
    requires ordered { AreOrdered entries.now.entries }
    requires there { is_present (numbered_records entries.now.entries) number ≡ true }
    ensures { IsPlace number entries.now.entries result }
{
    place_of(entries, number).unwrap()
}

/// The record that has the number.
pub fn record_at<R>(entries: &Entries<R>, number: u32) -> Option<&R>
    requires { AreOrdered entries.now.entries }
    ensures { option_map (λ r. r.now) result ≡ at (numbered_records entries.now.entries) number }
{
    let place = place_of(entries, number)?;
    let (_, row) = entries.get_index(place)?;
    Some(&row.1)
}

// The record at a place is changed.
fn change_at<R, F: FnOnce(&mut R)>(entries: &mut Entries<R>, place: usize, change: F)
    requires within { place < length entries.old.entries }
    requires callable { F.IsAlwaysCallable change }
    ensures { (e : Entry R) → slice_get entries.old.entries place ≡ Some e → (r : R) × FnOnceReturnsAtMut F.FnOnce change e.1.1 tt r × (entries.new.entries ≡ set_value_at entries.old.entries place (e.1.0, r)) }
{
    let row = entries.get_index_mut(place).unwrap();
    change(&mut row.1);
}

/// Changes a present record, which keeps its name.
pub fn change_row<R: Named, F: FnOnce(&mut R)>(entries: &mut Entries<R>, number: u32, change: F)
    requires ordered { AreOrdered entries.old.entries }
    requires named { AreNamed R.name_of entries.old.entries }
    requires there { is_present (numbered_records entries.old.entries) number ≡ true }
    requires callable { F.IsAlwaysCallable change }
    requires keeps { KeepsPart F.FnOnce change R.name_of }
    ensures rows { ChangesAt F.FnOnce change number (numbered_records entries.old.entries) (numbered_records entries.new.entries) }
    ensures named { AreNamed R.name_of entries.new.entries }
{
    let place = present_place(entries, number);
    change_at(entries, place, change);
}

/// Removes a present record.
pub fn remove_row<R: Named>(entries: &mut Entries<R>, number: u32)
    requires ordered { AreOrdered entries.old.entries }
    requires named { AreNamed R.name_of entries.old.entries }
    requires there { is_present (numbered_records entries.old.entries) number ≡ true }
    ensures rows { numbered_records entries.new.entries ≡ without (numbered_records entries.old.entries) number }
    ensures named { AreNamed R.name_of entries.new.entries }
{
    let place = present_place(entries, number);
    let _removed = entries.shift_remove_index(place);
}

// The record at a place is changed, by a change for more than one.
fn change_again_at<R, F: Fn(&mut R)>(entries: &mut Entries<R>, place: usize, change: &F)
    requires within { place < length entries.old.entries }
    requires callable { F.IsAlwaysCallable change.now }
    ensures { (e : Entry R) → slice_get entries.old.entries place ≡ Some e → (r : R) × FnOnceReturnsAtMut (one_call F.Fn) change.now e.1.1 tt r × (entries.new.entries ≡ set_value_at entries.old.entries place (e.1.0, r)) }
{
    let row = entries.get_index_mut(place).unwrap();
    change(&mut row.1);
}

/// Changes each record, which keeps its name.
pub fn change_each<R: Named, F: Fn(&mut R)>(entries: &mut Entries<R>, change: &F)
    requires named { AreNamed R.name_of entries.old.entries }
    requires callable { F.IsAlwaysCallable change.now }
    requires keeps { KeepsPart (one_call F.Fn) change.now R.name_of }
    ensures rows { (f : R → R) → Does (one_call F.Fn) change.now f → numbered_records entries.new.entries ≡ map_each f (numbered_records entries.old.entries) }
    ensures order { (next : ℕ) → Between 1 next (numbered_records entries.old.entries) → Between 1 next (numbered_records entries.new.entries) }
    ensures numbers { numbers (numbered_records entries.new.entries) ≡ numbers (numbered_records entries.old.entries) }
    ensures named { AreNamed R.name_of entries.new.entries }
{
    let count = entries.len();
    'places: for place in 0..count {
        change_again_at(entries, place, change);
    }
}

/// The numbers of the records, ascending.
pub fn numbers_in<R>(alloc: Global, entries: &Entries<R>) -> Result<Numbers, AllocError>
    ensures { IfOk result (λ ns. ns ≡ numbers (numbered_records entries.now.entries)) }
{
    let mut found = Vec::new(alloc);
    'rows: for (number, _) in entries.values() {
        found.push(*number)?;
    }
    Ok(Numbers::of(found))
}

/// Equal entries.
pub fn copy_of<R: Named + Clone>(entries: &Entries<R>) -> Result<Entries<R>, AllocError>
    requires equal { IsCopied R.is_clone }
    requires named { AreNamed R.name_of entries.now.entries }
    ensures rows { IfOk result (λ m. numbered_records m.entries ≡ numbered_records entries.now.entries) }
    ensures named { IfOk result (λ m. AreNamed R.name_of m.entries) }
{
    let copied = entries.clone()?;
    Ok(copied)
}
