ghost use Rattle.std.specs.Prelude.{◌≡◌, ℕ, ◌+◌, ◌<◌, ◌==◌, [], ◌∷◌, cond, true, false, length, map, IfOk, IfErr, OnOk, OnErr, IsOk};
ghost use Rattle.ctrl_model.specs.Limits.{most_number};
ghost use Rattle.grant_denorm.specs.FlatRows.{StandsAt, WouldStandAt, NumbersAscend, IsRow, count_in, RaisesIn, LowersIn};

use std::alloc::{AllocError, Global};
use std::marker::Model;

/// The pairs with one left number that have a count above 0. Contracts see that number, and each right number with its count.
#[derive(Drop)]
pub(crate) struct Row {
    left: u32,
    rights: Vec<(u32, u32)>,
    near: usize,
}

impl Model for Row {
    ghost use Rattle.std.specs.Prelude.{List, ℕ};

    ghost Value = { ℕ × List (ℕ × ℕ) };

    ghost view = { λ r. (r.left, r.rights.items) };
}

// Where a right number is, or where it would stand. It is looked for at a place first, then behind the others.
fn place_of(rights: &[(u32, u32)], near: usize, right: u32) -> Result<usize, usize>
    requires { NumbersAscend rights.now }
    ensures found { IfOk result (StandsAt 0 rights.now right) }
    ensures absent { IfErr result (WouldStandAt 0 rights.now right) }
{
    if let Some(pair) = rights.get(near) {
        if pair.0 == right {
            return Ok(near);
        }
    }
    if let Some(last) = rights.last() {
        if last.0 < right {
            return Err(rights.len());
        }
    }
    rights.binary_search_by_key(&right, |pair| pair.0)
}

// The count of a right number, 0 where it has none.
fn count_at(rights: &[(u32, u32)], near: usize, right: u32) -> u32
    requires { NumbersAscend rights.now }
    ensures { result ≡ count_in rights.now right }
{
    match place_of(rights, near, right) {
        Ok(at) => rights[at].1,
        Err(_) => 0,
    }
}

// Raises the count at a place by one.
fn raise_at(rights: &mut Vec<(u32, u32)>, at: usize, right: u32)
    requires row { IsRow rights.old.items }
    requires place { StandsAt 0 rights.old.items right at }
    requires room { count_in rights.old.items right < most_number }
    ensures row { IsRow rights.new.items }
    ensures raises { RaisesIn rights.old.items rights.new.items right }
    ensures same { length rights.new.items ≡ length rights.old.items }
{
    let count = rights[at].1;
    rights[at] = (right, count + 1);
}

// Puts in a number with the count 1 at its place.
fn put_at(rights: &mut Vec<(u32, u32)>, at: usize, right: u32) -> Result<(), AllocError>
    requires row { IsRow rights.old.items }
    requires place { WouldStandAt 0 rights.old.items right at }
    ensures row { IsRow rights.new.items }
    ensures ok { OnOk result (RaisesIn rights.old.items rights.new.items right) }
    ensures more { OnOk result (length rights.new.items ≡ length rights.old.items + 1) }
    ensures err { OnErr result (rights.new.items ≡ rights.old.items) }
{
    rights.insert(at, (right, 1))?;
    Ok(())
}

// Lowers the count at a place by one, and tells whether its number is gone.
fn lower_at(rights: &mut Vec<(u32, u32)>, at: usize, right: u32) -> bool
    requires row { IsRow rights.old.items }
    requires place { StandsAt 0 rights.old.items right at }
    ensures row { IsRow rights.new.items }
    ensures lowers { LowersIn rights.old.items rights.new.items right }
    ensures fewer { length rights.new.items + cond result 1 0 ≡ length rights.old.items }
{
    let count = rights[at].1;
    if count == 1 {
        rights.remove(at);
        return true;
    }
    rights[at] = (right, count - 1);
    false
}

impl Row {
    // A row of one pair, with the count 1.
    pub(crate) fn of_one(alloc: Global, left: u32, right: u32) -> Result<Row, AllocError>
        ensures { IfOk result (λ r. r ≡ (left, (right, 1) ∷ [])) }
    {
        let mut rights = Vec::new(alloc);
        rights.push((right, 1))?;
        Ok(Row {
            left,
            rights,
            near: 0,
        })
    }

    pub(crate) fn left(&self) -> u32
        ensures { result ≡ self.now.0 }
    {
        self.left
    }

    pub(crate) fn is_empty(&self) -> bool
        ensures { result ≡ (length self.now.1 == 0) }
    {
        self.rights.is_empty()
    }

    pub(crate) fn count(&self, right: u32) -> u32
        requires { IsRow self.now.1 }
        ensures { result ≡ count_in self.now.1 right }
    {
        count_at(self.rights.as_slice(), self.near, right)
    }

    // The right numbers.
    pub(crate) fn numbers(&self, alloc: Global) -> Result<Vec<u32>, AllocError>
        ensures { IfOk result (λ v. v.items ≡ map (λ (x : ℕ × ℕ). x.0) self.now.1) }
    {
        self.rights.iter().map(|pair| pair.0).collect(alloc)
    }

    // Raises a count by one, and tells whether its number was not there. Where no number may come in, it takes none.
    pub(crate) fn raise(&mut self, right: u32, full: bool) -> Result<bool, AllocError>
        requires row { IsRow self.old.1 }
        requires room { count_in self.old.1 right < most_number }
        ensures left { self.new.0 ≡ self.old.0 }
        ensures row { IsRow self.new.1 }
        ensures ok { OnOk result (RaisesIn self.old.1 self.new.1 right) }
        ensures more { IfOk result (λ came. length self.new.1 ≡ length self.old.1 + cond came 1 0) }
        ensures full { full ≡ true → IfOk result (λ came. came ≡ false) }
        ensures err { OnErr result (self.new ≡ self.old) }
        ensures there { 0 < count_in self.old.1 right → IsOk result }
    {
        match place_of(self.rights.as_slice(), self.near, right) {
            Ok(at) => {
                self.near = at.wrapping_add(1);
                raise_at(&mut self.rights, at, right);
                Ok(false)
            }
            Err(at) => {
                if full {
                    return Err(AllocError);
                }
                put_at(&mut self.rights, at, right)?;
                self.near = at.wrapping_add(1);
                Ok(true)
            }
        }
    }

    // Lowers a count by one, and tells whether its number is gone.
    pub(crate) fn lower(&mut self, right: u32) -> bool
        requires row { IsRow self.old.1 }
        requires there { 0 < count_in self.old.1 right }
        ensures left { self.new.0 ≡ self.old.0 }
        ensures row { IsRow self.new.1 }
        ensures lowers { LowersIn self.old.1 self.new.1 right }
        ensures fewer { length self.new.1 + cond result 1 0 ≡ length self.old.1 }
    {
        match place_of(self.rights.as_slice(), self.near, right) {
            Ok(at) => {
                let gone = lower_at(&mut self.rights, at, right);
                self.near = if gone { at } else { at.wrapping_add(1) };
                gone
            }
            Err(_) => false,
        }
    }

    // An equal row.
    pub(crate) fn copy(&self) -> Result<Row, AllocError>
        ensures { IfOk result (λ r. r ≡ self.now) }
    {
        Ok(Row {
            left: self.left,
            rights: self.rights.clone()?,
            near: self.near,
        })
    }
}
