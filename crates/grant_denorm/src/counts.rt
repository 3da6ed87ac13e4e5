ghost use Rattle.std.specs.Prelude.{◌≡◌, ℕ, List, ◌+◌, ◌<◌, ◌==◌, [], cond, true, false, length, nat_lt, map, filter, IfOk, IfErr, OnOk, OnErr, IsOk};
ghost use Rattle.ctrl_model.specs.Limits.{most_number};
ghost use Rattle.grant_denorm.specs.PairCounts.{count_of, AreCounts, AreThose, Raises, Lowers};
ghost use Rattle.grant_denorm.specs.FlatRows.{StandsAt, WouldStandAt, NumbersAscend, AreRows, count_in, row_at, pairs_of};

use crate::rows::Row;
use ctrl_model::Numbers;
use std::alloc::{AllocError, Global};
use std::marker::Model;

/// Counts above 0 of pairs of numbers. Contracts see the pairs with their counts, in order.
#[derive(Drop)]
pub struct Counted {
    rows: Vec<Row>,
    pairs: u64,
    near: usize,
}

impl Model for Counted {
    ghost use Rattle.std.specs.Prelude.{◌≡◌, List, ℕ, length};
    ghost use Rattle.grant_denorm.specs.FlatRows.{AreRows, pairs_of};

    ghost Value = { List ((ℕ × ℕ) × ℕ) };

    ghost view = { λ c. pairs_of c.rows.items };

    ghost invariant = { λ c. AreRows c.rows.items × (c.pairs ≡ length (pairs_of c.rows.items)) };
}

// Where the row of a left number is, or where it would stand. It is looked for at a place first, and behind the others.
fn place_of(rows: &[Row], near: usize, left: u32) -> Result<usize, usize>
    requires { NumbersAscend rows.now }
    ensures found { IfOk result (StandsAt [] rows.now left) }
    ensures absent { IfErr result (WouldStandAt [] rows.now left) }
{
    if let Some(row) = rows.get(near) {
        if row.left() == left {
            return Ok(near);
        }
    }
    if let Some(last) = rows.last() {
        if last.left() < left {
            return Err(rows.len());
        }
    }
    rows.binary_search_by_key(&left, |row| row.left())
}

// The count of a pair, 0 where it has none.
fn pair_count(rows: &[Row], near: usize, a: u32, b: u32) -> u32
    requires { AreRows rows.now }
    ensures { result ≡ count_of (pairs_of rows.now) a b }
{
    match place_of(rows, near, a) {
        Ok(at) => rows[at].count(b),
        Err(_) => 0,
    }
}

// Puts in a row of one pair.
fn put_row(rows: &mut Vec<Row>, at: usize, a: u32, b: u32) -> Result<(), AllocError>
    requires rows { AreRows rows.old.items }
    requires place { WouldStandAt [] rows.old.items a at }
    ensures rows { AreRows rows.new.items }
    ensures ok { OnOk result (Raises (pairs_of rows.old.items) (pairs_of rows.new.items) a b) }
    ensures more { OnOk result (length (pairs_of rows.new.items) ≡ length (pairs_of rows.old.items) + 1) }
    ensures err { OnErr result (rows.new.items ≡ rows.old.items) }
{
    let row = Row::of_one(*rows.allocator(), a, b)?;
    rows.insert(at, row)?;
    Ok(())
}

// Raises the count of a right number in the row at a place, and tells whether it was not there. Where no pair may come in, it takes none.
fn raise_at(rows: &mut Vec<Row>, at: usize, a: u32, b: u32, full: bool) -> Result<bool, AllocError>
    requires rows { AreRows rows.old.items }
    requires place { StandsAt [] rows.old.items a at }
    requires room { count_of (pairs_of rows.old.items) a b < most_number }
    ensures rows { AreRows rows.new.items }
    ensures ok { OnOk result (Raises (pairs_of rows.old.items) (pairs_of rows.new.items) a b) }
    ensures more { IfOk result (λ came. length (pairs_of rows.new.items) ≡ length (pairs_of rows.old.items) + cond came 1 0) }
    ensures full { full ≡ true → IfOk result (λ came. came ≡ false) }
    ensures err { OnErr result (rows.new.items ≡ rows.old.items) }
    ensures there { 0 < count_of (pairs_of rows.old.items) a b → IsOk result }
{
    rows[at].raise(b, full)
}

// Lowers the count of a right number in the row at a place, and tells whether the pair is gone.
fn lower_at(rows: &mut Vec<Row>, at: usize, a: u32, b: u32) -> bool
    requires rows { AreRows rows.old.items }
    requires place { StandsAt [] rows.old.items a at }
    requires there { 0 < count_of (pairs_of rows.old.items) a b }
    ensures rows { AreRows rows.new.items }
    ensures lowers { Lowers (pairs_of rows.old.items) (pairs_of rows.new.items) a b }
    ensures fewer { length (pairs_of rows.new.items) + cond result 1 0 ≡ length (pairs_of rows.old.items) }
    ensures place { StandsAt [] rows.new.items a at }
{
    rows[at].lower(b)
}

// Takes out the row at a place if it is empty.
fn drop_empty(rows: &mut Vec<Row>, at: usize)
    requires rows { AreRows rows.old.items }
    requires place { at < length rows.old.items }
    ensures rows { AreRows rows.new.items }
    ensures same { pairs_of rows.new.items ≡ pairs_of rows.old.items }
{
    if rows[at].is_empty() {
        let row = rows.remove(at);
        drop(row);
    }
}

// The right numbers of a left number.
fn row_in(rows: &[Row], near: usize, alloc: Global, a: u32) -> Result<Vec<u32>, AllocError>
    requires { AreRows rows.now }
    ensures { IfOk result (λ v. v.items ≡ map (λ (x : ℕ × ℕ). x.0) (row_at rows.now a)) }
{
    match place_of(rows, near, a) {
        Ok(at) => rows[at].numbers(alloc),
        Err(_) => Ok(Vec::new(alloc)),
    }
}

// The left numbers of the rows that have a right number.
fn column_in(rows: &[Row], alloc: Global, b: u32) -> Result<Vec<u32>, AllocError>
    requires { AreRows rows.now }
    ensures { IfOk result (λ v. v.items ≡ map (λ (r : ℕ × List (ℕ × ℕ)). r.0) (filter (λ r. nat_lt 0 (count_in r.1 b)) rows.now)) }
{
    let mut column = Vec::new(alloc);
    'rows: for row in rows {
        if row.count(b) > 0 {
            column.push(row.left())?;
        }
    }
    Ok(column)
}

// Equal rows.
fn copy_of(rows: &[Row], alloc: Global) -> Result<Vec<Row>, AllocError>
    ensures { IfOk result (λ v. v.items ≡ rows.now) }
{
    let mut copied = Vec::new(alloc);
    'rows: for row in rows {
        copied.push(row.copy()?)?;
    }
    Ok(copied)
}

impl Counted {
    /// Counts of no pair, which takes no memory.
    pub fn new(alloc: Global) -> Counted
        ensures { result ≡ [] }
    {
        Counted {
            rows: Vec::new(alloc),
            pairs: 0,
            near: 0,
        }
    }

    /// Raises the count of a pair by one. Where the pair is there it takes no memory and answers Ok.
    pub fn raise(&mut self, a: u32, b: u32) -> Result<(), AllocError>
        requires { count_of self.old a b < most_number }
        ensures ok { OnOk result (Raises self.old self.new a b) }
        ensures err { OnErr result (self.new ≡ self.old) }
        ensures there { 0 < count_of self.old a b → IsOk result }
    {
        match place_of(self.rows.as_slice(), self.near, a) {
            Ok(at) => {
                let full = self.pairs == u64::MAX;
                let came = raise_at(&mut self.rows, at, a, b, full)?;
                self.near = at;
                self.pairs += u64::from(came);
            }
            Err(at) => {
                let Some(pairs) = self.pairs.checked_add(1) else {
                    return Err(AllocError);
                };
                put_row(&mut self.rows, at, a, b)?;
                self.near = at;
                self.pairs = pairs;
            }
        }
        Ok(())
    }

    /// Lowers the count of a pair that is there by one.
    pub fn lower(&mut self, a: u32, b: u32)
        requires { 0 < count_of self.old a b }
        ensures { Lowers self.old self.new a b }
    {
        if let Ok(at) = place_of(self.rows.as_slice(), self.near, a) {
            self.near = at;
            let gone = lower_at(&mut self.rows, at, a, b);
            drop_empty(&mut self.rows, at);
            self.pairs -= u64::from(gone);
        }
    }

    /// The count of a pair, 0 where it has none.
    pub fn count(&self, a: u32, b: u32) -> u32
        ensures { result ≡ count_of self.now a b }
    {
        pair_count(self.rows.as_slice(), self.near, a, b)
    }

    /// How many pairs have a count above 0. The pairs ascend, and each count is above 0.
    pub fn pairs(&self) -> u64
        ensures number { result ≡ length self.now }
        ensures counts { AreCounts self.now }
    {
        self.pairs
    }

    /// The right numbers of the pairs with this left number, ascending. It reads these pairs alone.
    pub fn row(&self, alloc: Global, a: u32) -> Result<Numbers, AllocError>
        ensures { IfOk result (AreThose (λ b. nat_lt 0 (count_of self.now a b))) }
    {
        let row = row_in(self.rows.as_slice(), self.near, alloc, a)?;
        Ok(Numbers::of(row))
    }

    /// The left numbers of the pairs with this right number, ascending. It looks for it among the pairs of each left number.
    pub fn column(&self, alloc: Global, b: u32) -> Result<Numbers, AllocError>
        ensures { IfOk result (AreThose (λ a. nat_lt 0 (count_of self.now a b))) }
    {
        let column = column_in(self.rows.as_slice(), alloc, b)?;
        Ok(Numbers::of(column))
    }

    /// Equal counts.
    pub fn copy(&self) -> Result<Counted, AllocError>
        ensures { IfOk result (λ c. c ≡ self.now) }
    {
        let rows = copy_of(self.rows.as_slice(), *self.rows.allocator())?;
        Ok(Counted {
            rows,
            pairs: self.pairs,
            near: self.near,
        })
    }
}
