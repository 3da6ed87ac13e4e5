ghost use Rattle.std.specs.Prelude.{◌≡◌, ◌↔◌, IfOk, IsTrue, length, []};

use std::alloc::{AllocError, Global};
use std::marker::Model;

/// Values of which an equal one can be made.
pub trait Copies: Sized {
    /// An equal value. An Err is want of memory.
    fn copy(&self) -> Result<Self, AllocError>
        ensures { IfOk result (λ c. c ≡ self.now) };
}

// Copies of some values.
fn copy_each<T: Copies + Drop>(alloc: Global, values: &[T]) -> Result<Vec<T>, AllocError>
    ensures { IfOk result (λ v. v.items ≡ values.now) }
{
    let mut copied = Vec::new(alloc);
    'values: for value in values {
        copied.push(value.copy()?)?;
    }
    Ok(copied)
}

/// A list of values, in order and with repeats. Contracts see the list.
#[derive(Drop)]
pub struct Items<T> {
    pub items: Vec<T>,
}

impl<T> Model for Items<T> {
    ghost use Rattle.std.specs.Prelude.{List};

    ghost Value = { List T };

    ghost view = { λ l. l.items.items };
}

impl<T> Items<T> {
    /// The values of a vector.
    pub fn of(items: Vec<T>) -> Items<T>
        ensures { result ≡ items.items }
    {
        Items { items }
    }

    /// The values as a slice.
    pub fn as_slice(&self) -> &[T]
        ensures { result.now ≡ self.now }
    {
        self.items.as_slice()
    }

    /// How many values there are.
    pub fn len(&self) -> usize
        ensures { result ≡ length self.now }
    {
        self.items.len()
    }

    /// Whether there are none.
    pub fn is_empty(&self) -> bool
        ensures { IsTrue result ↔ (self.now ≡ []) }
    {
        self.items.is_empty()
    }
}

impl<T: Copy> Items<T> {
    /// A copy of a slice of plain values. An Err is want of memory.
    pub fn from_slice(alloc: Global, values: &[T]) -> Result<Items<T>, AllocError>
        ensures { IfOk result (λ l. l ≡ values.now) }
    {
        let items = Vec::from_slice(alloc, values)?;
        Ok(Items { items })
    }
}

impl<T: Copies + Drop> Items<T> {
    /// An equal list. An Err is want of memory.
    pub fn copy(&self) -> Result<Items<T>, AllocError>
        ensures { IfOk result (λ l. l ≡ self.now) }
    {
        let items = copy_each(*self.items.allocator(), self.items.as_slice())?;
        Ok(Items { items })
    }
}

impl Copies for u8 {
    fn copy(&self) -> Result<u8, AllocError> {
        Ok(*self)
    }
}

impl Copies for u32 {
    fn copy(&self) -> Result<u32, AllocError> {
        Ok(*self)
    }
}

impl Copies for u64 {
    fn copy(&self) -> Result<u64, AllocError> {
        Ok(*self)
    }
}
