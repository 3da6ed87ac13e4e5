ghost use Rattle.std.specs.Prelude.{◌≡◌, IfOk};

use ctrl_model::{Bytes, Copies, Items};
use std::alloc::AllocError;

/// One change of rows: a row put under its key, or the row at a key deleted.
#[derive(Drop)]
pub enum Op {
    Put { key: Bytes, value: Bytes },
    Delete { key: Bytes },
}

fn copy_put(key: &Bytes, value: &Bytes) -> Result<Op, AllocError>
    ensures { IfOk result (λ op. op ≡ Op.Put key.now value.now) }
{
    let key = key.copy()?;
    let value = value.copy()?;
    Ok(Op::Put { key, value })
}

impl Copies for Op {
    fn copy(&self) -> Result<Op, AllocError> {
        match self {
            Op::Put { key, value } => copy_put(key, value),
            Op::Delete { key } => Ok(Op::Delete { key: key.copy()? }),
        }
    }
}

/// Changes of rows that are made together.
pub type Batch = Items<Op>;

/// The row at a key before and after a change, where there is one.
#[derive(Drop)]
pub struct Change {
    pub key: Bytes,
    pub before: Option<Bytes>,
    pub after: Option<Bytes>,
}

fn copy_value(value: &Option<Bytes>) -> Result<Option<Bytes>, AllocError>
    ensures { IfOk result (λ v. v ≡ value.now) }
{
    match value {
        None => Ok(None),
        Some(value) => Ok(Some(value.copy()?)),
    }
}

impl Copies for Change {
    fn copy(&self) -> Result<Change, AllocError> {
        let key = self.key.copy()?;
        let before = copy_value(&self.before)?;
        let after = copy_value(&self.after)?;
        Ok(Change { key, before, after })
    }
}

/// Rows before and after a change, key by key.
pub type Changes = Items<Change>;
