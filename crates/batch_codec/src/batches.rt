ghost use Rattle.std.specs.Prelude.{◌≡◌, ◌↔◌, ◌++◌, ◌∷◌, [], Some, true, false, IfOk, OnOk, IsErrOf, List};
ghost use Rattle.std.specs.Option.{option_map};
ghost use Rattle.row_codec.specs.declared.changes.Op.{Op};
ghost use Rattle.row_codec.specs.Batches.{IsBatch, IsSpelledOp, Spells, op_at, op_bytes, batch_bytes, batch_of, ops_at};
ghost use Rattle.row_codec.specs.BatchReading.{IsSpelled, front_op, next_op, comes_after};
ghost use Rattle.row_codec.specs.RowDifference.{said_of};

use ctrl_model::Bytes;
use row_codec::{
    Batch, Change, Changes, Op, RowFault, push_long, push_text, split_byte, split_long, split_part,
    split_text,
};
use std::alloc::{AllocError, Global};

fn push_put(out: &mut Vec<u8>, key: &Bytes, value: &Bytes) -> Result<(), AllocError>
    requires { IsSpelledOp (Op.Put key.now value.now) }
    ensures { OnOk result (out.new.items ≡ out.old.items ++ op_bytes (Op.Put key.now value.now)) }
{
    out.push(1)?;
    push_text(out, key.as_slice())?;
    push_long(out, value.len() as u32)?;
    out.extend_from_slice(value.as_slice())
}

fn push_delete(out: &mut Vec<u8>, key: &Bytes) -> Result<(), AllocError>
    requires { IsSpelledOp (Op.Delete key.now) }
    ensures { OnOk result (out.new.items ≡ out.old.items ++ op_bytes (Op.Delete key.now)) }
{
    out.push(2)?;
    push_text(out, key.as_slice())
}

fn push_op(out: &mut Vec<u8>, op: &Op) -> Result<(), AllocError>
    requires { IsSpelledOp op.now }
    ensures { OnOk result (out.new.items ≡ out.old.items ++ op_bytes op.now) }
{
    match op {
        Op::Put { key, value } => push_put(out, key, value),
        Op::Delete { key } => push_delete(out, key),
    }
}

fn push_ops(out: &mut Vec<u8>, ops: &[Op]) -> Result<(), AllocError>
    requires { IsBatch ops.now }
    ensures { OnOk result (out.new.items ≡ out.old.items ++ batch_bytes ops.now) }
{
    'ops: for op in ops {
        push_op(out, op)?;
    }
    Ok(())
}

/// The spelling of a batch whose keys rise and whose lengths fit.
pub fn write_batch(alloc: Global, batch: &Batch) -> Result<Bytes, AllocError>
    requires { IsBatch batch.now }
    ensures { IfOk result (λ bytes. bytes ≡ batch_bytes batch.now) }
{
    let mut out = Vec::new(alloc);
    push_ops(&mut out, batch.as_slice())?;
    Ok(Bytes::of(out))
}

// The operation at the front of some bytes: its key, what it puts there, and what follows it.
fn split_op(bytes: &[u8]) -> Option<(&[u8], Option<&[u8]>, &[u8])>
    ensures { option_map (λ p. (op_at p.0.now (option_map (λ v. v.now) p.1), p.2.now)) result ≡ front_op bytes.now }
{
    let (mark, rest) = split_byte(bytes)?;
    if mark == 1 {
        let (key, rest) = split_text(rest)?;
        let (len, rest) = split_long(rest)?;
        let (value, rest) = split_part(rest, len as usize)?;
        return Some((key, Some(value), rest));
    }
    if mark == 2 {
        let (key, rest) = split_text(rest)?;
        return Some((key, None, rest));
    }
    None
}

fn comes_after(last: Option<&[u8]>, key: &[u8]) -> bool
    ensures { result ≡ comes_after (option_map (λ l. l.now) last.entry) key.now }
{
    match last {
        None => true,
        Some(last) => last.cmp(key).is_lt(),
    }
}

// The operation at the front of the rest, where its key comes after the last one.
fn next_op<'a>(
    last: Option<&[u8]>,
    rest: &'a [u8],
) -> Option<(&'a [u8], Option<&'a [u8]>, &'a [u8])>
    ensures { option_map (λ p. (op_at p.0.now (option_map (λ v. v.now) p.1), p.2.now)) result ≡ next_op (option_map (λ l. l.now) last.entry) rest.now }
{
    let (key, value, after) = split_op(rest)?;
    if comes_after(last, key) {
        Some((key, value, after))
    } else {
        None
    }
}

// Whether the bytes spell a batch. No memory is taken.
fn is_batch(bytes: &[u8]) -> bool
    ensures yes { result ≡ true → IsSpelled bytes.now }
    ensures no { result ≡ false → (ops : List Op) → Spells bytes.now ops → ⊥ }
{
    let mut last: Option<&[u8]> = None;
    let mut rest = bytes;
    'ops: while !rest.is_empty() {
        let Some((key, _, after)) = next_op(last, rest) else {
            return false;
        };
        last = Some(key);
        rest = after;
    }
    true
}

fn add_op(ops: &mut Vec<Op>, key: &[u8], value: Option<&[u8]>) -> Result<(), AllocError>
    ensures { OnOk result (ops.new.items ≡ ops.old.items ++ (op_at key.now (option_map (λ v. v.now) value.entry) ∷ [])) }
{
    match value {
        None => add_delete(ops, key),
        Some(value) => add_put(ops, key, value),
    }
}

fn ops_from(alloc: Global, bytes: &[u8]) -> Result<Vec<Op>, RowFault>
    ensures read { IfOk result (λ ops. Spells bytes.now ops.items) }
    ensures bad { IsErrOf result RowFault.BadBatch → (ops : List Op) → Spells bytes.now ops → ⊥ }
    ensures never { IsErrOf result RowFault.BadRow → ⊥ }
{
    let mut ops = Vec::new(alloc);
    let mut last: Option<&[u8]> = None;
    let mut rest = bytes;
    'ops: while !rest.is_empty() {
        let Some((key, value, after)) = next_op(last, rest) else {
            return Err(RowFault::BadBatch);
        };
        add_op(&mut ops, key, value)?;
        last = Some(key);
        rest = after;
    }
    Ok(ops)
}

/// The batch that the bytes spell. `BadBatch` comes exactly where they spell none; `BadRow` never comes.
pub fn read_batch(alloc: Global, bytes: &[u8]) -> Result<Batch, RowFault>
    ensures read { IfOk result (λ batch. Spells bytes.now batch) }
    ensures bad { IsErrOf result RowFault.BadBatch ↔ ((ops : List Op) → Spells bytes.now ops → ⊥) }
    ensures never { IsErrOf result RowFault.BadRow → ⊥ }
{
    if !is_batch(bytes) {
        return Err(RowFault::BadBatch);
    }
    let ops = ops_from(alloc, bytes)?;
    Ok(Batch::of(ops))
}

fn add_put(ops: &mut Vec<Op>, key: &[u8], value: &[u8]) -> Result<(), AllocError>
    ensures { OnOk result (ops.new.items ≡ ops.old.items ++ (Op.Put key.now value.now ∷ [])) }
{
    let key = Bytes::from_slice(*ops.allocator(), key)?;
    let value = Bytes::from_slice(*ops.allocator(), value)?;
    Ok(ops.push(Op::Put { key, value })?)
}

fn add_delete(ops: &mut Vec<Op>, key: &[u8]) -> Result<(), AllocError>
    ensures { OnOk result (ops.new.items ≡ ops.old.items ++ (Op.Delete key.now ∷ [])) }
{
    let key = Bytes::from_slice(*ops.allocator(), key)?;
    Ok(ops.push(Op::Delete { key })?)
}

fn add_other(ops: &mut Vec<Op>, key: &[u8], old: &[u8], new: &[u8]) -> Result<(), AllocError>
    ensures { OnOk result (ops.new.items ≡ ops.old.items ++ ops_at key.now (said_of (Some old.now) (Some new.now))) }
{
    if old == new {
        return Ok(());
    }
    add_put(ops, key, new)
}

fn add_change(ops: &mut Vec<Op>, change: &Change) -> Result<(), AllocError>
    ensures { OnOk result (ops.new.items ≡ ops.old.items ++ ops_at change.now.key (said_of change.now.before change.now.after)) }
{
    match (&change.before, &change.after) {
        (None, None) => Ok(()),
        (None, Some(value)) => add_put(ops, change.key.as_slice(), value.as_slice()),
        (Some(_), None) => add_delete(ops, change.key.as_slice()),
        (Some(old), Some(new)) => add_other(
            ops,
            change.key.as_slice(),
            old.as_slice(),
            new.as_slice(),
        ),
    }
}

fn ops_of(alloc: Global, changes: &[Change]) -> Result<Vec<Op>, AllocError>
    ensures { IfOk result (λ ops. ops.items ≡ batch_of changes.now) }
{
    let mut ops = Vec::new(alloc);
    'changes: for change in changes {
        add_change(&mut ops, change)?;
    }
    Ok(ops)
}

/// The batch that changes make: for each what must be said of its key, in their order.
pub fn batch_of(alloc: Global, changes: &Changes) -> Result<Batch, AllocError>
    ensures { IfOk result (λ batch. batch ≡ batch_of changes.now) }
{
    let ops = ops_of(alloc, changes.as_slice())?;
    Ok(Batch::of(ops))
}
