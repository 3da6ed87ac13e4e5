ghost use Rattle.std.specs.Prelude.{◌≡◌, ◌∷◌, ◌++◌, [], IfOk};
ghost use Rattle.row_codec.specs.RowForm.{key_of};
ghost use Rattle.row_codec.specs.RowKeys.{key_bytes, number_in_key};

use crate::rows::Row;
use std::alloc::{AllocError, Global};

fn short_key(alloc: Global, bytes: &[u8]) -> Result<Vec<u8>, AllocError>
    ensures { IfOk result (λ key. key.items ≡ bytes.now) }
{
    Vec::from_slice(alloc, bytes)
}

/// The key of a record: the number of its table, and its own.
pub fn record_key(alloc: Global, table: u8, no: u32) -> Result<Vec<u8>, AllocError>
    ensures { IfOk result (λ key. key.items ≡ table ∷ number_in_key no) }
{
    let mut key = Vec::new(alloc);
    key.push(table)?;
    key.extend_from_slice(&no.to_be_bytes())?;
    Ok(key)
}

fn pair_key(alloc: Global, table: u8, first: u32, second: u32) -> Result<Vec<u8>, AllocError>
    ensures { IfOk result (λ key. key.items ≡ table ∷ (number_in_key first ++ number_in_key second)) }
{
    let mut key = record_key(alloc, table, first)?;
    key.extend_from_slice(&second.to_be_bytes())?;
    Ok(key)
}

/// The key of a row.
pub fn write_key(alloc: Global, row: &Row) -> Result<Vec<u8>, AllocError>
    ensures { IfOk result (λ key. key.items ≡ key_bytes (key_of row.now)) }
{
    match row {
        Row::Next { kind, .. } => short_key(alloc, &[1, *kind]),
        Row::Setting { .. } => short_key(alloc, &[2]),
        Row::Identity { no, .. } => record_key(alloc, 3, no.0),
        Row::Service { no, .. } => record_key(alloc, 4, no.0),
        Row::Router { no, .. } => record_key(alloc, 5, no.0),
        Row::Link { no, .. } => record_key(alloc, 6, no.0),
        Row::ServicePolicy { no, .. } => record_key(alloc, 7, no.0),
        Row::EdgeRouterPolicy { no, .. } => record_key(alloc, 8, no.0),
        Row::ServiceEdgeRouterPolicy { no, .. } => record_key(alloc, 9, no.0),
        Row::Terminator { no, .. } => record_key(alloc, 10, no.0),
        Row::Circuit { no, .. } => record_key(alloc, 11, no.0),
        Row::Dial {
            identity,
            service,
            ..
        } => pair_key(alloc, 12, identity.0, service.0),
        Row::Bind {
            identity,
            service,
            ..
        } => pair_key(alloc, 13, identity.0, service.0),
        Row::IdentityRouter {
            identity,
            router,
            ..
        } => pair_key(alloc, 14, identity.0, router.0),
        Row::ServiceRouter {
            service,
            router,
            ..
        } => pair_key(alloc, 15, service.0, router.0),
        Row::Intercept { service, .. } => record_key(alloc, 16, service.0),
        Row::Serial { .. } => short_key(alloc, &[17]),
    }
}
