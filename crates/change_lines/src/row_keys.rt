ghost use Rattle.std.specs.Prelude.{◌≡◌};
ghost use Rattle.row_codec.specs.RowForm.{key_of};
ghost use Rattle.row_codec.specs.RowKeys.{key_cmp, key_in};
ghost use Rattle.row_codec.specs.RowKeys.RowTable.{Next, Setting, Serial};

use row_codec::Row;
use std::cmp::Ordering;

/// The key of a row: the number of its table, and the two numbers under which it stands there.
pub(crate) fn key_of(row: &Row) -> (u8, u32, u32)
    ensures { result ≡ key_of row.now }
{
    match row {
        Row::Next { kind, .. } => (1, u32::from(*kind), 0),
        Row::Setting { .. } => (2, 0, 0),
        Row::Identity { no, .. } => (3, no.0, 0),
        Row::Service { no, .. } => (4, no.0, 0),
        Row::Router { no, .. } => (5, no.0, 0),
        Row::Link { no, .. } => (6, no.0, 0),
        Row::ServicePolicy { no, .. } => (7, no.0, 0),
        Row::EdgeRouterPolicy { no, .. } => (8, no.0, 0),
        Row::ServiceEdgeRouterPolicy { no, .. } => (9, no.0, 0),
        Row::Terminator { no, .. } => (10, no.0, 0),
        Row::Circuit { no, .. } => (11, no.0, 0),
        Row::Dial {
            identity,
            service,
            ..
        } => (12, identity.0, service.0),
        Row::Bind {
            identity,
            service,
            ..
        } => (13, identity.0, service.0),
        Row::IdentityRouter {
            identity,
            router,
            ..
        } => (14, identity.0, router.0),
        Row::ServiceRouter {
            service,
            router,
            ..
        } => (15, service.0, router.0),
        Row::Intercept { service, .. } => (16, service.0, 0),
        Row::Serial { .. } => (17, 0, 0),
    }
}

/// How the keys of two rows follow one another.
pub(crate) fn key_cmp(one: &Row, other: &Row) -> Ordering
    ensures { result ≡ key_cmp (key_of one.now) (key_of other.now) }
{
    let x = key_of(one);
    let y = key_of(other);
    x.0.cmp(&y.0).then(x.1.cmp(&y.1)).then(x.2.cmp(&y.2))
}
