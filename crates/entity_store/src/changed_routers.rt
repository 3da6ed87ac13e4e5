ghost use Rattle.std.specs.Prelude.{◌≡◌, ◌++◌, ◌∷◌, [], not, ◌==◌, filter, IfOk};
ghost use Rattle.entity_store.specs.ChangedNumbers.{marked, router_seen, routers_after};

use crate::changes::EntityChange;
use ctrl_model::{Kind, RouterNo, RouterSeen};
use std::alloc::{AllocError, Global};

// A router as routes see it.
fn router_seen(number: u32, cost: u32, through: bool, connected: bool) -> RouterSeen
    ensures { result ≡ router_seen number cost through connected }
{
    RouterSeen {
        no: RouterNo(number),
        cost,
        through,
        connected,
    }
}

// The routers, and one more at their end.
fn routers_and(routers: Vec<RouterSeen>, last: RouterSeen) -> Result<Vec<RouterSeen>, AllocError>
    ensures { IfOk result (λ v. v.items ≡ routers.items ++ last ∷ []) }
{
    let mut found = routers;
    found.push(last)?;
    Ok(found)
}

// The routers, of which the one of a number has other marks.
fn marked(
    alloc: Global,
    routers: &[RouterSeen],
    new: RouterSeen,
) -> Result<Vec<RouterSeen>, AllocError>
    ensures { IfOk result (λ v. v.items ≡ marked new routers.now) }
{
    routers
        .iter()
        .map(|router| if router.no.0 == new.no.0 {
            new
        } else {
            *router
        })
        .collect(alloc)
}

// The routers without one.
fn routers_but(
    alloc: Global,
    routers: &[RouterSeen],
    gone: u32,
) -> Result<Vec<RouterSeen>, AllocError>
    ensures { IfOk result (λ v. v.items ≡ filter (λ r. not (r.no.0 == gone)) routers.now) }
{
    routers
        .iter()
        .copied()
        .filter(|router| router.no.0 != gone)
        .collect(alloc)
}

/// The routers after a change. One that is added has the next number.
pub fn routers_after(
    alloc: Global,
    change: &EntityChange,
    next: u32,
    routers: Vec<RouterSeen>,
) -> Result<Vec<RouterSeen>, AllocError>
    ensures { IfOk result (λ v. v.items ≡ routers_after change.now next routers.items) }
{
    match change {
        EntityChange::Add {
            kind: Kind::Router,
            ..
        } => routers_and(routers, router_seen(next, 0, true, false)),
        EntityChange::AddRouter { cost, through, .. } => {
            routers_and(routers, router_seen(next, *cost, *through, false))
        }
        EntityChange::DescribeRouter {
            number,
            cost,
            through,
            connected,
            ..
        }
        | EntityChange::Mark {
            number,
            cost,
            through,
            connected,
        } => marked(
            alloc,
            routers.as_slice(),
            router_seen(*number, *cost, *through, *connected),
        ),
        EntityChange::Remove {
            kind: Kind::Router,
            number,
            ..
        } => routers_but(alloc, routers.as_slice(), *number),
        _ => Ok(routers),
    }
}
