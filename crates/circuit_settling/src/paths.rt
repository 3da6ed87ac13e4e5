ghost use Rattle.std.specs.Prelude.{◌≡◌, [], ◌∷◌, IfOk};
ghost use Rattle.ctrl_model.specs.Networks.{is_path, hops};
ghost use Rattle.ctrl_model.specs.Walks.{goes};
ghost use Rattle.circuit_settling.specs.PresentRecords.{network_in};

use crate::staying::Present;
use ctrl_model::{LinkNo, Numbers, RouterNo};
use record_tables::is_among;
use std::alloc::{AllocError, Global};
use terminators::is_connected;

// Whether the links are a walk to the target, on which no router is visited twice.
fn goes(
    alloc: Global,
    present: &Present,
    target: RouterNo,
    from: RouterNo,
    links: &[u32],
) -> Result<bool, AllocError>
    ensures { IfOk result (λ b. b ≡ goes (hops (network_in present.now) target.0) target.0 (from.0 ∷ []) from.0 links.now) }
{
    let mut visited = vec![in alloc; from.0]?;
    let mut at = from;
    'links: for link in links {
        let Some(hop) = present
            .fabric
            .hop(present.routers, target, at, LinkNo(*link))
        else {
            return Ok(false);
        };
        if is_among(hop.to.0, visited.as_slice()) {
            return Ok(false);
        }
        visited.push(hop.to.0)?;
        at = hop.to;
    }
    Ok(at.0 == target.0)
}

/// Whether the links are a path from one router to another: both are present and connected, and the links lead from the one to
/// the other without visiting a router twice.
pub fn is_path(
    alloc: Global,
    present: &Present,
    from: RouterNo,
    links: &Numbers,
    target: RouterNo,
) -> Result<bool, AllocError>
    ensures { IfOk result (λ b. b ≡ is_path (network_in present.now) from.0 links.now target.0) }
{
    if !is_connected(present.routers, from) || !is_connected(present.routers, target) {
        return Ok(false);
    }
    goes(alloc, present, target, from, links.as_slice())
}
