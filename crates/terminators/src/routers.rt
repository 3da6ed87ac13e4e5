ghost use Rattle.std.specs.Prelude.{◌≡◌, ◌==◌, false, find, option_map};
ghost use Rattle.std.specs.Option.{option_map_or};

use ctrl_model::{RouterNo, RouterSeen};

/// The router of a number, if it is present: the first of these that has it.
pub fn router_at(routers: &[RouterSeen], router: RouterNo) -> Option<&RouterSeen>
    ensures { option_map (λ r. r.now) result ≡ find (λ r. r.no.0 == router.0) routers.now }
{
    routers.iter().find(|other| other.no.0 == router.0)
}

/// Whether the router of a number is present and connected.
pub fn is_connected(routers: &[RouterSeen], router: RouterNo) -> bool
    ensures { result ≡ option_map_or (λ r. r.connected) (find (λ r. r.no.0 == router.0) routers.now) false }
{
    match router_at(routers, router) {
        Some(present) => present.connected,
        None => false,
    }
}
