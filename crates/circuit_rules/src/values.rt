ghost use Rattle.std.specs.Prelude.{◌≡◌, ◌==◌, find, option_map, unwrap_or, slice_get};
ghost use Rattle.ctrl_model.specs.Claims.{no_path, router_numbers, value_at, claimed};
ghost use Rattle.circuit_rules.specs.Views.{network};

use crate::places::place_in;
use crate::views::View;
use ctrl_model::{Reach, RouterNo};

// The value at a place, `u64::MAX` past the end.
fn value_in(values: &[u64], place: usize) -> u64
    ensures { result ≡ unwrap_or (slice_get values.now place) no_path }
{
    values.get(place).copied().unwrap_or(u64::MAX)
}

/// The value that an entry gives a router: the one at the router's place among the routers.
pub fn value_at(view: &View, values: &[u64], router: RouterNo) -> u64
    ensures { result ≡ value_at (router_numbers (network view.now)) values.now router.0 }
{
    let place = place_in(view.routers, router);
    if place < view.routers.len() {
        value_in(values, place)
    } else {
        u64::MAX
    }
}

// The entry for a router, if there is one.
fn entry_for(entries: &[Reach], target: RouterNo) -> Option<&Reach>
    ensures { option_map (λ e. e.now) result ≡ find (λ e. e.router.0 == target.0) entries.now }
{
    entries.iter().find(|entry| entry.router.0 == target.0)
}

/// The value that a claim gives a router on the way to a target.
pub fn claimed(view: &View, entries: &[Reach], target: RouterNo, router: RouterNo) -> u64
    ensures { result ≡ claimed (network view.now) entries.now target.0 router.0 }
{
    match entry_for(entries, target) {
        Some(entry) => value_at(view, entry.values.as_slice(), router),
        None => u64::MAX,
    }
}
