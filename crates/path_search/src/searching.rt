ghost use Rattle.std.specs.Prelude.{◌≡◌, ◌<◌, ℕ, All, length, OnOk};
ghost use Rattle.path_search.specs.Visits.{costs_to};
ghost use Rattle.path_search.specs.ExitCosts.{AreCosts};

use crate::visiting::CostSearch;
use route_choice::Exit;
use std::alloc::{AllocError, Global};

/// Searches the least costs to the place of each exit.
pub fn visit_exits(alloc: Global, search: &mut CostSearch, exits: &[Exit]) -> Result<(), AllocError>
    requires { All (λ o. o.place < length search.old.graph.through) exits.now }
    ensures graph { search.new.graph ≡ search.old.graph }
    ensures costs { OnOk result ((t : ℕ) → AreCosts search.new.graph exits.now t (costs_to search.new.costs t)) }
{
    'exits: for exit in exits {
        search.visit(alloc, exit.place)?;
    }
    Ok(())
}
