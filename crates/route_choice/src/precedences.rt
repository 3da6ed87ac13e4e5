ghost use Rattle.std.specs.Prelude.{◌≡◌, IfOk};
ghost use Rattle.ctrl_model.specs.Choices.{place_of};
ghost use Rattle.route_choice.specs.RouteChoices.{exits_at};

use crate::choosing::Exit;
use ctrl_model::Precedence;
use std::alloc::{AllocError, Global};

/// The place of a precedence: required before default before failed.
pub fn place_of(precedence: Precedence) -> u8
    ensures { result ≡ place_of precedence }
{
    match precedence {
        Precedence::Required => 1,
        Precedence::Normal => 2,
        Precedence::Failed => 3,
    }
}

/// Those of the exits whose precedence stands at a place.
pub fn exits_at(alloc: Global, exits: &[Exit], place: u8) -> Result<Vec<Exit>, AllocError>
    ensures { IfOk result (λ v. v.items ≡ exits_at place exits.now) }
{
    exits
        .iter()
        .copied()
        .filter(|exit| place_of(exit.precedence) == place)
        .collect(alloc)
}
