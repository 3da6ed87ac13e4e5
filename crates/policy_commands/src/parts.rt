ghost use Rattle.std.specs.Prelude.{◌≡◌, IfOk};
ghost use Rattle.ctrl_model.specs.Controller.{policy};

use ctrl_model::{Name, Relation, Semantic, Side};
use policy_store::{Policy, policy_of};
use std::alloc::AllocError;
use std::marker::Model;

/// A policy whose name and sides are lent, as a command's fields say it. Contracts see it as a policy of the controller's state.
#[derive(Drop)]
pub struct PolicyView<'a> {
    pub name: &'a Name,
    pub relation: Relation,
    pub semantic: Semantic,
    pub left: &'a Side,
    pub right: &'a Side,
}

impl<'a> Model for PolicyView<'a> {
    ghost use Rattle.ctrl_model.specs.State as state;

    ghost Value = { state.Policy };

    ghost view = { λ p. record { name = p.name.now; relation = p.relation; semantic = p.semantic; left = p.left.now; right = p.right.now } };
}

impl<'a> PolicyView<'a> {
    /// The policy that a command's fields say.
    pub fn of(
        name: &'a Name,
        relation: Relation,
        semantic: Semantic,
        left: &'a Side,
        right: &'a Side,
    ) -> PolicyView<'a>
        ensures { result ≡ policy name.now relation semantic left.now right.now }
    {
        PolicyView {
            name,
            relation,
            semantic,
            left,
            right,
        }
    }

    /// An equal policy that owns its parts.
    pub fn copied(&self) -> Result<Policy, AllocError>
        ensures { IfOk result (λ p. p ≡ self.now) }
    {
        policy_of(
            self.name,
            self.relation,
            self.semantic,
            self.left,
            self.right,
        )
    }
}
