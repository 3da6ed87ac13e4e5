ghost use Rattle.std.specs.Prelude.{◌≡◌, ℕ, true, false, None, Some};
ghost use Rattle.ctrl_model.specs.State.{start};
ghost use Rattle.ctrl_model.specs.declared.refusals.Refusal.TheVariants.{Exists};
ghost use Rattle.ctrl_model.specs.declared.replies.Reply.TheVariants.{Done, Empty, Made, Refused, Verified};
ghost use Rattle.model_laws.specs.Plans.{changed, led_by, refused, shown, tells_change};

use ctrl_model::{Refusal, Reply};

/// The answer to a command, planned: the reply, and the change that carries it out. None is a reply that changes nothing. Each
/// family of commands has its own type of changes.
#[derive(Drop)]
pub struct Plan<C> {
    pub reply: Reply,
    pub change: Option<C>,
}

impl<C> Plan<C> {
    /// The plan of a reply that changes nothing.
    pub fn shown(reply: Reply) -> Plan<C>
        ensures { result ≡ shown reply }
    {
        Plan {
            reply,
            change: None,
        }
    }

    /// The plan of a refusal, which changes nothing.
    pub fn refused(refusal: Refusal) -> Plan<C>
        ensures { result ≡ refused refusal }
    {
        Plan::shown(Reply::Refused(refusal))
    }

    /// The plan of a reply with a change.
    pub fn changed(reply: Reply, change: C) -> Plan<C>
        ensures { result ≡ changed reply change }
    {
        Plan {
            reply,
            change: Some(change),
        }
    }
}

/// Which replies may tell of a change: those of commands that were carried out. A plan without a change leaves the state.
pub fn told_changes()
    ensures done { tells_change Done ≡ true }
    ensures made { tells_change (Made 3) ≡ true }
    ensures greeting { tells_change Empty ≡ false }
    ensures refused { tells_change (Refused Exists) ≡ false }
    ensures shown { tells_change (Verified true) ≡ false }
    ensures stays { led_by {C = ℕ} (λ n s. record s { least_router_cost = n }) None start ≡ start }
    ensures changes { led_by {C = ℕ} (λ n s. record s { least_router_cost = n }) (Some 20) start ≡ record start { least_router_cost = 20 } }
{}
