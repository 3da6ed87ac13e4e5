ghost use Rattle.std.specs.Prelude.{◌≡◌, ◌↔◌, ◌⊎◌, ◌<◌, ℕ, List, [], true, map, None, Some};
ghost use Rattle.ctrl_model.specs.declared.commands.Command.TheVariants.{CreateCircuit};
ghost use Rattle.ctrl_model.specs.declared.refusals.Denial.{Denial};
ghost use Rattle.ctrl_model.specs.declared.refusals.Refusal.TheVariants.{Denied};
ghost use Rattle.ctrl_model.specs.declared.replies.Reply.TheVariants.{Refused};
ghost use Rattle.ctrl_model.specs.Choices.{failing, first_denial, first_rule};
ghost use Rattle.ctrl_model.specs.CircuitCommands.{ask_of};
ghost use Rattle.ctrl_model.specs.Controller.{carry};
ghost use Rattle.ctrl_model.specs.Membership.{Among};
ghost use Rattle.ctrl_model.specs.Networks.{network_of, Network, is_in_service};
ghost use Rattle.ctrl_model.specs.State.{State, Terminator, entity_named};
ghost use Rattle.access_reasons.specs.declared.findings.Standing.TheVariants.{Admissible};
ghost use Rattle.access_reasons.specs.Reasons.{standing, verdicts, why};

/// The first finding that fails is the rule by which a circuit request of the pair is denied, without an ingress and with the empty
/// instance; where none fails, none denies it.
pub fn the_first_failing_finding_denies()
    ensures first { (s : State) (identity service : List ℕ) → first_denial (verdicts (why s identity service)) ≡ first_rule (network_of s) (ask_of identity service None [] s) }
    ensures denied { (s : State) (identity service : List ℕ) (d : Denial) → first_denial (verdicts (why s identity service)) ≡ Some d
        → carry (CreateCircuit identity service None []) s ≡ (Refused (Denied d), s) }
{}

/// A terminator is admissible exactly where it can be used.
pub fn admissible_terminators_are_in_service()
    ensures { (w : Network) (e : ℕ × Terminator) → ((standing w e.1 ≡ Admissible) ↔ (is_in_service w e ≡ true)) }
{}
