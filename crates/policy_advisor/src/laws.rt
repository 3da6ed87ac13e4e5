ghost use Rattle.std.specs.Prelude.{◌≡◌, ◌⊎◌, ◌++◌, ℕ, List, [], None, Some, count_by};
ghost use Rattle.ctrl_model.specs.declared.commands.Command.TheVariants.{CreateCircuit};
ghost use Rattle.ctrl_model.specs.declared.refusals.Denial.{Denial};
ghost use Rattle.ctrl_model.specs.declared.refusals.Denial.TheVariants.{NoPath, CircuitsFull};
ghost use Rattle.ctrl_model.specs.declared.refusals.Refusal.TheVariants.{Denied};
ghost use Rattle.ctrl_model.specs.declared.replies.Reply.TheVariants.{Refused};
ghost use Rattle.ctrl_model.specs.Choices.{Ask, failing, first_rule, rules_but_paths, rules_on_paths};
ghost use Rattle.ctrl_model.specs.CircuitCommands.{ask_of};
ghost use Rattle.ctrl_model.specs.Controller.{carry};
ghost use Rattle.ctrl_model.specs.Networks.{Network, network_of};
ghost use Rattle.ctrl_model.specs.State.{State};
ghost use Rattle.policy_advisor.specs.Advice.{advice_of, has_both};

/// The rule of an advice is the first rule of a circuit request of the pair without ingress and with the empty instance, which is
/// denied by it. Where there is none, only the want of a path and of room for circuits can deny the request.
pub fn the_rule_denies_a_circuit()
    ensures rules { (w : Network) (ask : Ask) (i s : ℕ) → failing w ask i s ≡ rules_but_paths w ask i s ++ rules_on_paths w ask i s }
    ensures first { (s : State) (identity service : List ℕ) (d : Denial) → (advice_of s identity service).rule ≡ Some d
        → first_rule (network_of s) (ask_of identity service None [] s) ≡ Some d }
    ensures denied { (s : State) (identity service : List ℕ) (d : Denial) → (advice_of s identity service).rule ≡ Some d
        → carry (CreateCircuit identity service None []) s ≡ (Refused (Denied d), s) }
    ensures none { (s : State) (identity service : List ℕ) → (advice_of s identity service).rule ≡ None
        → (first_rule (network_of s) (ask_of identity service None [] s) ≡ None)
        ⊎ ((first_rule (network_of s) (ask_of identity service None [] s) ≡ Some NoPath)
        ⊎ (first_rule (network_of s) (ask_of identity service None [] s) ≡ Some CircuitsFull)) }
{}

/// As many policies have both marks as the count of Dial says.
pub fn policies_with_both_marks_are_counted()
    ensures { (s : State) (identity service : List ℕ) → count_by has_both (advice_of s identity service).policies ≡ (advice_of s identity service).dial }
{}
