ghost use Rattle.std.specs.Prelude.{◌≡◌, ◌<◌, true};
ghost use Rattle.ctrl_model.specs.declared.commands.Command.{Command};
ghost use Rattle.ctrl_model.specs.declared.kinds.Who.{Who};
ghost use Rattle.ctrl_model.specs.State.{State, start};
ghost use Rattle.ctrl_model.specs.SpelledCommands.{is_spelled};
ghost use Rattle.ctrl_model.specs.Controller.{answer, numbered};
ghost use Rattle.ctrl_model.specs.Limits.{last_serial};
ghost use Rattle.ctrl_model.specs.ValidState.{ValidState};
ghost use Rattle.model_laws.specs.JudgedCircuits.{AreGranted};

/// The state at the start is valid, and a valid state stays valid: for every role and every command that some body spells,
/// the next state of a valid one is valid, and below the last serial it is so once it is counted.
pub fn valid_stays_valid()
    ensures at_start { ValidState start }
    ensures stays { (who : Who) (c : Command) (s : State) → is_spelled c ≡ true → ValidState s → ValidState (answer who c s).1 }
    ensures counted { (who : Who) (c : Command) (s : State) → is_spelled c ≡ true → ValidState s → s.serial < last_serial → ValidState (numbered s (answer who c s)).1 }
{}

/// Circuits stand only while what granted them stands: it stands for each circuit of the state at the start, and for every role and every
/// command that some body spells, where it stands for each circuit of a valid state, it stands for each of the next (docs/RULES.md,
/// "Settling").
pub fn granted_circuits_stay_granted()
    ensures at_start { AreGranted start }
    ensures stays { (who : Who) (c : Command) (s : State) → is_spelled c ≡ true → ValidState s → AreGranted s → AreGranted (answer who c s).1 }
{}
