ghost use Rattle.std.specs.Prelude.{◌≡◌, ◌↔◌, ℕ, List, Ok, Err, true};
ghost use Rattle.ctrl_model.specs.declared.commands.Command.{Command};
ghost use Rattle.ctrl_model.specs.SpelledCommands.{is_spelled};
ghost use Rattle.command_codec.specs.declared.reading.CodecFault.{CodecFault};
ghost use Rattle.command_codec.specs.declared.reading.CodecFault.TheVariants.{NoMemory};
ghost use Rattle.command_codec.specs.BodyMeaning.{meaning};
ghost use Rattle.command_codec.specs.FirstCauses.{IsFirstCause};
ghost use Rattle.command_codec.specs.SpelledBodies.{Spells};

/// A body means a command exactly where it spells it: the order in which fields are read decides the cause of a fault alone.
/// What a body means keeps the kinds, the ranges and the lengths of its fields.
pub fn what_a_body_spells()
    ensures spells { (content : ℕ) (body : List ℕ) (c : Command) → ((meaning content body ≡ Ok c) ↔ Spells content body c) }
    ensures spelled { (content : ℕ) (body : List ℕ) (c : Command) → meaning content body ≡ Ok c → is_spelled c ≡ true }
{}

/// Why a body means no command is the first cause: its content type is none of the table; or the body is no object; or its object
/// breaks the rule of one field and keeps those of the fields before it; or it keeps them all and has another key. Want of memory is
/// none of these.
pub fn the_first_cause()
    ensures first { (content : ℕ) (body : List ℕ) (cause : CodecFault) → ((meaning content body ≡ Err cause) ↔ IsFirstCause content body cause) }
    ensures memory { (content : ℕ) (body : List ℕ) → meaning content body ≡ Err NoMemory → ⊥ }
{}
