ghost use Rattle.std.specs.Prelude.{◌≡◌, ◌++◌, ℕ, List, codes, true};
ghost use Rattle.ctrl_model.specs.declared.commands.Command.TheVariants as command;
ghost use Rattle.ctrl_model.specs.declared.intercepts.Intercept.{Intercept};
ghost use Rattle.ctrl_model.specs.InterceptForm.{is_intercept};
ghost use Rattle.ctrl_model.specs.NameForm.{is_name};
ghost use Rattle.command_bodies.specs.BodyTexts.{body_text};
ghost use Rattle.record_lines.specs.RecordWords.{addresses_word, ports_word, protocols_word, quoted_word};

/// The fields of a line copied into a command, with the name of its service, are the body that sets the intercept.
pub fn fields_are_the_body()
    ensures { (name : List ℕ) (i : Intercept) → is_name name ≡ true → is_intercept i ≡ true
        → body_text (command.SetIntercept name i) ≡ codes "{\"addresses\":" ++ (addresses_word i ++ (codes ",\"ports\":" ++ (ports_word i ++ (codes ",\"protocols\":" ++ (protocols_word i ++ (codes ",\"service\":" ++ (quoted_word name ++ codes "}"))))))) }
{}
