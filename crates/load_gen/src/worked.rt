ghost use Rattle.std.specs.Prelude.{◌≡◌, ℕ, [], ◌∷◌, codes, length};
ghost use Rattle.rand_pcg.specs.Pcg.{pcg32};
ghost use Rattle.ctrl_model.specs.declared.commands.Command.TheVariants as command;
ghost use Rattle.load_gen.specs.declared.groups.Group.TheVariants as group;
ghost use Rattle.load_gen.specs.Draws.{generator_of, for_each_to};
ghost use Rattle.load_gen.specs.LoadCommands.{made_for};
ghost use Rattle.load_gen.specs.LoadFrames.{frames_from, load_frames};

/// The load of every number has 1,364 frames.
pub fn how_many_frames()
    ensures { (n : ℕ) → length (load_frames n) ≡ 1364 }
{}

/// The first four words of the generator of 7.
pub fn worked_words()
    ensures first { (pcg32 (generator_of 7)).0 ≡ 2442223337 }
    ensures second { (pcg32 (pcg32 (generator_of 7)).1).0 ≡ 414063806 }
    ensures third { (pcg32 (pcg32 (pcg32 (generator_of 7)).1).1).0 ≡ 2743600285 }
    ensures fourth { (pcg32 (pcg32 (pcg32 (pcg32 (generator_of 7)).1).1).1).0 ≡ 3524868804 }
{}

/// What these words make: modulo 8 they are 1, 6, 5 and 4.
pub fn worked_commands()
    ensures { (for_each_to 2 (made_for group.Identities) (generator_of 7)).0
        ≡ command.CreateIdentity (codes "u1") (codes "g1" ∷ codes "h6" ∷ []) ∷ command.CreateIdentity (codes "u2") (codes "g5" ∷ codes "h4" ∷ []) ∷ [] }
{}

/// Their frames.
pub fn worked_frames()
    ensures { frames_from 0 (for_each_to 2 (made_for group.Identities) (generator_of 7)).0
        ≡ record { content = 1000; sequence = 0; headers = []; body = codes "{\"attributes\":[\"g1\",\"h6\"],\"name\":\"u1\"}" }
        ∷ record { content = 1000; sequence = 1; headers = []; body = codes "{\"attributes\":[\"g5\",\"h4\"],\"name\":\"u2\"}" } ∷ [] }
{}
