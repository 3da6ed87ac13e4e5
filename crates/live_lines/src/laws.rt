ghost use Rattle.std.specs.Prelude.{◌≡◌, ◌++◌, ℕ, List, Some};
ghost use Rattle.std.specs.declared.option.Option.{Option};
ghost use Rattle.frame_lines.specs.LineKinds.{Reading};
ghost use Rattle.frame_lines.specs.TextTelling.{text_of};
ghost use Rattle.live_lines.specs.InTime.{HasSaid};

/// What `HasSaid` says of a take of a told input, in plain words: of what had come, and no more, the lines had been said, and nothing else.
pub fn each_line_comes_in_time()
    ensures { (k : Reading) (came rest said : List ℕ) (said_then : Option (List ℕ)) → HasSaid k (Some (came ++ rest)) (Some rest) (Some said) said_then
        → said_then ≡ Some (said ++ text_of k came) }
{}
