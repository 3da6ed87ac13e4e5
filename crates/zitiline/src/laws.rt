ghost use Rattle.std.specs.Prelude.{◌≡◌, ℕ, true, false, List, [], ◌++◌, None, Some};
ghost use Rattle.std.specs.declared.option.Option.{Option};
ghost use Rattle.ziti_outside.specs.Told.{Took};
ghost use Rattle.ziti_outside.specs.Causes.{Rose};
ghost use Rattle.ziti_outside.specs.Views.{Seen};
ghost use Rattle.zitiline.specs.declared.words.Form.{Form};
ghost use Rattle.zitiline.specs.declared.status.Status.TheVariants.{Done, Refused, BadInput};
ghost use Rattle.zitiline.specs.Answers.{said_of, fault_of, has_refusal};
ghost use Rattle.zitiline.specs.Notes.{note_of};
ghost use Rattle.zitiline.specs.Headline.{Answers};
ghost use Rattle.zitiline.specs.SaidAll.{HasFault};

/// What `Done` says of a told input, in plain words: it was read to its end, it has no fault and no refusal, and exactly what is to be said of it
/// was said.
pub fn done_says_all()
    ensures read { (form : Form) (input : List ℕ) (left : Option (List ℕ)) (before now : Seen)
        → Answers form (Some input) left before now Done → left ≡ Some [] }
    ensures said { (form : Form) (input said : List ℕ) (left : Option (List ℕ)) (before now : Seen)
        → before.said ≡ Some said → Answers form (Some input) left before now Done → now.said ≡ Some (said ++ said_of form input) }
    ensures no_fault { (form : Form) (input : List ℕ) (left : Option (List ℕ)) (before now : Seen)
        → Answers form (Some input) left before now Done → fault_of form input ≡ None }
    ensures no_refusal { (form : Form) (input : List ℕ) (left : Option (List ℕ)) (before now : Seen)
        → Answers form (Some input) left before now Done → has_refusal form input ≡ false }
{}

/// What `Refused` says of a told input: it was read to its end, it has no fault, a request in it is refused or unanswered or a reply is to no
/// request, and exactly what is to be said of it was said.
pub fn refused_says_all()
    ensures read { (form : Form) (input : List ℕ) (left : Option (List ℕ)) (before now : Seen)
        → Answers form (Some input) left before now Refused → left ≡ Some [] }
    ensures said { (form : Form) (input said : List ℕ) (left : Option (List ℕ)) (before now : Seen)
        → before.said ≡ Some said → Answers form (Some input) left before now Refused → now.said ≡ Some (said ++ said_of form input) }
    ensures no_fault { (form : Form) (input : List ℕ) (left : Option (List ℕ)) (before now : Seen)
        → Answers form (Some input) left before now Refused → fault_of form input ≡ None }
    ensures refusal { (form : Form) (input : List ℕ) (left : Option (List ℕ)) (before now : Seen)
        → Answers form (Some input) left before now Refused → has_refusal form input ≡ true }
{}

/// What `BadInput` says of a told input: it was read to its end, exactly what stands before its fault was said, and its fault was noted where no
/// note failed.
pub fn bad_input_says_what_stands_before()
    ensures read { (form : Form) (input : List ℕ) (left : Option (List ℕ)) (before now : Seen)
        → Answers form (Some input) left before now BadInput → left ≡ Some [] }
    ensures said { (form : Form) (input said : List ℕ) (left : Option (List ℕ)) (before now : Seen)
        → before.said ≡ Some said → Answers form (Some input) left before now BadInput → now.said ≡ Some (said ++ said_of form input) }
    ensures noted { (form : Form) (input : List ℕ) (left : Option (List ℕ)) (before now : Seen)
        → Answers form (Some input) left before now BadInput → (Rose before.note_faults now.note_faults → ⊥)
        → HasFault form input (λ text. Took before.noted now.noted (note_of text)) }
{}
