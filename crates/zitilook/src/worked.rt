ghost use Rattle.std.specs.Prelude.{◌≡◌, true, false, [], ◌∷◌, codes, None, Some, Ok, Err};
ghost use Rattle.ctrl_model.specs.declared.kinds.Kind.TheVariants as kind;
ghost use Rattle.ziti_outside.specs.declared.desk.Part.TheVariants.{Zero};
ghost use Rattle.frame_lines.specs.declared.lines.LineCause.TheVariants.{UnknownType};
ghost use Rattle.record_lines.specs.declared.listing.Listed.TheVariants.{Intercepts, Records};
ghost use Rattle.zitilook.specs.declared.words.Asked.TheVariants.{List as Lists, Show, Why, Who, Dump, Picture, PictureOf, Doctor, Unknown, Misnamed, Tell};
ghost use Rattle.zitilook.specs.declared.words.Page.TheVariants.{Help, Version};
ghost use Rattle.zitilook.specs.declared.words.Place.TheVariants.{Second, Third};
ghost use Rattle.zitilook.specs.Looks.{found};
ghost use Rattle.zitilook.specs.Notes.{absent_note, damaged_note, line_note, misnamed_note, other_damaged_note, unknown_note};
ghost use Rattle.zitilook.specs.Words.{asked_of, is_diff, is_plan, other_place, word_at};

/// What words ask for.
pub fn worked_words()
    ensures identities { asked_of (codes "list" ∷ codes "identities" ∷ []) ≡ Some (Lists (Records kind.Identity)) }
    ensures services { asked_of (codes "list" ∷ codes "services" ∷ []) ≡ Some (Lists (Records kind.Service)) }
    ensures routers { asked_of (codes "list" ∷ codes "routers" ∷ []) ≡ Some (Lists (Records kind.Router)) }
    ensures links { asked_of (codes "list" ∷ codes "links" ∷ []) ≡ Some (Lists (Records kind.Link)) }
    ensures service_policies { asked_of (codes "list" ∷ codes "service-policies" ∷ []) ≡ Some (Lists (Records kind.ServicePolicy)) }
    ensures edge_router_policies { asked_of (codes "list" ∷ codes "edge-router-policies" ∷ []) ≡ Some (Lists (Records kind.EdgeRouterPolicy)) }
    ensures service_edge_router_policies { asked_of (codes "list" ∷ codes "service-edge-router-policies" ∷ []) ≡ Some (Lists (Records kind.ServiceEdgeRouterPolicy)) }
    ensures terminators { asked_of (codes "list" ∷ codes "terminators" ∷ []) ≡ Some (Lists (Records kind.Terminator)) }
    ensures circuits { asked_of (codes "list" ∷ codes "circuits" ∷ []) ≡ Some (Lists (Records kind.Circuit)) }
    ensures intercepts { asked_of (codes "list" ∷ codes "intercepts" ∷ []) ≡ Some (Lists Intercepts) }
    ensures unknown { asked_of (codes "list" ∷ codes "identity" ∷ []) ≡ Some Unknown }
    ensures show { asked_of (codes "show" ∷ codes "links" ∷ codes "l1" ∷ []) ≡ Some (Show (Records kind.Link)) }
    ensures show_any_word { asked_of (codes "show" ∷ codes "intercepts" ∷ codes "w b" ∷ []) ≡ Some (Show Intercepts) }
    ensures show_unknown { asked_of (codes "show" ∷ codes "link" ∷ codes "l1" ∷ []) ≡ Some Unknown }
    ensures show_alone { asked_of (codes "show" ∷ codes "links" ∷ []) ≡ None }
    ensures why { asked_of (codes "why" ∷ codes "ann" ∷ codes "web" ∷ []) ≡ Some Why }
    ensures who { asked_of (codes "who" ∷ codes "web" ∷ []) ≡ Some Who }
    ensures no_identity { asked_of (codes "why" ∷ codes "a b" ∷ codes "w b" ∷ []) ≡ Some (Misnamed Second) }
    ensures no_service { asked_of (codes "why" ∷ codes "ann" ∷ [] ∷ []) ≡ Some (Misnamed Third) }
    ensures nobody { asked_of (codes "who" ∷ codes "w/b" ∷ []) ≡ Some (Misnamed Second) }
    ensures dump { asked_of (codes "dump" ∷ []) ≡ Some Dump }
    ensures dump_of_a_kind { asked_of (codes "dump" ∷ codes "links" ∷ []) ≡ None }
    ensures picture { asked_of (codes "picture" ∷ []) ≡ Some Picture }
    ensures picture_of_any_word { asked_of (codes "picture" ∷ codes "ann" ∷ []) ≡ Some PictureOf }
    ensures picture_of_two { asked_of (codes "picture" ∷ codes "1" ∷ codes "2" ∷ []) ≡ None }
    ensures doctor { asked_of (codes "doctor" ∷ []) ≡ Some Doctor }
    ensures help { asked_of (codes "help" ∷ []) ≡ Some (Tell Help) }
    ensures version { asked_of (codes "version" ∷ []) ≡ Some (Tell Version) }
    ensures none { asked_of [] ≡ None }
    ensures alone { asked_of (codes "list" ∷ []) ≡ None }
    ensures two { asked_of (codes "why" ∷ codes "ann" ∷ []) ≡ None }
    ensures four { asked_of (codes "why" ∷ codes "ann" ∷ codes "web" ∷ codes "r1" ∷ []) ≡ None }
    ensures three { asked_of (codes "list" ∷ codes "links" ∷ codes "l1" ∷ []) ≡ None }
{}

/// What is noted.
pub fn worked_notes()
    ensures unknown { unknown_note (word_at Second (codes "list" ∷ codes "identity" ∷ [])) ≡ codes "zitilook: unknown kind: identity\n" }
    ensures absent { absent_note (word_at Third (codes "show" ∷ codes "links" ∷ codes "l9" ∷ [])) ≡ codes "zitilook: no record: l9\n" }
    ensures none_found { found (codes "n") [] ≡ Err (codes "n") }
    ensures found { found (codes "n") (codes "t") ≡ Ok (codes "t") }
    ensures second { misnamed_note (word_at Second (codes "who" ∷ codes "w b" ∷ [])) ≡ codes "zitilook: no name: w b\n" }
    ensures third { misnamed_note (word_at Third (codes "why" ∷ codes "ann" ∷ [] ∷ [])) ≡ codes "zitilook: no name: \n" }
    ensures no_word { word_at Third (codes "who" ∷ codes "web" ∷ []) ≡ [] }
    ensures damaged { damaged_note Zero 8 ≡ codes "zitilook: damaged: file 0 at 8\n" }
{}

/// Words that ask for the changes between two folders, and the place of the other one.
pub fn worked_diffs()
    ensures diff { is_diff (codes "diff" ∷ codes "../copy" ∷ []) ≡ true }
    ensures alone { is_diff (codes "diff" ∷ []) ≡ false }
    ensures two { is_diff (codes "diff" ∷ codes "a" ∷ codes "b" ∷ []) ≡ false }
    ensures other_word { is_diff (codes "list" ∷ codes "links" ∷ []) ≡ false }
    ensures place { other_place (codes "zitilook" ∷ codes "diff" ∷ codes "../copy" ∷ []) ≡ codes "../copy" }
    ensures no_place { other_place (codes "zitilook" ∷ codes "list" ∷ codes "links" ∷ []) ≡ codes "." }
    ensures damaged { other_damaged_note Zero 8 ≡ codes "zitilook: other folder: damaged: file 0 at 8\n" }
{}

/// The word that asks what the commands of the input would change, and the note of a line at fault.
pub fn worked_plan_words()
    ensures plan { is_plan (codes "plan" ∷ []) ≡ true }
    ensures two { is_plan (codes "plan" ∷ codes "change.lines" ∷ []) ≡ false }
    ensures other_word { is_plan (codes "doctor" ∷ []) ≡ false }
    ensures none { is_plan [] ≡ false }
    ensures fault { line_note (record { line = 2; cause = UnknownType }) ≡ codes "zitilook: line 2: unknown type\n" }
{}
