ghost use Rattle.std.specs.Prelude.{◌≡◌, [], ◌∷◌, ◌++◌, None, Some};
ghost use Rattle.ctrl_model.specs.declared.formats.Format.TheVariants.{One, Two};
ghost use Rattle.ctrl_model.specs.declared.kinds.Relation.TheVariants.{Dial, Bind, IdentityRouter, ServiceRouter};
ghost use Rattle.grant_denorm.specs.Deltas.{ups, downs};
ghost use Rattle.row_codec.specs.Batches.{batch_of, batch_bytes};
ghost use Rattle.grant_rows.specs.CountChanges.{count_after, changes_at, AreCountChanges};
ghost use Rattle.grant_rows.specs.WorkedMoves.{one_grant, up, down, two_more, there_and_back};

/// A policy that joins the identities 1 and 2 to the service 1, where another one grants the first pair already: the count of the
/// one pair goes from 1 to 2, that of the other from 0 to 1.
pub fn a_policy_that_joins_two()
    ensures raised { count_after one_grant two_more (1, 1) ≡ 2 }
    ensures first { count_after one_grant two_more (2, 1) ≡ 1 }
    ensures untouched { count_after one_grant two_more (1, 2) ≡ 0 }
    ensures changes { changes_at One Dial one_grant two_more ((1, 1) ∷ (2, 1) ∷ [])
        ≡ record { key = 12 ∷ 0 ∷ 0 ∷ 0 ∷ 1 ∷ 0 ∷ 0 ∷ 0 ∷ 1 ∷ []; before = Some (1 ∷ 0 ∷ 0 ∷ 0 ∷ []); after = Some (2 ∷ 0 ∷ 0 ∷ 0 ∷ []) }
        ∷ record { key = 12 ∷ 0 ∷ 0 ∷ 0 ∷ 2 ∷ 0 ∷ 0 ∷ 0 ∷ 1 ∷ []; before = None; after = Some (1 ∷ 0 ∷ 0 ∷ 0 ∷ []) } ∷ [] }
    ensures batch { batch_bytes (batch_of (changes_at One Dial one_grant two_more ((1, 1) ∷ (2, 1) ∷ [])))
        ≡ 1 ∷ 9 ∷ 12 ∷ 0 ∷ 0 ∷ 0 ∷ 1 ∷ 0 ∷ 0 ∷ 0 ∷ 1 ∷ 4 ∷ 0 ∷ 0 ∷ 0 ∷ 2 ∷ 0 ∷ 0 ∷ 0
        ∷ 1 ∷ 9 ∷ 12 ∷ 0 ∷ 0 ∷ 0 ∷ 2 ∷ 0 ∷ 0 ∷ 0 ∷ 1 ∷ 4 ∷ 0 ∷ 0 ∷ 0 ∷ 1 ∷ 0 ∷ 0 ∷ 0 ∷ [] }
    ensures batch_of_two { batch_bytes (batch_of (changes_at Two Dial one_grant two_more ((1, 1) ∷ (2, 1) ∷ [])))
        ≡ 1 ∷ 9 ∷ 12 ∷ 0 ∷ 0 ∷ 0 ∷ 1 ∷ 0 ∷ 0 ∷ 0 ∷ 1 ∷ 2 ∷ 0 ∷ 0 ∷ 0 ∷ 2 ∷ 0
        ∷ 1 ∷ 9 ∷ 12 ∷ 0 ∷ 0 ∷ 0 ∷ 2 ∷ 0 ∷ 0 ∷ 0 ∷ 1 ∷ 2 ∷ 0 ∷ 0 ∷ 0 ∷ 1 ∷ 0 ∷ [] }
{}

/// Steps that cancel leave the count as it was, and put no row.
pub fn steps_that_cancel()
    ensures even { ups there_and_back 1 1 ≡ downs there_and_back 1 1 }
    ensures stays { count_after one_grant there_and_back (1, 1) ≡ 1 }
    ensures none { batch_of (changes_at One Dial one_grant there_and_back ((1, 1) ∷ [])) ≡ [] }
{}

/// The last policy of a pair goes, and the pair's row with it.
pub fn a_row_goes()
    ensures count { count_after one_grant (down 1 1 ∷ []) (1, 1) ≡ 0 }
    ensures batch { batch_bytes (batch_of (changes_at One ServiceRouter one_grant (down 1 1 ∷ []) ((1, 1) ∷ []))) ≡ 2 ∷ 9 ∷ 15 ∷ 0 ∷ 0 ∷ 0 ∷ 1 ∷ 0 ∷ 0 ∷ 0 ∷ 1 ∷ [] }
{}

/// Rows of four tables, in the order of their numbers.
pub fn changes_of_four_relations()
    ensures { batch_bytes (batch_of (changes_at One Dial [] (up 1 2 ∷ []) ((1, 2) ∷ []) ++ (changes_at One Bind one_grant (down 1 1 ∷ []) ((1, 1) ∷ [])
        ++ (changes_at One IdentityRouter [] [] [] ++ changes_at One ServiceRouter one_grant (down 1 1 ∷ []) ((1, 1) ∷ [])))))
        ≡ 1 ∷ 9 ∷ 12 ∷ 0 ∷ 0 ∷ 0 ∷ 1 ∷ 0 ∷ 0 ∷ 0 ∷ 2 ∷ 4 ∷ 0 ∷ 0 ∷ 0 ∷ 1 ∷ 0 ∷ 0 ∷ 0
        ∷ 2 ∷ 9 ∷ 13 ∷ 0 ∷ 0 ∷ 0 ∷ 1 ∷ 0 ∷ 0 ∷ 0 ∷ 1 ∷ 2 ∷ 9 ∷ 15 ∷ 0 ∷ 0 ∷ 0 ∷ 1 ∷ 0 ∷ 0 ∷ 0 ∷ 1 ∷ [] }
{}
