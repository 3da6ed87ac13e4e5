ghost use Rattle.std.specs.Prelude.{◌≡◌, ℕ, nat_lt, List, [], ◌∷◌, ◌++◌, codes, None, Some};
ghost use Rattle.std.specs.Ordering.{nat_cmp};
ghost use Rattle.std.specs.declared.cmp.Ordering.TheVariants.{Less, Greater};
ghost use Rattle.ctrl_model.specs.State.{start};
ghost use Rattle.ctrl_model.specs.WorkedStates.{after, line, ann_to_web};
ghost use Rattle.ctrl_model.specs.declared.formats.Format.TheVariants.{One};
ghost use Rattle.ctrl_model.specs.declared.kinds.Kind.TheVariants as kind;
ghost use Rattle.ctrl_model.specs.declared.kinds.Relation.TheVariants.{Dial};
ghost use Rattle.ctrl_model.specs.declared.commands.Command.TheVariants.{CreateIdentity, SetLeastRouterCost, DeleteServicePolicy, DeleteCircuit};
ghost use Rattle.row_codec.specs.Batches.{batch_of, batch_bytes};
ghost use Rattle.row_laws.specs.SaidChanges.{SaysChanges};
ghost use Rattle.row_laws.specs.ChangedKeys.{Climbs, pair_cmp, next_changes, setting_change, record_changes, count_changes, gone};

/// Batches that change something with each entry, and some that do not.
pub fn worked_batches()
    ensures delete_and_put { SaysChanges nat_cmp ((1, 7 ∷ []) ∷ []) ((1, None) ∷ (2, Some (8 ∷ [])) ∷ []) }
    ensures nothing { SaysChanges nat_cmp ((1, 7 ∷ []) ∷ []) [] → ⊥ }
    ensures equal_put { SaysChanges nat_cmp ((1, 7 ∷ []) ∷ []) ((1, Some (7 ∷ [])) ∷ []) → ⊥ }
    ensures absent_deletion { SaysChanges nat_cmp ((1, 7 ∷ []) ∷ []) ((2, None) ∷ []) → ⊥ }
    ensures twice_at_a_key { SaysChanges nat_cmp ((1, 7 ∷ []) ∷ []) ((1, None) ∷ (1, Some (8 ∷ [])) ∷ []) → ⊥ }
{}

/// Numbers and pairs in order, and the numbers that go.
pub fn worked_keys()
    ensures climb { Climbs (λ n. n) (1 ∷ 3 ∷ 4 ∷ []) }
    ensures level { Climbs (λ n. n) (1 ∷ 3 ∷ 3 ∷ []) → ⊥ }
    ensures first { pair_cmp (2, 1) (1, 3) ≡ Greater }
    ensures second { pair_cmp (1, 2) (1, 3) ≡ Less }
    ensures those_that_go { gone {R = ℕ} (λ row. nat_lt row.0 2) ((1, 5) ∷ (2, 6) ∷ (3, 7) ∷ []) ≡ 2 ∷ 3 ∷ [] }
{}

/// The changes at keys of one table or two, as batches worked by hand.
pub fn worked_changes()
    ensures identity { batch_bytes (batch_of (next_changes One start (after (CreateIdentity (codes "ann") [] ∷ []) start) (kind.Identity ∷ [])
        ++ record_changes One kind.Identity start (after (CreateIdentity (codes "ann") [] ∷ []) start) (1 ∷ [])))
        ≡ 1 ∷ 2 ∷ 1 ∷ 1 ∷ 4 ∷ 0 ∷ 0 ∷ 0 ∷ 2 ∷ 0 ∷ 0 ∷ 0 ∷ 1 ∷ 5 ∷ 3 ∷ 0 ∷ 0 ∷ 0 ∷ 1 ∷ 5 ∷ 0 ∷ 0 ∷ 0 ∷ 3 ∷ 97 ∷ 110 ∷ 110 ∷ 0 ∷ [] }
    ensures setting { batch_bytes (batch_of (setting_change One line (after (SetLeastRouterCost 20 ∷ []) line) ∷ [])) ≡ 1 ∷ 1 ∷ 2 ∷ 4 ∷ 0 ∷ 0 ∷ 0 ∷ 20 ∷ 0 ∷ 0 ∷ 0 ∷ [] }
    ensures counts { batch_bytes (batch_of (count_changes One Dial line (after (DeleteServicePolicy (codes "dial") ∷ []) line) ((1, 1) ∷ [])))
        ≡ 2 ∷ 9 ∷ 12 ∷ 0 ∷ 0 ∷ 0 ∷ 1 ∷ 0 ∷ 0 ∷ 0 ∷ 1 ∷ [] }
    ensures circuit_gone { batch_bytes (batch_of (record_changes One kind.Circuit (after (ann_to_web ∷ []) line) (after (ann_to_web ∷ DeleteCircuit 1 ∷ []) line) (1 ∷ [])))
        ≡ 2 ∷ 5 ∷ 11 ∷ 0 ∷ 0 ∷ 0 ∷ 1 ∷ [] }
    ensures untouched { batch_of (record_changes One kind.Router line (after (SetLeastRouterCost 20 ∷ []) line) (1 ∷ 2 ∷ 3 ∷ [])) ≡ [] }
{}
