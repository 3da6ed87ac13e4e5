ghost use Rattle.std.specs.Prelude.{◌≡◌, List, [], ◌∷◌, None, Some};
ghost use Rattle.row_codec.specs.declared.changes.Op.{Op};
ghost use Rattle.row_codec.specs.declared.changes.Op.TheVariants.{Put, Delete};
ghost use Rattle.row_codec.specs.Batches.{Spells, batch_of};

/// Bytes that spell batches, worked by hand.
pub fn worked_batches()
    ensures none { Spells [] [] }
    ensures cost { Spells (1 ∷ 1 ∷ 2 ∷ 4 ∷ 0 ∷ 0 ∷ 0 ∷ 20 ∷ 0 ∷ 0 ∷ 0 ∷ []) (Put (2 ∷ []) (20 ∷ 0 ∷ 0 ∷ 0 ∷ []) ∷ []) }
    ensures longer_key { Spells (2 ∷ 1 ∷ 2 ∷ 2 ∷ 2 ∷ 2 ∷ 0 ∷ []) (Delete (2 ∷ []) ∷ Delete (2 ∷ 0 ∷ []) ∷ []) }
{}

/// Bytes that spell no batch: an operation 3, a value cut short, a key twice, and a key out of order.
pub fn worked_no_batches()
    ensures operation { (ops : List Op) → Spells (3 ∷ 1 ∷ 2 ∷ []) ops → ⊥ }
    ensures cut { (ops : List Op) → Spells (1 ∷ 1 ∷ 2 ∷ 4 ∷ 0 ∷ 0 ∷ 0 ∷ 20 ∷ 0 ∷ 0 ∷ []) ops → ⊥ }
    ensures twice { (ops : List Op) → Spells (2 ∷ 1 ∷ 2 ∷ 2 ∷ 1 ∷ 2 ∷ []) ops → ⊥ }
    ensures out_of_order { (ops : List Op) → Spells (2 ∷ 1 ∷ 2 ∷ 2 ∷ 2 ∷ 1 ∷ 9 ∷ []) ops → ⊥ }
{}

/// What must be said of a key at which a row comes, goes, changes, stays, and never was.
pub fn worked_changes()
    ensures comes { batch_of (record { key = 2 ∷ []; before = None; after = Some (7 ∷ []) } ∷ []) ≡ Put (2 ∷ []) (7 ∷ []) ∷ [] }
    ensures goes { batch_of (record { key = 2 ∷ []; before = Some (7 ∷ []); after = None } ∷ []) ≡ Delete (2 ∷ []) ∷ [] }
    ensures other { batch_of (record { key = 2 ∷ []; before = Some (7 ∷ []); after = Some (8 ∷ []) } ∷ []) ≡ Put (2 ∷ []) (8 ∷ []) ∷ [] }
    ensures stays { batch_of (record { key = 2 ∷ []; before = Some (7 ∷ []); after = Some (7 ∷ []) } ∷ []) ≡ [] }
    ensures never { batch_of (record { key = 2 ∷ []; before = None; after = None } ∷ []) ≡ [] }
{}
