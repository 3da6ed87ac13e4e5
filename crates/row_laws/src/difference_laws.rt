ghost use Rattle.std.specs.Prelude.{◌≡◌, ℕ, List, []};
ghost use Rattle.std.specs.declared.cmp.Ordering.{Ordering};
ghost use Rattle.std.specs.Cmp.{IsTotalOrder};
ghost use Rattle.std.specs.FinMap.{IsAntisymmetric};
ghost use Rattle.row_codec.specs.RowDifference.{Entry, Rises, value_at, IsDifference, difference, with_batch, IsTrueDifference};
ghost use Rattle.row_laws.specs.SaidChanges.{SaysChanges};

/// Rows that rise and answer alike at every key are equal. The keys are of any type that a total order ranks.
pub fn same_answers<K, V>()
    ensures { (R : K → K → Ordering) (xs ys : List (K × V)) → IsTotalOrder R → IsAntisymmetric R → Rises R xs → Rises R ys
        → ((q : K) → value_at R xs q ≡ value_at R ys q) → xs ≡ ys }
{}

/// The computed difference of rising rows is their difference, and there is no other.
pub fn the_difference<K>()
    ensures is_one { (R : K → K → Ordering) (old new : List (K × List ℕ)) → IsTotalOrder R → IsAntisymmetric R → Rises R old → Rises R new
        → IsDifference R old new (difference R old new) }
    ensures only { (R : K → K → Ordering) (old new : List (K × List ℕ)) (batch : List (Entry K)) → IsTotalOrder R → IsAntisymmetric R
        → Rises R old → Rises R new → IsDifference R old new batch → batch ≡ difference R old new }
{}

/// The difference leads from the old rows to the new ones.
pub fn batches_lead_on<K>()
    ensures { (R : K → K → Ordering) (old new : List (K × List ℕ)) → IsTotalOrder R → IsAntisymmetric R → Rises R old → Rises R new
        → with_batch R old (difference R old new) ≡ new }
{}

/// Rows that rise do so after any batch.
pub fn rows_stay_rising<K>()
    ensures { (R : K → K → Ordering) (rows : List (K × List ℕ)) (batch : List (Entry K)) → IsTotalOrder R → IsAntisymmetric R → Rises R rows
        → Rises R (with_batch R rows batch) }
{}

/// A batch is a true difference exactly where it is not empty, its keys rise, and each of its entries changes something.
pub fn true_differences<K>()
    ensures says { (R : K → K → Ordering) (rows : List (K × List ℕ)) (batch : List (Entry K)) → IsTotalOrder R → IsAntisymmetric R → Rises R rows
        → IsTrueDifference R rows batch → SaysChanges R rows batch }
    ensures suffices { (R : K → K → Ordering) (rows : List (K × List ℕ)) (batch : List (Entry K)) → IsTotalOrder R → IsAntisymmetric R → Rises R rows
        → SaysChanges R rows batch → IsTrueDifference R rows batch }
{}

/// The difference is empty exactly between equal rows.
pub fn no_difference<K>()
    ensures same { (R : K → K → Ordering) (rows : List (K × List ℕ)) → IsTotalOrder R → IsAntisymmetric R → Rises R rows → difference R rows rows ≡ [] }
    ensures back { (R : K → K → Ordering) (old new : List (K × List ℕ)) → IsTotalOrder R → IsAntisymmetric R → Rises R old → Rises R new
        → difference R old new ≡ [] → old ≡ new }
{}
