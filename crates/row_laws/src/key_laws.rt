ghost use Rattle.std.specs.Prelude.{◌≡◌, true};
ghost use Rattle.std.specs.Cmp.{IsTotalOrder};
ghost use Rattle.std.specs.FinMap.{IsAntisymmetric};
ghost use Rattle.row_codec.specs.RowKeys.{Key, key_cmp, key_bytes, is_key};
ghost use Rattle.row_codec.specs.Batches.{bytes_cmp};

/// The order of keys and that of bytes are total, and tell apart what is not the same.
pub fn keys_are_ordered()
    ensures keys { IsTotalOrder key_cmp }
    ensures keys_apart { IsAntisymmetric key_cmp }
    ensures bytes { IsTotalOrder bytes_cmp }
    ensures bytes_apart { IsAntisymmetric bytes_cmp }
{}

/// The order of keys is that of their bytes, so that no two keys have the same bytes.
pub fn bytes_keep_the_order()
    ensures order { (k l : Key) → is_key k ≡ true → is_key l ≡ true → bytes_cmp (key_bytes k) (key_bytes l) ≡ key_cmp k l }
    ensures apart { (k l : Key) → is_key k ≡ true → is_key l ≡ true → key_bytes k ≡ key_bytes l → k ≡ l }
{}
