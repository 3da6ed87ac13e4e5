ghost use Rattle.std.specs.Prelude.{◌≡◌};
ghost use Rattle.row_codec.specs.NarrowedRows.{is_count_key};
ghost use Rattle.row_store.specs.WrittenRows.{value_as};

/// How the rows of a store are written anew.
#[derive(Clone, Copy, PartialEq, Eq)]
pub(crate) enum Writing {
    /// As they are.
    Same,
    /// As those of the first format become rows of the second one: of each count two bytes.
    Narrowed,
}

/// The tables of counts: the first of them, and the last.
const COUNTS: (u8, u8) = (12, 15);

/// How many bytes a count of the second format has.
const NARROW: usize = 2;

// Whether a key is that of a count.
pub(crate) fn is_count_key(key: &[u8]) -> bool
    ensures { result ≡ is_count_key key.now }
{
    match key.first() {
        None => false,
        Some(table) => COUNTS.0 <= *table && *table <= COUNTS.1,
    }
}

// The value at a key, as it is written.
pub(crate) fn value_as<'a>(writing: Writing, key: &[u8], value: &'a [u8]) -> &'a [u8]
    ensures { result.now ≡ value_as writing key.now value.now }
{
    match writing {
        Writing::Same => value,
        Writing::Narrowed if is_count_key(key) => &value[..value.len().min(NARROW)],
        Writing::Narrowed => value,
    }
}
