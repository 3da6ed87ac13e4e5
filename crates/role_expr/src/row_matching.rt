ghost use Rattle.std.specs.Prelude.{◌≡◌, ◌*◌, ◌<◌, ◌&&◌, ◌||◌, ℕ, List, [], not, false, is_some, length, slice_index_or};
ghost use Rattle.std.specs.List.{list_all};
ghost use Rattle.ctrl_model.specs.Matches.{has_attributes, has_name, is_nothing, matches};
ghost use Rattle.attr_pool.specs.AttributeRows.{row_words, AreRows};
ghost use Rattle.attr_pool.specs.Slots.{slot_of};

use crate::names::has_name;
use attr_pool::{Pool, WORDS};
use bit_lanes::match_rows;
use ctrl_model::{Name, Names, Semantic, Side};

// Whether a pool holds each of some attributes.
fn holds_every(pool: &Pool, wanted: &[Name]) -> bool
    ensures { result ≡ list_all (λ name. is_some (slot_of name pool.now)) wanted.now }
{
    wanted.iter().all(|name| pool.slot_of(name).is_some())
}

// Marks the entities that have wanted attributes, by their rows. Where the pool does not hold one, no entity has all of them.
fn mark_having(wanted: &Names, semantic: Semantic, rows: &[u64], pool: &Pool, out: &mut [bool])
    requires { length rows.now ≡ row_words * length out.old }
    ensures { (lists : List (List (List ℕ))) → AreRows pool.now lists rows.now → (place : ℕ) → place < length out.new
        → slice_index_or out.new place false ≡ has_attributes semantic wanted.now (slice_index_or lists place []) }
{
    match semantic {
        Semantic::AnyOf => match_rows(rows, WORDS, &pool.row_of(wanted), false, out),
        Semantic::AllOf => {
            if !wanted.as_slice().is_empty() && holds_every(pool, wanted.as_slice()) {
                match_rows(rows, WORDS, &pool.row_of(wanted), true, out);
            } else {
                out.fill(false);
            }
        }
    }
}

// Marks the entities that are named, beside those that are marked.
fn mark_named(ids: &[Name], names: &[Name], out: &mut [bool])
    requires { length names.now ≡ length out.old }
    ensures { (place : ℕ) → place < length out.new
        → slice_index_or out.new place false ≡ (has_name ids.now (slice_index_or names.now place []) || slice_index_or out.old place false) }
{
    'names: for (place, name) in names.iter().enumerate() {
        out[place] = has_name(ids, name) || out[place];
    }
}

/// Whether each of some entities matches a side, by the rows of bits of their attributes in a pool: each place of `out` becomes whether
/// the entity there does, of which `names` has the name and `rows` the words of its row.
///
/// An attribute that the pool does not hold is carried by nobody. No list of attributes at all matches nobody (docs/RULES.md,
/// "Policies and grants").
pub fn match_all(
    side: &Side,
    semantic: Semantic,
    names: &[Name],
    rows: &[u64],
    pool: &Pool,
    out: &mut [bool],
)
    requires names { length names.now ≡ length out.old }
    requires rows { length rows.now ≡ row_words * length out.old }
    // The attributes of the entities are any lists that the words are the rows of.
    ensures { (lists : List (List (List ℕ))) → AreRows pool.now lists rows.now → (place : ℕ) → place < length out.new
        → slice_index_or out.new place false ≡ matches side.now semantic (record { name = slice_index_or names.now place []; attributes = slice_index_or lists place [] }) }
{
    if side.all {
        out.fill(true);
        return;
    }
    mark_having(&side.attributes, semantic, rows, pool, out);
    mark_named(side.ids.as_slice(), names, out);
}
