ghost use Rattle.std.specs.Prelude.{◌≡◌, ◌==◌, ◌<◌, ℕ, not, true, false, None, count_by};
ghost use Rattle.std.specs.List.{list_all};
ghost use Rattle.ctrl_model.specs.declared.formats.Format.{Format};
ghost use Rattle.grant_denorm.specs.PairCounts.{count_of};
ghost use Rattle.row_codec.specs.RowForm.{is_row};
ghost use Rattle.row_codec.specs.RowKeys.{key_cmp};
ghost use Rattle.row_codec.specs.RowDifference.{Rises};
ghost use Rattle.state_building.specs.BuiltStates.{count_in};
ghost use Rattle.state_building.specs.JoinedRecords.{flaw_if};
ghost use Rattle.state_building.specs.declared.flaws.Flaw.TheVariants.{WrongCount};
ghost use Rattle.row_loading.specs.CountRows.{is_count_of};
ghost use Rattle.row_loading.specs.LoadedRows.{keyed};

use ctrl_model::Relation;
use grant_denorm::Counted;
use row_codec::Row;
use state_building::Flaw;

// Whether a row is a count of a relation.
fn is_count_of(row: &Row, relation: Relation) -> bool
    ensures { result ≡ is_count_of relation row.now }
{
    match relation {
        Relation::Dial => matches!(row, Row::Dial { .. }),
        Relation::Bind => matches!(row, Row::Bind { .. }),
        Relation::IdentityRouter => matches!(row, Row::IdentityRouter { .. }),
        Relation::ServiceRouter => matches!(row, Row::ServiceRouter { .. }),
    }
}

// How many rows are counts of a relation.
fn counts_in(rows: &[Row], relation: Relation) -> u64
    ensures { result ≡ count_by (is_count_of relation) rows.now }
{
    rows.iter().filter(|row| is_count_of(row, relation)).count() as u64
}

/// Whether some count of a relation has no row, among those of a format. The rows' own counts of the relation are those that are kept.
pub fn lacks_counts(rows: &[Row], relation: Relation, counted: &Counted) -> bool
    requires rows { (f : Format) × (list_all (is_row f) rows.now ≡ true) × Rises key_cmp (keyed f rows.now) }
    requires kept { (a b : ℕ) → 0 < count_in rows.now relation a b → count_in rows.now relation a b ≡ count_of counted.now a b }
    ensures all { result ≡ false → (a b : ℕ) → count_in rows.now relation a b ≡ count_of counted.now a b }
    ensures lacks { result ≡ true → (a : ℕ) × (b : ℕ) × (count_in rows.now relation a b ≡ 0) × (0 < count_of counted.now a b) }
{
    counts_in(rows, relation) < counted.pairs()
}

/// Why a count that a row tells of a pair cannot be: it is not the one that is kept.
pub fn count_flaw(counted: &Counted, a: u32, b: u32, told: u32) -> Option<Flaw>
    ensures { result ≡ flaw_if (not (count_of counted.now a b == told)) WrongCount None }
{
    if counted.count(a, b) != told {
        return Some(Flaw::WrongCount);
    }
    None
}
