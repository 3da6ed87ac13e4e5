ghost use Rattle.std.specs.Prelude.{◌≡◌, ◌+◌, ◌*◌, ◌≤◌, ◌<◌, ◌↔◌, ℕ, IsTrue, length, slice_index_or, false};
ghost use Rattle.bit_lanes.specs.Lanes.{Meets, bit_row};

use crate::all_bits::all_in;
use crate::any_bits::any_in;

// Whether a row has each bit of `want`, or some bit of it.
fn meets(row: &[u64], want: &[u64], all: bool) -> bool
    requires { length row.now ≡ length want.now }
    ensures { IsTrue result ↔ Meets all row.now want.now }
{
    if all {
        all_in(row, want)
    } else {
        any_in(row, want)
    }
}

/// Whether each row has each bit of `want`, or some bit of it, row by row.
pub fn match_rows(rows: &[u64], width: usize, want: &[u64], all: bool, out: &mut [bool])
    requires wide { 1 ≤ width }
    requires want { length want.now ≡ width }
    requires rows { length rows.now ≡ width * length out.old }
    ensures { (place : ℕ) → place < length out.new → (IsTrue (slice_index_or out.new place false) ↔ Meets all (bit_row rows.now width place) want.now) }
{
    'rows: for place in 0..out.len() {
        let at = place * width;
        out[place] = meets(&rows[at..at + width], want, all);
    }
}
