ghost use Rattle.std.specs.Prelude.{◌≡◌, ◌<◌, ℕ, List, [], true, None, IfOk, OnOk, OnErr};
ghost use Rattle.entity_store.specs.EntityTables.{is_entity_kind, next_of, number_of, with_entity};
ghost use Rattle.entity_store.specs.KeptTables.{tables_of};
ghost use Rattle.entity_store.specs.ListedKinds.{on_kind};
ghost use Rattle.entity_store.specs.ListedRows.{with_entry};

use crate::kind_rows::{AllRows, pop_entry, push_entry};
use crate::kind_tables::{KindTables, add_row};
use ctrl_model::{Copies, Kind, Name, Names};
use std::alloc::AllocError;

/// Adds an entity under the next number, which it answers, and its name with a row without a bit. For want of memory both stay.
pub fn add_listed(
    tables: &mut KindTables,
    all: &mut AllRows,
    kind: Kind,
    name: &Name,
    attributes: &Names,
) -> Result<u32, AllocError>
    requires kind { is_entity_kind kind ≡ true }
    requires free { number_of kind name.now (tables_of tables.old []) ≡ None }
    requires room { next_of kind (tables_of tables.old []) < 4294967295 }
    ensures number { IfOk result (λ n. (held : List (List ℕ × ℕ)) → n ≡ next_of kind (tables_of tables.old held)) }
    ensures ok { OnOk result ((held : List (List ℕ × ℕ)) → tables_of tables.new held ≡ with_entity kind name.now attributes.now (tables_of tables.old held)) }
    ensures err { OnErr result ((held : List (List ℕ × ℕ)) → tables_of tables.new held ≡ tables_of tables.old held) }
    ensures listed { OnOk result (all.new ≡ on_kind kind (with_entry name.now) all.old) }
    ensures unlisted { OnErr result (all.new ≡ all.old) }
{
    push_entry(all, kind, name.copy()?)?;
    match add_row(tables, kind, name, attributes) {
        Ok(number) => Ok(number),
        Err(error) => {
            pop_entry(all, kind);
            Err(error)
        }
    }
}
