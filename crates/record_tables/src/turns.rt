ghost use Rattle.std.specs.Prelude.{◌≡◌};
ghost use Rattle.ctrl_model.specs.Numbered.{Table, at, Between};
ghost use Rattle.record_tables.specs.AfterChange.{without_numbers};
ghost use Rattle.record_tables.specs.Turns.{record_turned, turned_number, turned_table};

use crate::touching::unless_gone;
use ctrl_model::Numbers;

/// What a change does to a table of records, of which a V shows one.
#[derive(Drop)]
pub enum Turn<V: Drop> {
    /// A record comes, under the next number.
    Adds(V),
    /// The record of a number is set anew.
    Sets(u32),
    /// The record of a number goes.
    Removes(u32),
    /// The records stay.
    Keeps,
}

/// A change of a table of records, of which a V shows one, or none.
pub trait RecordChange<V: Drop>: Copy {
    ghost use Rattle.record_tables.specs.declared.turns.Turn.{Turn};

    ghost turn: { Self → Turn V };

    ghost set: { Self → V → V };

    /// What it does to the table.
    fn turn(self) -> Turn<V>
        ensures { result ≡ turn self };

    /// The record as it is once set anew, where this is a change that sets one.
    fn set(self, row: V) -> V
        ensures { result ≡ set self row };
}

/// The number of the record that a change adds, sets or removes, by the next number.
pub fn changed_number<V: Drop, C: RecordChange<V>>(change: C, next: u32) -> Option<u32>
    ensures { result ≡ turned_number (C.turn change) next }
{
    match change.turn() {
        Turn::Adds(_) => Some(next),
        Turn::Sets(number) => Some(number),
        Turn::Removes(number) => Some(number),
        Turn::Keeps => None,
    }
}

// The record that a change leaves at a number, where one stands there or none does.
fn record_turned<V: Drop, C: RecordChange<V>>(
    change: C,
    next: u32,
    number: u32,
    present: Option<V>,
) -> Option<V>
    ensures { result ≡ record_turned (C.set change) (C.turn change) next number present }
{
    match change.turn() {
        Turn::Adds(record) => {
            if next == number {
                Some(record)
            } else {
                present
            }
        }
        Turn::Sets(set) => {
            let record = present?;
            if number == set {
                Some(change.set(record))
            } else {
                Some(record)
            }
        }
        Turn::Removes(gone) => { if gone == number { None } else { present } }
        Turn::Keeps => present,
    }
}

/// The record that a change leaves at a number of a table, once those of some numbers are gone too, by the next number and the record
/// that stands there.
pub fn record_after<V: Drop, C: RecordChange<V>>(
    change: C,
    next: u32,
    gone: &Numbers,
    number: u32,
    present: Option<V>,
) -> Option<V>
    ensures { (t : Table V) → t.next ≡ next → Between 1 t.next t.rows → present ≡ at t.rows number
        → result ≡ at (without_numbers gone.now (turned_table (C.set change) (C.turn change) t)).rows number }
{
    unless_gone(number, gone, record_turned(change, next, number, present))
}
