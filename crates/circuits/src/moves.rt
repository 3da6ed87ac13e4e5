ghost use Rattle.std.specs.Prelude.{◌≡◌};
ghost use Rattle.std.specs.Option.{option_map};
ghost use Rattle.circuits.specs.MovedCircuits.{with_links, moved_links, moved_table};

use crate::grants::Circuit;
use ctrl_model::{CircuitNo, Items, Numbers};
use record_tables::NumberedTable;

/// A circuit that goes over other links from now on: its number, and these links.
#[derive(Drop)]
pub struct Move {
    pub circuit: CircuitNo,
    pub links: Numbers,
}

/// A list of such circuits. Where several name one circuit, the first counts.
pub type Moves = Items<Move>;

/// The links that moves have for a circuit, if one names it.
pub fn moved_links<'a>(moves: &'a Moves, no: CircuitNo) -> Option<&'a Numbers>
    ensures { option_map (λ links. links.now) result ≡ moved_links moves.now no.0 }
{
    let named = moves
        .as_slice()
        .iter()
        .find(|change| change.circuit.0 == no.0)?;
    Some(&named.links)
}

/// Gives the circuit that has the number other links, if one has it.
pub fn set_links(granted: &mut NumberedTable<Circuit>, number: u32, links: Numbers)
    ensures { granted.new ≡ with_links number links granted.old }
{
    if granted.get(number).is_some() {
        granted.edit(number, |circuit| circuit.links = links);
    }
}

/// Moves circuits, where they are present.
pub fn move_each(granted: &mut NumberedTable<Circuit>, moves: Moves)
    ensures { granted.new ≡ moved_table moves granted.old }
{
    // The first move of a circuit comes last, and stands.
    let mut left = moves.items;
    'moves: while let Some(last) = left.pop() {
        set_links(granted, last.circuit.0, last.links);
    }
}
