ghost use Rattle.std.specs.Prelude.{◌≡◌, IfOk};
ghost use Rattle.circuits.specs.MovedCircuits.{moves_by, ended_by};
ghost use Rattle.fabric_graph.specs.Routers.{AreRouters, IsGraphOf};
ghost use Rattle.circuit_settling.specs.OtherLinks.{way_beside, way_at};
ghost use Rattle.circuit_settling.specs.PresentRecords.{network_in};

use crate::granting::{GrantsAfter, is_granted};
use crate::rerouting::least_path;
use crate::staying::Present;
use circuits::{CircuitView, CircuitsAfter, Move, Moves};
use ctrl_model::{CircuitNo, Numbers};
use path_search::CostSearch;
use std::alloc::{AllocError, Global};

/// What becomes of circuits that do not stay as they are: the numbers of those that end, and the moves of the others.
#[derive(Drop)]
pub struct Judged {
    pub ended: Numbers,
    pub moves: Moves,
}

// The links that a circuit goes on over, if it goes on.
fn way_of(
    alloc: Global,
    present: &Present,
    grants: &GrantsAfter,
    search: &mut CostSearch,
    circuit: &CircuitView,
) -> Result<Option<Numbers>, AllocError>
    requires routers { AreRouters present.now.routers.now }
    requires graph { IsGraphOf (network_in present.now) search.old.graph }
    ensures graph { search.new.graph ≡ search.old.graph }
    ensures links { IfOk result (λ o. o ≡ way_beside present.now grants.now circuit.now) }
{
    if !is_granted(present, grants, circuit) {
        return Ok(None);
    }
    match present.terminators.get(circuit.terminator) {
        Some(term) => least_path(alloc, present, search, circuit.ingress, term.router),
        None => Ok(None),
    }
}

// The links that the circuit goes on over which will have a number, if one will have it and goes on.
fn way_at(
    alloc: Global,
    present: &Present,
    grants: &GrantsAfter,
    search: &mut CostSearch,
    circuits: &CircuitsAfter,
    no: CircuitNo,
) -> Result<Option<Numbers>, AllocError>
    requires routers { AreRouters present.now.routers.now }
    requires graph { IsGraphOf (network_in present.now) search.old.graph }
    ensures graph { search.new.graph ≡ search.old.graph }
    ensures links { IfOk result (λ o. o ≡ way_at present.now grants.now circuits.now.circuits.rows no.0) }
{
    match circuits.get(no) {
        Some(circuit) => way_of(alloc, present, grants, search, &circuit),
        None => Ok(None),
    }
}

/// What becomes of the circuits of some numbers, as they will be, that do not stay as they are: each goes on over the least path from its
/// ingress to its terminator's router, if there is one and what granted it stands, and else it ends (docs/RULES.md, "Settling"). The search is one of the graph of what is present (`search_of`) and stays one. It changes no
/// circuit.
pub fn judge(
    alloc: Global,
    present: &Present,
    grants: &GrantsAfter,
    search: &mut CostSearch,
    circuits: &CircuitsAfter,
    lost: &Numbers,
) -> Result<Judged, AllocError>
    requires routers { AreRouters present.now.routers.now }
    requires graph { IsGraphOf (network_in present.now) search.old.graph }
    ensures graph { search.new.graph ≡ search.old.graph }
    ensures ended { IfOk result (λ j. j.ended ≡ ended_by (way_at present.now grants.now circuits.now.circuits.rows) lost.now) }
    ensures moves { IfOk result (λ j. j.moves ≡ moves_by (way_at present.now grants.now circuits.now.circuits.rows) lost.now) }
{
    let mut ended = Vec::new(alloc);
    let mut moves = Vec::new(alloc);
    'lost: for number in lost.as_slice() {
        let circuit = CircuitNo(*number);
        match way_at(alloc, present, grants, search, circuits, circuit)? {
            Some(links) => moves.push(Move { circuit, links })?,
            None => ended.push(*number)?,
        }
    }
    Ok(Judged {
        ended: Numbers::of(ended),
        moves: Moves::of(moves),
    })
}
