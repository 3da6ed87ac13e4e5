ghost use Rattle.std.specs.Prelude.{◌≡◌, not, filter, IfOk};
ghost use Rattle.circuits.specs.MovedCircuits.{moves_by, ended_by};
ghost use Rattle.fabric_graph.specs.Routers.{AreRouters, HaveGraph};
ghost use Rattle.circuit_settling.specs.OtherLinks.{granted_at, keeps_beside, keeps_at, way_at, going_beside};

use crate::going::judged;
use crate::granting::{GrantsAfter, is_granted};
use crate::judging::Judged;
use crate::staying::{Present, stays};
use circuits::{CircuitView, CircuitsAfter};
use ctrl_model::{CircuitNo, Numbers};
use std::alloc::{AllocError, Global};

// Whether a circuit stays as it is.
fn keeps(
    alloc: Global,
    present: &Present,
    grants: &GrantsAfter,
    circuit: &CircuitView,
) -> Result<bool, AllocError>
    ensures { IfOk result (λ b. b ≡ keeps_beside present.now grants.now circuit.now) }
{
    Ok(is_granted(present, grants, circuit) && stays(alloc, present, circuit)?)
}

// Whether the circuit that will have a number stays as it is, if one will have it.
fn will_stay(
    alloc: Global,
    circuits: &CircuitsAfter,
    present: &Present,
    grants: &GrantsAfter,
    no: CircuitNo,
) -> Result<bool, AllocError>
    ensures { IfOk result (λ b. b ≡ keeps_at present.now grants.now circuits.now.circuits.rows no.0) }
{
    match circuits.get(no) {
        Some(circuit) => keeps(alloc, present, grants, &circuit),
        None => Ok(true),
    }
}

/// Those of some numbers whose circuit, if one has the number, does not stay as it is.
pub fn going_among(
    alloc: Global,
    circuits: &CircuitsAfter,
    present: &Present,
    grants: &GrantsAfter,
    numbers: &Numbers,
) -> Result<Numbers, AllocError>
    ensures { IfOk result (λ ns. ns ≡ filter (λ n. not (keeps_at present.now grants.now circuits.now.circuits.rows n)) numbers.now) }
{
    let mut going = Vec::new(alloc);
    'circuits: for number in numbers.as_slice() {
        if !will_stay(alloc, circuits, present, grants, CircuitNo(*number))? {
            going.push(*number)?;
        }
    }
    Ok(Numbers::of(going))
}

// Whether what granted the circuit stands that will have a number, if one will have it.
fn will_be_granted(
    circuits: &CircuitsAfter,
    present: &Present,
    grants: &GrantsAfter,
    no: CircuitNo,
) -> bool
    ensures { result ≡ granted_at present.now grants.now circuits.now.circuits.rows no.0 }
{
    match circuits.get(no) {
        Some(circuit) => is_granted(present, grants, &circuit),
        None => true,
    }
}

/// Those of some numbers whose circuit, if one has the number, has lost what granted it. No path is walked.
pub fn revoked_among(
    alloc: Global,
    circuits: &CircuitsAfter,
    present: &Present,
    grants: &GrantsAfter,
    numbers: &Numbers,
) -> Result<Numbers, AllocError>
    ensures { IfOk result (λ ns. ns ≡ filter (λ n. not (granted_at present.now grants.now circuits.now.circuits.rows n)) numbers.now) }
{
    let mut revoked = Vec::new(alloc);
    'circuits: for number in numbers.as_slice() {
        if !will_be_granted(circuits, present, grants, CircuitNo(*number)) {
            revoked.push(*number)?;
        }
    }
    Ok(Numbers::of(revoked))
}

// The numbers of the circuits that do not stay as they are.
fn going_circuits(
    alloc: Global,
    circuits: &CircuitsAfter,
    present: &Present,
    grants: &GrantsAfter,
) -> Result<Numbers, AllocError>
    ensures { IfOk result (λ ns. ns ≡ going_beside present.now grants.now circuits.now.circuits.rows) }
{
    let numbers = circuits.numbers(alloc)?;
    going_among(alloc, circuits, present, grants, &numbers)
}

/// What becomes of each circuit beside what is present and what is granted: it stays as it is where what granted it stands and its links are a
/// path from its ingress to the terminator's router; of the others the result names, ascending, those that end, and those
/// that go on over the least path, with their new links (docs/RULES.md, "Settling"). It changes none.
pub fn settle(
    alloc: Global,
    circuits: &CircuitsAfter,
    present: &Present,
    grants: &GrantsAfter,
) -> Result<Judged, AllocError>
    requires routers { AreRouters present.now.routers.now }
    requires links { HaveGraph present.now.fabric.now }
    ensures ended { IfOk result (λ j. j.ended ≡ ended_by (way_at present.now grants.now circuits.now.circuits.rows) (going_beside present.now grants.now circuits.now.circuits.rows)) }
    ensures moves { IfOk result (λ j. j.moves ≡ moves_by (way_at present.now grants.now circuits.now.circuits.rows) (going_beside present.now grants.now circuits.now.circuits.rows)) }
{
    let going = going_circuits(alloc, circuits, present, grants)?;
    judged(alloc, present, grants, circuits, &going)
}
