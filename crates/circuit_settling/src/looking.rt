ghost use Rattle.std.specs.Prelude.{◌≡◌, ◌||◌, filter, IfOk};
ghost use Rattle.circuits.specs.CircuitTables.{KeepsCircuits};
ghost use Rattle.ctrl_model.specs.Numbered.{numbers};
ghost use Rattle.ctrl_model.specs.Walks.{is_among};
ghost use Rattle.circuit_settling.specs.OtherLinks.{granted_at, keeps_at};
ghost use Rattle.circuit_settling.specs.LookedCircuits.{goes_none, going_by, is_looked_at, needs, term_needs};

use crate::emptying::Pairs;
use crate::going::going_after;
use crate::granting::GrantsAfter;
use crate::settling::going_among;
use crate::staying::Present;
use circuits::{Circuit, CircuitView, Circuits, CircuitsAfter};
use ctrl_model::Numbers;
use record_tables::is_among;
use std::alloc::{AllocError, Global};
use terminators::{TermView, Terminators};

/// Which circuits are looked at after a change.
#[derive(Drop)]
pub enum Look {
    /// Those whose path the change takes, none of which stays.
    Paths,
    /// These.
    These(Numbers),
    /// All.
    All,
}

// Whether the host of a terminator, if it has one, needs one of some pairs to serve.
fn term_needs(pairs: &Pairs, term: &TermView) -> bool
    ensures { result ≡ term_needs pairs.now term.now }
{
    match term.host {
        Some(host) => {
            pairs.bind.count(host.0, term.service.0) > 0
                || pairs.identity_router.count(host.0, term.router.0) > 0
                || pairs.service_router.count(term.service.0, term.router.0) > 0
        }
        None => false,
    }
}

// Whether a circuit needs one of some pairs.
fn needs(pairs: &Pairs, terminators: &Terminators, circuit: &CircuitView) -> bool
    ensures { result ≡ needs pairs.now terminators.now.terminators.rows circuit.now }
{
    pairs.dial.count(circuit.identity.0, circuit.service.0) > 0
        || pairs
            .identity_router
            .count(circuit.identity.0, circuit.ingress.0)
            > 0
        || pairs
            .service_router
            .count(circuit.service.0, circuit.ingress.0)
            > 0
        || match terminators.seen(circuit.terminator) {
            Some(term) => term_needs(pairs, &term),
            None => false,
        }
}

// Whether a circuit is looked at: it needs one of some pairs, or its path is taken.
fn is_looked_at(
    terminators: &Terminators,
    pairs: &Pairs,
    pathless: &Numbers,
    number: u32,
    circuit: &Circuit,
) -> bool
    ensures { result ≡ (needs pairs.now terminators.now.terminators.rows circuit.now || is_among number pathless.now) }
{
    needs(pairs, terminators, &CircuitView::of(circuit)) || is_among(number, pathless.as_slice())
}

// The numbers of the circuits that are looked at.
fn looked_among(
    alloc: Global,
    circuits: &Circuits,
    terminators: &Terminators,
    pairs: &Pairs,
    pathless: &Numbers,
) -> Result<Numbers, AllocError>
    ensures looked { IfOk result (λ ns. ns ≡ numbers (filter (λ row. needs pairs.now terminators.now.terminators.rows row.1 || is_among row.0 pathless.now) circuits.now.circuits.rows)) }
    ensures keeps { KeepsCircuits circuits.now }
{
    let mut looked = Vec::new(alloc);
    'circuits: for (number, circuit) in circuits.rows() {
        if is_looked_at(terminators, pairs, pathless, *number, circuit) {
            looked.push(*number)?;
        }
    }
    Ok(Numbers::of(looked))
}

/// The circuits that are looked at where some pairs are granted no more and the paths of some circuits are taken: those that need such a pair, and
/// those whose path is taken. An Err is want of memory.
pub fn looked_at(
    alloc: Global,
    circuits: &Circuits,
    terminators: &Terminators,
    pairs: &Pairs,
    pathless: &Numbers,
) -> Result<Numbers, AllocError>
    ensures { IfOk result (λ ns. ns ≡ filter (is_looked_at circuits.now.circuits.rows terminators.now.terminators.rows pairs.now pathless.now) (numbers circuits.now.circuits.rows)) }
{
    looked_among(alloc, circuits, terminators, pairs, pathless)
}

/// The circuits that do not stay as they are, of those that are looked at: of these alone it is asked. An Err is want of memory.
pub fn going_by(
    alloc: Global,
    circuits: &CircuitsAfter,
    present: &Present,
    grants: &GrantsAfter,
    pathless: &Numbers,
    look: &Look,
) -> Result<Numbers, AllocError>
    ensures { IfOk result (λ ns. ns ≡ going_by look.now pathless.now (numbers circuits.now.circuits.rows) (granted_at present.now grants.now circuits.now.circuits.rows) (keeps_at present.now grants.now circuits.now.circuits.rows)) }
{
    match look {
        Look::Paths => going_after(alloc, circuits, present, grants, pathless, true),
        Look::These(numbers) => going_among(alloc, circuits, present, grants, numbers),
        Look::All => going_after(alloc, circuits, present, grants, pathless, false),
    }
}

/// Whether none is looked at, so that each circuit stays as it is.
pub fn goes_none(look: &Look, pathless: &Numbers) -> bool
    ensures { result ≡ goes_none pathless.now look.now }
{
    match look {
        Look::Paths => pathless.len() == 0,
        Look::These(numbers) => numbers.len() == 0,
        Look::All => false,
    }
}
