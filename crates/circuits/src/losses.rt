ghost use Rattle.std.specs.Prelude.{◌≡◌, ◌||◌, filter, IfOk};
ghost use Rattle.ctrl_model.specs.Numbered.{numbers};
ghost use Rattle.circuits.specs.LostCircuits.{names_entity, goes_over, is_lost};

use crate::grants::Circuit;
use ctrl_model::{Kind, Numbers, RouterNo};
use record_tables::{NumberedTable, is_among};
use std::alloc::{AllocError, Global};

/// What circuits lose by a change.
#[derive(Clone, Copy)]
pub enum Loss<'a> {
    /// An entity of a kind and number, if one is gone, and some links and some terminators. A router counts as gone where it is
    /// not connected any more, and a link where it is not usable.
    Gone {
        entity: Option<(Kind, u32)>,
        links: &'a Numbers,
        terminators: &'a Numbers,
    },
    /// A router may not be passed through any more. These are the links at it, and the terminators on it.
    Closed {
        router: RouterNo,
        links: &'a Numbers,
        terminators: &'a Numbers,
    },
}

// Whether a circuit is of an entity of a kind and number: of its identity, its service or the router that it enters by.
fn names_entity(circuit: &Circuit, kind: Kind, number: u32) -> bool
    ensures { result ≡ names_entity kind number circuit.now }
{
    match kind {
        Kind::Identity => circuit.identity.0 == number,
        Kind::Service => circuit.service.0 == number,
        Kind::Router => circuit.ingress.0 == number,
        _ => false,
    }
}

// Whether a circuit goes over one of some links.
fn goes_over(circuit: &Circuit, links: &Numbers) -> bool
    ensures { result ≡ goes_over links.now circuit.now }
{
    !links.is_empty()
        && circuit
            .links
            .as_slice()
            .iter()
            .any(|link| is_among(*link, links.as_slice()))
}

/// Whether a circuit cannot stay as it is after a loss.
pub fn is_lost(circuit: &Circuit, loss: &Loss) -> bool
    ensures { result ≡ is_lost loss.now circuit.now }
{
    let ends_on = circuit.terminator.0;
    match loss {
        Loss::Gone {
            entity,
            links,
            terminators,
        } => {
            let named = match entity {
                Some((kind, number)) => names_entity(circuit, *kind, *number),
                None => false,
            };
            named || goes_over(circuit, links) || is_among(ends_on, terminators.as_slice())
        }
        Loss::Closed {
            router,
            links,
            terminators,
        } => {
            goes_over(circuit, links)
                && circuit.ingress.0 != router.0
                && !is_among(ends_on, terminators.as_slice())
        }
    }
}

/// The numbers of the circuits that cannot stay as they are after a loss, ascending.
pub fn lost_in(
    alloc: Global,
    granted: &NumberedTable<Circuit>,
    loss: &Loss,
) -> Result<Numbers, AllocError>
    ensures { IfOk result (λ ns. ns ≡ numbers (filter (λ row. is_lost loss.now row.1) granted.now.rows)) }
{
    let mut lost = Vec::new(alloc);
    'circuits: for (number, circuit) in granted.rows() {
        if is_lost(circuit, loss) {
            lost.push(*number)?;
        }
    }
    Ok(Numbers::of(lost))
}
