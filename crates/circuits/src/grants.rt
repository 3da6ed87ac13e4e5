ghost use Rattle.std.specs.Prelude.{◌≡◌};

use ctrl_model::{IdentityNo, Numbers, RouterNo, ServiceNo, TermNo};
use std::marker::Model;

/// A granted circuit: who uses which service at which terminator, from which router on, and over which links (docs/RULES.md,
/// "Circuits"). Contracts see it as a circuit of the controller's state.
#[derive(Drop)]
pub struct Circuit {
    pub identity: IdentityNo,
    pub service: ServiceNo,
    pub terminator: TermNo,
    /// The router that the circuit enters the network by.
    pub ingress: RouterNo,
    /// The numbers of its links, from the ingress on. None where the terminator stands on the ingress.
    pub links: Numbers,
}

impl Model for Circuit {
    ghost use Rattle.ctrl_model.specs.State as state;

    ghost Value = { state.Circuit };

    ghost view = { λ c. record { identity = c.identity.0; service = c.service.0; terminator = c.terminator.0; ingress = c.ingress.0; links = c.links } };
}

/// A circuit as it will be: its links are lent, the rest are values (`Circuit`). Contracts see it as a circuit of the controller's
/// state.
#[derive(Drop)]
pub struct CircuitView<'a> {
    pub identity: IdentityNo,
    pub service: ServiceNo,
    pub terminator: TermNo,
    pub ingress: RouterNo,
    pub links: &'a Numbers,
}

impl<'a> Model for CircuitView<'a> {
    ghost use Rattle.ctrl_model.specs.State as state;

    ghost Value = { state.Circuit };

    ghost view = { λ v. record { identity = v.identity.0; service = v.service.0; terminator = v.terminator.0; ingress = v.ingress.0; links = v.links.now } };
}

impl<'a> CircuitView<'a> {
    /// A circuit as it is.
    pub fn of(circuit: &'a Circuit) -> CircuitView<'a>
        ensures { result ≡ circuit.now }
    {
        CircuitView {
            identity: circuit.identity,
            service: circuit.service,
            terminator: circuit.terminator,
            ingress: circuit.ingress,
            links: &circuit.links,
        }
    }

    /// The circuit over other links.
    pub fn over(self, links: &'a Numbers) -> CircuitView<'a>
        ensures { result ≡ record self.entry { links = links.now } }
    {
        CircuitView {
            identity: self.identity,
            service: self.service,
            terminator: self.terminator,
            ingress: self.ingress,
            links,
        }
    }
}
