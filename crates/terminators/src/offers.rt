ghost use Rattle.std.specs.Prelude.{◌≡◌, IfOk};
ghost use Rattle.terminators.specs.TermRules.{is_not_bindable};

use ctrl_model::{Copies, IdentityNo, Instance, Precedence, RouterNo, ServiceNo};
use grant_denorm::Counted;
use std::alloc::AllocError;
use std::marker::Model;

/// Where a service is offered: on which router, under which instance, and by which host if by one (docs/RULES.md,
/// "Terminators"). Contracts see it as a terminator of the controller's state.
#[derive(Drop)]
pub struct Term {
    pub service: ServiceNo,
    pub router: RouterNo,
    pub instance: Instance,
    pub host: Option<IdentityNo>,
    /// What a circuit pays for ending here, 0 to 65,535.
    pub cost: u32,
    pub precedence: Precedence,
}

impl Model for Term {
    ghost use Rattle.std.specs.Prelude.{option_map};
    ghost use Rattle.ctrl_model.specs.State.{Terminator};

    ghost Value = { Terminator };

    ghost view = { λ t. record { service = t.service.0; router = t.router.0; instance = t.instance; host = option_map (λ h. h.0) t.host; cost = t.cost; precedence = t.precedence } };
}

impl Clone for Term {
    ghost use Rattle.std.specs.Prelude.{◌≡◌};

    ghost is_clone = { λ term copied. copied ≡ term };

    fn clone(&self) -> Result<Term, AllocError> {
        TermView::of(self).copied()
    }
}

/// A terminator as it will be: its instance is lent, the rest are values (`Term`). Contracts see it as a terminator of the
/// controller's state.
#[derive(Drop)]
pub struct TermView<'a> {
    pub service: ServiceNo,
    pub router: RouterNo,
    pub instance: &'a Instance,
    pub host: Option<IdentityNo>,
    pub cost: u32,
    pub precedence: Precedence,
}

impl<'a> Model for TermView<'a> {
    ghost use Rattle.std.specs.Prelude.{option_map};
    ghost use Rattle.ctrl_model.specs.State.{Terminator};

    ghost Value = { Terminator };

    ghost view = { λ t. record { service = t.service.0; router = t.router.0; instance = t.instance.now; host = option_map (λ h. h.0) t.host; cost = t.cost; precedence = t.precedence } };
}

impl<'a> TermView<'a> {
    /// A terminator as it is.
    pub fn of(term: &'a Term) -> TermView<'a>
        ensures { result ≡ term.now }
    {
        TermView {
            service: term.service,
            router: term.router,
            instance: &term.instance,
            host: term.host,
            cost: term.cost,
            precedence: term.precedence,
        }
    }

    /// The terminator with another cost and another precedence.
    pub fn set(self, cost: u32, precedence: Precedence) -> TermView<'a>
        ensures { result ≡ record self.entry { cost = cost; precedence = precedence } }
    {
        TermView {
            service: self.service,
            router: self.router,
            instance: self.instance,
            host: self.host,
            cost,
            precedence,
        }
    }

    /// An equal terminator that owns its instance.
    pub fn copied(&self) -> Result<Term, AllocError>
        ensures { IfOk result (λ t. t ≡ self.now) }
    {
        Ok(Term {
            service: self.service,
            router: self.router,
            instance: self.instance.copy()?,
            host: self.host,
            cost: self.cost,
            precedence: self.precedence,
        })
    }
}

/// Whether the terminator names a host that lacks Bind on its service.
pub fn is_not_bindable(term: &TermView, bind: &Counted) -> bool
    ensures { result ≡ is_not_bindable term.now bind.now }
{
    match term.host {
        Some(host) => bind.count(host.0, term.service.0) == 0,
        None => false,
    }
}
